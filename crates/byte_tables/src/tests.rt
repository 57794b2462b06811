use super::*;
use std::test::Fail;

/// The starts 0, 2 and 3.
const STARTS: [u8; 12] = [0, 0, 0, 0, 2, 0, 0, 0, 3, 0, 0, 0];

#[test]
fn writes_numbers(rt: HostRuntime) -> Result<(), Fail> {
    let mut bytes = Vec::new(rt.alloc());
    push_number(&mut bytes, 0)?;
    push_numbers(&mut bytes, &[2, 3])?;
    assert_eq!(rt; bytes.as_slice(), STARTS.as_slice());
    push_pair(&mut bytes, (1, 256))?;
    assert_eq!(rt; bytes.len(), 20);
    assert_eq!(rt; pair_at(&bytes[4..], 1), (1, 256));
    Ok(())
}

#[test]
fn tells_which_starts_cut_all(rt: HostRuntime) {
    assert!(rt; cut_whole(3, &STARTS));
    assert!(rt; !cut_whole(4, &STARTS));
    assert!(rt; !cut_whole(3, &STARTS[4..]));
    assert!(rt; !cut_whole(0, &[]));
    assert!(rt; cut_whole(0, &[0, 0, 0, 0]));
}
