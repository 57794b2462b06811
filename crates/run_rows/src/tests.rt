use super::*;
use std::alloc::{AllocError, Global};
use std::process::Abort;
use std::test::Fail;

/// The runs (0, 3) and (5, 1).
const ROW: [u8; 16] = [0, 0, 0, 0, 3, 0, 0, 0, 5, 0, 0, 0, 1, 0, 0, 0];
/// The runs (0, 1) and (1, 1), which touch.
const TOUCHING: [u8; 16] = [0, 0, 0, 0, 1, 0, 0, 0, 1, 0, 0, 0, 1, 0, 0, 0];

#[test]
fn writes_a_row(rt: HostRuntime) -> Result<(), Fail> {
    let bytes = encode(rt.alloc(), RowForm::V1, &[0, 1, 2, 5])?;
    assert_eq!(rt; bytes.as_slice(), ROW.as_slice());
    Ok(())
}

#[test]
fn reads_a_row(rt: HostRuntime) -> Result<(), Fail> {
    assert!(rt; check(RowForm::V1, &ROW, 5).is_none());
    assert!(rt; check(RowForm::V1, &TOUCHING, 6).is_none());
    let row = check(RowForm::V1, &ROW, 6).ok_or("a row of six columns")?;
    assert_eq!(rt; row.count(), 4);
    for (n, least) in [(0, Some(0)), (3, Some(5)), (5, Some(5)), (6, None)] {
        assert_eq!(rt; row.at_least(n), least, "from {n} on");
        assert_eq!(rt; row.test(n), least == Some(n), "at {n}");
    }
    Ok(())
}

/// The bytes of the row whose numbers are the bits of `set` from bit 1 on, less 1: a plain encoder, that
/// looks for a run at each start and of each length.
fn plain_bytes(alloc: Global, set: u32) -> Result<Vec<u8>, AllocError> {
    let mut bytes = Vec::new(alloc);
    for start in 0..4u32 {
        for len in 1..5u32 {
            let ones = (1 << len) - 1;
            let around = (set >> start) & (4 * ones + 3);
            if around == 2 * ones {
                bytes.extend_from_slice(&start.to_le_bytes())?;
                bytes.extend_from_slice(&len.to_le_bytes())?;
            }
        }
    }
    Ok(bytes)
}

/// The set of four columns whose row has these bytes.
fn plain_set(alloc: Global, bytes: &[u8]) -> Result<Option<u32>, AllocError> {
    for set in 1..16u32 {
        if plain_bytes(alloc, 2 * set)?.as_slice() == bytes {
            return Ok(Some(set));
        }
    }
    Ok(None)
}

fn set_of(row: &RowRef<'_>) -> u32 {
    let mut set = 0;
    for n in row.iter() {
        if n < 4 {
            set |= 1 << n;
        }
    }
    set
}

fn agrees(rt: &impl Abort, alloc: Global, bytes: &[u8]) -> Result<(), AllocError> {
    let plain = plain_set(alloc, bytes)?;
    let read = check(RowForm::V1, bytes, 4).map(|row| set_of(&row));
    assert_eq!(rt; read, plain, "of {bytes:?}");
    Ok(())
}

/// All strings of up to 16 bytes that are 0 or 1.
#[test]
fn agrees_on_strings_of_two_bytes(rt: HostRuntime) -> Result<(), Fail> {
    for len in 0..17usize {
        for bits in 0..1u32 << len {
            let mut bytes = [0u8; 16];
            for i in 0..16 {
                bytes[i] = (bits >> i & 1) as u8;
            }
            agrees(&rt, rt.alloc(), &bytes[..len])?;
        }
    }
    Ok(())
}

/// All strings of up to 16 bytes that begin a string of four numbers of a small alphabet.
#[test]
fn agrees_on_strings_of_seven_numbers(rt: HostRuntime) -> Result<(), Fail> {
    let alphabet = [0u32, 1, 2, 3, 4, 256, u32::MAX];
    for a in alphabet {
        for b in alphabet {
            for c in alphabet {
                for d in alphabet {
                    let mut bytes = [0u8; 16];
                    bytes[..4].copy_from_slice(&a.to_le_bytes());
                    bytes[4..8].copy_from_slice(&b.to_le_bytes());
                    bytes[8..12].copy_from_slice(&c.to_le_bytes());
                    bytes[12..].copy_from_slice(&d.to_le_bytes());
                    for len in 0..17 {
                        agrees(&rt, rt.alloc(), &bytes[..len])?;
                    }
                }
            }
        }
    }
    Ok(())
}

#[test]
fn appends_a_row(rt: HostRuntime) -> Result<(), Fail> {
    let mut bytes = vec![in rt.alloc(); 7]?;
    append(RowForm::V1, &[0, 1, 2, 5], &mut bytes)?;
    assert_eq!(rt; bytes.len(), 17);
    assert_eq!(rt; &bytes[1..], ROW.as_slice());
    assert_eq!(rt; encoded_len(RowForm::V1, &[0, 1, 2, 5]), 16);
    Ok(())
}

#[test]
fn tells_runs_and_the_same_row(rt: HostRuntime) -> Result<(), Fail> {
    let row = check(RowForm::V1, &ROW, 6).ok_or("a row of six columns")?;
    let mut ends = 0u64;
    for run in row.runs() {
        ends = ends.wrapping_mul(100).wrapping_add(run.end());
    }
    assert_eq!(rt; ends, 306);
    let front = check(RowForm::V1, &ROW[..8], 6).ok_or("a row of one run")?;
    assert!(rt; row.same(&row));
    assert!(rt; !row.same(&front));
    Ok(())
}
