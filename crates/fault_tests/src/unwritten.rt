//! A file that `load` did not write whole is refused by `check`; and no call is made for an empty piece.
use crate::checking::{before, ends, index_of_data, staged};
use bm_world::{MemWorld, World, WorldCall, complain_all, print_all, write_all_of};
use std::test::Fail;

/// The part that is told of a front of an index, by how many bytes it has.
fn part(bytes: usize) -> &'static str {
    if bytes < 44 {
        "index refused: header\n"
    } else {
        "index refused: length\n"
    }
}

#[test]
fn a_file_that_was_not_written_whole_is_refused(rt: HostRuntime) -> Result<(), Fail> {
    let alloc = rt.alloc();
    let index = index_of_data(alloc)?;
    for k in 1..=272u16 {
        let mut loading = staged(alloc, None)?;
        loading.fail_at(WorldCall::Write, u64::from(k))?;
        assert!(rt; loading.ask(alloc, &["load", "d", "i"])? == 6);
        let front = loading.file("i").ok_or("no file")?;
        assert!(rt; front == before(&index, k));
        let mut world = staged(alloc, Some(front))?;
        let status = world.ask(alloc, &["check", "i"])?;
        let line = part(front.len()).as_bytes();
        ends(&rt, &world, (status, 4), line, &[], (0, 0, 0));
    }
    Ok(())
}

#[test]
fn no_call_is_made_for_an_empty_text(rt: HostRuntime) -> Result<(), Fail> {
    let mut world = MemWorld::new(rt.alloc());
    world.fail_at(WorldCall::Print, 1)?;
    world.fail_at(WorldCall::Complain, 1)?;
    assert!(rt; print_all(&mut world, b"").is_ok());
    assert!(rt; complain_all(&mut world, b"").is_ok());
    assert!(rt; world.faults() == (0, 0, 0));
    // The calls that are scheduled to fail are still to come.
    assert!(rt; print_all(&mut world, b"x").is_err());
    assert!(rt; complain_all(&mut world, b"x").is_err());
    Ok(())
}

#[test]
fn no_call_is_made_for_an_empty_file(rt: HostRuntime) -> Result<(), Fail> {
    let mut world = MemWorld::new(rt.alloc());
    world.fail_at(WorldCall::Write, 1)?;
    assert!(rt; write_all_of(&mut world, "f", b"").is_ok());
    assert!(rt; world.file("f") == Some(b"".as_slice()));
    world.create("g")?;
    assert!(rt; world.write(b"x").is_err());
    Ok(())
}
