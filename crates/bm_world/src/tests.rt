//! Whole files and texts, and the calls of a world in memory.
use super::*;
use std::alloc::{AllocError, Global};
use std::test::Fail;

// Whole files and texts.

#[test]
fn a_file_is_read_up_to_the_limit(rt: HostRuntime) -> Result<(), Fail> {
    let alloc = rt.alloc();
    let mut world = MemWorld::new(alloc);
    world.put_file("three", b"abc")?;
    world.put_file("four", b"abcd")?;
    world.put_file("none", b"")?;
    for (name, limit, want) in [
        ("three", 3, Ok("abc")),
        ("four", 4, Ok("abcd")),
        ("none", 0, Ok("")),
        ("four", 3, Err(ReadEnd::TooLong)),
        ("three", 0, Err(ReadEnd::TooLong)),
        ("missing", 3, Err(ReadEnd::Fault)),
    ] {
        let got = read_all(alloc, &mut world, name, limit);
        match (&got, want) {
            (Ok(bytes), Ok(text)) => assert!(rt; bytes.as_slice() == text.as_bytes(), "{name}"),
            (Err(end), Err(wanted)) => assert!(rt; *end == wanted, "{name}"),
            _ => assert!(rt; false, "{name}"),
        }
    }
    assert!(rt; world.faults() == (0, 0, 0));
    // A missing file is never opened, and each other one was opened once.
    let mut names = world.opened().iter();
    for name in ["three", "four", "none", "four", "three"] {
        assert!(rt;
            names.next().is_some_and(|opened| opened.as_str() == name),
            "{name}"
        );
    }
    assert!(rt; names.next().is_none());
    Ok(())
}

#[test]
fn a_long_file_is_read_in_pieces(rt: HostRuntime) -> Result<(), Fail> {
    let alloc = rt.alloc();
    let long = vec![in alloc; b'x'; 200_000]?;
    let mut world = MemWorld::new(alloc);
    world.put_file("long", &long)?;
    let bytes = read_all(alloc, &mut world, "long", 200_000)?;
    assert!(rt; bytes.as_slice() == long.as_slice());
    assert!(rt; read_all(alloc, &mut world, "long", 199_999).is_err());
    // No more is read than one buffer past the limit.
    assert!(rt; read_all(alloc, &mut world, "long", 1).is_err());
    let mut room = vec![in alloc; 0u8; 200_000]?;
    assert!(rt; world.read(room.as_mut_slice())? == 134_464);
    // A read in the middle fails.
    world.fail_at(WorldCall::Read, 3)?;
    assert!(rt; read_all(alloc, &mut world, "long", 200_000).is_err());
    assert!(rt; world.faults() == (1, 0, 0));
    Ok(())
}

#[test]
fn texts_are_written_after_one_another(rt: HostRuntime) -> Result<(), Fail> {
    let mut world = MemWorld::new(rt.alloc());
    print_all(&mut world, b"one ")?;
    print_all(&mut world, b"")?;
    print_all(&mut world, b"two")?;
    complain_all(&mut world, b"three")?;
    assert!(rt; world.printed() == b"one two".as_slice());
    assert!(rt; world.complained() == b"three".as_slice());
    world.fail_at(WorldCall::Print, 1)?;
    world.fail_at(WorldCall::Complain, 1)?;
    assert!(rt; print_all(&mut world, b"no") == Err(Failed));
    assert!(rt; complain_all(&mut world, b"no") == Err(Failed));
    assert!(rt; world.printed() == b"one two".as_slice());
    assert!(rt; world.complained() == b"three".as_slice());
    assert!(rt; world.faults() == (0, 1, 1));
    Ok(())
}

// The calls of a world in memory.

#[test]
fn a_whole_file_is_made(rt: HostRuntime) -> Result<(), Fail> {
    let mut world = MemWorld::new(rt.alloc());
    world.put_file("f", b"what was there")?;
    write_all_of(&mut world, "f", b"abc")?;
    assert!(rt; world.file("f") == Some(b"abc".as_slice()));
    Ok(())
}

#[test]
fn a_file_that_is_not_whole_is_made_no_more(rt: HostRuntime) -> Result<(), Fail> {
    let mut world = MemWorld::new(rt.alloc());
    world.fail_at(WorldCall::Write, 1)?;
    assert!(rt; write_all_of(&mut world, "f", b"abc") == Err(Failed));
    assert!(rt; world.file("f") == Some(b"".as_slice()));
    assert!(rt; world.faults() == (0, 1, 0));
    world.create("g")?;
    Ok(())
}

#[test]
fn a_file_is_made_once_at_a_time(rt: HostRuntime) -> Result<(), Fail> {
    let mut world = MemWorld::new(rt.alloc());
    world.put_file("f", b"old")?;
    world.create("f")?;
    assert!(rt; world.create("g") == Err(Failed));
    assert!(rt; world.write(b"ab")? == 2);
    assert!(rt; world.write(b"c")? == 1);
    world.close()?;
    assert!(rt; world.file("f") == Some(b"abc".as_slice()));
    assert!(rt; world.file("g") == None);
    // None of these is a fault: each case can be told.
    assert!(rt; world.write(b"d") == Err(Failed));
    assert!(rt; world.close() == Err(Failed));
    assert!(rt; world.open("g") == Err(Failed));
    assert!(rt; world.read(&mut [0]) == Err(Failed));
    assert!(rt; world.faults() == (0, 0, 0));
    Ok(())
}

#[test]
fn a_file_is_read_as_it_was(rt: HostRuntime) -> Result<(), Fail> {
    let mut world = MemWorld::new(rt.alloc());
    world.put_file("f", b"abc")?;
    world.open("f")?;
    world.put_file("f", b"new")?;
    let mut into = [b'-'; 2];
    assert!(rt; world.read(&mut into)? == 2);
    assert!(rt; into == *b"ab");
    assert!(rt; world.read(&mut into)? == 1);
    assert!(rt; into == *b"cb");
    assert!(rt; world.read(&mut into)? == 0);
    Ok(())
}

/// One call of this kind, in a case that is no failure.
fn one_call(world: &mut MemWorld, call: WorldCall) -> Result<(), Failed> {
    match call {
        WorldCall::Open => world.open("f"),
        WorldCall::Read => world.read(&mut [0]).map(|_| ()),
        WorldCall::Create => {
            world.create("g")?;
            world.close()
        }
        WorldCall::Write => world.write(b"x").map(|_| ()),
        WorldCall::Close => {
            world.create("g")?;
            world.close()
        }
        WorldCall::Print => world.print(b"x").map(|_| ()),
        WorldCall::Complain => world.complain(b"x").map(|_| ()),
    }
}

/// A world with a file that is open, where a call of this kind may be made.
fn ready(alloc: Global, call: WorldCall) -> Result<MemWorld, Fail> {
    let mut world = MemWorld::new(alloc);
    world.put_file("f", b"abc")?;
    world.open("f")?;
    if call == WorldCall::Write {
        world.create("g")?;
    }
    Ok(world)
}

#[test]
fn the_scheduled_call_fails(rt: HostRuntime) -> Result<(), Fail> {
    for (call, faults) in [
        (WorldCall::Open, (1, 0, 0)),
        (WorldCall::Read, (1, 0, 0)),
        (WorldCall::Create, (0, 1, 0)),
        (WorldCall::Write, (0, 1, 0)),
        (WorldCall::Close, (0, 1, 0)),
        (WorldCall::Print, (0, 1, 0)),
        (WorldCall::Complain, (0, 0, 1)),
    ] {
        for k in [1u64, 2] {
            let mut world = ready(rt.alloc(), call)?;
            world.fail_at(call, k)?;
            for i in [1u64, 2, 3] {
                assert!(rt;
                    one_call(&mut world, call).is_err() == (i == k),
                    "{call:?} at {k}, call {i}"
                );
            }
            assert!(rt; world.faults() == faults, "{call:?} at {k}");
        }
    }
    Ok(())
}

#[test]
fn a_scheduled_failure_takes_no_bytes(rt: HostRuntime) -> Result<(), Fail> {
    let mut world = ready(rt.alloc(), WorldCall::Write)?;
    world.write(b"x")?;
    world.fail_at(WorldCall::Read, 1)?;
    world.fail_at(WorldCall::Write, 1)?;
    world.fail_at(WorldCall::Close, 1)?;
    let mut into = [0; 3];
    assert!(rt; world.read(&mut into) == Err(Failed));
    assert!(rt; world.read(&mut into)? == 3);
    assert!(rt; into == *b"abc");
    assert!(rt; world.write(b"y") == Err(Failed));
    assert!(rt; world.file("g") == Some(b"x".as_slice()));
    // A file that failed to be closed is not being made any more.
    assert!(rt; world.close() == Err(Failed));
    world.create("h")?;
    assert!(rt; world.faults() == (1, 2, 0));
    Ok(())
}

#[test]
fn a_read_takes_at_most_its_piece(rt: HostRuntime) -> Result<(), Fail> {
    let alloc = rt.alloc();
    let mut world = MemWorld::new(alloc);
    world.put_file("three", b"abc")?;
    world.piece_at_most(1);
    let bytes = read_all(alloc, &mut world, "three", 3)?;
    assert!(rt; bytes.as_slice() == "abc".as_bytes());
    Ok(())
}

#[test]
fn a_print_takes_at_most_its_piece(rt: HostRuntime) -> Result<(), Fail> {
    let alloc = rt.alloc();
    let mut world = MemWorld::new(alloc);
    world.piece_at_most(1);
    assert!(rt; world.print(b"xyz")? == 1);
    print_all(&mut world, b"yz")?;
    assert!(rt; world.printed() == "xyz".as_bytes());
    Ok(())
}
