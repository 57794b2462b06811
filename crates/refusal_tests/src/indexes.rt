//! Indexes that are loaded, asked and checked, and files that are none.
use bm_world::WorldCall;
use command_tests::{ANSWER, DATA, QUERY, Stage};
use std::alloc::Global;
use std::process::Abort;
use std::test::Fail;

/// What is printed when the two triples are loaded.
const STORED: &str = "stored triples 2 bytes 272\n";

/// What is printed when their index is checked.
const COUNTED: &str =
    "index ok: version 1, triples 2, shared 1, subjects 1, objects 1, predicates 1\n";

/// Words that end with status 0, and print this at the end.
fn does(
    rt: &impl Abort,
    alloc: Global,
    words: &[&str],
    printed: &str,
    world: &mut Stage,
) -> Result<(), Fail> {
    let status = world.ask(alloc, words)?;
    assert_eq!(rt; status, 0, "{printed}");
    assert!(rt; world.printed().ends_with(printed.as_bytes()), "{printed}");
    Ok(())
}

#[test]
fn an_index_is_loaded_asked_and_checked(rt: HostRuntime) -> Result<(), Fail> {
    let alloc = rt.alloc();
    for piece in [65_536, 1] {
        let mut world = Stage::with_files(alloc, DATA, QUERY)?;
        world.piece_at_most(piece);
        does(&rt, alloc, &["load", "d", "i"], STORED, &mut world)?;
        does(&rt, alloc, &["query", "i", "q", "tsv"], ANSWER, &mut world)?;
        does(&rt, alloc, &["check", "i"], COUNTED, &mut world)?;
        assert!(rt; world.file("d") == Some(DATA.as_bytes()));
    }
    Ok(())
}

#[test]
fn an_index_may_take_the_place_of_its_data(rt: HostRuntime) -> Result<(), Fail> {
    let alloc = rt.alloc();
    let mut world = Stage::with_files(alloc, DATA, QUERY)?;
    does(&rt, alloc, &["load", "d", "d"], STORED, &mut world)?;
    does(&rt, alloc, &["query", "d", "q", "tsv"], ANSWER, &mut world)?;
    assert!(rt; world.ask(alloc, &["load", "d", "j"])? == 2);
    assert!(rt; world.complained() == b"data refused: line 1\n".as_slice());
    assert!(rt; world.file("j").is_none());
    Ok(())
}

#[test]
fn an_index_of_no_triples_has_52_bytes(rt: HostRuntime) -> Result<(), Fail> {
    let alloc = rt.alloc();
    let mut world = Stage::with_files(alloc, "", QUERY)?;
    does(
        &rt,
        alloc,
        &["load", "d", "i"],
        "stored triples 0 bytes 52\n",
        &mut world,
    )?;
    does(
        &rt,
        alloc,
        &["query", "i", "q", "tsv"],
        "?x\t?y\t?z\n",
        &mut world,
    )?;
    Ok(())
}

/// Bytes of the index that are set to others, and the part that is told.
const DAMAGES: [(&[(usize, u8)], &str); 6] = [
    (&[(0, 0)], "header"),
    (&[(64, b'x')], "terms"),
    (&[(92, 1)], "directory"),
    (&[(144, 0)], "rows"),
    (&[(176, 0), (180, 2)], "counts"),
    (&[(176, 0)], "agreement"),
];

/// A file that is no index is refused, for this part, by `check` and by `query`.
fn refuses(rt: &impl Abort, alloc: Global, index: &[u8], part: &str) -> Result<(), Fail> {
    for words in [
        ["check", "i"].as_slice(),
        ["query", "i", "q", "tsv"].as_slice(),
    ] {
        let mut world = Stage::with_files(alloc, DATA, QUERY)?;
        world.put_file("i", index)?;
        let status = world.ask(alloc, words)?;
        let line = format!(in alloc; "index refused: {part}\n")?;
        assert_eq!(rt; status, 4, "{part}");
        assert_eq!(rt; str::from_utf8(world.complained())?, line.as_str());
        assert!(rt; world.printed().is_empty(), "{part}");
    }
    Ok(())
}

#[test]
fn a_damaged_index_is_refused_by_its_part(rt: HostRuntime) -> Result<(), Fail> {
    let alloc = rt.alloc();
    let mut world = Stage::with_files(alloc, DATA, QUERY)?;
    does(&rt, alloc, &["load", "d", "i"], STORED, &mut world)?;
    let whole = world.file("i").ok_or("no index")?;
    refuses(&rt, alloc, &[], "header")?;
    let (_, front) = whole.split_last().ok_or("no byte")?;
    refuses(&rt, alloc, front, "length")?;
    for (places, part) in DAMAGES {
        let mut index = Vec::from_slice(alloc, whole)?;
        for (place, byte) in places {
            *index.get_mut(*place).ok_or("no such byte")? = *byte;
        }
        refuses(&rt, alloc, &index, part)?;
    }
    Ok(())
}

/// A call of `load` that is scheduled to fail, the status, the line, and how many bytes its file has.
const FAILURES: [(WorldCall, u8, &str, Option<usize>); 6] = [
    (WorldCall::Open, 5, "read fault: d\n", None),
    (WorldCall::Read, 5, "read fault: d\n", None),
    (WorldCall::Create, 6, "write fault\n", None),
    (WorldCall::Write, 6, "write fault\n", Some(0)),
    (WorldCall::Close, 6, "write fault\n", Some(272)),
    (WorldCall::Print, 6, "write fault\n", Some(272)),
];

#[test]
fn each_call_of_load_fails_in_turn(rt: HostRuntime) -> Result<(), Fail> {
    let alloc = rt.alloc();
    for (call, wanted, line, left) in FAILURES {
        let mut world = Stage::with_files(alloc, DATA, QUERY)?;
        world.fail_at(call, 1)?;
        let status = world.ask(alloc, &["load", "d", "i"])?;
        assert!(rt; status == wanted, "{line}");
        assert!(rt; world.printed().is_empty(), "{line}");
        assert!(rt; world.complained() == line.as_bytes(), "{line}");
        assert!(rt; world.file("i").map(|index| index.len()) == left, "{line}");
    }
    Ok(())
}
