//! Each call of a run fails in turn.
use bm_world::WorldCall;
use command_tests::{ANSWER, DATA, QUERY, Stage};
use std::test::Fail;

/// A call that is scheduled to fail, the status, and the line.
const FAILURES: [(WorldCall, u64, u8, &str); 8] = [
    (WorldCall::Open, 1, 5, "read fault: d\n"),
    (WorldCall::Open, 2, 5, "read fault: q\n"),
    (WorldCall::Read, 1, 5, "read fault: d\n"),
    (WorldCall::Read, 2, 5, "read fault: d\n"),
    (WorldCall::Read, 3, 5, "read fault: q\n"),
    (WorldCall::Read, 4, 5, "read fault: q\n"),
    (WorldCall::Print, 1, 6, "write fault\n"),
    (WorldCall::Complain, 1, 0, ""),
];

#[test]
fn each_call_of_a_run_fails_in_turn(rt: HostRuntime) -> Result<(), Fail> {
    let alloc = rt.alloc();
    for (call, k, wanted, line) in FAILURES {
        let mut world = Stage::with_files(alloc, DATA, QUERY)?;
        world.fail_at(call, k)?;
        let status = world.ask(alloc, &["ask", "d", "q", "tsv"])?;
        let printed = if wanted == 0 { ANSWER } else { "" };
        assert!(rt; status == wanted, "{line}");
        assert!(rt; world.printed() == printed.as_bytes(), "{line}");
        assert!(rt; world.complained() == line.as_bytes(), "{line}");
        assert!(rt; world.file("d") == Some(DATA.as_bytes()), "{line}");
    }
    Ok(())
}

/// A line in three pieces, of which one fails: the pieces before it are written, and none after it.
const PIECES: [(u64, &str); 4] = [
    (1, ""),
    (2, "read fault: "),
    (3, "read fault: e"),
    (4, "read fault: e\n"),
];

#[test]
fn a_failure_of_standard_error_changes_no_status(rt: HostRuntime) -> Result<(), Fail> {
    let alloc = rt.alloc();
    for (k, said) in PIECES {
        let mut world = Stage::with_files(alloc, DATA, QUERY)?;
        world.fail_at(WorldCall::Complain, k)?;
        let status = world.ask(alloc, &["ask", "e", "q", "tsv"])?;
        assert!(rt; status == 5, "{said}");
        assert!(rt; world.complained() == said.as_bytes(), "{said}");
    }
    let mut world = Stage::new(alloc);
    world.fail_at(WorldCall::Complain, 1)?;
    assert!(rt; world.ask(alloc, &[])? == 1);
    assert!(rt; world.complained().is_empty());
    Ok(())
}
