//! The table of failing calls: a command, the calls of one kind that fail in turn, the status and the line.
use crate::checking::{COUNTED, Command, STORED, before, ends, index_of_data, raised, staged};
use bm_world::WorldCall;
use command_tests::ANSWER;
use std::alloc::Global;
use std::process::Abort;
use std::test::Fail;

const ASK: Command = Command {
    words: &["ask", "d", "q", "tsv"],
    text: ANSWER,
};

const LOAD: Command = Command {
    words: &["load", "d", "i"],
    text: STORED,
};

const ASK_INDEX: Command = Command {
    words: &["query", "i", "q", "tsv"],
    text: ANSWER,
};

const CHECK: Command = Command {
    words: &["check", "i"],
    text: COUNTED,
};

/// The first and the last of the calls of a kind, each of which fails in a run of its own; the status, and the line.
type Row = (Command, WorldCall, u16, u16, u8, &'static str);

/// No command changes a file here.
const READERS: [Row; 18] = [
    (ASK, WorldCall::Open, 1, 1, 5, "read fault: d\n"),
    (ASK, WorldCall::Open, 2, 2, 5, "read fault: q\n"),
    (ASK, WorldCall::Open, 3, 3, 0, ""),
    (ASK, WorldCall::Read, 1, 53, 5, "read fault: d\n"),
    (ASK, WorldCall::Read, 54, 96, 5, "read fault: q\n"),
    (ASK, WorldCall::Read, 97, 97, 0, ""),
    (ASK, WorldCall::Print, 1, 33, 6, "write fault\n"),
    (ASK, WorldCall::Print, 34, 34, 0, ""),
    (ASK_INDEX, WorldCall::Open, 1, 1, 5, "read fault: i\n"),
    (ASK_INDEX, WorldCall::Open, 2, 2, 5, "read fault: q\n"),
    (ASK_INDEX, WorldCall::Read, 1, 273, 5, "read fault: i\n"),
    (ASK_INDEX, WorldCall::Read, 274, 316, 5, "read fault: q\n"),
    (ASK_INDEX, WorldCall::Read, 317, 317, 0, ""),
    (ASK_INDEX, WorldCall::Print, 1, 33, 6, "write fault\n"),
    (CHECK, WorldCall::Open, 1, 1, 5, "read fault: i\n"),
    (CHECK, WorldCall::Read, 1, 273, 5, "read fault: i\n"),
    (CHECK, WorldCall::Read, 274, 274, 0, ""),
    (CHECK, WorldCall::Print, 1, 78, 6, "write fault\n"),
];

/// What was printed when this call failed.
fn printed(text: &'static str, call: WorldCall, k: u16, status: u8) -> &'static [u8] {
    if status == 0 {
        text.as_bytes()
    } else if call == WorldCall::Print {
        before(text.as_bytes(), k)
    } else {
        &[]
    }
}

/// One call fails; the file `i` is `index` before, and `left` after.
fn fails(
    rt: &impl Abort,
    alloc: Global,
    row: &Row,
    k: u16,
    index: Option<&[u8]>,
    left: Option<&[u8]>,
) -> Result<(), Fail> {
    let (command, call, _, _, wanted, line) = row;
    let mut world = staged(alloc, index)?;
    world.fail_at(*call, u64::from(k))?;
    let status = world.ask(alloc, command.words)?;
    let text = printed(command.text, *call, k, *wanted);
    let faults = if *wanted == 0 {
        (0, 0, 0)
    } else {
        raised(*call)
    };
    ends(rt, &world, (status, *wanted), line.as_bytes(), text, faults);
    assert!(rt; world.file("i") == left);
    Ok(())
}

#[test]
fn each_call_of_a_reader_fails_in_turn(rt: HostRuntime) -> Result<(), Fail> {
    let alloc = rt.alloc();
    let index = index_of_data(alloc)?;
    let index = Some(index.as_slice());
    for row in &READERS {
        for k in row.2..=row.3 {
            fails(&rt, alloc, row, k, index, index)?;
        }
    }
    Ok(())
}

/// `load` writes the file `i`, which is not there before.
const WRITER: [Row; 9] = [
    (LOAD, WorldCall::Open, 1, 1, 5, "read fault: d\n"),
    (LOAD, WorldCall::Read, 1, 53, 5, "read fault: d\n"),
    (LOAD, WorldCall::Create, 1, 1, 6, "write fault\n"),
    (LOAD, WorldCall::Write, 1, 272, 6, "write fault\n"),
    (LOAD, WorldCall::Write, 273, 273, 0, ""),
    (LOAD, WorldCall::Close, 1, 1, 6, "write fault\n"),
    (LOAD, WorldCall::Close, 2, 2, 0, ""),
    (LOAD, WorldCall::Print, 1, 27, 6, "write fault\n"),
    (LOAD, WorldCall::Print, 28, 28, 0, ""),
];

/// What is left of the file when this call failed.
fn left(index: &[u8], call: WorldCall, k: u16) -> Option<&[u8]> {
    match call {
        WorldCall::Open | WorldCall::Read | WorldCall::Create => None,
        WorldCall::Write => Some(before(index, k)),
        _ => Some(index),
    }
}

#[test]
fn each_call_of_load_fails_in_turn(rt: HostRuntime) -> Result<(), Fail> {
    let alloc = rt.alloc();
    let index = index_of_data(alloc)?;
    assert!(rt; index.len() == 272);
    for row in &WRITER {
        for k in row.2..=row.3 {
            fails(&rt, alloc, row, k, None, left(&index, row.1, k))?;
        }
    }
    Ok(())
}

/// Words that end with a line, their status, and the line. The file `e` is not there.
const REFUSALS: [(&[&str], u8, &str); 5] = [
    (&[], 1, "usage: bitm"),
    (&["ask", "e", "q", "tsv"], 5, "read fault: e\n"),
    (&["load", "e", "j"], 5, "read fault: e\n"),
    (&["query", "e", "q", "tsv"], 5, "read fault: e\n"),
    (&["check", "e"], 5, "read fault: e\n"),
];

#[test]
fn each_call_of_complain_fails_in_turn(rt: HostRuntime) -> Result<(), Fail> {
    let alloc = rt.alloc();
    for (words, wanted, line) in REFUSALS {
        let mut k = 1u16;
        for _ in line.as_bytes() {
            let mut world = staged(alloc, None)?;
            world.fail_at(WorldCall::Complain, u64::from(k))?;
            let status = world.ask(alloc, words)?;
            let said = before(line.as_bytes(), k);
            ends(&rt, &world, (status, wanted), said, &[], (0, 0, 1));
            k = k.wrapping_add(1);
        }
    }
    Ok(())
}

#[test]
fn nothing_fails_where_nothing_is_scheduled(rt: HostRuntime) -> Result<(), Fail> {
    let alloc = rt.alloc();
    let index = index_of_data(alloc)?;
    for command in [ASK, LOAD, ASK_INDEX, CHECK] {
        let mut world = staged(alloc, Some(index.as_slice()))?;
        let status = world.ask(alloc, command.words)?;
        let text = command.text.as_bytes();
        ends(&rt, &world, (status, 0), &[], text, (0, 0, 0));
        assert!(rt; world.file("i") == Some(index.as_slice()));
    }
    // That a file is missing can be told: it is no fault.
    let mut world = staged(alloc, None)?;
    let status = world.ask(alloc, &["check", "i"])?;
    ends(&rt, &world, (status, 5), b"read fault: i\n", &[], (0, 0, 0));
    Ok(())
}
