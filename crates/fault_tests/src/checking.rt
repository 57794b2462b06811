//! What the tests share: the commands, their files, and a command of which one call is scheduled to fail.
use bm_world::WorldCall;
use command_tests::{DATA, QUERY, Stage};
use std::alloc::Global;
use std::process::Abort;
use std::test::Fail;

/// What is printed when the two triples are loaded.
pub const STORED: &str = "stored triples 2 bytes 272\n";

/// What is printed when their index is checked.
pub const COUNTED: &str =
    "index ok: version 1, triples 2, shared 1, subjects 1, objects 1, predicates 1\n";

/// A command, and the text that it prints where no call fails.
#[derive(Clone, Copy, Drop)]
pub struct Command {
    pub words: &'static [&'static str],
    pub text: &'static str,
}

/// The index of the two triples, as `load` writes it.
pub fn index_of_data(alloc: Global) -> Result<Vec<u8>, Fail> {
    let mut world = Stage::with_files(alloc, DATA, QUERY)?;
    world.ask(alloc, &["load", "d", "i"])?;
    let index = world.file("i").ok_or("no index")?;
    Ok(Vec::from_slice(alloc, index)?)
}

/// A world with the data and the query, which takes one byte a call. The index is there where it is given.
pub fn staged(alloc: Global, index: Option<&[u8]>) -> Result<Stage, Fail> {
    let mut world = Stage::with_files(alloc, DATA, QUERY)?;
    if let Some(index) = index {
        world.put_file("i", index)?;
    }
    world.piece_at_most(1);
    Ok(world)
}

/// The counts after one failure of a call of this kind.
pub fn raised(call: WorldCall) -> (u64, u64, u64) {
    match call {
        WorldCall::Open | WorldCall::Read => (1, 0, 0),
        WorldCall::Complain => (0, 0, 1),
        _ => (0, 1, 0),
    }
}

/// The first bytes of a text: those that `k` calls took, of which the last one failed.
pub fn before(text: &[u8], k: u16) -> &[u8] {
    let count = usize::from(k).saturating_sub(1);
    text.get(..count).unwrap_or(text)
}

/// The status, the line and the text that stand at the end, and the counts.
pub fn ends(
    rt: &impl Abort,
    world: &Stage,
    status: (u8, u8),
    line: &[u8],
    text: &[u8],
    faults: (u64, u64, u64),
) {
    assert_eq!(rt; status.0, status.1);
    assert!(rt; world.complained() == line);
    assert!(rt; world.printed() == text);
    assert!(rt; world.faults() == faults);
    assert!(rt; world.file("d") == Some(DATA.as_bytes()));
    assert!(rt; world.file("q") == Some(QUERY.as_bytes()));
}
