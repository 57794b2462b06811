//! What the tests share: a query is asked, and its text is compared.
use crate::stage::Stage;
use std::alloc::Global;
use std::process::Abort;
use std::test::Fail;

/// The text of some bytes, where [TAB] and [LF] are written for these.
fn shown(alloc: Global, bytes: &[u8]) -> Result<String, Fail> {
    let mut text = String::new(alloc);
    for c in str::from_utf8(bytes)?.chars() {
        match c {
            '\t' => text.push_str("[TAB]")?,
            '\n' => text.push_str("[LF]")?,
            _ => text.push(c)?,
        }
    }
    Ok(text)
}

/// Asks a query over some data, in whole pieces and in pieces of one byte. [TAB] and [LF] are written for these bytes
/// in the answer.
pub fn check_answer(
    rt: &impl Abort,
    alloc: Global,
    data: &str,
    query: &str,
    answer: &str,
) -> Result<(), Fail> {
    let mut whole = Stage::with_files(alloc, data, query)?;
    check_asked(rt, alloc, query, answer, &mut whole)?;
    let mut bytes = Stage::with_files(alloc, data, query)?;
    bytes.piece_at_most(1);
    check_asked(rt, alloc, query, answer, &mut bytes)
}

/// Asks the query of a world, and compares what is printed.
fn check_asked(
    rt: &impl Abort,
    alloc: Global,
    query: &str,
    answer: &str,
    world: &mut Stage,
) -> Result<(), Fail> {
    let status = world.ask(alloc, &["ask", "d", "q", "tsv"])?;
    assert_eq!(rt; status, 0, "{query}");
    assert_eq!(rt; shown(alloc, world.printed())?.as_str(), answer, "{query}");
    assert!(rt; world.complained().is_empty(), "{query}");
    assert!(rt; world.faults() == (0, 0, 0), "{query}");
    Ok(())
}

/// The same of a table: a line for each query, with ` => ` before its answer.
pub fn check_answers(rt: &impl Abort, alloc: Global, data: &str, table: &str) -> Result<(), Fail> {
    for line in table.lines() {
        let (query, answer) = line.split_once(" => ").ok_or("no answer")?;
        check_answer(rt, alloc, data, query, answer)?;
    }
    Ok(())
}
