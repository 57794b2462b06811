//! What the tests share: a query is asked, and its line is compared.
use command_tests::{DATA, Stage};
use std::alloc::Global;
use std::process::Abort;
use std::test::Fail;

/// Asks a query that is refused, for this cause.
pub fn check_refusal(
    rt: &impl Abort,
    alloc: Global,
    query: &[u8],
    fault: &str,
) -> Result<(), Fail> {
    let mut world = Stage::with_files(alloc, DATA, "")?;
    world.put_file("q", query)?;
    let status = world.ask(alloc, &["ask", "d", "q", "tsv"])?;
    assert_eq!(rt; status, 3, "{fault}");
    assert!(rt; world.printed().is_empty(), "{fault}");
    let mut line = String::from_str(alloc, "query refused: ")?;
    line.push_str(fault)?;
    line.push('\n')?;
    assert_eq!(rt; str::from_utf8(world.complained())?, line.as_str());
    Ok(())
}

/// The same of a table: a line for each query, with ` => ` before the cause.
pub fn check_refusals(rt: &impl Abort, alloc: Global, table: &str) -> Result<(), Fail> {
    for line in table.lines() {
        let (query, fault) = line.split_once(" => ").ok_or("no fault")?;
        check_refusal(rt, alloc, query.as_bytes(), fault)?;
    }
    Ok(())
}
