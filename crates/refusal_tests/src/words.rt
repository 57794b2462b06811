//! The words of a command, and the files that it names.
use command_tests::{QUERY, Stage};
use std::test::Fail;

const USAGE: &str =
    "usage: bitmat ask DATA QUERY tsv|json | load DATA INDEX | query INDEX QUERY tsv|json | check INDEX | explain INDEX QUERY | trial N\n";

/// Words, the status and the line, where there is a file `d` and a file `q`.
const WORDS: [(&[&str], u8, &str); 13] = [
    (&[], 1, USAGE),
    (&["ask", "d", "q"], 1, USAGE),
    (&["ask", "d", "q", "xml"], 1, USAGE),
    (&["ask", "d", "q", "tsv", "x"], 1, USAGE),
    (&["--help"], 1, USAGE),
    (&["load", "d"], 1, USAGE),
    (&["query", "d", "q", "xml"], 1, USAGE),
    (&["check"], 1, USAGE),
    (&["load", "d", "i"], 2, "data refused: line 1\n"),
    (&["query", "d", "r", "tsv"], 5, "read fault: r\n"),
    (&["query", "d", "q", "tsv"], 4, "index refused: header\n"),
    (&["ask", "e", "q", "tsv"], 5, "read fault: e\n"),
    (&["ask", "d", "r", "tsv"], 5, "read fault: r\n"),
];

#[test]
fn words_and_files_are_looked_at_first(rt: HostRuntime) -> Result<(), Fail> {
    let alloc = rt.alloc();
    for (words, wanted, line) in WORDS {
        let mut world = Stage::with_files(alloc, "no data", QUERY)?;
        let status = world.ask(alloc, words)?;
        assert!(rt; status == wanted, "{line}");
        assert!(rt; world.printed().is_empty(), "{line}");
        assert!(rt; world.complained() == line.as_bytes(), "{line}");
    }
    Ok(())
}

#[test]
fn a_long_query_file_is_refused(rt: HostRuntime) -> Result<(), Fail> {
    let alloc = rt.alloc();
    let spaces = vec![in alloc; b' '; 1_048_577]?;
    let mut world = Stage::with_files(alloc, "x", "")?;
    world.put_file("q", &spaces)?;
    assert!(rt; world.ask(alloc, &["ask", "d", "q", "tsv"])? == 8);
    assert!(rt; world.complained() == b"limit: q is longer than 1048576 bytes\n".as_slice());
    Ok(())
}
