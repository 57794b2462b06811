//! Data and queries that are refused, with their lines.
use crate::checking::{check_refusal, check_refusals};
use command_tests::{DATA, QUERY, Stage, long_query, push_variables};
use std::test::Fail;

/// A data file, a query, the status and the line on standard error.
const REFUSALS: [(&str, &str, u8, &str); 9] = [
    // A surrogate is no character.
    (
        "<urn:a> <urn:p> <urn:b> .\n<urn:b> <urn:p> <urn:c> .\n<urn:s> <urn:p> \"\\uD800\" .\n",
        QUERY,
        2,
        "data refused: line 3\n",
    ),
    (
        "<urn:a> <urn:p> <urn:b>\n",
        QUERY,
        2,
        "data refused: line 1\n",
    ),
    (
        "\r\n\r\n<urn:a>  <urn:p> .",
        QUERY,
        2,
        "data refused: line 3\n",
    ),
    (
        "<urn:a> <urn:p> <urn:b> .\rx",
        QUERY,
        2,
        "data refused: line 2\n",
    ),
    (
        "<urn:a> <urn:p> <urn:b> . x\n",
        QUERY,
        2,
        "data refused: line 1\n",
    ),
    (
        "<urn:a> <urn:p> <urn:b c> .\n",
        QUERY,
        2,
        "data refused: line 1\n",
    ),
    // The first bad line comes before a query that is none.
    ("x", "y", 2, "data refused: line 1\n"),
    (DATA, "", 3, "query refused: syntax at byte 0\n"),
    (
        DATA,
        "SELECT * { ? <urn:p> ?y }",
        3,
        "query refused: unsupported ? at byte 11\n",
    ),
];

#[test]
fn refusals_have_their_lines(rt: HostRuntime) -> Result<(), Fail> {
    let alloc = rt.alloc();
    for (data, query, wanted, line) in REFUSALS {
        for piece in [65_536, 1] {
            let mut world = Stage::with_files(alloc, data, query)?;
            world.piece_at_most(piece);
            let status = world.ask(alloc, &["ask", "d", "q", "tsv"])?;
            assert!(rt; status == wanted, "{data} {query}");
            assert!(rt; world.printed().is_empty(), "{data} {query}");
            assert!(rt; world.complained() == line.as_bytes(), "{data} {query}");
        }
    }
    Ok(())
}

#[test]
fn a_line_that_is_not_utf_8_is_refused(rt: HostRuntime) -> Result<(), Fail> {
    let alloc = rt.alloc();
    let mut world = Stage::with_files(alloc, "", QUERY)?;
    world.put_file("d", b"<urn:a> <urn:p> <urn:b> .\n\xFF\n".as_slice())?;
    assert!(rt; world.ask(alloc, &["ask", "d", "q", "tsv"])? == 2);
    assert!(rt; world.printed().is_empty());
    assert!(rt; world.complained() == b"data refused: line 2\n".as_slice());
    Ok(())
}

// Tables of queries that are refused, a line each: a query, and what is wrong with it.

/// Faults of the grammar, at the end of the text too, and what is no token.
const SYNTAX: &str = r#"SELECT * => syntax at byte 8
SELECT => syntax at byte 6
SELECT DISTINCT => syntax at byte 15
SELECT ?x => syntax at byte 9
SELECT * WHERE => syntax at byte 14
SELECT * { => syntax at byte 10
SELECT * { ?x <urn:p> ?y => syntax at byte 24
SELECT * { {} => syntax at byte 13
SELECT * { OPTIONAL {}  => syntax at byte 23
SELECT * { ?x <urn:p> 'x'^^ => syntax at byte 27
PREFIX => syntax at byte 6
PREFIX u: => syntax at byte 9
PREFIX u: <urn:> => syntax at byte 16
PREFIX <urn:> SELECT * {} => syntax at byte 7
PREFIX u:a <urn:> SELECT * {} => syntax at byte 7
PREFIX u: u:a SELECT * {} => syntax at byte 10
PREFIX u: u: SELECT * {} => syntax at byte 10
PREFIX u: <urn:> . SELECT * {} => syntax at byte 17
PREFIXES u: <urn:> SELECT * {} => syntax at byte 0
?x SELECT * {} => syntax at byte 0
{} => syntax at byte 0
SELECT { } => syntax at byte 7
SELECT * ?x { } => syntax at byte 9
SELECT ?x, ?y { } => syntax at byte 9
SELECT DISTINCT DISTINCT * {} => syntax at byte 16
SELECT * DISTINCT {} => syntax at byte 9
SELECT * WHERE WHERE {} => syntax at byte 15
SELECT * WHEREVER {} => syntax at byte 9
SELECT <urn:x> {} => syntax at byte 7
SELECT ?x PREFIX u: <urn:> {} => syntax at byte 10
SELECT * { ?x <urn:p> } => syntax at byte 22
SELECT * { ?x } => syntax at byte 14
SELECT * { ?x . } => syntax at byte 14
SELECT * { a <urn:p> ?y } => syntax at byte 11
SELECT * { ?x A ?y } => syntax at byte 14
SELECT * { ?x 1 ?y } => syntax at byte 14
SELECT * { ?x 'p' ?y } => syntax at byte 14
SELECT * { ?x true ?y } => syntax at byte 14
SELECT * { ?x <urn:p> a } => syntax at byte 22
SELECT * { ?x <urn:p> ?y ?z } => syntax at byte 25
SELECT * { ?x <urn:p> ?y . . } => syntax at byte 27
SELECT * { . } => syntax at byte 11
SELECT * { ; } => syntax at byte 11
SELECT * { ?x ; } => syntax at byte 14
SELECT * { ?x <urn:p> ?y , } => syntax at byte 27
SELECT * { ?x <urn:p> ?y , , ?z } => syntax at byte 27
SELECT * { ?x <urn:p> ?y ; , ?z } => syntax at byte 27
SELECT * { ?x <urn:p> 1a } => syntax at byte 23
SELECT * { ?x <urn:p> TRUEST } => syntax at byte 22
SELECT * { ?x <urn:p> <urn:b>@en } => syntax at byte 29
SELECT * { ?x <urn:p> 'x'@en@de } => syntax at byte 28
SELECT * { ?x <urn:p> 'x'@en^^<urn:t> } => syntax at byte 28
SELECT * { ?x <urn:p> 'x'^^'t' } => syntax at byte 27
SELECT * { ?x <urn:p> 'x'^^?t } => syntax at byte 27
SELECT * { ?x <urn:p> 'x'^^a } => syntax at byte 27
SELECT * { ?x <urn:p> ?y ^^<urn:t> } => syntax at byte 25
SELECT * { ?x <urn:p> 1^^<urn:t> } => syntax at byte 23
SELECT * { ?x <urn:p> @en } => syntax at byte 22
SELECT * { OPTIONAL ?x <urn:p> ?y } => syntax at byte 20
SELECT * { OPTIONAL OPTIONAL {} } => syntax at byte 20
SELECT * { ?x OPTIONAL {} } => syntax at byte 14
SELECT * { {} . . } => syntax at byte 16
SELECT * {} } => syntax at byte 12
SELECT * {} {} => syntax at byte 12
SELECT * {} . => syntax at byte 12
SELECT * {} x => syntax at byte 12
SELECT * { NOT EXISTS {} } => syntax at byte 11
SELECT * { IN } => syntax at byte 11
SELECT * {} BY ?x => syntax at byte 12
SELECT ?x AS ?y {} => syntax at byte 10
SELECT * { ) } => syntax at byte 11
SELECT * { ?x <urn:p> ] } => syntax at byte 22
SELECT * { ?x && ?y } => syntax at byte 14
SELECT * { ?x <urn:p> - } => syntax at byte 22
SELECT * { ?x <urn:p> <urn: b> } => syntax at byte 22
SELECT * { ?x <urn:p> <\u0020> } => syntax at byte 22
SELECT * { ?x <urn:p> 'b } => syntax at byte 22
SELECT * { ?x <urn:p> "\uD800" } => syntax at byte 22
SELECT * { ?x <urn:p> "\x" } => syntax at byte 22
SELECT * { ?é <urn:p> é } => syntax at byte 23
PREFIX u: <urn:> SELECT * { ?x u:\p ?y } => syntax at byte 33
SELECT * { $ <urn:p> ?y } => syntax at byte 11
SELECT * { ?x <urn:p> ?y ?z u:p ?y } => syntax at byte 25
"#;

/// Words, signs and other tokens that are not supported, prefixes without a declaration, the first of two faults.
const UNSUPPORTED: &str = r#"ADD <urn:a> TO <urn:b> => unsupported ADD at byte 0
ask {} => unsupported ASK at byte 0
Base <urn:> SELECT * {} => unsupported BASE at byte 0
PREFIX u: <urn:> BASE <urn:> SELECT * {} => unsupported BASE at byte 17
SELECT * { BIND (1 AS ?x) } => unsupported BIND at byte 11
clear ALL => unsupported CLEAR at byte 0
CONSTRUCT {} {} => unsupported CONSTRUCT at byte 0
COPY <urn:a> TO <urn:b> => unsupported COPY at byte 0
CREATE GRAPH <urn:a> => unsupported CREATE at byte 0
DELETE {} {} => unsupported DELETE at byte 0
describe * => unsupported DESCRIBE at byte 0
DROP ALL => unsupported DROP at byte 0
SELECT * { ?x <urn:p> ?y FILTER(?x) } => unsupported FILTER at byte 25
SELECT * { ?x <urn:p> ?y . filter(?x) } => unsupported FILTER at byte 27
SELECT * FROM <urn:g> {} => unsupported FROM at byte 9
SELECT * { GRAPH ?g {} } => unsupported GRAPH at byte 11
SELECT * {} GROUP BY ?x => unsupported GROUP at byte 12
SELECT * {} HAVING (?x) => unsupported HAVING at byte 12
INSERT DATA {} => unsupported INSERT at byte 0
SELECT * {} LIMIT 1 => unsupported LIMIT at byte 12
LOAD <urn:a> => unsupported LOAD at byte 0
SELECT * { {} MINUS {} } => unsupported MINUS at byte 14
MOVE <urn:a> TO <urn:b> => unsupported MOVE at byte 0
SELECT * {} OFFSET 1 => unsupported OFFSET at byte 12
SELECT * {} Order by ?x => unsupported ORDER at byte 12
SELECT REDUCED * {} => unsupported REDUCED at byte 7
SELECT SELECT * {} => unsupported SELECT at byte 7
SELECT * { select * {} } => unsupported SELECT at byte 11
SELECT * { SERVICE <urn:s> {} } => unsupported SERVICE at byte 11
SELECT * { {} UNION {} } => unsupported UNION at byte 14
SELECT * { VALUES ?x { 1 } } => unsupported VALUES at byte 11
SELECT * {} VALUES ?x { 1 } => unsupported VALUES at byte 12
WITH <urn:a> DELETE {} {} => unsupported WITH at byte 0
SELECT (1 AS ?y) {} => unsupported ( at byte 7
SELECT * { () <urn:p> ?y } => unsupported ( at byte 11
SELECT * { [] <urn:p> ?y } => unsupported [ at byte 11
SELECT * { ?x <urn:p>/<urn:q> ?y } => unsupported / at byte 21
SELECT * { ?x <urn:p>|<urn:q> ?y } => unsupported | at byte 21
SELECT * { ?x ^<urn:p> ?y } => unsupported ^ at byte 14
SELECT * { ?x <urn:p>+ ?y } => unsupported + at byte 21
SELECT * { ?x <urn:p>* ?y } => unsupported * at byte 21
SELECT * * {} => unsupported * at byte 9
SELECT ?x * {} => unsupported * at byte 10
SELECT * { ?x <urn:p>? ?y } => unsupported ? at byte 21
SELECT * { ?x !<urn:p> ?y } => unsupported ! at byte 14
SELECT * { ?x <urn:p> """l""" } => unsupported """ at byte 22
SELECT * { ?x <urn:p> '''l''' } => unsupported ''' at byte 22
SELECT * { _:b <urn:p> ?y } => unsupported _: at byte 11
SELECT * { ?x <urn:p> _:b.c } => unsupported _: at byte 22
SELECT * { ?x ex:p ?y } => unknown prefix at byte 14
SELECT * { ?x : ?y } => unknown prefix at byte 14
PREFIX u: <urn:> SELECT * { ?x U:p ?y } => unknown prefix at byte 31
PREFIX u: <urn:> SELECT * { ?x <urn:p> 'x'^^v:t } => unknown prefix at byte 44
SELECT * { u:a <urn:p> ?y FILTER(?x) } => unknown prefix at byte 11
SELECT * { ?x <urn:p> ?y, u: } => unknown prefix at byte 26
SELECT * { ?x <urn:p> ?y FILTER(u:a) } => unsupported FILTER at byte 25
"#;

/// Patterns that are not well designed, and variables at places that are not answered. A fault of the text comes first.
const PATTERNS: &str =
    r#"SELECT * { ?x <urn:a> ?u OPTIONAL { ?x <urn:b> ?y } ?y <urn:c> ?v } => not well designed: optional 1, variable ?y
SELECT * { OPTIONAL { ?y <urn:p> ?z } ?x <urn:p> ?y } => not well designed: optional 1, variable ?y
SELECT ?v ?u { ?x <urn:p> ?y OPTIONAL { ?u <urn:p> ?v } OPTIONAL { ?v <urn:p> ?u } } => not well designed: optional 1, variable ?v
SELECT * { ?x <urn:p> ?y OPTIONAL { ?y <urn:p> ?z OPTIONAL { ?z <urn:p> ?x } } } => not well designed: optional 2, variable ?x
SELECT * { { ?x <urn:p> ?y OPTIONAL { ?y <urn:p> ?long } } ?u ?p ?long } => not well designed: optional 1, variable ?long
SELECT * { ?s ?p ?o } => three variables in pattern 1
SELECT * { ?s <urn:p> ?o ; <urn:q> ?p , ?q ; ?r ?t } => three variables in pattern 4
SELECT * { ?s ?p ?o . ?p <urn:p> ?o } => three variables in pattern 1
SELECT * { ?s ?p <urn:o> . <urn:a> <urn:b> ?p } => variable ?p at predicate and node places
SELECT ?q ?p { <urn:a> ?p <urn:o> OPTIONAL { ?p ?q <urn:o> OPTIONAL { ?q <urn:p> <urn:o> } } } => variable ?q at predicate and node places
SELECT * { ?s ?p ?o } LIMIT 1 => unsupported LIMIT at byte 22
"#;

const HIDDEN_FAULTS: [(&str, &str); 5] = [
    ("SELECT *\n", "syntax at byte 9"),
    ("SELECT * # {}\r\n ", "syntax at byte 16"),
    ("\u{feff}SELECT * {}", "syntax at byte 0"),
    ("SELECT * { ?x <urn:p> 'b\n' }", "syntax at byte 22"),
    ("", "syntax at byte 0"),
];

/// Bytes that are not UTF-8, which is looked at first.
const NOT_UTF_8: [(&[u8], &str); 5] = [
    (b"\xFF", "syntax at byte 0"),
    (b"SELECT * {}\xFF", "syntax at byte 11"),
    (b"FILTER \xED\xA0\x80", "syntax at byte 7"),
    (b"SELECT * {} # \xC3", "syntax at byte 14"),
    (b"SELECT ?\xC3\xA9 {} \xC0\x80", "syntax at byte 14"),
];

#[test]
fn faults_of_the_grammar(rt: HostRuntime) -> Result<(), Fail> {
    check_refusals(&rt, rt.alloc(), SYNTAX)
}

#[test]
fn what_is_not_supported(rt: HostRuntime) -> Result<(), Fail> {
    check_refusals(&rt, rt.alloc(), UNSUPPORTED)
}

#[test]
fn patterns_that_are_refused(rt: HostRuntime) -> Result<(), Fail> {
    check_refusals(&rt, rt.alloc(), PATTERNS)
}

#[test]
fn faults_beside_what_does_not_show(rt: HostRuntime) -> Result<(), Fail> {
    for (query, fault) in HIDDEN_FAULTS {
        check_refusal(&rt, rt.alloc(), query.as_bytes(), fault)?;
    }
    Ok(())
}

#[test]
fn queries_are_utf_8(rt: HostRuntime) -> Result<(), Fail> {
    for (query, fault) in NOT_UTF_8 {
        check_refusal(&rt, rt.alloc(), query, fault)?;
    }
    Ok(())
}

/// Queries past a limit: what one begins with, a part that comes so often, another that follows as often, what it ends
/// with, and the cause.
const PASSED: [(&str, &str, &str, u32, &str, &str); 4] = [
    (
        "SELECT * { ",
        "<urn:a> <urn:p> <urn:b> . ",
        "",
        257,
        "}",
        "too many patterns at byte 6683",
    ),
    (
        "SELECT * {",
        "OPTIONAL {}",
        "",
        64,
        "}",
        "too many optionals at byte 703",
    ),
    ("SELECT * ", "{", "}", 33, "", "too deep at byte 41"),
    (
        "SELECT * {",
        "{}",
        "",
        256,
        "}",
        "too many groups at byte 520",
    ),
];

#[test]
fn limits_are_passed(rt: HostRuntime) -> Result<(), Fail> {
    for (front, part, other, times, end, fault) in PASSED {
        let query = long_query(rt.alloc(), front, part, other, times, end)?;
        check_refusal(&rt, rt.alloc(), query.as_bytes(), fault)?;
    }
    Ok(())
}

#[test]
fn a_query_has_no_65_variables(rt: HostRuntime) -> Result<(), Fail> {
    let alloc = rt.alloc();
    let mut query = String::from_str(alloc, "SELECT")?;
    push_variables(&mut query, " ", " ", 65)?;
    query.push_str(" {}")?;
    check_refusal(
        &rt,
        alloc,
        query.as_bytes(),
        "too many variables at byte 318",
    )
}
