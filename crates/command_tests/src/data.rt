//! Other data, and queries over it with their text.
use crate::asking::QUERY;
use crate::checking::check_answer;
use std::alloc::{AllocError, Global};
use std::test::Fail;

/// A data file, a query, and the text that answers it.
const OTHER_DATA: [(&str, &str, &str); 26] = [
    ("", QUERY, "?x[TAB]?y[TAB]?z[LF]"),
    // The last line needs no end, empty lines are lines, and a repeated line counts once.
    (
        "<urn:b> <urn:p> <urn:c> .\n\n<urn:a> <urn:p> <urn:b> .\n<urn:b> <urn:p> <urn:c> .",
        QUERY,
        "?x[TAB]?y[TAB]?z[LF]<urn:a>[TAB]<urn:b>[TAB]<urn:c>[LF]",
    ),
    // A variable that is twice in a pattern.
    (
        "<urn:a> <urn:p> <urn:a> .\n<urn:a> <urn:p> <urn:b> .",
        "SELECT * { ?x <urn:p> ?x }",
        "?x[LF]<urn:a>[LF]",
    ),
    (
        "<urn:b> <urn:p> <urn:b> .\n<urn:a!> <urn:p> <urn:b> .\n<urn:a> <urn:p> <urn:b> .",
        "SELECT * { ?9a <urn:p> <urn:b> }",
        "?9a[LF]<urn:a!>[LF]<urn:a>[LF]<urn:b>[LF]",
    ),
    (
        "<> <urn:p> <> .",
        "SELECT * { ?x <urn:p> <> }",
        "?x[LF]<>[LF]",
    ),
    // CR LF and CR end lines too; spaces, tabs and comments are no part of a triple.
    (
        "# people\r\n\t<urn:a> <urn:p> <urn:b> . # one\r\n\r\n<urn:b>\t<urn:p>\t<urn:c>\t.\r\n",
        QUERY,
        "?x[TAB]?y[TAB]?z[LF]<urn:a>[TAB]<urn:b>[TAB]<urn:c>[LF]",
    ),
    (
        "<urn:a> <urn:p> <urn:b> .\r<urn:b> <urn:p> <urn:c> . \r",
        QUERY,
        "?x[TAB]?y[TAB]?z[LF]<urn:a>[TAB]<urn:b>[TAB]<urn:c>[LF]",
    ),
    (
        "<urn:a> <urn:p> <urn:b> .\r\n# note\r\n<urn:a><urn:p><urn:b>.#x\r\n\t<urn:a> <urn:p> <urn:b> .",
        "SELECT * { ?x <urn:p> ?y }",
        "?x[TAB]?y[LF]<urn:a>[TAB]<urn:b>[LF]",
    ),
    // Blank nodes and literals. A tag is written in lower case.
    (
        "_:a.b <urn:p> _:c.\n<urn:s><urn:p>\"x\"@EN-us.\n",
        "SELECT * { ?s <urn:p> ?o }",
        "?s[TAB]?o[LF]<urn:s>[TAB]\"x\"@en-us[LF]_:a.b[TAB]_:c[LF]",
    ),
    // The datatype of a plain literal may be written.
    (
        "<urn:s> <urn:p> \"x\" .\n<urn:s> <urn:p> \"x\"^^<http://www.w3.org/2001/XMLSchema#string> .\n",
        "SELECT * { ?s <urn:p> ?o }",
        "?s[TAB]?o[LF]<urn:s>[TAB]\"x\"[LF]",
    ),
    // Escapes and characters that are the same.
    (
        "<urn:s> <urn:p> \"\\u00E9\\t\" .\n<urn:s> <urn:p> \"é\\u0009\" .\n",
        "SELECT * { ?s <urn:p> ?o }",
        "?s[TAB]?o[LF]<urn:s>[TAB]\"é\\t\"[LF]",
    ),
    // DISTINCT.
    (
        "<urn:a> <urn:p> <urn:b> .\n<urn:a> <urn:p> <urn:c> .\n",
        "SELECT ?x {?x <urn:p> ?y}",
        "?x[LF]<urn:a>[LF]<urn:a>[LF]",
    ),
    (
        "<urn:a> <urn:p> <urn:b> .\n<urn:a> <urn:p> <urn:c> .\n",
        "SELECT DISTINCT ?x {?x <urn:p> ?y}",
        "?x[LF]<urn:a>[LF]",
    ),
    // A literal, and an unbound cell.
    (
        "<urn:a> <urn:t> <urn:A> .\n<urn:b> <urn:t> <urn:A> .\n<urn:a> <urn:q> \"1\" .\n",
        "SELECT ?x ?y { ?x <urn:t> <urn:A> OPTIONAL { ?x <urn:q> ?y } }",
        "?x[TAB]?y[LF]<urn:a>[TAB]\"1\"[LF]<urn:b>[TAB][LF]",
    ),
    (
        "<urn:a> <urn:t> <urn:A> .\n<urn:b> <urn:t> <urn:A> .\n<urn:a> <urn:q> \"1\" .\n",
        "SELECT ?y ?x { ?x <urn:t> <urn:A> OPTIONAL { ?x <urn:q> ?y } }",
        "?y[TAB]?x[LF][TAB]<urn:b>[LF]\"1\"[TAB]<urn:a>[LF]",
    ),
    // A variable twice.
    (
        "<urn:a> <urn:p> <urn:a> .\n<urn:a> <urn:p> <urn:b> .\n",
        "SELECT * {?x <urn:p> ?x}",
        "?x[LF]<urn:a>[LF]",
    ),
    // The verb `a`.
    (
        "<urn:a> <http://www.w3.org/1999/02/22-rdf-syntax-ns#type> <urn:C> .\n",
        "SELECT * { ?s a <urn:C> }",
        "?s[LF]<urn:a>[LF]",
    ),
    (
        "<urn:a> <http://www.w3.org/1999/02/22-rdf-syntax-ns#type> <urn:C> .\n",
        "PREFIX a: <urn:> SELECT * { a:a a a:C }",
        "[LF][LF]",
    ),
    (
        "<urn:a> <http://www.w3.org/1999/02/22-rdf-syntax-ns#type> <urn:C> .\n",
        "SELECT * { ?a a ?s ; a ?b }",
        "?a[TAB]?s[TAB]?b[LF]<urn:a>[TAB]<urn:C>[TAB]<urn:C>[LF]",
    ),
    // Local names: a backslash is dropped, and `%` with its digits stays.
    (
        "<urn:a.b-c~,d> <urn:%41> <urn:é> .\n",
        "PREFIX u: <urn:> SELECT * { u:a.b-c\\~\\,d ?p u:é }",
        "?p[LF]<urn:%41>[LF]",
    ),
    (
        "<urn:a.b-c~,d> <urn:%41> <urn:é> .\n",
        "PREFIX u: <urn:> SELECT * { ?s u:%41 ?o }",
        "?s[TAB]?o[LF]<urn:a.b-c~,d>[TAB]<urn:é>[LF]",
    ),
    (
        "<urn:a.b-c~,d> <urn:%41> <urn:é> .\n",
        "PREFIX u: <urn:> SELECT * { ?s u:A ?o }",
        "?s[TAB]?o[LF]",
    ),
    // A number sign within a token begins no comment.
    (
        "<urn:#a> <urn:p> <urn:b> .\n",
        "PREFIX u: <urn:#> SELECT * { u:a <urn:p> ?o }#",
        "?o[LF]<urn:b>[LF]",
    ),
    (
        "<urn:#a> <urn:p> <urn:b> .\n",
        "PREFIX u: <urn:> SELECT * { u:\\#a <urn:p> ?o }",
        "?o[LF]<urn:b>[LF]",
    ),
    (
        "<urn:a> <urn:p> \"#b\" .\n",
        "SELECT * { ?s <urn:p> '#b' }",
        "?s[LF]<urn:a>[LF]",
    ),
    // Terms are printed as their canonical texts.
    (
        "_:b <urn:p> \"a\\tb\"@en .\n",
        "SELECT * { ?s <urn:p> ?o }",
        "?s[TAB]?o[LF]_:b[TAB]\"a\\tb\"@en[LF]",
    ),
];

#[test]
fn other_data(rt: HostRuntime) -> Result<(), Fail> {
    for (data, query, answer) in OTHER_DATA {
        check_answer(&rt, rt.alloc(), data, query, answer)?;
    }
    Ok(())
}

/// A triple for each of some literals.
const LITERALS: &str = r#"<urn:integer> <urn:p> "1"^^<http://www.w3.org/2001/XMLSchema#integer> .
<urn:zero> <urn:p> "01"^^<http://www.w3.org/2001/XMLSchema#integer> .
<urn:minus> <urn:p> "-1"^^<http://www.w3.org/2001/XMLSchema#integer> .
<urn:decimal> <urn:p> "1.5"^^<http://www.w3.org/2001/XMLSchema#decimal> .
<urn:double> <urn:p> "1e0"^^<http://www.w3.org/2001/XMLSchema#double> .
<urn:true> <urn:p> "true"^^<http://www.w3.org/2001/XMLSchema#boolean> .
<urn:plain> <urn:p> "x" .
<urn:tag> <urn:p> "x"@en-us .
<urn:typed> <urn:p> "x"^^<urn:t> .
<urn:mixed> <urn:p> "a'b\"c\n" .
<urn:empty> <urn:p> "" .
"#;

const DECLARATIONS: &str =
    "PREFIX xsd: <http://www.w3.org/2001/XMLSchema#> PREFIX t: <urn:t> PREFIX u: <urn:> ";

/// An object, and the text that answers which subject has it. Numbers keep their text, booleans and tags are put in
/// lower case, strings have either mark, and datatypes are IRIs of any form.
const OBJECTS: &str = r#"1 => ?s[LF]<urn:integer>[LF]
01 => ?s[LF]<urn:zero>[LF]
-1 => ?s[LF]<urn:minus>[LF]
+1 => ?s[LF]
1. => ?s[LF]<urn:integer>[LF]
1.5 => ?s[LF]<urn:decimal>[LF]
+1.5 => ?s[LF]
1.50 => ?s[LF]
.5 => ?s[LF]
1e0 => ?s[LF]<urn:double>[LF]
1E0 => ?s[LF]
1.e0 => ?s[LF]
true => ?s[LF]<urn:true>[LF]
TRUE => ?s[LF]<urn:true>[LF]
True => ?s[LF]<urn:true>[LF]
false => ?s[LF]
"x" => ?s[LF]<urn:plain>[LF]
'x' => ?s[LF]<urn:plain>[LF]
"\u0078" => ?s[LF]<urn:plain>[LF]
'\U00000078' => ?s[LF]<urn:plain>[LF]
'' => ?s[LF]<urn:empty>[LF]
"" => ?s[LF]<urn:empty>[LF]
"a'b\"c\n" => ?s[LF]<urn:mixed>[LF]
'a\'b"c\u000A' => ?s[LF]<urn:mixed>[LF]
'X' => ?s[LF]
'x'@en-us => ?s[LF]<urn:tag>[LF]
"x"@EN-US => ?s[LF]<urn:tag>[LF]
'x' @En-uS => ?s[LF]<urn:tag>[LF]
'x'@en => ?s[LF]
'x'^^<urn:t> => ?s[LF]<urn:typed>[LF]
"x" ^^ <urn:t> => ?s[LF]<urn:typed>[LF]
'x'^^<\u0075rn:t> => ?s[LF]<urn:typed>[LF]
'x'^^u:t => ?s[LF]<urn:typed>[LF]
'x'^^t: => ?s[LF]<urn:typed>[LF]
'x'^^<urn:T> => ?s[LF]
'x'^^<http://www.w3.org/2001/XMLSchema#string> => ?s[LF]<urn:plain>[LF]
'1'^^<http://www.w3.org/2001/XMLSchema#integer> => ?s[LF]<urn:integer>[LF]
'true'^^xsd:boolean => ?s[LF]<urn:true>[LF]
'x'^^xsd:string => ?s[LF]<urn:plain>[LF]
<urn:x> => ?s[LF]
'x', 'x'@en-us => ?s[LF]
"#;

fn query_of_object(alloc: Global, object: &str) -> Result<String, AllocError> {
    let mut query = String::from_str(alloc, DECLARATIONS)?;
    query.push_str("SELECT ?s { ?s <urn:p> ")?;
    query.push_str(object)?;
    query.push_str(" }")?;
    Ok(query)
}

#[test]
fn objects(rt: HostRuntime) -> Result<(), Fail> {
    let alloc = rt.alloc();
    for line in OBJECTS.lines() {
        let (object, answer) = line.split_once(" => ").ok_or("no answer")?;
        let query = query_of_object(alloc, object)?;
        check_answer(&rt, alloc, LITERALS, query.as_str(), answer)?;
    }
    Ok(())
}
