//! Queries over the two triples, with their text.
use crate::asking::DATA;
use crate::checking::{check_answer, check_answers};
use crate::texts::{long_query, push_often, push_variables};
use std::test::Fail;

// Tables of queries over the two triples, a line each: a query, and the text that answers it. [TAB] and [LF] are written
// for those bytes.

/// Basic graph patterns: of constants alone, with a variable twice, a cross product, a triangle that is not there.
const PATTERNS: &str =
    r#"SELECT * { ?x <urn:p> ?y . ?y <urn:p> ?z } => ?x[TAB]?y[TAB]?z[LF]<urn:a>[TAB]<urn:b>[TAB]<urn:c>[LF]
SELECT * { ?x <urn:p> ?x } => ?x[LF]
SELECT * { <urn:a> <urn:p> <urn:b> } => [LF][LF]
SELECT * { <urn:a> <urn:p> <urn:c> } => [LF]
SELECT * { <urn:a> <urn:p> <urn:b> . ?x <urn:p> <urn:c> } => ?x[LF]<urn:b>[LF]
SELECT * { ?x <urn:p> <urn:b> . ?y <urn:p> ?z } => ?x[TAB]?y[TAB]?z[LF]<urn:a>[TAB]<urn:a>[TAB]<urn:b>[LF]<urn:a>[TAB]<urn:b>[TAB]<urn:c>[LF]
SELECT * { ?x <urn:p> ?y . ?y <urn:p> ?z . ?z <urn:p> ?x } => ?x[TAB]?y[TAB]?z[LF]
SELECT * { ?y <urn:p> ?x } => ?y[TAB]?x[LF]<urn:a>[TAB]<urn:b>[LF]<urn:b>[TAB]<urn:c>[LF]
SELECT * { } => [LF][LF]
SELECT * { ?x ?p <urn:b> . <urn:b> ?p ?y } => ?x[TAB]?p[TAB]?y[LF]<urn:a>[TAB]<urn:p>[TAB]<urn:c>[LF]
SELECT * { ?x_1 <urn:p> ?y } => ?x_1[TAB]?y[LF]<urn:a>[TAB]<urn:b>[LF]<urn:b>[TAB]<urn:c>[LF]
select * { ?x <urn:p> ?y } => ?x[TAB]?y[LF]<urn:a>[TAB]<urn:b>[LF]<urn:b>[TAB]<urn:c>[LF]
"#;

/// Columns: named, all, named twice, without occurrence; DISTINCT.
const COLUMNS: &str =
    r#"SELECT * {?x <urn:p> ?y} => ?x[TAB]?y[LF]<urn:a>[TAB]<urn:b>[LF]<urn:b>[TAB]<urn:c>[LF]
SELECT ?x ?y { ?x <urn:p> ?y } => ?x[TAB]?y[LF]<urn:a>[TAB]<urn:b>[LF]<urn:b>[TAB]<urn:c>[LF]
SELECT ?y ?x { ?x <urn:p> ?y } => ?y[TAB]?x[LF]<urn:b>[TAB]<urn:a>[LF]<urn:c>[TAB]<urn:b>[LF]
SELECT ?x ?x { ?x <urn:p> ?y } => ?x[LF]<urn:a>[LF]<urn:b>[LF]
SELECT ?y ?x ?y { ?x <urn:p> ?y } => ?y[TAB]?x[LF]<urn:b>[TAB]<urn:a>[LF]<urn:c>[TAB]<urn:b>[LF]
SELECT ?x ?w ?y { ?x <urn:p> ?y } => ?x[TAB]?w[TAB]?y[LF]<urn:a>[TAB][TAB]<urn:b>[LF]<urn:b>[TAB][TAB]<urn:c>[LF]
SELECT ?w { ?x <urn:p> ?y } => ?w[LF][LF][LF]
SELECT DISTINCT ?w { ?x <urn:p> ?y } => ?w[LF][LF]
SELECT DISTINCT * { ?x <urn:p> ?y } => ?x[TAB]?y[LF]<urn:a>[TAB]<urn:b>[LF]<urn:b>[TAB]<urn:c>[LF]
SELECT ?x {} => ?x[LF][LF]
"#;

/// Keywords in either case, tokens without white space between them, variables, prefixes.
const NAMES: &str =
    r#"select * where { ?x <urn:p> ?y } => ?x[TAB]?y[LF]<urn:a>[TAB]<urn:b>[LF]<urn:b>[TAB]<urn:c>[LF]
SeLeCt*WhErE{?x<urn:p>?y} => ?x[TAB]?y[LF]<urn:a>[TAB]<urn:b>[LF]<urn:b>[TAB]<urn:c>[LF]
select distinct?x?y where{?x<urn:p>?y} => ?x[TAB]?y[LF]<urn:a>[TAB]<urn:b>[LF]<urn:b>[TAB]<urn:c>[LF]
SELECT * { $x <urn:p> $y } => ?x[TAB]?y[LF]<urn:a>[TAB]<urn:b>[LF]<urn:b>[TAB]<urn:c>[LF]
SELECT $x ?y { ?x <urn:p> $y } => ?x[TAB]?y[LF]<urn:a>[TAB]<urn:b>[LF]<urn:b>[TAB]<urn:c>[LF]
SELECT * { ?x <urn:p> $x } => ?x[LF]
SELECT * { ?1 <urn:p> ?_é } => ?1[TAB]?_é[LF]<urn:a>[TAB]<urn:b>[LF]<urn:b>[TAB]<urn:c>[LF]
SELECT * { ?x <urn:p> ?X } => ?x[TAB]?X[LF]<urn:a>[TAB]<urn:b>[LF]<urn:b>[TAB]<urn:c>[LF]
SELECT * {<urn:a> ?p ?o} => ?p[TAB]?o[LF]<urn:p>[TAB]<urn:b>[LF]
PREFIX u: <urn:> SELECT * { ?x u:p ?y } => ?x[TAB]?y[LF]<urn:a>[TAB]<urn:b>[LF]<urn:b>[TAB]<urn:c>[LF]
prefix : <urn:> select * { ?x :p ?y } => ?x[TAB]?y[LF]<urn:a>[TAB]<urn:b>[LF]<urn:b>[TAB]<urn:c>[LF]
PREFIX u: <urn:> PREFIX v: <urn:> SELECT * { u:a v:p ?y } => ?y[LF]<urn:b>[LF]
PREFIX p: <urn:p> SELECT * { ?x p: ?y } => ?x[TAB]?y[LF]<urn:a>[TAB]<urn:b>[LF]<urn:b>[TAB]<urn:c>[LF]
PREFIX p: <urn:q> PREFIX p: <urn:p> SELECT * { ?x p: ?y } => ?x[TAB]?y[LF]<urn:a>[TAB]<urn:b>[LF]<urn:b>[TAB]<urn:c>[LF]
PREFIX p: <urn:p> PREFIX p: <urn:q> SELECT * { ?x p: ?y } => ?x[TAB]?y[LF]
PREFIX u: <\u0075rn:> SELECT * { ?x u:p ?y } => ?x[TAB]?y[LF]<urn:a>[TAB]<urn:b>[LF]<urn:b>[TAB]<urn:c>[LF]
SELECT * { ?x <\U00000075rn:\u0070> ?y } => ?x[TAB]?y[LF]<urn:a>[TAB]<urn:b>[LF]<urn:b>[TAB]<urn:c>[LF]
PREFIX é.1-: <urn:> SELECT * { ?x é.1-:p ?y } => ?x[TAB]?y[LF]<urn:a>[TAB]<urn:b>[LF]<urn:b>[TAB]<urn:c>[LF]
PREFIX : <> SELECT * { ?x :urn:p ?y } => ?x[TAB]?y[LF]<urn:a>[TAB]<urn:b>[LF]<urn:b>[TAB]<urn:c>[LF]
PREFIX : <urn:> SELECT * {?x:p?y} => ?x[TAB]?y[LF]<urn:a>[TAB]<urn:b>[LF]<urn:b>[TAB]<urn:c>[LF]
PREFIX a: <urn:> SELECT * { a:a a:p ?y. } => ?y[LF]<urn:b>[LF]
PREFIX select: <urn:> SELECT * { select:a select:p ?select } => ?select[LF]<urn:b>[LF]
"#;

/// Blocks, and lists of verbs and objects; a literal as the subject matches nothing.
const LISTS: &str =
    r#"SELECT * { ?x <urn:p> ?y . } => ?x[TAB]?y[LF]<urn:a>[TAB]<urn:b>[LF]<urn:b>[TAB]<urn:c>[LF]
SELECT * { ?x <urn:p> ?y . ?y <urn:p> ?z . } => ?x[TAB]?y[TAB]?z[LF]<urn:a>[TAB]<urn:b>[TAB]<urn:c>[LF]
SELECT * { ?x <urn:p> ?y ; } => ?x[TAB]?y[LF]<urn:a>[TAB]<urn:b>[LF]<urn:b>[TAB]<urn:c>[LF]
SELECT * { ?x <urn:p> ?y ;;; . } => ?x[TAB]?y[LF]<urn:a>[TAB]<urn:b>[LF]<urn:b>[TAB]<urn:c>[LF]
SELECT * { ?x <urn:p> ?y ; <urn:p> ?z } => ?x[TAB]?y[TAB]?z[LF]<urn:a>[TAB]<urn:b>[TAB]<urn:b>[LF]<urn:b>[TAB]<urn:c>[TAB]<urn:c>[LF]
SELECT * { ?x <urn:p> ?y ;; <urn:p> <urn:c> ; } => ?x[TAB]?y[LF]<urn:b>[TAB]<urn:c>[LF]
SELECT * { <urn:a> <urn:p> ?y , ?z } => ?y[TAB]?z[LF]<urn:b>[TAB]<urn:b>[LF]
SELECT * { ?x <urn:p> ?y , <urn:c> ; <urn:p> ?z, ?z . } => ?x[TAB]?y[TAB]?z[LF]<urn:b>[TAB]<urn:c>[TAB]<urn:c>[LF]
SELECT * { "l" <urn:p> ?y } => ?y[LF]
SELECT * { 1 <urn:p> ?y } => ?y[LF]
SELECT * { true <urn:p> ?y . ?x <urn:p> ?y } => ?y[TAB]?x[LF]
SELECT * { 'l'@en <urn:p> ?y } => ?y[LF]
SELECT * { ?x <urn:p> ?y OPTIONAL { 'l' <urn:p> ?z } } => ?x[TAB]?y[TAB]?z[LF]<urn:a>[TAB]<urn:b>[TAB][LF]<urn:b>[TAB]<urn:c>[TAB][LF]
"#;

/// Groups and OPTIONAL.
const GROUPS: &str = r#"SELECT * {} => [LF][LF]
SELECT * { { } } => [LF][LF]
SELECT * { {} {} . {} } => [LF][LF]
SELECT * { { ?x <urn:p> ?y } { ?y <urn:p> ?z } } => ?x[TAB]?y[TAB]?z[LF]<urn:a>[TAB]<urn:b>[TAB]<urn:c>[LF]
SELECT * { ?x <urn:p> ?y { ?y <urn:p> ?z } } => ?x[TAB]?y[TAB]?z[LF]<urn:a>[TAB]<urn:b>[TAB]<urn:c>[LF]
SELECT * { ?x <urn:p> ?y . { ?y <urn:p> ?z . } . } => ?x[TAB]?y[TAB]?z[LF]<urn:a>[TAB]<urn:b>[TAB]<urn:c>[LF]
SELECT * { { ?x <urn:p> ?y } ?y <urn:p> ?z } => ?x[TAB]?y[TAB]?z[LF]<urn:a>[TAB]<urn:b>[TAB]<urn:c>[LF]
SELECT * { {{ ?x <urn:p> ?y }} {} } => ?x[TAB]?y[LF]<urn:a>[TAB]<urn:b>[LF]<urn:b>[TAB]<urn:c>[LF]
SELECT * { ?x <urn:p> ?y { ?y <urn:p> ?w OPTIONAL { ?w <urn:p> ?z } } } => ?x[TAB]?y[TAB]?w[TAB]?z[LF]<urn:a>[TAB]<urn:b>[TAB]<urn:c>[TAB][LF]
SELECT * { OPTIONAL { ?x <urn:b> ?y } } => ?x[TAB]?y[LF][TAB][LF]
SELECT * { ?x <urn:p> ?y OPTIONAL {} } => ?x[TAB]?y[LF]<urn:a>[TAB]<urn:b>[LF]<urn:b>[TAB]<urn:c>[LF]
SELECT * { ?x <urn:p> ?y OPTIONAL { ?y <urn:p> ?x } } => ?x[TAB]?y[LF]<urn:a>[TAB]<urn:b>[LF]<urn:b>[TAB]<urn:c>[LF]
SELECT * { ?x <urn:p> ?y optional { ?y <urn:p> ?z } } => ?x[TAB]?y[TAB]?z[LF]<urn:a>[TAB]<urn:b>[TAB]<urn:c>[LF]<urn:b>[TAB]<urn:c>[TAB][LF]
SELECT * { ?x <urn:p> ?y . OPTIONAL { ?y <urn:p> ?z } . } => ?x[TAB]?y[TAB]?z[LF]<urn:a>[TAB]<urn:b>[TAB]<urn:c>[LF]<urn:b>[TAB]<urn:c>[TAB][LF]
SELECT ?z { ?x <urn:p> ?y OPTIONAL { ?y <urn:p> ?z } } => ?z[LF][LF]<urn:c>[LF]
SELECT * { ?x <urn:p> ?y OPTIONAL { ?x <urn:q> ?y } ?y <urn:p> ?v } => ?x[TAB]?y[TAB]?v[LF]<urn:a>[TAB]<urn:b>[TAB]<urn:c>[LF]
SELECT * { ?x <urn:a> ?y OPTIONAL { ?x <urn:b> ?y } ?y <urn:c> ?v } => ?x[TAB]?y[TAB]?v[LF]
SELECT * { ?x <urn:p> <urn:b> OPTIONAL { ?x <urn:p> ?y OPTIONAL { ?y <urn:p> ?z } } } => ?x[TAB]?y[TAB]?z[LF]<urn:a>[TAB]<urn:b>[TAB]<urn:c>[LF]
SELECT * { ?x <urn:p> <urn:b> OPTIONAL { ?x <urn:p> ?y OPTIONAL { ?y <urn:q> ?z } } } => ?x[TAB]?y[TAB]?z[LF]<urn:a>[TAB]<urn:b>[TAB][LF]
SELECT * { ?x <urn:p> <urn:b> OPTIONAL { ?x <urn:p> ?y . ?y <urn:q> ?z } } => ?x[TAB]?y[TAB]?z[LF]<urn:a>[TAB][TAB][LF]
SELECT * { ?x <urn:p> ?y OPTIONAL { ?y <urn:p> ?z } OPTIONAL { ?w <urn:p> ?x } } => ?x[TAB]?y[TAB]?z[TAB]?w[LF]<urn:a>[TAB]<urn:b>[TAB]<urn:c>[TAB][LF]<urn:b>[TAB]<urn:c>[TAB][TAB]<urn:a>[LF]
"#;

/// Queries with characters that do not show.
const HIDDEN: [(&str, &str); 6] = [
    (
        "SELECT * { ?x <urn:p> ?y }\n",
        "?x[TAB]?y[LF]<urn:a>[TAB]<urn:b>[LF]<urn:b>[TAB]<urn:c>[LF]",
    ),
    (
        "SELECT * { ?x <urn:p> ?y }\n\n",
        "?x[TAB]?y[LF]<urn:a>[TAB]<urn:b>[LF]<urn:b>[TAB]<urn:c>[LF]",
    ),
    (
        "SELECT * { ?x <urn:p> ?y } ",
        "?x[TAB]?y[LF]<urn:a>[TAB]<urn:b>[LF]<urn:b>[TAB]<urn:c>[LF]",
    ),
    (
        "\t\r\n SELECT\t*\r{\n?x\t<urn:p>\r\n?y\n}\n\n",
        "?x[TAB]?y[LF]<urn:a>[TAB]<urn:b>[LF]<urn:b>[TAB]<urn:c>[LF]",
    ),
    (
        "# all\nSELECT * # columns\r{ ?x <urn:p> ?y } # end",
        "?x[TAB]?y[LF]<urn:a>[TAB]<urn:b>[LF]<urn:b>[TAB]<urn:c>[LF]",
    ),
    (
        "SELECT#\n*#\n{#}\n?x#<\n<urn:p>#\"\n?y#.\n}#",
        "?x[TAB]?y[LF]<urn:a>[TAB]<urn:b>[LF]<urn:b>[TAB]<urn:c>[LF]",
    ),
];

#[test]
fn patterns(rt: HostRuntime) -> Result<(), Fail> {
    check_answers(&rt, rt.alloc(), DATA, PATTERNS)
}

#[test]
fn columns(rt: HostRuntime) -> Result<(), Fail> {
    check_answers(&rt, rt.alloc(), DATA, COLUMNS)
}

#[test]
fn names(rt: HostRuntime) -> Result<(), Fail> {
    check_answers(&rt, rt.alloc(), DATA, NAMES)
}

#[test]
fn lists(rt: HostRuntime) -> Result<(), Fail> {
    check_answers(&rt, rt.alloc(), DATA, LISTS)
}

#[test]
fn groups(rt: HostRuntime) -> Result<(), Fail> {
    check_answers(&rt, rt.alloc(), DATA, GROUPS)
}

#[test]
fn blanks(rt: HostRuntime) -> Result<(), Fail> {
    for (query, answer) in HIDDEN {
        check_answer(&rt, rt.alloc(), DATA, query, answer)?;
    }
    Ok(())
}

/// Queries at a limit: what one begins with, a part that comes so often, another that follows as often, and what it
/// ends with.
const KEPT: [(&str, &str, &str, u32, &str); 4] = [
    ("SELECT * { ", "<urn:a> <urn:p> <urn:b> . ", "", 256, "}"),
    ("SELECT * {", "OPTIONAL {}", "", 63, "}"),
    ("SELECT * ", "{", "}", 32, ""),
    ("SELECT * {", "{}", "", 255, "}"),
];

#[test]
fn limits_are_kept(rt: HostRuntime) -> Result<(), Fail> {
    for (front, part, other, times, end) in KEPT {
        let query = long_query(rt.alloc(), front, part, other, times, end)?;
        check_answer(&rt, rt.alloc(), DATA, query.as_str(), "[LF][LF]")?;
    }
    Ok(())
}

#[test]
fn a_query_has_64_variables(rt: HostRuntime) -> Result<(), Fail> {
    let alloc = rt.alloc();
    let mut query = String::from_str(alloc, "SELECT")?;
    push_variables(&mut query, " ", " ", 64)?;
    query.push_str(" {}")?;
    let mut answer = String::new(alloc);
    push_variables(&mut answer, "", "[TAB]", 64)?;
    answer.push_str("[LF]")?;
    push_often(&mut answer, "[TAB]", 63)?;
    answer.push_str("[LF]")?;
    check_answer(&rt, alloc, DATA, query.as_str(), answer.as_str())
}
