//! Answers as JSON.
use crate::asking::{DATA, QUERY};
use crate::stage::Stage;
use std::test::Fail;

const TWO: &str = "<urn:a> <urn:p> <urn:b> .\n<urn:a> <urn:p> <urn:c> .\n";

const TYPED: &str =
    "<urn:a> <urn:t> <urn:A> .\n<urn:b> <urn:t> <urn:A> .\n<urn:a> <urn:q> \"1\" .\n";

/// A data file, a query, and the text that answers it, with a line end.
const ANSWERS: [(&str, &str, &str); 9] = [
    (
        "",
        QUERY,
        "{\"head\":{\"vars\":[\"x\",\"y\",\"z\"]},\"results\":{\"bindings\":[]}}\n",
    ),
    (
        TWO,
        "SELECT ?x {?x <urn:p> ?y}",
        "{\"head\":{\"vars\":[\"x\"]},\"results\":{\"bindings\":[{\"x\":{\"type\":\"uri\",\"value\":\"urn:a\"}},{\"x\":{\"type\":\"uri\",\"value\":\"urn:a\"}}]}}\n",
    ),
    (
        TWO,
        "SELECT DISTINCT ?x {?x <urn:p> ?y}",
        "{\"head\":{\"vars\":[\"x\"]},\"results\":{\"bindings\":[{\"x\":{\"type\":\"uri\",\"value\":\"urn:a\"}}]}}\n",
    ),
    // A column that a row does not bind has no member.
    (
        TYPED,
        "SELECT ?x ?y { ?x <urn:t> <urn:A> OPTIONAL { ?x <urn:q> ?y } }",
        "{\"head\":{\"vars\":[\"x\",\"y\"]},\"results\":{\"bindings\":[{\"x\":{\"type\":\"uri\",\"value\":\"urn:a\"},\"y\":{\"type\":\"literal\",\"value\":\"1\"}},{\"x\":{\"type\":\"uri\",\"value\":\"urn:b\"}}]}}\n",
    ),
    (
        DATA,
        "SELECT * { OPTIONAL { ?x <urn:b> ?y } }",
        "{\"head\":{\"vars\":[\"x\",\"y\"]},\"results\":{\"bindings\":[{}]}}\n",
    ),
    (
        DATA,
        "SELECT * {}",
        "{\"head\":{\"vars\":[]},\"results\":{\"bindings\":[{}]}}\n",
    ),
    // Members are in the order of the names, and names in that of the columns.
    (
        DATA,
        "SELECT ?y ?x { ?x <urn:p> ?y OPTIONAL {} }",
        "{\"head\":{\"vars\":[\"y\",\"x\"]},\"results\":{\"bindings\":[{\"x\":{\"type\":\"uri\",\"value\":\"urn:a\"},\"y\":{\"type\":\"uri\",\"value\":\"urn:b\"}},{\"x\":{\"type\":\"uri\",\"value\":\"urn:b\"},\"y\":{\"type\":\"uri\",\"value\":\"urn:c\"}}]}}\n",
    ),
    // Blank nodes, tags, datatypes and escapes.
    (
        "_:b <urn:p> \"x\"@EN .\n_:b <urn:p> \"1\"^^<urn:d> .\n",
        "SELECT * { ?s <urn:p> ?o }",
        "{\"head\":{\"vars\":[\"s\",\"o\"]},\"results\":{\"bindings\":[{\"o\":{\"datatype\":\"urn:d\",\"type\":\"literal\",\"value\":\"1\"},\"s\":{\"type\":\"bnode\",\"value\":\"b\"}},{\"o\":{\"type\":\"literal\",\"value\":\"x\",\"xml:lang\":\"en\"},\"s\":{\"type\":\"bnode\",\"value\":\"b\"}}]}}\n",
    ),
    (
        "<urn:s> <urn:p> \"\\u0001\\t\\\"\\\\é\\u007F\" .\n",
        "SELECT ?o { ?s <urn:p> ?o }",
        "{\"head\":{\"vars\":[\"o\"]},\"results\":{\"bindings\":[{\"o\":{\"type\":\"literal\",\"value\":\"\\u0001\\t\\\"\\\\é\u{7f}\"}}]}}\n",
    ),
];

#[test]
fn answers_as_json(rt: HostRuntime) -> Result<(), Fail> {
    let alloc = rt.alloc();
    for (data, query, answer) in ANSWERS {
        let mut world = Stage::with_files(alloc, data, query)?;
        let status = world.ask(alloc, &["ask", "d", "q", "json"])?;
        assert_eq!(rt; status, 0);
        assert_eq!(rt; str::from_utf8(world.printed())?, answer);
        assert!(rt; world.complained().is_empty());
    }
    Ok(())
}
