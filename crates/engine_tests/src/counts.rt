//! What the steps of the engine leave of a query over some data.

ghost use Rattle.std.specs.Prelude.{IfOk};
ghost use Rattle.alg_model.specs.Limits.{KeepsLimits};
ghost use Rattle.tree_relations.specs.Prepared.{FitsTogether};

use alg_model::Query;
use index_file::Index;
use index_image::image;
use match_relations::prepare;
use multiway_join::flat_rows;
use nt_read::read_lines;
use null_best::best_match;
use pattern_tree::tree_of;
use prune_plan::prune;
use run_rows::RowForm;
use simple_trees::is_simple_tree;
use sparql_parse::parse_query;
use std::alloc::Global;
use std::test::Fail;
use term_numbers::Builder;
use tree_relations::Prepared;
use well_designed::refusal_of;

/// Two triples in a chain.
const CHAIN: &str = "<urn:a> <urn:p> <urn:b> .\n<urn:b> <urn:p> <urn:c> .\n";

/// Data, a query, and what is left: whether the tree is simple, the pairs of each triple pattern before and after, the
/// rows that are listed, and those that stay.
const LEFT: [(&str, &str, &str); 9] = [
    (
        CHAIN,
        "SELECT * { ?x <urn:p> ?y . ?y <urn:p> ?z }",
        "simple 2/1 2/1 listed 1 kept 1",
    ),
    (
        "<urn:s> <urn:p> <urn:h> .\n<urn:h> <urn:p> <urn:o> .\n",
        "SELECT * { ?x <urn:p> ?y OPTIONAL { ?z <urn:p> ?x } }",
        "simple 2/2 2/1 listed 2 kept 2",
    ),
    (
        "<urn:a> <urn:p> <urn:b> .\n<urn:b> <urn:q> <urn:c> .\n<urn:d> <urn:r> <urn:e> .\n<urn:e> <urn:s> <urn:f> .\n",
        "SELECT * { ?x <urn:p> ?y OPTIONAL { ?y <urn:q> ?z OPTIONAL { ?z <urn:r> ?w OPTIONAL { ?w <urn:s> ?v } } } }",
        "simple 1/1 1/1 1/0 1/0 listed 1 kept 1",
    ),
    (
        "<urn:x1> <urn:a1> <urn:u1> .\n<urn:w1> <urn:a2> <urn:v1> .\n<urn:w2> <urn:a2> <urn:v1> .\n<urn:x1> <urn:b1> <urn:y1> .\n<urn:x1> <urn:b1> <urn:y2> .\n<urn:y1> <urn:b2> <urn:w1> .\n<urn:y2> <urn:b2> <urn:w2> .\n",
        "SELECT * { ?x <urn:a1> ?u . ?w <urn:a2> ?v OPTIONAL { ?x <urn:b1> ?y . ?y <urn:b2> ?w } }",
        "other 1/1 2/2 2/2 2/2 listed 4 kept 2",
    ),
    (
        "<urn:a> <urn:p> <urn:b> .\n<urn:c> <urn:q> <urn:d> .\n",
        "SELECT * { ?x <urn:p> ?y . ?z <urn:q> <urn:e> }",
        "simple 1/0 0/0 listed 0 kept 0",
    ),
    (
        "<urn:a> <urn:p> <urn:b> .\n<urn:b> <urn:p> <urn:c> .\n<urn:c> <urn:p> <urn:d> .\n<urn:d> <urn:p> <urn:a> .\n",
        "SELECT * { ?x <urn:p> ?y . ?y <urn:p> ?z . ?z <urn:p> ?x }",
        "other 4/4 4/4 4/4 listed 0 kept 0",
    ),
    (
        CHAIN,
        "SELECT * { ?x <urn:p> ?x OPTIONAL { ?x <urn:p> ?y } }",
        "simple 0/0 2/0 listed 0 kept 0",
    ),
    (
        CHAIN,
        "SELECT * { <urn:a> <urn:p> <urn:b> OPTIONAL { ?x ?q <urn:c> } }",
        "simple 1/1 1/1 listed 1 kept 1",
    ),
    (CHAIN, "SELECT * { }", "simple listed 1 kept 1"),
];

/// The image of some data.
pub(crate) fn image_of(alloc: Global, data: &str) -> Result<Vec<u8>, Fail> {
    let mut builder = Builder::new(alloc, 1000);
    read_lines(alloc, data.as_bytes(), &mut builder).map_err(|_| "no data")?;
    let numbers = builder.finish().map_err(|_| "no numbers")?;
    if numbers.triples() > 1000 {
        return Err(Fail::from("many triples"));
    }
    let bytes = image(alloc, RowForm::V1, &numbers).map_err(|_| "no image")?;
    Ok(bytes)
}

/// How many pairs each relation has.
pub(crate) fn counts_of(alloc: Global, prepared: &Prepared<'_>) -> Result<Vec<u32>, Fail>
    requires { FitsTogether prepared.now }
{
    let mut counts = Vec::new(alloc);
    for i in 0..prepared.entries.len() {
        let entry = prepared.entries.get(i);
        counts.push(entry.rel.count(prepared.pool()))?;
    }
    Ok(counts)
}

/// A report, as it stands in the table.
fn text(
    alloc: Global,
    simple: bool,
    before: &[u32],
    after: &[u32],
    listed: usize,
    kept: usize,
) -> Result<String, Fail> {
    let mut text = String::new(alloc);
    text.push_str(if simple { "simple" } else { "other" })?;
    for (x, y) in before.iter().zip(after.iter()) {
        text.push_str(format!(in alloc; " {x}/{y}")?.as_str())?;
    }
    text.push_str(format!(in alloc; " listed {listed} kept {kept}")?.as_str())?;
    Ok(text)
}

/// The query of a text.
pub(crate) fn query_of(alloc: Global, text: &str) -> Result<Query, Fail>
    ensures { IfOk result KeepsLimits }
{
    match parse_query(alloc, text.as_bytes()) {
        Ok(query) => Ok(query),
        Err(_) => Err(Fail::from("no query")),
    }
}

/// What the engine leaves of a query over some data.
fn report(alloc: Global, data: &str, query: &str) -> Result<String, Fail> {
    let image = image_of(alloc, data)?;
    let index = Index::open(&image).map_err(|_| "no index")?;
    let query = query_of(alloc, query)?;
    match refusal_of(&query.pattern) {
        Some(_) => return Err(Fail::from("a refusal")),
        None => {}
    }
    let tree = tree_of(alloc, &query.pattern)?;
    let mut prepared = prepare(alloc, &tree, &index)?;
    let before = counts_of(alloc, &prepared)?;
    prune(&mut prepared, &tree);
    let after = counts_of(alloc, &prepared)?;
    let rows = flat_rows(alloc, &prepared, &tree, query.names.len() as u8)?;
    let listed = rows.len();
    let kept = best_match(alloc, rows)?.len();
    let simple = is_simple_tree(alloc, &tree)?;
    text(alloc, simple, &before, &after, listed, kept)
}

#[test]
fn pruning_leaves_these_pairs_and_the_join_lists_these_rows(rt: HostRuntime) -> Result<(), Fail> {
    let alloc = rt.alloc();
    for (data, query, wanted) in LEFT {
        let found = report(alloc, data, query)?;
        assert!(rt; found.as_str() == wanted, "{query}");
    }
    Ok(())
}
