//! How long the steps of an answer take: reading and numbering the data, making and opening the index, preparing the
//! relations, pruning, joining and best-match, and then the whole answer, with its terms, in order. The data and the query
//! are those of two files that are named, or a ring with tags and an OPTIONAL. What was found goes to the standard output,
//! and the times to the standard error.
#![tactic(auto)]

ghost use Rattle.std.specs.Prelude.{IfOk};
ghost use Rattle.alg_model.specs.Limits.{KeepsLimits};
ghost use Rattle.alg_model.specs.Pattern.{algebra_of};
ghost use Rattle.well_designed.specs.Refusals.{IsAccepted};

use alg_model::Query;
use bm_query::answer;
use index_file::Index;
use index_image::image;
use match_relations::prepare;
use multiway_join::flat_rows;
use nt_read::read_lines;
use null_best::best_match;
use pattern_tree::tree_of;
use prune_plan::prune;
use run_rows::RowForm;
use simple_trees::is_simple_tree;
use sparql_parse::parse_query;
use std::alloc::{AllocError, Global};
use std::hash::RandomState;
use std::time::Instant;
use std::{env, fs, io};
use term_numbers::{Builder, Numbers};
use well_designed::refusal_of;

const NODES: u32 = 10_000;

const QUERY: &str = "SELECT * { ?x <urn:next> ?y OPTIONAL { ?x <urn:tag> ?t } }";

/// The lines of a ring of nodes, of which each second one has a tag.
fn ring(alloc: Global, nodes: u32) -> io::Result<String> {
    let mut lines = String::new(alloc);
    for i in 0..nodes {
        let next = (u64::from(i) * 7 + 1) % u64::from(nodes.max(1));
        let node = format!(in alloc; "<urn:n{i}> <urn:next> <urn:n{next}> .\n")?;
        lines.push_str(node.as_str())?;
        if i % 2 == 0 {
            let tag = i % 10;
            let line = format!(in alloc; "<urn:n{i}> <urn:tag> \"t{tag}\" .\n")?;
            lines.push_str(line.as_str())?;
        }
    }
    Ok(lines)
}

/// The bytes of the file that is named by the first word, or those of a ring.
fn data(rt: &HostRuntime) -> io::Result<Vec<u8>> {
    match env::args(rt)?.nth(1) {
        Some(name) => fs::read(rt, name.as_str()),
        None => Ok(ring(rt.alloc(), NODES)?.into_bytes()),
    }
}

/// The bytes of the file that is named by the second word, or those of an OPTIONAL.
fn query_text(rt: &HostRuntime) -> io::Result<Vec<u8>> {
    match env::args(rt)?.nth(2) {
        Some(name) => fs::read(rt, name.as_str()),
        None => Ok(QUERY.as_bytes().to_vec(rt.alloc())?),
    }
}

/// The image of some data, if it is N-Triples and its image is not too long.
fn image_of(rt: &HostRuntime, bytes: &[u8]) -> io::Result<Option<Vec<u8>>> {
    let hashers = RandomState::new(rt)?;
    let start = Instant::now(rt)?;
    let mut builder = Builder::with_hasher(rt.alloc(), hashers, 8_388_608);
    if read_lines(rt.alloc(), bytes, &mut builder).is_err() {
        return Ok(None);
    }
    let Ok(numbers) = builder.finish() else {
        return Ok(None);
    };
    eprintln!(rt; "reading and numbering: {:?}", start.elapsed(rt)?)?;
    made(rt, &numbers)
}

/// The image of some numbers, if it is not too long.
fn made(rt: &HostRuntime, numbers: &Numbers) -> io::Result<Option<Vec<u8>>> {
    if numbers.triples() > 8_388_608 {
        return Ok(None);
    }
    let start = Instant::now(rt)?;
    let image = image(rt.alloc(), RowForm::V1, numbers).ok();
    eprintln!(rt; "making the index: {:?}", start.elapsed(rt)?)?;
    Ok(image)
}

/// The steps of the engine.
fn time_steps(rt: &HostRuntime, index: &Index<'_>, query: &Query) -> io::Result<()>
    requires limits { KeepsLimits query.now }
    requires accepted { IsAccepted (algebra_of query.now.pattern) }
{
    let alloc = rt.alloc();
    let tree = tree_of(alloc, &query.pattern)?;
    let start = Instant::now(rt)?;
    let mut prepared = prepare(alloc, &tree, index)?;
    eprintln!(rt; "preparing: {:?}", start.elapsed(rt)?)?;
    let start = Instant::now(rt)?;
    prune(&mut prepared, &tree);
    eprintln!(rt; "pruning: {:?}", start.elapsed(rt)?)?;
    let start = Instant::now(rt)?;
    let rows = flat_rows(alloc, &prepared, &tree, query.names.len() as u8)?;
    eprintln!(rt; "joining: {:?}", start.elapsed(rt)?)?;
    println!(rt; "{} rows are listed", rows.len())?;
    if is_simple_tree(alloc, &tree)? {
        return Ok(());
    }
    let start = Instant::now(rt)?;
    let best = best_match(alloc, rows)?;
    eprintln!(rt; "best-match: {:?}", start.elapsed(rt)?)?;
    println!(rt; "{} rows are kept", best.len())
}

/// The steps, and then the whole answer.
fn time_query(rt: &HostRuntime, index: &Index<'_>, query: &Query) -> io::Result<()>
    requires { KeepsLimits query.now }
{
    match refusal_of(&query.pattern) {
        Some(_) => println!(rt; "the query is refused"),
        None => {
            time_steps(rt, index, query)?;
            let start = Instant::now(rt)?;
            let rows = answer(rt.alloc(), index, query).map_err(|_| AllocError)?;
            eprintln!(rt; "the whole answer: {:?}", start.elapsed(rt)?)?;
            println!(rt; "{} rows are answered", rows.len())
        }
    }
}

/// Opening the index, and then the rest.
fn time_image(rt: &HostRuntime, image: &[u8], text: &[u8]) -> io::Result<()> {
    let start = Instant::now(rt)?;
    let Ok(index) = Index::open(image) else {
        return println!(rt; "the index is damaged");
    };
    eprintln!(rt; "opening the index: {:?}", start.elapsed(rt)?)?;
    match parse_query(rt.alloc(), text) {
        Ok(query) => time_query(rt, &index, &query),
        Err(_) => println!(rt; "the query has a fault"),
    }
}

fn main(rt: HostRuntime) -> io::Result<()> {
    let bytes = data(&rt)?;
    let text = query_text(&rt)?;
    match image_of(&rt, &bytes)? {
        Some(image) => time_image(&rt, &image, &text),
        None => println!(rt; "the data has no index"),
    }
}
