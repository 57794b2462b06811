//! Pruning against its definition by brute force, on small graphs made by chance.

use crate::counts::{counts_of, image_of, query_of};
use alg_model::{Place, TriplePat, Var};
use index_file::Index;
use match_relations::prepare;
use pattern_tree::{Tree, tree_of};
use prune_plan::prune;
use std::alloc::Global;
use std::test::Fail;
use well_designed::refusal_of;

const QUERIES: [&str; 12] = [
    "SELECT * { ?x <urn:p0> ?y . ?y <urn:p1> ?z }",
    "SELECT * { ?x <urn:p0> ?y . ?y <urn:p0> ?z . ?z <urn:p0> ?x }",
    "SELECT * { ?x <urn:p0> ?y OPTIONAL { ?y <urn:p1> ?z } }",
    "SELECT * { ?x <urn:p0> ?y OPTIONAL { ?y <urn:p1> ?z OPTIONAL { ?z <urn:p0> ?w } } }",
    "SELECT * { ?x <urn:p0> ?y OPTIONAL { ?x <urn:p1> ?y } }",
    "SELECT * { ?x <urn:p0> ?y OPTIONAL { ?x <urn:p1> ?z . ?z <urn:p0> ?y } OPTIONAL { ?y <urn:p0> ?v } }",
    "SELECT * { ?x <urn:p0> ?x OPTIONAL { ?x ?p <urn:n1> } }",
    "SELECT * { ?x ?p <urn:n0> . ?y ?p <urn:n1> OPTIONAL { ?x <urn:p1> ?z } }",
    "SELECT * { <urn:n0> <urn:p0> ?x . ?x <urn:p1> ?y . <urn:n1> ?q ?y }",
    "SELECT * { ?x <urn:p0> ?y . ?z <urn:p1> ?w OPTIONAL { ?x <urn:p1> ?w . ?y <urn:p0> ?w OPTIONAL { ?y <urn:p1> ?v } } }",
    "SELECT * { ?x <urn:p1> ?y . ?y <urn:p1> ?x OPTIONAL { ?v <urn:p0> ?x . ?v <urn:p0> ?y } }",
    "SELECT * { OPTIONAL { ?x <urn:p0> ?y OPTIONAL { ?y <urn:p0> ?z . ?z <urn:p1> ?y } } }",
];

/// A triple by the numbers of its terms.
type Numbers = (u8, u8, u8);

/// A triple pattern, its node, and the triples that are left of it.
#[derive(Drop)]
struct Listed<'q> {
    node: u8,
    pattern: &'q TriplePat,
    left: Vec<Numbers>,
}

/// The next number by chance.
fn next(state: u32) -> u32 {
    state.wrapping_mul(1_664_525).wrapping_add(1_013_904_223)
}

/// Triples by chance, with some twice.
fn graph(alloc: Global, seed: u32) -> Result<Vec<Numbers>, Fail> {
    let mut state = next(seed);
    let mut triples = Vec::new(alloc);
    for _ in 0..7 + seed % 5 {
        state = next(state);
        let bits = state >> 8;
        let triple = ((bits % 4) as u8, (bits / 4 % 2) as u8, (bits / 8 % 4) as u8);
        triples.push(triple)?;
    }
    Ok(triples)
}

/// The lines of some triples.
fn lines(alloc: Global, triples: &[Numbers]) -> Result<String, Fail> {
    let mut text = String::new(alloc);
    for (s, p, o) in triples {
        text.push_str(format!(in alloc; "<urn:n{s}> <urn:p{p}> <urn:n{o}> .\n")?.as_str())?;
    }
    Ok(text)
}

/// Whether a term with this letter and number may stand at a place.
fn may_stand(place: &Place, letter: u8, number: u8) -> bool {
    match place {
        Place::Var(_) => true,
        Place::Term(term) => match term.as_ref().bytes() {
            [_, _, _, _, _, kind, digit, _] => *kind == letter
                && *digit == b'0'.wrapping_add(number),
            _ => false,
        },
    }
}

/// Whether the place is the variable.
fn is_var(place: &Place, var: u8) -> bool {
    match place {
        Place::Var(Var(n)) => *n == var,
        Place::Term(_) => false,
    }
}

/// The value that a triple gives a variable of a triple pattern: the number of its term there.
fn value_of(pattern: &TriplePat, t: Numbers, var: u8) -> Option<u8> {
    if is_var(&pattern.subject, var) {
        Some(t.0)
    } else if is_var(&pattern.predicate, var) {
        Some(t.1)
    } else if is_var(&pattern.object, var) {
        Some(t.2)
    } else {
        None
    }
}

/// Whether a triple pattern matches a triple.
fn is_match(pattern: &TriplePat, t: Numbers) -> bool {
    let once = match pattern.subject {
        Place::Var(Var(n)) => t.0 == t.2 || !is_var(&pattern.object, n),
        Place::Term(_) => true,
    };
    once && may_stand(&pattern.subject, b'n', t.0)
        && may_stand(&pattern.predicate, b'p', t.1)
        && may_stand(&pattern.object, b'n', t.2)
}

/// The different triples that a triple pattern matches.
fn matches_of(
    alloc: Global,
    pattern: &TriplePat,
    triples: &[Numbers],
) -> Result<Vec<Numbers>, Fail> {
    let mut found = Vec::new(alloc);
    for t in triples {
        if is_match(pattern, *t) && !found.contains(t) {
            found.push(*t)?;
        }
    }
    Ok(found)
}

/// Puts the triple patterns of a node behind the others, with their matches.
fn push_node<'q>(
    alloc: Global,
    all: &mut Vec<Listed<'q>>,
    tree: &Tree<'q>,
    node: u8,
    triples: &[Numbers],
) -> Result<(), Fail> {
    if node >= tree.nodes() {
        return Ok(());
    }
    let patterns = tree.patterns(node);
    for i in 0..patterns.len() {
        let pattern = patterns.get(i);
        let left = matches_of(alloc, pattern, triples)?;
        all.push(Listed {
            node,
            pattern,
            left,
        })?;
    }
    Ok(())
}

/// All triple patterns of a tree, with their matches.
fn all_matches<'q>(
    alloc: Global,
    tree: &Tree<'q>,
    triples: &[Numbers],
) -> Result<Vec<Listed<'q>>, Fail> {
    let mut all = Vec::new(alloc);
    for node in 0..tree.nodes() {
        push_node(alloc, &mut all, tree, node, triples)?;
    }
    Ok(all)
}

/// Whether a node is another, or above it.
fn is_above(tree: &Tree<'_>, top: u8, node: u8) -> bool {
    let mut at = node;
    for _ in 0..64 {
        if at == top {
            return true;
        }
        if at >= tree.nodes() {
            return false;
        }
        match tree.parent(at) {
            Some(parent) => at = parent,
            None => return false,
        }
    }
    false
}

/// Whether a triple that is left gives a variable this value.
fn gives(listed: &Listed<'_>, var: u8, value: Option<u8>) -> bool {
    for t in listed.left.iter() {
        if value_of(listed.pattern, *t, var) == value {
            return true;
        }
    }
    false
}

/// Whether what is left of another triple pattern agrees with a triple.
fn agrees(listed: &Listed<'_>, other: &Listed<'_>, t: Numbers) -> bool {
    if other.left.is_empty() {
        return false;
    }
    for var in 0..8 {
        let value = value_of(listed.pattern, t, var);
        let both = value.is_some() && value_of(other.pattern, (0, 0, 0), var).is_some();
        if both && !gives(other, var, value) {
            return false;
        }
    }
    true
}

/// Whether a triple stays: what is left at its node and above agrees with it.
fn stays(tree: &Tree<'_>, all: &[Listed<'_>], listed: &Listed<'_>, t: Numbers) -> bool {
    for other in all {
        if is_above(tree, other.node, listed.node) && !agrees(listed, other, t) {
            return false;
        }
    }
    true
}

/// The triples of a triple pattern that stay.
fn staying(
    alloc: Global,
    tree: &Tree<'_>,
    all: &[Listed<'_>],
    listed: &Listed<'_>,
) -> Result<Vec<Numbers>, Fail> {
    let mut left = Vec::new(alloc);
    for t in listed.left.iter() {
        if stays(tree, all, listed, *t) {
            left.push(*t)?;
        }
    }
    Ok(left)
}

/// One round: of each triple pattern, what stays.
fn after_round<'q>(
    alloc: Global,
    tree: &Tree<'q>,
    all: &[Listed<'q>],
) -> Result<Vec<Listed<'q>>, Fail> {
    let mut next = Vec::new(alloc);
    for listed in all {
        next.push(Listed {
            node: listed.node,
            pattern: listed.pattern,
            left: staying(alloc, tree, all, listed)?,
        })?;
    }
    Ok(next)
}

/// As many rounds as there can be triples to drop.
fn pruned<'q>(
    alloc: Global,
    tree: &Tree<'q>,
    triples: &[Numbers],
) -> Result<Vec<Listed<'q>>, Fail> {
    let mut all = all_matches(alloc, tree, triples)?;
    for _ in 0..60 {
        all = after_round(alloc, tree, &all)?;
    }
    Ok(all)
}

/// Whether each relation has as many pairs as the triple pattern has triples left.
fn are_counts(all: &[Listed<'_>], counts: &[u32]) -> bool {
    for listed in all {
        let place = usize::from(listed.pattern.number.saturating_sub(1));
        match counts.get(place) {
            Some(count) if *count as usize == listed.left.len() => {}
            _ => return false,
        }
    }
    true
}

/// Whether pruning leaves what brute force leaves.
fn is_pruned_so(alloc: Global, query: &str, seed: u32) -> Result<bool, Fail> {
    let triples = graph(alloc, seed)?;
    let image = image_of(alloc, lines(alloc, &triples)?.as_str())?;
    let index = Index::open(&image).map_err(|_| "no index")?;
    let query = query_of(alloc, query)?;
    match refusal_of(&query.pattern) {
        Some(_) => return Err(Fail::from("a refusal")),
        None => {}
    }
    let tree = tree_of(alloc, &query.pattern)?;
    let mut prepared = prepare(alloc, &tree, &index)?;
    prune(&mut prepared, &tree);
    let counts = counts_of(alloc, &prepared)?;
    let all = pruned(alloc, &tree, &triples)?;
    Ok(are_counts(&all, &counts))
}

#[test]
fn pruning_leaves_what_brute_force_leaves(rt: HostRuntime) -> Result<(), Fail> {
    let alloc = rt.alloc();
    for query in QUERIES {
        for seed in 0..25 {
            assert!(rt; is_pruned_so(alloc, query, seed)?, "{query} {seed}");
        }
    }
    Ok(())
}
