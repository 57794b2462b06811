//! Triples by places: each text has the place at which it was first seen, nodes and predicates each among themselves.
ghost use Rattle.std.specs.Prelude.{◌≡◌, IfOk, OnErr};
ghost use Rattle.term_numbers.specs.held.Seen.{IsPlaced, Adds, SeesTriple};

use crate::fault::number_from;
use bm_term::{Term, Triple};
use indexmap::IndexSet;
use std::alloc::AllocError;
use std::hash::BuildHasher;

/// The places of a triple, where those of the triple before are known. A text is not hashed where it is the subject or
/// the predicate of the triple before, and it stays where it was not seen before.
pub(crate) fn see_triple<S: BuildHasher>(
    nodes: &mut IndexSet<Term, S>,
    predicates: &mut IndexSet<Term, S>,
    last: (u32, u32, u32),
    triple: Triple,
) -> Result<(u32, u32, u32), AllocError>
    ensures seen { IfOk result (λ places. SeesTriple nodes.old.keys nodes.new.keys predicates.old.keys predicates.new.keys places triple) }
    ensures adds { Adds nodes.old.keys nodes.new.keys }
    ensures stays { OnErr result (predicates.new.keys ≡ predicates.old.keys) }
{
    let subject = place_near(nodes, last.0, triple.subject)?;
    let object = place_in(nodes, triple.object)?;
    let predicate = place_near(predicates, last.1, triple.predicate)?;
    Ok((subject, predicate, object))
}

/// The place of a term, which is looked for at one place first.
fn place_near<S: BuildHasher>(
    terms: &mut IndexSet<Term, S>,
    near: u32,
    term: Term,
) -> Result<u32, AllocError>
    ensures placed { IfOk result (IsPlaced terms.old.keys terms.new.keys term) }
    ensures stays { OnErr result (terms.new.keys ≡ terms.old.keys) }
{
    if let Some(found) = terms.get_index(near as usize)
        && *found == term
    {
        return Ok(near);
    }
    place_in(terms, term)
}

/// The place of a term. If it is not there, it is put at the end.
fn place_in<S: BuildHasher>(terms: &mut IndexSet<Term, S>, term: Term) -> Result<u32, AllocError>
    ensures placed { IfOk result (IsPlaced terms.old.keys terms.new.keys term) }
    ensures stays { OnErr result (terms.new.keys ≡ terms.old.keys) }
{
    let _end = number_from(terms.len())?;
    let (place, _) = terms.insert_full(term)?;
    Ok(place as u32)
}
