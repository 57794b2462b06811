//! Triples are numbered.
ghost use Rattle.std.specs.Prelude.{◌≡◌, ◌<◌, ◌≤◌, bytes_eq, length, All, IfOk, OnOk, IfErr};
ghost use Rattle.std.specs.List.{IsDistinct};
ghost use Rattle.bm_term.specs.Graph.{graph_of};
ghost use Rattle.bm_term.specs.Triple.{IsRdfTriple};
ghost use Rattle.term_numbers.specs.Numbering.{numbering_of};
ghost use Rattle.term_numbers.specs.declared.fault.NumberFault.TheVariants.{TooManyTriples};
ghost use Rattle.term_numbers.specs.held.Numbered.{MayBeNumbered, AreByNumber, AreNumbersFor};
ghost use Rattle.term_numbers.specs.held.Renumbered.{PlacesAreBelow};

use crate::builder::Builder;
use crate::entry::Entry;
use crate::fault::NumberFault;
use crate::group::{Groups, ascending, group_nodes};
use crate::numbers::{Numbers, numbers_of};
use crate::renumber::{number_entries, renumber, set_in_place};
use bm_term::{Term, Triple};
use std::alloc::{AllocError, Global};
use std::hash::{BuildHasher, BuildHasherDefault, DefaultHasher};

/// Numbers the set of some RDF triples. `TooManyTriples` comes exactly where there are more distinct triples than the
/// limit, unless memory runs out before.
pub fn number(alloc: Global, triples: &[Triple], limit: u32) -> Result<Numbers, NumberFault>
    requires { All IsRdfTriple triples.now }
    ensures numbering { IfOk result (λ numbers. numbers ≡ numbering_of (graph_of triples.now)) }
    ensures few { OnOk result (length (graph_of triples.now) ≤ limit) }
    ensures many { IfErr result (λ fault. fault ≡ TooManyTriples → limit < length (graph_of triples.now)) }
{
    let hashers: BuildHasherDefault<DefaultHasher> = BuildHasherDefault::new();
    number_by(alloc, hashers, triples, limit)
}

/// The same, where the texts are hashed as the caller says. Who has the system at hand passes a
/// [`RandomState`](std::hash::RandomState).
pub fn number_by<S: BuildHasher + Copy + Drop>(
    alloc: Global,
    hashers: S,
    triples: &[Triple],
    limit: u32,
) -> Result<Numbers, NumberFault>
    requires { All IsRdfTriple triples.now }
    ensures numbering { IfOk result (λ numbers. numbers ≡ numbering_of (graph_of triples.now)) }
    ensures few { OnOk result (length (graph_of triples.now) ≤ limit) }
    ensures many { IfErr result (λ fault. fault ≡ TooManyTriples → limit < length (graph_of triples.now)) }
{
    let mut builder = Builder::with_hasher(alloc, hashers, limit);
    for triple in triples {
        builder.see(triple.clone()?)?;
    }
    builder.finish()
}

/// Numbers triples that were seen.
pub(crate) fn number_seen(
    alloc: Global,
    nodes: &[Term],
    predicates: &[Term],
    places: Vec<(u32, u32, u32)>,
) -> Result<Numbers, AllocError>
    requires nodes_differ { IsDistinct bytes_eq nodes.now }
    requires predicates_differ { IsDistinct bytes_eq predicates.now }
    requires below { All (PlacesAreBelow (length nodes.now) (length predicates.now)) places.items }
    ensures { IfOk result (AreNumbersFor nodes.now predicates.now places.items) }
{
    let groups = group_nodes(alloc, nodes, &places)?;
    let predicate_entries = ascending(alloc, predicates)?;
    let triples = by_number(
        alloc,
        nodes.len(),
        predicates.len(),
        &groups,
        &predicate_entries,
        places,
    )?;
    numbers_of(alloc, &groups, &predicate_entries, triples)
}

/// The triples by numbers, ascending, each once.
fn by_number(
    alloc: Global,
    nodes: usize,
    predicates: usize,
    groups: &Groups<'_>,
    predicate_entries: &[Entry<'_>],
    places: Vec<(u32, u32, u32)>,
) -> Result<Vec<(u32, u32, u32)>, AllocError>
    requires below { All (PlacesAreBelow nodes predicates) places.items }
    requires shared { MayBeNumbered nodes groups.now.shared.items }
    requires subjects { MayBeNumbered nodes groups.now.subjects.items }
    requires objects { MayBeNumbered nodes groups.now.objects.items }
    requires predicates { MayBeNumbered predicates predicate_entries.now }
    ensures { IfOk result (λ triples. AreByNumber groups.now.shared.items groups.now.subjects.items groups.now.objects.items predicate_entries.now places.items triples.items) }
{
    let alone = groups.shared.len();
    let mut numbers = vec![in alloc; 0; nodes]?;
    number_entries(&mut numbers, &groups.shared, 0)?;
    number_entries(&mut numbers, &groups.subjects, alone)?;
    number_entries(&mut numbers, &groups.objects, alone)?;
    let mut predicate_numbers = vec![in alloc; 0; predicates]?;
    number_entries(&mut predicate_numbers, predicate_entries, 0)?;
    let mut triples = places;
    renumber(&mut triples, &numbers, &predicate_numbers);
    set_in_place(&mut triples);
    Ok(triples)
}
