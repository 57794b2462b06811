//! From places in the order of first sight to numbers.
ghost use Rattle.std.specs.Prelude.{◌≡◌, ◌<◌, ◌+◌, ◌^◌, length, map, All, OnOk};
ghost use Rattle.bm_term.specs.SetOf.{set_of};
ghost use Rattle.term_numbers.specs.Order.{number_cmp};
ghost use Rattle.term_numbers.specs.held.Entries.{PlacesDiffer, PlaceIsBelow, AreNumbered};
ghost use Rattle.term_numbers.specs.held.Renumbered.{PlacesAreBelow, renumbered};

use crate::entry::Entry;
use crate::fault::number_from;
use std::alloc::AllocError;

/// Writes the numbers of entries, from the first one on, each at the entry's place.
pub(crate) fn number_entries(
    numbers: &mut [u32],
    entries: &[Entry<'_>],
    first: usize,
) -> Result<(), AllocError>
    requires below { All (PlaceIsBelow (length numbers.old)) entries.now }
    requires differ { PlacesDiffer entries.now }
    requires fits { first + length entries.now < 2 ^ 64 }
    ensures { OnOk result (AreNumbered entries.now (length entries.now) first numbers.old numbers.new) }
{
    for (k, entry) in entries.iter().enumerate() {
        let place = entry.place as usize;
        numbers[place] = number_from(first + k)?;
    }
    Ok(())
}

/// Each triple by numbers.
pub(crate) fn renumber(triples: &mut [(u32, u32, u32)], nodes: &[u32], predicates: &[u32])
    requires { All (PlacesAreBelow (length nodes.now) (length predicates.now)) triples.old }
    ensures { triples.new ≡ map (renumbered nodes.now predicates.now) triples.old }
{
    for triple in triples.iter_mut() {
        let (subject, predicate, object) = *triple;
        *triple = (
            nodes[subject as usize],
            predicates[predicate as usize],
            nodes[object as usize],
        );
    }
}

/// The triples ascending, each once.
pub(crate) fn set_in_place(triples: &mut Vec<(u32, u32, u32)>)
    ensures { triples.new.items ≡ set_of number_cmp triples.old.items }
{
    triples.sort_unstable();
    triples.dedup();
}
