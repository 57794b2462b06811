//! The steps of `ask`, one call of the outside a function.
ghost use Rattle.std.specs.Prelude.{[], ◌∷◌, ℕ, List};
ghost use Rattle.bm_world.specs.World.{Step};
ghost use Rattle.term_numbers.specs.Limits.{max_triples};
ghost use Rattle.term_numbers.specs.Sights.{nothing_yet};
ghost use Rattle.bm_top.specs.Lines.{max_query_bytes};
ghost use Rattle.bm_top.specs.Pieces.{IsReadAs};
ghost use Rattle.bm_top.specs.Standard.{IsAnswerOrRefusal, IsAskVerdict, IsDecidedBy, IsDecidedByData};
ghost use Rattle.bm_top.specs.steps.Ending.{Ends, HasReason, Moves};
ghost use Rattle.bm_top.specs.steps.Pieces.{WereRead};

use crate::ending::Ending;
use crate::index_steps::print_answers;
use crate::reading::read_data;
use crate::steps::{MAX_DATA_BYTES, MAX_QUERY_BYTES, read_ending, undecided_ending};
use crate::store::data_index;
use bm_world::{World, read_all};
use index_file::Index;
use result_write::Form;
use std::alloc::Global;
use std::hash::BuildHasher;
use term_numbers::Builder;

/// Answers the query of one file over the data of another.
pub(crate) fn ask<'a, W: World, S: BuildHasher + Copy + Drop>(
    alloc: Global,
    hashers: S,
    data: &'a str,
    query: &'a str,
    form: Form,
    world: &mut W,
) -> Ending<'a>
    ensures step { Step (W.told world.old) (W.told world.new) (λ m n. Ends (IsAskVerdict m.files «data».now query.now form) result m n) }
    ensures reason { HasReason (λ files. IsAskVerdict files «data».now query.now form) («data».now ∷ query.now ∷ [])
        (W.told world.old) (W.faults world.old) (W.faults world.new) result }
    ensures moves { Step (W.told world.old) (W.told world.new) (Moves («data».now ∷ query.now ∷ [])) }
{
    match read_data(alloc, hashers, world, data) {
        Ok((bad, triples)) => ask_of_data(alloc, bad, triples, query, form, world),
        Err(end) => read_ending(end, data, MAX_DATA_BYTES),
    }
}

// The steps that are left when the data has been read.
fn ask_of_data<'a, W: World, S: BuildHasher + Drop>(
    alloc: Global,
    bad: Option<u64>,
    triples: Builder<S>,
    query: &'a str,
    form: Form,
    world: &mut W,
) -> Ending<'a>
    requires { WereRead bad triples }
    ensures step { Step (W.told world.old) (W.told world.new) (λ m n. (bytes : List ℕ) → IsReadAs bytes bad (nothing_yet max_triples) triples →
        Ends (IsDecidedBy m.files query.now max_query_bytes (λ text. IsDecidedByData bytes (λ graph _. IsAnswerOrRefusal form text graph))) result m n) }
    ensures reason { (bytes : List ℕ) → IsReadAs bytes bad (nothing_yet max_triples) triples →
        HasReason (λ files. IsDecidedBy files query.now max_query_bytes (λ text. IsDecidedByData bytes (λ graph _. IsAnswerOrRefusal form text graph))) (query.now ∷ [])
        (W.told world.old) (W.faults world.old) (W.faults world.new) result }
    ensures moves { Step (W.told world.old) (W.told world.new) (Moves (query.now ∷ [])) }
{
    match read_all(alloc, world, query, MAX_QUERY_BYTES) {
        Ok(text) => print_decided(alloc, bad, triples, &text, form, world),
        Err(end) => read_ending(end, query, MAX_QUERY_BYTES),
    }
}

// The steps that are left when both files have been read: the index of the data is made, as `load` makes it, and the query
// is answered over it.
fn print_decided<'a, W: World, S: BuildHasher + Drop>(
    alloc: Global,
    bad: Option<u64>,
    triples: Builder<S>,
    text: &[u8],
    form: Form,
    world: &mut W,
) -> Ending<'a>
    requires { WereRead bad triples }
    ensures step { Step (W.told world.old) (W.told world.new) (λ m n. (bytes : List ℕ) → IsReadAs bytes bad (nothing_yet max_triples) triples →
        Ends (IsDecidedByData bytes (λ graph _. IsAnswerOrRefusal form text.now graph)) result m n) }
    ensures reason { HasReason (λ files verdict. ⊥) []
        (W.told world.old) (W.faults world.old) (W.faults world.new) result }
    ensures moves { Step (W.told world.old) (W.told world.new) (Moves ([])) }
{
    match data_index(alloc, bad, triples) {
        Ok(made) => print_answers(alloc, &Index::view(&made.bytes), text, form, world),
        Err(undecided) => undecided_ending(undecided),
    }
}
