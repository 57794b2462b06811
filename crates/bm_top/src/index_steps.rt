//! The steps of `query` and `check`, which read an index, one call of the outside a function.
ghost use Rattle.std.specs.Prelude.{[], ◌∷◌, List};
ghost use Rattle.bm_term.specs.declared.triple.Triple.{Triple};
ghost use Rattle.bm_world.specs.World.{Step};
ghost use Rattle.index_file.specs.Version.{NumbersGraph};
ghost use Rattle.bm_top.specs.Lines.{max_query_bytes};
ghost use Rattle.bm_top.specs.Standard.{IsAnswerOrRefusal, IsCheckVerdict, IsCounted, IsDecidedBy, IsDecidedByIndex, IsQueryVerdict};
ghost use Rattle.bm_top.specs.steps.Ending.{Ends, HasReason, Moves};

use crate::ending::Ending;
use crate::over_index::answer_text;
use crate::refusal::Refusal;
use crate::steps::{
    MAX_INDEX_BYTES, MAX_QUERY_BYTES, print_ending, read_ending, undecided_ending, write_ending,
};
use crate::texts::print_counts;
use bm_world::{World, read_all};
use index_file::Index;
use result_write::{Form, write_rows};
use std::alloc::Global;

/// Answers the query of one file over the index of another.
pub(crate) fn query<'a, W: World>(
    alloc: Global,
    index: &'a str,
    query: &'a str,
    form: Form,
    world: &mut W,
) -> Ending<'a>
    ensures step { Step (W.told world.old) (W.told world.new) (λ m n. Ends (IsQueryVerdict m.files index.now query.now form) result m n) }
    ensures reason { HasReason (λ files. IsQueryVerdict files index.now query.now form) (index.now ∷ query.now ∷ [])
        (W.told world.old) (W.faults world.old) (W.faults world.new) result }
    ensures moves { Step (W.told world.old) (W.told world.new) (Moves (index.now ∷ query.now ∷ [])) }
{
    match read_all(alloc, world, index, MAX_INDEX_BYTES) {
        Ok(bytes) => query_of_index(alloc, &bytes, query, form, world),
        Err(end) => read_ending(end, index, MAX_INDEX_BYTES),
    }
}

// The steps of `query` that are left when the index has been read.
fn query_of_index<'a, W: World>(
    alloc: Global,
    index: &[u8],
    query: &'a str,
    form: Form,
    world: &mut W,
) -> Ending<'a>
    ensures step { Step (W.told world.old) (W.told world.new) (λ m n. Ends (IsDecidedBy m.files query.now max_query_bytes (λ text. IsDecidedByIndex index.now (IsAnswerOrRefusal form text))) result m n) }
    ensures reason { HasReason (λ files. IsDecidedBy files query.now max_query_bytes (λ text. IsDecidedByIndex index.now (IsAnswerOrRefusal form text))) (query.now ∷ [])
        (W.told world.old) (W.faults world.old) (W.faults world.new) result }
    ensures moves { Step (W.told world.old) (W.told world.new) (Moves (query.now ∷ [])) }
{
    match read_all(alloc, world, query, MAX_QUERY_BYTES) {
        Ok(text) => print_opened(alloc, index, &text, form, world),
        Err(end) => read_ending(end, query, MAX_QUERY_BYTES),
    }
}

// The steps of `query` that are left when both files have been read.
fn print_opened<'a, W: World>(
    alloc: Global,
    bytes: &[u8],
    text: &[u8],
    form: Form,
    world: &mut W,
) -> Ending<'a>
    ensures step { Step (W.told world.old) (W.told world.new) (λ m n. Ends (IsDecidedByIndex bytes.now (IsAnswerOrRefusal form text.now)) result m n) }
    ensures reason { HasReason (λ files. IsDecidedByIndex bytes.now (IsAnswerOrRefusal form text.now)) ([])
        (W.told world.old) (W.faults world.old) (W.faults world.new) result }
    ensures moves { Step (W.told world.old) (W.told world.new) (Moves ([])) }
{
    match Index::open(bytes) {
        Ok(index) => print_answers(alloc, &index, text, form, world),
        Err(damaged) => Ending::Refused {
            refusal: Refusal::Damaged { part: damaged.part },
        },
    }
}

/// Answers a text over an open index, and prints the answers.
pub(crate) fn print_answers<'a, W: World>(
    alloc: Global,
    index: &Index<'_>,
    text: &[u8],
    form: Form,
    world: &mut W,
) -> Ending<'a>
    ensures step { Step (W.told world.old) (W.told world.new)
        (λ m n. (graph : List Triple) → NumbersGraph graph index.now.numbering → Ends (IsAnswerOrRefusal form text.now graph) result m n) }
    ensures reason { HasReason (λ files verdict. ⊥) []
        (W.told world.old) (W.faults world.old) (W.faults world.new) result }
    ensures moves { Step (W.told world.old) (W.told world.new) (Moves []) }
{
    match answer_text(alloc, index, text) {
        Ok(given) => write_ending(write_rows(alloc, form, &given.query, &given.rows, world)),
        Err(undecided) => undecided_ending(undecided),
    }
}

/// Prints how many of each an index has.
pub(crate) fn check<'a, W: World>(alloc: Global, index: &'a str, world: &mut W) -> Ending<'a>
    ensures step { Step (W.told world.old) (W.told world.new) (λ m n. Ends (IsCheckVerdict m.files index.now) result m n) }
    ensures reason { HasReason (λ files. IsCheckVerdict files index.now) (index.now ∷ [])
        (W.told world.old) (W.faults world.old) (W.faults world.new) result }
    ensures moves { Step (W.told world.old) (W.told world.new) (Moves (index.now ∷ [])) }
{
    match read_all(alloc, world, index, MAX_INDEX_BYTES) {
        Ok(bytes) => check_bytes(&bytes, world),
        Err(end) => read_ending(end, index, MAX_INDEX_BYTES),
    }
}

// The steps of `check` that are left when the index has been read. They take no memory.
fn check_bytes<'a, W: World>(bytes: &[u8], world: &mut W) -> Ending<'a>
    ensures step { Step (W.told world.old) (W.told world.new) (λ m n. Ends (IsDecidedByIndex bytes.now IsCounted) result m n) }
    ensures reason { HasReason (λ files. IsDecidedByIndex bytes.now IsCounted) ([])
        (W.told world.old) (W.faults world.old) (W.faults world.new) result }
    ensures moves { Step (W.told world.old) (W.told world.new) (Moves ([])) }
{
    match Index::open(bytes) {
        Ok(index) => print_ending(print_counts(index.counts(), world)),
        Err(damaged) => Ending::Refused {
            refusal: Refusal::Damaged { part: damaged.part },
        },
    }
}
