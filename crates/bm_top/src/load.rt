//! The steps of `load`, one call of the outside a function.
ghost use Rattle.std.specs.Prelude.{◌≡◌, ℕ, List, [], ◌∷◌, length, IfSome};
ghost use Rattle.bm_world.specs.World.{NothingIsMade, Step};
ghost use Rattle.term_numbers.specs.Limits.{max_triples};
ghost use Rattle.term_numbers.specs.Sights.{nothing_yet};
ghost use Rattle.bm_top.specs.Pieces.{IsReadAs};
ghost use Rattle.bm_top.specs.Standard.{IsDecidedByData, IsLoadVerdict, IsStored};
ghost use Rattle.bm_top.specs.Texts.{stored_text};
ghost use Rattle.bm_top.specs.Verdict.{stores};
ghost use Rattle.bm_top.specs.steps.Ending.{Ends, EndsSo, HasReason, Moves};
ghost use Rattle.bm_top.specs.steps.Pieces.{WereRead};

use crate::ending::Ending;
use crate::reading::read_data;
use crate::steps::{MAX_DATA_BYTES, print_ending, read_ending, undecided_ending};
use crate::store::{DataIndex, data_index};
use crate::texts::print_stored;
use bm_world::{Failed, World, write_all_of};
use std::alloc::Global;
use std::hash::BuildHasher;
use term_numbers::Builder;

/// Writes the index of the data of one file to another. The two may be one.
pub(crate) fn load<'a, W: World, S: BuildHasher + Copy + Drop>(
    alloc: Global,
    hashers: S,
    data: &'a str,
    index: &str,
    world: &mut W,
) -> Ending<'a>
    requires { IfSome (W.told world.old) NothingIsMade }
    ensures step { Step (W.told world.old) (W.told world.new) (λ m n. Ends (IsLoadVerdict m.files «data».now index.now) result m n) }
    ensures reason { HasReason (λ files. IsLoadVerdict files «data».now index.now) («data».now ∷ [])
        (W.told world.old) (W.faults world.old) (W.faults world.new) result }
    ensures moves { Step (W.told world.old) (W.told world.new) (Moves («data».now ∷ [])) }
{
    match read_data(alloc, hashers, world, data) {
        Ok((bad, triples)) => store_data(alloc, bad, triples, index, world),
        Err(end) => read_ending(end, data, MAX_DATA_BYTES),
    }
}

// The steps that are left when the data has been read. No file is begun before the whole index is in memory.
fn store_data<'a, W: World, S: BuildHasher + Drop>(
    alloc: Global,
    bad: Option<u64>,
    triples: Builder<S>,
    index: &str,
    world: &mut W,
) -> Ending<'a>
    requires made { IfSome (W.told world.old) NothingIsMade }
    requires read { WereRead bad triples }
    ensures step { Step (W.told world.old) (W.told world.new) (λ m n. (bytes : List ℕ) → IsReadAs bytes bad (nothing_yet max_triples) triples →
        Ends (IsDecidedByData bytes (IsStored index.now)) result m n) }
    ensures reason { HasReason (λ files verdict. ⊥) []
        (W.told world.old) (W.faults world.old) (W.faults world.new) result }
    ensures moves { Step (W.told world.old) (W.told world.new) (Moves ([])) }
{
    match data_index(alloc, bad, triples) {
        Ok(made) => write_index(&made, index, world),
        Err(undecided) => undecided_ending(undecided),
    }
}

// The index is written, and then how long it is is printed. It takes no memory.
fn write_index<'a, W: World>(made: &DataIndex, name: &str, world: &mut W) -> Ending<'a>
    requires { IfSome (W.told world.old) NothingIsMade }
    ensures step { Step (W.told world.old) (W.told world.new)
        (EndsSo (stores name.now made.now.bytes.items (stored_text made.now.triples (length made.now.bytes.items))) result) }
    ensures reason { HasReason (λ files verdict. ⊥) []
        (W.told world.old) (W.faults world.old) (W.faults world.new) result }
    ensures moves { Step (W.told world.old) (W.told world.new) (Moves []) }
{
    match write_all_of(world, name, &made.bytes) {
        Ok(()) => print_ending(print_stored(made.triples, made.bytes.len(), world)),
        Err(Failed) => Ending::WriteFault,
    }
}
