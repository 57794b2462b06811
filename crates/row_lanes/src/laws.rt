//! Laws of the definitions.

ghost use Rattle.std.specs.Prelude.{◌↔◌, ℕ, Contains};
ghost use Rattle.std.specs.List.Sorted.{IsStrictlyIncreasing};
ghost use Rattle.row_lanes.specs.Words.{Has, numbers_in};

/// The numbers of words are exactly those that the words have.
pub fn numbers_are_had(words: &[u64])
    ensures { (n : ℕ) → Contains (numbers_in words.now) n ↔ Has words.now n }
{}

/// They ascend strictly, so each is there once and their count is the size of the set.
pub fn numbers_ascend(words: &[u64])
    ensures { IsStrictlyIncreasing (numbers_in words.now) }
{}
