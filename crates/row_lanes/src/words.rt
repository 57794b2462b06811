//! The loops over words, one word at a time or by [`lanes`](crate::lanes) with a plain loop for the rest.

ghost use Rattle.std.specs.Prelude.{◌≡◌, ℕ, ◌+◌, ◌*◌, ◌<◌, ◌≤◌, ◌^◌, length, slice_index, bit_and, count_ones, sum_by};
ghost use Rattle.row_lanes.specs.WordByWord.{IsAndBetween, IsCutAt, IsFirstSet};

use crate::lanes::{and_blocks, skip_zero_blocks};

/// Leaves in the words from place `from` up to place `to` the bits that are in the same words of `other`.
fn and_between(into: &mut [u64], other: &[u64], from: usize, to: usize)
    requires ordered { from ≤ to }
    requires into_has { to ≤ length into.old }
    requires other_has { to ≤ length other.now }
    ensures { IsAndBetween from to into.old other.now into.new }
{
    for i in from..to {
        into[i] &= other[i];
    }
}

/// Makes each word from place `from` on 0.
pub fn zero_from(into: &mut [u64], from: usize)
    ensures { IsCutAt from into.old into.new }
{
    for i in from..into.len() {
        into[i] = 0;
    }
}

/// Leaves in each word the bits that are in the same word of `other`, and none where `other` has no such word.
pub fn and_words(into: &mut [u64], other: &[u64])
    ensures { (k : ℕ) → slice_index into.new k ≡ bit_and (slice_index into.old k) (slice_index other.now k) }
{
    let shared = into.len().min(other.len());
    let blocks = shared / 4;
    and_blocks(into, other, blocks);
    and_between(into, other, 4 * blocks, shared);
    zero_from(into, shared);
}

/// The place of the first word from place `from` on that is not 0, one word after the other.
fn first_set_by_one(words: &[u64], from: usize) -> Option<usize>
    ensures { IsFirstSet from words.now result }
{
    for i in from..words.len() {
        if words[i] != 0 {
            return Some(i);
        }
    }
    None
}

/// The place of the first word from place `from` on that is not 0.
pub fn first_set(words: &[u64], from: usize) -> Option<usize>
    requires { from ≤ length words.now }
    ensures { IsFirstSet from words.now result }
{
    first_set_by_one(words, skip_zero_blocks(words, from))
}

/// How many bits are set in all words.
pub fn ones(words: &[u64]) -> u32
    requires { length words.now ≤ 2 ^ 25 }
    ensures { result ≡ sum_by count_ones words.now }
{
    let mut total = 0;
    for word in words {
        total += word.count_ones();
    }
    total
}
