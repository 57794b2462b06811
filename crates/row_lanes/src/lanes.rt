//! Four words at a time.

ghost use Rattle.std.specs.Prelude.{◌↔◌, ◌+◌, ◌*◌, ◌≤◌, length, IsTrue};
ghost use Rattle.row_lanes.specs.WordByWord.{IsAndBetween, AreZeroBetween};

use std::simd::prelude::*;

/// Leaves in four words of `into`, from `at` on, the bits that are in the same words of `other` too.
#[inline(always)]
fn and_four(into: &mut [u64], other: &[u64], at: usize)
    requires into_has { at + 4 ≤ length into.old }
    requires other_has { at + 4 ≤ length other.now }
    ensures { IsAndBetween at (at + 4) into.old other.now into.new }
{
    let both = u64x4::from_slice(&into[at..]) & u64x4::from_slice(&other[at..]);
    both.copy_to_slice(&mut into[at..]);
}

/// The same of the first `blocks` blocks of four words.
pub fn and_blocks(into: &mut [u64], other: &[u64], blocks: usize)
    requires into_has { 4 * blocks ≤ length into.old }
    requires other_has { 4 * blocks ≤ length other.now }
    ensures { IsAndBetween 0 (4 * blocks) into.old other.now into.new }
{
    for block in 0..blocks {
        and_four(into, other, 4 * block);
    }
}

/// Whether the four words from `at` on are 0.
#[inline(always)]
fn is_zero_block(words: &[u64], at: usize) -> bool
    requires { at + 4 ≤ length words.now }
    ensures { IsTrue result ↔ AreZeroBetween at (at + 4) words.now }
{
    let block = u64x4::from_slice(&words[at..]);
    block.simd_ne(u64x4::splat(0)).to_bitmask() == 0
}

/// The first place, of `from` and each fourth one behind it, where one of four words is not 0 or fewer
/// than four words are left.
pub fn skip_zero_blocks(words: &[u64], from: usize) -> usize
    requires { from ≤ length words.now }
    ensures start { from ≤ result }
    ensures end { result ≤ length words.now }
    ensures passed { AreZeroBetween from result words.now }
    ensures stops { result + 4 ≤ length words.now → ¬ AreZeroBetween result (result + 4) words.now }
{
    let mut at = from;
    while words.len() - at >= 4 && is_zero_block(words, at) {
        at += 4;
    }
    at
}
