//! A mask: which words of a region it has.

ghost use Rattle.std.specs.Prelude.{◌≡◌, ◌+◌};
ghost use Rattle.mask_pool.specs.Mask.{words_for, end_of};

use std::marker::Model;

/// A token for some words of a [`MaskPool`](crate::MaskPool): a set of the numbers below its number of
/// bits, one bit a number. It is seen as its place, the first word and the number of bits.
#[derive(Clone, Copy, Debug, PartialEq, Eq)]
pub struct Mask {
    start: u32,
    words: u32,
    bits: u32,
}

impl Model for Mask {
    ghost use Rattle.std.specs.Prelude.{◌≡◌, ℕ};
    ghost use Rattle.std.proofs.Common.{ap, sym};
    ghost use Rattle.mask_pool.specs.Mask.{Stretch, words_for};

    ghost Value = { Stretch };

    ghost view = { λ m. record { start = m.start; bits = m.bits } };

    ghost invariant = { λ m. m.words ≡ words_for m.bits };

    ghost inverse = { λ s. record { start = s.start; words = words_for s.bits; bits = s.bits } };

    ghost inverse_ok = { λ m has. ap (λ (n : ℕ). record m { words = n }) (sym has) };
}

impl Mask {
    /// The mask of so many bits that begins at this word.
    pub(crate) fn at(start: u32, bits: u32) -> Mask
        ensures { result ≡ record { start = start; bits = bits } }
    {
        Mask {
            start,
            words: bits.div_ceil(64),
            bits,
        }
    }

    /// How many numbers it can have: each is below this.
    pub fn bits(self) -> u32
        ensures { result ≡ self.bits }
    {
        self.bits
    }

    /// How many words it has.
    pub(crate) fn word_count(self) -> u32
        ensures { result ≡ words_for self.bits }
    {
        self.words
    }

    /// The place of its first word.
    pub(crate) fn start(self) -> usize
        ensures { result ≡ self.start }
    {
        self.start as usize
    }

    /// The place after its last word.
    pub(crate) fn end(self) -> usize
        ensures { result ≡ end_of self }
    {
        self.start as usize + self.words as usize
    }
}
