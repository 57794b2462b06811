//! The pool: one region of words, from which masks are taken.

ghost use Rattle.std.specs.Prelude.{◌≡◌, ◌+◌, ◌≤◌, ◌<◌, ◌↔◌, ℕ, [], IfOk, length, slice_range};
ghost use Rattle.std.specs.Borrow.{sem};
ghost use Rattle.mask_pool.specs.Mask.{Stretch, words_for, DoNotOverlap};
ghost use Rattle.row_lanes.specs.Words.{Has};
ghost use Rattle.mask_pool.specs.Region.{Region, room_of, IsLive, words_of, IsIn, Stays};
ghost use Rattle.mask_pool.specs.Loan.{LendsMask, LendsWords};

use crate::masks::Mask;
use crate::words::fill;
use std::alloc::{AllocError, Global};
use std::marker::Model;

/// One region of words, from which masks are taken one after another and given up all together. It is
/// seen as the words that were taken, and how many are left.
#[derive(Debug, Drop)]
pub struct MaskPool {
    words: Vec<u64>,
    taken: u32,
}

impl Model for MaskPool {
    ghost use Rattle.std.specs.Prelude.{◌≤◌, ◌<◌, ◌-◌, ◌^◌, take, vec_len};
    ghost use Rattle.mask_pool.specs.Region.{Region};

    ghost Value = { Region };

    ghost view = { λ p. record { words = take p.taken p.words.items; spare = vec_len p.words - p.taken } };

    ghost invariant = { λ p. (p.taken ≤ vec_len p.words) × (vec_len p.words < 2 ^ 32) };
}

impl MaskPool {
    /// A pool of so many words, from which nothing is taken yet. This is the one call that takes memory, and
    /// `Err` is only where that runs out.
    pub fn with_room(alloc: Global, words: u32) -> Result<MaskPool, AllocError>
        ensures { IfOk result (λ pool. pool ≡ record { words = []; spare = words }) }
    {
        Ok(MaskPool {
            words: vec![in alloc; 0; words as usize]?,
            taken: 0,
        })
    }

    /// How many words are left.
    pub fn spare(&self) -> u32
        ensures { result ≡ self.now.spare }
    {
        self.words.len() as u32 - self.taken
    }

    /// Takes a mask of so many bits, which has all numbers below them. There are `bits` / 64 words left,
    /// rounded up.
    pub fn take(&mut self, bits: u32) -> Mask
        requires { words_for bits ≤ self.old.spare }
        ensures bits { result.bits ≡ bits }
        ensures live { IsLive self.new result }
        ensures full { (n : ℕ) → IsIn self.new result n ↔ (n < bits) }
        ensures none_beyond { (n : ℕ) → Has (words_of self.new result) n → n < bits }
        ensures apart { (m : Stretch) → IsLive self.old m → DoNotOverlap m result }
        ensures others { (m : Stretch) → IsLive self.old m → Stays self.old self.new m }
        ensures spare { self.new.spare + words_for bits ≡ self.old.spare }
        ensures room { room_of self.new ≡ room_of self.old }
    {
        let mask = Mask::at(self.taken, bits);
        fill(self.words.slice_mut(mask.start()..mask.end()), bits);
        self.taken += mask.word_count();
        mask
    }

    /// The words of a mask: number n is bit n mod 64 of word n / 64. The mask is live: it lies within the
    /// words that were taken.
    pub fn read(&self, mask: Mask) -> &[u64]
        requires { IsLive self.now mask }
        ensures words { result.now ≡ words_of self.now mask }
        ensures len { length result.now ≡ words_for mask.bits }
    {
        &self.words[mask.start()..mask.end()]
    }

    /// The words of a mask, to be written. The mask is live.
    pub fn write(&mut self, mask: Mask) -> &mut [u64]
        requires { IsLive self.old mask }
        ensures* writes_back { sem 𝓛 (LendsMask self.entry mask result) }
        ensures words { result.now ≡ words_of self.old mask }
        ensures len { length result.now ≡ words_for mask.bits }
    {
        self.words_between(mask.start(), mask.end())
    }

    /// The words of two masks that are live and do not overlap: the first to be written, the second to be read.
    pub fn pair(&mut self, into: Mask, other: Mask) -> (&mut [u64], &[u64])
        requires into_live { IsLive self.old into }
        requires other_live { IsLive self.old other }
        requires apart { DoNotOverlap into other }
        ensures* writes_back { sem 𝓛 (LendsMask self.entry into result.0) }
        ensures into { result.0.now ≡ words_of self.old into }
        ensures into_len { length result.0.now ≡ words_for into.bits }
        ensures other { result.1.now ≡ words_of self.old other }
        ensures other_len { length result.1.now ≡ words_for other.bits }
    {
        if into.end() <= other.start() {
            let (lent, after) = self.front_beside(into.start(), into.end(), other.end());
            (lent, &after[other.start() - into.end()..])
        } else {
            let (lent, before) = self.back_beside(other.start(), into.start(), into.end());
            (lent, &before[..other.word_count() as usize])
        }
    }

    /// Ends all masks: all words are left again.
    pub fn give_up_all(&mut self)
        ensures { self.new ≡ record { words = []; spare = room_of self.old } }
    {
        self.taken = 0;
    }

    /// The words from `start` to `end`, to be written.
    pub(crate) fn words_between(&mut self, start: usize, end: usize) -> &mut [u64]
        requires { (start ≤ end) × (end ≤ length self.old.words) }
        ensures* writes_back { sem 𝓛 (LendsWords self.entry start result) }
        ensures words { result.now ≡ slice_range self.old.words start end }
    {
        self.words.slice_mut(start..end)
    }
}
