//! The law of what is written, for all pools, and what it is that masks overlap.

ghost use Rattle.std.specs.Prelude.{◌≡◌, ◌<◌, ◌≤◌, ◌↔◌, ◌⊎◌, ℕ, List, length};
ghost use Rattle.mask_pool.specs.Mask.{Stretch, words_for, end_of, HasWord, DoNotOverlap};
ghost use Rattle.mask_pool.specs.Region.{Region, IsLive, Wrote};
ghost use Rattle.mask_pool.specs.Loan.{with_words};

/// What is written through a live mask leaves every live mask that does not overlap it as it was, and ends
/// no mask: `with_words` is what a pool is after the loan of [`write`](crate::MaskPool::write) or
/// [`pair`](crate::MaskPool::pair).
pub fn what_is_written_stays_in_its_mask()
    ensures { (pool : Region) (mask : Stretch) (words : List ℕ) → IsLive pool mask →
        length words ≡ words_for mask.bits → Wrote pool (with_words pool mask.start words) mask words }
{}

/// Two masks do not overlap exactly where one of them ends before the other begins. Then no word is in both,
/// and of masks that have words, this says the same.
pub fn one_ends_before_the_other()
    ensures ends { (a b : Stretch) → DoNotOverlap a b ↔ ((end_of a ≤ b.start) ⊎ (end_of b ≤ a.start)) }
    ensures apart { (a b : Stretch) (place : ℕ) → DoNotOverlap a b → HasWord a place → HasWord b place → ⊥ }
    ensures only { (a b : Stretch) → a.start < end_of a → b.start < end_of b →
        ((place : ℕ) → HasWord a place → HasWord b place → ⊥) → DoNotOverlap a b }
{}
