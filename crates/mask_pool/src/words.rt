//! Words as a set of numbers.

ghost use Rattle.std.specs.Prelude.{◌≡◌, ◌<◌, ◌↔◌, ℕ, length};
ghost use Rattle.mask_pool.specs.Mask.{words_for};
ghost use Rattle.row_lanes.specs.Words.{Has};

/// Makes the words the set of all numbers below `bits`.
pub fn fill(words: &mut [u64], bits: u32)
    requires { length words.old ≡ words_for bits }
    ensures { (n : ℕ) → Has words.new n ↔ (n < bits) }
{
    words.fill(u64::MAX);
    if bits % 64 > 0 {
        words[bits as usize / 64] = (1 << (bits % 64)) - 1;
    }
}
