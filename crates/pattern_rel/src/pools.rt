//! The loops on masks of a pool. Each call changes one mask.

ghost use Rattle.std.specs.Prelude.{◌≡◌, ◌↔◌, ◌⊎◌, ℕ, ◌*◌, ◌<◌, ◌≤◌, ◌^◌, Contains};
ghost use Rattle.row_lanes.specs.Words.{Has, Meets};
ghost use Rattle.mask_pool.specs.Mask.{Stretch, words_for, DoNotOverlap};
ghost use Rattle.mask_pool.specs.Region.{words_of};
ghost use Rattle.cube_slices.specs.Folds.{IsColumnKept, IsRowKept};
ghost use Rattle.pattern_rel.specs.Shapes.{lines_of_shape, row_of};
ghost use Rattle.pattern_rel.specs.Folds.{IsUsable, Keeps};
ghost use Rattle.pattern_rel.specs.steps.Sets.{IsBeside};

use crate::folds::{gather, retain};
use crate::sets::{assign, set_row};
use crate::shape::Shape;
use cube_slices::SliceRef;
use mask_pool::{Mask, MaskPool};
use row_lanes::{add, add_row, and_into, clear_from};
use run_rows::RowRef;

/// Makes a mask the same set as another, as far as it has words.
#[tactic(auto, using(mask_pool::proofs::Loans::loans))]
pub fn copy_mask(pool: &mut MaskPool, into: Mask, own: Mask)
    requires into { IsUsable pool.old into }
    requires own { IsUsable pool.old own }
    requires apart { DoNotOverlap into own }
    ensures same { (n : ℕ) → Has (words_of pool.new into) n ↔ (Has (words_of pool.old own) n × (n < 64 * words_for into.bits)) }
    ensures keeps { Keeps pool.old pool.new into }
{
    let (words, other) = pool.pair(into, own);
    assign(words, other);
}

/// Makes a mask the empty set.
#[tactic(auto, using(mask_pool::proofs::Loans::loans))]
pub fn clear_mask(pool: &mut MaskPool, into: Mask)
    requires { IsUsable pool.old into }
    ensures none { (n : ℕ) → Has (words_of pool.new into) n → ⊥ }
    ensures keeps { Keeps pool.old pool.new into }
{
    clear_from(pool.write(into), 0);
}

/// Leaves in a mask the numbers that another has too.
#[tactic(auto, using(mask_pool::proofs::Loans::loans))]
pub fn and_mask(pool: &mut MaskPool, into: Mask, other: Mask)
    requires into { IsUsable pool.old into }
    requires other { IsUsable pool.old other }
    requires apart { DoNotOverlap into other }
    ensures both { (n : ℕ) → Has (words_of pool.new into) n ↔ (Has (words_of pool.old into) n × Has (words_of pool.old other) n) }
    ensures keeps { Keeps pool.old pool.new into }
{
    let (words, others) = pool.pair(into, other);
    and_into(words, others);
}

/// Leaves in a mask the numbers below `cut`.
#[tactic(auto, using(mask_pool::proofs::Loans::loans))]
pub fn cut_mask(pool: &mut MaskPool, into: Mask, cut: u32)
    requires { IsUsable pool.old into }
    ensures below { (n : ℕ) → Has (words_of pool.new into) n ↔ (Has (words_of pool.old into) n × (n < cut)) }
    ensures keeps { Keeps pool.old pool.new into }
{
    clear_from(pool.write(into), cut);
}

/// Adds one number to a mask, if it has a word for it.
#[tactic(auto, using(mask_pool::proofs::Loans::loans))]
pub fn add_to_mask(pool: &mut MaskPool, into: Mask, n: u32)
    requires { IsUsable pool.old into }
    ensures either { (m : ℕ) → Has (words_of pool.new into) m ↔ (Has (words_of pool.old into) m ⊎ ((m ≡ n) × (m < 64 * words_for into.bits))) }
    ensures keeps { Keeps pool.old pool.new into }
{
    add(pool.write(into), n);
}

/// Makes a mask the numbers of a row, as far as it has words.
#[tactic(auto, using(mask_pool::proofs::Loans::loans))]
pub fn row_mask(pool: &mut MaskPool, into: Mask, row: &RowRef<'_>)
    requires { IsUsable pool.old into }
    ensures numbers { (n : ℕ) → Has (words_of pool.new into) n ↔ (Contains row.now n × (n < 64 * words_for into.bits)) }
    ensures keeps { Keeps pool.old pool.new into }
{
    set_row(pool.write(into), row);
}

/// Makes a mask the rows of a slice that have a column in `seconds`. It goes by the rows.
#[tactic(auto, using(mask_pool::proofs::Loans::loans))]
pub fn rows_mask(pool: &mut MaskPool, into: Mask, slice: &SliceRef<'_>, seconds: Mask)
    requires into { IsUsable pool.old into }
    requires seconds { IsUsable pool.old seconds }
    requires apart { DoNotOverlap into seconds }
    ensures kept { (n : ℕ) → Has (words_of pool.new into) n ↔ (IsRowKept (words_of pool.old seconds) slice.now n × (n < 64 * words_for into.bits)) }
    ensures keeps { Keeps pool.old pool.new into }
{
    let (words, keep) = pool.pair(into, seconds);
    slice.fold_rows(keep, words);
}

/// Makes a mask the columns of a slice that have a row in `firsts`. It goes by the rows.
#[tactic(auto, using(mask_pool::proofs::Loans::loans))]
pub fn columns_mask(pool: &mut MaskPool, into: Mask, slice: &SliceRef<'_>, firsts: Mask)
    requires into { IsUsable pool.old into }
    requires firsts { IsUsable pool.old firsts }
    requires apart { DoNotOverlap into firsts }
    ensures kept { (c : ℕ) → Has (words_of pool.new into) c ↔ (IsColumnKept (words_of pool.old firsts) slice.now c × (c < 64 * words_for into.bits)) }
    ensures keeps { Keeps pool.old pool.new into }
{
    let (words, keep) = pool.pair(into, firsts);
    slice.fold_columns(keep, words);
}

/// Leaves in a mask the numbers that have a partner in `seconds`. It goes by the members of the mask.
#[tactic(auto, using(mask_pool::proofs::Loans::loans))]
pub fn retain_mask(pool: &mut MaskPool, into: Mask, shape: &Shape<'_>, seconds: Mask)
    requires into { IsUsable pool.old into }
    requires seconds { IsUsable pool.old seconds }
    requires apart { DoNotOverlap into seconds }
    ensures kept { (n : ℕ) → Has (words_of pool.new into) n ↔ (Has (words_of pool.old into) n × Meets (words_of pool.old seconds) (row_of n (lines_of_shape shape.now))) }
    ensures keeps { Keeps pool.old pool.new into }
{
    let (words, keep) = pool.pair(into, seconds);
    retain(shape, words, keep);
}

/// Adds to a mask the partners of the numbers in `firsts`, as far as it has words.
#[tactic(auto, using(mask_pool::proofs::Loans::loans))]
pub fn gather_mask(pool: &mut MaskPool, into: Mask, shape: &Shape<'_>, firsts: Mask)
    requires into { IsUsable pool.old into }
    requires firsts { IsUsable pool.old firsts }
    requires apart { DoNotOverlap into firsts }
    ensures gathered { (c : ℕ) → Has (words_of pool.new into) c ↔ (Has (words_of pool.old into) c ⊎ (IsBeside (words_of pool.old firsts) (lines_of_shape shape.now) c × (c < 64 * words_for into.bits))) }
    ensures keeps { Keeps pool.old pool.new into }
{
    let (words, keep) = pool.pair(into, firsts);
    gather(shape, keep, words);
}
