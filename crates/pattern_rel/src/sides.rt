//! Folds of a shape under two masks into a third.

ghost use Rattle.std.specs.Prelude.{◌≡◌, ◌↔◌, ℕ, ◌≤◌, ◌^◌, length, Contains};
ghost use Rattle.row_lanes.specs.Words.{Has, Meets};
ghost use Rattle.mask_pool.specs.Mask.{words_for, DoNotOverlap};
ghost use Rattle.mask_pool.specs.Region.{words_of};
ghost use Rattle.pattern_rel.specs.Shapes.{lines_of_shape, row_lines, row_of};
ghost use Rattle.pattern_rel.specs.Folds.{CanFold, IsBelow, IsUsable, Keeps};
ghost use Rattle.pattern_rel.specs.steps.Sets.{IsBeside};

use crate::pools::{
    add_to_mask, and_mask, clear_mask, columns_mask, copy_mask, cut_mask, gather_mask, retain_mask,
    row_mask, rows_mask,
};
use crate::shape::Shape;
use crate::walk::open_next;
use cube_slices::SliceRef;
use mask_pool::{Mask, MaskPool};
use row_lanes::{count, has};
use run_rows::RowRef;

/// A mask with so many times fewer numbers than a slice has rows is walked number by number.
const SPARSE: u32 = 8;

/// Makes `into` the numbers of `own` that have a partner in `other`, by the numbers of `own`.
#[tactic(auto, using(crate::proofs::MaskLaws::kept))]
fn fold_members(pool: &mut MaskPool, shape: &Shape<'_>, own: Mask, other: Mask, into: Mask)
    requires can { CanFold pool.old own other into }
    requires room { words_for own.bits ≤ words_for into.bits }
    ensures folded { (n : ℕ) → Has (words_of pool.new into) n ↔ (Has (words_of pool.old own) n × Meets (words_of pool.old other) (row_of n (lines_of_shape shape.now))) }
    ensures keeps { Keeps pool.old pool.new into }
{
    copy_mask(pool, into, own);
    retain_mask(pool, into, shape, other);
}

/// The same of all pairs of a slice, by its rows.
#[tactic(auto, using(crate::proofs::MaskLaws::kept))]
fn fold_rows(pool: &mut MaskPool, slice: &SliceRef<'_>, own: Mask, other: Mask, into: Mask)
    requires can { CanFold pool.old own other into }
    requires room { words_for own.bits ≤ words_for into.bits }
    ensures folded { (n : ℕ) → Has (words_of pool.new into) n ↔ (Has (words_of pool.old own) n × Meets (words_of pool.old other) (row_of n slice.now)) }
    ensures keeps { Keeps pool.old pool.new into }
{
    slice.rows();
    rows_mask(pool, into, slice, other);
    and_mask(pool, into, own);
}

/// The same of one row, by its runs.
#[tactic(auto, using(crate::proofs::MaskLaws::kept))]
fn fold_row(pool: &mut MaskPool, row: &RowRef<'_>, own: Mask, other: Mask, into: Mask)
    requires can { CanFold pool.old own other into }
    requires room { words_for own.bits ≤ words_for into.bits }
    ensures folded { (n : ℕ) → Has (words_of pool.new into) n ↔ (Has (words_of pool.old own) n × Meets (words_of pool.old other) (row_of n (row_lines row.now))) }
    ensures keeps { Keeps pool.old pool.new into }
{
    if has(pool.read(other), 0) {
        row_mask(pool, into, row);
        and_mask(pool, into, own);
    } else {
        clear_mask(pool, into);
    }
}

/// Whether a mask has far fewer numbers than a slice has rows.
fn is_sparse(own: &[u64], slice: &SliceRef<'_>) -> bool
    requires { length own.now ≤ 2 ^ 25 }
{
    count(own) < slice.rows() / SPARSE
}

/// Makes `into` the numbers of `own` that have a partner in `other`.
pub fn fold_side(pool: &mut MaskPool, shape: &Shape<'_>, own: Mask, other: Mask, into: Mask)
    requires can { CanFold pool.old own other into }
    requires room { words_for own.bits ≤ words_for into.bits }
    ensures folded { (n : ℕ) → Has (words_of pool.new into) n ↔ (Has (words_of pool.old own) n × Meets (words_of pool.old other) (row_of n (lines_of_shape shape.now))) }
    ensures keeps { Keeps pool.old pool.new into }
{
    match shape {
        Shape::OneRow(row) => fold_row(pool, row, own, other, into),
        Shape::Pairs { rows, .. } => {
            if is_sparse(pool.read(own), rows) {
                fold_members(pool, shape, own, other, into);
            } else {
                fold_rows(pool, rows, own, other, into);
            }
        }
        _ => fold_members(pool, shape, own, other, into),
    }
}

/// Makes `into` the numbers of `second` that stand beside a number of `first`, by the numbers of `first`.
#[tactic(auto, using(crate::proofs::MaskLaws::kept))]
fn fold_gathered(pool: &mut MaskPool, shape: &Shape<'_>, first: Mask, second: Mask, into: Mask)
    requires can { CanFold pool.old first second into }
    requires room { words_for second.bits ≤ words_for into.bits }
    ensures folded { (c : ℕ) → Has (words_of pool.new into) c ↔ (Has (words_of pool.old second) c × IsBeside (words_of pool.old first) (lines_of_shape shape.now) c) }
    ensures keeps { Keeps pool.old pool.new into }
{
    clear_mask(pool, into);
    gather_mask(pool, into, shape, first);
    and_mask(pool, into, second);
}

/// The same of all pairs of a slice, by its rows.
#[tactic(auto, using(crate::proofs::MaskLaws::kept))]
fn fold_columns(pool: &mut MaskPool, slice: &SliceRef<'_>, first: Mask, second: Mask, into: Mask)
    requires can { CanFold pool.old first second into }
    requires room { words_for second.bits ≤ words_for into.bits }
    ensures folded { (c : ℕ) → Has (words_of pool.new into) c ↔ (Has (words_of pool.old second) c × IsBeside (words_of pool.old first) slice.now c) }
    ensures keeps { Keeps pool.old pool.new into }
{
    slice.rows();
    columns_mask(pool, into, slice, first);
    and_mask(pool, into, second);
}

/// The same of a shape that has nothing but 0 on its second side. The walk ends at the first pair.
#[tactic(auto, using(crate::proofs::MaskLaws::kept))]
fn fold_to_zero(pool: &mut MaskPool, shape: &Shape<'_>, first: Mask, second: Mask, into: Mask)
    requires can { CanFold pool.old first second into }
    requires room { words_for second.bits ≤ words_for into.bits }
    requires zero { (n c : ℕ) → Contains (row_of n (lines_of_shape shape.now)) c → c ≡ 0 }
    ensures folded { (c : ℕ) → Has (words_of pool.new into) c ↔ (Has (words_of pool.old second) c × IsBeside (words_of pool.old first) (lines_of_shape shape.now) c) }
    ensures keeps { Keeps pool.old pool.new into }
{
    let some = open_next(shape, pool.read(first), pool.read(second), 0, 0).is_some();
    clear_mask(pool, into);
    if some {
        add_to_mask(pool, into, 0);
    }
}

/// Makes `into` the numbers of `second` that stand beside a number of `first`, without the columns.
pub fn fold_across(pool: &mut MaskPool, shape: &Shape<'_>, first: Mask, second: Mask, into: Mask)
    requires can { CanFold pool.old first second into }
    requires room { words_for second.bits ≤ words_for into.bits }
    ensures folded { (c : ℕ) → Has (words_of pool.new into) c ↔ (Has (words_of pool.old second) c × IsBeside (words_of pool.old first) (lines_of_shape shape.now) c) }
    ensures keeps { Keeps pool.old pool.new into }
{
    match shape {
        Shape::Nothing => clear_mask(pool, into),
        Shape::Ground => fold_to_zero(pool, shape, first, second, into),
        Shape::OneRow(_) => fold_to_zero(pool, shape, first, second, into),
        Shape::Column { .. } => fold_to_zero(pool, shape, first, second, into),
        Shape::Pairs { rows, .. } => {
            if is_sparse(pool.read(first), rows) {
                fold_gathered(pool, shape, first, second, into);
            } else {
                fold_columns(pool, rows, first, second, into);
            }
        }
        Shape::Diagonal { .. } => fold_gathered(pool, shape, first, second, into),
    }
}

/// Leaves in `own` the numbers that `by` has and that are below `cut`, where it is given.
#[tactic(auto, using(crate::proofs::MaskLaws::kept))]
pub fn narrow(pool: &mut MaskPool, own: Mask, by: Mask, cut: Option<u32>)
    requires own { IsUsable pool.old own }
    requires by { IsUsable pool.old by }
    requires apart { DoNotOverlap by own }
    ensures kept { (n : ℕ) → Has (words_of pool.new own) n ↔ (Has (words_of pool.old own) n × Has (words_of pool.old by) n × IsBelow cut n) }
    ensures keeps { Keeps pool.old pool.new own }
{
    and_mask(pool, own, by);
    if let Some(cut) = cut {
        cut_mask(pool, own, cut);
    }
}
