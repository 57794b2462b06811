//! A relation: a borrowed shape, and a mask for each side.

ghost use Rattle.std.specs.Prelude.{◌≡◌, ◌↔◌, ℕ, ◌-◌, ◌≤◌, ◌^◌, length, filter, find, Some, None};
ghost use Rattle.std.specs.Option.{option_map};
ghost use Rattle.row_lanes.specs.Words.{Has};
ghost use Rattle.mask_pool.specs.Mask.{words_for, DoNotOverlap};
ghost use Rattle.mask_pool.specs.Region.{words_of};
ghost use Rattle.cube_slices.specs.Pairs.{PairsAscend};
ghost use Rattle.pattern_rel.specs.Shapes.{lines_of_shape, KnowsColumns, row_of};
ghost use Rattle.pattern_rel.specs.Left.{pairs_left, own_of, other_of, IsAtSide};
ghost use Rattle.pattern_rel.specs.Bounds.{as_pair, comes_after, is_wanted, seconds_beside};
ghost use Rattle.pattern_rel.specs.Folds.{CanFold, IsBelow, IsUsable, Keeps, is_kept};

use crate::bound::{Bound, Pair};
use crate::counts::count_left;
use crate::cursor::{PairsLeft, RowLeft};
use crate::next::next_left;
use crate::shape::Shape;
use crate::side::Side;
use crate::sides::{fold_across, fold_side, narrow};
use mask_pool::{Mask, MaskPool};
use std::marker::Model;

/// A shape with a mask for each side. It is seen as the shape's lines with the two masks. The pairs left of it in a
/// pool are the pairs of its lines whose first number is in the one mask and whose second number is in the other.
/// A side without a variable has a mask of one bit.
#[derive(Debug, Drop)]
pub struct PatRel<'a> {
    shape: Shape<'a>,
    first: Mask,
    second: Mask,
}

impl<'a> Model for PatRel<'a> {
    ghost use Rattle.pattern_rel.specs.Left.{Relation};
    ghost use Rattle.pattern_rel.specs.Shapes.{lines_of_shape, KnowsColumns};

    ghost Value = { Relation };

    ghost view = { λ r. record { lines = lines_of_shape r.shape; first = r.first; second = r.second } };

    ghost invariant = { λ r. KnowsColumns r.shape };
}

impl<'a> PatRel<'a> {
    /// The relation of a shape and two masks. The columns of the shape, where they are given, are the transpose of its
    /// rows.
    pub fn new(shape: Shape<'a>, first: Mask, second: Mask) -> PatRel<'a>
        requires { KnowsColumns shape }
        ensures { result ≡ record { lines = lines_of_shape shape.entry; first = first; second = second } }
    {
        PatRel {
            shape,
            first,
            second,
        }
    }

    /// The mask of a side.
    pub fn mask(&self, side: Side) -> Mask
        ensures { result ≡ own_of side self.now }
    {
        match side {
            Side::First => self.first,
            Side::Second => self.second,
        }
    }

    /// The pairs left ascend: by their first numbers, and where these are equal by their second ones.
    pub fn pairs_ascend(&self, pool: &MaskPool)
        ensures { PairsAscend (2 ^ 32 - 1) (2 ^ 32 - 1) (pairs_left pool.now self.now) }
    {
        self.shape.lines_ascend();
    }

    /// How many pairs are left, at most `2 ^ 23`.
    pub fn count(&self, pool: &MaskPool) -> u32
        requires first { IsUsable pool.now self.now.first }
        requires second { IsUsable pool.now self.now.second }
        requires few { length (pairs_left pool.now self.now) ≤ 2 ^ 23 }
        ensures { result ≡ length (pairs_left pool.now self.now) }
    {
        count_left(&self.shape, pool.read(self.first), pool.read(self.second))
    }

    /// The least pair left that comes after `after`, where it is given, and agrees with `bound`. `None` exactly where there
    /// is none. The pairs left ascend, so it is the first that is wanted.
    pub fn next(&self, pool: &MaskPool, bound: Bound, after: Option<Pair>) -> Option<Pair>
        requires first { IsUsable pool.now self.now.first }
        requires second { IsUsable pool.now self.now.second }
        ensures { result ≡ option_map as_pair (find (is_wanted bound after) (pairs_left pool.now self.now)) }
    {
        next_left(
            &self.shape,
            pool.read(self.first),
            pool.read(self.second),
            bound,
            after,
        )
    }

    /// The numbers left beside `n` on the other side, one after the other: those of the pairs left with the first number
    /// `n`.
    pub fn beside<'s>(&self, pool: &'s MaskPool, n: u32) -> RowLeft<'s, 'a>
        requires first { IsUsable pool.now self.now.first }
        requires second { IsUsable pool.now self.now.second }
        ensures { result ≡ seconds_beside n (pairs_left pool.now self.now) }
    {
        self.shape.lines_ascend();
        RowLeft::of(
            &self.shape,
            pool.read(self.first),
            pool.read(self.second),
            n,
        )
    }

    /// The pairs left, one after the other.
    pub fn pairs<'s>(&'s self, pool: &'s MaskPool) -> PairsLeft<'s, 'a>
        requires first { IsUsable pool.now self.now.first }
        requires second { IsUsable pool.now self.now.second }
        ensures { result ≡ pairs_left pool.now self.now }
    {
        PairsLeft::all(&self.shape, pool.read(self.first), pool.read(self.second))
    }

    /// The pairs left that come after `last`, one after the other.
    pub fn pairs_after<'s>(&'s self, pool: &'s MaskPool, last: Pair) -> PairsLeft<'s, 'a>
        requires first { IsUsable pool.now self.now.first }
        requires second { IsUsable pool.now self.now.second }
        ensures { result ≡ filter (comes_after (last.first, last.second)) (pairs_left pool.now self.now) }
    {
        PairsLeft::after(
            &self.shape,
            pool.read(self.first),
            pool.read(self.second),
            last,
        )
    }

    /// Makes `into` the numbers at a side of the pairs left. It changes `into` alone.
    pub fn fold(&self, pool: &mut MaskPool, side: Side, into: Mask)
        requires can { CanFold pool.old self.now.first self.now.second into }
        requires room { words_for (own_of side self.now).bits ≤ words_for into.bits }
        ensures folded { (n : ℕ) → Has (words_of pool.new into) n ↔ IsAtSide side (pairs_left pool.old self.now) n }
        ensures keeps { Keeps pool.old pool.new into }
    {
        self.shape.lines_ascend();
        match side {
            Side::First => fold_side(pool, &self.shape, self.first, self.second, into),
            Side::Second => match self.shape.mirror() {
                Some(turned) => fold_side(pool, &turned, self.second, self.first, into),
                None => fold_across(pool, &self.shape, self.first, self.second, into),
            },
        }
    }

    /// Keeps the pairs whose number at a side is in `by` and, where `cut` is given, below it. It changes the mask of that
    /// side alone.
    pub fn unfold(&self, pool: &mut MaskPool, side: Side, by: Mask, cut: Option<u32>)
        requires { CanFold pool.old self.now.first self.now.second by }
        ensures kept { (n : ℕ) → Has (words_of pool.new (own_of side self.now)) n ↔
            (Has (words_of pool.old (own_of side self.now)) n × Has (words_of pool.old by) n × IsBelow cut n) }
        ensures pairs { DoNotOverlap self.now.first self.now.second →
            pairs_left pool.new self.now ≡ filter (is_kept side (words_of pool.old by) cut) (pairs_left pool.old self.now) }
        ensures keeps { Keeps pool.old pool.new (own_of side self.now) }
    {
        match side {
            Side::First => narrow(pool, self.first, by, cut),
            Side::Second => narrow(pool, self.second, by, cut),
        }
    }
}
