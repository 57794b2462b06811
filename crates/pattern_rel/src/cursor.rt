//! Cursors: the pairs left, and what is left beside one number, one after the other.

ghost use Rattle.std.specs.Prelude.{◌≡◌, ◌-◌, ◌≤◌, ◌^◌, length, filter};
ghost use Rattle.std.specs.Iterator.{YieldsFirst, item_count};
ghost use Rattle.run_rows.specs.Row.{AscendsWithin};
ghost use Rattle.pattern_rel.specs.Shapes.{lines_of_shape};
ghost use Rattle.pattern_rel.specs.Left.{left_in};
ghost use Rattle.pattern_rel.specs.Bounds.{comes_after, is_after};
ghost use Rattle.pattern_rel.specs.steps.Sets.{partner_numbers};
ghost use Rattle.pattern_rel.specs.steps.Walks.{those_in, open_row};

use crate::bound::Pair;
use crate::partners::{Partners, first_of};
use crate::shape::Shape;
use crate::walk::open_first;
use row_lanes::has;
use std::marker::Model;

/// What stands beside `n`, where the set has it.
pub fn open<'a>(shape: &Shape<'a>, firsts: &[u64], n: u32) -> Partners<'a>
    ensures row { partner_numbers result ≡ open_row firsts.now n (lines_of_shape shape.now) }
    ensures ascend { AscendsWithin 0 (2 ^ 32 - 1) (partner_numbers result) }
{
    shape.lines_ascend();
    if has(firsts, n) {
        shape.partners(n)
    } else {
        Partners::Nobody
    }
}

/// The pairs left, in order. It is seen as those that are still to come. The row that it stands in is kept open, so a
/// step within a row seeks no row, and a step to another row seeks it from the place of the last one on.
#[derive(Debug, Drop)]
pub struct PairsLeft<'s, 'a> {
    shape: &'s Shape<'a>,
    firsts: &'s [u64],
    seconds: &'s [u64],
    row: u32,
    at: u32,
    partners: Partners<'a>,
    from: u32,
    place: u32,
}

impl<'s, 'a> Model for PairsLeft<'s, 'a> {
    ghost use Rattle.std.specs.Prelude.{ℕ, List, ◌-◌, ◌^◌, ◌≤◌};
    ghost use Rattle.std.specs.Prelude.{length as list_length};
    ghost use Rattle.run_rows.specs.Row.{AscendsWithin};
    ghost use Rattle.pattern_rel.specs.Shapes.{lines_of_shape};
    ghost use Rattle.pattern_rel.specs.steps.Sets.{partner_numbers};
    ghost use Rattle.pattern_rel.specs.steps.Walks.{open_left};
    ghost use Rattle.pattern_rel.specs.steps.Places.{walked, KnowsPlace};

    ghost Value = { List (ℕ × ℕ) };

    ghost view = { λ s. open_left s.row s.at (partner_numbers s.partners) s.from s.firsts.now s.seconds.now (lines_of_shape s.shape.now) };

    ghost invariant = { λ s. (list_length s.firsts.now ≤ 2 ^ 25) × (list_length s.seconds.now ≤ 2 ^ 25)
        × AscendsWithin 0 (2 ^ 32 - 1) (partner_numbers s.partners) × KnowsPlace s.from s.place (walked s.shape.now) };
}

impl<'s, 'a> PairsLeft<'s, 'a> {
    /// All pairs left.
    #[tactic(auto, using(crate::proofs::PlaceLaws::places))]
    pub(crate) fn all(shape: &'s Shape<'a>, firsts: &'s [u64], seconds: &'s [u64]) -> Self
        requires firsts_few { length firsts.now ≤ 2 ^ 25 }
        requires seconds_few { length seconds.now ≤ 2 ^ 25 }
        ensures { result ≡ left_in firsts.now seconds.now (lines_of_shape shape.now) }
    {
        PairsLeft {
            shape,
            firsts,
            seconds,
            row: 0,
            at: 0,
            partners: Partners::Nobody,
            from: 0,
            place: 0,
        }
    }

    /// The pairs left that come after one.
    #[tactic(auto, using(crate::proofs::PlaceLaws::places))]
    pub(crate) fn after(
        shape: &'s Shape<'a>,
        firsts: &'s [u64],
        seconds: &'s [u64],
        last: Pair,
    ) -> Self
        requires firsts_few { length firsts.now ≤ 2 ^ 25 }
        requires seconds_few { length seconds.now ≤ 2 ^ 25 }
        ensures { result ≡ filter (comes_after (last.first, last.second)) (left_in firsts.now seconds.now (lines_of_shape shape.now)) }
    {
        shape.lines_ascend();
        PairsLeft {
            shape,
            firsts,
            seconds,
            row: last.first,
            at: last.second.saturating_add(1),
            partners: open(shape, firsts, last.first),
            from: last.first.saturating_add(1),
            place: 0,
        }
    }
}

/// The pairs left that come after the last one, or all.
pub fn pairs_from<'s, 'a>(
    shape: &'s Shape<'a>,
    firsts: &'s [u64],
    seconds: &'s [u64],
    after: Option<Pair>,
) -> PairsLeft<'s, 'a>
    requires firsts_few { length firsts.now ≤ 2 ^ 25 }
    requires seconds_few { length seconds.now ≤ 2 ^ 25 }
    ensures { result ≡ filter (is_after after) (left_in firsts.now seconds.now (lines_of_shape shape.now)) }
{
    match after {
        None => PairsLeft::all(shape, firsts, seconds),
        Some(last) => PairsLeft::after(shape, firsts, seconds, last),
    }
}

impl<'s, 'a> Iterator for PairsLeft<'s, 'a> {
    type Item = (u32, u32);

    ghost next_gives = { YieldsFirst (λ r. r) };

    ghost remaining = { item_count (λ r. r) };

    fn next(&mut self) -> Option<(u32, u32)> {
        if let Some(second) = first_of(&self.partners, self.seconds, self.at) {
            self.at = second + 1;
            return Some((self.row, second));
        }
        let opened = open_first(self.shape, self.firsts, self.seconds, self.place, self.from)?;
        let first = opened.first;
        let second = opened.second;
        self.row = first;
        self.at = second + 1;
        self.from = first + 1;
        self.place = opened.place;
        self.partners = opened.partners;
        Some((first, second))
    }
}

/// The numbers left beside one number, in order. It is seen as those that are still to come.
#[derive(Debug, Drop)]
pub struct RowLeft<'s, 'a> {
    words: &'s [u64],
    partners: Partners<'a>,
    at: u32,
}

impl<'s, 'a> Model for RowLeft<'s, 'a> {
    ghost use Rattle.std.specs.Prelude.{ℕ, List, ◌-◌, ◌^◌, ◌≤◌};
    ghost use Rattle.std.specs.Prelude.{length as list_length};
    ghost use Rattle.run_rows.specs.Row.{AscendsWithin};
    ghost use Rattle.pattern_rel.specs.steps.Sets.{partner_numbers};
    ghost use Rattle.pattern_rel.specs.steps.Walks.{those_from};

    ghost Value = { List ℕ };

    ghost view = { λ s. those_from s.at s.words.now (partner_numbers s.partners) };

    ghost invariant = { λ s. (list_length s.words.now ≤ 2 ^ 25) × AscendsWithin 0 (2 ^ 32 - 1) (partner_numbers s.partners) };
}

impl<'s, 'a> RowLeft<'s, 'a> {
    /// The numbers in the set `seconds` that stand beside `n`, where `firsts` has it.
    pub(crate) fn of(shape: &Shape<'a>, firsts: &[u64], seconds: &'s [u64], n: u32) -> Self
        requires { length seconds.now ≤ 2 ^ 25 }
        ensures { result ≡ those_in seconds.now (open_row firsts.now n (lines_of_shape shape.now)) }
    {
        RowLeft {
            words: seconds,
            partners: open(shape, firsts, n),
            at: 0,
        }
    }
}

impl<'s, 'a> Iterator for RowLeft<'s, 'a> {
    type Item = u32;

    ghost next_gives = { YieldsFirst (λ r. r) };

    ghost remaining = { item_count (λ r. r) };

    fn next(&mut self) -> Option<u32> {
        let number = first_of(&self.partners, self.words, self.at)?;
        self.at = number + 1;
        Some(number)
    }
}
