//! The next pair left.

ghost use Rattle.std.specs.Prelude.{◌≡◌, ◌≤◌, ◌^◌, length, find, Some, None};
ghost use Rattle.std.specs.Option.{option_map};
ghost use Rattle.pattern_rel.specs.Left.{left_in};
ghost use Rattle.pattern_rel.specs.Bounds.{as_pair, is_after, is_wanted};
ghost use Rattle.pattern_rel.specs.Shapes.{lines_of_shape, KnowsColumns};
ghost use Rattle.pattern_rel.specs.steps.Sets.{IsNextBoth};
ghost use Rattle.pattern_rel.specs.steps.Walks.{open_row};
ghost use Rattle.pattern_rel.specs.steps.Finds.{IsFound, IsNextRow, StartsInColumn, StartsInRow};

use crate::bound::{Bound, Pair};
use crate::cursor::{open, pairs_from};
use crate::shape::Shape;
use row_lanes::has;

/// Where the pairs after the last one begin in row `n`.
fn start_in_row(after: Option<Pair>, n: u32) -> u32
    ensures { StartsInRow after n result }
{
    match after {
        None => 0,
        Some(last) if last.first < n => 0,
        Some(last) if last.first == n => last.second.saturating_add(1),
        Some(_) => u32::MAX,
    }
}

/// Where the pairs after the last one begin in column `c`.
fn start_in_column(after: Option<Pair>, c: u32) -> u32
    ensures { StartsInColumn after c result }
{
    match after {
        None => 0,
        Some(last) if last.second < c => last.first,
        Some(last) => last.first.saturating_add(1),
    }
}

/// The least number left beside `n` that is not below `at`.
fn next_beside(shape: &Shape<'_>, firsts: &[u64], seconds: &[u64], n: u32, at: u32) -> Option<u32>
    requires { length seconds.now ≤ 2 ^ 25 }
    ensures { IsNextBoth at seconds.now (open_row firsts.now n (lines_of_shape shape.now)) result }
{
    open(shape, firsts, n).first_in(seconds, at)
}

/// A pair with this first number, if there is a second one.
fn in_row(first: u32, second: Option<u32>) -> Option<Pair>
    ensures { result ≡ option_map (λ c. record { first = first; second = c }) second }
{
    let second = second?;
    Some(Pair { first, second })
}

/// A pair with this second number, if there is a first one.
fn in_column(first: Option<u32>, second: u32) -> Option<Pair>
    ensures { result ≡ option_map (λ n. record { first = n; second = second }) first }
{
    let first = first?;
    Some(Pair { first, second })
}

/// The next pair left.
fn next_pair(
    shape: &Shape<'_>,
    firsts: &[u64],
    seconds: &[u64],
    after: Option<Pair>,
) -> Option<Pair>
    requires firsts_few { length firsts.now ≤ 2 ^ 25 }
    requires seconds_few { length seconds.now ≤ 2 ^ 25 }
    ensures { result ≡ option_map as_pair (find (is_after after) (left_in firsts.now seconds.now (lines_of_shape shape.now))) }
{
    let mut pairs = pairs_from(shape, firsts, seconds, after);
    let (first, second) = pairs.next()?;
    Some(Pair { first, second })
}

/// The next pair left with the first number `n`.
fn next_in_row(
    shape: &Shape<'_>,
    firsts: &[u64],
    seconds: &[u64],
    n: u32,
    after: Option<Pair>,
) -> Option<Pair>
    requires firsts_few { length firsts.now ≤ 2 ^ 25 }
    requires seconds_few { length seconds.now ≤ 2 ^ 25 }
    ensures { IsFound (Some n) None after firsts.now seconds.now (lines_of_shape shape.now) result }
{
    let at = start_in_row(after, n);
    in_row(n, next_beside(shape, firsts, seconds, n, at))
}

/// The one pair with these numbers, if it is left and comes after the last one.
fn this_pair(
    shape: &Shape<'_>,
    firsts: &[u64],
    seconds: &[u64],
    pair: Pair,
    after: Option<Pair>,
) -> Option<Pair>
    requires firsts_few { length firsts.now ≤ 2 ^ 25 }
    requires seconds_few { length seconds.now ≤ 2 ^ 25 }
    ensures { IsFound (Some pair.first) (Some pair.second) after firsts.now seconds.now (lines_of_shape shape.now) result }
{
    if start_in_row(after, pair.first) > pair.second {
        return None;
    }
    let second = next_beside(shape, firsts, seconds, pair.first, pair.second)?;
    if second == pair.second {
        Some(pair)
    } else {
        None
    }
}

/// The least number from `from` on that has `c` beside it, row by row.
#[tactic(auto, using(crate::proofs::PlaceLaws::places))]
fn next_row(shape: &Shape<'_>, firsts: &[u64], c: u32, from: u32) -> Option<u32>
    requires { length firsts.now ≤ 2 ^ 25 }
    ensures { IsNextRow from firsts.now (lines_of_shape shape.now) c result }
{
    let mut at = from;
    let mut place = 0;
    while let Some(n) = shape.candidate(firsts, place, at) {
        let (found, partners) = shape.partners_from(place, n);
        if partners.has(c) {
            return Some(n);
        }
        place = found;
        at = n + 1;
    }
    None
}

/// The same by the columns, where the shape has them.
fn next_above(shape: &Shape<'_>, firsts: &[u64], c: u32, from: u32) -> Option<u32>
    requires few { length firsts.now ≤ 2 ^ 25 }
    requires columns { KnowsColumns shape.now }
    ensures { IsNextRow from firsts.now (lines_of_shape shape.now) c result }
{
    match shape.mirror() {
        Some(turned) => turned.partners(c).first_in(firsts, from),
        None => next_row(shape, firsts, c, from),
    }
}

/// The next pair left with the second number `c`.
fn next_in_column(
    shape: &Shape<'_>,
    firsts: &[u64],
    seconds: &[u64],
    c: u32,
    after: Option<Pair>,
) -> Option<Pair>
    requires firsts_few { length firsts.now ≤ 2 ^ 25 }
    requires columns { KnowsColumns shape.now }
    ensures { IsFound None (Some c) after firsts.now seconds.now (lines_of_shape shape.now) result }
{
    if !has(seconds, c) {
        return None;
    }
    let from = start_in_column(after, c);
    in_column(next_above(shape, firsts, c, from), c)
}

/// The next pair left that agrees with what is bound.
pub fn next_left(
    shape: &Shape<'_>,
    firsts: &[u64],
    seconds: &[u64],
    bound: Bound,
    after: Option<Pair>,
) -> Option<Pair>
    requires firsts_few { length firsts.now ≤ 2 ^ 25 }
    requires seconds_few { length seconds.now ≤ 2 ^ 25 }
    requires columns { KnowsColumns shape.now }
    ensures { result ≡ option_map as_pair (find (is_wanted bound after) (left_in firsts.now seconds.now (lines_of_shape shape.now))) }
{
    shape.lines_ascend();
    match (bound.first, bound.second) {
        (None, None) => next_pair(shape, firsts, seconds, after),
        (Some(first), None) => next_in_row(shape, firsts, seconds, first, after),
        (None, Some(second)) => next_in_column(shape, firsts, seconds, second, after),
        (Some(first), Some(second)) => {
            this_pair(shape, firsts, seconds, Pair { first, second }, after)
        }
    }
}
