//! How many pairs are left.

ghost use Rattle.std.specs.Prelude.{◌≡◌, ◌≤◌, ◌-◌, ◌^◌, length};
ghost use Rattle.run_rows.specs.Row.{AscendsWithin};
ghost use Rattle.pattern_rel.specs.Shapes.{lines_of_shape};
ghost use Rattle.pattern_rel.specs.Left.{left_in};
ghost use Rattle.pattern_rel.specs.steps.Sets.{partner_numbers};
ghost use Rattle.pattern_rel.specs.steps.Walks.{those_in};

use crate::partners::{Partners, first_of};
use crate::shape::Shape;

/// How many of the partners are in the set.
fn count_in(partners: &Partners<'_>, words: &[u64]) -> u32
    requires few { length words.now ≤ 2 ^ 25 }
    requires ascend { AscendsWithin 0 (2 ^ 32 - 1) (partner_numbers partners.now) }
    ensures { result ≡ length (those_in words.now (partner_numbers partners.now)) }
{
    let mut total = 0;
    let mut at = 0;
    while let Some(number) = first_of(partners, words, at) {
        total += 1;
        at = number + 1;
    }
    total
}

/// How many pairs of the shape the two sets leave, at most `2 ^ 23`.
#[tactic(auto, using(crate::proofs::PlaceLaws::places))]
pub fn count_left(shape: &Shape<'_>, firsts: &[u64], seconds: &[u64]) -> u32
    requires firsts_few { length firsts.now ≤ 2 ^ 25 }
    requires seconds_few { length seconds.now ≤ 2 ^ 25 }
    requires few { length (left_in firsts.now seconds.now (lines_of_shape shape.now)) ≤ 2 ^ 23 }
    ensures { result ≡ length (left_in firsts.now seconds.now (lines_of_shape shape.now)) }
{
    shape.lines_ascend();
    let mut total = 0;
    let mut place = 0;
    let mut at = 0;
    while let Some(first) = shape.candidate(firsts, place, at) {
        let (found, partners) = shape.partners_from(place, first);
        total += count_in(&partners, seconds);
        place = found;
        at = first + 1;
    }
    total
}
