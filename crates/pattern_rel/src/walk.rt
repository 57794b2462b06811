//! The walk over the pairs left.

ghost use Rattle.std.specs.Prelude.{◌≡◌, ℕ, ◌+◌, ◌-◌, ◌*◌, ◌<◌, ◌≤◌, ◌^◌, [], ◌∷◌, length, IfSome, IfNone};
ghost use Rattle.row_lanes.specs.Words.{Has, Meets};
ghost use Rattle.pattern_rel.specs.Shapes.{lines_of_shape, row_of};
ghost use Rattle.run_rows.specs.Row.{AscendsWithin};
ghost use Rattle.pattern_rel.specs.steps.Sets.{partner_numbers};
ghost use Rattle.pattern_rel.specs.steps.Walks.{left_from, open_left};
ghost use Rattle.pattern_rel.specs.steps.Places.{walked, KnowsPlace};
ghost use Rattle.pattern_rel.specs.steps.Opened.{IsOpened};

use crate::partners::Partners;
use crate::shape::Shape;

/// A pair left, with what stands beside its first number, and the place of that row.
#[derive(Debug, Drop)]
pub struct Opened<'a> {
    pub first: u32,
    pub second: u32,
    pub partners: Partners<'a>,
    pub place: u32,
}

/// The first pair left whose first number is not below `from`, sought from a place among the rows on.
#[tactic(auto, using(crate::proofs::PlaceLaws::places))]
pub fn open_next<'a>(
    shape: &Shape<'a>,
    firsts: &[u64],
    seconds: &[u64],
    place: u32,
    from: u32,
) -> Option<Opened<'a>>
    requires firsts_few { length firsts.now ≤ 2 ^ 25 }
    requires seconds_few { length seconds.now ≤ 2 ^ 25 }
    requires known { KnowsPlace from place (walked shape.now) }
    ensures found { IfSome result (IsOpened from firsts.now seconds.now (lines_of_shape shape.now) (walked shape.now)) }
    ensures none { IfNone result ((m : ℕ) → from ≤ m → Has firsts.now m → Meets seconds.now (row_of m (lines_of_shape shape.now)) → ⊥) }
{
    let mut at = from;
    let mut place = place;
    while let Some(first) = shape.candidate(firsts, place, at) {
        let (found, partners) = shape.partners_from(place, first);
        if let Some(second) = partners.first_in(seconds, 0) {
            return Some(Opened {
                first,
                second,
                partners,
                place: found,
            });
        }
        place = found;
        at = first + 1;
    }
    None
}

/// The same, as what it is of the pairs left: the first of them, and what is behind it.
pub fn open_first<'a>(
    shape: &Shape<'a>,
    firsts: &[u64],
    seconds: &[u64],
    place: u32,
    from: u32,
) -> Option<Opened<'a>>
    requires firsts_few { length firsts.now ≤ 2 ^ 25 }
    requires seconds_few { length seconds.now ≤ 2 ^ 25 }
    requires known { KnowsPlace from place (walked shape.now) }
    ensures none { IfNone result (left_from from firsts.now seconds.now (lines_of_shape shape.now) ≡ []) }
    ensures first { IfSome result (λ o. left_from from firsts.now seconds.now (lines_of_shape shape.now) ≡
        (o.first, o.second) ∷ open_left o.first (o.second + 1) (partner_numbers o.partners) (o.first + 1) firsts.now seconds.now (lines_of_shape shape.now)) }
    ensures ascend { IfSome result (λ o. AscendsWithin 0 (2 ^ 32 - 1) (partner_numbers o.partners)) }
    ensures known { IfSome result (λ o. KnowsPlace (o.first + 1) o.place (walked shape.now)) }
    ensures within { IfSome result (λ o. (o.first < 64 * length firsts.now) × (o.second < 64 * length seconds.now)) }
{
    shape.lines_ascend();
    open_next(shape, firsts, seconds, place, from)
}
