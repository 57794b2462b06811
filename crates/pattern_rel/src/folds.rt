//! The loops of a fold.

ghost use Rattle.std.specs.Prelude.{◌≡◌, ◌↔◌, ◌⊎◌, ℕ, ◌*◌, ◌<◌, ◌≤◌, ◌^◌, length};
ghost use Rattle.row_lanes.specs.Words.{Has, Meets};
ghost use Rattle.pattern_rel.specs.Shapes.{lines_of_shape, row_of};
ghost use Rattle.pattern_rel.specs.steps.Sets.{IsBeside};
ghost use Rattle.pattern_rel.specs.steps.Places.{walked, KnowsPlace};

use crate::sets::{next_in, remove};
use crate::shape::Shape;

/// Takes `n` out of the set if it has no partner in `seconds`, and gives the place of its row.
fn settle(shape: &Shape<'_>, place: u32, n: u32, into: &mut [u64], seconds: &[u64]) -> u32
    requires { KnowsPlace n place (walked shape.now) }
    ensures known { KnowsPlace n result (walked shape.now) }
    ensures kept { (m : ℕ) → Has into.new m ↔ (Has into.old m × (m ≡ n → Meets seconds.now (row_of n (lines_of_shape shape.now)))) }
    ensures same_length { length into.new ≡ length into.old }
{
    let (found, partners) = shape.partners_from(place, n);
    if !partners.meets(seconds) {
        remove(into, n);
    }
    found
}

/// Leaves in the set the numbers that have a partner in `seconds`. It goes by the members of the set, and finds their
/// rows in order.
#[tactic(auto, using(crate::proofs::PlaceLaws::places))]
pub fn retain(shape: &Shape<'_>, into: &mut [u64], seconds: &[u64])
    requires { length into.old ≤ 2 ^ 25 }
    ensures kept { (n : ℕ) → Has into.new n ↔ (Has into.old n × Meets seconds.now (row_of n (lines_of_shape shape.now))) }
    ensures same_length { length into.new ≡ length into.old }
{
    let mut from = 0;
    let mut place = 0;
    while let Some(n) = next_in(into, from) {
        place = settle(shape, place, n, into, seconds);
        from = n + 1;
    }
}

/// Adds the partners of the numbers in `firsts`. It leaps from members without a row to the next row, and from rows
/// that are not members to the next member.
#[tactic(auto, using(crate::proofs::PlaceLaws::places))]
pub fn gather(shape: &Shape<'_>, firsts: &[u64], into: &mut [u64])
    requires { length firsts.now ≤ 2 ^ 25 }
    ensures gathered { (c : ℕ) → Has into.new c ↔ (Has into.old c ⊎ (IsBeside firsts.now (lines_of_shape shape.now) c × (c < 64 * length into.old))) }
    ensures same_length { length into.new ≡ length into.old }
{
    let mut from = 0;
    let mut place = 0;
    while let Some(n) = shape.candidate(firsts, place, from) {
        let (found, partners) = shape.partners_from(place, n);
        partners.add_to(into);
        place = found;
        from = n + 1;
    }
}
