//! Removal by the rule, until the core is left.

ghost use Rattle.std.specs.Prelude.{◌≡◌, ℕ, ◌≤◌, ◌↔◌, List, length, IsTrue, IfSome, IfNone, MatchOption};
ghost use Rattle.join_graph.specs.Sets.{HasSize};
ghost use Rattle.join_graph.specs.Members.{Member, IsMember};
ghost use Rattle.join_graph.specs.Core.{EachHasTwoNeighbours, core_of, IsCore, IsForest, IsPart};
ghost use Rattle.join_graph.specs.Removal.{IsNext, IsRemoval, IsRemovalOrder, LeavesCore, RemovesAll, PartsNeighbours};
ghost use Rattle.join_graph.specs.Left.{IsKept, HasTwoIfKept};

use crate::left::Left;
use crate::steps::{Order, Step};
use crate::variables::variables_of;

/// Removes, again and again, a member that has at most one neighbour left: the first pattern of this kind, and
/// where there is none, the least variable of this kind. What can never be removed is the core. There are at
/// most 256 patterns.
pub fn strip(sets: &[u64]) -> Order
    requires { length sets.now ≤ 256 }

    ensures order { IsRemovalOrder sets.now result.steps }
    ensures no_other_order { (steps : List Member) → IsRemovalOrder sets.now steps → steps ≡ result.steps }
    ensures core { HasSize (core_of sets.now) result.core }

    // The laws of removal, of the core and of forests.
    ensures leaves { IsRemoval sets.now result.steps }
    ensures rest_is_core { (steps : List Member) → IsRemoval sets.now steps → LeavesCore sets.now steps }
    ensures core_is_largest { IsCore sets.now (core_of sets.now) }
    ensures forest { IsForest sets.now ↔ RemovesAll sets.now result.steps }
    ensures pairs { IsForest sets.now → PartsNeighbours sets.now result.steps }
    ensures part_of_forest { (part : List ℕ) → IsPart part sets.now → IsForest sets.now → IsForest part }
{
    let mut left = Left::all(sets);
    let mut order = Order::new(count_members(sets));
    while let Some(step) = next_step(sets, &left) {
        left.remove(step);
        order.push(step);
    }
    order
}

/// Whether the core is empty.
pub(crate) fn is_forest(sets: &[u64]) -> bool
    requires { length sets.now ≤ 256 }
    ensures { IsTrue result ↔ IsForest sets.now }
{
    strip(sets).core() == 0
}

fn count_members(sets: &[u64]) -> u16
    requires { length sets.now ≤ 256 }
    ensures members { HasSize (IsMember sets.now) result }
    ensures bound { result ≤ 320 }
{
    sets.len() as u16 + variables_of(sets).count_ones() as u16
}

/// The member to remove next.
fn next_step(sets: &[u64], left: &Left) -> Option<Step>
    requires few { length sets.now ≤ 256 }
    requires members { (m : Member) → IsKept left.now m → IsMember sets.now m }
    ensures { MatchOption result (EachHasTwoNeighbours sets.now (IsKept left.now)) (IsNext sets.now (IsKept left.now)) }
{
    if let Some(step) = next_pattern(sets, left) {
        return Some(step);
    }
    next_variable(sets, left)
}

/// The first pattern that is a leaf.
fn next_pattern(sets: &[u64], left: &Left) -> Option<Step>
    requires few { length sets.now ≤ 256 }
    requires members { (m : Member) → IsKept left.now m → IsMember sets.now m }
    ensures found { IfSome result (IsNext sets.now (IsKept left.now)) }
    ensures none { IfNone result ((p : ℕ) → HasTwoIfKept sets.now left.now (Step.Pattern p)) }
{
    for place in 0..sets.len() {
        let step = Step::Pattern(place as u16);
        if left.is_leaf(sets, step) {
            return Some(step);
        }
    }
    None
}

/// The least variable that is a leaf, where no pattern is one.
fn next_variable(sets: &[u64], left: &Left) -> Option<Step>
    requires few { length sets.now ≤ 256 }
    requires members { (m : Member) → IsKept left.now m → IsMember sets.now m }
    requires no_pattern { (p : ℕ) → HasTwoIfKept sets.now left.now (Step.Pattern p) }
    ensures { MatchOption result (EachHasTwoNeighbours sets.now (IsKept left.now)) (IsNext sets.now (IsKept left.now)) }
{
    for variable in 0..64 {
        let step = Step::Variable(variable);
        if left.is_leaf(sets, step) {
            return Some(step);
        }
    }
    None
}
