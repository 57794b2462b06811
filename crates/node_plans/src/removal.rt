//! The pairs of an order of removal.

ghost use Rattle.std.specs.Prelude.{◌≡◌, ℕ, ◌+◌, ◌<◌, ◌≤◌, ◌==◌, Contains, drop, length, slice_index_or};
ghost use Rattle.std.specs.Int.{bit_at};
ghost use Rattle.join_graph.specs.Left.{IsInRange};
ghost use Rattle.join_graph.specs.Members.{Member};
ghost use Rattle.pruning_laws.specs.Passes.{partner};
ghost use Rattle.pruning_laws.specs.Plans.{pairs_by};
ghost use Rattle.pruning_laws.specs.TreePasses.{are_near};

use crate::pairs::NodePairs;
use join_graph::{Order, Step};

/// Each member with the one that is near of those that are removed after it.
pub(crate) fn removal_pairs(sets: &[u64], order: &Order) -> NodePairs
    requires few { length order.now.steps ≤ 320 }
    requires in_range { (m : Member) → Contains order.now.steps m → IsInRange (length sets.now) m }
    ensures { result ≡ pairs_by sets.now order.now.steps }
{
    let mut pairs = NodePairs::new();
    for i in 0..order.len() {
        if let Some(other) = partner_of(sets, order, i) {
            pairs.push(order.step(i), other);
        }
    }
    pairs
}

/// The first that is near the i-th, of those that are removed after it.
fn partner_of(sets: &[u64], order: &Order, i: u16) -> Option<Step>
    requires few { length order.now.steps ≤ 320 }
    requires step { i < length order.now.steps }
    requires in_range { (m : Member) → Contains order.now.steps m → IsInRange (length sets.now) m }
    ensures { (d : Member) → result ≡ partner (are_near sets.now (slice_index_or order.now.steps i d)) (drop (i + 1) order.now.steps) }
{
    let step = order.step(i);
    for j in i + 1..order.len() {
        let other = order.step(j);
        if are_near(sets, step, other) {
            return Some(other);
        }
    }
    None
}

/// Whether one is a triple pattern, and the other a variable that it has.
fn are_near(sets: &[u64], member: Step, other: Step) -> bool
    requires member { IsInRange (length sets.now) member }
    requires other { IsInRange (length sets.now) other }
    ensures { result ≡ are_near sets.now member other }
{
    match (member, other) {
        (Step::Pattern(place), Step::Variable(variable)) => has(sets[place as usize], variable),
        (Step::Variable(variable), Step::Pattern(place)) => has(sets[place as usize], variable),
        _ => false,
    }
}

fn has(set: u64, variable: u8) -> bool
    requires { variable < 64 }
    ensures { result ≡ (bit_at set variable == 1) }
{
    (set >> variable) & 1 == 1
}
