//! Whether chains of neighbours join the patterns of a list.

ghost use Rattle.std.specs.Prelude.{◌≡◌, ℕ, ◌≤◌, ◌↔◌, ◌⊎◌, IsTrue};
ghost use Rattle.join_graph.specs.Sets.{Meets};
ghost use Rattle.join_graph.specs.Members.{HasVariable};
ghost use Rattle.join_graph.specs.Chains.{IsConnected};
ghost use Rattle.join_graph.specs.Reach.{EachMeets, joined_to, spread_from};

use crate::variables::meet;

/// Whether any two patterns that have a variable are joined by a chain of neighbours.
pub(crate) fn is_connected(sets: &[u64]) -> bool
    ensures { IsTrue result ↔ IsConnected sets.now }
{
    for set in sets {
        if *set != 0 {
            return all_meet(sets, joined(sets, *set));
        }
    }
    true
}

/// Whether each pattern that has a variable has one of these.
fn all_meet(sets: &[u64], reached: u64) -> bool
    ensures { IsTrue result ↔ EachMeets sets.now (HasVariable reached) }
{
    for set in sets {
        if !is_reached(*set, reached) {
            return false;
        }
    }
    true
}

/// Whether the pattern has no variable, or one of these.
fn is_reached(set: u64, reached: u64) -> bool
    ensures { IsTrue result ↔ (set ≡ 0) ⊎ Meets (HasVariable set) (HasVariable reached) }
{
    set == 0 || meet(set, reached)
}

/// The variables that a chain joins to one of these.
fn joined(sets: &[u64], start: u64) -> u64
    ensures { (v : ℕ) → HasVariable result v ↔ joined_to sets.now (HasVariable start) v }
{
    let mut reached = start;
    loop {
        let wider = spread(sets, reached);
        if wider == reached {
            return reached;
        }
        reached = wider;
    }
}

/// These variables, and those of the patterns that have one of them.
fn spread(sets: &[u64], reached: u64) -> u64
    ensures spread { (v : ℕ) → HasVariable result v ↔ spread_from sets.now (HasVariable reached) v }
    ensures grown { reached ≤ result }
{
    let mut wider = reached;
    for set in sets {
        if meet(*set, reached) {
            wider |= *set;
        }
    }
    wider
}
