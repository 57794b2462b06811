//! Two passes over pairs of members.

ghost use Rattle.std.specs.Prelude.{◌≡◌, ◌↔◌, ◌<◌, ◌≤◌, ℕ, Some, Contains, drop, length, slice_get};
ghost use Rattle.join_graph.specs.Members.{Member};
ghost use Rattle.pruning_laws.specs.Passes.{reduce, two_passes};
ghost use Rattle.pruning_laws.specs.TreePasses.{Item};
ghost use Rattle.tree_relations.specs.Prepared.{FitsTogether};
ghost use Rattle.mask_steps.specs.Held.{HasLayoutOf};
ghost use Rattle.mask_steps.specs.Measure.{Narrows};
ghost use Rattle.prune_plan.specs.steps.Members.{AreInOrder, AreSides, IsWanted, agrees_in, held_by};

use crate::wanted::is_wanted;
use alg_model::Var;
use join_graph::Step;
use mask_steps::{VarKinds, gather, spread};
use node_plans::NodePairs;
use tree_relations::Prepared;

/// Reduces a member by another.
fn reduce(prepared: &mut Prepared<'_>, kinds: &mut VarKinds, by: Step, member: Step)
    requires fits { FitsTogether prepared.old }
    requires sides { AreSides prepared.old by member }
    ensures held { (m : Member) (i : Item ℕ (ℕ × ℕ)) → held_by prepared.new kinds.new m i ↔ reduce (agrees_in prepared.old) by member (held_by prepared.old kinds.old) m i }
    ensures in_order { AreInOrder prepared.old prepared.new }
    ensures narrows { Narrows prepared.old prepared.new }
    ensures layout { HasLayoutOf prepared.old prepared.new }
{
    match (by, member) {
        (Step::Pattern(place), Step::Variable(var)) => gather(prepared, kinds, place, Var(var)),
        (Step::Variable(var), Step::Pattern(place)) => spread(prepared, kinds, place, Var(var)),
        _ => {}
    }
}

/// Reduces the first member of the i-th pair by the second, if what it holds is looked at afterwards.
fn reduce_back(prepared: &mut Prepared<'_>, kinds: &mut VarKinds, pairs: &NodePairs, i: u16)
    requires fits { FitsTogether prepared.old }
    requires within { i < length pairs.now }
    requires sides { (m n : Member) → Contains pairs.now (m, n) → AreSides prepared.old m n }
    ensures held { (m n k : Member) (item : Item ℕ (ℕ × ℕ)) → slice_get pairs.now i ≡ Some (m, n) → IsWanted pairs.now i k →
        held_by prepared.new kinds.new k item ↔ reduce (agrees_in prepared.old) n m (held_by prepared.old kinds.old) k item }
    ensures in_order { AreInOrder prepared.old prepared.new }
    ensures narrows { Narrows prepared.old prepared.new }
    ensures layout { HasLayoutOf prepared.old prepared.new }
{
    let (first, second) = pairs.get(i);
    if is_wanted(pairs, i, first) {
        reduce(prepared, kinds, second, first);
    }
}

/// Takes two passes over the pairs from the i-th on: the first pass reduces the second member of each by the first, and
/// the second pass, in reverse, the first by the second. A variable that stands in no earlier pair isn't reduced in the
/// second pass, since nothing looks at what it holds.
pub(crate) fn take_passes(
    prepared: &mut Prepared<'_>,
    kinds: &mut VarKinds,
    pairs: &NodePairs,
    i: u16,
)
    requires fits { FitsTogether prepared.old }
    requires within { i ≤ length pairs.now }
    requires sides { (m n : Member) → Contains pairs.now (m, n) → AreSides prepared.old m n }
    ensures held { (m : Member) (item : Item ℕ (ℕ × ℕ)) → IsWanted pairs.now i m → held_by prepared.new kinds.new m item ↔
        two_passes (agrees_in prepared.old) (drop i pairs.now) (held_by prepared.old kinds.old) m item }
    ensures in_order { AreInOrder prepared.old prepared.new }
    ensures narrows { Narrows prepared.old prepared.new }
    ensures layout { HasLayoutOf prepared.old prepared.new }
{
    if i < pairs.len() {
        let (first, second) = pairs.get(i);
        reduce(prepared, kinds, first, second);
        take_passes(prepared, kinds, pairs, i + 1);
        reduce_back(prepared, kinds, pairs, i);
    }
}
