//! Pruning, in rounds.

ghost use Rattle.std.specs.Prelude.{◌<◌, ℕ, List, Bool, IsTrue, length};
ghost use Rattle.node_plans.specs.NodePlan.{IsForestNode};
ghost use Rattle.pattern_tree.specs.PatternTree.{IsPatternTree};
ghost use Rattle.pruning_laws.specs.Shown.{AreLeftOf};
ghost use Rattle.tree_relations.specs.Fits.{FitsTree};
ghost use Rattle.tree_relations.specs.Readings.{IsReading, NumberTriple, as_numbers, lists_left};
ghost use Rattle.mask_steps.specs.Held.{HasLayoutOf};
ghost use Rattle.mask_steps.specs.Measure.{Narrows};
ghost use Rattle.prune_plan.specs.Accepted.{HasNoCrossPlace};
ghost use Rattle.prune_plan.specs.steps.Members.{AreInOrder};
ghost use Rattle.prune_plan.specs.steps.Nodes.{HasLevel, IsNodePruned, IsParent, IsReduced, IsRound};

use crate::lives::{empty_node, is_alive};
use crate::passes::take_passes;
use crate::starts::first_values;
use mask_steps::bits;
use node_plans::{all_forests, node_pairs};
use pattern_tree::Tree;
use tree_relations::Prepared;

/// Takes two passes over the pairs of a node.
fn reduce_node(prepared: &mut Prepared<'_>, tree: &Tree<'_>, node: u8, once: bool)
    requires node { node < length tree.now }
    requires fits { FitsTree tree.now prepared.old }
    requires accepted { HasNoCrossPlace tree.now }
    requires level { IsTrue once → (parent : ℕ) → IsParent tree.now node parent → HasLevel tree.now prepared.old parent }
    ensures reduced { IsReduced tree.now node prepared.old prepared.new }
    ensures in_order { AreInOrder prepared.old prepared.new }
    ensures narrows { Narrows prepared.old prepared.new }
    ensures layout { HasLayoutOf prepared.old prepared.new }
{
    let mut kinds = first_values(prepared, tree, node, once);
    let pairs = node_pairs(tree, node);
    take_passes(prepared, &mut kinds, &pairs, 0);
}

/// Prunes a node by itself and its parent, and empties it where it is not alive.
fn prune_node(prepared: &mut Prepared<'_>, tree: &Tree<'_>, node: u8, once: bool)
    requires node { node < length tree.now }
    requires fits { FitsTree tree.now prepared.old }
    requires accepted { HasNoCrossPlace tree.now }
    requires level { IsTrue once → (parent : ℕ) → IsParent tree.now node parent → HasLevel tree.now prepared.old parent }
    ensures pruned { IsNodePruned tree.now node prepared.old prepared.new }
    ensures in_order { AreInOrder prepared.old prepared.new }
    ensures narrows { Narrows prepared.old prepared.new }
    ensures layout { HasLayoutOf prepared.old prepared.new }
{
    reduce_node(prepared, tree, node, once);
    if !is_alive(prepared, tree, node) {
        empty_node(prepared, tree, node);
    }
}

/// Prunes each node once, from the root down. Where each node is a forest, `once` may be set: then one triple pattern of a
/// node is asked for the first values of a variable below it, since all have the same.
fn take_round(prepared: &mut Prepared<'_>, tree: &Tree<'_>, once: bool)
    requires fits { FitsTree tree.now prepared.old }
    requires accepted { HasNoCrossPlace tree.now }
    requires forests { IsTrue once → (k : ℕ) → k < length tree.now → IsForestNode tree.now k }
    ensures round { IsRound tree.now prepared.old prepared.new }
    ensures in_order { AreInOrder prepared.old prepared.new }
    ensures narrows { Narrows prepared.old prepared.new }
    ensures layout { HasLayoutOf prepared.old prepared.new }
{
    for node in 0..tree.nodes() {
        prune_node(prepared, tree, node, once);
    }
}

/// Takes rounds until one drops nothing.
fn take_rounds(prepared: &mut Prepared<'_>, tree: &Tree<'_>)
    requires fits { FitsTree tree.now prepared.old }
    requires accepted { HasNoCrossPlace tree.now }
    ensures layout { HasLayoutOf prepared.old prepared.new }
    ensures left { IsPatternTree tree.now → (stands_for : ℕ → List ℕ → Bool) (triple : ℕ → ℕ × ℕ → NumberTriple) → IsReading prepared.old triple →
        AreLeftOf (as_numbers stands_for) tree.now triple (lists_left prepared.old) (lists_left prepared.new) }
{
    let mut before = bits(prepared);
    loop {
        take_round(prepared, tree, false);
        let after = bits(prepared);
        if after == before {
            return;
        }
        before = after;
    }
}

/// Leaves of the pairs of each triple pattern just those whose triples are in the greatest consistent family within what
/// the pairs stand for. Nothing but the pool changes. Where each node is a forest, one round is enough.
pub fn prune(prepared: &mut Prepared<'_>, tree: &Tree<'_>)
    requires fits { FitsTree tree.now prepared.old }
    requires accepted { HasNoCrossPlace tree.now }
    ensures fits { FitsTree tree.now prepared.new }
    ensures layout { HasLayoutOf prepared.old prepared.new }
    ensures left { IsPatternTree tree.now → (stands_for : ℕ → List ℕ → Bool) (triple : ℕ → ℕ × ℕ → NumberTriple) → IsReading prepared.old triple →
        AreLeftOf (as_numbers stands_for) tree.now triple (lists_left prepared.old) (lists_left prepared.new) }
{
    if all_forests(tree) {
        take_round(prepared, tree, true);
    } else {
        take_rounds(prepared, tree);
    }
}
