//! The pairs of a node, and whether it is a forest.

ghost use Rattle.std.specs.Prelude.{ℕ, ◌<◌, ◌↔◌, Contains, IsTrue, length};
ghost use Rattle.join_graph.specs.Members.{Member};
ghost use Rattle.node_plans.specs.NodePlan.{IsByRemoval, IsForestNode, IsNodePair, IsNodePlan, IsWithinLimits};

use crate::edges::all_edges;
use crate::pairs::NodePairs;
use crate::removal::removal_pairs;
use crate::sets::{node_sets, placed};
use join_graph::strip;
use pattern_tree::Tree;

/// The pairs that passes over a node take: where it is a forest, each member that is removed with the one that is near it
/// and removed later, so that two passes are enough, and else all edges, from each triple pattern to its variables.
pub fn node_pairs(tree: &Tree<'_>, node: u8) -> NodePairs
    requires { node < length tree.now }
    ensures plan { IsNodePlan tree.now node result }
    ensures forest { IsForestNode tree.now node → IsByRemoval tree.now node result }
    ensures each { (m n : Member) → Contains result (m, n) → IsNodePair tree.now node m n }
    ensures limits { (m n : Member) → Contains result (m, n) → IsWithinLimits m × IsWithinLimits n }
{
    let sets = node_sets(tree, node);
    let order = strip(sets.as_slice());
    if order.core() == 0 {
        return removal_pairs(sets.as_slice(), &order);
    }
    all_edges(&placed(tree, node))
}

/// Whether each node of the tree is a forest.
pub fn all_forests(tree: &Tree<'_>) -> bool
    ensures { IsTrue result ↔ ((k : ℕ) → k < length tree.now → IsForestNode tree.now k) }
{
    for node in 0..tree.nodes() {
        if !is_forest(tree, node) {
            return false;
        }
    }
    true
}

fn is_forest(tree: &Tree<'_>, node: u8) -> bool
    requires { node < length tree.now }
    ensures { IsTrue result ↔ IsForestNode tree.now node }
{
    let sets = node_sets(tree, node);
    strip(sets.as_slice()).core() == 0
}
