//! Trees of patterns: the patterns of each node, and whether the tree is simple.

ghost use Rattle.std.specs.Prelude.{◌≡◌, ℕ, ◌-◌, ◌<◌, ◌≤◌, ◌↔◌, length, slice_index, IsTrue};
ghost use Rattle.std.specs.List.Sorted.{IsNonDecreasing};
ghost use Rattle.join_graph.specs.Nodes.{node_of, IsSimple, HangsFrom, SharesAtMostOne, ParentsComeFirst};

use crate::chains::is_connected;
use crate::removal::is_forest;
use crate::variables::variables_of;

/// Whether a tree of patterns is simple: node 0 is a forest, and each other node is a connected forest that
/// shares at most one variable with its parent.
///
/// The patterns of node k stand in `sets` from `ends[k - 1]`, or from 0 for node 0, up to `ends[k]`, and its parent
/// is `parents[k]`. `parents[0]` is not read. There is at least one node, and `parents` and `ends` have one
/// entry a node. Parents stand before their children, `ends` never fall, the last of them is the length of
/// `sets`, and there are at most 256 patterns.
pub fn is_simple(parents: &[u8], ends: &[u16], sets: &[u64]) -> bool
    requires some_node { 0 < length ends.now }
    requires few_sets { length sets.now ≤ 256 }
    requires equally_long { length parents.now ≡ length ends.now }
    requires parents_come_first { ParentsComeFirst parents.now }
    requires ends_rise { IsNonDecreasing ends.now }
    requires last_end { slice_index ends.now (length ends.now - 1) ≡ length sets.now }
    ensures { IsTrue result ↔ IsSimple parents.now ends.now sets.now }
{
    if !is_forest(node(ends, sets, 0)) {
        return false;
    }
    for k in 1..ends.len() {
        let parent = node(ends, sets, parents[k] as usize);
        if !hangs_from(node(ends, sets, k), parent) {
            return false;
        }
    }
    true
}

/// Whether the node is a connected forest that shares at most one variable with its parent.
fn hangs_from(node: &[u64], parent: &[u64]) -> bool
    requires { length node.now ≤ 256 }
    ensures { IsTrue result ↔ HangsFrom node.now parent.now }
{
    if !is_forest(node) {
        return false;
    }
    if !is_connected(node) {
        return false;
    }
    share_at_most_one(node, parent)
}

/// Whether at most one variable occurs in both lists.
fn share_at_most_one(node: &[u64], parent: &[u64]) -> bool
    ensures { IsTrue result ↔ SharesAtMostOne node.now parent.now }
{
    (variables_of(node) & variables_of(parent)).count_ones() <= 1
}

/// The patterns of node k.
fn node<'a>(ends: &[u16], sets: &'a [u64], k: usize) -> &'a [u64]
    requires node { k < length ends.now }
    requires ends_rise { IsNonDecreasing ends.now }
    requires last_end { slice_index ends.now (length ends.now - 1) ≡ length sets.now }
    ensures { result.now ≡ node_of ends.now sets.now k }
{
    let start = if k == 0 { 0 } else { ends[k - 1] as usize };
    &sets[start..ends[k] as usize]
}
