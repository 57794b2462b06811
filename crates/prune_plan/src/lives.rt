//! Whether a node is alive, and what becomes of one that is not.

ghost use Rattle.std.specs.Prelude.{◌≡◌, ◌<◌, ◌↔◌, ℕ, [], length, IsTrue};
ghost use Rattle.tree_relations.specs.Fits.{FitsTree};
ghost use Rattle.tree_relations.specs.Readings.{lists_left};
ghost use Rattle.mask_steps.specs.Held.{HasLayoutOf};
ghost use Rattle.mask_steps.specs.Measure.{Narrows};
ghost use Rattle.prune_plan.specs.steps.Members.{AreInOrder};
ghost use Rattle.prune_plan.specs.steps.Nodes.{HasPlace, IsAlive, IsNodeFilled};

use crate::nodes::{parent_of, patterns_of};
use mask_steps::{clear, is_left};
use pattern_tree::Tree;
use tree_relations::Prepared;

/// Whether a pair is left of each triple pattern of a node.
fn is_filled(prepared: &Prepared<'_>, tree: &Tree<'_>, node: u8) -> bool
    requires node { node < length tree.now }
    requires fits { FitsTree tree.now prepared.now }
    ensures { IsTrue result ↔ IsNodeFilled tree.now prepared.now node }
{
    let patterns = patterns_of(tree, node);
    for i in 0..patterns.len() {
        if !is_left(prepared, patterns.get(i).number - 1) {
            return false;
        }
    }
    true
}

/// Whether a pair is left of each triple pattern of a node and of the nodes above.
pub(crate) fn is_alive(prepared: &Prepared<'_>, tree: &Tree<'_>, node: u8) -> bool
    requires node { node < length tree.now }
    requires fits { FitsTree tree.now prepared.now }
    ensures { IsTrue result ↔ IsAlive tree.now prepared.now node }
{
    if !is_filled(prepared, tree, node) {
        return false;
    }
    match parent_of(tree, node) {
        Some(parent) => is_alive(prepared, tree, parent),
        None => true,
    }
}

/// Drops all pairs of the triple patterns of a node.
pub(crate) fn empty_node(prepared: &mut Prepared<'_>, tree: &Tree<'_>, node: u8)
    requires node { node < length tree.now }
    requires fits { FitsTree tree.now prepared.old }
    ensures none { (i : ℕ) → HasPlace tree.now node i → lists_left prepared.new i ≡ [] }
    ensures others { (i : ℕ) → ¬ HasPlace tree.now node i → lists_left prepared.new i ≡ lists_left prepared.old i }
    ensures in_order { AreInOrder prepared.old prepared.new }
    ensures narrows { Narrows prepared.old prepared.new }
    ensures layout { HasLayoutOf prepared.old prepared.new }
{
    let patterns = patterns_of(tree, node);
    for i in 0..patterns.len() {
        clear(prepared, patterns.get(i).number - 1);
    }
}
