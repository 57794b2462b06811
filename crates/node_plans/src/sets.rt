//! The sets of variables of a node's triple patterns.

ghost use Rattle.std.specs.Prelude.{◌≡◌, ℕ, ◌<◌, ◌≤◌, ◌↔◌, All, Contains, length, slice_get, slice_index, Some};
ghost use Rattle.alg_model.specs.declared.pattern.TriplePat.{TriplePat};
ghost use Rattle.join_graph.specs.Members.{PatternHas};
ghost use Rattle.pattern_tree.specs.Tree.{TreeNode};
ghost use Rattle.node_plans.specs.NodePlan.{AreSetsOf, HasLowEdges};
ghost use Rattle.node_plans.specs.Placed.{HasEdge, IsPlaced};

use pattern_tree::{PatRefs, Tree};
use std::marker::Model;

/// At most so many triple patterns has a query.
const MAX_PATTERNS: usize = 256;

/// For each place in the text the variables of the triple pattern there, where it is one of the node, and else none. Bit v
/// of a set stands for variable v. They are seen as the list of sets, up to the last place of the node.
#[derive(Drop)]
pub struct NodeSets {
    sets: [u64; MAX_PATTERNS],
    len: u16,
}

impl Model for NodeSets {
    ghost use Rattle.std.specs.Prelude.{◌≤◌, ℕ, List, length, take};

    ghost Value = { List ℕ };

    ghost view = { λ s. take s.len s.sets };

    ghost invariant = { λ s. s.len ≤ length s.sets };
}

impl NodeSets {
    /// The sets.
    pub fn as_slice(&self) -> &[u64]
        ensures { result.now ≡ self.now }
    {
        &self.sets[..self.len as usize]
    }
}

/// The sets of variables of a node's triple patterns.
pub fn node_sets(tree: &Tree<'_>, node: u8) -> NodeSets
    requires { node < length tree.now }
    ensures sets { AreSetsOf tree.now node result }
    ensures few { length result ≤ 256 }
    ensures limits { HasLowEdges tree.now node }
{
    let patterns = placed(tree, node);
    let mut sets = [0; MAX_PATTERNS];
    put_sets(&mut sets, &patterns);
    NodeSets {
        sets,
        len: last_number(&patterns),
    }
}

/// The triple patterns of a node, within the limits of a query.
pub(crate) fn placed<'a, 'q>(tree: &'a Tree<'q>, node: u8) -> PatRefs<'a, 'q>
    requires { node < length tree.now }
    ensures patterns { (at : TreeNode) → slice_get tree.now node ≡ Some at → result ≡ at.patterns }
    ensures placed { All IsPlaced result }
    ensures few { length result ≤ 256 }
{
    // This is called for its contract: it is the tree of a pattern that keeps the limits.
    let _nodes = tree.nodes();
    tree.patterns(node)
}

/// Puts each triple pattern's variables at its place in the text.
fn put_sets(sets: &mut [u64], patterns: &PatRefs<'_, '_>)
    requires length { length sets.old ≡ 256 }
    requires none { (p : ℕ) → slice_index sets.old p ≡ 0 }
    requires placed { All IsPlaced patterns.now }
    ensures length { length sets.new ≡ length sets.old }
    ensures sets { (p v : ℕ) → PatternHas sets.new p v ↔ HasEdge patterns.now p v }
{
    for i in 0..patterns.len() {
        let pattern = patterns.get(i);
        sets[pattern.number as usize - 1] |= pattern.vars();
    }
}

/// The greatest number of some triple patterns, and 0 where there is none.
fn last_number(patterns: &PatRefs<'_, '_>) -> u16
    requires { All IsPlaced patterns.now }
    ensures last { (pattern : TriplePat) → Contains patterns.now pattern → pattern.number ≤ result }
    ensures few { result ≤ 256 }
{
    let mut last = 0;
    for i in 0..patterns.len() {
        let number = patterns.get(i).number;
        if last < number {
            last = number;
        }
    }
    last
}
