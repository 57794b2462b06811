//! The nodes of a tree: their triple patterns, and their parents.

ghost use Rattle.std.specs.Prelude.{◌≡◌, ◌↔◌, ◌<◌, All, ℕ, length, slice_get, Some};
ghost use Rattle.node_plans.specs.Placed.{IsPlaced};
ghost use Rattle.pattern_tree.specs.Tree.{TreeNode};
ghost use Rattle.prune_plan.specs.steps.Nodes.{IsParent};

use pattern_tree::{PatRefs, Tree};

/// The triple patterns of a node, within the limits of a query.
pub(crate) fn patterns_of<'a, 'q>(tree: &'a Tree<'q>, node: u8) -> PatRefs<'a, 'q>
    requires { node < length tree.now }
    ensures patterns { (at : TreeNode) → slice_get tree.now node ≡ Some at → result ≡ at.patterns }
    ensures placed { All IsPlaced result }
{
    // This is called for its contract: it is the tree of a pattern that keeps the limits.
    let _nodes = tree.nodes();
    tree.patterns(node)
}

/// The parent of a node, which stands before it.
pub(crate) fn parent_of(tree: &Tree<'_>, node: u8) -> Option<u8>
    requires { node < length tree.now }
    ensures parent { (parent : ℕ) → IsParent tree.now node parent ↔ (result ≡ Some parent) }
    ensures before { (parent : ℕ) → IsParent tree.now node parent → parent < node }
{
    // This is called for its contract: parents stand first in the tree of a pattern.
    let _nodes = tree.nodes();
    tree.parent(node)
}
