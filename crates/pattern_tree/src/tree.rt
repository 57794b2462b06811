//! The tree of a pattern.
ghost use Rattle.std.specs.Prelude.{◌≡◌, ◌+◌, ◌<◌, ◌≤◌, length, slice_get, Some, IfOk, OnOk};
ghost use Rattle.std.specs.Option.{option_map};
ghost use Rattle.alg_model.specs.Limits.{max_variables, PatternKeepsLimits};
ghost use Rattle.alg_model.specs.Pattern.{Bgp, algebra_of, optional_parts, vars_of};
ghost use Rattle.alg_model.specs.VarSet.{HoldsJust, PatternFits, list_set};
ghost use Rattle.alg_model.specs.WellDesigned.{IsWellDesigned};
ghost use Rattle.pattern_tree.specs.Growing.{grown};
ghost use Rattle.pattern_tree.specs.PatternTree.{IsPatternTree};
ghost use Rattle.pattern_tree.specs.Tree.{TreeNode, tree_of};

use crate::node::{Node, PatRefs};
use alg_model::Pattern;
use std::alloc::{AllocError, Global};
use std::marker::Model;

/// The tree of a well-designed pattern, whose triple patterns it borrows. It is seen as the list of its nodes, in
/// preorder: node k is the k-th OPTIONAL of the text.
#[derive(Debug, Drop)]
pub struct Tree<'q> {
    nodes: Vec<Node<'q>>,
}

impl<'q> Model for Tree<'q> {
    ghost use Rattle.std.specs.Prelude.{List};
    ghost use Rattle.pattern_tree.specs.Tree.{TreeNode};
    ghost use Rattle.pattern_tree.specs.PatternTree.{IsPatternTree};

    ghost Value = { List TreeNode };

    ghost view = { λ t. t.nodes.items };

    ghost invariant = { λ t. ∥ IsPatternTree t.nodes.items ∥₁ };
}

impl<'q> Tree<'q> {
    /// How many nodes there are, of which node 0 is the root.
    pub fn nodes(&self) -> u8
        ensures len { result ≡ length self.now }
        ensures pattern { ∥ IsPatternTree self.now ∥₁ }
    {
        self.nodes.len() as u8
    }

    /// The parent of a node, and none of the root.
    pub fn parent(&self, node: u8) -> Option<u8>
        requires { node < length self.now }
        ensures { option_map (λ node. node.parent) (slice_get self.now node) ≡ Some result }
    {
        self.nodes[node as usize].parent()
    }

    /// The set of the variables of a node's triple patterns, as a word.
    pub fn vars(&self, node: u8) -> u64
        requires { node < length self.now }
        ensures { (at : TreeNode) → slice_get self.now node ≡ Some at → HoldsJust result (vars_of (Bgp at.patterns)) }
    {
        vars_at(&self.nodes, node as usize)
    }

    /// The triple patterns of a node.
    pub fn patterns(&self, node: u8) -> PatRefs<'_, 'q>
        requires { node < length self.now }
        ensures { option_map (λ node. node.patterns) (slice_get self.now node) ≡ Some result }
    {
        self.nodes[node as usize].patterns()
    }
}

fn vars_at(nodes: &[Node<'_>], node: usize) -> u64
    requires { node < length nodes.now }
    ensures { option_map (λ node. list_set node.patterns) (slice_get nodes.now node) ≡ Some result }
{
    nodes[node].vars()
}

/// The tree of a well-designed pattern. `Err` only where memory runs out.
pub fn tree_of<'q>(alloc: Global, pattern: &'q Pattern) -> Result<Tree<'q>, AllocError>
    requires well_designed { IsWellDesigned (algebra_of pattern.now) }
    requires keeps_limits { PatternKeepsLimits max_variables (algebra_of pattern.now) }
    ensures { IfOk result (λ tree. tree ≡ tree_of (algebra_of pattern.now)) }
{
    let nodes = grown_nodes(alloc, pattern)?;
    Ok(Tree { nodes })
}

fn grown_nodes<'q>(alloc: Global, pattern: &'q Pattern) -> Result<Vec<Node<'q>>, AllocError>
    requires fits { PatternFits (algebra_of pattern.now) }
    requires few { optional_parts (algebra_of pattern.now) < 64 }
    ensures { IfOk result (λ nodes. nodes.items ≡ tree_of (algebra_of pattern.now)) }
{
    let mut nodes = Vec::new(alloc);
    nodes.push(Node::fresh(alloc, None))?;
    grow(alloc, &mut nodes, 0, pattern)?;
    Ok(nodes)
}

// Puts the nodes of a part into a tree, where its root is one of the nodes.
fn grow<'q>(
    alloc: Global,
    nodes: &mut Vec<Node<'q>>,
    root: u8,
    pattern: &'q Pattern,
) -> Result<(), AllocError>
    requires root_exists { root < length nodes.old.items }
    requires room { length nodes.old.items + optional_parts (algebra_of pattern.now) ≤ 64 }
    requires fits { PatternFits (algebra_of pattern.now) }
    ensures ok { OnOk result (nodes.new.items ≡ grown nodes.old.items root (algebra_of pattern.now)) }
    ensures len { OnOk result (length nodes.new.items ≡ length nodes.old.items + optional_parts (algebra_of pattern.now)) }
{
    match pattern {
        Pattern::Bgp(list) => nodes[root as usize].lend(list.as_slice()),
        Pattern::Join(left, right) => {
            grow(alloc, nodes, root, left)?;
            grow(alloc, nodes, root, right)
        }
        Pattern::LeftJoin(left, right) => {
            grow(alloc, nodes, root, left)?;
            let child = nodes.len() as u8;
            nodes.push(Node::fresh(alloc, Some(root)))?;
            grow(alloc, nodes, child, right)
        }
    }
}
