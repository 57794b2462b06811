//! The test of a tree, by the test of its lists.

ghost use Rattle.std.specs.Prelude.{◌≡◌, ◌↔◌, ◌+◌, ◌<◌, ◌++◌, length, map, take, All, IfOk, IsTrue, OnOk};
ghost use Rattle.alg_model.specs.Pattern.{Algebra};
ghost use Rattle.alg_model.specs.VarSet.{TripleFits, triple_set};
ghost use Rattle.minimality_laws.specs.SimpleTree.{AreForests, SharesOne};
ghost use Rattle.pattern_tree.specs.PatternTree.{IsPatternTree};
ghost use Rattle.pattern_tree.specs.Tree.{tree_of};
ghost use Rattle.pruning_laws.specs.SceneOf.{number_of};
ghost use Rattle.simple_tree_laws.specs.TreeSets.{AreConnected};
ghost use Rattle.simple_trees.specs.steps.Listed.{AreListsOf};

use join_graph::is_simple;
use pattern_tree::{PatRefs, Tree};
use std::alloc::{AllocError, Global};

/// A tree as lists: the parent of each node, where its triple patterns end, and the variables of each of them.
#[derive(Drop)]
struct TreeLists {
    parents: Vec<u8>,
    ends: Vec<u16>,
    sets: Vec<u64>,
}

/// Whether a tree is simple: each node is a forest, each but the root is connected, and each shares at most one variable
/// with its parent. `Err` only where memory runs out.
pub fn is_simple_tree(alloc: Global, tree: &Tree<'_>) -> Result<bool, AllocError>
    ensures simple { (pattern : Algebra) → tree.now ≡ tree_of pattern →
        IfOk result (λ simple. IsTrue simple ↔ (AreForests tree.now × AreConnected tree.now × SharesOne tree.now)) }
{
    let lists = as_lists(alloc, tree, tree.nodes())?;
    Ok(is_simple(&lists.parents, &lists.ends, &lists.sets))
}

/// The lists of a tree.
fn as_lists(alloc: Global, tree: &Tree<'_>, nodes: u8) -> Result<TreeLists, AllocError>
    requires pattern { ∥ IsPatternTree tree.now ∥₁ }
    requires all { nodes ≡ length tree.now }
    ensures { IfOk result (λ lists. AreListsOf tree.now lists.parents.items lists.ends.items lists.sets.items) }
{
    let mut lists = TreeLists {
        parents: Vec::new(alloc),
        ends: Vec::new(alloc),
        sets: Vec::new(alloc),
    };
    for node in 0..nodes {
        push_node(&mut lists, tree, node)?;
    }
    Ok(lists)
}

/// The number of a parent, and 0 where there is none.
fn number_of(parent: Option<u8>) -> u8
    ensures { result ≡ number_of parent }
{
    match parent {
        Some(parent) => parent,
        None => 0,
    }
}

/// Puts a node after those before it.
fn push_node(lists: &mut TreeLists, tree: &Tree<'_>, node: u8) -> Result<(), AllocError>
    requires pattern { ∥ IsPatternTree tree.now ∥₁ }
    requires exists { node < length tree.now }
    requires before { AreListsOf (take node tree.now) lists.old.parents.items lists.old.ends.items lists.old.sets.items }
    ensures { OnOk result (AreListsOf (take (node + 1) tree.now) lists.new.parents.items lists.new.ends.items lists.new.sets.items) }
{
    lists.parents.push(number_of(tree.parent(node)))?;
    push_sets(&mut lists.sets, &tree.patterns(node))?;
    lists.ends.push(lists.sets.len() as u16)?;
    Ok(())
}

/// Puts the sets of some triple patterns at the end.
fn push_sets(into: &mut Vec<u64>, patterns: &PatRefs<'_, '_>) -> Result<(), AllocError>
    requires { All TripleFits patterns.now }
    ensures { OnOk result (into.new.items ≡ into.old.items ++ map triple_set patterns.now) }
{
    for i in 0..patterns.len() {
        into.push(patterns.get(i).vars())?;
    }
    Ok(())
}
