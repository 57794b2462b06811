// The law of the test for simple trees. The call does nothing: its contract is the law.
ghost use Rattle.std.specs.Prelude.{◌≡◌, ◌↔◌, ◌<◌, ◌≤◌, ◌-◌, ℕ, length, slice_index};
ghost use Rattle.std.specs.List.Sorted.{IsNonDecreasing};
ghost use Rattle.alg_model.specs.Limits.{PatternKeepsLimits};
ghost use Rattle.alg_model.specs.Pattern.{Algebra};
ghost use Rattle.join_graph.specs.Nodes.{IsSimple, ParentsComeFirst};
ghost use Rattle.minimality_laws.specs.SimpleTree.{AreForests, SharesOne};
ghost use Rattle.pattern_tree.specs.Tree.{tree_of};
ghost use Rattle.simple_tree_laws.specs.TreeSets.{parents_of, ends_of, sets_in, AreConnected};

/// The parents of a tree's nodes, where their triple patterns end, and the sets of variables of all its triple patterns
/// are what the test for simple trees asks for, and it says yes exactly where each node is a forest, each but the root is
/// connected, and each shares at most one variable with its parent.
pub fn simple_tree_law()
    ensures simple { (pattern : Algebra) → IsSimple (parents_of (tree_of pattern)) (ends_of (tree_of pattern)) (sets_in (tree_of pattern))
        ↔ (AreForests (tree_of pattern) × AreConnected (tree_of pattern) × SharesOne (tree_of pattern)) }
    ensures some_node { (pattern : Algebra) → 0 < length (ends_of (tree_of pattern)) }
    ensures few_sets { (n : ℕ) (pattern : Algebra) → PatternKeepsLimits n pattern → length (sets_in (tree_of pattern)) ≤ 256 }
    ensures equally_long { (pattern : Algebra) → length (parents_of (tree_of pattern)) ≡ length (ends_of (tree_of pattern)) }
    ensures parents_come_first { (pattern : Algebra) → ParentsComeFirst (parents_of (tree_of pattern)) }
    ensures ends_rise { (pattern : Algebra) → IsNonDecreasing (ends_of (tree_of pattern)) }
    ensures last_end { (pattern : Algebra) → slice_index (ends_of (tree_of pattern)) (length (ends_of (tree_of pattern)) - 1) ≡ length (sets_in (tree_of pattern)) }
{}
