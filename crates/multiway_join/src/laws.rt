// The laws of the flat join. Each call does nothing: its contract is the law.
ghost use Rattle.std.specs.Prelude.{◌≡◌, ℕ, List, Contains};
ghost use Rattle.alg_model.specs.declared.pattern.TriplePat.{TriplePat};
ghost use Rattle.alg_model.specs.Eval.{Interpretation};
ghost use Rattle.alg_model.specs.Limits.{PatternKeepsLimits};
ghost use Rattle.alg_model.specs.Pattern.{Algebra, HasVarsBelow};
ghost use Rattle.alg_model.specs.Row.{Row};
ghost use Rattle.alg_model.specs.Solution.{TellsValues};
ghost use Rattle.alg_model.specs.WellDesigned.{IsWellDesigned};
ghost use Rattle.multiway_join.specs.FlatRows.{flat_rows_of};
ghost use Rattle.multiway_join.specs.JoinOrder.{IsJoinOrder};
ghost use Rattle.pattern_tree.specs.Solution.{Family, IsPartialRow, IsMaximalRow};
ghost use Rattle.pattern_tree.specs.Tree.{TreeNode, tree_of};

/// A tree has one join order, for the same lengths of lists.
pub fn join_order_law()
    ensures { (counts : TriplePat → ℕ) (n : ℕ) (pattern : Algebra) (ordered other : List TreeNode) → PatternKeepsLimits n pattern →
        IsJoinOrder counts (tree_of pattern) ordered → IsJoinOrder counts (tree_of pattern) other → ordered ≡ other }
{}

/// The flat rows of a tree in join order, over any family: each is the row of a partial solution. The row of each
/// maximal one is among them, where the pattern is well designed.
pub fn flat_rows_law<V, X>()
    ensures sound { (interpretation : Interpretation V X) (n : ℕ) (family : Family X) (counts : TriplePat → ℕ) (pattern : Algebra) (ordered : List TreeNode) →
        TellsValues interpretation → HasVarsBelow n pattern → IsJoinOrder counts (tree_of pattern) ordered →
        (row : Row V) → Contains (flat_rows_of interpretation n family ordered) row → IsPartialRow interpretation n (tree_of pattern) family row }
    ensures complete { (interpretation : Interpretation V X) (n : ℕ) (family : Family X) (counts : TriplePat → ℕ) (pattern : Algebra) (ordered : List TreeNode) →
        TellsValues interpretation → HasVarsBelow n pattern → IsWellDesigned pattern → IsJoinOrder counts (tree_of pattern) ordered →
        (row : Row V) → IsMaximalRow interpretation n (tree_of pattern) family row → Contains (flat_rows_of interpretation n family ordered) row }
{}
