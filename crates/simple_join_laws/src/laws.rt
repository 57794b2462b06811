// The law of the flat join of simple trees. The call does nothing: its contract is the law.
ghost use Rattle.std.specs.Prelude.{◌≡◌, ◌≢◌, ◌↔◌, ℕ, List, length, AllPairs, Contains};
ghost use Rattle.alg_model.specs.declared.pattern.TriplePat.{TriplePat};
ghost use Rattle.alg_model.specs.Eval.{Interpretation};
ghost use Rattle.alg_model.specs.Limits.{PatternKeepsLimits};
ghost use Rattle.alg_model.specs.Pattern.{Algebra};
ghost use Rattle.alg_model.specs.Row.{Row};
ghost use Rattle.alg_model.specs.Solution.{TellsValues};
ghost use Rattle.alg_model.specs.WellDesigned.{IsWellDesigned};
ghost use Rattle.minimality_laws.specs.SimpleTree.{AreForests, SharesOne};
ghost use Rattle.multiway_join.specs.FlatRows.{flat_rows_of};
ghost use Rattle.multiway_join.specs.JoinOrder.{IsJoinOrder};
ghost use Rattle.pattern_tree.specs.BestRows.{AreBest};
ghost use Rattle.pattern_tree.specs.Consistent.{IsGreatestConsistent};
ghost use Rattle.pattern_tree.specs.Solution.{Family, IsMaximalRow};
ghost use Rattle.pattern_tree.specs.Tree.{TreeNode, tree_of};
ghost use Rattle.pruning_laws.specs.Matches.{AreMatches};
ghost use Rattle.simple_join_laws.specs.EachOnce.{HasEachOnce};

/// On a simple tree the flat rows of the greatest consistent family, in join order, are exactly the rows of the maximal
/// partial solutions over the whole. Over lists of different triples that are told apart each comes once, and they are
/// their own best rows.
pub fn simple_rows_law<V, X>()
    ensures exactly { (interpretation : Interpretation V X) (n : ℕ) (counts : TriplePat → ℕ) (pattern : Algebra) (ordered : List TreeNode) (whole left : Family X) →
        TellsValues interpretation → IsWellDesigned pattern → PatternKeepsLimits n pattern → AreForests (tree_of pattern) → SharesOne (tree_of pattern) →
        AreMatches interpretation (tree_of pattern) whole → IsGreatestConsistent interpretation (tree_of pattern) whole left → IsJoinOrder counts (tree_of pattern) ordered →
        (row : Row V) → Contains (flat_rows_of interpretation n left ordered) row ↔ IsMaximalRow interpretation n (tree_of pattern) whole row }
    ensures once { (interpretation : Interpretation V X) (n : ℕ) (counts : TriplePat → ℕ) (pattern : Algebra) (ordered : List TreeNode) (whole left : Family X) →
        TellsValues interpretation → IsWellDesigned pattern → PatternKeepsLimits n pattern → AreForests (tree_of pattern) → SharesOne (tree_of pattern) →
        AreMatches interpretation (tree_of pattern) whole → IsGreatestConsistent interpretation (tree_of pattern) whole left → IsJoinOrder counts (tree_of pattern) ordered →
        HasEachOnce interpretation (tree_of pattern) left → AllPairs (λ r s. r ≢ s) (flat_rows_of interpretation n left ordered) }
    ensures best { (interpretation : Interpretation V X) (n : ℕ) (counts : TriplePat → ℕ) (pattern : Algebra) (ordered : List TreeNode) (whole left : Family X) →
        TellsValues interpretation → IsWellDesigned pattern → PatternKeepsLimits n pattern → AreForests (tree_of pattern) → SharesOne (tree_of pattern) →
        AreMatches interpretation (tree_of pattern) whole → IsGreatestConsistent interpretation (tree_of pattern) whole left → IsJoinOrder counts (tree_of pattern) ordered →
        HasEachOnce interpretation (tree_of pattern) left → AreBest (flat_rows_of interpretation n left ordered) (flat_rows_of interpretation n left ordered) }
{}
