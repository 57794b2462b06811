//! What the best rows are. The call does nothing: its contract is the law.
ghost use Rattle.std.specs.Prelude.{◌≡◌, ◌≢◌, ◌↔◌, ℕ, List, AllPairs, Contains};
ghost use Rattle.alg_model.specs.Row.{Row};
ghost use Rattle.alg_model.specs.Eval.{Interpretation};
ghost use Rattle.pattern_tree.specs.BestRows.{AreBest};
ghost use Rattle.pattern_tree.specs.Solution.{Family, IsPartialRow, IsMaximalRow};
ghost use Rattle.pattern_tree.specs.Tree.{TreeNode};

/// Of a list that has rows of partial solutions alone and all rows of maximal ones, the best rows are exactly the
/// maximal ones, each once.
pub fn best_rows_law<V, X>()
    ensures exactly { (interpretation : Interpretation V X) (n : ℕ) (tree : List TreeNode) (family : Family X) (rows best : List (Row V)) →
        ((row : Row V) → Contains rows row → IsPartialRow interpretation n tree family row) →
        ((row : Row V) → IsMaximalRow interpretation n tree family row → Contains rows row) → AreBest rows best →
        (row : Row V) → Contains best row ↔ IsMaximalRow interpretation n tree family row }
    ensures once { (rows best : List (Row V)) → AreBest rows best → AllPairs (λ r s. r ≢ s) best }
{}
