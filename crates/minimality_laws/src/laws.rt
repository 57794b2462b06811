// The law of minimality. The call does nothing: its contract is the law.
ghost use Rattle.std.specs.Prelude.{ℕ, Contains};
ghost use Rattle.alg_model.specs.declared.pattern.TriplePat.{TriplePat};
ghost use Rattle.alg_model.specs.Eval.{Interpretation};
ghost use Rattle.alg_model.specs.Limits.{PatternKeepsLimits};
ghost use Rattle.alg_model.specs.Pattern.{Algebra};
ghost use Rattle.alg_model.specs.Solution.{TellsValues};
ghost use Rattle.alg_model.specs.WellDesigned.{IsWellDesigned};
ghost use Rattle.minimality_laws.specs.SimpleTree.{AreForests, SharesOne};
ghost use Rattle.minimality_laws.specs.TakesPart.{TakesPart};
ghost use Rattle.pattern_tree.specs.Consistent.{IsGreatestConsistent};
ghost use Rattle.pattern_tree.specs.Solution.{Family};
ghost use Rattle.pattern_tree.specs.Standing.{StandsAt};
ghost use Rattle.pattern_tree.specs.Tree.{tree_of};
ghost use Rattle.pruning_laws.specs.Matches.{AreMatches};

/// Pruning leaves nothing in vain on a simple tree: where each node is a forest and shares at most one variable with its
/// parent, each triple that the greatest consistent family within some matches has, takes part in a maximal partial
/// solution over all of them.
pub fn minimality_law<V, X>()
    ensures { (interpretation : Interpretation V X) (n : ℕ) (pattern : Algebra) (whole left : Family X) →
        TellsValues interpretation → IsWellDesigned pattern → PatternKeepsLimits n pattern → AreForests (tree_of pattern) → SharesOne (tree_of pattern) →
        AreMatches interpretation (tree_of pattern) whole → IsGreatestConsistent interpretation (tree_of pattern) whole left →
        (k : ℕ) (part : TriplePat) (triple : X) → StandsAt (tree_of pattern) k part → Contains (left part) triple →
        TakesPart interpretation n (tree_of pattern) whole part triple }
{}
