// The laws of pruning. Each call does nothing: its contract is the law.
ghost use Rattle.std.specs.Prelude.{◌≡◌, ◌↔◌, ◌<◌, ℕ, List, length, Contains};
ghost use Rattle.alg_model.specs.declared.pattern.TriplePat.{TriplePat};
ghost use Rattle.alg_model.specs.Eval.{Interpretation};
ghost use Rattle.alg_model.specs.Limits.{PatternKeepsLimits};
ghost use Rattle.alg_model.specs.Pattern.{Algebra};
ghost use Rattle.alg_model.specs.WellDesigned.{IsWellDesigned};
ghost use Rattle.join_graph.specs.Members.{Member};
ghost use Rattle.pattern_tree.specs.Consistent.{IsConsistent, IsPartOf, IsGreatestConsistent};
ghost use Rattle.pattern_tree.specs.Solution.{Family};
ghost use Rattle.pattern_tree.specs.Standing.{StandsAt};
ghost use Rattle.pattern_tree.specs.Tree.{TreeNode, tree_of};
ghost use Rattle.pruning_laws.specs.Matches.{AreMatches};
ghost use Rattle.pruning_laws.specs.Plans.{IsStripped, pairs_by, IsPlanOf, round_of};
ghost use Rattle.pruning_laws.specs.Shown.{entry_of, AreLeftOf, TellItems};

/// A round over a family: it adds no triple, and keeps each consistent family that is part of it. Where a family has
/// each consistent part of the whole, and a round leaves it as it is, it is the greatest consistent family within the
/// whole. All this holds of every tree, whether its nodes are forests or not.
pub fn round_law<V, X>()
    ensures within { (interpretation : Interpretation V X) (n : ℕ) (pattern : Algebra) (pairs : ℕ → List (Member × Member)) (family : Family X) → PatternKeepsLimits n pattern →
        (k : ℕ) (part : TriplePat) (triple : X) → StandsAt (tree_of pattern) k part → round_of interpretation pattern pairs family part triple → Contains (family part) triple }
    ensures keeps { (interpretation : Interpretation V X) (n : ℕ) (pattern : Algebra) (pairs : ℕ → List (Member × Member)) (family other : Family X) → PatternKeepsLimits n pattern →
        IsPlanOf (tree_of pattern) pairs → IsPartOf (tree_of pattern) other family → IsConsistent interpretation (tree_of pattern) other →
        (k : ℕ) (part : TriplePat) (triple : X) → StandsAt (tree_of pattern) k part → Contains (other part) triple → round_of interpretation pattern pairs family part triple }
    ensures unchanged { (interpretation : Interpretation V X) (n : ℕ) (pattern : Algebra) (pairs : ℕ → List (Member × Member)) (whole left : Family X) →
        IsWellDesigned pattern → PatternKeepsLimits n pattern → IsPlanOf (tree_of pattern) pairs → AreMatches interpretation (tree_of pattern) whole → IsPartOf (tree_of pattern) left whole →
        ((other : Family X) → IsPartOf (tree_of pattern) other whole → IsConsistent interpretation (tree_of pattern) other → IsPartOf (tree_of pattern) other left) →
        ((k : ℕ) (part : TriplePat) (triple : X) → StandsAt (tree_of pattern) k part → Contains (left part) triple → round_of interpretation pattern pairs left part triple) →
        IsGreatestConsistent interpretation (tree_of pattern) whole left }
{}

/// Where each node is a forest, one round over matches, which takes the pairs of the removal of each node's members,
/// leaves the greatest consistent family.
pub fn two_passes_law<V, X>()
    ensures { (interpretation : Interpretation V X) (n : ℕ) (pattern : Algebra) (sets : ℕ → List ℕ) (steps : ℕ → List Member) (whole left : Family X) →
        IsWellDesigned pattern → PatternKeepsLimits n pattern → ((k : ℕ) → k < length (tree_of pattern) → IsStripped (tree_of pattern) k (sets k) (steps k)) →
        AreMatches interpretation (tree_of pattern) whole →
        ((k : ℕ) (part : TriplePat) (triple : X) → StandsAt (tree_of pattern) k part →
        Contains (left part) triple ↔ round_of interpretation pattern (λ k. pairs_by (sets k) (steps k)) whole part triple) →
        IsGreatestConsistent interpretation (tree_of pattern) whole left }
{}

/// What is left of lists is one, where no two items of a list stand for one triple: so how many are left is determined.
pub fn left_items_law<V, X, Y>()
    ensures { (interpretation : Interpretation V X) (tree : List TreeNode) (triple : ℕ → Y → X) (whole left other : ℕ → List Y) → TellItems triple whole →
        AreLeftOf interpretation tree triple whole left → AreLeftOf interpretation tree triple whole other →
        (k : ℕ) (pattern : TriplePat) → StandsAt tree k pattern → left (entry_of pattern) ≡ other (entry_of pattern) }
{}
