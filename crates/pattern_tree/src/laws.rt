// The laws of pattern trees. Each call does nothing: its contract is the law.
ghost use Rattle.std.specs.Prelude.{◌≡◌, ◌≢◌, ◌↔◌, ◌⊎◌, ◌∷◌, ℕ, Bool, List, map, length, All, AllPairs, Contains};
ghost use Rattle.alg_model.specs.declared.pattern.TriplePat.{TriplePat};
ghost use Rattle.alg_model.specs.Limits.{PatternKeepsLimits};
ghost use Rattle.alg_model.specs.Row.{Row, Extends};
ghost use Rattle.alg_model.specs.Pattern.{Algebra, Bgp, Join, LeftJoin, HasVarsBelow, optional_parts, vars_of};
ghost use Rattle.alg_model.specs.Eval.{Interpretation, eval};
ghost use Rattle.alg_model.specs.Solution.{IsSolution, TellsValues, TellsTriples};
ghost use Rattle.alg_model.specs.WellDesigned.{optionals_beside, optionals_of, IsFine, IsWellDesigned};
ghost use Rattle.pattern_tree.specs.Consistent.{IsPartOf, IsGreatestConsistent, IsLeftOf};
ghost use Rattle.pattern_tree.specs.Parts.{IsMergeOf, IsAlone};
ghost use Rattle.pattern_tree.specs.Solution.{Family, all_matches, IsPartialSolution, IsPartialRow, IsMaximalRow};
ghost use Rattle.pattern_tree.specs.Standing.{StandsAt, IsConnected, IsNumbered};
ghost use Rattle.pattern_tree.specs.Tree.{TreeNode, root_patterns, tree_of};

/// In a well-designed pattern a variable that occurs in a part and outside of it occurs in the root of the part's
/// tree.
pub fn shared_variable_law()
    ensures { (outside : List ℕ) (part : Algebra) → All IsFine (optionals_beside outside part) →
        (var : ℕ) → Contains (vars_of part) var → Contains outside var → Contains (vars_of (Bgp (root_patterns part))) var }
{}

/// The partial solutions of a pattern by those of its sides, over any family: of a Join they are the merges, of a
/// LeftJoin those of the left side, and the merges. Those of a basic graph pattern over its matches are its solutions.
pub fn partial_solution_law<V, X>()
    ensures joined { (interpretation : Interpretation V X) (n : ℕ) (family : Family X) (left right : Algebra) → TellsValues interpretation →
        (row : Row V) → IsPartialRow interpretation n (tree_of (Join left right)) family row
        ↔ IsMergeOf interpretation.same (IsPartialRow interpretation n (tree_of left) family) (IsPartialRow interpretation n (tree_of right) family) row }
    ensures optional { (interpretation : Interpretation V X) (n : ℕ) (family : Family X) (left right : Algebra) → TellsValues interpretation →
        (row : Row V) → IsPartialRow interpretation n (tree_of (LeftJoin left right)) family row
        ↔ (IsPartialRow interpretation n (tree_of left) family row
        ⊎ IsMergeOf interpretation.same (IsPartialRow interpretation n (tree_of left) family) (IsPartialRow interpretation n (tree_of right) family) row) }
    ensures basic { (interpretation : Interpretation V X) (n : ℕ) (patterns : List TriplePat) (triples : List X) → TellsValues interpretation → HasVarsBelow n (Bgp patterns) →
        (row : Row V) → IsPartialRow interpretation n (tree_of (Bgp patterns)) (all_matches interpretation n triples) row ↔ IsSolution interpretation n patterns triples row }
{}

/// The maximal partial solutions of a well-designed pattern by those of its sides: of a Join they are the merges, of a
/// LeftJoin the merges, and those of the left side that are compatible with none of the right side.
pub fn maximal_solution_law<V, X>()
    ensures joined { (interpretation : Interpretation V X) (n : ℕ) (left right : Algebra) (triples : List X) → TellsValues interpretation →
        HasVarsBelow n (Join left right) → IsWellDesigned (Join left right) →
        (row : Row V) → IsMaximalRow interpretation n (tree_of (Join left right)) (all_matches interpretation n triples) row
        ↔ IsMergeOf interpretation.same (IsMaximalRow interpretation n (tree_of left) (all_matches interpretation n triples)) (IsMaximalRow interpretation n (tree_of right) (all_matches interpretation n triples)) row }
    ensures optional { (interpretation : Interpretation V X) (n : ℕ) (left right : Algebra) (triples : List X) → TellsValues interpretation →
        HasVarsBelow n (LeftJoin left right) → IsWellDesigned (LeftJoin left right) →
        (row : Row V) → IsMaximalRow interpretation n (tree_of (LeftJoin left right)) (all_matches interpretation n triples) row
        ↔ (IsMergeOf interpretation.same (IsMaximalRow interpretation n (tree_of left) (all_matches interpretation n triples)) (IsMaximalRow interpretation n (tree_of right) (all_matches interpretation n triples)) row
        ⊎ IsAlone interpretation.same (IsMaximalRow interpretation n (tree_of left) (all_matches interpretation n triples)) (IsMaximalRow interpretation n (tree_of right) (all_matches interpretation n triples)) row) }
{}

/// The pattern-tree law: evaluation of a well-designed pattern gives exactly the rows of the maximal partial solutions
/// over the matches of its tree. Over triples that are told apart each comes once. Each partial solution is
/// extended by a maximal one.
pub fn pattern_tree_law<V, X>()
    ensures exactly { (interpretation : Interpretation V X) (n : ℕ) (pattern : Algebra) (triples : List X) → TellsValues interpretation →
        HasVarsBelow n pattern → IsWellDesigned pattern →
        (row : Row V) → Contains (eval interpretation n pattern triples) row ↔ IsMaximalRow interpretation n (tree_of pattern) (all_matches interpretation n triples) row }
    ensures once { (interpretation : Interpretation V X) (n : ℕ) (pattern : Algebra) (triples : List X) → TellsValues interpretation → TellsTriples interpretation triples →
        HasVarsBelow n pattern → IsWellDesigned pattern → AllPairs (λ t u. t ≢ u) triples →
        AllPairs (λ r s. r ≢ s) (eval interpretation n pattern triples) }
    ensures covered { (interpretation : Interpretation V X) (n : ℕ) (pattern : Algebra) (triples : List X) → TellsValues interpretation →
        HasVarsBelow n pattern → IsWellDesigned pattern →
        (row : Row V) → IsPartialRow interpretation n (tree_of pattern) (all_matches interpretation n triples) row →
        (whole : Row V) × IsMaximalRow interpretation n (tree_of pattern) (all_matches interpretation n triples) whole × Extends whole row }
{}

/// Node 0 of a tree is the root, and node k is the k-th OPTIONAL of the text: it has the triple patterns of the root of
/// its right side. There are as many as the pattern has optional parts.
pub fn node_number_law()
    ensures nodes { (pattern : Algebra) → map (λ node. node.patterns) (tree_of pattern) ≡ root_patterns pattern ∷ map (λ part. root_patterns part.right) (optionals_of pattern) }
    ensures optionals { (pattern : Algebra) → length (optionals_of pattern) ≡ optional_parts pattern }
{}

/// In the tree of a well-designed pattern the nodes at which a variable occurs are connected: a variable that occurs at
/// a node and outside of the node's subtree occurs at the node's parent.
pub fn connected_law()
    ensures { (pattern : Algebra) → IsWellDesigned pattern → IsConnected (tree_of pattern) }
{}

/// Pruning keeps the partial solutions: where a family has the greatest consistent family that is part of the whole,
/// and is itself part of the whole, it has the same partial solutions as the whole. So has the greatest consistent
/// family. It is a law of trees whose triple patterns have different numbers, as those of patterns within the limits.
pub fn pruning_law<V, X>()
    ensures numbered { (n : ℕ) (pattern : Algebra) → PatternKeepsLimits n pattern → IsNumbered (tree_of pattern) }
    ensures between { (interpretation : Interpretation V X) (n : ℕ) (tree : List TreeNode) (whole least family : Family X) → IsNumbered tree →
        IsGreatestConsistent interpretation tree whole least → IsPartOf tree least family → IsPartOf tree family whole →
        (set : ℕ → Bool) (row : Row V) → IsPartialSolution interpretation n tree family set row ↔ IsPartialSolution interpretation n tree whole set row }
{}

/// What is left of the lists of a family is one: no two families are left of it that differ at a triple pattern of the
/// tree.
pub fn left_is_one_law<V, X>()
    ensures { (interpretation : Interpretation V X) (tree : List TreeNode) (whole left other : Family X) →
        IsLeftOf interpretation tree whole left → IsLeftOf interpretation tree whole other →
        (k : ℕ) (pattern : TriplePat) → StandsAt tree k pattern → left pattern ≡ other pattern }
{}
