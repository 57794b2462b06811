// The laws of reports. Each call does nothing: its contract is the law.
ghost use Rattle.std.specs.Prelude.{◌≡◌, ◌↔◌, ◌<◌, ℕ, Bool, List, map, length, Some, IsTrue, slice_get};
ghost use Rattle.alg_model.specs.declared.pattern.TriplePat.{TriplePat};
ghost use Rattle.alg_model.specs.Eval.{Interpretation};
ghost use Rattle.alg_model.specs.Limits.{PatternKeepsLimits};
ghost use Rattle.alg_model.specs.Pattern.{Algebra, triple_patterns};
ghost use Rattle.alg_model.specs.Row.{Row};
ghost use Rattle.alg_model.specs.Solution.{TellsValues};
ghost use Rattle.bm_term.specs.declared.triple.Triple.{Triple};
ghost use Rattle.engine_laws.specs.Shown.{ShowsMatches, TellsShown};
ghost use Rattle.engine_laws.specs.Terms.{values_of};
ghost use Rattle.index_file.specs.Version.{NumbersGraph};
ghost use Rattle.multiway_join.specs.FlatRows.{flat_rows_of};
ghost use Rattle.multiway_join.specs.JoinOrder.{IsJoinOrder};
ghost use Rattle.naming_laws.specs.Naming.{IsNaming, TellsApart, named_row, named_family};
ghost use Rattle.pattern_tree.specs.BestRows.{AreBest};
ghost use Rattle.pattern_tree.specs.Consistent.{IsGreatestConsistent};
ghost use Rattle.pattern_tree.specs.Solution.{Family};
ghost use Rattle.pattern_tree.specs.Tree.{TreeNode, tree_of};
ghost use Rattle.pruning_laws.specs.Shown.{entry_of, shown, AreLeftOf};
ghost use Rattle.report_laws.specs.Report.{IsSimpleTree, AreLengths, IsReport};
ghost use Rattle.term_numbers.specs.Numbering.{Numbering};
ghost use Rattle.tree_relations.specs.declared.prepared.Prepared.{Prepared};
ghost use Rattle.tree_relations.specs.Readings.{NumberTriple, lists_left};

/// Over the family that a family of names names, the flat rows are the named flat rows over the names, one by one, and
/// their best rows are the named best rows; and what pruning leaves is what it leaves of the names, named. No variable
/// takes two names of one value.
pub fn named_rows_law<W, Y, V, X>()
    ensures flat { (names : Interpretation W Y) (interpretation : Interpretation V X) (value : W → V) (triple : Y → X) (n : ℕ) (tree : List TreeNode) (family : Family Y) (counts : TriplePat → ℕ) (ordered : List TreeNode) →
        TellsValues names → TellsValues interpretation → IsNaming names interpretation value triple → TellsApart names value tree family → IsJoinOrder counts tree ordered →
        flat_rows_of interpretation n (named_family triple family) ordered ≡ map (named_row value) (flat_rows_of names n family ordered) }
    ensures best { (names : Interpretation W Y) (interpretation : Interpretation V X) (value : W → V) (triple : Y → X) (n : ℕ) (tree : List TreeNode) (family : Family Y) (counts : TriplePat → ℕ) (ordered : List TreeNode) (best : List (Row W)) →
        TellsValues names → TellsValues interpretation → IsNaming names interpretation value triple → TellsApart names value tree family → IsJoinOrder counts tree ordered →
        AreBest (flat_rows_of names n family ordered) best → AreBest (flat_rows_of interpretation n (named_family triple family) ordered) (map (named_row value) best) }
    ensures left { (names : Interpretation W Y) (interpretation : Interpretation V X) (value : W → V) (triple : Y → X) (tree : List TreeNode) (family left : Family Y) →
        TellsValues interpretation → IsNaming names interpretation value triple → TellsApart names value tree family →
        IsGreatestConsistent names tree family left → IsGreatestConsistent interpretation tree (named_family triple family) (named_family triple left) }
{}

/// What the engine counts is the report of the pattern over the graph: the lengths of the lists that it prepares and of
/// what pruning leaves of them, its flat rows in join order, and the best of these. Lengths by place are those of the
/// triple patterns, whose numbers are their places in the text. A pattern has one report over a graph.
pub fn report_law()
    ensures report { (graph : List Triple) (numbering : Numbering) (n : ℕ) (pattern : Algebra) (p pruned : Prepared) (triple : ℕ → ℕ × ℕ → NumberTriple) (ordered : List TreeNode) (simple : Bool) (before after : List ℕ) (rows best : List (Row ℕ)) →
        NumbersGraph graph numbering → ShowsMatches numbering.terms graph n (tree_of pattern) p triple → TellsShown numbering.terms (tree_of pattern) p triple →
        AreLeftOf (values_of numbering.terms) (tree_of pattern) triple (lists_left p) (lists_left pruned) → (IsTrue simple ↔ IsSimpleTree (tree_of pattern)) →
        AreLengths pattern (λ part. lists_left p (entry_of part)) before → AreLengths pattern (λ part. lists_left pruned (entry_of part)) after →
        IsJoinOrder (λ part. length (lists_left pruned (entry_of part))) (tree_of pattern) ordered →
        rows ≡ flat_rows_of (values_of numbering.terms) n (shown triple (lists_left pruned)) ordered → AreBest rows best →
        IsReport n pattern graph simple before after (length rows) (length best) }
    ensures lengths { (n : ℕ) (pattern : Algebra) (lists : ℕ → List (ℕ × ℕ)) (lengths : List ℕ) → PatternKeepsLimits n pattern → length lengths ≡ length (triple_patterns pattern) →
        ((i : ℕ) → i < length lengths → slice_get lengths i ≡ Some (length (lists i))) → AreLengths pattern (λ part. lists (entry_of part)) lengths }
    ensures one { (n : ℕ) (pattern : Algebra) (graph : List Triple) (simple simple' : Bool) (before before' after after' : List ℕ) (listed listed' kept kept' : ℕ) → PatternKeepsLimits n pattern →
        IsReport n pattern graph simple before after listed kept → IsReport n pattern graph simple' before' after' listed' kept' →
        (simple ≡ simple') × (before ≡ before') × (after ≡ after') × (listed ≡ listed') × (kept ≡ kept') }
{}
