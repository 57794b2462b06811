ghost use Rattle.std.specs.Prelude.{◌≡◌, ◌≢◌, ◌↔◌, ℕ, true, false, List, map, AllPairs, Contains, IsPermutation};
ghost use Rattle.std.specs.List.Sorted.{IsSorted};
ghost use Rattle.bm_term.specs.SetOf.{IsSetOf};
ghost use Rattle.bm_term.specs.declared.triple.Triple.{Triple};
ghost use Rattle.alg_model.specs.declared.var.Var.{Var};
ghost use Rattle.alg_model.specs.declared.pattern.TriplePat.{TriplePat};
ghost use Rattle.alg_model.specs.Row.{Row};
ghost use Rattle.alg_model.specs.Answers.{row_cmp, project, arranged};
ghost use Rattle.alg_model.specs.Pattern.{Algebra, Bgp, HasVarsBelow};
ghost use Rattle.alg_model.specs.Eval.{Interpretation, as_terms, bgp_rows, eval};
ghost use Rattle.alg_model.specs.Solution.{IsSolution, TellsValues, TellsTriples};

/// The law of basic graph patterns (SPARQL 1.1 Query, section 18.3.1), for any kind of value and of triple:
/// where the test tells values apart, their rows are exactly their solutions. Over triples without repeats that are
/// told apart, no row stands twice. Both hold of terms by their texts. The call does nothing: its contract is the law.
pub fn basic_pattern_law<V, X>()
    ensures exactly { (interpretation : Interpretation V X) (n : ℕ) (patterns : List TriplePat) (triples : List X) →
        TellsValues interpretation → HasVarsBelow n (Bgp patterns) →
        (row : Row V) → Contains (bgp_rows interpretation n patterns triples) row ↔ IsSolution interpretation n patterns triples row }
    ensures once { (interpretation : Interpretation V X) (n : ℕ) (patterns : List TriplePat) (triples : List X) →
        TellsValues interpretation → TellsTriples interpretation triples → HasVarsBelow n (Bgp patterns) → AllPairs (λ t u. t ≢ u) triples →
        AllPairs (λ r s. r ≢ s) (bgp_rows interpretation n patterns triples) }
    ensures values_of_terms { TellsValues as_terms }
    ensures triples_of_terms { (triples : List Triple) → TellsTriples as_terms triples }
{}

/// The order of the triples does not matter to the bag of rows of a pattern. The call does nothing: its
/// contract is the law.
pub fn triple_order_law<V, X>()
    ensures { (interpretation : Interpretation V X) (n : ℕ) (pattern : Algebra) (triples others : List X) →
        IsPermutation triples others →
        IsPermutation (eval interpretation n pattern triples) (eval interpretation n pattern others) }
{}

/// The arranged rows are determined: without DISTINCT they ascend and are the projected rows in another order, and
/// with DISTINCT they are the set of the projected rows. The call does nothing: its contract is the law.
pub fn arranged_rows_law()
    ensures plain { (columns : List Var) (rows answers : List (Row (List ℕ))) →
        (answers ≡ arranged columns false rows) ↔ (IsPermutation (map (project columns) rows) answers × IsSorted row_cmp answers) }
    ensures distinct { (columns : List Var) (rows answers : List (Row (List ℕ))) →
        (answers ≡ arranged columns true rows) ↔ IsSetOf row_cmp (map (project columns) rows) answers }
{}
