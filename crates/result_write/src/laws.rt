//! Laws of the definitions, for all terms and all rows.
ghost use Rattle.std.specs.Prelude.{◌≡◌, ℕ, List, AllPairs, IsPermutation};
ghost use Rattle.bm_term.specs.Canonical.{RdfTerm, IsTerm, canonical_text};
ghost use Rattle.alg_model.specs.Row.{Row};
ghost use Rattle.result_write.specs.TermText.{term_with_text};
ghost use Rattle.result_write.specs.JsonResult.{IsNotBefore, bound_members, row_members};

/// The text of each term is read as that term.
pub fn each_text_is_read_as_its_term()
    ensures { (term : RdfTerm) → IsTerm term → term_with_text (canonical_text term) ≡ term }
{}

/// The object of a row has one member for each column that is bound, and no other. They stand in ascending byte order of
/// their names.
pub fn members_are_the_bound_columns_by_name()
    ensures all { (names : List (List ℕ)) (row : Row (List ℕ)) → IsPermutation (bound_members names row) (row_members names row) }
    ensures ascend { (names : List (List ℕ)) (row : Row (List ℕ)) → AllPairs IsNotBefore (row_members names row) }
{}
