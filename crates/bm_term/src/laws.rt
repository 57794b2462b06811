//! Laws of canonical texts, for all terms, and of takers.
ghost use Rattle.std.specs.Prelude.{◌≡◌, List, ◌++◌};
ghost use Rattle.bm_term.specs.Canonical.{RdfTerm, IsTerm, kind_of, body_of, tail_of, canonical_text};
ghost use Rattle.bm_term.specs.Parts.{term_of};
ghost use Rattle.bm_term.specs.declared.triple.Triple.{Triple};
ghost use Rattle.bm_term.specs.Kept.{Kept, after_all, unlimited};

/// Terms that differ, in their kind or in a part, have different texts.
pub fn each_term_has_its_own_text()
    ensures { (s t : RdfTerm) → IsTerm s → IsTerm t → canonical_text s ≡ canonical_text t → s ≡ t }
{}

/// The parts of a term, with the body of a literal unescaped, are the term.
pub fn parts_are_the_term()
    ensures { (term : RdfTerm) → term_of (kind_of term) (body_of term) (tail_of term) ≡ term }
{}

/// Two lists in a row are taken as one.
pub fn lists_are_taken_in_a_row()
    ensures { (kept : Kept) (first second : List Triple) →
        after_all kept (first ++ second) ≡ after_all (after_all kept first) second }
{}

/// Without a limit a list is put at the end.
pub fn all_is_kept_without_a_limit()
    ensures { (list triples : List Triple) → after_all (unlimited list) triples ≡ unlimited (list ++ triples) }
{}
