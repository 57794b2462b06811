//! Laws of what is kept under a limit, for all lists of triples.
ghost use Rattle.std.specs.Prelude.{◌≡◌, ◌<◌, ◌↔◌, ℕ, List, IsTrue, false, length};
ghost use Rattle.bm_term.specs.Graph.{graph_of};
ghost use Rattle.bm_term.specs.Kept.{after_all};
ghost use Rattle.bm_term.specs.declared.triple.Triple.{Triple};
ghost use Rattle.term_numbers.specs.Sights.{first_sights, nothing_yet};

/// After a list of triples, a new builder has the mark exactly where there are more distinct triples than the limit.
/// Without the mark it has these in the order of first sight. They have the graph of the list, and are as many as it has.
pub fn distinct_triples_are_kept()
    ensures marked { (limit : ℕ) (triples : List Triple) →
        IsTrue (after_all (nothing_yet limit) triples).were_more ↔ (limit < length (first_sights triples)) }
    ensures kept { (limit : ℕ) (triples : List Triple) → (after_all (nothing_yet limit) triples).were_more ≡ false →
        (after_all (nothing_yet limit) triples).list ≡ first_sights triples }
    ensures same { (triples : List Triple) → graph_of (first_sights triples) ≡ graph_of triples }
    ensures as_many { (triples : List Triple) → length (first_sights triples) ≡ length (graph_of triples) }
{}
