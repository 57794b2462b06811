//! Laws of what a line spells, for all lines.
ghost use Rattle.std.specs.Prelude.{◌≡◌, ◌↔◌, ℕ, List};
ghost use Rattle.bm_term.specs.declared.triple.Triple.{Triple};
ghost use Rattle.bm_term.specs.Triple.{IsRdfTriple};
ghost use Rattle.nt_read.specs.Line.{Spells, SpellsNothing, IsBadLine};
ghost use Rattle.nt_read.specs.scanning.Line.{bad, nothing, spelled, scan_line};

/// A line spells one triple at most.
pub fn a_line_spells_one_triple()
    ensures { (line : List ℕ) (triple other : Triple) → Spells line triple → Spells line other → triple ≡ other }
{}

/// A line that spells a triple does not spell nothing.
pub fn a_triple_is_something()
    ensures { (line : List ℕ) (triple : Triple) → Spells line triple → ¬ SpellsNothing line }
{}

/// What is found in a line is what it spells.
pub fn the_scan_is_what_is_spelled()
    ensures triple { (line : List ℕ) (triple : Triple) → (scan_line line ≡ spelled triple) ↔ Spells line triple }
    ensures nothing { (line : List ℕ) → (scan_line line ≡ nothing) ↔ SpellsNothing line }
    ensures bad { (line : List ℕ) → (scan_line line ≡ bad) ↔ IsBadLine line }
{}

/// What is spelled is a triple of RDF.
pub fn spelled_triples_are_triples_of_rdf()
    ensures { (line : List ℕ) (triple : Triple) → Spells line triple → IsRdfTriple triple }
{}
