//! The cells of rows.
ghost use Rattle.std.specs.Prelude.{◌≡◌, ◌==◌, None, Some};
ghost use Rattle.std.proofs.Common.{rules};
ghost use Rattle.std.specs.Cmp.{partial_order_from_own_ties};
ghost use Rattle.std.specs.Cmp.Lexicographic.{pointwise, slice_cmp};
ghost use Rattle.std.specs.Cmp.Rules.{comparing};
ghost use Rattle.std.specs.Option.{option_map, option_cmp, option_eq};
ghost use Rattle.std.specs.Ordering.{nat_cmp, as_partial_cmp};
ghost use Rattle.bm_term.specs.TermRef.{text_of};
ghost use Rattle.answer_rows.specs.held.CellOrder.{cells_tie};

use bm_term::TermRef;
use std::cmp::Ordering;
use std::marker::Model;

/// A cell of a row: a borrowed term, or nothing. It is seen as the text of the term, if there is one. Nothing
/// comes before all terms, and terms are ordered by the bytes of their texts.
#[derive(Drop)]
pub struct Cell<'a> {
    term: Option<TermRef<'a>>,
}

impl<'a> Model for Cell<'a> {
    ghost use Rattle.std.specs.Prelude.{List, ℕ, Option};
    ghost use Rattle.std.specs.Option.{option_map};
    ghost use Rattle.bm_term.specs.TermRef.{text_of};

    ghost Value = { Option (List ℕ) };

    ghost view = { λ c. option_map text_of c.term };
}

impl<'a> Cell<'a> {
    /// The cell that binds nothing.
    pub fn unbound() -> Cell<'a>
        ensures { result ≡ None }
    {
        Cell { term: None }
    }

    /// The cell that binds a term.
    pub fn bound(term: TermRef<'a>) -> Cell<'a>
        ensures { result ≡ Some (text_of term.entry) }
    {
        Cell { term: Some(term) }
    }

    /// The cell of a term, if there is one.
    pub fn of(term: Option<TermRef<'a>>) -> Cell<'a>
        ensures { result ≡ option_map text_of term.entry }
    {
        Cell { term }
    }

    /// The term, if the cell is bound.
    pub fn term(&self) -> Option<TermRef<'a>>
        ensures { option_map text_of result ≡ self.now }
    {
        self.term
    }

    /// The same cell once more. The term stays borrowed, and no text is copied.
    pub fn copy(&self) -> Cell<'a>
        ensures { result ≡ self.now }
    {
        Cell { term: self.term }
    }
}

impl<'a> PartialEq for Cell<'a> {
    ghost eq = { option_eq (pointwise ◌==◌) };

    ghost laws = { Prim.search (comparing, rules) };

    fn eq(&self, other: &Cell<'a>) -> bool {
        match (self.term, other.term) {
            (Some(term), Some(other)) => term.bytes() == other.bytes(),
            (None, None) => true,
            _ => false,
        }
    }
}

impl<'a> Eq for Cell<'a> {
    ghost laws = { Prim.search (comparing, rules) };
}

impl<'a> PartialOrd for Cell<'a> {
    ghost partial_cmp = { as_partial_cmp (option_cmp (slice_cmp nat_cmp)) };

    ghost laws = { partial_order_from_own_ties (Prim.search (comparing, rules)) cells_tie };

    fn partial_cmp(&self, other: &Cell<'a>) -> Option<Ordering> {
        Some(self.cmp(other))
    }
}

impl<'a> Ord for Cell<'a> {
    ghost cmp = { option_cmp (slice_cmp nat_cmp) };

    ghost total = { Prim.search (comparing, rules) };

    ghost matches_partial_cmp = { Prim.search (comparing, rules) };

    ghost matches_eq = { cells_tie };

    fn cmp(&self, other: &Cell<'a>) -> Ordering {
        match (self.term, other.term) {
            (Some(term), Some(other)) => term.bytes().cmp(other.bytes()),
            (Some(_), None) => Ordering::Greater,
            (None, Some(_)) => Ordering::Less,
            (None, None) => Ordering::Equal,
        }
    }
}
