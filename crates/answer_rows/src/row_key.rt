//! Rows as what is sorted: a reference to the cells of each.
ghost use Rattle.std.specs.Prelude.{◌≡◌, ◌==◌, if◌then◌else◌};
ghost use Rattle.std.proofs.Common.{rules};
ghost use Rattle.std.specs.Cmp.{partial_order_from_own_ties};
ghost use Rattle.std.specs.Cmp.Lexicographic.{pointwise, slice_cmp};
ghost use Rattle.std.specs.Cmp.Rules.{comparing};
ghost use Rattle.std.specs.Option.{option_cmp, option_eq};
ghost use Rattle.std.specs.Ordering.{nat_cmp, as_partial_cmp};
ghost use Rattle.bm_term.specs.SetOf.{set_of};
ghost use Rattle.alg_model.specs.Answers.{row_cmp, in_order};
ghost use Rattle.answer_rows.specs.held.CellOrder.{rows_tie};

use crate::cell::Cell;
use std::cmp::Ordering;
use std::marker::Model;

/// The cells of a row, borrowed. It is seen as the list of the cells. Rows are ordered cell by cell.
#[derive(Drop)]
pub(crate) struct RowKey<'r, 'a> {
    pub(crate) cells: &'r [Cell<'a>],
}

impl<'r, 'a> Model for RowKey<'r, 'a> {
    ghost use Rattle.std.specs.Prelude.{List, ℕ, Option};

    ghost Value = { List (Option (List ℕ)) };

    ghost view = { λ k. k.cells.now };
}

impl<'r, 'a> RowKey<'r, 'a> {
    pub(crate) fn new(cells: &'r [Cell<'a>]) -> RowKey<'r, 'a>
        ensures { result ≡ cells.now }
    {
        RowKey { cells }
    }

    pub(crate) fn cells(&self) -> &'r [Cell<'a>]
        ensures { result.now ≡ self.now }
    {
        self.cells
    }
}

impl<'r, 'a> PartialEq for RowKey<'r, 'a> {
    ghost eq = { pointwise (option_eq (pointwise ◌==◌)) };

    ghost laws = { Prim.search (comparing, rules) };

    fn eq(&self, other: &RowKey<'r, 'a>) -> bool {
        self.cells == other.cells
    }
}

impl<'r, 'a> Eq for RowKey<'r, 'a> {
    ghost laws = { Prim.search (comparing, rules) };
}

impl<'r, 'a> PartialOrd for RowKey<'r, 'a> {
    ghost partial_cmp = { as_partial_cmp (slice_cmp (option_cmp (slice_cmp nat_cmp))) };

    ghost laws = { partial_order_from_own_ties (Prim.search (comparing, rules)) rows_tie };

    fn partial_cmp(&self, other: &RowKey<'r, 'a>) -> Option<Ordering> {
        Some(self.cmp(other))
    }
}

impl<'r, 'a> Ord for RowKey<'r, 'a> {
    ghost cmp = { slice_cmp (option_cmp (slice_cmp nat_cmp)) };

    ghost total = { Prim.search (comparing, rules) };

    ghost matches_partial_cmp = { Prim.search (comparing, rules) };

    ghost matches_eq = { rows_tie };

    fn cmp(&self, other: &RowKey<'r, 'a>) -> Ordering {
        self.cells.cmp(other.cells)
    }
}

/// Puts rows in ascending order, and keeps equal rows once where they are to be distinct.
pub(crate) fn arrange(keys: &mut Vec<RowKey<'_, '_>>, distinct: bool)
    ensures { keys.new.items ≡ (if distinct then set_of row_cmp keys.old.items else in_order row_cmp keys.old.items) }
{
    keys.sort_unstable();
    if distinct {
        keys.dedup();
    }
}
