//! The rows or columns of the pairs that a mask keeps.

ghost use Rattle.std.specs.Prelude.{◌≡◌, ◌↔◌, ◌⊎◌, ℕ, ◌*◌, ◌<◌, length, Contains};
ghost use Rattle.row_lanes.specs.Words.{Has, Meets};
ghost use Rattle.cube_slices.specs.Folds.{IsRowKept, IsColumnKept};

use crate::lines::Lines;
use crate::slice::SliceRef;
use row_lanes::{add, add_row, clear_from, has, meets_row};
use run_rows::RowRef;

/// Adds the number of a row that has a column in the mask.
fn keep_row(into: &mut [u64], keep: &[u64], number: u32, row: &RowRef<'_>)
    ensures either { (n : ℕ) → Has into.new n ↔ (Has into.old n ⊎ ((n ≡ number) × Meets keep.now row.now × (n < 64 * length into.old))) }
    ensures same_length { length into.new ≡ length into.old }
{
    if meets_row(keep, row) {
        add(into, number);
    }
}

/// Adds the columns of a row whose number is in the mask.
fn keep_columns(into: &mut [u64], keep: &[u64], number: u32, row: &RowRef<'_>)
    ensures either { (c : ℕ) → Has into.new c ↔ (Has into.old c ⊎ (Has keep.now number × Contains row.now c × (c < 64 * length into.old))) }
    ensures same_length { length into.new ≡ length into.old }
{
    if has(keep, number) {
        add_row(into, row);
    }
}

/// Makes `into` the rows of the lines that have a column in the mask.
fn rows_of_lines(lines: Lines<'_>, keep: &[u64], into: &mut [u64])
    ensures folded { (n : ℕ) → Has into.new n ↔ (IsRowKept keep.now lines.entry n × (n < 64 * length into.old)) }
    ensures same_length { length into.new ≡ length into.old }
{
    let mut lines = lines;
    clear_from(into, 0);
    while let Some((number, row, rest)) = lines.split_first() {
        keep_row(into, keep, number, &row);
        lines = rest;
    }
}

/// Makes `into` the columns of the lines whose row is in the mask.
fn columns_of_lines(lines: Lines<'_>, keep: &[u64], into: &mut [u64])
    ensures folded { (c : ℕ) → Has into.new c ↔ (IsColumnKept keep.now lines.entry c × (c < 64 * length into.old)) }
    ensures same_length { length into.new ≡ length into.old }
{
    let mut lines = lines;
    clear_from(into, 0);
    while let Some((number, row, rest)) = lines.split_first() {
        keep_columns(into, keep, number, &row);
        lines = rest;
    }
}

impl<'a> SliceRef<'a> {
    /// Makes `into` the set of the rows that have a pair whose column is in `keep`. A row for which `into` has no
    /// word is left out.
    pub fn fold_rows(&self, keep: &[u64], into: &mut [u64])
        ensures folded { (n : ℕ) → Has into.new n ↔ (IsRowKept keep.now self.now n × (n < 64 * length into.old)) }
        ensures same_length { length into.new ≡ length into.old }
    {
        rows_of_lines(self.lines(), keep, into);
    }

    /// Makes `into` the set of the columns that have a pair whose row is in `keep`. A column for which `into` has
    /// no word is left out.
    pub fn fold_columns(&self, keep: &[u64], into: &mut [u64])
        ensures folded { (c : ℕ) → Has into.new c ↔ (IsColumnKept keep.now self.now c × (c < 64 * length into.old)) }
        ensures same_length { length into.new ≡ length into.old }
    {
        columns_of_lines(self.lines(), keep, into);
    }
}
