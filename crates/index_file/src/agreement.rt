//! Whether the four families have the same triples. It takes no memory.
//!
//! Once the families have equally many triples, three look-ups tell: each row of O-S is a row of P-S, each row of S-O is
//! a row of P-O, and each pair of S-O stands in P-S. The slice that is asked is found by its number.

ghost use Rattle.std.specs.Prelude.{◌≡◌, ◌↔◌, ◌-◌, ◌^◌, [], slice_index_or, Contains, IsTrue, Some};
ghost use Rattle.cube_slices.specs.Lines.{LinesAscend, line_of, pairs_of};
ghost use Rattle.index_file.specs.Conditions.{CountsAgree, FamiliesAgree, RowsAreEncodings};
ghost use Rattle.index_file.specs.steps.Rows.{ColumnsStand, LinesMatch, LinesStand, PairsStand, RowsMatch};

use crate::family::Family;
use crate::family_slices::FamilySlices;
use crate::parts::Parts;
use cube_slices::Lines;
use run_rows::{RowForm, RowRef};

/// Row `n` of the slice with a number. `None` where there is no such slice, or no such row in it. The slices that are
/// asked are those of one object or one subject, which have few rows, so the row is sought from the first on.
fn row_in<'a>(slices: &FamilySlices<'a>, slice: u32, n: u32) -> Option<RowRef<'a>>
    ensures row { result ≡ line_of n (slice_index_or slices.now slice []) }
    ensures ascend { LinesAscend 0 (2 ^ 32 - 1) (2 ^ 32 - 1) (slice_index_or slices.now slice []) }
{
    if slice >= slices.len() {
        return None;
    }
    let (_, row) = slices.get(slice).row_from(0, n);
    row
}

/// Whether a row is row `n` of the slice with a number.
fn is_row_in(slices: &FamilySlices<'_>, slice: u32, n: u32, row: &RowRef<'_>) -> bool
    ensures { IsTrue result ↔ (line_of n (slice_index_or slices.now slice []) ≡ Some row.now) }
{
    match row_in(slices, slice, n) {
        Some(found) => found.same(row),
        None => false,
    }
}

/// Whether the slice with a number has a pair.
fn has_pair(slices: &FamilySlices<'_>, slice: u32, row: u32, column: u32) -> bool
    ensures { IsTrue result ↔ Contains (pairs_of (slice_index_or slices.now slice [])) (row, column) }
{
    match row_in(slices, slice, row) {
        Some(found) => found.test(column),
        None => false,
    }
}

/// Whether each line is row `n` of the slice that its row numbers.
fn lines_match(n: u32, others: &FamilySlices<'_>, lines: Lines<'_>) -> bool
    ensures { IsTrue result ↔ LinesMatch n others.now lines.entry }
{
    let mut lines = lines;
    while let Some((number, row, rest)) = lines.split_first() {
        if !is_row_in(others, number, n, &row) {
            return false;
        }
        lines = rest;
    }
    true
}

/// Whether the rows of all slices are rows of the others, which have slices and rows in the other order.
fn rows_match(slices: &FamilySlices<'_>, others: &FamilySlices<'_>) -> bool
    ensures { IsTrue result ↔ RowsMatch 0 others.now slices.now }
{
    for n in 0..slices.len() {
        if !lines_match(n, others, slices.get(n).lines()) {
            return false;
        }
    }
    true
}

/// Whether each column of row `r` of slice `n` is the number of a slice that has row `n` and column `r`.
fn columns_stand(n: u32, r: u32, others: &FamilySlices<'_>, row: &RowRef<'_>) -> bool
    ensures { IsTrue result ↔ ColumnsStand n r others.now row.now }
{
    for column in row.iter() {
        if !has_pair(others, column, n, r) {
            return false;
        }
    }
    true
}

/// The same of each line of slice `n`.
fn lines_stand(n: u32, others: &FamilySlices<'_>, lines: Lines<'_>) -> bool
    ensures { IsTrue result ↔ LinesStand n others.now lines.entry }
{
    let mut lines = lines;
    while let Some((number, row, rest)) = lines.split_first() {
        if !columns_stand(n, number, others, &row) {
            return false;
        }
        lines = rest;
    }
    true
}

/// The same of each slice.
fn pairs_stand(slices: &FamilySlices<'_>, others: &FamilySlices<'_>) -> bool
    ensures { IsTrue result ↔ PairsStand 0 others.now slices.now }
{
    for n in 0..slices.len() {
        if !lines_stand(n, others, slices.get(n).lines()) {
            return false;
        }
    }
    true
}

/// Whether the rows of O-S are in P-S, those of S-O are in P-O, and the pairs of S-O are in P-S.
fn rows_agree(
    so: &FamilySlices<'_>,
    os: &FamilySlices<'_>,
    ps: &FamilySlices<'_>,
    po: &FamilySlices<'_>,
) -> bool
    ensures { IsTrue result ↔ (RowsMatch 0 ps.now os.now × RowsMatch 0 po.now so.now × PairsStand 0 ps.now so.now) }
{
    rows_match(os, ps) && rows_match(so, po) && pairs_stand(so, ps)
}

/// Whether each triple of the first family stands in the others.
pub(crate) fn families_agree(form: RowForm, parts: &Parts<'_>) -> bool
    requires rows { RowsAreEncodings form parts.now }
    requires counts { CountsAgree form parts.now }
    ensures { IsTrue result ↔ FamiliesAgree form parts.now }
{
    let so = FamilySlices::of(form, parts, Family::So);
    let os = FamilySlices::of(form, parts, Family::Os);
    let ps = FamilySlices::of(form, parts, Family::Ps);
    let po = FamilySlices::of(form, parts, Family::Po);
    rows_agree(&so, &os, &ps, &po)
}
