//! What a pair of a relation binds in a row of cells, and what a row asks of the next pair.
ghost use Rattle.std.specs.Prelude.{◌≡◌, ℕ, ◌+◌, ◌<◌, ◌≤◌, ◌^◌, true, false, IsTrue, Some, None, length, slice_index, slice_set};
ghost use Rattle.tree_relations.specs.Prepared.{count_of, FitsTogether};
ghost use Rattle.tree_relations.specs.Readings.{value_of};
ghost use Rattle.multiway_join.specs.steps.Binding.{bind_pair, bind_side, cell_at, with_cell, put_cell, HasCell, HasNumber};
ghost use Rattle.multiway_join.specs.steps.Cursor.{AsksFor, IsNumberOf};

use tree_relations::{Entry, PlaceKind, Prepared, SidePlace};

/// What a side asks of the next pair: anything, one number, or what no pair has.
#[derive(Clone, Copy)]
pub(crate) enum Asked {
    Anything,
    This(u32),
    Nothing,
}

/// The value of a number at a place of this kind.
fn value_of(prepared: &Prepared<'_>, kind: PlaceKind, n: u32) -> u32
    requires together { FitsTogether prepared.now }
    requires below { n < count_of prepared.now kind }
    ensures value { result ≡ value_of prepared.now kind n }
    ensures low { result < 2 ^ 31 }
{
    match kind {
        PlaceKind::Subject => n,
        PlaceKind::Object => {
            if n < prepared.shared {
                n
            } else {
                n + prepared.subjects
            }
        }
        PlaceKind::Predicate => prepared.shared + prepared.subjects + prepared.objects + n,
    }
}

/// The number at a place of this kind that has this value, if one has.
fn number_of(prepared: &Prepared<'_>, kind: PlaceKind, value: u32) -> Option<u32>
    requires { FitsTogether prepared.now }
    ensures { IsNumberOf prepared.now kind value result }
{
    let alone = prepared.shared + prepared.subjects;
    match kind {
        PlaceKind::Subject => Some(value),
        PlaceKind::Object => {
            if value < prepared.shared {
                Some(value)
            } else if value < alone {
                None
            } else {
                Some(value - prepared.subjects)
            }
        }
        PlaceKind::Predicate => value.checked_sub(alone + prepared.objects),
    }
}

/// What a side asks for, after a row.
pub(crate) fn asked_at(prepared: &Prepared<'_>, side: Option<SidePlace>, row: &[u32]) -> Asked
    requires together { FitsTogether prepared.now }
    requires cell { HasCell (length row.now) side }
    ensures { AsksFor prepared.now side row.now result }
{
    let Some(place) = side else {
        return Asked::Anything;
    };
    let cell = row[place.var.0 as usize];
    if cell == 0 {
        return Asked::Anything;
    }
    match number_of(prepared, place.kind, cell - 1) {
        Some(n) => Asked::This(n),
        None => Asked::Nothing,
    }
}

/// Puts a cell into a row, if it agrees with what is bound, and says whether it does.
#[tactic(auto, using(crate::proofs::Restoring::restored_cell))]
fn put(row: &mut [u32], var: u8, cell: u32) -> bool
    requires { var < length row.old }
    ensures put { result ≡ true → put_cell var cell row.old ≡ Some row.new }
    ensures other { result ≡ false → put_cell var cell row.old ≡ None }
    ensures restored { slice_set row.new var (slice_index row.old var) ≡ row.old }
{
    let place = var as usize;
    if row[place] == 0 {
        row[place] = cell;
        return true;
    }
    row[place] == cell
}

/// Binds the variable of a side to what a number there gives it, if the row agrees.
fn bind(prepared: &Prepared<'_>, side: Option<SidePlace>, n: u32, row: &mut [u32]) -> bool
    requires together { FitsTogether prepared.now }
    requires number { HasNumber prepared.now side n }
    requires cell { HasCell (length row.old) side }
    ensures bound { result ≡ true → bind_side prepared.now side n row.old ≡ Some row.new }
    ensures other { result ≡ false → bind_side prepared.now side n row.old ≡ None }
    ensures restored { with_cell side (cell_at side row.old) row.new ≡ row.old }
    ensures width { length row.new ≡ length row.old }
{
    match side {
        Some(place) => put(row, place.var.0, value_of(prepared, place.kind, n) + 1),
        None => true,
    }
}

/// The cell at a side.
fn cell_at(side: Option<SidePlace>, row: &[u32]) -> u32
    requires { HasCell (length row.now) side }
    ensures { result ≡ cell_at side row.now }
{
    match side {
        Some(place) => row[place.var.0 as usize],
        None => 0,
    }
}

/// Puts back the cell at a side.
fn put_back(side: Option<SidePlace>, cell: u32, row: &mut [u32])
    requires { HasCell (length row.old) side }
    ensures { row.new ≡ with_cell side cell row.old }
{
    if let Some(place) = side {
        row[place.var.0 as usize] = cell;
    }
}

/// The cells at both sides.
#[derive(Clone, Copy)]
pub(crate) struct Saved {
    pub(crate) first: u32,
    pub(crate) second: u32,
}

/// The cells of a row at the sides of an entry.
pub(crate) fn saved_cells(entry: &Entry<'_>, row: &[u32]) -> Saved
    requires first { HasCell (length row.now) entry.now.first }
    requires second { HasCell (length row.now) entry.now.second }
    ensures first { result.first ≡ cell_at entry.now.first row.now }
    ensures second { result.second ≡ cell_at entry.now.second row.now }
{
    Saved {
        first: cell_at(entry.first, row),
        second: cell_at(entry.second, row),
    }
}

/// Puts back the cells of a row at the sides of an entry.
pub(crate) fn restore(entry: &Entry<'_>, cells: Saved, row: &mut [u32])
    requires first { HasCell (length row.old) entry.now.first }
    requires second { HasCell (length row.old) entry.now.second }
    ensures { row.new ≡ with_cell entry.now.first cells.first (with_cell entry.now.second cells.second row.old) }
{
    put_back(entry.second, cells.second, row);
    put_back(entry.first, cells.first, row);
}

/// Binds the variables of an entry to what a pair gives them, if the row agrees.
#[tactic(auto, using(crate::proofs::Restoring::restored_sides))]
pub(crate) fn bind_both(
    prepared: &Prepared<'_>,
    entry: &Entry<'_>,
    pair: (u32, u32),
    row: &mut [u32],
) -> bool
    requires together { FitsTogether prepared.now }
    requires first_number { HasNumber prepared.now entry.now.first pair.0 }
    requires second_number { HasNumber prepared.now entry.now.second pair.1 }
    requires first { HasCell (length row.old) entry.now.first }
    requires second { HasCell (length row.old) entry.now.second }
    ensures bound { result ≡ true → bind_pair prepared.now entry.now row.old pair ≡ Some row.new }
    ensures other { result ≡ false → bind_pair prepared.now entry.now row.old pair ≡ None }
    ensures restored { with_cell entry.now.first (cell_at entry.now.first row.old) (with_cell entry.now.second (cell_at entry.now.second row.old) row.new) ≡ row.old }
    ensures width { length row.new ≡ length row.old }
{
    bind(prepared, entry.first, pair.0, row) && bind(prepared, entry.second, pair.1, row)
}
