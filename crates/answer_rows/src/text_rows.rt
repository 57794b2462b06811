//! Rows of borrowed terms.
ghost use Rattle.std.specs.Prelude.{◌≡◌, ◌+◌, ◌*◌, ◌-◌, ◌<◌, ◌≤◌, ◌^◌, ◌==◌, ◌∷◌, ◌++◌, [], All, None, Some, IfOk, OnErr, OnOk, ℕ, List, length, map, option_map, replicate, slice_get, slice_index_or, slice_set, take, drop};
ghost use Rattle.bm_term.specs.TermRef.{text_of};
ghost use Rattle.alg_model.specs.Row.{unbound};
ghost use Rattle.answer_rows.specs.TextTable.{bound_last};
ghost use Rattle.answer_rows.specs.held.Flat.{in_rows};

use crate::cell::Cell;
use bm_term::TermRef;
use std::alloc::{AllocError, Global};
use std::marker::Model;

// Rows of no columns take no memory, so their number has a limit of its own.
const MAX_ROWS: usize = 0x7FFF_FFFF_FFFF_FFFF;

/// Rows of `width` cells, each of them a borrowed term or nothing. They are seen as a `TextTable`: the width, and
/// the list of the rows.
#[derive(Drop)]
pub struct TextRows<'a> {
    width: u8,
    count: usize,
    cells: Vec<Cell<'a>>,
}

impl<'a> Model for TextRows<'a> {
    ghost use Rattle.std.specs.Prelude.{◌≡◌, ◌*◌, ◌<◌, ◌^◌, length};
    ghost use Rattle.answer_rows.specs.TextTable.{TextTable};
    ghost use Rattle.answer_rows.specs.held.Flat.{in_rows};

    ghost Value = { TextTable };

    ghost view = { λ t. record { width = t.width; rows = in_rows t.width t.count t.cells.items } };

    ghost invariant = { λ t. (length t.cells.items ≡ t.count * t.width) × (t.count < 2 ^ 63) };
}

#[tactic(auto, using(crate::proofs::Cuts::cuts))]
impl<'a> TextRows<'a> {
    /// No rows.
    pub fn new(alloc: Global, width: u8) -> TextRows<'a>
        ensures width { result.width ≡ width }
        ensures rows { result.rows ≡ [] }
    {
        TextRows {
            width,
            count: 0,
            cells: Vec::new(alloc),
        }
    }

    /// How many columns there are.
    pub fn width(&self) -> u8
        ensures { result ≡ self.now.width }
    {
        self.width
    }

    /// How many rows there are.
    pub fn len(&self) -> usize
        ensures rows { result ≡ length self.now.rows }
        ensures few { result < 2 ^ 63 }
    {
        self.count
    }

    /// Whether there is no row.
    pub fn is_empty(&self) -> bool
        ensures { result ≡ (length self.now.rows == 0) }
    {
        self.count == 0
    }

    /// The cells of the i-th row from 0.
    pub fn row(&self, i: usize) -> &[Cell<'a>]
        requires { i < length self.now.rows }
        ensures cells { slice_get self.now.rows i ≡ Some result.now }
        ensures width { length result.now ≡ self.now.width }
    {
        row_at(&self.cells, self.width, self.count, i)
    }

    /// What a row binds a column to. `None` exactly where the cell is unbound.
    pub fn cell(&self, row: usize, column: u8) -> Option<TermRef<'a>>
        requires row_exists { row < length self.now.rows }
        requires column_exists { column < self.now.width }
        ensures { option_map text_of result ≡ slice_index_or (slice_index_or self.now.rows row []) column None }
    {
        let cells = row_at(&self.cells, self.width, self.count, row);
        cells[column as usize].term()
    }

    /// Puts a row at the end that binds nothing, or changes nothing.
    pub fn add_row(&mut self) -> Result<(), AllocError>
        ensures ok { OnOk result (self.new.rows ≡ self.old.rows ++ unbound (List ℕ) self.old.width ∷ []) }
        ensures err { OnErr result (self.new.rows ≡ self.old.rows) }
        ensures width { self.new.width ≡ self.old.width }
    {
        if self.count == MAX_ROWS {
            return Err(AllocError);
        }
        add_unbound(&mut self.cells, self.width)?;
        self.count += 1;
        Ok(())
    }

    /// Makes the cell of a column in the last row this term. It takes no memory.
    pub fn bind(&mut self, column: u8, term: TermRef<'a>)
        requires row_exists { 0 < length self.old.rows }
        requires column_exists { column < self.old.width }
        ensures rows { self.new.rows ≡ bound_last column (text_of term.entry) self.old.rows }
        ensures width { self.new.width ≡ self.old.width }
    {
        bind_last(&mut self.cells, self.width, self.count, column, term);
    }

    /// Puts a row with these cells at the end, or changes nothing.
    pub fn push_row(&mut self, row: &[Cell<'a>]) -> Result<(), AllocError>
        requires { length row.now ≡ self.old.width }
        ensures ok { OnOk result (self.new.rows ≡ self.old.rows ++ row.now ∷ []) }
        ensures err { OnErr result (self.new.rows ≡ self.old.rows) }
        ensures width { self.new.width ≡ self.old.width }
    {
        if self.count == MAX_ROWS {
            return Err(AllocError);
        }
        add_cells(&mut self.cells, row)?;
        self.count += 1;
        Ok(())
    }
}

/// The cells of the i-th row.
#[tactic(auto, using(crate::proofs::Cuts::cuts))]
fn row_at<'r, 'a>(cells: &'r [Cell<'a>], width: u8, count: usize, i: usize) -> &'r [Cell<'a>]
    requires long { length cells.now ≡ count * width }
    requires exists { i < count }
    ensures cells { result.now ≡ slice_index_or (in_rows width count cells.now) i [] }
    ensures width { length result.now ≡ width }
{
    let start = i * width as usize;
    &cells[start..start + width as usize]
}

/// Binds a column in the last row.
#[tactic(auto, using(crate::proofs::Cuts::cuts))]
fn bind_last<'a>(cells: &mut [Cell<'a>], width: u8, count: usize, column: u8, term: TermRef<'a>)
    requires long { length cells.old ≡ count * width }
    requires some { 0 < count }
    requires exists { column < width }
    ensures { in_rows width count cells.new ≡ bound_last column (text_of term.entry) (in_rows width count cells.old) }
{
    let start = (count - 1) * width as usize;
    cells[start + column as usize] = Cell::bound(term);
}

fn push_unbound<'a>(cells: &mut Vec<Cell<'a>>, width: u8) -> Result<(), AllocError>
    ensures ok { OnOk result (cells.new.items ≡ cells.old.items ++ replicate width None) }
    ensures front { take (length cells.old.items) cells.new.items ≡ cells.old.items }
{
    for _ in 0..width {
        cells.push(Cell::unbound())?;
    }
    Ok(())
}

/// Puts unbound cells at the end, or changes nothing.
fn add_unbound<'a>(cells: &mut Vec<Cell<'a>>, width: u8) -> Result<(), AllocError>
    ensures ok { OnOk result (cells.new.items ≡ cells.old.items ++ replicate width None) }
    ensures err { OnErr result (cells.new.items ≡ cells.old.items) }
{
    let before = cells.len();
    match push_unbound(cells, width) {
        Ok(()) => Ok(()),
        Err(error) => {
            cells.truncate(before);
            Err(error)
        }
    }
}

fn push_each<'a>(cells: &mut Vec<Cell<'a>>, row: &[Cell<'a>]) -> Result<(), AllocError>
    ensures ok { OnOk result (cells.new.items ≡ cells.old.items ++ row.now) }
    ensures front { take (length cells.old.items) cells.new.items ≡ cells.old.items }
{
    for cell in row {
        cells.push(cell.copy())?;
    }
    Ok(())
}

/// Puts cells at the end, or changes nothing.
fn add_cells<'a>(cells: &mut Vec<Cell<'a>>, row: &[Cell<'a>]) -> Result<(), AllocError>
    ensures ok { OnOk result (cells.new.items ≡ cells.old.items ++ row.now) }
    ensures err { OnErr result (cells.new.items ≡ cells.old.items) }
{
    let before = cells.len();
    match push_each(cells, row) {
        Ok(()) => Ok(()),
        Err(error) => {
            cells.truncate(before);
            Err(error)
        }
    }
}
