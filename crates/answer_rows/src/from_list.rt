//! Rows that borrow their terms from a list of rows.
ghost use Rattle.std.specs.Prelude.{◌≡◌, ◌<◌, [], All, IfOk, OnOk, length, slice_index_or};

use crate::cell::Cell;
use crate::text_rows::TextRows;
use alg_model::{RowList, Var};
use std::alloc::{AllocError, Global};

impl<'a> TextRows<'a> {
    /// The rows of a list, whose terms are borrowed: no term is copied. Each row of the list has `width` cells.
    /// `Err` only where memory runs out.
    pub fn from_list(
        alloc: Global,
        list: &'a RowList,
        width: u8,
    ) -> Result<TextRows<'a>, AllocError>
        requires { All (λ row. length row ≡ width) list.now }
        ensures width { IfOk result (λ rows. rows.width ≡ width) }
        ensures rows { IfOk result (λ rows. rows.rows ≡ list.now) }
    {
        list_rows(alloc, list, width)
    }
}

fn list_rows<'a>(alloc: Global, list: &'a RowList, width: u8) -> Result<TextRows<'a>, AllocError>
    requires { All (λ row. length row ≡ width) list.now }
    ensures width { IfOk result (λ rows. rows.width ≡ width) }
    ensures rows { IfOk result (λ rows. rows.rows ≡ list.now) }
{
    let mut rows = TextRows::new(alloc, width);
    let mut cells = Vec::new(alloc);
    for i in 0..list.len() {
        read_row(&mut cells, list, i, width)?;
        rows.push_row(&cells)?;
    }
    Ok(rows)
}

/// Puts the cells of a row of a list into a buffer, in the place of what was there.
fn read_row<'a>(
    cells: &mut Vec<Cell<'a>>,
    list: &'a RowList,
    row: usize,
    width: u8,
) -> Result<(), AllocError>
    requires exists { row < length list.now }
    requires width { length (slice_index_or list.now row []) ≡ width }
    ensures { OnOk result (cells.new.items ≡ slice_index_or list.now row []) }
{
    cells.clear();
    for column in 0..width {
        cells.push(Cell::of(list.cell(row, Var(column))))?;
    }
    Ok(())
}
