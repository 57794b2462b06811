//! The answers of a query, from the rows of its pattern.
ghost use Rattle.std.specs.Prelude.{◌≡◌, ◌<◌, All, IfOk, OnOk, length, map};
ghost use Rattle.alg_model.specs.Answers.{arranged, project};
ghost use Rattle.alg_model.specs.Limits.{KeepsLimits};

use crate::cell::Cell;
use crate::row_key::{RowKey, arrange};
use crate::text_rows::TextRows;
use alg_model::{Columns, Query};
use std::alloc::{AllocError, Global};

/// The answers of a query, from the rows of its pattern, which have a cell for each name of the query, in order of
/// number. The rows are cut to the columns of the query (SPARQL 1.1 Query, section 18.2.5). With DISTINCT each row is
/// kept once, and else as often as it was. They ascend, column by column: unbound before bound, and terms by the
/// bytes of their texts. The query keeps the limits. `Err` only where memory runs out. Cells are moved and no text is
/// copied.
pub fn project_sort<'a>(
    alloc: Global,
    rows: TextRows<'a>,
    query: &Query,
) -> Result<TextRows<'a>, AllocError>
    requires names { rows.width ≡ length query.now.names }
    requires limits { KeepsLimits query.now }
    ensures width { IfOk result (λ answers. answers.width ≡ length query.now.columns) }
    ensures rows { IfOk result (λ answers. answers.rows ≡ arranged query.now.columns query.now.distinct rows.entry.rows) }
{
    let projected = project_rows(alloc, &rows, &query.columns)?;
    drop(rows);
    let mut keys = keys_of(alloc, &projected)?;
    arrange(&mut keys, query.distinct);
    rows_of(alloc, projected.width(), &keys)
}

/// Rows cut to some columns.
fn project_rows<'a>(
    alloc: Global,
    rows: &TextRows<'a>,
    columns: &Columns,
) -> Result<TextRows<'a>, AllocError>
    requires exist { All (λ column. column.0 < rows.now.width) columns.now }
    requires few { length columns.now < 256 }
    ensures width { IfOk result (λ projected. projected.width ≡ length columns.now) }
    ensures rows { IfOk result (λ projected. projected.rows ≡ map (project columns.now) rows.now.rows) }
{
    let mut projected = TextRows::new(alloc, columns.len() as u8);
    let mut cells = Vec::new(alloc);
    for i in 0..rows.len() {
        project_row(&mut cells, rows.row(i), columns)?;
        projected.push_row(&cells)?;
    }
    Ok(projected)
}

/// Puts the cells of some columns of a row into a buffer, in the place of what was there.
fn project_row<'a>(
    cells: &mut Vec<Cell<'a>>,
    row: &[Cell<'a>],
    columns: &Columns,
) -> Result<(), AllocError>
    requires { All (λ column. column.0 < length row.now) columns.now }
    ensures { OnOk result (cells.new.items ≡ project columns.now row.now) }
{
    cells.clear();
    for i in 0..columns.len() {
        cells.push(row[columns.get(i).0 as usize].copy())?;
    }
    Ok(())
}

/// A key for each row.
fn keys_of<'r, 'a>(alloc: Global, rows: &'r TextRows<'a>) -> Result<Vec<RowKey<'r, 'a>>, AllocError>
    ensures { IfOk result (λ keys. keys.items ≡ rows.now.rows) }
{
    let mut keys = Vec::new(alloc);
    for i in 0..rows.len() {
        keys.push(RowKey::new(rows.row(i)))?;
    }
    Ok(keys)
}

/// The rows of keys.
fn rows_of<'a>(
    alloc: Global,
    width: u8,
    keys: &[RowKey<'_, 'a>],
) -> Result<TextRows<'a>, AllocError>
    requires { All (λ row. length row ≡ width) keys.now }
    ensures width { IfOk result (λ rows. rows.width ≡ width) }
    ensures rows { IfOk result (λ rows. rows.rows ≡ keys.now) }
{
    let mut rows = TextRows::new(alloc, width);
    for key in keys {
        rows.push_row(key.cells())?;
    }
    Ok(rows)
}
