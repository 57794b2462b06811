//! The best of some rows.
ghost use Rattle.std.specs.Prelude.{◌≡◌, ◌≤◌, All, IfOk, false, length, map, replicate};
ghost use Rattle.std.specs.List.Sorted.{IsStrictlySortedBy};
ghost use Rattle.alg_model.specs.Limits.{max_variables};
ghost use Rattle.pattern_tree.specs.BestRows.{AreBest};
ghost use Rattle.pattern_tree.specs.FlatTable.{row_of};
ghost use Rattle.null_best.specs.steps.Keys.{key_cmp};
ghost use Rattle.null_best.specs.steps.Sorted.{AreAscending, HaveSameRows};
ghost use Rattle.null_best.specs.steps.Marks.{unmarked};

use crate::groups::groups_of;
use crate::marks::mark_extended;
use crate::row_key::{RowKey, arrange};
use pattern_tree::FlatRows;
use std::alloc::{AllocError, Global};

/// Each different row once, except those that another row extends with more variables. There are as many variables as
/// before, at most 64. The order of the rows is not promised. `Err` only where memory runs out.
pub fn best_match(alloc: Global, rows: FlatRows) -> Result<FlatRows, AllocError>
    requires few { rows.vars ≤ max_variables }
    ensures vars { IfOk result (λ best. best.vars ≡ rows.vars) }
    ensures best { IfOk result (λ best. AreBest rows.rows best.rows) }
{
    let sorted = in_order(alloc, &rows)?;
    drop(rows);
    best_of(alloc, &sorted)
}

/// The rows in order, each once. All later steps read them from front to end, and not from place to place.
fn in_order(alloc: Global, rows: &FlatRows) -> Result<FlatRows, AllocError>
    requires { rows.now.vars ≤ max_variables }
    ensures vars { IfOk result (λ sorted. sorted.vars ≡ rows.now.vars) }
    ensures ascends { IfOk result (λ sorted. AreAscending sorted.rows) }
    ensures same { IfOk result (λ sorted. HaveSameRows sorted.rows rows.now.rows) }
{
    let mut keys = keys_of(alloc, rows)?;
    arrange(&mut keys);
    rows_of(alloc, rows.vars(), &keys)
}

/// The best of rows that are in order.
fn best_of(alloc: Global, rows: &FlatRows) -> Result<FlatRows, AllocError>
    requires few { rows.now.vars ≤ max_variables }
    requires ascends { AreAscending rows.now.rows }
    ensures vars { IfOk result (λ best. best.vars ≡ rows.now.vars) }
    ensures best { IfOk result (λ best. AreBest rows.now.rows best.rows) }
{
    let keys = keys_of(alloc, rows)?;
    let mut marks = vec![in alloc; false; keys.len()]?;
    best_in_order(alloc, rows.vars(), &keys, &mut marks)
}

/// A key for each row.
fn keys_of<'r>(alloc: Global, rows: &'r FlatRows) -> Result<Vec<RowKey<'r>>, AllocError>
    requires { rows.now.vars ≤ max_variables }
    ensures rows { IfOk result (λ keys. map row_of keys.items ≡ rows.now.rows) }
    ensures widths { IfOk result (λ keys. All (λ key. length key ≡ rows.now.vars) keys.items) }
{
    let mut keys = Vec::with_capacity(alloc, rows.len())?;
    for i in 0..rows.len() {
        keys.push(RowKey::new(rows.row(i)))?;
    }
    Ok(keys)
}

/// The rows of keys.
fn rows_of(alloc: Global, vars: u8, keys: &[RowKey<'_>]) -> Result<FlatRows, AllocError>
    requires { All (λ key. length key ≡ vars) keys.now }
    ensures vars { IfOk result (λ rows. rows.vars ≡ vars) }
    ensures rows { IfOk result (λ rows. rows.rows ≡ map row_of keys.now) }
{
    let mut sorted = FlatRows::new(alloc, vars);
    for key in keys {
        sorted.push(key.cells())?;
    }
    Ok(sorted)
}

/// The best of rows by their keys, which are in order.
fn best_in_order(
    alloc: Global,
    vars: u8,
    keys: &[RowKey<'_>],
    marks: &mut [bool],
) -> Result<FlatRows, AllocError>
    requires ascends { IsStrictlySortedBy key_cmp keys.now }
    requires few { vars ≤ max_variables }
    requires widths { All (λ key. length key ≡ vars) keys.now }
    requires none { marks.old ≡ replicate (length keys.now) false }
    ensures vars { IfOk result (λ best. best.vars ≡ vars) }
    ensures best { IfOk result (λ best. AreBest (map row_of keys.now) best.rows) }
{
    let groups = groups_of(alloc, keys)?;
    mark_extended(alloc, keys, &groups, marks)?;
    unmarked_rows(alloc, vars, keys, marks)
}

/// The rows that are not marked.
fn unmarked_rows(
    alloc: Global,
    vars: u8,
    keys: &[RowKey<'_>],
    marks: &[bool],
) -> Result<FlatRows, AllocError>
    requires widths { All (λ key. length key ≡ vars) keys.now }
    requires len { length marks.now ≡ length keys.now }
    ensures vars { IfOk result (λ rows. rows.vars ≡ vars) }
    ensures rows { IfOk result (λ rows. rows.rows ≡ map row_of (unmarked keys.now marks.now)) }
{
    let mut rows = FlatRows::new(alloc, vars);
    for (i, key) in keys.iter().enumerate() {
        if !marks[i] {
            rows.push(key.cells())?;
        }
    }
    Ok(rows)
}
