ghost use Rattle.std.specs.Prelude.{◌≡◌, ◌<◌, ◌==◌, [], ◌∷◌, ◌++◌, ℕ, List, replicate, map, length, slice_get, slice_index_or, slice_set, IfOk, OnOk, OnErr, Some, None};
ghost use Rattle.std.specs.Option.{option_map};
ghost use Rattle.std.specs.Cmp.Lexicographic.{pointwise};
ghost use Rattle.bm_term.specs.TermRef.{text_of};
ghost use Rattle.alg_model.specs.Row.{unbound, single, cells_agree, are_compatible, merge, merge_cells, merged};

use crate::Var;
use bm_term::{Term, TermRef};
use std::alloc::{AllocError, Global};
use std::marker::Model;

/// A row (a solution mapping): one cell for each variable, in order of number. It is seen as the list of
/// its cells.
#[derive(Debug, Drop)]
pub(crate) struct Row {
    cells: Vec<Option<Term>>,
}

impl Model for Row {
    ghost use Rattle.std.specs.Prelude.{List, ℕ, Option};

    ghost Value = { List (Option (List ℕ)) };

    ghost view = { λ r. r.cells.items };
}

impl Row {
    // The row that binds nothing.
    pub(crate) fn unbound(alloc: Global, vars: u8) -> Result<Row, AllocError>
        ensures { IfOk result (λ row. row ≡ unbound (List ℕ) vars) }
    {
        let mut cells = Vec::new(alloc);
        for _ in 0..vars {
            cells.push(None)?;
        }
        Ok(Row { cells })
    }

    // The row that binds one variable, whose number is below `vars`.
    pub(crate) fn single(alloc: Global, vars: u8, var: Var, term: &Term) -> Result<Row, AllocError>
        ensures { IfOk result (λ row. row ≡ single vars var.0 term.now) }
    {
        let mut row = Row::unbound(alloc, vars)?;
        let value = Some(term.clone()?);
        // The other case never comes: `eval_plain` has patterns whose variables are below `vars`.
        if (var.0 as usize) < row.cells.len() {
            row.cells[var.0 as usize] = value;
        }
        Ok(row)
    }

    // Whether the rows agree on each variable that both bind.
    fn is_compatible(&self, other: &Row) -> bool
        ensures { result ≡ are_compatible (pointwise ◌==◌) self.now other.now }
    {
        self.cells
            .iter()
            .zip(other.cells.iter())
            .all(|(cell, other)| agree(cell, other))
    }

    // What the row binds a variable to.
    fn get(&self, var: Var) -> Option<TermRef<'_>>
        requires { var.0 < length self.now }
        ensures { option_map text_of result ≡ slice_index_or self.now var.0 None }
    {
        match &self.cells[var.0 as usize] {
            Some(term) => Some(term.as_ref()),
            None => None,
        }
    }

    // The merge, where the rows are compatible.
    pub(crate) fn merged(&self, alloc: Global, other: &Row) -> Result<Option<Row>, AllocError>
        ensures { IfOk result (λ row. row ≡ merged (pointwise ◌==◌) self.now other.now) }
    {
        if self.is_compatible(other) {
            Ok(Some(self.merge(alloc, other)?))
        } else {
            Ok(None)
        }
    }

    // What either row binds.
    fn merge(&self, alloc: Global, other: &Row) -> Result<Row, AllocError>
        ensures { IfOk result (λ row. row ≡ merge self.now other.now) }
    {
        let mut cells = Vec::new(alloc);
        for (cell, other) in self.cells.iter().zip(other.cells.iter()) {
            cells.push(first_bound(cell, other)?)?;
        }
        Ok(Row { cells })
    }
}

/// A list of rows. It is seen as the list of the rows' cells.
#[derive(Debug, Drop)]
pub struct RowList {
    rows: Vec<Row>,
}

impl Model for RowList {
    ghost use Rattle.std.specs.Prelude.{List, ℕ, Option};

    ghost Value = { List (List (Option (List ℕ))) };

    ghost view = { λ l. l.rows.items };
}

impl RowList {
    pub(crate) fn from_rows(rows: Vec<Row>) -> RowList
        ensures { result ≡ rows.items }
    {
        RowList { rows }
    }

    /// How many rows there are.
    pub fn len(&self) -> usize
        ensures { result ≡ length self.now }
    {
        self.rows.len()
    }

    /// Whether there is no row.
    pub fn is_empty(&self) -> bool
        ensures { result ≡ (length self.now == 0) }
    {
        self.rows.is_empty()
    }

    /// What a row binds a variable to. `None` exactly where the cell is unbound.
    pub fn cell(&self, row: usize, var: Var) -> Option<TermRef<'_>>
        requires row_exists { row < length self.now }
        requires var_exists { var.0 < length (slice_index_or self.now row []) }
        ensures { option_map text_of result ≡ slice_index_or (slice_index_or self.now row []) var.0 None }
    {
        let row = &self.rows[row];
        row.get(var)
    }
}

fn agree(cell: &Option<Term>, other: &Option<Term>) -> bool
    ensures { result ≡ cells_agree (pointwise ◌==◌) cell.now other.now }
{
    match (cell, other) {
        (Some(term), Some(other)) => term == other,
        _ => true,
    }
}

fn first_bound(cell: &Option<Term>, other: &Option<Term>) -> Result<Option<Term>, AllocError>
    ensures { IfOk result (λ bound. bound ≡ merge_cells cell.now other.now) }
{
    match cell {
        Some(term) => Ok(Some(term.clone()?)),
        None => Ok(other.clone()?),
    }
}
