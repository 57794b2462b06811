//! Rows of numbers, one after another in one vector.
ghost use Rattle.std.specs.Prelude.{◌≡◌, ◌*◌, ◌<◌, ◌^◌, ◌==◌, ◌∷◌, ◌++◌, [], None, Some, OnErr, OnOk, length, map, slice_get, slice_index_or};
ghost use Rattle.std.specs.Simd.{first_chunks};
ghost use Rattle.pattern_tree.specs.FlatTable.{cell_of, row_of};

use alg_model::Var;
use std::alloc::{AllocError, Global};
use std::marker::Model;

// Rows of no variables take no memory, so their number has a limit of its own.
const MAX_ROWS: usize = 0x7FFF_FFFF_FFFF_FFFF;

/// Rows of numbers, with a cell for each of `vars` variables: 0 is unbound, and `v + 1` is the value v, which is a
/// term's place in the term table of an index. They are seen as a `FlatTable`: the number of variables, and the list
/// of the rows.
#[derive(Debug, Drop)]
pub struct FlatRows {
    vars: u8,
    count: usize,
    cells: Vec<u32>,
}

impl Model for FlatRows {
    ghost use Rattle.std.specs.Prelude.{◌≡◌, ◌*◌, ◌<◌, ◌^◌, length, map};
    ghost use Rattle.std.specs.Simd.{first_chunks};
    ghost use Rattle.pattern_tree.specs.FlatTable.{FlatTable, row_of};

    ghost Value = { FlatTable };

    ghost view = { λ t. record { vars = t.vars; rows = map row_of (first_chunks t.vars t.count t.cells.items) } };

    ghost invariant = { λ t. (length t.cells.items ≡ t.count * t.vars) × (t.count < 2 ^ 63) };
}

#[tactic(auto, using(crate::proofs::FlatCells::flat_cells))]
impl FlatRows {
    /// No rows.
    pub fn new(alloc: Global, vars: u8) -> FlatRows
        ensures vars { result.vars ≡ vars }
        ensures rows { result.rows ≡ [] }
    {
        FlatRows {
            vars,
            count: 0,
            cells: Vec::new(alloc),
        }
    }

    /// How many variables there are.
    pub fn vars(&self) -> u8
        ensures { result ≡ self.now.vars }
    {
        self.vars
    }

    /// How many rows there are.
    pub fn len(&self) -> usize
        ensures rows { result ≡ length self.now.rows }
        ensures few { result < 2 ^ 63 }
    {
        self.count
    }

    /// Whether there is no row.
    pub fn is_empty(&self) -> bool
        ensures { result ≡ (length self.now.rows == 0) }
    {
        self.count == 0
    }

    /// The numbers of the i-th row from 0. They are lent, and not copied.
    pub fn row(&self, i: usize) -> &[u32]
        requires { i < length self.now.rows }
        ensures cells { slice_get self.now.rows i ≡ Some (row_of result.now) }
        ensures width { length result.now ≡ self.now.vars }
    {
        row_at(&self.cells, self.vars, self.count, i)
    }

    /// The value that a row binds a variable to. `None` exactly where the cell is unbound.
    pub fn cell(&self, row: usize, var: Var) -> Option<u32>
        requires row_exists { row < length self.now.rows }
        requires var_exists { var.0 < self.now.vars }
        ensures { result ≡ slice_index_or (slice_index_or self.now.rows row []) var.0 None }
    {
        let cells = row_at(&self.cells, self.vars, self.count, row);
        value_of(cells[var.0 as usize])
    }

    /// Puts a row with these numbers at the end, or changes nothing. `Err` only where there is no room for it.
    pub fn push(&mut self, cells: &[u32]) -> Result<(), AllocError>
        requires { length cells.now ≡ self.old.vars }
        ensures ok { OnOk result (self.new.rows ≡ self.old.rows ++ row_of cells.now ∷ []) }
        ensures err { OnErr result (self.new.rows ≡ self.old.rows) }
        ensures vars { self.new.vars ≡ self.old.vars }
    {
        if self.count == MAX_ROWS {
            return Err(AllocError);
        }
        self.cells.extend_from_slice(cells)?;
        self.count += 1;
        Ok(())
    }
}

/// The numbers of the i-th row.
#[tactic(auto, using(crate::proofs::FlatCells::flat_cells))]
fn row_at(cells: &[u32], vars: u8, count: usize, i: usize) -> &[u32]
    requires long { length cells.now ≡ count * vars }
    requires exists { i < count }
    ensures cells { result.now ≡ slice_index_or (first_chunks vars count cells.now) i [] }
    ensures width { length result.now ≡ vars }
{
    let start = i * vars as usize;
    &cells[start..start + vars as usize]
}

/// The value of a cell.
fn value_of(cell: u32) -> Option<u32>
    ensures { result ≡ cell_of cell }
{
    if cell == 0 { None } else { Some(cell - 1) }
}
