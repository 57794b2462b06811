//! The one key that is made: a row cut to the variables of a set. It is written anew for each search.
ghost use Rattle.std.specs.Prelude.{◌≡◌, ◌==◌, ◌%◌, if◌then◌else◌, [], OnOk};
ghost use Rattle.null_best.specs.steps.Cuts.{cut_to};

use smallvec::SmallVec;
use std::alloc::{AllocError, Global};
use std::marker::Model;

/// The cells of a row, where only variables of a set are bound. It is seen as the list of them.
#[derive(Drop)]
pub(crate) struct Cut {
    cells: SmallVec<u32, 16>,
}

impl Model for Cut {
    ghost use Rattle.std.specs.Prelude.{ℕ, List};

    ghost Value = { List ℕ };

    ghost view = { λ c. c.cells.items };
}

impl Cut {
    /// No cells.
    pub(crate) fn new(alloc: Global) -> Cut
        ensures { result ≡ [] }
    {
        Cut {
            cells: SmallVec::new(alloc),
        }
    }

    /// Cuts a row to the variables of a set, in the place of what was there.
    pub(crate) fn cut(&mut self, cells: &[u32], vars: u64) -> Result<(), AllocError>
        ensures { OnOk result (self.new ≡ cut_to vars cells.now) }
    {
        self.cells.clear();
        push_cut(&mut self.cells, cells, vars)
    }

    /// The cells.
    pub(crate) fn cells(&self) -> &[u32]
        ensures { result.now ≡ self.now }
    {
        self.cells.as_slice()
    }
}

/// A cell, if the first bit of a set is 1, and else unbound.
fn first_cell(set: u64, cell: u32) -> u32
    ensures { result ≡ (if set % 2 == 1 then cell else 0) }
{
    if set % 2 == 1 { cell } else { 0 }
}

/// Puts the cells of a row that is cut to a set into a buffer.
fn push_cut(into: &mut SmallVec<u32, 16>, cells: &[u32], vars: u64) -> Result<(), AllocError>
    requires { into.old.items ≡ [] }
    ensures { OnOk result (into.new.items ≡ cut_to vars cells.now) }
{
    let mut left = vars;
    for cell in cells {
        into.push(first_cell(left, *cell))?;
        left /= 2;
    }
    Ok(())
}
