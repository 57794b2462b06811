//! The index of some data, or why there is none.
ghost use Rattle.std.specs.Prelude.{ℕ, List, None};
ghost use Rattle.term_numbers.specs.Limits.{max_triples};
ghost use Rattle.term_numbers.specs.Sights.{nothing_yet};
ghost use Rattle.bm_top.specs.Pieces.{IsReadAs};
ghost use Rattle.bm_top.specs.steps.Pieces.{WereRead};
ghost use Rattle.bm_top.specs.steps.Store.{IsDataIndex};

use crate::undecided::Undecided;
use index_image::image;
use run_rows::RowForm;
use std::alloc::Global;
use std::hash::BuildHasher;
use term_numbers::Builder;

/// The index file of some data, and how many triples it has.
#[derive(Debug, Drop)]
pub(crate) struct DataIndex {
    pub(crate) triples: u32,
    pub(crate) bytes: Vec<u8>,
}

/// The index of data that was read, whole, or why there is none: the first bad line, then too many triples, and then an
/// image that is too long.
pub(crate) fn data_index<S: BuildHasher + Drop>(
    alloc: Global,
    bad: Option<u64>,
    triples: Builder<S>,
) -> Result<DataIndex, Undecided>
    requires { WereRead bad triples }
    ensures { (bytes : List ℕ) → IsReadAs bytes bad (nothing_yet max_triples) triples → IsDataIndex bytes result }
{
    match bad {
        Some(line) => Err(Undecided::BadLine { line }),
        None => triples_index(alloc, triples),
    }
}

/// The same of data without a bad line.
fn triples_index<S: BuildHasher + Drop>(
    alloc: Global,
    triples: Builder<S>,
) -> Result<DataIndex, Undecided>
    requires { WereRead None triples }
    ensures { (bytes : List ℕ) → IsReadAs bytes None (nothing_yet max_triples) triples → IsDataIndex bytes result }
{
    let numbers = triples.finish()?;
    let bytes = image(alloc, RowForm::V1, &numbers)?;
    Ok(DataIndex {
        triples: numbers.triples(),
        bytes,
    })
}
