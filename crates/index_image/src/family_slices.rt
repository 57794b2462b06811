//! The slices of the families are written.

ghost use Rattle.std.specs.Prelude.{◌≡◌, ◌+◌, ◌^◌, ◌<◌, ◌≤◌, length, map, OnOk};
ghost use Rattle.byte_tables.specs.Pieces.{joined};
ghost use Rattle.term_numbers.specs.Limits.{max_triples};
ghost use Rattle.index_file.specs.Image.{slices_for, family_pairs, all_pairs, pair_slice};
ghost use Rattle.index_image.specs.steps.Measuring.{slice_part_of};
ghost use Rattle.index_image.specs.steps.Writing.{PutsPieces};

use crate::order::{order_part, part};
use crate::piece_writer::PieceWriter;
use crate::spread::spread;
use index_file::Family;
use run_rows::RowForm;
use std::alloc::{AllocError, Global};
use term_numbers::Numbers;

/// Room that is used again for each family and each slice.
#[derive(Debug, Drop)]
pub(crate) struct Room {
    /// The pairs of a family, slice by slice.
    pub(crate) pairs: Vec<(u32, u32)>,
    /// Where each slice of the family ends.
    pub(crate) ends: Vec<u32>,
    /// The columns of a row.
    pub(crate) columns: Vec<u32>,
    /// A slice that is measured.
    pub(crate) slice: Vec<u8>,
}

impl Room {
    /// Room for so many triples.
    pub(crate) fn new(alloc: Global, triples: u32) -> Result<Room, AllocError> {
        Ok(Room {
            pairs: Vec::with_capacity(alloc, triples as usize)?,
            ends: Vec::new(alloc),
            columns: Vec::new(alloc),
            slice: Vec::new(alloc),
        })
    }
}

/// Writes the slices of a family.
fn push_family(
    form: RowForm,
    family: Family,
    numbers: &Numbers,
    room: &mut Room,
    into: &mut PieceWriter,
) -> Result<(), AllocError>
    requires few { length numbers.now.triples ≤ max_triples }
    requires left { slices_for family numbers.now.terms ≤ into.old.left }
    requires short { length into.old.pieces + length (joined (map (pair_slice form) (family_pairs numbers.now family))) < 2 ^ 32 }
    ensures { OnOk result (PutsPieces into.old into.new (map (pair_slice form) (family_pairs numbers.now family))) }
{
    spread(family, numbers, &mut room.pairs, &mut room.ends)?;
    let mut start = 0;
    for n in 0..room.ends.len() {
        let end = room.ends[n] as usize;
        order_part(&mut room.pairs, start, end)?;
        into.push_slice(form, part(&room.pairs, start, end), &mut room.columns)?;
        start = end;
    }
    Ok(())
}

/// Writes the slices of all families.
pub(crate) fn push_families(
    form: RowForm,
    numbers: &Numbers,
    room: &mut Room,
    into: &mut PieceWriter,
) -> Result<(), AllocError>
    requires few { length numbers.now.triples ≤ max_triples }
    requires left { length (all_pairs numbers.now) ≤ into.old.left }
    requires short { length into.old.pieces + length (slice_part_of form numbers.now) < 2 ^ 32 }
    ensures { OnOk result (PutsPieces into.old into.new (map (pair_slice form) (all_pairs numbers.now))) }
{
    push_family(form, Family::So, numbers, room, into)?;
    push_family(form, Family::Os, numbers, room, into)?;
    push_family(form, Family::Ps, numbers, room, into)?;
    push_family(form, Family::Po, numbers, room, into)
}
