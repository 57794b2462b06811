//! A table of pieces that is being written: the starts, and then the pieces one after the other.

ghost use Rattle.std.specs.Prelude.{◌≡◌, ◌+◌, ◌-◌, ◌*◌, ◌^◌, ◌<◌, ◌≤◌, [], ◌∷◌, ◌++◌, take, drop, length, vec_len, IfOk, OnOk, OnErr};
ghost use Rattle.std.specs.Int.{w32, to_le_bytes};
ghost use Rattle.cube_slices.specs.Pairs.{PairsAscend};
ghost use Rattle.index_file.specs.Image.{pair_slice};
ghost use Rattle.index_image.specs.steps.Writing.{PutsPieces, with_end};

use byte_tables::push_number;
use cube_slices::append_slice;
use run_rows::RowForm;
use std::alloc::AllocError;
use std::marker::Model;

/// Writes a piece over the bytes that are at a place.
pub(crate) fn overwrite(bytes: &mut Vec<u8>, at: usize, piece: &[u8])
    requires { at + length piece.now ≤ vec_len bytes.old }
    ensures { bytes.new.items ≡ take at bytes.old.items ++ (piece.now ++ drop (at + length piece.now) bytes.old.items) }
{
    bytes[at..at + piece.len()].copy_from_slice(piece);
}

/// Appends the slice of pairs. Of no pair it is a slice without a row.
pub(crate) fn append_pairs(
    form: RowForm,
    pairs: &[(u32, u32)],
    columns: &mut Vec<u32>,
    out: &mut Vec<u8>,
) -> Result<(), AllocError>
    requires pairs { PairsAscend (2 ^ 32 - 1) (2 ^ 32 - 1) pairs.now }
    requires few { length pairs.now ≤ 2 ^ 23 }
    ensures written { OnOk result (out.new.items ≡ out.old.items ++ pair_slice form pairs.now) }
    ensures unchanged { OnErr result (out.new.items ≡ out.old.items) }
{
    if pairs.is_empty() {
        return push_number(out, 0);
    }
    append_slice(form, pairs, columns, out)
}

/// A table of pieces that is being written at the end of bytes: room for all starts, of which some are written, and
/// the pieces that belong to them.
#[derive(Debug, Drop)]
pub(crate) struct PieceWriter {
    bytes: Vec<u8>,
    table: usize,
    next: usize,
    left: usize,
}

impl Model for PieceWriter {
    ghost use Rattle.index_image.specs.steps.Writing.{Writing, writing_at, IsWritingAt};

    ghost Value = { Writing };

    ghost view = { λ w. writing_at w.table w.next w.left w.bytes.items };

    ghost invariant = { λ w. IsWritingAt w.table w.next w.left w.bytes.items };
}

impl PieceWriter {
    /// A table of so many pieces, none of which is written, after bytes.
    pub(crate) fn begin(bytes: Vec<u8>, count: usize) -> Result<PieceWriter, AllocError>
        requires { vec_len bytes + 4 * (count + 1) < 2 ^ 64 }
        ensures { IfOk result (λ w. w ≡ record { front = bytes.items; starts = to_le_bytes w32 0; left = count; pieces = [] }) }
    {
        let mut bytes = bytes;
        let table = bytes.len();
        bytes.resize(table + 4 * (count + 1), 0)?;
        Ok(PieceWriter {
            bytes,
            table,
            next: table + 4,
            left: count,
        })
    }

    /// All bytes, where all pieces are written.
    pub(crate) fn finish(self) -> Vec<u8>
        requires { self.left ≡ 0 }
        ensures { result.items ≡ self.front ++ (self.starts ++ self.pieces) }
    {
        self.bytes
    }

    /// Writes where the piece ends whose bytes are there.
    fn end_piece(&mut self)
        requires some { 0 < self.old.left }
        requires short { length self.old.pieces < 2 ^ 32 }
        ensures { self.new ≡ with_end self.old }
    {
        let end = self.bytes.len() - (self.next + 4 * self.left);
        let number = end as u32;
        overwrite(&mut self.bytes, self.next, &number.to_le_bytes());
        self.next += 4;
        self.left -= 1;
    }

    /// Puts a piece at the end.
    pub(crate) fn push(&mut self, piece: &[u8]) -> Result<(), AllocError>
        requires some { 0 < self.old.left }
        requires short { length self.old.pieces + length piece.now < 2 ^ 32 }
        ensures { OnOk result (PutsPieces self.old self.new (piece.now ∷ [])) }
    {
        self.bytes.extend_from_slice(piece)?;
        self.end_piece();
        Ok(())
    }

    /// Puts the slice of pairs at the end.
    pub(crate) fn push_slice(
        &mut self,
        form: RowForm,
        pairs: &[(u32, u32)],
        columns: &mut Vec<u32>,
    ) -> Result<(), AllocError>
        requires pairs { PairsAscend (2 ^ 32 - 1) (2 ^ 32 - 1) pairs.now }
        requires few { length pairs.now ≤ 2 ^ 23 }
        requires some { 0 < self.old.left }
        requires short { length self.old.pieces + length (pair_slice form pairs.now) < 2 ^ 32 }
        ensures { OnOk result (PutsPieces self.old self.new (pair_slice form pairs.now ∷ [])) }
    {
        append_pairs(form, pairs, columns, &mut self.bytes)?;
        self.end_piece();
        Ok(())
    }
}
