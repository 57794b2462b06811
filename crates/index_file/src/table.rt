//! A table of pieces, borrowed from its bytes.

ghost use Rattle.std.specs.Prelude.{◌≡◌, ◌↔◌, ◌+◌, ◌<◌, [], ◌∷◌, All, length, drop, slice_index_or, IsSome, IfSome};
ghost use Rattle.byte_tables.specs.Numbers.{numbers_in, IsBytes};
ghost use Rattle.byte_tables.specs.Pieces.{pieces_at, CutWhole};

use byte_tables::{cut_whole, piece_at};
use std::marker::Model;

/// The starts of pieces, and the bytes of all pieces one after the other. It is seen as the list of the pieces.
#[derive(Debug, Drop)]
pub(crate) struct PieceTable<'a> {
    starts: &'a [u8],
    bytes: &'a [u8],
}

impl<'a> Model for PieceTable<'a> {
    ghost use Rattle.std.specs.Prelude.{List, ℕ, length};
    ghost use Rattle.byte_tables.specs.Numbers.{numbers_in, IsBytes};
    ghost use Rattle.byte_tables.specs.Pieces.{pieces_at, CutWhole};

    ghost Value = { List (List ℕ) };

    ghost view = { λ t. pieces_at (numbers_in t.starts.now) t.bytes.now };

    ghost invariant = { λ t. CutWhole (length t.bytes.now) (numbers_in t.starts.now) × IsBytes t.bytes.now };
}

impl<'a> PieceTable<'a> {
    /// The table of these starts and bytes. `None` exactly where the starts do not cut all bytes.
    pub(crate) fn cut(starts: &'a [u8], bytes: &'a [u8]) -> Option<PieceTable<'a>>
        ensures some { IsSome result ↔ CutWhole (length bytes.now) (numbers_in starts.now) }
        ensures pieces { IfSome result (λ pieces. pieces ≡ pieces_at (numbers_in starts.now) bytes.now) }
    {
        if bytes.len() > u32::MAX as usize {
            return None;
        }
        if !cut_whole(bytes.len() as u32, starts) {
            return None;
        }
        Some(PieceTable { starts, bytes })
    }

    /// The same table, of starts that are known to cut all bytes. No byte is read.
    pub(crate) fn view(starts: &'a [u8], bytes: &'a [u8]) -> PieceTable<'a>
        requires { CutWhole (length bytes.now) (numbers_in starts.now) }
        ensures { result ≡ pieces_at (numbers_in starts.now) bytes.now }
    {
        PieceTable { starts, bytes }
    }

    /// How many pieces there are.
    pub(crate) fn len(&self) -> usize
        ensures count { result ≡ length self.now }
        ensures bytes { All IsBytes self.now }
    {
        self.starts.len() / 4 - 1
    }

    /// The piece in place `i`.
    pub(crate) fn get(&self, i: usize) -> &'a [u8]
        requires { i < length self.now }
        ensures piece { slice_index_or self.now i [] ≡ result.now }
        ensures at { drop i self.now ≡ result.now ∷ drop (i + 1) self.now }
    {
        piece_at(self.starts, self.bytes, i)
    }

    /// The same table again.
    pub(crate) fn again(&self) -> PieceTable<'a>
        ensures { result ≡ self.now }
    {
        PieceTable {
            starts: self.starts,
            bytes: self.bytes,
        }
    }
}
