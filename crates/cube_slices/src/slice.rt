//! A slice, borrowed from its bytes.

ghost use Rattle.std.specs.Prelude.{◌≡◌, ◌↔◌, ◌+◌, ◌-◌, ◌^◌, ◌<◌, ◌≤◌, ◌∷◌, List, length, drop, IsSome, IfSome, Some};
ghost use Rattle.cube_slices.specs.Lines.{Line, LinesAscend, AreLines, line_of, pairs_of};
ghost use Rattle.cube_slices.specs.Slices.{slice_lines, IsSlice, EncodesLines};
ghost use Rattle.cube_slices.specs.steps.Seeks.{RowAt};

use crate::check::is_slice;
use crate::lines::{Lines, count_pairs};
use crate::parts::{line_at, parts_of};
use byte_tables::pair_at;
use run_rows::{RowForm, RowRef};
use std::marker::Model;

/// A slice that borrows its bytes. It is seen as the list of its lines, each a row's number with the numbers
/// of its columns: the lines ascend strictly, and no number is above 2^32 − 2. That they lie below the rows
/// and columns is told by [`check_slice`] and [`view_slice`].
#[derive(Debug, Drop)]
pub struct SliceRef<'a> {
    form: RowForm,
    entries: &'a [u8],
    row_bytes: &'a [u8],
}

impl<'a> Model for SliceRef<'a> {
    ghost use Rattle.std.specs.Prelude.{List, ◌^◌, ◌<◌, length};
    ghost use Rattle.cube_slices.specs.Lines.{Line};
    ghost use Rattle.cube_slices.specs.steps.Shown.{lines_shown, ShowsLines};

    ghost Value = { List Line };

    ghost view = { λ s. lines_shown s.form s.entries.now s.row_bytes.now };

    ghost invariant = { λ s. ShowsLines s.form s.entries.now s.row_bytes.now × (length s.entries.now < 2 ^ 35) };
}

impl<'a> SliceRef<'a> {
    /// How many rows have a pair.
    pub fn rows(&self) -> u32
        ensures count { result ≡ length self.now }
        ensures ascend { LinesAscend 0 (2 ^ 32 - 1) (2 ^ 32 - 1) self.now }
    {
        (self.entries.len() / 8) as u32
    }

    /// The line in place `i` in ascending order: its row's number, and the row.
    pub fn row_at(&self, i: u32) -> (u32, RowRef<'a>)
        requires { i < length self.now }
        ensures line { drop i self.now ≡ record { row = result.0; columns = result.1 } ∷ drop (i + 1) self.now }
        ensures ascend { LinesAscend 0 (2 ^ 32 - 1) (2 ^ 32 - 1) self.now }
    {
        line_at(self.form, self.entries, self.row_bytes, i as usize)
    }

    /// The number of the row of the line in place `i`.
    pub(crate) fn row_number(&self, i: u32) -> u32
        requires { i < length self.now }
        ensures { RowAt i result self.now }
    {
        let (row, _) = pair_at(self.entries, i as usize);
        row
    }

    /// All lines in ascending order.
    pub fn lines(&self) -> Lines<'a>
        ensures lines { result ≡ self.now }
        ensures ascend { LinesAscend 0 (2 ^ 32 - 1) (2 ^ 32 - 1) self.now }
    {
        Lines::over(self.form, self.entries, self.row_bytes)
    }

    /// How many pairs the slice has, at most `2 ^ 23`.
    pub fn count(&self) -> u32
        requires { length (pairs_of self.now) ≤ 2 ^ 23 }
        ensures { result ≡ length (pairs_of self.now) }
    {
        self.pairs() as u32
    }

    /// How many pairs the slice has.
    pub fn pairs(&self) -> u64
        ensures { result ≡ length (pairs_of self.now) }
    {
        count_pairs(self.lines())
    }

    /// The same slice again.
    pub fn again(&self) -> SliceRef<'a>
        ensures { result ≡ self.now }
    {
        SliceRef {
            form: self.form,
            entries: self.entries,
            row_bytes: self.row_bytes,
        }
    }
}

/// The slice that the bytes are. `None` exactly where they are none with these numbers of rows and columns: a
/// slice has one spelling, so what [`encode_slice`](crate::encode_slice) appended is that slice, and no other
/// bytes are.
pub fn check_slice(form: RowForm, bytes: &[u8], rows: u32, columns: u32) -> Option<SliceRef<'_>>
    ensures some { IsSome result ↔ IsSlice form rows columns bytes.now }
    ensures found { IfSome result (EncodesLines form rows columns bytes.now) }
    ensures lines { IfSome result (λ ls. ls ≡ slice_lines form bytes.now) }
    ensures only { (ls : List Line) → EncodesLines form rows columns bytes.now ls → result ≡ Some ls }
{
    if !is_slice(form, bytes, rows, columns) {
        return None;
    }
    Some(view_slice(form, bytes, rows, columns))
}

/// The slice that the bytes are, where they are known to be one: where [`check_slice`] would answer `Some`.
/// Only its number of rows is read.
pub fn view_slice(form: RowForm, bytes: &[u8], rows: u32, columns: u32) -> SliceRef<'_>
    requires { IsSlice form rows columns bytes.now }
    ensures encoded { EncodesLines form rows columns bytes.now result }
    ensures lines { result ≡ slice_lines form bytes.now }
    ensures only { (ls : List Line) → EncodesLines form rows columns bytes.now ls → result ≡ ls }
{
    let (entries, row_bytes) = parts_of(bytes);
    SliceRef {
        form,
        entries,
        row_bytes,
    }
}
