//! The parts of a slice: its number of rows, their entries, and their bytes.

ghost use Rattle.std.specs.Prelude.{◌≡◌, ◌↔◌, ◌+◌, ◌-◌, ◌*◌, ◌^◌, ◌<◌, ◌≤◌, ◌∷◌, length, drop, IsTrue};
ghost use Rattle.byte_tables.specs.Pairs.{pairs_in};
ghost use Rattle.cube_slices.specs.Slices.{entry_part, row_part};
ghost use Rattle.cube_slices.specs.steps.Shown.{start_at, HasEntries, ShowsLines, lines_shown};

use byte_tables::{between, first_number, pair_at, split_number};
use run_rows::{RowForm, RowRef, view};

/// Whether the bytes begin with a number of rows, of one at least, and have room for their entries.
pub fn has_entries(bytes: &[u8]) -> bool
    ensures { IsTrue result ↔ HasEntries bytes.now }
{
    match split_number(bytes) {
        Some((count, rest)) => count > 0 && 8 * count as usize <= rest.len(),
        None => false,
    }
}

/// The entries and the bytes of the rows.
pub fn parts_of(bytes: &[u8]) -> (&[u8], &[u8])
    requires { HasEntries bytes.now }
    ensures entries { result.0.now ≡ entry_part bytes.now }
    ensures rows { result.1.now ≡ row_part bytes.now }
{
    let count = first_number(bytes) as usize;
    bytes[4..].split_at(8 * count)
}

/// Where the rows of the entries before place `i` end.
fn end_before(entries: &[u8], i: usize) -> u32
    requires { 8 * i ≤ length entries.now }
    ensures { result ≡ start_at 0 i (pairs_in entries.now) }
{
    if i == 0 {
        return 0;
    }
    let (_, end) = pair_at(entries, i - 1);
    end
}

/// The line in place `i`: its row's number, and the row.
pub fn line_at<'a>(form: RowForm, entries: &[u8], bytes: &'a [u8], i: usize) -> (u32, RowRef<'a>)
    requires shown { ShowsLines form entries.now bytes.now }
    requires within { i < length (lines_shown form entries.now bytes.now) }
    ensures { drop i (lines_shown form entries.now bytes.now) ≡ record { row = result.0; columns = result.1 } ∷ drop (i + 1) (lines_shown form entries.now bytes.now) }
{
    let (row, end) = pair_at(entries, i);
    let start = end_before(entries, i);
    (row, view(form, between(bytes, start, end), u32::MAX))
}
