//! Whether bytes are a slice.

ghost use Rattle.std.specs.Prelude.{◌≡◌, ◌↔◌, ◌+◌, IsTrue};
ghost use Rattle.byte_tables.specs.Pairs.{pairs_in};
ghost use Rattle.cube_slices.specs.Slices.{AreEntries, IsSlice};
ghost use Rattle.cube_slices.specs.steps.Shown.{IsEntry};

use crate::parts::{has_entries, parts_of};
use byte_tables::split_pair;
use run_rows::{RowForm, check};

/// Whether an entry is in order, and the bytes up to its end are the encoding of a row.
fn is_entry(
    form: RowForm,
    rows: u32,
    columns: u32,
    low: u32,
    from: u32,
    entry: (u32, u32),
    bytes: &[u8],
) -> bool
    ensures { IsTrue result ↔ IsEntry form rows columns low from entry bytes.now }
{
    let (row, end) = entry;
    if row < low || row >= rows || end <= from {
        return false;
    }
    let size = (end - from) as usize;
    size <= bytes.len() && check(form, &bytes[..size], columns).is_some()
}

/// Whether the entries are in order and cut all bytes into rows.
fn are_entries(form: RowForm, rows: u32, columns: u32, entries: &[u8], bytes: &[u8]) -> bool
    ensures { IsTrue result ↔ AreEntries form rows columns 0 0 (pairs_in entries.now) bytes.now }
{
    let mut entries = entries;
    let mut bytes = bytes;
    let mut low = 0;
    let mut from = 0;
    while let Some((entry, after)) = split_pair(entries) {
        if !is_entry(form, rows, columns, low, from, entry, bytes) {
            return false;
        }
        let (_, behind) = bytes.split_at((entry.1 - from) as usize);
        bytes = behind;
        low = entry.0 + 1;
        from = entry.1;
        entries = after;
    }
    bytes.is_empty()
}

/// Whether the bytes are a slice with so many rows and columns.
pub fn is_slice(form: RowForm, bytes: &[u8], rows: u32, columns: u32) -> bool
    ensures { IsTrue result ↔ IsSlice form rows columns bytes.now }
{
    if !has_entries(bytes) {
        return false;
    }
    let (entries, row_bytes) = parts_of(bytes);
    are_entries(form, rows, columns, entries, row_bytes)
}
