//! The lines of a slice, one after the other.

ghost use Rattle.std.specs.Prelude.{◌≡◌, ◌-◌, ◌^◌, [], ◌∷◌, length, IfSome, IfNone};
ghost use Rattle.byte_tables.specs.Pairs.{pairs_in};
ghost use Rattle.cube_slices.specs.Lines.{LinesAscend, pairs_of};
ghost use Rattle.cube_slices.specs.Slices.{lines_at, AreEntries};
ghost use Rattle.cube_slices.specs.steps.Shown.{ShowsLines, lines_shown};

use byte_tables::split_pair;
use run_rows::{RowForm, RowRef, view};
use std::marker::Model;

/// The lines of a slice in order, each a row's number with the row. It is seen as the lines that are left.
#[derive(Debug, Drop)]
pub struct Lines<'a> {
    form: RowForm,
    from: u32,
    entries: &'a [u8],
    bytes: &'a [u8],
}

impl<'a> Model for Lines<'a> {
    ghost use Rattle.std.specs.Prelude.{List, ◌-◌, ◌^◌};
    ghost use Rattle.byte_tables.specs.Pairs.{pairs_in};
    ghost use Rattle.cube_slices.specs.Lines.{Line};
    ghost use Rattle.cube_slices.specs.Slices.{lines_at, AreEntries};

    ghost Value = { List Line };

    ghost view = { λ s. lines_at s.form s.from (pairs_in s.entries.now) s.bytes.now };

    ghost invariant = { λ s. AreEntries s.form (2 ^ 32 - 1) (2 ^ 32 - 1) 0 s.from (pairs_in s.entries.now) s.bytes.now };
}

impl<'a> Lines<'a> {
    /// The lines that these entries and bytes show.
    pub(crate) fn over(form: RowForm, entries: &'a [u8], bytes: &'a [u8]) -> Lines<'a>
        requires { ShowsLines form entries.now bytes.now }
        ensures { result ≡ lines_shown form entries.now bytes.now }
    {
        Lines {
            form,
            from: 0,
            entries,
            bytes,
        }
    }
}

impl<'a> Lines<'a> {
    /// The first line: its row's number, the row, and the lines behind it. `None` where no line is left.
    pub fn split_first(&self) -> Option<(u32, RowRef<'a>, Lines<'a>)>
        ensures first { IfSome result (λ parts. self.now ≡ record { row = parts.0; columns = parts.1 } ∷ parts.2) }
        ensures none { IfNone result (self.now ≡ []) }
    {
        let ((row, end), entries) = split_pair(self.entries)?;
        let (front, bytes) = self.bytes.split_at((end - self.from) as usize);
        let rest = Lines {
            form: self.form,
            from: end,
            entries,
            bytes,
        };
        Some((row, view(self.form, front, u32::MAX), rest))
    }
}

/// How many pairs the lines have.
pub fn count_pairs(lines: Lines<'_>) -> u64
    requires { LinesAscend 0 (2 ^ 32 - 1) (2 ^ 32 - 1) lines }
    ensures { result ≡ length (pairs_of lines.entry) }
{
    let mut lines = lines;
    let mut total = 0;
    while let Some((_, row, rest)) = lines.split_first() {
        total += u64::from(row.count());
        lines = rest;
    }
    total
}
