//! A row found among the lines of a slice.

ghost use Rattle.std.specs.Prelude.{◌≡◌, ◌-◌, ◌^◌, ◌<◌, ◌≤◌, length};
ghost use Rattle.cube_slices.specs.Lines.{LinesAscend, line_of, IsPassed};
ghost use Rattle.cube_slices.specs.steps.Seeks.{Seeks};

use crate::slice::SliceRef;
use run_rows::RowRef;

/// The place of the first line that is not before row `n`, by halving between two places.
fn halve(slice: &SliceRef<'_>, low: u32, high: u32, n: u32) -> u32
    requires seeks { Seeks n slice.now low high }
    requires ascend { LinesAscend 0 (2 ^ 32 - 1) (2 ^ 32 - 1) slice.now }
    ensures { Seeks n slice.now result result }
{
    let mut low = low;
    let mut high = high;
    while low < high {
        let middle = low + (high - low) / 2;
        if slice.row_number(middle) < n {
            low = middle + 1;
        } else {
            high = middle;
        }
    }
    low
}

/// A place from `low` on and before `high`: where row `n` would stand if the rows lay evenly from `below` to `above`.
fn even_place(low: u32, high: u32, below: u32, above: u32, n: u32) -> u32
    requires { low < high }
    ensures from_low { low ≤ result }
    ensures before_high { result < high }
{
    let room = (high - low) as u64;
    let ahead = n.saturating_sub(below) as u64;
    let span = above.saturating_sub(below) as u64 + 1;
    let steps = (ahead.saturating_mul(room) / span).min(room - 1);
    low + steps as u32
}

/// Two places between which the first line that is not before row `n` stands, close together where the rows lie evenly:
/// two guesses, and then steps that double from the last of them.
fn guess(slice: &SliceRef<'_>, rows: u32, n: u32) -> (u32, u32)
    requires count { rows ≡ length slice.now }
    requires ascend { LinesAscend 0 (2 ^ 32 - 1) (2 ^ 32 - 1) slice.now }
    ensures { Seeks n slice.now result.0 result.1 }
{
    if rows == 0 {
        return (0, 0);
    }
    let below = slice.row_number(0);
    let above = slice.row_number(rows - 1);
    let first = even_place(0, rows, below, above, n);
    let row = slice.row_number(first);
    if row < n {
        return gallop(slice, first + 1, n);
    }
    if first == 0 {
        return (0, 0);
    }
    let second = even_place(0, first, below, row, n);
    if slice.row_number(second) < n {
        gallop(slice, second + 1, n)
    } else {
        gallop_back(slice, second, n)
    }
}

/// The same from a place back: the steps double until a line is met that is before row `n`.
fn gallop_back(slice: &SliceRef<'_>, from: u32, n: u32) -> (u32, u32)
    requires seeks { Seeks n slice.now 0 from }
    requires ascend { LinesAscend 0 (2 ^ 32 - 1) (2 ^ 32 - 1) slice.now }
    ensures { Seeks n slice.now result.0 result.1 }
{
    let mut high = from;
    let mut step = 0u32;
    while step < high {
        let probe = high - 1 - step;
        if slice.row_number(probe) < n {
            return (probe + 1, high);
        }
        high = probe;
        step = step.saturating_mul(2).saturating_add(1);
    }
    (0, high)
}

/// Two places between which the first line that is not before row `n` stands. From a place on, the steps double
/// until a line is met that is not before it.
fn gallop(slice: &SliceRef<'_>, from: u32, n: u32) -> (u32, u32)
    requires within { from ≤ length slice.now }
    requires passed { IsPassed n from slice.now }
    requires ascend { LinesAscend 0 (2 ^ 32 - 1) (2 ^ 32 - 1) slice.now }
    ensures { Seeks n slice.now result.0 result.1 }
{
    let rows = slice.rows();
    let mut low = from;
    let mut step = 0u32;
    while step < rows - low {
        let probe = low + step;
        if slice.row_number(probe) >= n {
            return (low, probe);
        }
        low = probe + 1;
        step = step.saturating_mul(2).saturating_add(1);
    }
    (low, rows)
}

/// The row that the search ended at, if it is row `n`.
fn found_at<'a>(slice: &SliceRef<'a>, place: u32, n: u32) -> Option<RowRef<'a>>
    requires seeks { Seeks n slice.now place place }
    requires ascend { LinesAscend 0 (2 ^ 32 - 1) (2 ^ 32 - 1) slice.now }
    ensures { result ≡ line_of n slice.now }
{
    if place >= slice.rows() {
        return None;
    }
    let (number, row) = slice.row_at(place);
    if number == n { Some(row) } else { None }
}

impl<'a> SliceRef<'a> {
    /// Row `n`, found by a guess and then by halving. `None` exactly where it has no pair.
    pub fn row(&self, n: u32) -> Option<RowRef<'a>>
        ensures row { result ≡ line_of n self.now }
        ensures ascend { LinesAscend 0 (2 ^ 32 - 1) (2 ^ 32 - 1) self.now }
    {
        let (low, high) = guess(self, self.rows(), n);
        let place = halve(self, low, high, n);
        found_at(self, place, n)
    }

    /// Row `n`, found from a place on by galloping and then halving, with the place that it was sought at. Each
    /// row from `n` on is to be found from the place on: so it is from place 0, and from the place that the search
    /// for an earlier row gave. Rows that are asked in ascending order are then found in constant time where they
    /// stand near each other.
    pub fn row_from(&self, from: u32, n: u32) -> (u32, Option<RowRef<'a>>)
        requires within { from ≤ length self.now }
        requires passed { IsPassed n from self.now }
        ensures row { result.1 ≡ line_of n self.now }
        ensures place_within { result.0 ≤ length self.now }
        ensures place_passed { IsPassed n result.0 self.now }
        ensures ascend { LinesAscend 0 (2 ^ 32 - 1) (2 ^ 32 - 1) self.now }
    {
        self.rows();
        let (low, high) = gallop(self, from, n);
        let place = halve(self, low, high, n);
        (place, found_at(self, place, n))
    }
}
