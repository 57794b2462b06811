//! Runs of numbers against words, a word at a time.

ghost use Rattle.std.specs.Prelude.{◌≡◌, ◌↔◌, ◌⊎◌, ℕ, ◌+◌, ◌-◌, ◌*◌, ◌/◌, ◌<◌, ◌≤◌, ◌^◌, min, length, Contains, IsTrue};
ghost use Rattle.row_lanes.specs.Words.{Has, IsInRun, Meets};
ghost use Rattle.row_lanes.specs.WordByWord.{IsRunPart};

use run_rows::RowRef;

/// The bits of a run's numbers that lie in the word at this place.
#[inline(always)]
fn run_part(place: usize, start: u32, end: u64) -> u64
    requires begun { start < 64 * place + 64 }
    requires left { 64 * place < end }
    requires fits { end < 2 ^ 32 }
    ensures { IsRunPart place start end result }
{
    let first = 64 * place as u64;
    let low = u64::from(start).saturating_sub(first);
    let high = (end - first).min(64);
    (u64::MAX << low) & (u64::MAX >> (64 - high))
}

/// The place behind the last word that a run's numbers lie in, or behind the last word that there is.
#[inline(always)]
fn past_run(words: &[u64], end: u64) -> usize
    requires some { 0 < end }
    requires fits { end < 2 ^ 32 }
    ensures { result ≡ min ((end - 1) / 64 + 1) (length words.now) }
{
    ((end - 1) as usize / 64 + 1).min(words.len())
}

/// Adds the numbers of a run for which there is a word.
fn add_run(into: &mut [u64], start: u32, end: u64)
    requires some { start < end }
    requires fits { end < 2 ^ 32 }
    ensures either { (n : ℕ) → Has into.new n ↔ (Has into.old n ⊎ (IsInRun start end n × (n < 64 * length into.old))) }
    ensures same_length { length into.new ≡ length into.old }
{
    let past = past_run(into, end);
    for place in start as usize / 64..past {
        into[place] |= run_part(place, start, end);
    }
}

/// Whether a number of a run is in the set.
fn meets_run(words: &[u64], start: u32, end: u64) -> bool
    requires some { start < end }
    requires fits { end < 2 ^ 32 }
    ensures { IsTrue result ↔ ((n : ℕ) × Has words.now n × IsInRun start end n) }
{
    let past = past_run(words, end);
    for place in start as usize / 64..past {
        if words[place] & run_part(place, start, end) != 0 {
            return true;
        }
    }
    false
}

/// Adds the numbers of the row for which there is a word.
pub fn add_row(into: &mut [u64], row: &RowRef<'_>)
    ensures either { (n : ℕ) → Has into.new n ↔ (Has into.old n ⊎ (Contains row.now n × (n < 64 * length into.old))) }
    ensures same_length { length into.new ≡ length into.old }
{
    for run in row.runs() {
        add_run(into, run.start, run.end());
    }
}

/// Whether a number of the row is in the set.
pub fn meets_row(words: &[u64], row: &RowRef<'_>) -> bool
    ensures { IsTrue result ↔ Meets words.now row.now }
{
    for run in row.runs() {
        if meets_run(words, run.start, run.end()) {
            return true;
        }
    }
    false
}
