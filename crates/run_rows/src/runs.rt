//! Bytes that are runs one after the other, eight bytes each.

ghost use Rattle.std.specs.Prelude.{◌≡◌, ◌+◌, ◌-◌, ◌^◌, ◌<◌, ◌↔◌, length, find, IsTrue};
ghost use Rattle.run_rows.specs.Row.{IsLeastFrom};
ghost use Rattle.run_rows.specs.Runs.{members, is_past};
ghost use Rattle.run_rows.specs.Encoding.{runs_in, SpellsRuns};

use crate::run::{Run, run_at, split_run};

/// Whether the bytes are runs in order that end by `columns`, and nothing else.
pub fn are_runs(bytes: &[u8], columns: u32) -> bool
    ensures { IsTrue result ↔ SpellsRuns 0 columns bytes.now }
{
    let mut rest = bytes;
    let mut low: u64 = 0;
    while let Some((run, after)) = split_run(rest) {
        let end = run.end();
        if u64::from(run.start) < low || run.len == 0 || end > u64::from(columns) {
            return false;
        }
        low = end + 1;
        rest = after;
    }
    rest.is_empty()
}

/// How many numbers the runs have.
pub fn count(bytes: &[u8]) -> u32
    requires { SpellsRuns 0 (2 ^ 32 - 1) bytes.now }
    ensures { result ≡ length (members (runs_in bytes.now)) }
{
    let mut rest = bytes;
    let mut total = 0;
    while let Some((run, after)) = split_run(rest) {
        total += run.len;
        rest = after;
    }
    total
}

/// The first run that ends after `n`, by halving.
pub fn first_past(bytes: &[u8], n: u32) -> Option<Run>
    requires { SpellsRuns 0 (2 ^ 32 - 1) bytes.now }
    ensures { result ≡ find (is_past n) (runs_in bytes.now) }
{
    let mut low = 0;
    let mut high = bytes.len() / 8;
    while low < high {
        let middle = low + (high - low) / 2;
        if run_at(bytes, middle).end() <= u64::from(n) {
            low = middle + 1;
        } else {
            high = middle;
        }
    }
    if low == bytes.len() / 8 {
        None
    } else {
        Some(run_at(bytes, low))
    }
}

/// The least number of the runs that is not below `n`.
pub fn at_least(bytes: &[u8], n: u32) -> Option<u32>
    requires { SpellsRuns 0 (2 ^ 32 - 1) bytes.now }
    ensures { IsLeastFrom n (members (runs_in bytes.now)) result }
{
    first_past(bytes, n).map(|run| run.start.max(n))
}
