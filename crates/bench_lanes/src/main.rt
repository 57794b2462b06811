//! How fast masks are, beside plain loops: masks of a million numbers are cut by one another, asked whether
//! they have a number, and counted, some thousand times each; a row is added, and its numbers are searched
//! one after the other. What was found goes to the standard output. To the standard error goes how many bytes
//! of words were read in a nanosecond, in gigabytes a second, or how long a number took.
#![tactic(auto)]

ghost use Rattle.std.specs.Prelude.{◌<◌, ◌≤◌, ◌*◌, ◌^◌, length, All};

use row_lanes::{and_into, any, count, first_at_least, or_row};
use run_rows::{RowForm, RowRef, check};
use std::alloc::{AllocError, Global};
use std::io;
use std::rt::Clock;
use std::time::{Duration, Instant};

/// 2 to the power of 20 numbers, 131,072 bytes.
const WORDS: usize = 16_384;

const ROUNDS: u64 = 4_000;

/// A plain count goes over each bit, so it gets fewer rounds.
const PLAIN_COUNT_ROUNDS: u64 = 100;

/// How many runs the row has, and how often it is added.
const RUNS: u32 = 200_000;

const ROW_ROUNDS: u64 = 50;

/// Changes the first word, so that no round repeats the one before.
fn stir(words: &mut [u64], round: u64) {
    if let Some(word) = words.first_mut() {
        *word = round;
    }
}

fn and_rounds(into: &mut [u64], other: &[u64]) {
    for round in 0..ROUNDS {
        stir(into, round);
        and_into(into, other);
    }
}

fn plain_and_rounds(into: &mut [u64], other: &[u64]) {
    for round in 0..ROUNDS {
        stir(into, round);
        for (word, mask) in into.iter_mut().zip(other) {
            *word &= *mask;
        }
    }
}

/// How often there was a number.
fn any_rounds(words: &mut [u64]) -> u64 {
    let mut found = 0u64;
    for round in 0..ROUNDS {
        stir(words, round / (ROUNDS - 1));
        found = found.wrapping_add(u64::from(any(words)));
    }
    found
}

fn plain_any(words: &[u64]) -> bool {
    for word in words {
        if *word != 0 {
            return true;
        }
    }
    false
}

fn plain_any_rounds(words: &mut [u64]) -> u64 {
    let mut found = 0u64;
    for round in 0..ROUNDS {
        stir(words, round / (ROUNDS - 1));
        found = found.wrapping_add(u64::from(plain_any(words)));
    }
    found
}

/// The sum of the counts.
fn count_rounds(words: &mut [u64]) -> u64
    requires { length words.old ≤ 2 ^ 25 }
{
    let mut found = 0u64;
    for round in 0..ROUNDS {
        stir(words, round);
        found = found.wrapping_add(u64::from(count(words)));
    }
    found
}

fn plain_count(words: &[u64]) -> u64 {
    let mut found = 0u64;
    for word in words {
        for bit in 0..64u32 {
            found = found.wrapping_add(word >> bit & 1);
        }
    }
    found
}

fn plain_count_rounds(words: &mut [u64]) -> u64 {
    let mut found = 0u64;
    for round in 0..PLAIN_COUNT_ROUNDS {
        stir(words, round);
        found = found.wrapping_add(plain_count(words));
    }
    found
}

/// Runs of three numbers, two apart.
fn runs(alloc: Global) -> Result<Vec<u8>, AllocError> {
    let mut bytes = Vec::new(alloc);
    for i in 0..RUNS {
        bytes.extend_from_slice(&(5 * i).to_le_bytes())?;
        bytes.extend_from_slice(&3u32.to_le_bytes())?;
    }
    Ok(bytes)
}

fn or_rounds(into: &mut [u64], row: &RowRef<'_>)
    requires { All (λ n. n < 64 * length into.old) row.now }
{
    for round in 0..ROW_ROUNDS {
        stir(into, round);
        or_row(into, row);
    }
}

/// How many numbers there are, by a search for each.
fn search(words: &[u64]) -> u32
    requires { length words.now ≤ 2 ^ 25 }
{
    let mut n = 0;
    for found in 0..3 * RUNS {
        match first_at_least(words, n) {
            Some(least) => n = least.wrapping_add(1),
            None => return found,
        }
    }
    3 * RUNS
}

/// Prints the bytes of so many masks for each nanosecond, to one place.
fn print_speed(rt: &impl Eprint, name: &str, masks: u64, taken: Duration) -> io::Result<()> {
    let bytes = u128::from(masks) * 8 * 16_384;
    let tenths = (10 * bytes).checked_div(taken.as_nanos()).unwrap_or(0);
    let whole = tenths / 10;
    let part = tenths % 10;
    eprintln!(rt; "{name} {whole}.{part} GB/s")
}

fn time_and(rt: &(impl Clock + Print + Eprint), into: &mut [u64], other: &[u64]) -> io::Result<()> {
    let start = Instant::now(rt)?;
    and_rounds(into, other);
    print_speed(rt, "and_into", 2 * ROUNDS, start.elapsed(rt)?)?;
    let start = Instant::now(rt)?;
    plain_and_rounds(into, other);
    print_speed(rt, "plain", 2 * ROUNDS, start.elapsed(rt)?)
}

fn time_any(rt: &(impl Clock + Print + Eprint), words: &mut [u64]) -> io::Result<()> {
    let start = Instant::now(rt)?;
    let found = any_rounds(words);
    print_speed(rt, "any", ROUNDS, start.elapsed(rt)?)?;
    let start = Instant::now(rt)?;
    let plain = plain_any_rounds(words);
    print_speed(rt, "plain", ROUNDS, start.elapsed(rt)?)?;
    println!(rt; "any {found}, plain {plain}")
}

fn time_count(rt: &(impl Clock + Print + Eprint), words: &mut [u64]) -> io::Result<()>
    requires { length words.old ≤ 2 ^ 25 }
{
    let start = Instant::now(rt)?;
    let found = count_rounds(words);
    print_speed(rt, "count", ROUNDS, start.elapsed(rt)?)?;
    let start = Instant::now(rt)?;
    let plain = plain_count_rounds(words);
    print_speed(rt, "plain", PLAIN_COUNT_ROUNDS, start.elapsed(rt)?)?;
    println!(rt; "count {found}, plain {plain}")
}

/// Prints how long each of so many numbers took, in tenths of a nanosecond.
fn print_each(rt: &impl Eprint, name: &str, numbers: u64, taken: Duration) -> io::Result<()> {
    let tenths = (10 * taken.as_nanos())
        .checked_div(u128::from(numbers))
        .unwrap_or(0);
    let whole = tenths / 10;
    let part = tenths % 10;
    eprintln!(rt; "{name} {whole}.{part} ns for each number")
}

fn time_row(
    rt: &(impl Clock + Print + Eprint),
    into: &mut [u64],
    row: &RowRef<'_>,
) -> io::Result<()>
    requires fits { All (λ n. n < 64 * length into.old) row.now }
    requires few { length into.old ≤ 2 ^ 25 }
{
    let start = Instant::now(rt)?;
    or_rounds(into, row);
    print_each(rt, "or_row", 600_000 * ROW_ROUNDS, start.elapsed(rt)?)?;
    let start = Instant::now(rt)?;
    let found = search(into);
    print_each(rt, "first_at_least", 600_000, start.elapsed(rt)?)?;
    println!(rt; "row {found}")
}

fn main(rt: HostRuntime) -> io::Result<()> {
    let mut words = [u64::MAX; WORDS];
    let other = [0x5555_5555_5555_5555; WORDS];
    time_and(&rt, &mut words, &other)?;
    time_count(&rt, &mut words)?;
    let mut empty = [0; WORDS];
    time_any(&rt, &mut empty)?;
    let bytes = runs(rt.alloc())?;
    let Some(row) = check(RowForm::V1, &bytes, 5 * RUNS) else {
        return println!(rt; "no row");
    };
    time_row(&rt, &mut empty, &row)
}
