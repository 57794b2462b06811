//! How long slices take: a hundred megabytes of slices of short rows are checked; a slice of a million pairs is
//! folded both ways; rows are found at random in one of a hundred thousand, and in ascending order from the last
//! place on in one of a million. What was found goes to the standard output, and the times to the standard error.
#![tactic(auto)]

ghost use Rattle.std.specs.Prelude.{◌≡◌, ◌+◌, ◌*◌, ◌^◌, ◌<◌, ◌≤◌, length};

use byte_tables::{push_number, push_pair};
use cube_slices::{SliceRef, check_slice};
use row_lanes::count;
use run_rows::RowForm;
use std::alloc::{AllocError, Global};
use std::io;
use std::rt::Clock;
use std::time::{Duration, Instant};

/// Rows and columns are below this.
const SIDE: u32 = 1_048_576;

/// A slice of rows of one number each: every row number is even.
fn short_rows(alloc: Global, rows: u32) -> Result<Vec<u8>, AllocError> {
    let mut bytes = Vec::new(alloc);
    push_number(&mut bytes, rows)?;
    for i in 0..rows {
        push_pair(
            &mut bytes,
            (i.wrapping_mul(2), i.wrapping_add(1).wrapping_mul(8)),
        )?;
    }
    for i in 0..rows {
        push_pair(&mut bytes, (i.wrapping_mul(7919) % SIDE, 1))?;
    }
    Ok(bytes)
}

/// The bytes so many times over.
fn repeated(alloc: Global, bytes: &[u8], times: u32) -> Result<Vec<u8>, AllocError> {
    let mut all = Vec::new(alloc);
    for _ in 0..times {
        all.extend_from_slice(bytes)?;
    }
    Ok(all)
}

/// How many of the pieces of one length are slices.
fn check_pieces(bytes: &[u8], len: usize) -> u32 {
    let mut slices = 0u32;
    let mut rest = bytes;
    while len > 0 && rest.len() >= len {
        let (piece, behind) = rest.split_at(len);
        if check_slice(RowForm::V1, piece, 2 * SIDE, SIDE).is_some() {
            slices = slices.wrapping_add(1);
        }
        rest = behind;
    }
    slices
}

/// How many of a million rows at random, all below a number, are found.
fn find_rows(slice: &SliceRef<'_>, end: u32) -> u32
    requires { 0 < end }
{
    let mut n = 1u32;
    let mut found = 0u32;
    for _ in 0..1_000_000u32 {
        n = n.wrapping_mul(1_664_525).wrapping_add(1_013_904_223);
        if slice.row((n >> 8) % end).is_some() {
            found = found.wrapping_add(1);
        }
    }
    found
}

/// How many of the rows with a step between them are found, each from the last place on.
fn find_in_order(slice: &SliceRef<'_>, step: u32) -> u32
    requires { 0 < step }
{
    let mut found = 0u32;
    let mut place = 0;
    let mut n = 0;
    while n < 2 * SIDE {
        let (next, row) = slice.row_from(place, n);
        if row.is_some() {
            found = found.wrapping_add(1);
        }
        place = next;
        n = n.saturating_add(step);
    }
    found
}

fn print_checked(rt: &impl Eprint, name: &str, bytes: usize, taken: Duration) -> io::Result<()> {
    let tenths = (10 * bytes as u128)
        .checked_div(taken.as_nanos())
        .unwrap_or(0);
    let whole = tenths / 10;
    let part = tenths % 10;
    eprintln!(rt; "check_slice, {name}: {whole}.{part} GB/s")
}

fn time_check(
    rt: &(impl Clock + Print + Eprint),
    name: &str,
    slice: &[u8],
    all: &[u8],
) -> io::Result<()> {
    let start = Instant::now(rt)?;
    let slices = check_pieces(all, slice.len());
    print_checked(rt, name, all.len(), start.elapsed(rt)?)?;
    println!(rt; "{name}: {slices} slices")
}

fn time_folds(
    rt: &(impl Clock + Print + Eprint),
    slice: &SliceRef<'_>,
    keep: &[u64],
    into: &mut [u64],
) -> io::Result<()>
    requires { length into.old ≤ 2 ^ 25 }
{
    let start = Instant::now(rt)?;
    slice.fold_rows(keep, into);
    let taken = start.elapsed(rt)?;
    let rows = count(into);
    let start = Instant::now(rt)?;
    slice.fold_columns(keep, into);
    let also = start.elapsed(rt)?;
    let columns = count(into);
    println!(rt; "folds: {rows} rows, {columns} columns")?;
    eprintln!(rt; "fold_rows {taken:?}, fold_columns {also:?}")
}

fn time_find(
    rt: &(impl Clock + Print + Eprint),
    slice: &SliceRef<'_>,
    rows: u32,
) -> io::Result<()> {
    let start = Instant::now(rt)?;
    let found = find_rows(slice, rows.saturating_mul(2).max(1));
    let taken = start.elapsed(rt)?;
    println!(rt; "found at random: {found}")?;
    eprintln!(rt; "a million calls of row in {rows} rows: {taken:?}")
}

fn time_order(
    rt: &(impl Clock + Print + Eprint),
    slice: &SliceRef<'_>,
    step: u32,
) -> io::Result<()> {
    let start = Instant::now(rt)?;
    let found = find_in_order(slice, step.max(1));
    let taken = start.elapsed(rt)?;
    println!(rt; "found in order, every {step}: {found}")?;
    eprintln!(rt; "row_from over a million rows, every {step}: {taken:?}")
}

fn time_large(rt: &(impl Clock + Print + Eprint), alloc: Global) -> io::Result<()> {
    let bytes = short_rows(alloc, 1_000_000)?;
    let Some(slice) = check_slice(RowForm::V1, &bytes, 2 * SIDE, SIDE) else {
        return println!(rt; "no slice");
    };
    let mut keep = vec![in alloc; u64::MAX / 3; 32_768]?;
    let mut into = vec![in alloc; 0u64; 32_768]?;
    time_folds(rt, &slice, &keep, &mut into)?;
    keep.clear();
    for step in [1u32, 2, 16, 64, 1000] {
        time_order(rt, &slice, step)?;
    }
    Ok(())
}

fn main(rt: HostRuntime) -> io::Result<()> {
    let alloc = rt.alloc();
    let slice = short_rows(alloc, 1000)?;
    let all = repeated(alloc, &slice, 6250)?;
    time_check(&rt, "a thousand rows a slice", &slice, &all)?;
    let slice = short_rows(alloc, 2)?;
    let all = repeated(alloc, &slice, 2_777_777)?;
    time_check(&rt, "two rows a slice", &slice, &all)?;
    let bytes = short_rows(alloc, 100_000)?;
    if let Some(slice) = check_slice(RowForm::V1, &bytes, 2 * SIDE, SIDE) {
        time_find(&rt, &slice, 100_000)?;
    }
    time_large(&rt, alloc)
}
