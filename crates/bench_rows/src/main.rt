//! How long rows take: a row of a million runs of three numbers each is checked, walked, searched a
//! million times, counted and written again. What was found goes to the standard output, and the times to
//! the standard error.
#![tactic(auto)]

ghost use Rattle.std.specs.Prelude.{◌≡◌, IfOk};

use run_rows::{RowForm, RowRef, check, encode};
use std::alloc::{AllocError, Global};
use std::io;
use std::time::Instant;

const RUNS: u32 = 1_000_000;

const COLUMNS: u32 = 5_000_000;

/// Runs of three numbers, two apart.
fn runs(alloc: Global) -> Result<Vec<u8>, AllocError> {
    let mut bytes = Vec::new(alloc);
    for i in 0..RUNS {
        bytes.extend_from_slice(&(5 * i).to_le_bytes())?;
        bytes.extend_from_slice(&3u32.to_le_bytes())?;
    }
    Ok(bytes)
}

fn sum(row: &RowRef<'_>) -> u64 {
    let mut total = 0u64;
    for n in row.iter() {
        total = total.wrapping_add(u64::from(n));
    }
    total
}

/// The sum of the least numbers from a million places on, one after the other at random.
fn search(row: &RowRef<'_>) -> u64 {
    let mut n = 1u32;
    let mut total = 0u64;
    for _ in 0..RUNS {
        n = n.wrapping_mul(1_664_525).wrapping_add(1_013_904_223);
        total = total.wrapping_add(u64::from(row.at_least(n % COLUMNS).unwrap_or(0)));
    }
    total
}

fn numbers(alloc: Global, row: &RowRef<'_>) -> Result<Vec<u32>, AllocError>
    ensures { IfOk result (λ v. v.items ≡ row.now) }
{
    row.iter().collect(alloc)
}

fn write_again(alloc: Global, row: &RowRef<'_>) -> Result<Vec<u8>, AllocError> {
    let numbers = numbers(alloc, row)?;
    let _count = row.count();
    encode(alloc, RowForm::V1, &numbers)
}

fn main(rt: HostRuntime) -> io::Result<()> {
    let bytes = runs(rt.alloc())?;
    let start = Instant::now(&rt)?;
    let Some(row) = check(RowForm::V1, &bytes, COLUMNS) else {
        return println!(rt; "no row");
    };
    let checked = start.elapsed(&rt)?;
    let start = Instant::now(&rt)?;
    let total = sum(&row);
    let walked = start.elapsed(&rt)?;
    let start = Instant::now(&rt)?;
    let found = search(&row);
    let searched = start.elapsed(&rt)?;
    let start = Instant::now(&rt)?;
    let count = row.count();
    let counted = start.elapsed(&rt)?;
    let start = Instant::now(&rt)?;
    let same = write_again(rt.alloc(), &row)?.as_slice() == bytes.as_slice();
    let written = start.elapsed(&rt)?;
    println!(rt; "total {total}, found {found}, count {count}, written the same: {same}")?;
    eprintln!(rt; "check {checked:?}, iter {walked:?}, at_least {searched:?}")?;
    eprintln!(rt; "count {counted:?}, iter and encode {written:?}")
}
