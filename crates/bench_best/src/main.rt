//! How long best-match takes, over a million rows with eight sets of bound variables and over a million with one,
//! both as a join lists them and in no order. How many rows it keeps goes to the standard output, and the times to the
//! standard error.
#![tactic(auto)]

ghost use Rattle.std.specs.Prelude.{◌≡◌, ◌<◌, ◌≤◌, IfOk};

use null_best::best_match;
use pattern_tree::FlatRows;
use std::alloc::{AllocError, Global};
use std::io;
use std::time::Instant;

const ROWS: u32 = 1_000_000;

// A step that leads through all places in no order.
const LEAP: u64 = 618_033;

// A number that follows from another, as if at random.
fn mixed(n: u32) -> u32 {
    let n = (n ^ (n >> 16)).wrapping_mul(0x7FEB_352D);
    let n = (n ^ (n >> 15)).wrapping_mul(0x846C_A68B);
    (n ^ (n >> 16)) % 1_000_000 + 1
}

// A cell that is bound where a bit of a set is 1.
fn cell(set: u32, bit: u32, value: u32) -> u32
    requires { bit < 32 }
{
    if (set >> bit) & 1 == 1 { value } else { 0 }
}

// The cells of a row. The rows of a root, of which there are eight or one, bind three variables more or less. Of every
// other root they agree, and so the last of them extends the others.
fn cells(place: u32, rows_a_root: u32) -> [u32; 6]
    requires some { 0 < rows_a_root }
    requires few { rows_a_root ≤ 8 }
{
    let root = place / rows_a_root;
    let set = place % rows_a_root + (8 - rows_a_root);
    let value = mixed(if root % 2 == 0 { root } else { place });
    [
        mixed(root),
        root.wrapping_add(1),
        cell(set, 0, value),
        mixed(root.wrapping_add(7)),
        cell(set, 1, value),
        cell(set, 2, value),
    ]
}

fn rows(alloc: Global, step: u64, rows_a_root: u32) -> Result<FlatRows, AllocError>
    requires some { 0 < rows_a_root }
    requires few { rows_a_root ≤ 8 }
    ensures { IfOk result (λ rows. rows.vars ≡ 6) }
{
    let mut rows = FlatRows::new(alloc, 6);
    for i in 0..ROWS {
        let place = (u64::from(i).wrapping_mul(step) % u64::from(ROWS)) as u32;
        rows.push(&cells(place, rows_a_root))?;
    }
    Ok(rows)
}

fn time(rt: &HostRuntime, name: &str, step: u64, rows_a_root: u32) -> io::Result<()>
    requires some { 0 < rows_a_root }
    requires few { rows_a_root ≤ 8 }
{
    let rows = rows(rt.alloc(), step, rows_a_root)?;
    let start = Instant::now(rt)?;
    let best = best_match(rt.alloc(), rows)?;
    let taken = start.elapsed(rt)?;
    let kept = best.len();
    println!(rt; "{name}: {kept} rows are kept")?;
    eprintln!(rt; "{name}: {taken:?}")
}

fn main(rt: HostRuntime) -> io::Result<()> {
    time(&rt, "eight sets, root by root", 1, 8)?;
    time(&rt, "eight sets, in no order", LEAP, 8)?;
    time(&rt, "one set, root by root", 1, 1)?;
    time(&rt, "one set, in no order", LEAP, 1)
}
