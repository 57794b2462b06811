ghost use Rattle.std.specs.Prelude.{◌≡◌, ◌<◌, IfOk};

use crate::best_match;
use pattern_tree::FlatRows;
use std::alloc::{AllocError, Global};
use std::process::Abort;
use std::test::Fail;

// Rows of five cells, and how many of them are best.
const TABLE: [(&[[u32; 5]], usize); 6] = [
    (&[], 0),
    // Two rows that an OPTIONAL extended, each beside one that it left as it was.
    (
        &[
            [1, 2, 3, 5, 6],
            [1, 2, 3, 5, 0],
            [1, 2, 4, 5, 0],
            [1, 2, 4, 5, 7],
        ],
        2,
    ),
    // A repeated row.
    (&[[1, 0, 2, 0, 0], [1, 0, 2, 0, 0]], 1),
    // A chain: the last extends all others.
    (
        &[
            [0, 0, 0, 0, 0],
            [0, 0, 4, 0, 0],
            [0, 1, 4, 0, 0],
            [9, 1, 4, 0, 0],
            [9, 1, 4, 8, 1],
        ],
        1,
    ),
    // Rows that agree where both bind, and rows that bind as much.
    (
        &[
            [1, 2, 0, 0, 0],
            [1, 0, 3, 0, 0],
            [1, 2, 0, 0, 1],
            [1, 3, 0, 0, 0],
        ],
        3,
    ),
    // A set that the other does not hold, though it is less.
    (&[[5, 0, 0, 0, 0], [0, 5, 5, 0, 0], [4, 5, 5, 0, 0]], 2),
];

fn rows_of(alloc: Global, table: &[[u32; 5]]) -> Result<FlatRows, AllocError>
    ensures { IfOk result (λ rows. rows.vars ≡ 5) }
{
    let mut rows = FlatRows::new(alloc, 5);
    for cells in table {
        rows.push(cells)?;
    }
    Ok(rows)
}

// Five cells as if at random, of which a third is unbound.
fn random_cells(seed: u32) -> [u32; 5] {
    let mut cells = [0; 5];
    let mut n = seed.wrapping_mul(2_654_435_761);
    for cell in &mut cells {
        n = n.wrapping_mul(1_664_525).wrapping_add(1_013_904_223);
        *cell = (n >> 16) % 3;
    }
    cells
}

fn random_rows(alloc: Global, seed: u32, count: u32) -> Result<FlatRows, AllocError>
    ensures { IfOk result (λ rows. rows.vars ≡ 5) }
{
    let mut rows = FlatRows::new(alloc, 5);
    for i in 0..count {
        rows.push(&random_cells(seed.wrapping_mul(1000).wrapping_add(i)))?;
    }
    Ok(rows)
}

fn has(rows: &FlatRows, cells: &[u32]) -> bool {
    for i in 0..rows.len() {
        if rows.row(i) == cells {
            return true;
        }
    }
    false
}

fn improves(large: &[u32], small: &[u32]) -> bool {
    large != small
        && large
            .iter()
            .zip(small)
            .all(|(cell, other)| *other == 0 || cell == other)
}

fn is_improved(rows: &FlatRows, cells: &[u32]) -> bool {
    for i in 0..rows.len() {
        if improves(rows.row(i), cells) {
            return true;
        }
    }
    false
}

fn is_repeated(rows: &FlatRows, at: usize) -> bool {
    for i in 0..rows.len() {
        if i < at && at < rows.len() && rows.row(i) == rows.row(at) {
            return true;
        }
    }
    false
}

// Whether some rows are the best of others, by a comparison of each row with each.
fn are_best(rows: &FlatRows, best: &FlatRows) -> bool {
    for i in 0..rows.len() {
        if is_improved(rows, rows.row(i)) == has(best, rows.row(i)) {
            return false;
        }
    }
    for i in 0..best.len() {
        if is_repeated(best, i) || !has(rows, best.row(i)) {
            return false;
        }
    }
    true
}

#[test]
fn the_best_rows_of_a_table_are_kept(rt: HostRuntime) -> Result<(), Fail> {
    let alloc = rt.alloc();
    for (table, count) in &TABLE {
        let best = best_match(alloc, rows_of(alloc, table)?)?;
        assert_eq!(rt; best.len(), *count);
        assert!(rt; are_best(&rows_of(alloc, table)?, &best));
    }
    Ok(())
}

#[test]
fn the_best_of_random_rows_are_those_that_brute_force_finds(rt: HostRuntime) -> Result<(), Fail> {
    let alloc = rt.alloc();
    for seed in 0..60 {
        let best = best_match(alloc, random_rows(alloc, seed, 4 * seed)?)?;
        assert!(rt; are_best(&random_rows(alloc, seed, 4 * seed)?, &best));
    }
    Ok(())
}

#[test]
fn a_row_of_no_variables_is_kept_once(rt: HostRuntime) -> Result<(), Fail> {
    let mut rows = FlatRows::new(rt.alloc(), 0);
    rows.push(&[])?;
    rows.push(&[])?;
    assert_eq!(rt; best_match(rt.alloc(), rows)?.len(), 1);
    Ok(())
}
