//! How long relations take: a slice of a million pairs, two in a row, under masks that are full and masks that are
//! nearly empty. It is folded at both sides, counted, walked by the cursor, asked pair by pair and row by row, and cut.
//! What was found goes to the standard output, and the times to the standard error.
#![tactic(auto)]

ghost use Rattle.std.specs.Prelude.{◌≡◌, ◌^◌, ◌≤◌, length, IfOk};
ghost use Rattle.cube_slices.specs.Lines.{pairs_of};
ghost use Rattle.mask_pool.specs.Mask.{words_for};
ghost use Rattle.pattern_rel.specs.Folds.{CanFold, IsUsable, Keeps};

use byte_tables::{push_number, push_pair};
use cube_slices::{SliceRef, check_slice};
use mask_pool::{Mask, MaskPool};
use pattern_rel::{Bound, PatRel, Shape, Side};
use row_lanes::count;
use run_rows::RowForm;
use std::alloc::{AllocError, Global};
use std::io;
use std::rt::Clock;
use std::time::Instant;

/// Rows and columns are below twice this.
const SIDE: u32 = 1_048_576;

/// The bytes of a slice of rows of two numbers each: every row number is even.
fn short_rows(alloc: Global, rows: u32) -> Result<Vec<u8>, AllocError> {
    let mut bytes = Vec::new(alloc);
    push_number(&mut bytes, rows)?;
    for i in 0..rows {
        let end = i.wrapping_add(1).wrapping_mul(8);
        push_pair(&mut bytes, (i.wrapping_mul(2), end))?;
    }
    for i in 0..rows {
        push_pair(&mut bytes, (i.wrapping_mul(7919) % SIDE, 2))?;
    }
    Ok(bytes)
}

/// A pool with three full masks: for rows, for columns, and to fold into.
fn three_masks(alloc: Global) -> Result<(MaskPool, Mask, Mask, Mask), AllocError>
    ensures can { IfOk result (λ r. CanFold r.0 r.1 r.2 r.3) }
    ensures bits { IfOk result (λ r. (r.1.bits ≡ 2097152) × (r.2.bits ≡ 2097152) × (r.3.bits ≡ 2097152)) }
{
    let mut pool = MaskPool::with_room(alloc, 3 * 32_768)?;
    let first = pool.take(2 * SIDE);
    let second = pool.take(2 * SIDE);
    let into = pool.take(2 * SIDE);
    Ok((pool, first, second, into))
}

/// Leaves one number in every 64th word, and none in the others.
fn thin_words(words: &mut [u64]) {
    for (i, word) in words.iter_mut().enumerate() {
        *word = if i % 64 == 0 { 1 } else { 0 };
    }
}

/// The same of a mask.
#[tactic(auto, using(mask_pool::proofs::Loans::loans))]
fn thin_out(pool: &mut MaskPool, mask: Mask)
    requires { IsUsable pool.old mask }
    ensures { Keeps pool.old pool.new mask }
{
    thin_words(pool.write(mask));
}

/// Folds at both sides.
#[tactic(auto, using(pattern_rel::proofs::MaskLaws::folds))]
fn time_folds(
    rt: &(impl Clock + Print + Eprint),
    name: &str,
    rel: &PatRel<'_>,
    pool: &mut MaskPool,
    into: Mask,
) -> io::Result<()>
    requires can { CanFold pool.old rel.now.first rel.now.second into }
    requires first_room { words_for rel.now.first.bits ≤ words_for into.bits }
    requires second_room { words_for rel.now.second.bits ≤ words_for into.bits }
    ensures { CanFold pool.new rel.now.first rel.now.second into }
{
    let start = Instant::now(rt)?;
    rel.fold(pool, Side::First, into);
    let first = start.elapsed(rt)?;
    let firsts = count(pool.read(into));
    let start = Instant::now(rt)?;
    rel.fold(pool, Side::Second, into);
    let second = start.elapsed(rt)?;
    let seconds = count(pool.read(into));
    println!(rt; "{name}: folds to {firsts} rows and {seconds} columns")?;
    eprintln!(rt; "{name}: fold at First {first:?}, at Second {second:?}")
}

/// Counts, and walks all pairs left by the cursor.
#[tactic(auto, using(pattern_rel::proofs::MaskLaws::folds))]
fn time_walk(
    rt: &(impl Clock + Print + Eprint),
    name: &str,
    rel: &PatRel<'_>,
    pool: &MaskPool,
) -> io::Result<()>
    requires first { IsUsable pool.now rel.now.first }
    requires second { IsUsable pool.now rel.now.second }
    requires few { length (pairs_of rel.now.lines) ≤ 2 ^ 23 }
{
    let start = Instant::now(rt)?;
    let counted = rel.count(pool);
    let counting = start.elapsed(rt)?;
    let start = Instant::now(rt)?;
    let mut pairs = 0u32;
    let mut sum = 0u32;
    for (first, second) in rel.pairs(pool) {
        pairs = pairs.wrapping_add(1);
        sum = sum.wrapping_add(first ^ second);
    }
    let walking = start.elapsed(rt)?;
    println!(rt; "{name}: {counted} pairs counted, {pairs} walked, sum {sum}")?;
    eprintln!(rt; "{name}: count {counting:?}, the cursor over {pairs} pairs {walking:?}")
}

/// Asks pair by pair, each after the last one.
fn ask_in_order(rel: &PatRel<'_>, pool: &MaskPool, bound: Bound, times: u32) -> (u32, u32)
    requires first { IsUsable pool.now rel.now.first }
    requires second { IsUsable pool.now rel.now.second }
{
    let mut last = None;
    let mut pairs = 0u32;
    let mut sum = 0u32;
    for _ in 0..times {
        let next = rel.next(pool, bound, last);
        if let Some(pair) = next {
            pairs = pairs.wrapping_add(1);
            sum = sum.wrapping_add(pair.first ^ pair.second);
        }
        last = next;
    }
    (pairs, sum)
}

/// The row to ask for after this one, and what it is made of.
fn next_row(state: u32) -> (u32, u32) {
    let state = state.wrapping_mul(1_664_525).wrapping_add(1_013_904_223);
    (state, (state >> 12) & !1)
}

/// Asks for what is beside rows at random, by two calls of `next`.
fn ask_at_random(rel: &PatRel<'_>, pool: &MaskPool) -> u32
    requires first { IsUsable pool.now rel.now.first }
    requires second { IsUsable pool.now rel.now.second }
{
    let mut state = 1u32;
    let mut found = 0u32;
    for _ in 0..1_000_000u32 {
        let (after, row) = next_row(state);
        state = after;
        let bound = Bound {
            first: Some(row),
            second: None,
        };
        let next = rel.next(pool, bound, None);
        if rel.next(pool, bound, next).is_some() {
            found = found.wrapping_add(2);
        }
    }
    found
}

/// How many numbers are left beside a row, by the cursor.
fn count_beside(rel: &PatRel<'_>, pool: &MaskPool, row: u32) -> u32
    requires first { IsUsable pool.now rel.now.first }
    requires second { IsUsable pool.now rel.now.second }
{
    let mut found = 0u32;
    for _ in rel.beside(pool, row) {
        found = found.wrapping_add(1);
    }
    found
}

/// The same for the same rows by the cursor.
fn walk_at_random(rel: &PatRel<'_>, pool: &MaskPool) -> u32
    requires first { IsUsable pool.now rel.now.first }
    requires second { IsUsable pool.now rel.now.second }
{
    let mut state = 1u32;
    let mut found = 0u32;
    for _ in 0..1_000_000u32 {
        let (after, row) = next_row(state);
        state = after;
        found = found.wrapping_add(count_beside(&*rel, &*pool, row));
    }
    found
}

/// Asks in order and at random.
fn time_asking(
    rt: &(impl Clock + Print + Eprint),
    name: &str,
    rel: &PatRel<'_>,
    pool: &MaskPool,
) -> io::Result<()>
    requires first { IsUsable pool.now rel.now.first }
    requires second { IsUsable pool.now rel.now.second }
{
    let bound = Bound {
        first: None,
        second: None,
    };
    let start = Instant::now(rt)?;
    let (pairs, sum) = ask_in_order(rel, pool, bound, 1_000_000);
    let in_order = start.elapsed(rt)?;
    let start = Instant::now(rt)?;
    let found = ask_at_random(rel, pool);
    let at_random = start.elapsed(rt)?;
    let start = Instant::now(rt)?;
    let walked = walk_at_random(rel, pool);
    let by_cursor = start.elapsed(rt)?;
    println!(rt; "{name}: {pairs} pairs in order, sum {sum}; at random {found} and {walked}")?;
    eprintln!(rt;
        "{name}: a million calls of next in order {in_order:?}; a million rows at random: by two calls of next {at_random:?}, by the cursor {by_cursor:?}"
    )
}

/// Cuts at both sides by a mask.
#[tactic(auto, using(pattern_rel::proofs::MaskLaws::folds))]
fn time_unfold(
    rt: &(impl Clock + Eprint),
    rel: &PatRel<'_>,
    pool: &mut MaskPool,
    by: Mask,
) -> io::Result<()>
    requires { CanFold pool.old rel.now.first rel.now.second by }
    ensures { CanFold pool.new rel.now.first rel.now.second by }
{
    let start = Instant::now(rt)?;
    rel.unfold(pool, Side::First, by, None);
    rel.unfold(pool, Side::Second, by, Some(SIDE));
    let taken = start.elapsed(rt)?;
    eprintln!(rt; "unfold at both sides {taken:?}")
}

/// All of it, under full masks, then under a nearly empty mask of rows, then after both sides were cut.
#[tactic(auto, using(pattern_rel::proofs::MaskLaws::folds))]
fn time_relation(
    rt: &(impl Clock + Print + Eprint),
    alloc: Global,
    slice: &SliceRef<'_>,
) -> io::Result<()>
    requires { length (pairs_of slice.now) ≤ 2 ^ 23 }
{
    let (mut pool, first, second, into) = three_masks(alloc)?;
    let shape = Shape::Pairs {
        rows: slice.again(),
        columns: None,
    };
    let rel = PatRel::new(shape, first, second);
    time_folds(rt, "full masks", &rel, &mut pool, into)?;
    time_walk(rt, "full masks", &rel, &pool)?;
    time_asking(rt, "full masks", &rel, &pool)?;
    thin_out(&mut pool, first);
    time_folds(rt, "few rows", &rel, &mut pool, into)?;
    time_walk(rt, "few rows", &rel, &pool)?;
    time_unfold(rt, &rel, &mut pool, into)?;
    time_walk(rt, "cut", &rel, &pool)
}

fn main(rt: HostRuntime) -> io::Result<()> {
    let alloc = rt.alloc();
    let bytes = short_rows(alloc, 500_000)?;
    let Some(slice) = check_slice(RowForm::V1, &bytes, 2 * SIDE, 2 * SIDE) else {
        return println!(rt; "no slice");
    };
    if slice.pairs() > 8_388_608 {
        return println!(rt; "too many pairs");
    }
    time_relation(&rt, alloc, &slice)
}
