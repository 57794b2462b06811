ghost use Rattle.std.specs.Prelude.{◌≡◌, ◌≤◌, ◌^◌, IfOk};
ghost use Rattle.mask_pool.specs.Mask.{words_for};
ghost use Rattle.pattern_rel.specs.Shapes.{KnowsColumns};
ghost use Rattle.pattern_rel.specs.Folds.{CanFold, IsUsable, Keeps};

use super::*;
use cube_slices::{SliceRef, check_slice, encode_slice};
use mask_pool::{Mask, MaskPool};
use run_rows::RowForm;
use std::alloc::{AllocError, Global};
use std::process::Abort;
use std::test::Fail;

/// A pool with three masks of so many bits, and nothing else.
fn three_masks(alloc: Global, bits: u32) -> Result<(MaskPool, Mask, Mask, Mask), AllocError>
    requires { bits ≤ 2 ^ 16 }
    ensures can { IfOk result (λ r. CanFold r.0 r.1 r.2 r.3) }
    ensures bits { IfOk result (λ r. (r.1.bits ≡ bits) × (r.2.bits ≡ bits) × (r.3.bits ≡ bits)) }
{
    let mut pool = MaskPool::with_room(alloc, 3 * bits.div_ceil(64))?;
    let first = pool.take(bits);
    let second = pool.take(bits);
    let third = pool.take(bits);
    Ok((pool, first, second, third))
}

/// Makes the first word this one.
fn put_word(words: &mut [u64], word: u64) {
    if let Some(first) = words.first_mut() {
        *first = word;
    }
}

/// Makes the first word of a mask this one.
#[tactic(auto, using(mask_pool::proofs::Loans::loans))]
fn put(pool: &mut MaskPool, mask: Mask, word: u64)
    requires { IsUsable pool.old mask }
    ensures { Keeps pool.old pool.new mask }
{
    put_word(pool.write(mask), word);
}

/// The first word.
fn word_of(words: &[u64]) -> u64 {
    words.first().copied().unwrap_or(0)
}

/// The rows of the worked table: the pairs (0, 1) and (1, 0), with two full masks of 2 bits.
#[test]
#[tactic(auto, using(crate::proofs::MaskLaws::folds))]
fn the_worked_relation(rt: HostRuntime) -> Result<(), Fail> {
    let mut bytes = Vec::new(rt.alloc());
    encode_slice(rt.alloc(), RowForm::V1, &[(0, 1), (1, 0)], &mut bytes)?;
    let slice = check_slice(RowForm::V1, &bytes, 2, 2).ok_or("a slice")?;
    if slice.pairs() > 2 {
        return Ok(());
    }
    let (mut pool, first, second, third) = three_masks(rt.alloc(), 2)?;
    let shape = Shape::Pairs {
        rows: slice,
        columns: None,
    };
    let rel = PatRel::new(shape, first, second);
    assert_eq!(rt; rel.count(&pool), 2);
    rel.unfold(&mut pool, Side::First, third, Some(1));
    assert_eq!(rt; rel.count(&pool), 1);
    rel.fold(&mut pool, Side::Second, third);
    assert_eq!(rt; word_of(pool.read(third)), 2);
    let bound = Bound {
        first: None,
        second: Some(1),
    };
    let pair = Pair {
        first: 0,
        second: 1,
    };
    assert_eq!(rt; rel.next(&pool, bound, None), Some(pair));
    assert_eq!(rt; rel.next(&pool, bound, Some(pair)), None);
    Ok(())
}

/// The last row of the table: of the same pairs those are kept that begin with 1.
#[test]
#[tactic(auto, using(crate::proofs::MaskLaws::folds))]
fn the_worked_relation_from_one(rt: HostRuntime) -> Result<(), Fail> {
    let mut bytes = Vec::new(rt.alloc());
    encode_slice(rt.alloc(), RowForm::V1, &[(0, 1), (1, 0)], &mut bytes)?;
    let slice = check_slice(RowForm::V1, &bytes, 2, 2).ok_or("a slice")?;
    let (mut pool, first, second, third) = three_masks(rt.alloc(), 2)?;
    let shape = Shape::Pairs {
        rows: slice,
        columns: None,
    };
    let rel = PatRel::new(shape, first, second);
    put(&mut pool, third, 2);
    rel.unfold(&mut pool, Side::First, third, None);
    let bound = Bound {
        first: None,
        second: None,
    };
    let pair = Pair {
        first: 1,
        second: 0,
    };
    assert_eq!(rt; rel.next(&pool, bound, None), Some(pair));
    Ok(())
}

/// Whether a matrix of four by four bits has the pair.
fn has_pair(matrix: u32, n: u32, c: u32) -> bool {
    (matrix >> (n.wrapping_mul(4).wrapping_add(c) % 16)) % 2 == 1
}

/// Whether the shape of this kind over the matrix has the pair: all pairs, the column 1, or the diagonal below 2.
fn shape_has(kind: u32, matrix: u32, n: u32, c: u32) -> bool {
    match kind {
        0 => has_pair(matrix, n, c),
        1 => c == 0 && has_pair(matrix, n, 1),
        _ => n == c && n < 2 && has_pair(matrix, n, n),
    }
}

/// The pairs left, as a matrix, under masks of four bits.
fn left_of(kind: u32, matrix: u32, first: u64, second: u64) -> u32 {
    let mut left = 0;
    for i in 0..16u32 {
        let (n, c) = (i / 4, i % 4);
        let kept = (first >> n) % 2 == 1 && (second >> c) % 2 == 1;
        if kept && shape_has(kind, matrix, n, c) {
            left |= 1 << i;
        }
    }
    left
}

/// The first pair of a matrix from a place on that has what is bound.
fn find_from(left: u32, from: u32, bound: Bound) -> Option<Pair> {
    for i in from..16u32 {
        let pair = Pair {
            first: i / 4,
            second: i % 4,
        };
        let asked = bound.first.is_none_or(|n| n == pair.first)
            && bound.second.is_none_or(|c| c == pair.second);
        if asked && has_pair(left, pair.first, pair.second) {
            return Some(pair);
        }
    }
    None
}

/// A number or none, for 0 to 4.
fn option_of(i: u32) -> Option<u32> {
    i.checked_sub(1)
}

/// `next` for each bound and after each pair.
fn asks(rt: &impl Abort, rel: &PatRel<'_>, pool: &MaskPool, left: u32)
    requires first { IsUsable pool.now rel.now.first }
    requires second { IsUsable pool.now rel.now.second }
{
    for i in 0..25u32 {
        let bound = Bound {
            first: option_of(i / 5),
            second: option_of(i % 5),
        };
        assert_eq!(rt; rel.next(pool, bound, None), find_from(left, 0, bound));
        for j in 0..16u32 {
            let last = Pair {
                first: j / 4,
                second: j % 4,
            };
            let next = rel.next(pool, bound, Some(last));
            assert_eq!(rt; next, find_from(left, j + 1, bound), "of {left}");
        }
    }
}

/// The pairs that the cursor gives, as a matrix.
fn walk(rel: &PatRel<'_>, pool: &MaskPool) -> u32
    requires first { IsUsable pool.now rel.now.first }
    requires second { IsUsable pool.now rel.now.second }
{
    let mut walked = 0u32;
    for (n, c) in rel.pairs(pool) {
        walked |= 1 << (n.wrapping_mul(4).wrapping_add(c) % 16);
    }
    walked
}

/// Both folds, and the cursor.
#[tactic(auto, using(crate::proofs::MaskLaws::folds))]
fn folds(rt: &impl Abort, rel: &PatRel<'_>, pool: &mut MaskPool, into: Mask, left: u32)
    requires can { CanFold pool.old rel.now.first rel.now.second into }
    requires first_room { words_for rel.now.first.bits ≤ words_for into.bits }
    requires second_room { words_for rel.now.second.bits ≤ words_for into.bits }
{
    let walked = walk(rel, &*pool);
    assert_eq!(rt; walked, left);
    let mut firsts = 0u64;
    let mut seconds = 0u64;
    for i in 0..16u32 {
        if has_pair(left, i / 4, i % 4) {
            firsts |= 1 << (i / 4);
            seconds |= 1 << (i % 4);
        }
    }
    rel.fold(pool, Side::First, into);
    assert_eq!(rt; word_of(pool.read(into)), firsts);
    rel.fold(pool, Side::Second, into);
    assert_eq!(rt; word_of(pool.read(into)), seconds);
}

/// The shape of this kind over a slice.
fn shape_of<'a>(kind: u32, slice: &SliceRef<'a>) -> Shape<'a>
    ensures { KnowsColumns result }
{
    let slice = slice.again();
    match kind {
        0 => Shape::Pairs {
            rows: slice,
            columns: None,
        },
        1 => Shape::Column { slice, column: 1 },
        _ => Shape::Diagonal { slice, shared: 2 },
    }
}

/// One relation against its matrix.
#[tactic(auto, using(crate::proofs::MaskLaws::folds))]
fn agrees(
    rt: &impl Abort,
    alloc: Global,
    slice: &SliceRef<'_>,
    kind: u32,
    matrix: u32,
    masks: (u64, u64),
) -> Result<(), AllocError> {
    let (mut pool, first, second, into) = three_masks(alloc, 4)?;
    put(&mut pool, first, masks.0);
    put(&mut pool, second, masks.1);
    let rel = PatRel::new(shape_of(kind, slice), first, second);
    let left = left_of(kind, matrix, masks.0, masks.1);
    asks(rt, &rel, &pool, left);
    folds(rt, &rel, &mut pool, into, left);
    Ok(())
}

/// How many columns from `c` on are next to one another in a row of the matrix.
fn run_len(matrix: u32, n: u32, c: u32) -> u32 {
    let mut len = 0u32;
    let mut open = true;
    for d in c..4 {
        open = open && has_pair(matrix, n, d);
        if open {
            len = len.wrapping_add(1);
        }
    }
    len
}

/// The bytes of the slice of a matrix.
fn bytes_of(alloc: Global, matrix: u32) -> Result<Vec<u8>, AllocError> {
    let mut count = 0u32;
    let mut entries = Vec::new(alloc);
    let mut runs = Vec::new(alloc);
    let mut end = 0u32;
    for n in 0..4u32 {
        let before = end;
        for c in 0..4u32 {
            let len = run_len(matrix, n, c);
            if len > 0 && (c == 0 || !has_pair(matrix, n, c.wrapping_sub(1))) {
                runs.extend_from_slice(&c.to_le_bytes())?;
                runs.extend_from_slice(&len.to_le_bytes())?;
                end = end.wrapping_add(8);
            }
        }
        if end > before {
            count = count.wrapping_add(1);
            entries.extend_from_slice(&n.to_le_bytes())?;
            entries.extend_from_slice(&end.to_le_bytes())?;
        }
    }
    let mut bytes = Vec::new(alloc);
    bytes.extend_from_slice(&count.to_le_bytes())?;
    bytes.extend_from_slice(&entries)?;
    bytes.extend_from_slice(&runs)?;
    Ok(bytes)
}

/// Relations over random small slices, against their pairs computed plainly.
#[test]
fn small_relations_have_their_pairs(rt: HostRuntime) -> Result<(), Fail> {
    let mut state = 1u32;
    for turn in 0..60u32 {
        state = state.wrapping_mul(1_664_525).wrapping_add(1_013_904_223);
        let matrix = (state >> 8) % 65_536;
        let bytes = bytes_of(rt.alloc(), matrix)?;
        let slice = check_slice(RowForm::V1, &bytes, 4, 4).ok_or("a slice")?;
        let masks = (u64::from(state % 16), u64::from(state / 16 % 16));
        agrees(&rt, rt.alloc(), &slice, turn % 3, matrix, masks)?;
        agrees(&rt, rt.alloc(), &slice, turn % 3, matrix, (15, 15))?;
    }
    Ok(())
}
