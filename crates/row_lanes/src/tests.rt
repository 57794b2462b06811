ghost use Rattle.std.specs.Prelude.{◌<◌, ◌≤◌};

use super::*;
use run_rows::{RowForm, RowRef, check, encode};
use std::process::Abort;
use std::test::Fail;

/// The numbers 0, 2, 63, 64 and 127.
const MASK: [u64; 2] = [1 << 63 | 5, 1 << 63 | 1];

#[test]
fn reads_a_mask(rt: HostRuntime) {
    assert_eq!(rt; count(&MASK), 5);
    assert!(rt; any(&MASK));
    assert!(rt; !any(&[0, 0]));
    for (n, least) in [
        (0, Some(0)),
        (1, Some(2)),
        (3, Some(63)),
        (64, Some(64)),
        (65, Some(127)),
        (128, None),
    ] {
        assert_eq!(rt; first_at_least(&MASK, n), least);
    }
}

#[test]
fn adds_a_row(rt: HostRuntime) -> Result<(), Fail> {
    let bytes = encode(rt.alloc(), RowForm::V1, &[0, 2, 63, 64])?;
    let row = check(RowForm::V1, &bytes, 128).ok_or("a row")?;
    let mut mask = [4, 1 << 63];
    or_row(&mut mask, &row);
    assert_eq!(rt; mask.as_slice(), MASK.as_slice());
    Ok(())
}

#[test]
fn clears_a_mask(rt: HostRuntime) {
    for (n, first, second) in [
        (0, 0, 0),
        (2, 1, 0),
        (63, 5, 0),
        (64, 1 << 63 | 5, 0),
        (65, 1 << 63 | 5, 1),
        (128, 1 << 63 | 5, 1 << 63 | 1),
    ] {
        let mut mask = MASK;
        clear_from(&mut mask, n);
        assert_eq!(rt; mask.as_slice(), [first, second].as_slice());
    }
}

/// The word in place `i` of a mask: no number, all, some, or one in each seventh word.
fn word(kind: u32, i: usize) -> u64 {
    match kind {
        0 => 0,
        1 => u64::MAX,
        2 => (i as u64)
            .wrapping_add(1)
            .wrapping_mul(0x9e37_79b9_7f4a_7c15),
        _ if i % 7 == 3 => 1 << (i % 64),
        _ => 0,
    }
}

fn words(kind: u32) -> [u64; 70] {
    let mut mask = [0; 70];
    for i in 0..70 {
        mask[i] = word(kind, i);
    }
    mask
}

fn and_agrees(rt: &impl Abort, kinds: (u32, u32), len: usize, other_len: usize)
    requires len_fits { len ≤ 70 }
    requires other_fits { other_len ≤ 70 }
{
    let mut into = words(kinds.0);
    and_into(&mut into[..len], &words(kinds.1)[..other_len]);
    for i in 0..70 {
        let other = if i < other_len { word(kinds.1, i) } else { 0 };
        let expected = if i < len {
            word(kinds.0, i) & other
        } else {
            word(kinds.0, i)
        };
        assert_eq!(rt; into[i], expected);
    }
}

/// Masks of 0 to 70 words, each with each.
#[test]
fn and_agrees_at_each_length(rt: HostRuntime) {
    for first in 0..4u32 {
        for second in 1..4u32 {
            for len in 0..71 {
                for other_len in 0..71 {
                    and_agrees(&rt, (first, second), len, other_len);
                }
            }
        }
    }
}

fn plain_count(mask: &[u64]) -> u64 {
    let mut found = 0u64;
    for word in mask {
        for bit in 0..64u32 {
            found = found.wrapping_add(word >> bit & 1);
        }
    }
    found
}

#[test]
fn counts_at_each_length(rt: HostRuntime) {
    for kind in 0..4u32 {
        let mask = words(kind);
        for len in 0..71 {
            let found = plain_count(&mask[..len]);
            assert_eq!(rt; u64::from(count(&mask[..len])), found);
            assert_eq!(rt; any(&mask[..len]), found != 0);
        }
    }
}

fn plain_first(mask: &[u64], n: u32) -> Option<u32> {
    for m in n..4480 {
        let Some(word) = mask.get(m as usize / 64) else {
            return None;
        };
        if word >> (m % 64) & 1 == 1 {
            return Some(m);
        }
    }
    None
}

fn search_agrees(rt: &impl Abort, kind: u32, len: usize)
    requires { len ≤ 70 }
{
    let mask = words(kind);
    for place in 0..71u32 {
        for bit in [0, 1, 33, 63] {
            let n = 64 * place + bit;
            let least = plain_first(&mask[..len], n);
            assert_eq!(rt; first_at_least(&mask[..len], n), least);
        }
    }
}

#[test]
fn searches_at_each_length(rt: HostRuntime) {
    for kind in 1..4u32 {
        for len in 0..71 {
            search_agrees(&rt, kind, len);
        }
    }
}

fn finds_one_word(rt: &impl Abort, place: usize, len: usize)
    requires place_fits { place < 70 }
    requires len_fits { len ≤ 70 }
{
    let mut mask = [0; 70];
    mask[place] = 1 << 40;
    let found = if place < len {
        Some(64 * place as u32 + 40)
    } else {
        None
    };
    assert_eq!(rt; any(&mask[..len]), place < len);
    assert_eq!(rt; first_at_least(&mask[..len], 0), found);
}

#[test]
fn finds_a_word_at_each_place(rt: HostRuntime) {
    for place in 0..70 {
        for len in 0..71 {
            finds_one_word(&rt, place, len);
        }
    }
}

fn clear_agrees(rt: &impl Abort, kind: u32, len: usize, n: u32)
    requires { len ≤ 70 }
{
    let mut mask = words(kind);
    clear_from(&mut mask[..len], n);
    for i in 0..70 {
        let kept = n.saturating_sub(64 * i as u32).min(64);
        let expected = if i >= len || kept == 64 {
            word(kind, i)
        } else {
            word(kind, i) & ((1 << kept) - 1)
        };
        assert_eq!(rt; mask[i], expected);
    }
}

#[test]
fn clears_at_each_length(rt: HostRuntime) {
    for kind in 1..4u32 {
        for len in 0..71 {
            for place in 0..71u32 {
                for bit in [0, 1, 33, 63] {
                    clear_agrees(&rt, kind, len, 64 * place + bit);
                }
            }
        }
    }
}

/// Runs that begin and end at each place of two words, and behind them.
#[test]
fn adds_and_asks_by_runs(rt: HostRuntime) -> Result<(), Fail> {
    for start in 0..130u32 {
        for len in 1..70u32 {
            let mut bytes = [0u8; 8];
            bytes[..4].copy_from_slice(&start.to_le_bytes());
            bytes[4..].copy_from_slice(&len.to_le_bytes());
            let row = check(RowForm::V1, &bytes, 200).ok_or("a row")?;
            run_agrees(&rt, &row, start, len);
        }
    }
    Ok(())
}

fn run_agrees(rt: &impl Abort, row: &RowRef<'_>, start: u32, len: u32) {
    let mut mask = [0; 2];
    add_row(&mut mask, row);
    for n in 0..130u32 {
        let within = n < 128 && n >= start && n - start < len;
        assert_eq!(rt; has(&mask, n), within);
        let mut one = [0; 2];
        add(&mut one, n);
        assert_eq!(rt; meets_row(&one, row), within);
    }
}
