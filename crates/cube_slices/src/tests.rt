use super::*;
use run_rows::RowForm;
use std::process::Abort;
use std::test::Fail;

/// Two rows of one column each, (0, 1) and (1, 0): the slice of the one predicate of a graph of two triples.
const SLICE: [u8; 36] = [
    2, 0, 0, 0, 0, 0, 0, 0, 8, 0, 0, 0, 1, 0, 0, 0, 16, 0, 0, 0, 1, 0, 0, 0, 1, 0, 0, 0, 0, 0, 0,
    0, 1, 0, 0, 0,
];
/// The one pair (0, 1).
const ONE: [u8; 20] = [1, 0, 0, 0, 0, 0, 0, 0, 8, 0, 0, 0, 1, 0, 0, 0, 1, 0, 0, 0];

#[test]
fn writes_slices(rt: HostRuntime) -> Result<(), Fail> {
    let mut bytes = vec![in rt.alloc(); 7]?;
    encode_slice(rt.alloc(), RowForm::V1, &[(0, 1), (1, 0)], &mut bytes)?;
    assert_eq!(rt; &bytes[1..], SLICE.as_slice());
    let mut columns = Vec::new(rt.alloc());
    append_slice(RowForm::V1, &[(0, 1)], &mut columns, &mut bytes)?;
    assert_eq!(rt; bytes.len(), 57);
    assert_eq!(rt; &bytes[37..], ONE.as_slice());
    Ok(())
}

#[test]
fn reads_a_slice(rt: HostRuntime) -> Result<(), Fail> {
    assert!(rt; check_slice(RowForm::V1, &SLICE, 1, 2).is_none());
    assert!(rt; check_slice(RowForm::V1, &SLICE, 2, 1).is_none());
    let slice = check_slice(RowForm::V1, &SLICE, 2, 2).ok_or("a slice")?;
    assert_eq!(rt; slice.rows(), 2);
    assert_eq!(rt; slice.pairs(), 2);
    for n in 0..3u32 {
        let found = slice.row(n).map(|row| row.at_least(0));
        let expected = if n < 2 { Some(Some(1 - n)) } else { None };
        assert_eq!(rt; found, expected, "row {n}");
        let (place, row) = slice.again().row_from(0, n);
        assert_eq!(rt; row.is_some(), n < 2);
        assert_eq!(rt; place, n);
    }
    Ok(())
}

#[test]
fn folds_a_slice(rt: HostRuntime) -> Result<(), Fail> {
    let slice = check_slice(RowForm::V1, &SLICE, 2, 2).ok_or("a slice")?;
    for (keep, folded) in [(0, 0), (1, 2), (2, 1), (3, 3)] {
        let mut rows = [7];
        slice.fold_rows(&[keep], &mut rows);
        assert_eq!(rt; rows[0], folded);
        let mut columns = [7];
        slice.fold_columns(&[keep], &mut columns);
        assert_eq!(rt; columns[0], folded);
    }
    Ok(())
}

fn is_run(start: u32, len: u32) -> bool {
    len > 0 && start <= 2 && len <= 2 - start
}

/// The numbers in bytes, cut after so many of them.
fn agrees(rt: &impl Abort, numbers: &[u32; 9], count: usize, cut: usize, plain: bool) {
    let mut bytes = [0u8; 36];
    for i in 0..9usize {
        bytes[4 * i..4 * i + 4].copy_from_slice(&numbers[i].to_le_bytes());
    }
    let len = (4 * count.min(9)).saturating_sub(cut);
    let read = check_slice(RowForm::V1, &bytes[..len], 2, 2).is_some();
    assert_eq!(rt; read, plain && cut == 0, "of {numbers:?}");
}

/// All strings of five numbers of a small alphabet, and what is left of them where a byte or a number is cut off.
#[test]
fn agrees_on_strings_of_five_numbers(rt: HostRuntime) {
    let alphabet = [0u32, 1, 2, 8];
    for m in alphabet {
        for row in alphabet {
            for end in alphabet {
                for start in alphabet {
                    for len in alphabet {
                        let numbers = [m, row, end, start, len, 0, 0, 0, 0];
                        let plain = m == 1 && row < 2 && end == 8 && is_run(start, len);
                        for cut in [0, 1, 4, 20] {
                            agrees(&rt, &numbers, 5, cut, plain);
                        }
                    }
                }
            }
        }
    }
}

fn agrees_on_two_rows(rt: &impl Abort, rows: (u32, u32), ends: (u32, u32)) {
    for a in 0..3u32 {
        for b in 0..3u32 {
            for c in 0..3u32 {
                for d in 0..3u32 {
                    let numbers = [2, rows.0, ends.0, rows.1, ends.1, a, b, c, d];
                    let plain = rows == (0, 1) && ends == (8, 16) && is_run(a, b) && is_run(c, d);
                    agrees(rt, &numbers, 9, 0, plain);
                }
            }
        }
    }
}

/// Strings of nine numbers that begin with 2: of two rows, in and out of order, with ends in and out of place.
#[test]
fn agrees_on_strings_of_two_rows(rt: HostRuntime) {
    for first in 0..3u32 {
        for second in 0..3u32 {
            for end in [0, 8, 16] {
                for last in [8, 16, 24] {
                    agrees_on_two_rows(&rt, (first, second), (end, last));
                }
            }
        }
    }
}
