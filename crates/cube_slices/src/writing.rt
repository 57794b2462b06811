//! Writing a slice.

ghost use Rattle.std.specs.Prelude.{◌≡◌, ℕ, ◌+◌, ◌-◌, ◌^◌, ◌<◌, ◌≤◌, ◌∷◌, ◌++◌, length, IfOk, OnOk, OnErr};
ghost use Rattle.std.specs.List.{flat_map};
ghost use Rattle.byte_tables.specs.Pairs.{pair_bytes};
ghost use Rattle.byte_tables.specs.Writing.{BeginsWith};
ghost use Rattle.run_rows.specs.Row.{IsRow};
ghost use Rattle.run_rows.specs.Encoding.{row_bytes};
ghost use Rattle.cube_slices.specs.Lines.{pairs_of};
ghost use Rattle.cube_slices.specs.Pairs.{ArePairs, lines_of};
ghost use Rattle.cube_slices.specs.Slices.{bytes_of_lines, entries_of, slice_bytes, EncodesLines};
ghost use Rattle.cube_slices.specs.steps.Writing.{line_length, columns_of};

use byte_tables::{push_number, push_pair};
use run_rows::{RowForm, append, encoded_len};
use std::alloc::{AllocError, Global};

/// How many pairs of the row stand in front.
fn front_len(row: u32, pairs: &[(u32, u32)]) -> usize
    ensures { result ≡ line_length row pairs.now }
{
    for (i, pair) in pairs.iter().enumerate() {
        if pair.0 != row {
            return i;
        }
    }
    pairs.len()
}

/// The first row's number, its pairs, and the pairs of the rows behind it.
fn split_row(pairs: &[(u32, u32)]) -> (u32, &[(u32, u32)], &[(u32, u32)])
    requires { 0 < length pairs.now }
    ensures line { lines_of pairs.now ≡ record { row = result.0; columns = columns_of result.1.now } ∷ lines_of result.2.now }
    ensures fewer { length result.2.now < length pairs.now }
{
    let row = pairs[0].0;
    let (front, rest) = pairs.split_at(front_len(row, pairs));
    (row, front, rest)
}

/// How many rows the pairs have.
fn count_rows(pairs: &[(u32, u32)]) -> u32
    requires { length pairs.now ≤ 2 ^ 23 }
    ensures { result ≡ length (lines_of pairs.now) }
{
    let mut rest = pairs;
    let mut rows = 0;
    while !rest.is_empty() {
        let (_, _, behind) = split_row(rest);
        rows += 1;
        rest = behind;
    }
    rows
}

/// Makes `columns` the columns of the pairs.
fn fill_columns(pairs: &[(u32, u32)], columns: &mut Vec<u32>) -> Result<(), AllocError>
    ensures { OnOk result (columns.new.items ≡ columns_of pairs.now) }
{
    columns.clear();
    for pair in pairs {
        columns.push(pair.1)?;
    }
    Ok(())
}

/// Appends the entry of a row whose bytes begin at `from`, and gives where they end.
#[tactic(auto, using(byte_tables::proofs::WritingLaws::fronts))]
fn push_entry(
    form: RowForm,
    from: u32,
    row: u32,
    columns: &[u32],
    out: &mut Vec<u8>,
) -> Result<u32, AllocError>
    requires row { IsRow (2 ^ 32 - 1) columns.now }
    requires fits { from + length (row_bytes form columns.now) < 2 ^ 32 }
    ensures end { IfOk result (λ end. end ≡ from + length (row_bytes form columns.now)) }
    ensures written { IfOk result (λ end. out.new.items ≡ out.old.items ++ pair_bytes (row, end)) }
    ensures kept { BeginsWith out.new.items out.old.items }
{
    let end = from + encoded_len(form, columns) as u32;
    push_pair(out, (row, end))?;
    Ok(end)
}

/// Appends the entries of all rows.
#[tactic(auto, using(byte_tables::proofs::WritingLaws::fronts))]
fn push_entries(
    form: RowForm,
    pairs: &[(u32, u32)],
    columns: &mut Vec<u32>,
    out: &mut Vec<u8>,
) -> Result<(), AllocError>
    requires pairs { ArePairs (2 ^ 32 - 1) (2 ^ 32 - 1) pairs.now }
    requires few { length pairs.now ≤ 2 ^ 23 }
    ensures written { OnOk result (out.new.items ≡ out.old.items ++ flat_map pair_bytes (entries_of form 0 (lines_of pairs.now))) }
    ensures kept { BeginsWith out.new.items out.old.items }
{
    let mut rest = pairs;
    let mut end = 0;
    while !rest.is_empty() {
        let (row, front, behind) = split_row(rest);
        fill_columns(front, columns)?;
        end = push_entry(form, end, row, columns, out)?;
        rest = behind;
    }
    Ok(())
}

/// Appends the bytes of all rows.
#[tactic(auto, using(byte_tables::proofs::WritingLaws::fronts))]
fn push_rows(
    form: RowForm,
    pairs: &[(u32, u32)],
    columns: &mut Vec<u32>,
    out: &mut Vec<u8>,
) -> Result<(), AllocError>
    requires pairs { ArePairs (2 ^ 32 - 1) (2 ^ 32 - 1) pairs.now }
    ensures written { OnOk result (out.new.items ≡ out.old.items ++ bytes_of_lines form (lines_of pairs.now)) }
    ensures kept { BeginsWith out.new.items out.old.items }
{
    let mut rest = pairs;
    while !rest.is_empty() {
        let (_, front, behind) = split_row(rest);
        fill_columns(front, columns)?;
        append(form, columns, out)?;
        rest = behind;
    }
    Ok(())
}

/// Appends the parts of a slice, one after the other.
#[tactic(auto, using(byte_tables::proofs::WritingLaws::fronts), unfolding(crate::specs::Slices::slice_bytes))]
fn push_slice(
    form: RowForm,
    pairs: &[(u32, u32)],
    columns: &mut Vec<u32>,
    out: &mut Vec<u8>,
) -> Result<(), AllocError>
    requires pairs { ArePairs (2 ^ 32 - 1) (2 ^ 32 - 1) pairs.now }
    requires few { length pairs.now ≤ 2 ^ 23 }
    ensures written { OnOk result (out.new.items ≡ out.old.items ++ slice_bytes form (lines_of pairs.now)) }
    ensures kept { BeginsWith out.new.items out.old.items }
{
    push_number(out, count_rows(pairs))?;
    push_entries(form, pairs, columns, out)?;
    push_rows(form, pairs, columns, out)?;
    Ok(())
}

/// Appends the slice of the pairs, which are as in [`encode_slice`]. `columns` is room for the columns of one
/// row: whatever is in it is lost, and it is there to be used again for the next slice. `Err` only where
/// memory runs out, and then nothing is appended.
#[tactic(auto, using(crate::proofs::WritingLaws::slices_of_pairs))]
pub fn append_slice(
    form: RowForm,
    pairs: &[(u32, u32)],
    columns: &mut Vec<u32>,
    out: &mut Vec<u8>,
) -> Result<(), AllocError>
    requires pairs { ArePairs (2 ^ 32 - 1) (2 ^ 32 - 1) pairs.now }
    requires few { length pairs.now ≤ 2 ^ 23 }
    ensures written { OnOk result (out.new.items ≡ out.old.items ++ slice_bytes form (lines_of pairs.now)) }
    ensures unchanged { OnErr result (out.new.items ≡ out.old.items) }
    ensures slice { EncodesLines form (2 ^ 32 - 1) (2 ^ 32 - 1) (slice_bytes form (lines_of pairs.now)) (lines_of pairs.now) }
    ensures all_pairs { pairs_of (lines_of pairs.now) ≡ pairs.now }
{
    let before = out.len();
    let appended = push_slice(form, pairs, columns, out);
    if appended.is_err() {
        out.truncate(before);
    }
    appended
}

/// Appends the one slice of these pairs: between 1 and `2 ^ 23`, each a row and a column, in strictly
/// ascending order, and no number is `2 ^ 32 - 1`. `Err` only where memory runs out, and then nothing is
/// appended.
#[tactic(auto, using(crate::proofs::WritingLaws::slices_of_pairs))]
pub fn encode_slice(
    alloc: Global,
    form: RowForm,
    pairs: &[(u32, u32)],
    out: &mut Vec<u8>,
) -> Result<(), AllocError>
    requires pairs { ArePairs (2 ^ 32 - 1) (2 ^ 32 - 1) pairs.now }
    requires few { length pairs.now ≤ 2 ^ 23 }
    ensures written { OnOk result (out.new.items ≡ out.old.items ++ slice_bytes form (lines_of pairs.now)) }
    ensures unchanged { OnErr result (out.new.items ≡ out.old.items) }
    ensures slice { EncodesLines form (2 ^ 32 - 1) (2 ^ 32 - 1) (slice_bytes form (lines_of pairs.now)) (lines_of pairs.now) }
    ensures all_pairs { pairs_of (lines_of pairs.now) ≡ pairs.now }
{
    let mut columns = Vec::new(alloc);
    append_slice(form, pairs, &mut columns, out)
}
