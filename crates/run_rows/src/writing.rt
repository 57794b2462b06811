//! Writing a row.

ghost use Rattle.std.specs.Prelude.{◌≡◌, ◌+◌, ◌-◌, ◌*◌, ◌^◌, ◌<◌, ◌≤◌, ◌++◌, length, IfOk, OnOk, OnErr, is_ok, if◌then◌else◌, vec_len};
ghost use Rattle.std.specs.List.{flat_map};
ghost use Rattle.byte_tables.specs.Writing.{BeginsWith};
ghost use Rattle.run_rows.specs.Row.{IsRow};
ghost use Rattle.run_rows.specs.Runs.{runs_of};
ghost use Rattle.run_rows.specs.Encoding.{run_bytes, row_bytes, row_numbers};

use crate::form::RowForm;
use crate::run::Run;
use byte_tables::push_pair;
use std::alloc::{AllocError, Global};

/// Appends the bytes of a run.
#[tactic(auto, unfolding(crate::specs::Encoding::run_bytes))]
fn push_run(out: &mut Vec<u8>, run: Run) -> Result<(), AllocError>
    ensures { out.new.items ≡ (if is_ok result then out.old.items ++ run_bytes run else out.old.items) }
{
    push_pair(out, (run.start, run.len))
}

/// Appends the runs of the numbers, one after the other.
#[tactic(auto, using(byte_tables::proofs::WritingLaws::fronts))]
fn append_runs(numbers: &[u32], out: &mut Vec<u8>) -> Result<(), AllocError>
    requires { IsRow (2 ^ 32 - 1) numbers.now }
    ensures written { OnOk result (out.new.items ≡ out.old.items ++ flat_map run_bytes (runs_of numbers.now)) }
    ensures kept { BeginsWith out.new.items out.old.items }
{
    let mut run = Run {
        start: numbers[0],
        len: 1,
    };
    for n in &numbers[1..] {
        if u64::from(*n) == run.end() {
            run.len += 1;
        } else {
            push_run(out, run)?;
            run = Run { start: *n, len: 1 };
        }
    }
    push_run(out, run)?;
    Ok(())
}

/// How many runs the numbers have.
fn count_runs(numbers: &[u32]) -> usize
    requires { IsRow (2 ^ 32 - 1) numbers.now }
    ensures { result ≡ length (runs_of numbers.now) }
{
    let mut run = Run {
        start: numbers[0],
        len: 1,
    };
    let mut ended = 0;
    for n in &numbers[1..] {
        if run.end() == u64::from(*n) {
            run.len += 1;
        } else {
            ended += 1;
            run = Run { start: *n, len: 1 };
        }
    }
    ended + 1
}

/// How many bytes the encoding of the row of these numbers has. The numbers are as in [`encode`].
#[tactic(auto, using(crate::proofs::EncodingLaws::bytes_of_row))]
pub fn encoded_len(form: RowForm, numbers: &[u32]) -> usize
    requires { IsRow (2 ^ 32 - 1) numbers.now }
    ensures { result ≡ length (row_bytes form numbers.now) }
{
    match form {
        RowForm::V1 => 8 * count_runs(numbers),
    }
}

/// Appends the encoding of the row of these numbers, which are as in [`encode`]. `Err` only where memory runs
/// out, and then nothing is appended.
#[tactic(auto, using(crate::proofs::EncodingLaws::bytes_of_row))]
pub fn append(form: RowForm, numbers: &[u32], out: &mut Vec<u8>) -> Result<(), AllocError>
    requires { IsRow (2 ^ 32 - 1) numbers.now }
    ensures written { OnOk result (out.new.items ≡ out.old.items ++ row_bytes form numbers.now) }
    ensures unchanged { OnErr result (out.new.items ≡ out.old.items) }
{
    let before = out.len();
    let appended = match form {
        RowForm::V1 => append_runs(numbers, out),
    };
    if appended.is_err() {
        out.truncate(before);
    }
    appended
}

/// The one encoding of the row of these numbers, at most eight bytes for each of them. There is a number,
/// they ascend strictly, and none is `2 ^ 32 - 1`. `Err` only where memory runs out.
pub fn encode(alloc: Global, form: RowForm, numbers: &[u32]) -> Result<Vec<u8>, AllocError>
    requires { IsRow (2 ^ 32 - 1) numbers.now }
    ensures spelled { IfOk result (λ v. v.items ≡ row_bytes form numbers.now) }
    ensures read_back { IfOk result (λ v. row_numbers form v.items ≡ numbers.now) }
    ensures some { IfOk result (λ v. 0 < vec_len v) }
    ensures short { IfOk result (λ v. vec_len v ≤ 8 * length numbers.now) }
{
    let mut row = Vec::new(alloc);
    append(form, numbers, &mut row)?;
    Ok(row)
}
