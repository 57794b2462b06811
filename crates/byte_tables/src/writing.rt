//! Writing numbers.

ghost use Rattle.std.specs.Prelude.{◌≡◌, ◌++◌, is_ok, if◌then◌else◌, OnOk};
ghost use Rattle.std.specs.Int.{w32, to_le_bytes};
ghost use Rattle.byte_tables.specs.Numbers.{number_bytes};
ghost use Rattle.byte_tables.specs.Pairs.{pair_bytes};
ghost use Rattle.byte_tables.specs.Writing.{BeginsWith};

use std::alloc::AllocError;

/// Appends the bytes of a number. `Err` only where memory runs out, and then nothing is appended.
pub fn push_number(out: &mut Vec<u8>, number: u32) -> Result<(), AllocError>
    ensures { out.new.items ≡ (if is_ok result then out.old.items ++ to_le_bytes w32 number else out.old.items) }
{
    out.extend_from_slice(&number.to_le_bytes())
}

/// Appends the bytes of a pair. `Err` only where memory runs out, and then nothing is appended.
#[tactic(auto, unfolding(crate::specs::Pairs::pair_bytes))]
pub fn push_pair(out: &mut Vec<u8>, pair: (u32, u32)) -> Result<(), AllocError>
    ensures { out.new.items ≡ (if is_ok result then out.old.items ++ pair_bytes pair else out.old.items) }
{
    let first = pair.0.to_le_bytes();
    let second = pair.1.to_le_bytes();
    out.extend_from_slice(&[
        first[0], first[1], first[2], first[3], second[0], second[1], second[2], second[3],
    ])
}

/// Appends the bytes of numbers. `Err` only where memory runs out; what was there before stays in front.
#[tactic(auto, using(crate::proofs::WritingLaws::fronts), unfolding(crate::specs::Numbers::number_bytes))]
pub fn push_numbers(out: &mut Vec<u8>, numbers: &[u32]) -> Result<(), AllocError>
    ensures written { OnOk result (out.new.items ≡ out.old.items ++ number_bytes numbers.now) }
    ensures kept { BeginsWith out.new.items out.old.items }
{
    for n in numbers {
        push_number(out, *n)?;
    }
    Ok(())
}
