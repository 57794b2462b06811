//! Numbers of four bytes, the lowest byte first.

ghost use Rattle.std.specs.Prelude.{◌≡◌, ◌+◌, ◌*◌, ◌<◌, ◌≤◌, [], ◌∷◌, ◌++◌, length, drop, IfSome, IfNone};
ghost use Rattle.std.specs.Int.{w32, to_le_bytes};
ghost use Rattle.byte_tables.specs.Numbers.{numbers_in};

use byteorder::{ByteOrder, LittleEndian};

/// The number that the first four bytes spell.
pub fn first_number(bytes: &[u8]) -> u32
    requires { 4 ≤ length bytes.now }
    ensures spelled { bytes.now ≡ to_le_bytes w32 result ++ drop 4 bytes.now }
    ensures first { numbers_in bytes.now ≡ result ∷ numbers_in (drop 4 bytes.now) }
{
    LittleEndian::read_u32(bytes)
}

/// The first number, and the bytes after it. `None` where there are fewer than four bytes.
#[tactic(auto, using(crate::proofs::NumberLaws::numbers_in_short))]
pub fn split_number(bytes: &[u8]) -> Option<(u32, &[u8])>
    ensures spelled { IfSome result (λ parts. bytes.now ≡ to_le_bytes w32 parts.0 ++ parts.1.now) }
    ensures first { IfSome result (λ parts. numbers_in bytes.now ≡ parts.0 ∷ numbers_in parts.1.now) }
    ensures short { IfNone result (length bytes.now < 4) }
    ensures none { IfNone result (numbers_in bytes.now ≡ []) }
{
    if bytes.len() < 4 {
        return None;
    }
    Some((first_number(bytes), &bytes[4..]))
}

/// The number in place `i`.
pub fn number_at(bytes: &[u8], i: usize) -> u32
    requires { 4 * i + 4 ≤ length bytes.now }
    ensures { drop i (numbers_in bytes.now) ≡ result ∷ drop (i + 1) (numbers_in bytes.now) }
{
    first_number(&bytes[4 * i..])
}
