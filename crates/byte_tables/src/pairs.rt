//! Pairs of numbers, eight bytes each.

ghost use Rattle.std.specs.Prelude.{◌≡◌, ℕ, ◌+◌, ◌*◌, ◌<◌, ◌≤◌, [], ◌∷◌, ◌++◌, length, drop, IfSome, IfNone};
ghost use Rattle.byte_tables.specs.Pairs.{pair_bytes, pairs_in};

use byteorder::{ByteOrder, LittleEndian};

/// The pair that the first eight bytes spell.
pub fn first_pair(bytes: &[u8]) -> (u32, u32)
    requires { 8 ≤ length bytes.now }
    ensures spelled { bytes.now ≡ pair_bytes result ++ drop 8 bytes.now }
    ensures first { pairs_in bytes.now ≡ result ∷ pairs_in (drop 8 bytes.now) }
{
    (
        LittleEndian::read_u32(bytes),
        LittleEndian::read_u32(&bytes[4..]),
    )
}

/// The first pair, and the bytes after it. `None` where there are fewer than eight bytes.
#[tactic(auto, using(crate::proofs::PairLaws::pairs_in_short))]
pub fn split_pair(bytes: &[u8]) -> Option<((u32, u32), &[u8])>
    ensures spelled { IfSome result (λ parts. bytes.now ≡ pair_bytes parts.0 ++ parts.1.now) }
    ensures first { IfSome result (λ parts. pairs_in bytes.now ≡ parts.0 ∷ pairs_in parts.1.now) }
    ensures short { IfNone result (length bytes.now < 8) }
    ensures none { IfNone result (pairs_in bytes.now ≡ []) }
{
    if bytes.len() < 8 {
        return None;
    }
    Some((first_pair(bytes), &bytes[8..]))
}

/// The pair in place `i`.
pub fn pair_at(bytes: &[u8], i: usize) -> (u32, u32)
    requires { 8 * i + 8 ≤ length bytes.now }
    ensures { drop i (pairs_in bytes.now) ≡ result ∷ drop (i + 1) (pairs_in bytes.now) }
{
    first_pair(&bytes[8 * i..])
}
