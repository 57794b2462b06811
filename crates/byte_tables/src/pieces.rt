//! Tables of pieces.

ghost use Rattle.std.specs.Prelude.{◌≡◌, ◌↔◌, ◌+◌, ◌-◌, ◌<◌, ◌≤◌, ◌∷◌, length, take, drop, IsTrue};
ghost use Rattle.byte_tables.specs.Numbers.{numbers_in};
ghost use Rattle.byte_tables.specs.Pieces.{pieces_at, AscendTo, CutWhole};

use crate::numbers::{number_at, split_number};

/// Whether the numbers ascend strictly from `from` and end with `last`.
fn ascend_to(last: u32, from: u32, ends: &[u8]) -> bool
    ensures { IsTrue result ↔ AscendTo last from (numbers_in ends.now) }
{
    let mut at = from;
    let mut rest = ends;
    while let Some((end, after)) = split_number(rest) {
        if end <= at {
            return false;
        }
        at = end;
        rest = after;
    }
    at == last
}

/// Whether the starts cut `last` bytes into pieces: they begin with 0, ascend strictly and end with `last`.
/// Up to three bytes after the last start are not looked at.
pub fn cut_whole(last: u32, starts: &[u8]) -> bool
    ensures { IsTrue result ↔ CutWhole last (numbers_in starts.now) }
{
    match split_number(starts) {
        Some((first, rest)) => first == 0 && ascend_to(last, 0, rest),
        None => false,
    }
}

/// The bytes from one place up to another.
pub fn between(bytes: &[u8], start: u32, end: u32) -> &[u8]
    requires ordered { start ≤ end }
    requires within { end ≤ length bytes.now }
    ensures { result.now ≡ take (end - start) (drop start bytes.now) }
{
    &bytes[start as usize..end as usize]
}

/// The piece in place `i` of the table whose starts stand in bytes.
pub fn piece_at<'a>(starts: &[u8], bytes: &'a [u8], i: usize) -> &'a [u8]
    requires cut { CutWhole (length bytes.now) (numbers_in starts.now) }
    requires within { i + 1 < length (numbers_in starts.now) }
    ensures { drop i (pieces_at (numbers_in starts.now) bytes.now) ≡ result.now ∷ drop (i + 1) (pieces_at (numbers_in starts.now) bytes.now) }
{
    between(bytes, number_at(starts, i), number_at(starts, i + 1))
}

/// The piece in place `i` of the table whose starts are at hand.
pub fn piece_of<'a>(starts: &[u32], bytes: &'a [u8], i: usize) -> &'a [u8]
    requires cut { CutWhole (length bytes.now) starts.now }
    requires within { i + 1 < length starts.now }
    ensures { drop i (pieces_at starts.now bytes.now) ≡ result.now ∷ drop (i + 1) (pieces_at starts.now bytes.now) }
{
    between(bytes, starts[i], starts[i + 1])
}
