//! The sections of an index file: the numbers of the head, and where the tables and their bytes are.

ghost use Rattle.std.specs.Prelude.{◌≡◌, ◌↔◌, ◌^◌, ◌<◌, ◌≤◌, length, IsTrue};
ghost use Rattle.index_file.specs.Conditions.{HeaderIsKnown, LengthsAgree};
ghost use Rattle.index_file.specs.Layout.{field, slice_count, text_count};
ghost use Rattle.index_file.specs.steps.Sections.{AreSectionsOf, counts_at};

use crate::counts::IndexCounts;
use crate::text::is_same;
use byte_tables::number_at;
use term_numbers::MAX_TRIPLES;

/// The bytes that each file begins with.
const NAME: &[u8] = b"BITMATLB";

/// The number in place `i` of the nine after the name.
fn head_number(bytes: &[u8], i: usize) -> u32
    requires room { 44 ≤ length bytes.now }
    requires within { i < 9 }
    ensures { result ≡ field bytes.now i }
{
    number_at(&bytes[8..44], i)
}

/// Whether the bytes begin with the name and the version, and have room for the numbers.
#[tactic(auto, unfolding(crate::specs::Layout::name))]
pub(crate) fn header_is_known(version: u32, bytes: &[u8]) -> bool
    ensures { IsTrue result ↔ HeaderIsKnown version bytes.now }
{
    bytes.len() >= 44 && is_same(&bytes[..8], NAME) && head_number(bytes, 0) == version
}

/// How many terms there are.
fn text_count(bytes: &[u8]) -> u64
    requires { 44 ≤ length bytes.now }
    ensures count { result ≡ text_count bytes.now }
    ensures few { result < 2 ^ 34 }
{
    u64::from(head_number(bytes, 1))
        + u64::from(head_number(bytes, 2))
        + u64::from(head_number(bytes, 3))
        + u64::from(head_number(bytes, 4))
}

/// How many slices there are.
fn slice_count(bytes: &[u8]) -> u64
    requires { 44 ≤ length bytes.now }
    ensures count { result ≡ slice_count bytes.now }
    ensures few { result < 2 ^ 35 }
{
    let shared = u64::from(head_number(bytes, 1));
    let subjects = u64::from(head_number(bytes, 2));
    let objects = u64::from(head_number(bytes, 3));
    2 * u64::from(head_number(bytes, 4)) + (shared + objects) + (shared + subjects)
}

/// Whether the lengths that are written are those of the bytes, and there are not too many triples.
pub(crate) fn lengths_agree(bytes: &[u8]) -> bool
    requires { 44 ≤ length bytes.now }
    ensures { IsTrue result ↔ LengthsAgree bytes.now }
{
    let texts = 4 * (text_count(bytes) + 1) + u64::from(head_number(bytes, 6));
    let slices = 4 * (slice_count(bytes) + 1) + u64::from(head_number(bytes, 7));
    let size = bytes.len() as u64;
    u64::from(head_number(bytes, 8)) == size
        && 44 + texts + slices == size
        && head_number(bytes, 5) <= MAX_TRIPLES
}

/// The numbers of the head that tell what the file has, and the starts and the bytes of both tables.
#[derive(Clone, Copy, Debug)]
pub(crate) struct Sections<'a> {
    pub counts: IndexCounts,
    pub text_starts: &'a [u8],
    pub texts: &'a [u8],
    pub slice_starts: &'a [u8],
    pub slices: &'a [u8],
}

/// How many of each the file has.
fn head_counts(bytes: &[u8]) -> IndexCounts
    requires { 44 ≤ length bytes.now }
    ensures { result ≡ counts_at bytes.now }
{
    IndexCounts {
        version: head_number(bytes, 0),
        shared: head_number(bytes, 1),
        subjects: head_number(bytes, 2),
        objects: head_number(bytes, 3),
        predicates: head_number(bytes, 4),
        triples: head_number(bytes, 5),
    }
}

/// The sections of a file whose lengths agree.
pub(crate) fn sections_of(bytes: &[u8]) -> Sections<'_>
    requires { LengthsAgree bytes.now }
    ensures { AreSectionsOf bytes.now result }
{
    let text_starts_len = 4 * (text_count(bytes) as usize + 1);
    let slice_starts_len = 4 * (slice_count(bytes) as usize + 1);
    let (_, rest) = bytes.split_at(44);
    let (text_starts, rest) = rest.split_at(text_starts_len);
    let (texts, rest) = rest.split_at(head_number(bytes, 6) as usize);
    let (slice_starts, slices) = rest.split_at(slice_starts_len);
    Sections {
        counts: head_counts(bytes),
        text_starts,
        texts,
        slice_starts,
        slices,
    }
}
