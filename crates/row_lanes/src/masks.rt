//! The calls on masks.

ghost use Rattle.std.specs.Prelude.{◌≡◌, ◌↔◌, ◌⊎◌, ℕ, ◌+◌, ◌*◌, ◌/◌, ◌<◌, ◌≤◌, ◌^◌, length, All, Contains, IsTrue};
ghost use Rattle.std.specs.Int.{w64, trailing_zeros};
ghost use Rattle.run_rows.specs.Row.{IsLeastFrom};
ghost use Rattle.row_lanes.specs.Words.{Has, numbers_in};

use crate::runs::add_row;
use crate::words::{and_words, first_set, ones, zero_from};
use run_rows::RowRef;

/// Leaves the numbers that are in both. A number that `other` has no word for is not in it; `into` keeps its
/// length, and words of `other` behind its end are not looked at.
pub fn and_into(into: &mut [u64], other: &[u64])
    ensures both { (n : ℕ) → Has into.new n ↔ (Has into.old n × Has other.now n) }
    ensures same_length { length into.new ≡ length into.old }
{
    and_words(into, other);
}

/// Whether the number is in the set.
pub fn has(words: &[u64], n: u32) -> bool
    ensures { IsTrue result ↔ Has words.now n }
{
    match words.get(n as usize / 64) {
        Some(word) => (word >> (n % 64)) % 2 == 1,
        None => false,
    }
}

/// Adds one number, if there is a word for it.
pub fn add(into: &mut [u64], n: u32)
    ensures either { (m : ℕ) → Has into.new m ↔ (Has into.old m ⊎ ((m ≡ n) × (m < 64 * length into.old))) }
    ensures same_length { length into.new ≡ length into.old }
{
    let place = n as usize / 64;
    if place < into.len() {
        into[place] |= 1 << (n % 64);
    }
}

/// Adds the numbers of the row, for each of which there is a word.
pub fn or_row(into: &mut [u64], row: &RowRef<'_>)
    requires fits { All (λ n. n < 64 * length into.old) row.now }
    ensures either { (n : ℕ) → Has into.new n ↔ (Has into.old n ⊎ Contains row.now n) }
    ensures same_length { length into.new ≡ length into.old }
{
    add_row(into, row);
}

/// Removes the numbers from `n` on.
pub fn clear_from(into: &mut [u64], n: u32)
    ensures below { (m : ℕ) → Has into.new m ↔ (Has into.old m × (m < n)) }
    ensures same_length { length into.new ≡ length into.old }
{
    let place = n as usize / 64;
    if place < into.len() {
        into[place] &= (1 << (n % 64)) - 1;
        zero_from(into, place + 1);
    }
}

/// How many numbers there are. There are at most `2 ^ 25` words.
pub fn count(words: &[u64]) -> u32
    requires { length words.now ≤ 2 ^ 25 }
    ensures { result ≡ length (numbers_in words.now) }
{
    ones(words)
}

/// Whether there is a number.
pub fn any(words: &[u64]) -> bool
    ensures { IsTrue result ↔ ((n : ℕ) × Has words.now n) }
{
    first_set(words, 0).is_some()
}

/// The least number of a word that is not 0 and stands at this place.
fn least_of(place: usize, word: u64) -> u32
    requires place_fits { place < 2 ^ 25 }
    requires set { 0 < word }
    ensures { result ≡ 64 * place + trailing_zeros w64 word }
{
    64 * place as u32 + word.trailing_zeros()
}

/// The least number that is not below `n`, in at most `2 ^ 25` words. `None` where there is none.
pub fn first_at_least(words: &[u64], n: u32) -> Option<u32>
    requires { length words.now ≤ 2 ^ 25 }
    ensures { IsLeastFrom n (numbers_in words.now) result }
{
    let place = n as usize / 64;
    if place >= words.len() {
        return None;
    }
    let word = words[place] & (u64::MAX << (n % 64));
    if word != 0 {
        return Some(least_of(place, word));
    }
    let place = first_set(words, place + 1)?;
    Some(least_of(place, words[place]))
}
