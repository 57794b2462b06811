//! Sets of numbers, as words.

ghost use Rattle.std.specs.Prelude.{◌≡◌, ◌≢◌, ◌↔◌, ℕ, ◌*◌, ◌<◌, ◌≤◌, ◌^◌, [], ◌∷◌, length, slice_index, Contains, IfSome};
ghost use Rattle.row_lanes.specs.Words.{Has};
ghost use Rattle.pattern_rel.specs.steps.Sets.{IsNext, IsNextBoth};

use row_lanes::{add_row, clear_from, first_at_least, has};
use run_rows::RowRef;

/// The least number of the set that is not below `n`.
pub fn next_in(words: &[u64], n: u32) -> Option<u32>
    requires { length words.now ≤ 2 ^ 25 }
    ensures next { IsNext n words.now result }
    ensures within { IfSome result (λ x. x < 64 * length words.now) }
{
    first_at_least(words, n)
}

/// Takes a number out of the set.
pub fn remove(into: &mut [u64], n: u32)
    ensures removed { (m : ℕ) → Has into.new m ↔ (Has into.old m × (m ≢ n)) }
    ensures same_length { length into.new ≡ length into.old }
{
    let place = n as usize / 64;
    if place < into.len() {
        into[place] &= !(1 << (n % 64));
    }
}

/// The word in a place, 0 where there is none.
fn word_at(words: &[u64], place: usize) -> u64
    ensures { result ≡ slice_index words.now place }
{
    match words.get(place) {
        Some(word) => *word,
        None => 0,
    }
}

/// Makes `into` the other set, as far as it has words.
pub fn assign(into: &mut [u64], other: &[u64])
    ensures same { (n : ℕ) → Has into.new n ↔ (Has other.now n × (n < 64 * length into.old)) }
    ensures same_length { length into.new ≡ length into.old }
{
    for i in 0..into.len() {
        into[i] = word_at(other, i);
    }
}

/// Makes `into` the numbers of the row, as far as it has words.
pub fn set_row(into: &mut [u64], row: &RowRef<'_>)
    ensures numbers { (n : ℕ) → Has into.new n ↔ (Contains row.now n × (n < 64 * length into.old)) }
    ensures same_length { length into.new ≡ length into.old }
{
    clear_from(into, 0);
    add_row(into, row);
}

/// The number, if it is in the set and not below `at`.
pub fn one_from(words: &[u64], number: u32, at: u32) -> Option<u32>
    requires { length words.now ≤ 2 ^ 25 }
    ensures next { IsNextBoth at words.now (number ∷ []) result }
    ensures within { IfSome result (λ x. x < 64 * length words.now) }
{
    if number >= at && has(words, number) {
        Some(number)
    } else {
        None
    }
}

/// The least number of the row that is in the set and not below `at`.
pub fn first_in_row(words: &[u64], row: &RowRef<'_>, at: u32) -> Option<u32>
    requires { length words.now ≤ 2 ^ 25 }
    ensures next { IsNextBoth at words.now row.now result }
    ensures within { IfSome result (λ x. x < 64 * length words.now) }
{
    let mut from = at;
    while let Some(c) = row.at_least(from) {
        let d = next_in(words, c)?;
        if d == c {
            return Some(c);
        }
        from = d;
    }
    None
}
