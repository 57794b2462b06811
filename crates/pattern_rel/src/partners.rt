//! What stands beside one number of a relation.

ghost use Rattle.std.specs.Prelude.{◌≡◌, ◌↔◌, ◌⊎◌, ℕ, ◌+◌, ◌-◌, ◌*◌, ◌<◌, ◌≤◌, ◌^◌, [], ◌∷◌, length, Contains, IsTrue, IfSome, IfNone};
ghost use Rattle.row_lanes.specs.Words.{Has, Meets};
ghost use Rattle.run_rows.specs.Row.{AscendsWithin};
ghost use Rattle.pattern_rel.specs.steps.Walks.{those_from};
ghost use Rattle.pattern_rel.specs.steps.Sets.{IsNextBoth, partner_numbers};

use crate::sets::{first_in_row, one_from};
use row_lanes::{add, add_row, has, meets_row};
use run_rows::RowRef;

/// The numbers that stand beside one number.
#[derive(Debug, Drop)]
pub enum Partners<'a> {
    Nobody,
    One(u32),
    Row(RowRef<'a>),
}

impl<'a> Partners<'a> {
    /// Whether one of them is in the set.
    pub fn meets(&self, words: &[u64]) -> bool
        ensures { IsTrue result ↔ Meets words.now (partner_numbers self.now) }
    {
        match self {
            Partners::Nobody => false,
            Partners::One(number) => has(words, *number),
            Partners::Row(row) => meets_row(words, row),
        }
    }

    /// Whether the number is one of them.
    pub fn has(&self, n: u32) -> bool
        ensures { IsTrue result ↔ Contains (partner_numbers self.now) n }
    {
        match self {
            Partners::Nobody => false,
            Partners::One(number) => *number == n,
            Partners::Row(row) => row.test(n),
        }
    }

    /// Adds them to the set, as far as it has words.
    pub fn add_to(&self, into: &mut [u64])
        ensures either { (n : ℕ) → Has into.new n ↔ (Has into.old n ⊎ (Contains (partner_numbers self.now) n × (n < 64 * length into.old))) }
        ensures same_length { length into.new ≡ length into.old }
    {
        match self {
            Partners::Nobody => {}
            Partners::One(number) => add(into, *number),
            Partners::Row(row) => add_row(into, row),
        }
    }

    /// The least of them that is in the set and not below `at`.
    pub fn first_in(&self, words: &[u64], at: u32) -> Option<u32>
        requires { length words.now ≤ 2 ^ 25 }
        ensures next { IsNextBoth at words.now (partner_numbers self.now) result }
        ensures within { IfSome result (λ x. x < 64 * length words.now) }
    {
        match self {
            Partners::Nobody => None,
            Partners::One(number) => one_from(words, *number, at),
            Partners::Row(row) => first_in_row(words, row, at),
        }
    }
}

/// The first of the partners that is in the set and not below `at`.
pub fn first_of(partners: &Partners<'_>, words: &[u64], at: u32) -> Option<u32>
    requires few { length words.now ≤ 2 ^ 25 }
    requires ascend { AscendsWithin 0 (2 ^ 32 - 1) (partner_numbers partners.now) }
    ensures none { IfNone result (those_from at words.now (partner_numbers partners.now) ≡ []) }
    ensures first { IfSome result (λ c. those_from at words.now (partner_numbers partners.now) ≡ c ∷ those_from (c + 1) words.now (partner_numbers partners.now)) }
    ensures up { IfSome result (λ c. at ≤ c) }
    ensures within { IfSome result (λ c. c < 64 * length words.now) }
{
    partners.first_in(words, at)
}
