//! Masks: a slice of words is seen as the set of numbers whose bit is set. Number `n` is bit `n % 64` of
//! word `n / 64`.
//!
//! [`and_into`], [`any`] and [`first_at_least`] go over the words four at a time. A row is put into a mask, or
//! asked against one, by its runs, a word at a time. No call takes memory.
#![tactic(auto)]

mod lanes;
mod laws;
mod masks;
mod runs;
mod words;

pub use laws::{numbers_are_had, numbers_ascend};
pub use masks::{add, and_into, any, clear_from, count, first_at_least, has, or_row};
pub use runs::{add_row, meets_row};

#[cfg(test)]
mod tests;
