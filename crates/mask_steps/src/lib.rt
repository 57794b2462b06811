//! The steps of pruning on masks: one triple pattern, or one variable, is reduced at a time.
//!
//! A variable holds the values of the numbers in its working mask, or all values where it has none yet
//! ([`VarKinds`]). [`gather`] reduces it by a triple pattern, and [`spread`] a triple pattern by it. [`clear`] drops all
//! pairs of a triple pattern, and [`bits`] tells whether steps dropped any. No call takes memory.
#![tactic(auto)]

mod kinds;
mod masks;
mod sides;
mod steps;

pub use kinds::VarKinds;
pub use steps::{bits, clear, gather, is_left, spread};
