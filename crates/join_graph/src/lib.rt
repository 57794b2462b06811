//! The join graph of a list of triple patterns: patterns and variables are its members, and a pattern and a
//! variable are neighbours where the variable occurs in the pattern. `strip` removes leaves until the core is
//! left; `is_simple` says whether each node of a tree of patterns is a forest that hangs from its parent by
//! one variable at most. A pattern is given as its set of variables, a number whose bit v stands for variable v.
//! Nothing here takes memory.
#![tactic(auto)]

mod chains;
mod left;
mod nodes;
mod removal;
mod steps;
mod variables;

pub use nodes::is_simple;
pub use removal::strip;
pub use steps::{Order, Step};

#[cfg(test)]
mod tests;
