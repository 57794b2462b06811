//! The flat join of simple trees of patterns: where each node is a forest and shares at most one variable with its parent,
//! the flat rows of what pruning leaves are exactly the rows of the maximal partial solutions, each once
//! (`simple_rows_law`). So there best-match has nothing to remove.
#![tactic(auto)]

mod laws;

pub use laws::simple_rows_law;
