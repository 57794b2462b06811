//! Relations for the triple patterns of a tree, borrowed from an index.
//!
//! [`prepare`] looks up the terms of each triple pattern, borrows the slice or the row of the index that has its matches,
//! and takes all masks from one pool. The pairs of each relation stand for just the matches of its triple pattern
//! (`specs/Matches`).
#![tactic(auto)]

mod borrowed;
mod laws;
mod masks;
mod numbered;
mod part;
mod preparing;
mod shapes;

pub use laws::an_accepted_pattern_has_an_accepted_tree;
pub use preparing::prepare;

#[cfg(test)]
mod tests;
