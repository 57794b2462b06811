//! Which trees of patterns are simple.
//!
//! [`is_simple_tree`] says whether each node of a tree is a forest, each but the root is connected, and each shares at
//! most one variable with its parent. Such a tree needs no best-match, and two passes prune it.
#![tactic(auto)]

mod simple;

pub use simple::is_simple_tree;
