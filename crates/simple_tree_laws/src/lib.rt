//! What the test for simple trees, `join_graph::is_simple`, says of a tree of patterns: its answer over the sets of
//! variables of the tree's nodes is whether the tree is simple, as the laws of minimality and of the flat join ask it
//! (`simple_tree_law`).
#![tactic(auto)]

mod laws;

pub use laws::simple_tree_law;
