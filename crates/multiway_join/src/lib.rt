//! The flat join of a tree of patterns: its rows, the order in which it takes the triple patterns, and their laws.
//! `flat_rows` joins what is left of the relations of a tree. `flat_rows_law` says that the flat rows are rows of partial
//! solutions, among them all maximal ones, and `join_order_law` that a tree has one join order.
#![tactic(auto)]

mod binding;
mod cursor;
mod join;
mod laws;
mod order;
mod search;

pub use join::flat_rows;
pub use laws::{flat_rows_law, join_order_law};
