//! The tree of a well-designed pattern, its partial solutions, and the law that evaluation gives exactly the maximal ones.
//! `tree_of` makes the tree, and `Tree` shows its nodes. `FlatRows` holds rows of numbers, for the engine.
#![tactic(auto)]

mod flat_rows;
mod laws;
mod node;
#[cfg(test)]
mod tests;
mod tree;

pub use flat_rows::FlatRows;
pub use laws::{
    connected_law, left_is_one_law, maximal_solution_law, node_number_law, partial_solution_law,
    pattern_tree_law, pruning_law, shared_variable_law,
};
pub use node::PatRefs;
pub use tree::{Tree, tree_of};
