//! Which pairs the passes of pruning take at a node of a tree of patterns. Nothing here takes memory.
//!
//! [`node_sets`] gives the sets of variables of the node's triple patterns. Where patterns and variables form a forest,
//! [`node_pairs`] gives the pairs of the removal of its members, else all edges of the node. [`all_forests`] says whether
//! each node of a tree is a forest, so that one round of pruning is enough.
#![tactic(auto)]

mod edges;
mod pairs;
mod plan;
mod removal;
mod sets;

pub use pairs::NodePairs;
pub use plan::{all_forests, node_pairs};
pub use sets::{NodeSets, node_sets};
