//! Pruning: of each triple pattern's pairs are left just those of the greatest consistent family. Nothing here takes memory.
//!
//! [`prune`] takes rounds over the nodes of the tree, from the root down. A node's variables begin with the values that
//! occur in its parent; two passes over the node's pairs of members reduce pairs and values by one another; and a node is
//! emptied where a triple pattern of it, or of a node above, has no pair left. The last round is one that drops nothing.
#![tactic(auto)]

mod lives;
mod nodes;
mod passes;
mod rounds;
mod starts;
mod wanted;

pub use rounds::prune;
