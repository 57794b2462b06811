//! Minimality: on a simple tree of patterns no triple is left in vain. Where each node is a forest and shares at most one
//! variable with its parent, each triple of the greatest consistent family takes part in a maximal partial solution
//! (`minimality_law`).
#![tactic(auto)]

mod laws;

pub use laws::minimality_law;
