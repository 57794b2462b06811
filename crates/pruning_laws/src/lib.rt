//! The laws of pruning, beside the code of pruning: what passes and rounds over a tree of patterns leave of the lists of
//! triples. `round_law` is of every tree, and `two_passes_law` of trees whose nodes are forests. `left_items_law`: what is left is one.
#![tactic(auto)]

mod laws;

pub use laws::{left_items_law, round_law, two_passes_law};
