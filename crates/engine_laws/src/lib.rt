//! The laws of the engine: from the evaluation of a pattern over triples of texts to the best flat rows over what pruning
//! leaves of relations of values. `whole_way_law` says that they are one bag of rows, once the values are named, and
//! `prepared_way_law` says it of the relations that are prepared for a tree, whose values name the terms of an index.
#![tactic(auto)]

mod laws;

pub use laws::{prepared_way_law, whole_way_law};
