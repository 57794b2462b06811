//! What the report of a query says: whether its tree is simple, how many triples match each triple pattern, how many of
//! them pruning leaves, how many flat rows the join lists, and how many are best. `report_law` says that what the engine
//! counts in values is this report over the graph's texts, and `named_rows_law` that flat rows, best rows and what pruning
//! leaves of a family of names are, once they are named, those of the family that it names.
#![tactic(auto)]

mod laws;

pub use laws::{named_rows_law, report_law};
