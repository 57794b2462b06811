//! The numbering of a graph: four ascending lists of terms, and the triples by the places of their terms there.
//!
//! A [`Builder`] takes triples one by one and then gives it, or says that there were more distinct ones than a limit.
//! [`number`] does so for a list. [`Numbers`] holds it: its texts are in one piece, in the order in which an index file
//! has them. On the way each text is known by the place at which it was first seen (`seen`), nodes are put into groups
//! by their roles (`role`, `group`), each group is sorted (`sort`), and places become numbers (`renumber`).
#![tactic(auto)]

mod builder;
mod entry;
mod fault;
mod group;
mod laws;
mod limits;
mod numbering;
mod numbers;
mod renumber;
mod role;
mod seen;
mod sort;
mod table;
mod text;

pub use builder::Builder;
pub use fault::NumberFault;
pub use laws::distinct_triples_are_kept;
pub use limits::{MAX_TRIPLES, limit_law};
pub use numbering::{number, number_by};
pub use numbers::Numbers;

#[cfg(test)]
mod tests;
