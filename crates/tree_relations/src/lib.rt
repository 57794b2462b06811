//! The relations of a tree: for each triple pattern a relation and the variables at its sides, with all masks in one pool.
//!
//! [`Prepared`] is what pruning and joining work on. It fits a tree where each triple pattern has its entry, and an entry's
//! pairs stand for triples of numbers, the places of terms in the term table of an index. `specs/Fits` says what fits a
//! tree, and `specs/Readings` what pairs stand for.
#![tactic(auto)]

mod prepared;

pub use prepared::{Entry, EntryList, MaskList, PlaceKind, Prepared, SidePlace};
