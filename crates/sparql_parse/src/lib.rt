//! The parser of queries. `parse_query` answers the query that a text denotes, or the first fault of the text:
//! the grammar stands in `query_grammar`, and here its tokens get their meaning, which is names, terms, triple
//! patterns and the translation of groups to the algebra.
#![tactic(auto)]

mod build;
mod columns;
mod fault;
mod group;
mod laws;
mod namespaces;
mod node;
mod place;
mod query;
mod symbols;
mod tally;

pub use fault::QueryFault;
pub use laws::{
    a_query_that_is_denoted_keeps_the_limits, a_text_denotes_one_query_or_has_one_fault,
    what_is_read_is_what_is_denoted,
};
pub use query::parse_query;

#[cfg(test)]
mod tests;
