//! A query, answered over an open index.
//!
//! [`answer`] gives the rows of an accepted query over the graph of an [`Index`](index_file::Index), cut to the columns
//! and in order, or says why the query is refused. The rows borrow their terms from the bytes of the index.
#![tactic(auto)]

mod answering;
mod engine;
mod fault;
mod rows;
#[cfg(test)]
mod tests;

pub use answering::answer;
pub use fault::AnswerFault;
