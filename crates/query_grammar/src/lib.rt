//! The grammar of queries over their tokens, and a push parser that reads the tokens one by one: `next`
//! answers what each is for, and where the query stands after it. The grammar stands in `specs/`, as a
//! relation between syntax trees and tokens with their roles. The laws are contracts too: the push
//! parser reads exactly the queries of the grammar, and stops exactly at the first token with which no
//! query goes on. `unsupported_word` names a token of SPARQL 1.1 that the grammar leaves out.
#![tactic(auto)]

mod expect;
mod laws;
mod syntax;
mod terminal;
mod words;

pub use expect::{Expect, State, Step, next};
pub use laws::{
    beginnings_are_read, open_groups_are_counted, queries_are_read_to_their_end,
    the_fault_is_where_the_run_stops, tokens_have_one_tree,
};
pub use syntax::Role;
pub use terminal::{Terminal, terminal_of};
pub use words::{Word, unsupported_word};

#[cfg(test)]
mod tests;
