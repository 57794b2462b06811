//! The tokens of a SPARQL query, each a slice of the source. `tokens` answers them in order: at each
//! place the token is the longest text that a rule of the grammar allows, and white space and comments
//! are dropped. A place where no token begins gives one last token, `Bad`.
#![tactic(auto)]

mod blanks;
mod class_types;
mod iriref;
mod laws;
mod numbers;
mod prefixed_names;
mod scanning;
mod signs;
mod source;
mod strings;
mod token;
mod token_list;
mod variables;

pub use laws::{a_source_has_one_list_of_tokens, a_text_is_of_one_kind, each_source_has_tokens};
pub use source::{text_tokens, tokens};
pub use token::{Token, TokenKind};
pub use token_list::TokenList;

#[cfg(test)]
mod tests;
