//! The terms of RDF, each as its canonical text: the bytes that a contract sees a `Term` as. Two
//! terms are the same exactly where their texts are. `parts` accepts exactly canonical texts and shows
//! their parts, `unescape` gives a literal's lexical form, and a `Triple` is three terms. A `Taker` takes
//! triples one by one. The classes of characters are those of `rdf_text`.
#![tactic(auto)]

mod graph;
mod laws;
mod scanning;
mod taker;
mod term;
mod term_parts;
mod term_ref;
mod triple;

pub use graph::{compare_triples, each_list_has_one_graph};
pub use laws::{
    all_is_kept_without_a_limit, each_term_has_its_own_text, lists_are_taken_in_a_row,
    parts_are_the_term,
};
pub use rdf_text::{
    is_alphanumeric, is_digit, is_hex, is_irichar, is_letter, is_lower_alphanumeric,
    is_lower_letter, is_nt_label_first, is_nt_pn_chars, is_nt_pn_chars_u, is_pn_chars_base,
    is_scalar, is_sparql_label_first, is_sparql_pn_chars, is_sparql_pn_chars_u, unescape,
};
pub use scanning::{is_xsd_string, parts};
pub use taker::{Taker, TripleList};
pub use term::Term;
pub use term_parts::{Parts, TermKind};
pub use term_ref::TermRef;
pub use triple::Triple;

#[cfg(test)]
mod tests;
