//! What N-Triples and SPARQL have in common in the texts of IRIs and of strings: their characters, raw
//! or escaped, with what they stand for. `iri_piece` and `string_piece` read one character from the
//! front of a text; `after_iri_pieces` and `after_string_pieces` pass over all that are there;
//! `push_iri_pieces` and `push_string_pieces` write what they stand for.
#![tactic(auto)]

mod escapes;
mod iris;
mod laws;
mod strings;
mod writing;

pub use iris::{after_iri_pieces, iri_piece};
pub use laws::{
    a_text_spells_one_form, a_text_spells_one_iri, characters_are_read, iris_are_read_as_spelled,
    strings_are_read_as_spelled, values_are_characters,
};
pub use strings::{after_string_pieces, string_piece};
pub use writing::{push_iri_pieces, push_string_pieces};

#[cfg(test)]
mod tests;
