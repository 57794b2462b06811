//! What the tokens of a query stand for: the characters of IRIs, prefixes and local names, the names of variables,
//! and terms, each as its canonical text. The rules of the tokens say the same as relations, and laws tie the two.
#![tactic(auto)]

mod terms;
mod value_laws;
mod values;

pub use terms::{
    boolean_term, iri_term, number_term, plain_term, tagged_term, type_term, typed_term,
};
pub use value_laws::{
    iris_stand_for_what_they_spell, literals_are_terms, local_names_stand_for_what_they_spell,
    numbers_and_truth_values_are_typed, prefixes_stand_before_the_colon,
    strings_stand_for_what_they_spell, tags_stand_for_themselves_in_lower_case, tokens_are_spelled,
    variables_are_named_after_their_mark,
};
pub use values::{iri, prefix, prefixed_iri, variable_name};

#[cfg(test)]
mod value_tests;
