//! Texts of RDF and of SPARQL, and nothing of terms: the classes of characters that the grammars name, walks
//! over a text by characters, names with dots and language tags, and how the characters of a literal are
//! spelled. A text is its list of characters.
#![tactic(auto)]

mod class_types;
mod classes;
mod names;
mod runs;
mod spelling;
mod text;
mod writing;

pub use class_types::{
    Alphanumeric, CommentChar, Letter, LowerAlphanumeric, LowerLetter, NtLabelFirst, NtPnChars, PnCharsBase,
    SparqlLabelFirst, SparqlPnChars,
};
pub use classes::{
    is_alphanumeric, is_comment_char, is_digit, is_hex, is_irichar, is_letter, is_lower_alphanumeric,
    is_lower_letter, is_nt_label_first, is_nt_pn_chars, is_nt_pn_chars_u, is_pn_chars_base,
    is_scalar, is_sparql_label_first, is_sparql_pn_chars, is_sparql_pn_chars_u,
};
pub use names::{after_dotted_name, after_language_tag};
pub use runs::{after_irichars, after_raw_chars, after_spellings};
pub use spelling::{echar_value, escape_letter, push_spelling, unescape};
pub use text::{CharClass, after_char, after_run, after_some, before, is_at_end, split_char};
pub use writing::push_lower;

#[cfg(test)]
mod tests;
