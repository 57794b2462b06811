//! The classes of characters as types, for the walks over a text that take one.
ghost use Rattle.rdf_text.specs.Classes as of;

use crate::classes::{
    is_alphanumeric, is_comment_char, is_letter, is_lower_alphanumeric, is_lower_letter, is_nt_label_first,
    is_nt_pn_chars, is_pn_chars_base, is_sparql_label_first, is_sparql_pn_chars,
};
use crate::text::CharClass;

/// See [`is_letter`].
#[derive(Clone, Copy)]
pub struct Letter;

impl CharClass for Letter {
    ghost members = { of.is_letter };

    fn has(self, c: char) -> bool {
        is_letter(c as u32)
    }
}

/// See [`is_alphanumeric`].
#[derive(Clone, Copy)]
pub struct Alphanumeric;

impl CharClass for Alphanumeric {
    ghost members = { of.is_alphanumeric };

    fn has(self, c: char) -> bool {
        is_alphanumeric(c as u32)
    }
}

/// See [`is_lower_letter`].
#[derive(Clone, Copy)]
pub struct LowerLetter;

impl CharClass for LowerLetter {
    ghost members = { of.is_lower_letter };

    fn has(self, c: char) -> bool {
        is_lower_letter(c as u32)
    }
}

/// See [`is_lower_alphanumeric`].
#[derive(Clone, Copy)]
pub struct LowerAlphanumeric;

impl CharClass for LowerAlphanumeric {
    ghost members = { of.is_lower_alphanumeric };

    fn has(self, c: char) -> bool {
        is_lower_alphanumeric(c as u32)
    }
}

/// See [`is_pn_chars_base`].
#[derive(Clone, Copy)]
pub struct PnCharsBase;

impl CharClass for PnCharsBase {
    ghost members = { of.is_pn_chars_base };

    fn has(self, c: char) -> bool {
        is_pn_chars_base(c as u32)
    }
}

/// See [`is_nt_label_first`].
#[derive(Clone, Copy)]
pub struct NtLabelFirst;

impl CharClass for NtLabelFirst {
    ghost members = { of.is_nt_label_first };

    fn has(self, c: char) -> bool {
        is_nt_label_first(c as u32)
    }
}

/// See [`is_nt_pn_chars`].
#[derive(Clone, Copy)]
pub struct NtPnChars;

impl CharClass for NtPnChars {
    ghost members = { of.is_nt_pn_chars };

    fn has(self, c: char) -> bool {
        is_nt_pn_chars(c as u32)
    }
}

/// See [`is_sparql_label_first`].
#[derive(Clone, Copy)]
pub struct SparqlLabelFirst;

impl CharClass for SparqlLabelFirst {
    ghost members = { of.is_sparql_label_first };

    fn has(self, c: char) -> bool {
        is_sparql_label_first(c as u32)
    }
}

/// See [`is_sparql_pn_chars`].
#[derive(Clone, Copy)]
pub struct SparqlPnChars;

impl CharClass for SparqlPnChars {
    ghost members = { of.is_sparql_pn_chars };

    fn has(self, c: char) -> bool {
        is_sparql_pn_chars(c as u32)
    }
}

/// See [`is_comment_char`].
#[derive(Clone, Copy)]
pub struct CommentChar;

impl CharClass for CommentChar {
    ghost members = { of.is_comment_char };

    fn has(self, c: char) -> bool {
        is_comment_char(c as u32)
    }
}
