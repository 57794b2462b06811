//! The places of a line: subject, predicate, object and end, each read from the front of a text.
ghost use Rattle.std.specs.Prelude.{◌≡◌, IfSome};
ghost use Rattle.std.specs.Option.{option_map};
ghost use Rattle.std.specs.Str.{chars, IsUtf8};
ghost use Rattle.nt_read.specs.Terminals.{is_blank};
ghost use Rattle.nt_read.specs.scanning.Found.{lexical_of, IsStringText, IsFoundText, term_found};
ghost use Rattle.nt_read.specs.scanning.Line.{after_blanks, scan_iri, scan_blank, scan_node, scan_subject, scan_predicate, scan_tag, scan_datatype, scan_tail, scan_literal, scan_object, is_end};

use crate::found::{FoundTerm, LiteralTail, FoundText};
use crate::terminals::{blank_node_label, iri_ref, langtag, string_literal_quote};
use rdf_text::{CharClass, CommentChar, after_char, after_run, is_at_end, split_char};

/// White space: the space and TAB.
#[derive(Clone, Copy)]
struct Blank;

impl CharClass for Blank {
    ghost members = { is_blank };

    #[tactic(auto, unfolding(crate::specs::Terminals::is_blank))]
    fn has(self, c: char) -> bool {
        c == ' ' || c == '\t'
    }
}

/// The text after white space.
pub(crate) fn after_blanks(text: &str) -> &str
    ensures { chars result.now ≡ after_blanks (chars text.now) }
{
    after_run(text, Blank)
}

#[tactic(auto, unfolding(crate::specs::scanning::Found::term_found))]
fn iri(text: &str) -> Option<(FoundTerm<'_>, &str)>
    ensures chars { option_map (λ p. (term_found p.0, chars p.1.now)) result ≡ scan_iri (chars text.now) }
    ensures is { IfSome result (λ p. IsFoundText p.0 × IsUtf8 p.1.now) }
{
    let (iri, rest) = iri_ref(text)?;
    Some((FoundTerm::Iri(iri), rest))
}

#[tactic(auto, unfolding(crate::specs::scanning::Found::term_found))]
fn blank_node(text: &str) -> Option<(FoundTerm<'_>, &str)>
    ensures chars { option_map (λ p. (term_found p.0, chars p.1.now)) result ≡ scan_blank (chars text.now) }
    ensures is { IfSome result (λ p. IsFoundText p.0 × IsUtf8 p.1.now) }
{
    let (label, rest) = blank_node_label(text)?;
    Some((FoundTerm::Blank(label), rest))
}

/// IRIREF | BLANK_NODE_LABEL
fn node(text: &str) -> Option<(FoundTerm<'_>, &str)>
    ensures chars { option_map (λ p. (term_found p.0, chars p.1.now)) result ≡ scan_node (chars text.now) }
    ensures is { IfSome result (λ p. IsFoundText p.0 × IsUtf8 p.1.now) }
{
    match iri(text) {
        Some(found) => Some(found),
        None => blank_node(text),
    }
}

/// subject ::= IRIREF | BLANK_NODE_LABEL, after white space.
#[tactic(auto, unfolding(crate::specs::scanning::Line::scan_subject))]
pub(crate) fn subject(text: &str) -> Option<(FoundTerm<'_>, &str)>
    ensures chars { option_map (λ p. (term_found p.0, chars p.1.now)) result ≡ scan_subject (chars text.now) }
    ensures is { IfSome result (λ p. IsFoundText p.0 × IsUtf8 p.1.now) }
{
    node(after_blanks(text))
}

/// predicate ::= IRIREF, after white space.
#[tactic(auto, unfolding(crate::specs::scanning::Line::scan_predicate))]
pub(crate) fn predicate(text: &str) -> Option<(FoundTerm<'_>, &str)>
    ensures chars { option_map (λ p. (term_found p.0, chars p.1.now)) result ≡ scan_predicate (chars text.now) }
    ensures is { IfSome result (λ p. IsFoundText p.0 × IsUtf8 p.1.now) }
{
    iri(after_blanks(text))
}

/// A literal with the tag that is LANGTAG.
#[tactic(auto, unfolding(crate::specs::scanning::Line::scan_tag, crate::specs::scanning::Found::term_found, crate::specs::scanning::Found::literal_with))]
fn tagged<'a>(string: FoundText<'a>, text: &'a str) -> Option<(FoundTerm<'a>, &'a str)>
    requires { IsStringText string }
    ensures chars { option_map (λ p. (term_found p.0, chars p.1.now)) result ≡ scan_tag (lexical_of string.entry) (chars text.now) }
    ensures is { IfSome result (λ p. IsFoundText p.0 × IsUtf8 p.1.now) }
{
    let (tag, rest) = langtag(text)?;
    Some((FoundTerm::Literal(string, LiteralTail::Tag(tag)), rest))
}

/// A literal with the datatype that is IRIREF, after the other circumflex.
#[tactic(auto, unfolding(crate::specs::scanning::Line::scan_datatype, crate::specs::scanning::Found::term_found, crate::specs::scanning::Found::literal_with))]
fn typed<'a>(string: FoundText<'a>, text: &'a str) -> Option<(FoundTerm<'a>, &'a str)>
    requires { IsStringText string }
    ensures chars { option_map (λ p. (term_found p.0, chars p.1.now)) result ≡ scan_datatype (lexical_of string.entry) (chars text.now) }
    ensures is { IfSome result (λ p. IsFoundText p.0 × IsUtf8 p.1.now) }
{
    let mark = after_char(text, '^')?;
    let (datatype, rest) = iri_ref(after_blanks(mark))?;
    Some((
        FoundTerm::Literal(string, LiteralTail::Datatype(datatype)),
        rest,
    ))
}

/// ('^^' IRIREF | LANGTAG)?, after the lexical form.
#[tactic(auto, unfolding(crate::specs::scanning::Line::scan_tail, crate::specs::scanning::Found::term_found, crate::specs::scanning::Found::literal_with))]
fn literal_tail<'a>(string: FoundText<'a>, text: &'a str) -> Option<(FoundTerm<'a>, &'a str)>
    requires { IsStringText string }
    ensures chars { option_map (λ p. (term_found p.0, chars p.1.now)) result
        ≡ scan_tail (lexical_of string.entry) (chars text.now) (after_blanks (chars text.now)) }
    ensures is { IfSome result (λ p. IsFoundText p.0 × IsUtf8 p.1.now) }
{
    let start = after_blanks(text);
    match split_char(start) {
        Some(('@', _)) => tagged(string, start),
        Some(('^', rest)) => typed(string, rest),
        _ => Some((FoundTerm::Literal(string, LiteralTail::Nothing), text)),
    }
}

/// literal ::= STRING_LITERAL_QUOTE ('^^' IRIREF | LANGTAG)?
#[tactic(auto, unfolding(crate::specs::scanning::Line::scan_literal))]
fn literal(text: &str) -> Option<(FoundTerm<'_>, &str)>
    ensures chars { option_map (λ p. (term_found p.0, chars p.1.now)) result ≡ scan_literal (chars text.now) }
    ensures is { IfSome result (λ p. IsFoundText p.0 × IsUtf8 p.1.now) }
{
    let (string, rest) = string_literal_quote(text)?;
    literal_tail(string, rest)
}

/// object ::= IRIREF | BLANK_NODE_LABEL | literal, after white space.
#[tactic(auto, unfolding(crate::specs::scanning::Line::scan_object))]
pub(crate) fn object(text: &str) -> Option<(FoundTerm<'_>, &str)>
    ensures chars { option_map (λ p. (term_found p.0, chars p.1.now)) result ≡ scan_object (chars text.now) }
    ensures is { IfSome result (λ p. IsFoundText p.0 × IsUtf8 p.1.now) }
{
    let start = after_blanks(text);
    match node(start) {
        Some(found) => Some(found),
        None => literal(start),
    }
}

/// Whether no more than white space and a comment is left.
#[tactic(auto, unfolding(crate::specs::scanning::Line::is_end))]
pub(crate) fn is_end(text: &str) -> bool
    ensures { result ≡ is_end (chars text.now) }
{
    match split_char(after_blanks(text)) {
        None => true,
        Some(('#', rest)) => is_at_end(after_run(rest, CommentChar)),
        Some(_) => false,
    }
}
