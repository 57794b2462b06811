//! The parts of a canonical text, read from its front.
ghost use Rattle.std.specs.Prelude.{◌≡◌, ◌↔◌, IsSome, IfSome, bytes_eq};
ghost use Rattle.std.specs.Option.{option_map};
ghost use Rattle.std.specs.Str.{chars, IsUtf8};
ghost use Rattle.bm_term.specs.Canonical.{IsCanonical, xsd_string};
ghost use Rattle.bm_term.specs.Parts.{ArePartsOf};
ghost use Rattle.rdf_text.specs.scanning.Text.{at_end};
ghost use Rattle.bm_term.specs.scanning.Terms.{split_iri, scan_iri, scan_blank, scan_tagged, scan_typed, scan_tail, scan_literal, scan_term, shown};

use crate::term_parts::{Parts, TermKind};
use rdf_text::{
    LowerAlphanumeric, LowerLetter, NtLabelFirst, NtPnChars, after_char, after_dotted_name,
    after_irichars, after_language_tag, after_spellings, before, is_at_end, split_char,
};

const XSD_STRING: &str = "http://www.w3.org/2001/XMLSchema#string";

/// The parts of a canonical text. `None` exactly where the bytes are no canonical text.
pub fn parts(bytes: &[u8]) -> Option<Parts<'_>>
    ensures canonical { IsSome result ↔ IsCanonical bytes.now }
    ensures parts { IfSome result (ArePartsOf bytes.now) }
{
    match str::from_utf8(bytes) {
        Ok(text) => scan_term(text),
        Err(_) => None,
    }
}

/// The parts of a text, where it is canonical.
#[tactic(auto, unfolding(crate::specs::scanning::Terms::scan_term))]
fn scan_term(text: &str) -> Option<Parts<'_>>
    ensures parts { option_map shown result ≡ scan_term (chars text.now) }
    ensures utf8 { IfSome result (λ p. IsUtf8 p.body.now × IsUtf8 p.tail.now) }
{
    match split_char(text)? {
        ('<', rest) => scan_iri(rest),
        ('_', rest) => scan_blank(rest),
        ('"', rest) => scan_literal(rest),
        _ => None,
    }
}

#[tactic(auto, using(rdf_text::proofs::TextLemmas::empty_text), unfolding(crate::specs::scanning::Terms::scan_iri))]
fn scan_iri(text: &str) -> Option<Parts<'_>>
    ensures parts { option_map shown result ≡ scan_iri (chars text.now) }
    ensures utf8 { IfSome result (λ p. IsUtf8 p.body.now × IsUtf8 p.tail.now) }
{
    let (iri, rest) = split_iri(text)?;
    parts_at_end(rest, TermKind::Iri, iri, "")
}

#[tactic(auto, using(rdf_text::proofs::TextLemmas::empty_text), unfolding(crate::specs::scanning::Terms::scan_blank))]
fn scan_blank(text: &str) -> Option<Parts<'_>>
    ensures parts { option_map shown result ≡ scan_blank (chars text.now) }
    ensures utf8 { IfSome result (λ p. IsUtf8 p.body.now × IsUtf8 p.tail.now) }
{
    let label = after_char(text, ':')?;
    let rest = after_dotted_name(label, NtLabelFirst, NtPnChars)?;
    parts_at_end(rest, TermKind::Blank, label, "")
}

#[tactic(auto, unfolding(crate::specs::scanning::Terms::scan_literal))]
fn scan_literal(text: &str) -> Option<Parts<'_>>
    ensures parts { option_map shown result ≡ scan_literal (chars text.now) }
    ensures utf8 { IfSome result (λ p. IsUtf8 p.body.now × IsUtf8 p.tail.now) }
{
    let end = after_spellings(text);
    let tail = after_char(end, '"')?;
    scan_tail(before(text, end), tail)
}

/// What follows the closing mark of a lexical form: nothing, a language tag or a datatype.
#[tactic(auto, using(rdf_text::proofs::TextLemmas::empty_text), unfolding(crate::specs::scanning::Terms::scan_tail))]
fn scan_tail<'a>(lexical: &'a str, text: &'a str) -> Option<Parts<'a>>
    ensures parts { option_map shown result ≡ scan_tail (chars lexical.now) (chars text.now) }
    ensures utf8 { IfSome result (λ p. IsUtf8 p.body.now × IsUtf8 p.tail.now) }
{
    match split_char(text) {
        None => Some(Parts {
            kind: TermKind::Plain,
            body: lexical.as_bytes(),
            tail: b"",
        }),
        Some(('@', tag)) => scan_tagged(lexical, tag),
        Some(('^', rest)) => scan_typed(lexical, rest),
        Some(_) => None,
    }
}

#[tactic(auto, using(rdf_text::proofs::LanguageTags::hyphens), unfolding(crate::specs::scanning::Terms::scan_tagged))]
fn scan_tagged<'a>(lexical: &'a str, tag: &'a str) -> Option<Parts<'a>>
    ensures parts { option_map shown result ≡ scan_tagged (chars lexical.now) (chars tag.now) }
    ensures utf8 { IfSome result (λ p. IsUtf8 p.body.now × IsUtf8 p.tail.now) }
{
    let rest = after_language_tag(tag, LowerLetter, LowerAlphanumeric)?;
    parts_at_end(rest, TermKind::Tagged, lexical, tag)
}

#[tactic(auto, unfolding(crate::specs::scanning::Terms::scan_typed))]
fn scan_typed<'a>(lexical: &'a str, text: &'a str) -> Option<Parts<'a>>
    ensures parts { option_map shown result ≡ scan_typed (chars lexical.now) (chars text.now) }
    ensures utf8 { IfSome result (λ p. IsUtf8 p.body.now × IsUtf8 p.tail.now) }
{
    let mark = after_char(text, '^')?;
    let datatype = after_char(mark, '<')?;
    let (iri, rest) = split_iri(datatype)?;
    if is_xsd_string(iri) {
        return None;
    }
    parts_at_end(rest, TermKind::Typed, lexical, iri)
}

/// Whether the characters are those of the IRI of xsd:string.
pub fn is_xsd_string(iri: &str) -> bool
    ensures { result ≡ bytes_eq (chars iri.now) xsd_string }
{
    iri == XSD_STRING
}

/// An IRI up to its closing bracket, and what follows that.
#[tactic(auto, unfolding(crate::specs::scanning::Terms::split_iri))]
fn split_iri(text: &str) -> Option<(&str, &str)>
    ensures chars { option_map (λ p. (chars p.0.now, chars p.1.now)) result ≡ split_iri (chars text.now) }
    ensures utf8 { IfSome result (λ p. IsUtf8 p.0.now × IsUtf8 p.1.now) }
{
    let end = after_irichars(text);
    let rest = after_char(end, '>')?;
    Some((before(text, end), rest))
}

/// The parts, where nothing is left of the text.
fn parts_at_end<'a>(rest: &str, kind: TermKind, body: &'a str, tail: &'a str) -> Option<Parts<'a>>
    ensures parts { option_map shown result ≡ at_end (chars rest.now) (kind, chars body.now, chars tail.now) }
    ensures utf8 { IfSome result (λ p. IsUtf8 p.body.now × IsUtf8 p.tail.now) }
{
    if !is_at_end(rest) {
        return None;
    }
    Some(Parts {
        kind,
        body: body.as_bytes(),
        tail: tail.as_bytes(),
    })
}
