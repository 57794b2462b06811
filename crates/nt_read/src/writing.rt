//! The canonical texts of the terms of a line.
ghost use Rattle.std.specs.Prelude.{◌≡◌, ℕ, List, ◌++◌, IfOk, OnOk, string_bytes};
ghost use Rattle.bm_term.specs.Canonical.{iri, plain, tagged, literal_of, IsTerm, canonical_text};
ghost use Rattle.nt_read.specs.scanning.Found.{iri_of, lexical_of, tag_of, raw_length, IsIriText, IsStringText, IsTailText, IsFoundText, AreFoundTexts, AreTerms, literal_with, term_found, triple_found};

use crate::found::{FoundTerm, FoundTriple, LiteralTail, FoundText};
use bm_term::{Term, Triple};
use rdf_text::push_lower;
use rdf_escapes::{push_iri_pieces, push_string_pieces};
use std::alloc::{AllocError, Global};

const XSD_STRING: &str = "<http://www.w3.org/2001/XMLSchema#string>";

/// Writes an IRI with its brackets.
fn push_iri(out: &mut String, quoted: FoundText<'_>) -> Result<(), AllocError>
    requires { IsIriText quoted }
    ensures { OnOk result (string_bytes out.new ≡ string_bytes out.old ++ canonical_text (iri (iri_of quoted.entry))) }
{
    match quoted {
        FoundText::Raw(text) => out.push_str(text),
        FoundText::Escaped(body) => {
            out.push('<')?;
            push_iri_pieces(out, body)?;
            out.push('>')
        }
    }
}

/// Writes a string with its marks.
fn push_string(out: &mut String, quoted: FoundText<'_>) -> Result<(), AllocError>
    requires { IsStringText quoted }
    ensures { OnOk result (string_bytes out.new ≡ string_bytes out.old ++ canonical_text (plain (lexical_of quoted.entry))) }
{
    match quoted {
        FoundText::Raw(text) => out.push_str(text),
        FoundText::Escaped(body) => {
            out.push('"')?;
            push_string_pieces(out, '"', body)?;
            out.push('"')
        }
    }
}

fn copied(alloc: Global, text: &str) -> Result<Vec<u8>, AllocError>
    ensures { IfOk result (λ copy. copy.items ≡ text.now) }
{
    text.as_bytes().to_vec(alloc)
}

/// The text of an IRI: where it is raw, a copy of the part of the line.
fn iri_text(alloc: Global, quoted: FoundText<'_>) -> Result<Vec<u8>, AllocError>
    requires { IsIriText quoted }
    ensures { IfOk result (λ text. text.items ≡ canonical_text (iri (iri_of quoted.entry))) }
{
    match quoted {
        FoundText::Raw(text) => copied(alloc, text),
        FoundText::Escaped(_) => {
            let mut out = String::new(alloc);
            push_iri(&mut out, quoted)?;
            Ok(out.into_bytes())
        }
    }
}

/// The text of a literal of xsd:string, likewise.
fn string_text(alloc: Global, quoted: FoundText<'_>) -> Result<Vec<u8>, AllocError>
    requires { IsStringText quoted }
    ensures { IfOk result (λ text. text.items ≡ canonical_text (plain (lexical_of quoted.entry))) }
{
    match quoted {
        FoundText::Raw(text) => copied(alloc, text),
        FoundText::Escaped(_) => {
            let mut out = String::new(alloc);
            push_string(&mut out, quoted)?;
            Ok(out.into_bytes())
        }
    }
}

/// The text of a literal with a language tag.
fn tagged_text(alloc: Global, string: FoundText<'_>, tag: &str) -> Result<Vec<u8>, AllocError>
    requires { IsStringText string }
    ensures { IfOk result (λ text. text.items ≡ canonical_text (tagged (lexical_of string.entry) (tag_of tag.now))) }
{
    let mut out = String::with_capacity(
        alloc,
        raw_len(string).saturating_add(tag.len()).saturating_add(1),
    )?;
    push_string(&mut out, string)?;
    out.push('@')?;
    push_lower(&mut out, tag)?;
    Ok(out.into_bytes())
}

/// How many bytes a raw text has.
fn raw_len(quoted: FoundText<'_>) -> usize
    ensures { result ≡ raw_length quoted.entry }
{
    match quoted {
        FoundText::Raw(text) => text.len(),
        FoundText::Escaped(_) => 0,
    }
}

/// The text of a literal whose datatype has this text.
fn text_with_datatype(
    alloc: Global,
    string: FoundText<'_>,
    datatype: &str,
) -> Result<Vec<u8>, AllocError>
    requires { IsStringText string }
    ensures { IfOk result (λ text. (cs : List ℕ) → IsTerm (iri cs) → datatype.now ≡ canonical_text (iri cs)
        → text.items ≡ canonical_text (literal_of (lexical_of string.entry) cs)) }
{
    if datatype == XSD_STRING {
        return string_text(alloc, string);
    }
    let mut out = String::with_capacity(
        alloc,
        raw_len(string)
            .saturating_add(datatype.len())
            .saturating_add(2),
    )?;
    push_string(&mut out, string)?;
    out.push_str("^^")?;
    out.push_str(datatype)?;
    Ok(out.into_bytes())
}

/// The text of a literal with a datatype.
fn typed_text(
    alloc: Global,
    string: FoundText<'_>,
    datatype: FoundText<'_>,
) -> Result<Vec<u8>, AllocError>
    requires string { IsStringText string }
    requires datatype { IsIriText datatype }
    ensures { IfOk result (λ text. text.items ≡ canonical_text (literal_of (lexical_of string.entry) (iri_of datatype.entry))) }
{
    match datatype {
        FoundText::Raw(text) => text_with_datatype(alloc, string, text),
        FoundText::Escaped(_) => {
            let mut text = String::new(alloc);
            push_iri(&mut text, datatype)?;
            text_with_datatype(alloc, string, text.as_str())
        }
    }
}

#[tactic(auto, unfolding(crate::specs::scanning::Found::literal_with))]
fn literal_text(
    alloc: Global,
    string: FoundText<'_>,
    tail: LiteralTail<'_>,
) -> Result<Vec<u8>, AllocError>
    requires string { IsStringText string }
    requires tail { IsTailText tail }
    ensures { IfOk result (λ text. text.items ≡ canonical_text (literal_with (lexical_of string.entry) tail.entry)) }
{
    match tail {
        LiteralTail::Nothing => string_text(alloc, string),
        LiteralTail::Tag(tag) => tagged_text(alloc, string, tag),
        LiteralTail::Datatype(datatype) => typed_text(alloc, string, datatype),
    }
}

/// The canonical text of a term.
#[tactic(auto, unfolding(crate::specs::scanning::Found::term_found))]
fn text(alloc: Global, found: FoundTerm<'_>) -> Result<Vec<u8>, AllocError>
    requires { IsFoundText found }
    ensures { IfOk result (λ text. text.items ≡ canonical_text (term_found found.entry)) }
{
    match found {
        FoundTerm::Iri(quoted) => iri_text(alloc, quoted),
        FoundTerm::Blank(label) => copied(alloc, label),
        FoundTerm::Literal(string, tail) => literal_text(alloc, string, tail),
    }
}

fn term(alloc: Global, found: FoundTerm<'_>) -> Result<Term, AllocError>
    requires text { IsFoundText found }
    requires term { IsTerm (term_found found) }
    ensures { IfOk result (λ term. term ≡ canonical_text (term_found found.entry)) }
{
    let text = text(alloc, found)?;
    Ok(Term::from_canonical(text))
}

/// The triple that `statement` found in a line. `Err` only where memory runs out.
pub(crate) fn triple(alloc: Global, found: FoundTriple<'_>) -> Result<Triple, AllocError>
    requires texts { AreFoundTexts found }
    requires terms { AreTerms found }
    ensures { IfOk result (λ triple. triple ≡ triple_found found.entry) }
{
    let subject = term(alloc, found.subject)?;
    let predicate = term(alloc, found.predicate)?;
    let object = term(alloc, found.object)?;
    Ok(Triple {
        subject,
        predicate,
        object,
    })
}
