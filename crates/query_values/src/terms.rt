//! What tokens stand for: terms.
ghost use Rattle.std.specs.Prelude.{◌≡◌, ◌≢◌, ◌++◌, IfOk, OnOk, codes, string_bytes};
ghost use Rattle.std.specs.Str.{chars, encode_utf8_all};
ghost use Rattle.bm_term.specs.Canonical.{iri as iri_with, typed, xsd_string, canonical_text};
ghost use Rattle.rdf_text.specs.Spelling.{escaped};
ghost use Rattle.query_tokens.specs.Token.{shown};
ghost use Rattle.query_tokens.specs.declared.token.TokenKind.TheVariants as kinds;
ghost use Rattle.query_values.specs.reading.Values.{IsSpelled, AreIriChars, between_marks, lexical_of, tag_of, number_type, plain_literal, tagged_literal, typed_literal, number_literal, boolean_literal, type_iri};

use crate::values::{after_first, text_of};
use bm_term::{Term, is_xsd_string};
use query_tokens::{Token, TokenKind};
use rdf_escapes::push_string_pieces;
use rdf_text::{push_lower, push_spelling, split_char};
use std::alloc::{AllocError, Global};

const XSD_BOOLEAN: &str = "http://www.w3.org/2001/XMLSchema#boolean";

const RDF_TYPE: &str = "http://www.w3.org/1999/02/22-rdf-syntax-ns#type";

/// The term of an IRI, all whose characters may stand in one (`IRICHAR`). `Err` only where memory runs
/// out.
pub fn iri_term(alloc: Global, iri: &str) -> Result<Term, AllocError>
    requires { AreIriChars (chars iri.now) }
    ensures { IfOk result (λ term. term ≡ canonical_text (iri_with (chars iri.now))) }
{
    let mut text = String::new(alloc);
    push_iri(&mut text, iri)?;
    Ok(Term::from_canonical(text.into_bytes()))
}

/// What the word `a` stands for: rdf:type. `Err` only where memory runs out.
pub fn type_term(alloc: Global) -> Result<Term, AllocError>
    ensures { IfOk result (λ term. term ≡ canonical_text type_iri) }
{
    iri_term(alloc, RDF_TYPE)
}

/// The literal of a string alone. The token is one that `tokens` gave and is not `Bad`; of one of another
/// kind than `Quoted` nothing useful is answered. `Err` only where memory runs out.
pub fn plain_term(alloc: Global, string: Token<'_>) -> Result<Term, AllocError>
    requires { IsSpelled (shown string) }
    ensures { IfOk result (λ term. term ≡ canonical_text (plain_literal (shown string.entry))) }
{
    let mut text = String::new(alloc);
    push_quoted(&mut text, string)?;
    Ok(Term::from_canonical(text.into_bytes()))
}

/// The literal of a string with a language tag, which is put in lower case. The string is as for
/// `plain_term`, and the other token is a `Tag` that `tokens` gave. `Err` only where memory runs out.
pub fn tagged_term(alloc: Global, string: Token<'_>, tag: Token<'_>) -> Result<Term, AllocError>
    requires string { IsSpelled (shown string) }
    requires tag { IsSpelled (shown tag) }
    requires kind { tag.kind ≡ kinds.Tag }
    ensures { IfOk result (λ term. term ≡ canonical_text (tagged_literal (shown string.entry) (shown tag.entry))) }
{
    let mut text = String::new(alloc);
    push_quoted(&mut text, string)?;
    text.push('@')?;
    push_lower(&mut text, after_first(text_of(tag)))?;
    Ok(Term::from_canonical(text.into_bytes()))
}

/// The literal of a string with the IRI of a datatype. One of xsd:string is the literal of the string
/// alone. The string is as for `plain_term`, and all characters of the datatype may stand in an IRI
/// (`IRICHAR`). `Err` only where memory runs out.
#[tactic(auto, unfolding(bm_term::specs::Canonical::literal_of))]
pub fn typed_term(alloc: Global, string: Token<'_>, datatype: &str) -> Result<Term, AllocError>
    requires string { IsSpelled (shown string) }
    requires datatype { AreIriChars (chars datatype.now) }
    ensures { IfOk result (λ term. term ≡ canonical_text (typed_literal (shown string.entry) (chars datatype.now))) }
{
    if is_xsd_string(datatype) {
        return plain_term(alloc, string);
    }
    let mut text = String::new(alloc);
    push_quoted(&mut text, string)?;
    push_datatype(&mut text, datatype)?;
    Ok(Term::from_canonical(text.into_bytes()))
}

/// The literal of a number: its text, with the datatype of its kind. The token is one that `tokens` gave
/// and is not `Bad`; of one that is no number nothing useful is answered. `Err` only where memory runs
/// out.
pub fn number_term(alloc: Global, token: Token<'_>) -> Result<Term, AllocError>
    requires { IsSpelled (shown token) }
    ensures { IfOk result (λ term. term ≡ canonical_text (number_literal (shown token.entry))) }
{
    literal_term(alloc, text_of(token), number_type(token.kind))
}

/// The literal of `true` or `false`, in lower case. The token is one that `tokens` gave and is not `Bad`;
/// of one that is no such word nothing useful is answered. `Err` only where memory runs out.
pub fn boolean_term(alloc: Global, token: Token<'_>) -> Result<Term, AllocError>
    requires { IsSpelled (shown token) }
    ensures { IfOk result (λ term. term ≡ canonical_text (boolean_literal (shown token.entry))) }
{
    let mut lexical = String::new(alloc);
    push_lower(&mut lexical, text_of(token))?;
    literal_term(alloc, lexical.as_str(), XSD_BOOLEAN)
}

/// The IRI of a number's datatype.
#[tactic(auto, unfolding(crate::specs::reading::Values::number_type))]
fn number_type(kind: TokenKind) -> &'static str
    ensures { result.now ≡ number_type kind }
{
    match kind {
        TokenKind::Integer => "http://www.w3.org/2001/XMLSchema#integer",
        TokenKind::Decimal => "http://www.w3.org/2001/XMLSchema#decimal",
        _ => "http://www.w3.org/2001/XMLSchema#double",
    }
}

/// The literal of a lexical form and a datatype that is not xsd:string.
fn literal_term(alloc: Global, lexical: &str, datatype: &str) -> Result<Term, AllocError>
    requires characters { AreIriChars (chars datatype.now) }
    requires other { chars datatype.now ≢ xsd_string }
    ensures { IfOk result (λ term. term ≡ canonical_text (typed (chars lexical.now) (chars datatype.now))) }
{
    let mut text = String::new(alloc);
    text.push('"')?;
    push_escaped(&mut text, lexical)?;
    text.push('"')?;
    push_datatype(&mut text, datatype)?;
    Ok(Term::from_canonical(text.into_bytes()))
}

/// Writes an IRI in brackets.
fn push_iri(out: &mut String, iri: &str) -> Result<(), AllocError>
    ensures { OnOk result (string_bytes out.new ≡ string_bytes out.old ++ canonical_text (iri_with (chars iri.now))) }
{
    out.push('<')?;
    out.push_str(iri)?;
    out.push('>')
}

/// Writes a datatype, with the mark before it.
fn push_datatype(out: &mut String, datatype: &str) -> Result<(), AllocError>
    ensures { OnOk result (string_bytes out.new ≡ string_bytes out.old ++ codes "^^" ++ canonical_text (iri_with (chars datatype.now))) }
{
    out.push_str("^^")?;
    push_iri(out, datatype)
}

/// Writes the lexical form of a string between quotation marks.
#[tactic(auto, unfolding(crate::specs::reading::Values::lexical_of))]
fn push_quoted(out: &mut String, string: Token<'_>) -> Result<(), AllocError>
    requires { IsSpelled (shown string) }
    ensures { OnOk result (string_bytes out.new ≡ string_bytes out.old ++ canonical_text (plain_literal (shown string.entry))) }
{
    out.push('"')?;
    push_between_marks(out, text_of(string))?;
    out.push('"')
}

fn push_between_marks(out: &mut String, text: &str) -> Result<(), AllocError>
    ensures { OnOk result (string_bytes out.new ≡ string_bytes out.old ++ encode_utf8_all (escaped (between_marks (chars text.now)))) }
{
    match split_char(text) {
        Some((mark, body)) => push_string_pieces(out, mark, body),
        None => Ok(()),
    }
}

/// Writes the characters of a text, each in its one spelling in a literal.
fn push_escaped(out: &mut String, text: &str) -> Result<(), AllocError>
    ensures { OnOk result (string_bytes out.new ≡ string_bytes out.old ++ encode_utf8_all (escaped (chars text.now))) }
{
    let mut rest = text;
    while let Some((c, after)) = split_char(rest) {
        push_spelling(out, c)?;
        rest = after;
    }
    Ok(())
}
