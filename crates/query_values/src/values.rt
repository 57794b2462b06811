//! What tokens stand for: the characters of IRIs and names.
ghost use Rattle.std.specs.Prelude.{◌≡◌, [], ◌∷◌, ◌++◌, IfOk, OnOk, string_bytes};
ghost use Rattle.std.specs.List.{filter};
ghost use Rattle.std.specs.Str.{chars, encode_utf8_all};
ghost use Rattle.rdf_text.specs.scanning.Text.{after_first};
ghost use Rattle.query_tokens.specs.Token.{shown};
ghost use Rattle.query_values.specs.reading.Values.{IsSpelled, from_colon, is_no_colon, is_no_backslash, iri_of, prefix_of, local_of, prefixed_iri, name_of};

use query_tokens::Token;
use rdf_escapes::push_iri_pieces;
use rdf_text::{CharClass, after_run, before, split_char};
use std::alloc::{AllocError, Global};

/// Every character but the colon.
#[derive(Clone, Copy)]
struct NoColon;

impl CharClass for NoColon {
    ghost members = { is_no_colon };

    #[tactic(auto, unfolding(crate::specs::reading::Values::is_no_colon))]
    fn has(self, c: char) -> bool {
        c != ':'
    }
}

/// The characters of a token that `tokens` gave and that is not `Bad`.
pub(crate) fn text_of<'a>(token: Token<'a>) -> &'a str
    requires { IsSpelled (shown token) }
    ensures { result.now ≡ token.entry.text.now }
{
    match str::from_utf8(token.text) {
        Ok(text) => text,
        Err(_) => unreachable!(),
    }
}

/// What stands after the first character of a text.
pub(crate) fn after_first(text: &str) -> &str
    ensures { chars result.now ≡ after_first (chars text.now) }
{
    match split_char(text) {
        Some((_, rest)) => rest,
        None => text,
    }
}

fn from_colon(text: &str) -> &str
    ensures { chars result.now ≡ from_colon (chars text.now) }
{
    after_run(text, NoColon)
}

/// The IRI that an IRI in brackets spells, its escapes undone. The token is one that `tokens` gave and is
/// not `Bad`; of one of another kind nothing useful is answered. `Err` only where memory runs out.
#[tactic(auto, unfolding(crate::specs::reading::Values::iri_of))]
pub fn iri(alloc: Global, token: Token<'_>) -> Result<String, AllocError>
    requires { IsSpelled (shown token) }
    ensures { IfOk result (λ iri. chars (string_bytes iri) ≡ iri_of (shown token.entry)) }
{
    let mut iri = String::new(alloc);
    push_iri_pieces(&mut iri, after_first(text_of(token)))?;
    Ok(iri)
}

/// The prefix of a prefixed name, or of a prefix with its colon: what stands before the colon. The token
/// is one that `tokens` gave and is not `Bad`; of one of another kind nothing useful is answered.
#[tactic(auto, unfolding(crate::specs::reading::Values::prefix_of))]
pub fn prefix<'a>(token: Token<'a>) -> &'a str
    requires { IsSpelled (shown token) }
    ensures { chars result.now ≡ prefix_of (shown token.entry) }
{
    let text = text_of(token);
    before(text, from_colon(text))
}

/// The IRI of a prefixed name: the namespace of its prefix, and the local name, in which a backslash
/// and what stands after it are that alone. The token is one that `tokens` gave and is not `Bad`; of one
/// of another kind nothing useful is answered. `Err` only where memory runs out.
#[tactic(auto, unfolding(crate::specs::reading::Values::local_of))]
pub fn prefixed_iri(alloc: Global, namespace: &str, token: Token<'_>) -> Result<String, AllocError>
    requires { IsSpelled (shown token) }
    ensures { IfOk result (λ iri. chars (string_bytes iri) ≡ prefixed_iri (chars namespace.now) (shown token.entry)) }
{
    let mut iri = String::from_str(alloc, namespace)?;
    push_without_backslashes(&mut iri, after_first(from_colon(text_of(token))))?;
    Ok(iri)
}

/// Writes the characters of a text that are no backslash.
fn push_without_backslashes(out: &mut String, text: &str) -> Result<(), AllocError>
    ensures { OnOk result (string_bytes out.new ≡ string_bytes out.old ++ encode_utf8_all (filter is_no_backslash (chars text.now))) }
{
    let mut rest = text;
    while let Some((c, after)) = split_char(rest) {
        push_no_backslash(out, c)?;
        rest = after;
    }
    Ok(())
}

fn push_no_backslash(out: &mut String, c: char) -> Result<(), AllocError>
    ensures { OnOk result (string_bytes out.new ≡ string_bytes out.old ++ encode_utf8_all (filter is_no_backslash (c ∷ []))) }
{
    if is_no_backslash(c) {
        return out.push(c);
    }
    Ok(())
}

#[tactic(auto, unfolding(crate::specs::reading::Values::is_no_backslash))]
fn is_no_backslash(c: char) -> bool
    ensures { result ≡ is_no_backslash c }
{
    c != '\\'
}

/// The bytes of a variable's name, without its mark. Of a token of another kind nothing useful is
/// answered.
#[tactic(auto, unfolding(crate::specs::reading::Values::name_of))]
pub fn variable_name<'a>(token: Token<'a>) -> &'a [u8]
    ensures { result.now ≡ name_of (shown token.entry) }
{
    match token.text {
        [_, name @ ..] => name,
        [] => token.text,
    }
}
