//! The places of triple patterns: variables by their numbers, and terms.
ghost use Rattle.std.specs.Prelude.{◌≡◌, IfOk, string_bytes};
ghost use Rattle.std.specs.Str.{chars};
ghost use Rattle.query_tokens.specs.Token.{shown};
ghost use Rattle.sparql_parse.specs.computed.Meaning.{iri_in, namespace_at, number_of, place_of};
ghost use Rattle.sparql_parse.specs.held.Nodes.{IsSound, node_in};
ghost use Rattle.sparql_parse.specs.held.Scopes.{scope_in};
ghost use Rattle.query_values.specs.reading.Values.{AreIriChars, IsSpelled, name_of, prefix_of};

use crate::node::Node;
use crate::symbols::SymbolTable;
use alg_model::{Place, Var};
use query_tokens::{Token, TokenKind};
use query_values::{
    boolean_term, iri, iri_term, number_term, plain_term, prefix, prefixed_iri, tagged_term,
    type_term, typed_term, variable_name,
};
use std::alloc::{AllocError, Global};

/// The number of a variable: the place of its name.
pub(crate) fn number(symbols: &SymbolTable, token: Token<'_>) -> Var
    ensures { result.0 ≡ number_of (scope_in symbols.now).names (name_of (shown token.entry)) }
{
    match symbols.number(variable_name(token)) {
        Some(number) => Var(number as u8),
        // Never comes: a query is translated once the names of all its tokens are kept.
        None => Var(0),
    }
}

/// The IRI for which the prefix of a token stands.
fn namespace<'s>(symbols: &'s SymbolTable, token: Token<'_>) -> &'s str
    requires { IsSpelled (shown token) }
    ensures namespace { chars result.now ≡ namespace_at (scope_in symbols.now) (prefix_of (shown token.entry)) }
    ensures iri { AreIriChars (chars result.now) }
{
    match symbols.namespace(prefix(token)) {
        Some(iri) => iri,
        // Never comes: a token whose prefix is not declared before it has a fault, and is not kept.
        None => "",
    }
}

/// The IRI that a token of any spelling stands for.
fn iri_of(alloc: Global, symbols: &SymbolTable, token: Token<'_>) -> Result<String, AllocError>
    requires { IsSpelled (shown token) }
    ensures iri { IfOk result (λ iri. chars (string_bytes iri) ≡ iri_in (scope_in symbols.now) (shown token.entry)) }
    ensures characters { IfOk result (λ iri. AreIriChars (chars (string_bytes iri))) }
{
    match token.kind {
        TokenKind::Prefixed => prefixed_iri(alloc, namespace(symbols, token), token),
        TokenKind::Prefix => String::from_str(alloc, namespace(symbols, token)),
        _ => iri(alloc, token),
    }
}

/// The place of a node: a variable, or a term.
pub(crate) fn place_of(
    alloc: Global,
    symbols: &SymbolTable,
    node: Node<'_>,
) -> Result<Place, AllocError>
    requires { IsSound (node_in node) }
    ensures { IfOk result (λ place. place ≡ place_of (scope_in symbols.now) (node_in node.entry)) }
{
    let term = match node {
        Node::Variable(token) => return Ok(Place::Var(number(symbols, token))),
        Node::Iri(token) => iri_term(alloc, iri_of(alloc, symbols, token)?.as_str())?,
        Node::Quoted(token) => plain_term(alloc, token)?,
        Node::Tagged(token, tag) => tagged_term(alloc, token, tag)?,
        Node::Typed(token, datatype) => {
            typed_term(alloc, token, iri_of(alloc, symbols, datatype)?.as_str())?
        }
        Node::Number(token) => number_term(alloc, token)?,
        Node::Boolean(token) => boolean_term(alloc, token)?,
        Node::Type(_) => type_term(alloc)?,
    };
    Ok(Place::Term(term))
}
