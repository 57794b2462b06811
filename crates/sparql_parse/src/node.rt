//! Subjects, verbs and objects, as their tokens.
ghost use Rattle.std.specs.Prelude.{◌≡◌};
ghost use Rattle.query_tokens.specs.Token.{shown};
ghost use Rattle.query_grammar.specs.Terminals.{terminal_of};
ghost use Rattle.sparql_parse.specs.computed.Building.{node_of, with_datatype, with_tag};
ghost use Rattle.sparql_parse.specs.held.Nodes.{IsSound, node_in};
ghost use Rattle.query_values.specs.reading.Values.{IsSpelled};

use query_grammar::{Terminal, terminal_of};
use query_tokens::Token;

/// A subject, a verb or an object: a variable, an IRI of any spelling, a string, which may have a tag or a
/// datatype, a number, `true` or `false`, or the word `a`.
#[derive(Clone, Copy, Debug)]
pub(crate) enum Node<'a> {
    Variable(Token<'a>),
    Iri(Token<'a>),
    Quoted(Token<'a>),
    Tagged(Token<'a>, Token<'a>),
    Typed(Token<'a>, Token<'a>),
    Number(Token<'a>),
    Boolean(Token<'a>),
    Type(Token<'a>),
}

/// The node that begins with a token.
pub(crate) fn node_of<'a>(token: Token<'a>) -> Node<'a>
    requires { IsSpelled (shown token) }
    ensures node { node_in result ≡ node_of (terminal_of (shown token.entry)) (shown token.entry) }
    ensures sound { IsSound (node_in result) }
{
    match terminal_of(&token) {
        Terminal::Variable => Node::Variable(token),
        Terminal::Iri | Terminal::Prefixed | Terminal::Prefix => Node::Iri(token),
        Terminal::Quoted => Node::Quoted(token),
        Terminal::Number => Node::Number(token),
        Terminal::Boolean => Node::Boolean(token),
        _ => Node::Type(token),
    }
}

/// A string with the tag after it; another node stays as it is, and so it does where the token is no tag.
pub(crate) fn with_tag<'a>(tag: Token<'a>, node: Node<'a>) -> Node<'a>
    requires spelled { IsSpelled (shown tag) }
    requires sound { IsSound (node_in node) }
    ensures node { node_in result ≡ with_tag (terminal_of (shown tag.entry)) (shown tag.entry) (node_in node.entry) }
    ensures sound { IsSound (node_in result) }
{
    match (terminal_of(&tag), node) {
        (Terminal::Tag, Node::Quoted(token)) => Node::Tagged(token, tag),
        _ => node,
    }
}

/// A string with the IRI of the datatype after it; another node stays as it is, and so it does where the
/// token is no IRI.
pub(crate) fn with_datatype<'a>(datatype: Token<'a>, node: Node<'a>) -> Node<'a>
    requires spelled { IsSpelled (shown datatype) }
    requires sound { IsSound (node_in node) }
    ensures node { node_in result ≡ with_datatype (terminal_of (shown datatype.entry)) (shown datatype.entry) (node_in node.entry) }
    ensures sound { IsSound (node_in result) }
{
    match (terminal_of(&datatype), node) {
        (Terminal::Iri | Terminal::Prefixed | Terminal::Prefix, Node::Quoted(token)) => {
            Node::Typed(token, datatype)
        }
        _ => node,
    }
}
