//! The declarations of prefixes.
ghost use Rattle.std.specs.Prelude.{◌≡◌, ◌==◌, OnOk, IfOk, IfSome, All, IsSome, find, option_map, reverse, map, string_bytes};
ghost use Rattle.std.specs.Cmp.Lexicographic.{pointwise};
ghost use Rattle.std.specs.Str.{chars};
ghost use Rattle.query_tokens.specs.Token.{shown};
ghost use Rattle.query_values.specs.reading.Values.{AreIriChars, IsSpelled, iri_of};
ghost use Rattle.sparql_parse.specs.computed.Names.{namespace_of, namespace_with, no_declarations, declarations_after};
ghost use Rattle.sparql_parse.specs.held.Namespaces.{declared, IsNamespace};

use query_grammar::Role;
use query_tokens::Token;
use query_values::{iri, prefix};
use std::alloc::{AllocError, Global};
use std::marker::Model;

/// A prefix, and the IRI for which it stands.
#[derive(Debug, Drop)]
pub(crate) struct Namespace {
    pub(crate) prefix: String,
    pub(crate) iri: String,
}

/// The declarations of prefixes, in the order of the text, and the prefix of one whose IRI is not read yet.
#[derive(Debug, Drop)]
pub(crate) struct Namespaces {
    last: Option<String>,
    list: Vec<Namespace>,
}

impl Model for Namespaces {
    ghost use Rattle.std.specs.Prelude.{map, option_map, string_bytes, All};
    ghost use Rattle.std.specs.Str.{chars};
    ghost use Rattle.sparql_parse.specs.computed.Names.{Declarations};
    ghost use Rattle.sparql_parse.specs.held.Namespaces.{declared, IsNamespace};

    ghost Value = { Declarations };

    ghost view = { λ n. record { prefix = option_map (λ last. chars (string_bytes last)) n.last; namespaces = map declared n.list.items } };

    ghost invariant = { λ n. All IsNamespace n.list.items };
}

impl Namespaces {
    /// No declaration.
    pub(crate) fn new(alloc: Global) -> Namespaces
        ensures { result ≡ no_declarations }
    {
        Namespaces {
            last: None,
            list: Vec::new(alloc),
        }
    }

    /// The IRI for which a prefix stands, if it is declared.
    pub(crate) fn find(&self, prefix: &str) -> Option<&str>
        ensures found { option_map (λ iri. chars iri.now) result ≡ namespace_of self.now.namespaces (chars prefix.now) }
        ensures characters { IfSome result (λ iri. AreIriChars (chars iri.now)) }
    {
        let list: &[Namespace] = &self.list;
        iri_of_prefix(list, prefix)
    }

    /// Keeps what a token declares in its role, the prefix or the IRI.
    pub(crate) fn take(
        &mut self,
        alloc: Global,
        role: Role,
        token: Token<'_>,
    ) -> Result<(), AllocError>
        requires { IsSpelled (shown token) }
        ensures { OnOk result (self.new ≡ declarations_after self.old role (shown token.entry)) }
    {
        match role {
            Role::Declared => self.last = Some(String::from_str(alloc, prefix(token))?),
            Role::Namespace => match self.last.take() {
                Some(prefix) => {
                    let namespace = namespace_of(alloc, prefix.as_str(), token)?;
                    self.list.push(namespace)?;
                }
                // Never comes: the tokens begin a query, so the IRI of a declaration follows its prefix.
                None => {}
            },
            _ => self.last = None,
        }
        Ok(())
    }
}

/// The namespace of a prefix that a token spells.
fn namespace_of(alloc: Global, prefix: &str, token: Token<'_>) -> Result<Namespace, AllocError>
    requires { IsSpelled (shown token) }
    ensures is { IfOk result (λ n. declared n ≡ namespace_with (chars prefix.now) (iri_of (shown token.entry))) }
    ensures text { IfOk result IsNamespace }
{
    Ok(Namespace {
        prefix: String::from_str(alloc, prefix)?,
        iri: iri(alloc, token)?,
    })
}

fn iri_of_prefix<'a>(list: &'a [Namespace], prefix: &str) -> Option<&'a str>
    requires { All IsNamespace list.now }
    ensures found { option_map (λ iri. chars iri.now) result ≡ namespace_of (map declared list.now) (chars prefix.now) }
    ensures characters { IfSome result (λ iri. AreIriChars (chars iri.now)) }
{
    match last_of(list, prefix) {
        Some(namespace) => Some(namespace.iri.as_str()),
        None => None,
    }
}

/// The last of the declarations of a prefix.
fn last_of<'a>(list: &'a [Namespace], prefix: &str) -> Option<&'a Namespace>
    requires { All IsNamespace list.now }
    ensures { option_map (λ n. n.now) result ≡ find (λ n. pointwise ◌==◌ (string_bytes n.prefix) prefix.now) (reverse list.now) }
{
    list.iter()
        .rev()
        .find(|namespace| namespace.prefix.as_str() == prefix)
}
