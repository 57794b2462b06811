//! The names and prefixes of a query, and its limits.
ghost use Rattle.std.specs.Prelude.{◌≡◌, ◌⊎◌, ◌<◌, [], OnOk, OnErr, IfErr, IfSome, None, Some, length, position, option_map};
ghost use Rattle.std.specs.Str.{chars};
ghost use Rattle.query_tokens.specs.Token.{shown};
ghost use Rattle.query_grammar.specs.Roles.{with_role};
ghost use Rattle.query_grammar.specs.Terminals.{terminal_of};
ghost use Rattle.query_tokens.specs.declared.token.TokenKind.TheVariants as kinds;
ghost use Rattle.query_values.specs.reading.Values.{AreIriChars, IsSpelled, name_of};
ghost use Rattle.alg_model.specs.Limits.{max_variables};
ghost use Rattle.sparql_parse.specs.computed.Names.{is_text, namespace_of, names_after};
ghost use Rattle.sparql_parse.specs.computed.Faults.{is_unknown, uses_prefix};
ghost use Rattle.sparql_parse.specs.computed.Symbols.{IsWithin, fault_after, is_new_name, symbols_after, symbols_of};

use crate::fault::QueryFault;
use crate::namespaces::Namespaces;
use crate::tally::Tally;
use alg_model::Names;
use query_grammar::{Role, Terminal};
use query_tokens::{Token, TokenKind};
use query_values::{prefix, variable_name};
use std::alloc::{AllocError, Global};
use std::marker::Model;

/// What is kept of the tokens of a query so far: the names of its variables, the declarations of its
/// prefixes, and how many there are of what has a limit. Contracts see it as `Symbols`.
#[derive(Debug, Drop)]
pub(crate) struct SymbolTable {
    alloc: Global,
    names: Names,
    namespaces: Namespaces,
    tally: Tally,
}

impl Model for SymbolTable {
    ghost use Rattle.std.specs.Prelude.{◌≤◌, length};
    ghost use Rattle.sparql_parse.specs.computed.Symbols.{Symbols, IsWithin};

    ghost Value = { Symbols };

    ghost view = { λ n. record { names = n.names; declarations = n.namespaces; tally = n.tally } };

    ghost invariant = { λ n. IsWithin n.names n.tally };
}

impl SymbolTable {
    /// Before the first token.
    #[tactic(auto, unfolding(crate::specs::computed::Names::names_of, crate::specs::computed::Names::declarations_of))]
    pub(crate) fn new(alloc: Global) -> SymbolTable
        ensures { result ≡ symbols_of [] }
    {
        SymbolTable {
            alloc,
            names: Names::new(alloc),
            namespaces: Namespaces::new(alloc),
            tally: Tally {
                objects: 0,
                optionals: 0,
                groups: 0,
            },
        }
    }

    /// The number of a variable: the place of its name, if it is there.
    pub(crate) fn number(&self, name: &[u8]) -> Option<usize>
        ensures place { result ≡ position (is_text name.now) self.now.names }
        ensures few { IfSome result (λ number. number < max_variables) }
    {
        self.names.position(name)
    }

    /// The IRI for which a prefix stands, if it is declared.
    pub(crate) fn namespace(&self, prefix: &str) -> Option<&str>
        ensures found { option_map (λ iri. chars iri.now) result ≡ namespace_of self.now.declarations.namespaces (chars prefix.now) }
        ensures characters { IfSome result (λ iri. AreIriChars (chars iri.now)) }
    {
        self.namespaces.find(prefix)
    }

    /// The names.
    pub(crate) fn into_names(self) -> Names
        ensures { result ≡ self.names }
    {
        let SymbolTable {
            alloc: _,
            names,
            namespaces: _,
            tally: _,
        } = self;
        names
    }

    /// Takes a token in its role, after which so many groups are open. `Err` is the token's fault, and
    /// then the table is of no use; or memory ran out.
    pub(crate) fn take(
        &mut self,
        role: Role,
        terminal: Terminal,
        token: Token<'_>,
        depth: usize,
    ) -> Result<(), QueryFault>
        requires spelled { IsSpelled (shown token) }
        requires terminal { terminal ≡ terminal_of (shown token) }
        ensures kept { OnOk result (self.new ≡ symbols_after self.old (with_role role (shown token.entry))) }
        ensures none { OnOk result (fault_after self.old depth (with_role role (shown token.entry)) ≡ None) }
        ensures fault { IfErr result (λ fault. (fault ≡ QueryFault.Memory) ⊎ (fault_after self.old depth (with_role role (shown token.entry)) ≡ Some fault)) }
    {
        match self.fault(role, terminal, token, depth) {
            Some(fault) => Err(fault),
            None => Ok(self.keep(role, terminal, token)?),
        }
    }

    /// The fault of a token.
    fn fault(
        &self,
        role: Role,
        terminal: Terminal,
        token: Token<'_>,
        depth: usize,
    ) -> Option<QueryFault>
        requires spelled { IsSpelled (shown token) }
        requires terminal { terminal ≡ terminal_of (shown token) }
        ensures { result ≡ fault_after self.now depth (with_role role (shown token.entry)) }
    {
        if self.is_unknown(role, token) {
            return Some(QueryFault::UnknownPrefix { at: token.at });
        }
        let tally = self.tally.after(role);
        tally.fault(self.names_after(terminal, token), depth, token.at)
    }

    /// Whether a token uses a prefix that is not declared.
    fn is_unknown(&self, role: Role, token: Token<'_>) -> bool
        requires { IsSpelled (shown token) }
        ensures { result ≡ is_unknown self.now.declarations.namespaces (with_role role (shown token.entry)) }
    {
        uses_prefix(token.kind, role) && self.namespaces.find(prefix(token)).is_none()
    }

    /// How many names there are after a token.
    fn names_after(&self, terminal: Terminal, token: Token<'_>) -> usize
        ensures { result ≡ length (names_after self.now.names terminal (shown token.entry)) }
    {
        if is_new(&self.names, terminal, token) {
            self.names.len() + 1
        } else {
            self.names.len()
        }
    }

    /// Keeps what is to be kept of a token that has no fault.
    fn keep(&mut self, role: Role, terminal: Terminal, token: Token<'_>) -> Result<(), AllocError>
        requires spelled { IsSpelled (shown token) }
        requires terminal { terminal ≡ terminal_of (shown token) }
        requires within { let after = symbols_after self.old (with_role role (shown token)) in IsWithin after.names after.tally }
        ensures { OnOk result (self.new ≡ symbols_after self.old (with_role role (shown token.entry))) }
    {
        add_name(&mut self.names, terminal, token)?;
        self.namespaces.take(self.alloc, role, token)?;
        self.tally = self.tally.after(role);
        Ok(())
    }
}

/// Whether a token is a variable whose name is not there yet.
fn is_new(names: &Names, terminal: Terminal, token: Token<'_>) -> bool
    ensures { result ≡ is_new_name names.now terminal (shown token.entry) }
{
    match terminal {
        Terminal::Variable => names.position(variable_name(token)).is_none(),
        _ => false,
    }
}

/// Puts the name of a variable at the end, unless it is there.
fn add_name(names: &mut Names, terminal: Terminal, token: Token<'_>) -> Result<(), AllocError>
    requires spelled { IsSpelled (shown token) }
    requires terminal { terminal ≡ terminal_of (shown token) }
    ensures ok { OnOk result (names.new ≡ names_after names.old terminal (shown token.entry)) }
    ensures err { OnErr result (names.new ≡ names.old) }
{
    if is_new(names, terminal, token) {
        names.push(name_text(token))?;
    }
    Ok(())
}

/// The name of a variable, as a text.
fn name_text<'a>(token: Token<'a>) -> &'a str
    requires spelled { IsSpelled (shown token) }
    requires variable { token.kind ≡ kinds.Variable }
    ensures { result.now ≡ name_of (shown token.entry) }
{
    match str::from_utf8(variable_name(token)) {
        Ok(name) => name,
        Err(_) => unreachable!(),
    }
}

/// Whether a token of this kind and role uses a prefix.
fn uses_prefix(kind: TokenKind, role: Role) -> bool
    ensures { result ≡ uses_prefix kind role }
{
    match (kind, role) {
        (_, Role::Declared) => false,
        (TokenKind::Prefix | TokenKind::Prefixed, _) => true,
        _ => false,
    }
}
