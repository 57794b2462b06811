//! The translation of a query, of which the tokens are read one by one.
ghost use Rattle.std.specs.Prelude.{◌≡◌, ◌<◌, ◌^◌, ◌+◌, ◌≤◌, All, IfOk, OnOk, map, if◌then◌else◌};
ghost use Rattle.query_tokens.specs.Token.{shown};
ghost use Rattle.query_grammar.specs.Grammar.{IsQuery};
ghost use Rattle.query_grammar.specs.Roles.{count_of, with_role};
ghost use Rattle.query_grammar.specs.Terminals.{terminal_of};
ghost use Rattle.query_grammar.specs.Tree.{Syntax};
ghost use Rattle.query_grammar.specs.declared.syntax.Role.TheVariants as roles;
ghost use Rattle.alg_model.specs.Pattern.{algebra_of, vars_of};
ghost use Rattle.alg_model.specs.Limits.{max_triple_patterns};
ghost use Rattle.sparql_parse.specs.computed.Building.{built, columns_after, in_role, next_settled, pattern_at, settled, start, step};
ghost use Rattle.sparql_parse.specs.held.Builds.{IsSoundState, IsTaken, IsTranslation, MayTake, labelled_in, state_in};
ghost use Rattle.sparql_parse.specs.Faults.{is_object};
ghost use Rattle.sparql_parse.specs.computed.Meaning.{Scope, each_first};
ghost use Rattle.sparql_parse.specs.held.Nodes.{IsSound, node_in};
ghost use Rattle.sparql_parse.specs.held.Scopes.{scope_in};
ghost use Rattle.query_values.specs.reading.Values.{IsSpelled};

use crate::columns::{put_column, put_variables};
use crate::group::Body;
use crate::node::{Node, node_of, with_datatype, with_tag};
use crate::place::{number, place_of};
use crate::symbols::SymbolTable;
use alg_model::{Columns, Pattern, TriplePat};
use query_grammar::Role;
use query_tokens::{Token, TokenKind};
use std::alloc::{AllocError, Global};

/// A token of a query, and its role in the grammar.
#[derive(Clone, Copy, Debug)]
pub(crate) struct ReadToken<'a> {
    pub(crate) role: Role,
    pub(crate) token: Token<'a>,
}

/// What a query means: its pattern, its columns, and whether DISTINCT stands in it.
#[derive(Debug, Drop)]
pub(crate) struct Translation {
    pub(crate) pattern: Pattern,
    pub(crate) columns: Columns,
    pub(crate) distinct: bool,
}

/// What is built of a query after its tokens so far: the SELECT clause, the open groups, and the triple
/// pattern that is read. The object that was read last is not in the body yet, as a tag or a datatype may
/// follow.
#[derive(Debug, Drop)]
pub(crate) struct Builder<'a> {
    alloc: Global,
    distinct: bool,
    all: bool,
    columns: Columns,
    body: Body,
    optional: bool,
    subject: Node<'a>,
    verb: Node<'a>,
    object: Option<Node<'a>>,
}

impl<'a> Builder<'a> {
    /// Before the first token of a query.
    fn new(alloc: Global) -> Builder<'a>
        ensures state { state_in result ≡ start }
        ensures sound { IsSoundState (state_in result) }
    {
        let token = Token {
            kind: TokenKind::Word,
            text: b"a",
            at: 0,
        };
        Builder {
            alloc,
            distinct: false,
            all: false,
            columns: Columns::new(alloc),
            body: Body::new(alloc),
            optional: false,
            subject: Node::Type(token),
            verb: Node::Type(token),
            object: None,
        }
    }

    /// The triple pattern of an object.
    fn triple(&self, symbols: &SymbolTable, object: Node<'a>) -> Result<TriplePat, AllocError>
        requires sound { IsSoundState (state_in self.now) }
        requires object { IsSound (node_in object) }
        ensures { let s = state_in self.now in IfOk result (λ t. t ≡ pattern_at (scope_in symbols.now) s.body.next (record { subject = s.subject; verb = s.verb; object = node_in object.entry })) }
    {
        Ok(TriplePat {
            subject: place_of(self.alloc, symbols, self.subject)?,
            predicate: place_of(self.alloc, symbols, self.verb)?,
            object: place_of(self.alloc, symbols, object)?,
            number: self.body.next(),
        })
    }

    /// Puts the object that was read last into the body.
    fn settle(&mut self, symbols: &SymbolTable) -> Result<(), AllocError>
        requires sound { IsSoundState (state_in self.old) }
        requires few { (state_in self.old).body.next + 1 < 2 ^ 16 }
        ensures { OnOk result (state_in self.new ≡ settled (scope_in symbols.now) (state_in self.old)) }
    {
        match self.object {
            Some(object) => {
                let pattern = self.triple(symbols, object)?;
                self.object = None;
                self.body.push(pattern)
            }
            None => Ok(()),
        }
    }

    /// A variable of the SELECT clause.
    fn column(&mut self, symbols: &SymbolTable, token: Token<'a>) -> Result<(), AllocError>
        requires { MayTake (state_in self.old) (shown token) }
        ensures { OnOk result (IsTaken (scope_in symbols.now) (state_in self.old) roles.Column (shown token.entry) (state_in self.new)) }
    {
        let var = number(symbols, token);
        put_column(&mut self.columns, var)
    }

    /// The `{` of a group.
    fn open(&mut self, symbols: &SymbolTable, token: Token<'a>) -> Result<(), AllocError>
        requires { MayTake (state_in self.old) (shown token) }
        ensures { OnOk result (IsTaken (scope_in symbols.now) (state_in self.old) roles.Open (shown token.entry) (state_in self.new)) }
    {
        self.settle(symbols)?;
        self.body.open(self.optional)?;
        self.optional = false;
        Ok(())
    }

    /// The `}` of a group.
    fn close(&mut self, symbols: &SymbolTable, token: Token<'a>) -> Result<(), AllocError>
        requires { MayTake (state_in self.old) (shown token) }
        ensures { OnOk result (IsTaken (scope_in symbols.now) (state_in self.old) roles.Close (shown token.entry) (state_in self.new)) }
    {
        self.settle(symbols)?;
        self.body.close()
    }

    /// The first token of a subject.
    fn subject(&mut self, symbols: &SymbolTable, token: Token<'a>) -> Result<(), AllocError>
        requires { MayTake (state_in self.old) (shown token) }
        ensures { OnOk result (IsTaken (scope_in symbols.now) (state_in self.old) roles.Subject (shown token.entry) (state_in self.new)) }
    {
        self.settle(symbols)?;
        self.subject = node_of(token);
        Ok(())
    }

    /// The token of a verb.
    fn verb(&mut self, symbols: &SymbolTable, token: Token<'a>) -> Result<(), AllocError>
        requires { MayTake (state_in self.old) (shown token) }
        ensures { OnOk result (IsTaken (scope_in symbols.now) (state_in self.old) roles.Verb (shown token.entry) (state_in self.new)) }
    {
        self.settle(symbols)?;
        self.verb = node_of(token);
        Ok(())
    }

    /// The first token of an object.
    fn object(&mut self, symbols: &SymbolTable, token: Token<'a>) -> Result<(), AllocError>
        requires { MayTake (state_in self.old) (shown token) }
        ensures { OnOk result (IsTaken (scope_in symbols.now) (state_in self.old) roles.Object (shown token.entry) (state_in self.new)) }
    {
        self.settle(symbols)?;
        self.object = Some(node_of(token));
        Ok(())
    }

    /// The tag of a literal, which is the object that was read last, or the subject where there is none.
    fn tag(&mut self, token: Token<'a>)
        requires sound { IsSoundState (state_in self.old) }
        requires spelled { IsSpelled (shown token) }
        ensures state { (scope : Scope) → state_in self.new ≡ in_role scope (state_in self.old) roles.Tag (terminal_of (shown token.entry)) (shown token.entry) }
        ensures sound { IsSoundState (state_in self.new) }
    {
        match self.object {
            Some(object) => self.object = Some(with_tag(token, object)),
            None => self.subject = with_tag(token, self.subject),
        }
    }

    /// The datatype of a literal, which is the object that was read last, or the subject where there is none.
    fn datatype(&mut self, token: Token<'a>)
        requires sound { IsSoundState (state_in self.old) }
        requires spelled { IsSpelled (shown token) }
        ensures state { (scope : Scope) → state_in self.new ≡ in_role scope (state_in self.old) roles.Datatype (terminal_of (shown token.entry)) (shown token.entry) }
        ensures sound { IsSoundState (state_in self.new) }
    {
        match self.object {
            Some(object) => self.object = Some(with_datatype(token, object)),
            None => self.subject = with_datatype(token, self.subject),
        }
    }

    /// Takes a token in its role. Where memory runs out, nothing is said of the builder.
    fn take(
        &mut self,
        symbols: &SymbolTable,
        role: Role,
        token: Token<'a>,
    ) -> Result<(), AllocError>
        requires { MayTake (state_in self.old) (shown token) }
        ensures { OnOk result (IsTaken (scope_in symbols.now) (state_in self.old) role (shown token.entry) (state_in self.new)) }
    {
        match role {
            Role::Keyword | Role::Declared | Role::Namespace => Ok(()),
            Role::Distinct => {
                self.distinct = true;
                Ok(())
            }
            Role::AllColumns => {
                self.all = true;
                Ok(())
            }
            Role::Optional => {
                self.optional = true;
                Ok(())
            }
            Role::Column => self.column(symbols, token),
            Role::Open => self.open(symbols, token),
            Role::Close => self.close(symbols, token),
            Role::Subject => self.subject(symbols, token),
            Role::Verb => self.verb(symbols, token),
            Role::Object => self.object(symbols, token),
            Role::Tag => {
                self.tag(token);
                Ok(())
            }
            Role::Datatype => {
                self.datatype(token);
                Ok(())
            }
        }
    }

    /// What the query means, whose last token is taken.
    fn finish(self) -> Result<Translation, AllocError>
        ensures pattern { IfOk result (λ translation. algebra_of translation.pattern ≡ (state_in self.entry).body.whole) }
        ensures columns { IfOk result (λ translation. map (λ column. column.0) translation.columns ≡ columns_after (state_in self.entry).body.whole (state_in self.entry).head) }
        ensures distinct { IfOk result (λ translation. translation.distinct ≡ (state_in self.entry).head.distinct) }
    {
        let distinct = self.distinct;
        let pattern = self.body.into_whole();
        let columns = columns_of(self.alloc, self.all, self.columns, &pattern)?;
        Ok(Translation {
            pattern,
            columns,
            distinct,
        })
    }
}

/// All variables of a pattern, or the columns that SELECT names.
fn columns_of(
    alloc: Global,
    all: bool,
    named: Columns,
    pattern: &Pattern,
) -> Result<Columns, AllocError>
    ensures { IfOk result (λ columns. map (λ column. column.0) columns ≡ (if all then each_first (vars_of (algebra_of pattern.now)) else map (λ column. column.0) named)) }
{
    if !all {
        return Ok(named);
    }
    let mut columns = Columns::new(alloc);
    put_variables(&mut columns, pattern)?;
    Ok(columns)
}

/// Takes tokens in a row.
fn take_all<'a>(
    builder: &mut Builder<'a>,
    symbols: &SymbolTable,
    tokens: &[ReadToken<'a>],
) -> Result<(), AllocError>
    requires sound { IsSoundState (state_in builder.old) }
    requires few { next_settled (state_in builder.old) + count_of is_object (map labelled_in tokens.now) + 1 < 2 ^ 16 }
    requires spelled { All (λ token. IsSpelled (shown token.token)) tokens.now }
    ensures { OnOk result (state_in builder.new ≡ built (scope_in symbols.now) (state_in builder.old) (map labelled_in tokens.now)) }
{
    for read in tokens {
        builder.take(symbols, read.role, read.token)?;
    }
    Ok(())
}

/// What a query means, of which these are the tokens in their roles, and these the names and namespaces.
pub(crate) fn translate(
    alloc: Global,
    symbols: &SymbolTable,
    tokens: &[ReadToken<'_>],
) -> Result<Translation, AllocError>
    requires few { count_of is_object (map labelled_in tokens.now) ≤ max_triple_patterns }
    requires spelled { All (λ token. IsSpelled (shown token.token)) tokens.now }
    ensures { (tree : Syntax) → IsQuery tree (map labelled_in tokens.now) → IfOk result (IsTranslation (scope_in symbols.now) tree) }
{
    let mut builder = Builder::new(alloc);
    take_all(&mut builder, symbols, tokens)?;
    builder.finish()
}
