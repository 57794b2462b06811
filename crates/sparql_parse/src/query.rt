//! The reading of queries.
ghost use Rattle.std.specs.Prelude.{◌≡◌, ◌⊎◌, All, IfOk, IfErr, MatchResult, OnOk, Ok, Err, map, [], ◌∷◌, ◌++◌};
ghost use Rattle.query_grammar.specs.Roles.{with_role};
ghost use Rattle.sparql_parse.specs.held.Builds.{labelled_in};
ghost use Rattle.query_tokens.specs.Token.{shown};
ghost use Rattle.query_grammar.specs.declared.expect.Expect.{Expect};
ghost use Rattle.alg_model.specs.Query.{AbstractQuery, abstract_of};
ghost use Rattle.alg_model.specs.Limits.{KeepsLimits};
ghost use Rattle.sparql_parse.specs.computed.Reading.{IsMemoryOr, first, query_of, query_reading, read_next, read_on, text_reading};
ghost use Rattle.sparql_parse.specs.held.Readers.{IsKept, labels_in, reading_in};
ghost use Rattle.query_values.specs.reading.Values.{IsSpelledOrBad};
ghost use Rattle.sparql_parse.specs.Denotes.{Denotes, IsFaultOf, word_fault};
ghost use Rattle.query_grammar.specs.Words.{unsupported_word};

use crate::build::{ReadToken, translate};
use crate::fault::QueryFault;
use crate::symbols::SymbolTable;
use alg_model::Query;
use query_grammar::{Role, State, next, terminal_of, unsupported_word};
use query_tokens::{Token, text_tokens};
use std::alloc::{AllocError, Global};

/// What is read of a query: its tokens in their roles, where it stands after them, and what is kept of
/// them.
#[derive(Debug, Drop)]
pub(crate) struct Reader<'a> {
    pub(crate) tokens: Vec<ReadToken<'a>>,
    pub(crate) state: State,
    pub(crate) symbols: SymbolTable,
}

impl<'a> Reader<'a> {
    /// Before the first token.
    fn new(alloc: Global) -> Reader<'a>
        ensures read { reading_in result ≡ first }
        ensures kept { IsKept result }
    {
        Reader {
            tokens: Vec::new(alloc),
            state: State::start(),
            symbols: SymbolTable::new(alloc),
        }
    }

    /// Reads one token more.
    fn take(&mut self, token: Token<'a>) -> Result<(), QueryFault>
        requires kept { IsKept self.old }
        requires spelled { IsSpelledOrBad (shown token) }
        ensures read { OnOk result (read_next (reading_in self.old) (shown token.entry) ≡ Ok (reading_in self.new)) }
        ensures kept { OnOk result (IsKept self.new) }
        ensures fault { IfErr result (IsMemoryOr (read_next (reading_in self.old) (shown token.entry))) }
    {
        let terminal = terminal_of(&token);
        match next(self.state, terminal) {
            None => Err(grammar_fault(token)),
            Some(step) => {
                match self
                    .symbols
                    .take(step.role, terminal, token, step.state.groups)
                {
                    Ok(()) => {}
                    Err(fault) => return Err(fault),
                }
                put_token(&mut self.tokens, step.role, token)?;
                self.state = step.state;
                Ok(())
            }
        }
    }

    /// The query of tokens that are one.
    fn into_query(self, alloc: Global) -> Result<Query, AllocError>
        requires kept { IsKept self }
        requires at_end { self.state.expect ≡ Expect.End }
        ensures query { IfOk result (λ query. abstract_of query ≡ query_of (labels_in self.entry)) }
        ensures limits { IfOk result KeepsLimits }
    {
        let translation = translate(alloc, &self.symbols, self.tokens.as_slice())?;
        Ok(Query {
            names: self.symbols.into_names(),
            pattern: translation.pattern,
            columns: translation.columns,
            distinct: translation.distinct,
        })
    }
}

/// Puts a token in its role at the end.
fn put_token<'a>(
    tokens: &mut Vec<ReadToken<'a>>,
    role: Role,
    token: Token<'a>,
) -> Result<(), AllocError>
    ensures { OnOk result (map labelled_in tokens.new.items ≡ map labelled_in tokens.old.items ++ with_role role (shown token.entry) ∷ []) }
{
    tokens.push(ReadToken { role, token })?;
    Ok(())
}

/// The fault of a token with which the grammar does not go on.
fn grammar_fault(token: Token<'_>) -> QueryFault
    ensures { result ≡ word_fault token.entry.at (unsupported_word (shown token.entry)) }
{
    match unsupported_word(&token) {
        Some(word) => QueryFault::Unsupported { at: token.at, word },
        None => QueryFault::Syntax { at: token.at },
    }
}

/// Reads tokens up to the first fault.
fn read_all<'a>(alloc: Global, tokens: &[Token<'a>]) -> Result<Reader<'a>, QueryFault>
    requires spelled { All IsSpelledOrBad (map shown tokens.now) }
    ensures read { IfOk result (λ reader. read_on first (map shown tokens.now) ≡ Ok (reading_in reader)) }
    ensures kept { IfOk result IsKept }
    ensures fault { IfErr result (IsMemoryOr (read_on first (map shown tokens.now))) }
{
    let mut reader = Reader::new(alloc);
    for token in tokens {
        match reader.take(*token) {
            Ok(()) => {}
            Err(fault) => return Err(fault),
        }
    }
    Ok(reader)
}

/// The query that a text denotes, or the first fault of the text (SPARQL 1.1 Query, sections 4, 18.2 and 19.8, as
/// far as this project reads it). A fault says at which byte of the text it stands, from 0: `Syntax` where the
/// text is UTF-8 only before that byte, or the grammar does not go on; `Unsupported` where it does not go on with a
/// word of SPARQL that this project leaves out; `UnknownPrefix` at a prefix without a declaration before it; and a
/// limit at the token that passes it. `Memory` where memory runs out, of which nothing else is said.
#[tactic(auto, unfolding(crate::specs::computed::Reading::query_reading))]
pub fn parse_query(alloc: Global, text: &[u8]) -> Result<Query, QueryFault>
    ensures reads { MatchResult result (λ query. query_reading text.now ≡ Ok (abstract_of query)) (IsMemoryOr (query_reading text.now)) }
    ensures limits { IfOk result KeepsLimits }
    ensures denotes { IfOk result (λ query. Denotes text.now (abstract_of query)) }
    ensures fault { IfErr result (λ fault. (fault ≡ QueryFault.Memory) ⊎ IsFaultOf text.now fault) }
    ensures only_query { (query : AbstractQuery) → Denotes text.now query →
        MatchResult result (λ answer. abstract_of answer ≡ query) (λ fault. fault ≡ QueryFault.Memory) }
    ensures only_fault { (fault : QueryFault) → IsFaultOf text.now fault →
        MatchResult result (λ query. ⊥) (λ answer. (answer ≡ QueryFault.Memory) ⊎ (answer ≡ fault)) }
{
    match str::from_utf8(text) {
        Ok(source) => parse_text(alloc, source),
        Err(e) => Err(QueryFault::Syntax {
            at: e.valid_up_to(),
        }),
    }
}

/// The same of a text that is UTF-8.
fn parse_text(alloc: Global, text: &str) -> Result<Query, QueryFault>
    ensures reads { MatchResult result (λ query. text_reading text.now ≡ Ok (abstract_of query)) (IsMemoryOr (text_reading text.now)) }
    ensures limits { IfOk result KeepsLimits }
{
    let tokens = text_tokens(alloc, text)?;
    let reader = match read_all(alloc, tokens.as_slice()) {
        Ok(reader) => reader,
        Err(fault) => return Err(fault),
    };
    if !reader.state.is_end() {
        return Err(QueryFault::Syntax { at: text.len() });
    }
    let query = reader.into_query(alloc)?;
    Ok(query)
}
