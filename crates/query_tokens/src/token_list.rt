ghost use Rattle.std.specs.Prelude.{◌≡◌};

use crate::token::Token;
use std::marker::Model;

/// The tokens of a source. Contracts see the list of them, each as its kind, its bytes and its place.
#[derive(Debug, Drop)]
pub struct TokenList<'a> {
    tokens: Vec<Token<'a>>,
}

impl<'a> Model for TokenList<'a> {
    ghost use Rattle.std.specs.Prelude.{List, map};
    ghost use Rattle.query_tokens.specs.Token.{Lexeme, shown};

    ghost Value = { List Lexeme };

    ghost view = { λ list. map shown list.tokens.items };
}

impl<'a> TokenList<'a> {
    ghost use Rattle.std.specs.Prelude.{◌<◌, Some, map, length, slice_get, IsTrue, ◌↔◌};
    ghost use Rattle.query_tokens.specs.Token.{shown};

    /// A list of these tokens.
    pub(crate) fn of(tokens: Vec<Token<'a>>) -> TokenList<'a>
        ensures { result ≡ map shown tokens.entry.items }
    {
        TokenList { tokens }
    }

    /// How many tokens there are.
    pub fn len(&self) -> usize
        ensures { result ≡ length self.now }
    {
        self.tokens.len()
    }

    /// Whether there is none.
    pub fn is_empty(&self) -> bool
        ensures { IsTrue result ↔ (length self.now ≡ 0) }
    {
        self.tokens.is_empty()
    }

    /// The i-th token, from 0: there are more than i.
    pub fn get(&self, i: usize) -> &Token<'a>
        requires { i < length self.now }
        ensures { slice_get self.now i ≡ Some (shown result.now) }
    {
        &self.tokens[i]
    }

    /// The tokens.
    pub fn as_slice(&self) -> &[Token<'a>]
        ensures { map shown result.now ≡ self.now }
    {
        self.tokens.as_slice()
    }
}
