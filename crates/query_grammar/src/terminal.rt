// The terminal symbols of the grammar of queries.
ghost use Rattle.std.specs.Prelude.{◌==◌, ◌≡◌};
ghost use Rattle.std.specs.Cmp.Lexicographic.{pointwise};
ghost use Rattle.query_tokens.specs.Token.{shown};
ghost use Rattle.query_grammar.specs.Terminals.{sign_terminal, terminal_of, word_terminal};

use query_tokens::{Token, TokenKind};

/// The terminal symbols of the grammar: what a token can be in a query. SPARQL 1.1 Query, section 19.8.
#[derive(Clone, Copy, Debug, PartialEq, Eq)]
pub enum Terminal {
    /// The word PREFIX, without case, as the words of the next four.
    PrefixWord,
    /// The word SELECT.
    SelectWord,
    /// The word DISTINCT.
    DistinctWord,
    /// The word WHERE.
    WhereWord,
    /// The word OPTIONAL.
    OptionalWord,
    /// The word `a`, in lower case alone.
    A,
    /// The words `true` and `false`, without case.
    Boolean,
    /// A variable.
    Variable,
    /// An IRI in angle brackets.
    Iri,
    /// A prefixed name.
    Prefixed,
    /// A prefix with its colon.
    Prefix,
    /// A string in quotation marks.
    Quoted,
    /// A language tag.
    Tag,
    /// An integer, a decimal or a double.
    Number,
    /// `{`
    Open,
    /// `}`
    Close,
    /// `.`
    Stop,
    /// `;`
    Semicolon,
    /// `,`
    Comma,
    /// `*`
    Star,
    /// `^^`
    Carets,
    /// Any other token: no rule of the grammar has it.
    Other,
}

// Whether the text is this one, byte by byte.
fn is_exactly(text: &[u8], other: &[u8]) -> bool
    ensures { result ≡ pointwise ◌==◌ text.now other.now }
{
    text == other
}

// A word is read without case, except `a`.
fn word_terminal(text: &[u8]) -> Terminal
    ensures { result ≡ word_terminal text.now }
{
    if is_exactly(text, b"a") {
        Terminal::A
    } else if text.eq_ignore_ascii_case(b"PREFIX") {
        Terminal::PrefixWord
    } else if text.eq_ignore_ascii_case(b"SELECT") {
        Terminal::SelectWord
    } else if text.eq_ignore_ascii_case(b"DISTINCT") {
        Terminal::DistinctWord
    } else if text.eq_ignore_ascii_case(b"WHERE") {
        Terminal::WhereWord
    } else if text.eq_ignore_ascii_case(b"OPTIONAL") {
        Terminal::OptionalWord
    } else if text.eq_ignore_ascii_case(b"true") {
        Terminal::Boolean
    } else if text.eq_ignore_ascii_case(b"false") {
        Terminal::Boolean
    } else {
        Terminal::Other
    }
}

// The signs that stand in the grammar.
fn sign_terminal(text: &[u8]) -> Terminal
    ensures { result ≡ sign_terminal text.now }
{
    if is_exactly(text, b"{") {
        Terminal::Open
    } else if is_exactly(text, b"}") {
        Terminal::Close
    } else if is_exactly(text, b".") {
        Terminal::Stop
    } else if is_exactly(text, b";") {
        Terminal::Semicolon
    } else if is_exactly(text, b",") {
        Terminal::Comma
    } else if is_exactly(text, b"*") {
        Terminal::Star
    } else if is_exactly(text, b"^^") {
        Terminal::Carets
    } else {
        Terminal::Other
    }
}

/// The terminal symbol that a token is. Each token is one: `Other` where the grammar has none for it.
#[tactic(auto, unfolding(crate::specs::Terminals::terminal_of))]
pub fn terminal_of(token: &Token) -> Terminal
    ensures { result ≡ terminal_of (shown token.now) }
{
    match token.kind {
        TokenKind::Iri => Terminal::Iri,
        TokenKind::Prefix => Terminal::Prefix,
        TokenKind::Prefixed => Terminal::Prefixed,
        TokenKind::Variable => Terminal::Variable,
        TokenKind::Quoted => Terminal::Quoted,
        TokenKind::Tag => Terminal::Tag,
        TokenKind::Integer | TokenKind::Decimal | TokenKind::Double => Terminal::Number,
        TokenKind::Word => word_terminal(token.text),
        TokenKind::Sign => sign_terminal(token.text),
        TokenKind::Blank | TokenKind::Quotes | TokenKind::Bad => Terminal::Other,
    }
}
