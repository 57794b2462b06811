// The words and signs that this project names where a query has one that it does not support.
ghost use Rattle.std.specs.Prelude.{◌==◌, ◌≡◌, find};
ghost use Rattle.std.specs.Cmp.Lexicographic.{pointwise};
ghost use Rattle.std.specs.Str.{str_eq_ignore_ascii_case};
ghost use Rattle.query_tokens.specs.Token.{shown};
ghost use Rattle.query_grammar.specs.Words.{keywords, quotes, signs, unsupported_word, word_text};

use query_tokens::{Token, TokenKind};

/// A word, a sign or another token with which a part of SPARQL 1.1 begins that the grammar of this project
/// leaves out. What stands only further inside of such a part, as `NOT`, `AS`, `BY` and `)`, is not among them.
/// SELECT and `*` stand in the grammar, but at one place each.
#[derive(Clone, Copy, Debug, PartialEq, Eq)]
pub enum Word {
    /// `ADD`
    Add,
    /// `ASK`
    Ask,
    /// `BASE`
    Base,
    /// `BIND`
    Bind,
    /// `CLEAR`
    Clear,
    /// `CONSTRUCT`
    Construct,
    /// `COPY`
    Copy,
    /// `CREATE`
    Create,
    /// `DELETE`
    Delete,
    /// `DESCRIBE`
    Describe,
    /// `DROP`
    Drop,
    /// `FILTER`
    Filter,
    /// `FROM`
    From,
    /// `GRAPH`
    Graph,
    /// `GROUP`
    Group,
    /// `HAVING`
    Having,
    /// `INSERT`
    Insert,
    /// `LIMIT`
    Limit,
    /// `LOAD`
    Load,
    /// `MINUS`
    Minus,
    /// `MOVE`
    Move,
    /// `OFFSET`
    Offset,
    /// `ORDER`
    Order,
    /// `REDUCED`
    Reduced,
    /// `SELECT`
    Select,
    /// `SERVICE`
    Service,
    /// `UNION`
    Union,
    /// `VALUES`
    Values,
    /// `WITH`
    With,
    /// `(`
    RoundOpen,
    /// `[`
    SquareOpen,
    /// `/`
    Slash,
    /// `|`
    Bar,
    /// `^`
    Caret,
    /// `+`
    Plus,
    /// `*`
    Star,
    /// `?`
    Question,
    /// `!`
    Bang,
    /// Three quotation marks `"` in a row.
    ThreeDouble,
    /// Three quotation marks `'` in a row.
    ThreeSingle,
    /// A blank node label, which is named by its `_:` alone.
    Blank,
}

// The words, which are read without case.
const KEYWORDS: [Word; 29] = [
    Word::Add,
    Word::Ask,
    Word::Base,
    Word::Bind,
    Word::Clear,
    Word::Construct,
    Word::Copy,
    Word::Create,
    Word::Delete,
    Word::Describe,
    Word::Drop,
    Word::Filter,
    Word::From,
    Word::Graph,
    Word::Group,
    Word::Having,
    Word::Insert,
    Word::Limit,
    Word::Load,
    Word::Minus,
    Word::Move,
    Word::Offset,
    Word::Order,
    Word::Reduced,
    Word::Select,
    Word::Service,
    Word::Union,
    Word::Values,
    Word::With,
];

// The signs.
const SIGNS: [Word; 9] = [
    Word::RoundOpen,
    Word::SquareOpen,
    Word::Slash,
    Word::Bar,
    Word::Caret,
    Word::Plus,
    Word::Star,
    Word::Question,
    Word::Bang,
];

// The marks with which long strings begin.
const QUOTES: [Word; 2] = [Word::ThreeDouble, Word::ThreeSingle];

impl Word {
    /// The text by which the word is named: a keyword in upper case, a sign as it is written, `_:` for a
    /// blank node label.
    pub fn text(self) -> &'static str
        ensures { result.now ≡ word_text self }
    {
        match self {
            Word::Add => "ADD",
            Word::Ask => "ASK",
            Word::Base => "BASE",
            Word::Bind => "BIND",
            Word::Clear => "CLEAR",
            Word::Construct => "CONSTRUCT",
            Word::Copy => "COPY",
            Word::Create => "CREATE",
            Word::Delete => "DELETE",
            Word::Describe => "DESCRIBE",
            Word::Drop => "DROP",
            Word::Filter => "FILTER",
            Word::From => "FROM",
            Word::Graph => "GRAPH",
            Word::Group => "GROUP",
            Word::Having => "HAVING",
            Word::Insert => "INSERT",
            Word::Limit => "LIMIT",
            Word::Load => "LOAD",
            Word::Minus => "MINUS",
            Word::Move => "MOVE",
            Word::Offset => "OFFSET",
            Word::Order => "ORDER",
            Word::Reduced => "REDUCED",
            Word::Select => "SELECT",
            Word::Service => "SERVICE",
            Word::Union => "UNION",
            Word::Values => "VALUES",
            Word::With => "WITH",
            Word::RoundOpen => "(",
            Word::SquareOpen => "[",
            Word::Slash => "/",
            Word::Bar => "|",
            Word::Caret => "^",
            Word::Plus => "+",
            Word::Star => "*",
            Word::Question => "?",
            Word::Bang => "!",
            Word::ThreeDouble => "\"\"\"",
            Word::ThreeSingle => "'''",
            Word::Blank => "_:",
        }
    }
}

// The keyword that a word is, read without case.
fn keyword(text: &[u8]) -> Option<Word>
    ensures { result ≡ find (λ word. str_eq_ignore_ascii_case text.now (word_text word)) keywords }
{
    KEYWORDS
        .iter()
        .copied()
        .find(|word| text.eq_ignore_ascii_case(word.text().as_bytes()))
}

// The sign that a text is.
fn sign(text: &[u8]) -> Option<Word>
    ensures { result ≡ find (λ word. pointwise ◌==◌ text.now (word_text word)) signs }
{
    SIGNS
        .iter()
        .copied()
        .find(|word| text == word.text().as_bytes())
}

// The quotation marks that a text is.
fn quotation_marks(text: &[u8]) -> Option<Word>
    ensures { result ≡ find (λ word. pointwise ◌==◌ text.now (word_text word)) quotes }
{
    QUOTES
        .iter()
        .copied()
        .find(|word| text == word.text().as_bytes())
}

/// The word or sign that a token is, among those with which a part of SPARQL 1.1 begins that this project
/// leaves out; `None` where the token is none of them.
#[tactic(auto, unfolding(crate::specs::Words::unsupported_word))]
pub fn unsupported_word(token: &Token) -> Option<Word>
    ensures { result ≡ unsupported_word (shown token.now) }
{
    match token.kind {
        TokenKind::Word => keyword(token.text),
        TokenKind::Sign => sign(token.text),
        TokenKind::Quotes => quotation_marks(token.text),
        TokenKind::Blank => Some(Word::Blank),
        _ => None,
    }
}
