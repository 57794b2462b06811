//! The faults of a query.
ghost use Rattle.std.specs.Prelude.{◌≡◌, ◌++◌};
ghost use Rattle.sparql_parse.specs.Causes.{byte_of, cause_text};

use query_grammar::Word;
use std::alloc::AllocError;
use std::error::Error;
use std::fmt;

/// Why a text is no query. `at` is the byte offset, from 0, of the token that has the fault; the end of the
/// text counts as a last token at the text's length. Where the text is not UTF-8, no token is looked at: the
/// fault is `Syntax` at the first byte that is not UTF-8, whatever stands before.
#[derive(Clone, Copy, Debug, PartialEq, Eq)]
pub enum QueryFault {
    /// The grammar does not go on with this token, or the text ends here and the query does not, or the text
    /// is UTF-8 only before this byte.
    Syntax { at: usize },
    /// The grammar does not go on with this token, which is a word of SPARQL that is not supported.
    Unsupported { at: usize, word: Word },
    /// A prefix without a declaration before it.
    UnknownPrefix { at: usize },
    /// The first occurrence of the 65th variable.
    TooManyVariables { at: usize },
    /// The first token of the object of the 257th triple pattern.
    TooManyPatterns { at: usize },
    /// The 64th OPTIONAL.
    TooManyOptionals { at: usize },
    /// The 257th `{`.
    TooManyGroups { at: usize },
    /// A `{` that makes 33 groups open.
    TooDeep { at: usize },
    /// Memory ran out.
    Memory,
}

impl QueryFault {
    /// The words by which the fault is named, in two parts. The second is empty but for a word that is not
    /// supported.
    pub fn cause_words(self) -> (&'static str, &'static str)
        ensures { result.0.now ++ result.1.now ≡ cause_text self }
    {
        match self {
            QueryFault::Syntax { at: _ } => ("syntax", ""),
            QueryFault::Unsupported { at: _, word } => ("unsupported ", word.text()),
            QueryFault::UnknownPrefix { at: _ } => ("unknown prefix", ""),
            QueryFault::TooManyVariables { at: _ } => ("too many variables", ""),
            QueryFault::TooManyPatterns { at: _ } => ("too many patterns", ""),
            QueryFault::TooManyOptionals { at: _ } => ("too many optionals", ""),
            QueryFault::TooManyGroups { at: _ } => ("too many groups", ""),
            QueryFault::TooDeep { at: _ } => ("too deep", ""),
            QueryFault::Memory => ("out of memory", ""),
        }
    }

    /// The byte of the text at which the fault is, from 0; `None` where memory ran out.
    pub fn at(self) -> Option<usize>
        ensures { result ≡ byte_of self }
    {
        match self {
            QueryFault::Syntax { at }
            | QueryFault::Unsupported { at, word: _ }
            | QueryFault::UnknownPrefix { at }
            | QueryFault::TooManyVariables { at }
            | QueryFault::TooManyPatterns { at }
            | QueryFault::TooManyOptionals { at }
            | QueryFault::TooManyGroups { at }
            | QueryFault::TooDeep { at } => Some(at),
            QueryFault::Memory => None,
        }
    }
}

impl fmt::Display for QueryFault {
    fn fmt<W: fmt::Write>(&self, f: &mut fmt::Formatter<W>) -> fmt::Result {
        let (cause, word) = self.cause_words();
        match self.at() {
            Some(at) => write!(f, "{cause}{word} at byte {at}"),
            None => write!(f, "{cause}{word}"),
        }
    }
}

impl Error for QueryFault {}

impl From<AllocError> for QueryFault {
    ghost use Rattle.std.specs.Prelude.{◌≡◌};
    ghost use Rattle.sparql_parse.specs.declared.fault.QueryFault.TheVariants.{Memory};

    ghost from_gives = { λ _ fault. fault ≡ Memory };

    fn from(_: AllocError) -> Self {
        QueryFault::Memory
    }
}
