use index_file::Part;
use sparql_parse::QueryFault;

/// Why a query is refused, with what its line names.
#[derive(Debug, Drop)]
pub(crate) enum QueryRefusal {
    /// The text denotes no query: its first fault.
    Fault { fault: QueryFault },
    /// The pattern is not well designed: the number, from 1, of the first OPTIONAL that fails, and the name of the least
    /// variable that offends there.
    NotWellDesigned { optional: u8, name: String },
    /// A triple pattern has three variables: the least number of such a one, from 1.
    ThreePlaces { pattern: u16 },
    /// A variable is at a predicate place and at a node place: the name of the least such variable.
    CrossPlace { name: String },
}

/// Why a command is refused, with what its line names.
#[derive(Debug, Drop)]
pub(crate) enum Refusal<'a> {
    /// The words are no command.
    Usage,
    /// The data has a bad line, of which this is the first, counted from 1.
    BadLine { line: u64 },
    /// The query is refused.
    Query { refusal: QueryRefusal },
    /// A file has more bytes than its limit.
    TooLong { name: &'a str, limit: u64 },
    /// The data has more distinct triples than may be.
    TooManyTriples,
    /// The index of the data would be too long.
    ImageTooLong,
    /// The file is no index: the first part whose condition does not hold.
    Damaged { part: Part },
}

impl Refusal<'_> {
    ghost use Rattle.std.specs.Prelude.{◌≡◌};
    ghost use Rattle.bm_top.specs.Lines.{refusal_status};

    /// The status that the program ends with.
    pub(crate) fn status(&self) -> u8
        ensures { result ≡ refusal_status self.now }
    {
        match self {
            Refusal::Usage => 1,
            Refusal::BadLine { .. } => 2,
            Refusal::Query { .. } => 3,
            Refusal::Damaged { .. } => 4,
            Refusal::TooLong { .. } | Refusal::TooManyTriples | Refusal::ImageTooLong => 8,
        }
    }
}
