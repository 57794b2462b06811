use crate::refusal::Refusal;

/// How a command ended.
#[derive(Debug, Drop)]
pub(crate) enum Ending<'a> {
    /// All was printed, and written.
    Done,
    /// The words, the data or the query are refused, or a file is too long.
    Refused { refusal: Refusal<'a> },
    /// A file is missing, or was not read to its end.
    ReadFault { name: &'a str },
    /// What is printed, or a file that is written, was not taken whole.
    WriteFault,
    /// Out of memory.
    Memory,
}

impl Ending<'_> {
    ghost use Rattle.std.specs.Prelude.{◌≡◌};
    ghost use Rattle.bm_top.specs.steps.Ending.{status_of};

    /// The status that the program ends with.
    pub(crate) fn status(&self) -> u8
        ensures { result ≡ status_of self.now }
    {
        match self {
            Ending::Done => 0,
            Ending::Refused { refusal } => refusal.status(),
            Ending::ReadFault { .. } => 5,
            Ending::WriteFault => 6,
            Ending::Memory => 7,
        }
    }
}
