//! Why bytes are no index.
ghost use Rattle.std.specs.Prelude.{◌≡◌};
ghost use Rattle.index_file.specs.Damage.{part_name};

use std::fmt;
use thiserror::Error;

/// A part of an index file. Each has one condition; the conditions are tried in this order.
#[derive(Clone, Copy, PartialEq, Eq, Debug, Drop)]
pub enum Part {
    /// The name, the version, and room for the numbers after it.
    Header,
    /// The lengths that are written.
    Length,
    /// The texts of the terms.
    Terms,
    /// Where the slices start.
    Directory,
    /// The rows of the slices.
    Rows,
    /// How many triples each family has.
    Counts,
    /// Whether the families have the same triples.
    Agreement,
}

impl Part {
    /// The name of the part.
    pub fn name(self) -> &'static str
        ensures { result.now ≡ part_name self }
    {
        match self {
            Part::Header => "header",
            Part::Length => "length",
            Part::Terms => "terms",
            Part::Directory => "directory",
            Part::Rows => "rows",
            Part::Counts => "counts",
            Part::Agreement => "agreement",
        }
    }
}

impl fmt::Display for Part {
    fn fmt<W: fmt::Write>(&self, f: &mut fmt::Formatter<W>) -> fmt::Result {
        write!(f, "{}", self.name())
    }
}

/// Bytes are no index: the condition of a part does not hold, and it is the first.
#[derive(Clone, Copy, PartialEq, Eq, Debug, Drop, Error)]
#[error("the index is damaged: {part}")]
pub struct Damaged {
    /// The first part whose condition does not hold.
    pub part: Part,
}
