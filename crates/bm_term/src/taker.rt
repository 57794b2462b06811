//! What takes triples one by one.
ghost use Rattle.std.specs.Prelude.{◌≡◌, OnOk, OnErr};
ghost use Rattle.bm_term.specs.Kept.{Kept, after, unlimited};
ghost use Rattle.bm_term.specs.Triple.{IsRdfTriple};

use crate::Triple;
use std::alloc::{AllocError, Global};
use std::marker::Model;

/// What takes triples. Contracts see a list of triples, a limit or none, and a mark that says
/// whether there were more.
pub trait Taker {
    /// What is kept.
    ghost kept: { Self → Kept };

    /// Takes one triple, whose subject is an IRI or a blank node and whose predicate is an IRI. An `Err`,
    /// which comes only where memory runs out, changes nothing.
    fn take(&mut self, triple: Triple) -> Result<(), AllocError>
        requires { IsRdfTriple triple }
        ensures ok { OnOk result (kept self.new ≡ after (kept self.old) triple) }
        ensures err { OnErr result (kept self.new ≡ kept self.old) };
}

/// A taker without a limit. It is seen as its list of triples.
#[derive(Debug, Drop)]
pub struct TripleList {
    triples: Vec<Triple>,
}

impl Model for TripleList {
    ghost use Rattle.std.specs.Prelude.{List};
    ghost use Rattle.bm_term.specs.declared.triple.Triple.{Triple};

    ghost Value = { List Triple };

    ghost view = { λ list. list.triples.items };
}

impl TripleList {
    ghost use Rattle.std.specs.Prelude.{◌≡◌, []};

    /// An empty list.
    pub fn new(alloc: Global) -> TripleList
        ensures { result ≡ [] }
    {
        TripleList {
            triples: Vec::new(alloc),
        }
    }

    /// The triples.
    pub fn as_slice(&self) -> &[Triple]
        ensures { result.now ≡ self.now }
    {
        self.triples.as_slice()
    }

    /// The triples, given up.
    pub fn into_vec(self) -> Vec<Triple>
        ensures { result.items ≡ self }
    {
        self.triples
    }
}

impl Taker for TripleList {
    ghost kept = { unlimited };

    fn take(&mut self, triple: Triple) -> Result<(), AllocError> {
        self.triples.push(triple)?;
        Ok(())
    }
}
