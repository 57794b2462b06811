//! Triples are numbered as they come.
ghost use Rattle.std.specs.Prelude.{◌≡◌, ◌↔◌, Err, IsTrue, IfOk, OnOk, OnErr};
ghost use Rattle.bm_term.specs.Graph.{graph_of};
ghost use Rattle.bm_term.specs.Kept.{after};
ghost use Rattle.term_numbers.specs.Numbering.{numbering_of};
ghost use Rattle.term_numbers.specs.Sights.{nothing_yet};
ghost use Rattle.term_numbers.specs.declared.fault.NumberFault.TheVariants.{TooManyTriples};

use crate::fault::NumberFault;
use crate::numbering::number_seen;
use crate::numbers::Numbers;
use crate::seen::see_triple;
use bm_term::{Taker, Term, Triple};
use indexmap::IndexSet;
use std::alloc::{AllocError, Global};
use std::hash::{BuildHasher, BuildHasherDefault, DefaultHasher};
use std::marker::Model;

/// A taker with a limit, which numbers triples as they come. It is seen as what it keeps: the distinct triples in the
/// order of first sight, the limit, and whether there were more.
///
/// It has each text once, and three numbers for each triple. No text is copied. More than
/// 4,294,967,295 nodes or predicates are want of memory too, as no number of four bytes is left.
#[derive(Drop)]
pub struct Builder<S: BuildHasher = BuildHasherDefault<DefaultHasher>> {
    nodes: IndexSet<Term, S>,
    predicates: IndexSet<Term, S>,
    places: IndexSet<(u32, u32, u32), S>,
    last: (u32, u32, u32),
    limit: u32,
    were_more: bool,
}

impl<S: BuildHasher> Model for Builder<S> {
    ghost use Rattle.std.specs.Prelude.{Some, map};
    ghost use Rattle.bm_term.specs.Kept.{Kept};
    ghost use Rattle.term_numbers.specs.held.Seen.{triples_at, AllAreSeen};

    ghost Value = { Kept };

    ghost view = { λ b. record { list = triples_at b.nodes.keys b.predicates.keys b.places.keys; limit = Some b.limit; were_more = b.were_more } };

    ghost invariant = { λ b. AllAreSeen b.were_more b.nodes.keys b.predicates.keys b.places.keys };
}

impl Builder<BuildHasherDefault<DefaultHasher>> {
    /// A builder that keeps at most so many distinct triples. It has none yet.
    pub fn new(alloc: Global, limit: u32) -> Self
        ensures { result ≡ nothing_yet limit }
    {
        Builder::with_hasher(alloc, BuildHasherDefault::new(), limit)
    }
}

impl<S: BuildHasher + Copy> Builder<S> {
    /// The same, where texts are hashed as the caller says. Who has the system at hand passes a
    /// [`RandomState`](std::hash::RandomState).
    pub fn with_hasher(alloc: Global, hashers: S, limit: u32) -> Self
        ensures { result ≡ nothing_yet limit }
    {
        Builder {
            nodes: IndexSet::with_hasher(alloc, hashers),
            predicates: IndexSet::with_hasher(alloc, hashers),
            places: IndexSet::with_hasher(alloc, hashers),
            last: (0, 0, 0),
            limit,
            were_more: false,
        }
    }
}

impl<S: BuildHasher> Builder<S> {
    /// Takes a triple.
    pub(crate) fn see(&mut self, triple: Triple) -> Result<(), AllocError>
        ensures ok { OnOk result (self.new ≡ after self.old triple) }
        ensures err { OnErr result (self.new ≡ self.old) }
    {
        if self.were_more {
            return Ok(());
        }
        // Nothing may fail once the predicate is there, as each predicate has to be that of a triple.
        self.places.reserve(1)?;
        let places = see_triple(&mut self.nodes, &mut self.predicates, self.last, triple)?;
        self.last = places;
        if self.places.len() == self.limit as usize {
            self.were_more = !self.places.contains(&places);
        } else {
            self.places.insert(places)?;
        }
        Ok(())
    }
}

impl<S: BuildHasher + Drop> Builder<S> {
    /// The numbers of the triples that were taken. `TooManyTriples` comes exactly where there were more than the limit, and
    /// `Memory` where memory runs out, or where there is no number of four bytes left.
    pub fn finish(self) -> Result<Numbers, NumberFault>
        ensures numbering { IfOk result (λ numbers. numbers ≡ numbering_of (graph_of self.list)) }
        ensures many { (result ≡ Err TooManyTriples) ↔ IsTrue self.were_more }
    {
        if self.were_more {
            return Err(NumberFault::TooManyTriples);
        }
        let Builder {
            nodes,
            predicates,
            places,
            ..
        } = self;
        let alloc = *places.allocator();
        let triples = places.as_slice().to_vec(alloc)?;
        drop(places);
        let numbers = number_seen(alloc, nodes.as_slice(), predicates.as_slice(), triples)?;
        Ok(numbers)
    }
}

impl<S: BuildHasher> Taker for Builder<S> {
    ghost kept = { λ b. b };

    fn take(&mut self, triple: Triple) -> Result<(), AllocError> {
        self.see(triple)
    }
}
