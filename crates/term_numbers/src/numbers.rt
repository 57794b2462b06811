//! Terms with numbers.
ghost use Rattle.std.specs.Prelude.{◌≡◌, ◌++◌, ℕ, map, IfOk, OnOk};
ghost use Rattle.term_numbers.specs.Numbering.{Terms, Numbering};
ghost use Rattle.term_numbers.specs.Order.{Numbered};
ghost use Rattle.term_numbers.specs.held.Entries.{texts_in};

use crate::entry::Entry;
use crate::fault::number_from;
use crate::group::Groups;
use crate::table::Table;
use bm_term::TermRef;
use std::alloc::{AllocError, Global};
use std::marker::Model;

/// The numbering of a graph: its terms in four ascending lists, and its triples by the numbers of their terms. It owns
/// the texts: they are in one piece of memory, in the order of the term table.
///
/// The term table has the terms that are subject and object, then the subjects alone, then the objects alone, then the
/// predicates. A subject's number is its place among the first two lists in a row, an object's its place among the first
/// and the third, and a predicate's its place among the predicates. A term that is a predicate and a node is there twice.
#[derive(Debug, Drop)]
pub struct Numbers {
    table: Table,
    shared: u32,
    subjects: u32,
    objects: u32,
    predicates: u32,
    triples: Vec<(u32, u32, u32)>,
}

impl Model for Numbers {
    ghost use Rattle.term_numbers.specs.Numbering.{Terms, Numbering};
    ghost use Rattle.term_numbers.specs.held.Counts.{terms_at, AreCounts};

    ghost Value = { Numbering };

    ghost view = { λ n. record { terms = terms_at n.shared n.subjects n.objects n.table; triples = n.triples.items } };

    ghost invariant = { λ n. AreCounts n.shared n.subjects n.objects n.predicates n.table n.triples.items };
}

impl Numbers {
    ghost use Rattle.std.specs.Prelude.{◌≡◌, ◌<◌, length, Some};
    ghost use Rattle.std.specs.List.{slice_get};
    ghost use Rattle.bm_term.specs.TermRef.{text_of};
    ghost use Rattle.term_numbers.specs.Numbering.{term_table};

    /// How many terms are subject and object.
    pub fn shared(&self) -> u32
        ensures { result ≡ length self.now.terms.shared }
    {
        self.shared
    }

    /// How many terms are subject, and not object.
    pub fn subjects(&self) -> u32
        ensures { result ≡ length self.now.terms.subjects }
    {
        self.subjects
    }

    /// How many terms are object, and not subject.
    pub fn objects(&self) -> u32
        ensures { result ≡ length self.now.terms.objects }
    {
        self.objects
    }

    /// How many terms are predicates.
    pub fn predicates(&self) -> u32
        ensures { result ≡ length self.now.terms.predicates }
    {
        self.predicates
    }

    /// How many triples there are.
    pub fn triples(&self) -> u32
        ensures { result ≡ length self.now.triples }
    {
        self.triples.len() as u32
    }

    /// The term at a place of the term table.
    pub fn term(&self, value: u32) -> TermRef<'_>
        requires { value < length (term_table self.now.terms) }
        ensures { slice_get (term_table self.now.terms) value ≡ Some (text_of result) }
    {
        self.table.text(value as usize)
    }

    /// The triple at a place: the numbers of its subject, its predicate and its object. The triples ascend.
    pub fn triple(&self, i: u32) -> (u32, u32, u32)
        requires { i < length self.now.triples }
        ensures { slice_get self.now.triples i ≡ Some result }
    {
        self.triples[i as usize]
    }
}

/// The terms of groups, with triples.
pub(crate) fn numbers_of(
    alloc: Global,
    groups: &Groups<'_>,
    predicates: &[Entry<'_>],
    triples: Vec<(u32, u32, u32)>,
) -> Result<Numbers, AllocError>
    ensures { IfOk result (λ numbers. numbers ≡ record {
      terms = record {
        shared = texts_in groups.now.shared.items;
        subjects = texts_in groups.now.subjects.items;
        objects = texts_in groups.now.objects.items;
        predicates = texts_in predicates.now;
      };
      triples = triples.items;
    }) }
{
    let mut table = Table::new(alloc)?;
    push_texts(&mut table, &groups.shared)?;
    push_texts(&mut table, &groups.subjects)?;
    push_texts(&mut table, &groups.objects)?;
    push_texts(&mut table, predicates)?;
    let _few = number_from(triples.len())?;
    Ok(Numbers {
        table,
        shared: number_from(groups.shared.len())?,
        subjects: number_from(groups.subjects.len())?,
        objects: number_from(groups.objects.len())?,
        predicates: number_from(predicates.len())?,
        triples,
    })
}

/// Puts the texts of entries at the end of a table.
fn push_texts(table: &mut Table, entries: &[Entry<'_>]) -> Result<(), AllocError>
    ensures { OnOk result (table.new ≡ table.old ++ texts_in entries.now) }
{
    for entry in entries {
        table.push(entry.text.term())?;
    }
    Ok(())
}
