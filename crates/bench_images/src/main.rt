//! How long the image of a ring of nodes takes, of which each second one has a tag. How many nodes is the first word.
//! What was made goes to the standard output, and the times to the standard error.
#![tactic(auto)]

ghost use Rattle.std.specs.Prelude.{All, IfOk, OnOk};
ghost use Rattle.bm_term.specs.Canonical.{IsCanonical, IsTextOf};
ghost use Rattle.bm_term.specs.Triple.{IsRdfTriple};
ghost use Rattle.bm_term.specs.declared.term_parts.TermKind.TheVariants.{Iri};

use bm_term::{Term, TermKind, TermRef, Triple};
use index_image::image;
use run_rows::RowForm;
use std::alloc::{AllocError, Global};
use std::time::Instant;
use std::{env, io};
use term_numbers::{MAX_TRIPLES, Numbers, number};

/// How many nodes there are where no word says so.
const NODES: u32 = 10_000;

fn term(alloc: Global, text: &str) -> io::Result<Term>
    ensures { IfOk result IsCanonical }
{
    match TermRef::new(text.as_bytes()) {
        Some(term) => Ok(Term::copy_of(alloc, term)?),
        None => Err(AllocError.into()),
    }
}

fn iri(alloc: Global, text: &str) -> io::Result<Term>
    ensures { IfOk result (IsTextOf Iri) }
{
    let Some(term) = TermRef::new(text.as_bytes()) else {
        return Err(AllocError.into());
    };
    let TermKind::Iri = term.parts().kind else {
        return Err(AllocError.into());
    };
    Ok(Term::copy_of(alloc, term)?)
}

/// The triple from a node to the next one.
fn step(alloc: Global, node: u32, next: u32) -> io::Result<Triple>
    ensures { IfOk result IsRdfTriple }
{
    let subject = format!(in alloc; "<urn:n{node}>")?;
    let object = format!(in alloc; "<urn:n{next}>")?;
    Ok(Triple {
        subject: iri(alloc, subject.as_str())?,
        predicate: iri(alloc, "<urn:next>")?,
        object: term(alloc, object.as_str())?,
    })
}

/// The triple from a node to its tag.
fn tag(alloc: Global, node: u32) -> io::Result<Triple>
    ensures { IfOk result IsRdfTriple }
{
    let subject = format!(in alloc; "<urn:n{node}>")?;
    let digit = node % 10;
    let object = format!(in alloc; "\"t{digit}\"")?;
    Ok(Triple {
        subject: iri(alloc, subject.as_str())?,
        predicate: iri(alloc, "<urn:tag>")?,
        object: term(alloc, object.as_str())?,
    })
}

/// Puts a triple at the end.
fn put(list: &mut Vec<Triple>, triple: Triple) -> io::Result<()>
    requires all { All IsRdfTriple list.old.items }
    requires one { IsRdfTriple triple }
    ensures { OnOk result (All IsRdfTriple list.new.items) }
{
    list.push(triple)?;
    Ok(())
}

/// Puts the triples of a node at the end.
fn put_node(alloc: Global, nodes: u32, node: u32, list: &mut Vec<Triple>) -> io::Result<()>
    requires { All IsRdfTriple list.old.items }
    ensures { OnOk result (All IsRdfTriple list.new.items) }
{
    let next = (u64::from(node) * 7 + 1) % u64::from(nodes.max(1));
    put(list, step(alloc, node, next as u32)?)?;
    if node % 2 == 1 {
        return Ok(());
    }
    put(list, tag(alloc, node)?)
}

/// The triples of a ring.
fn ring(alloc: Global, nodes: u32) -> io::Result<Vec<Triple>>
    ensures { IfOk result (λ list. All IsRdfTriple list.items) }
{
    let mut list = Vec::new(alloc);
    for node in 0..nodes {
        put_node(alloc, nodes, node, &mut list)?;
    }
    Ok(list)
}

/// Makes the image and says how long it took.
fn time_image(rt: &HostRuntime, numbers: &Numbers) -> io::Result<()> {
    if numbers.triples() > MAX_TRIPLES {
        return println!(rt; "too many triples");
    }
    let start = Instant::now(rt)?;
    let made = image(rt.alloc(), RowForm::V1, numbers);
    let taken = start.elapsed(rt)?;
    match made {
        Ok(bytes) => println!(rt; "{} triples in {} bytes", numbers.triples(), bytes.len())?,
        Err(fault) => println!(rt; "{fault}")?,
    }
    eprintln!(rt; "image: {taken:?}")
}

/// How many nodes the first word asks for.
fn node_count(rt: &HostRuntime) -> io::Result<u32> {
    Ok(match env::args(rt)?.nth(1) {
        Some(word) => word.as_str().parse::<u32>().unwrap_or(NODES),
        None => NODES,
    })
}

fn main(rt: HostRuntime) -> io::Result<()> {
    let triples = ring(rt.alloc(), node_count(&rt)?)?;
    let start = Instant::now(&rt)?;
    let numbered = number(rt.alloc(), &triples, MAX_TRIPLES);
    let taken = start.elapsed(&rt)?;
    eprintln!(rt; "numbers: {taken:?}")?;
    match numbered {
        Ok(numbers) => time_image(&rt, &numbers),
        Err(fault) => println!(rt; "{fault}"),
    }
}
