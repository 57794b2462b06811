//! How long triples take to be numbered: those of a file that is named, or of a ring with tags. They are first read and
//! numbered as they come. Then they are read into a list, which is numbered, unless a second word stands after the name of
//! the file. What was found goes to the standard output, and the times to the standard error.
#![tactic(auto)]

ghost use Rattle.std.specs.Prelude.{All, IfOk};
ghost use Rattle.bm_term.specs.Triple.{IsRdfTriple};

use bm_term::{Triple, TripleList};
use nt_read::{FeedFault, read_lines};
use std::alloc::{AllocError, Global};
use std::hash::RandomState;
use std::time::Instant;
use std::{env, fs, io};
use term_numbers::{Builder, NumberFault, Numbers, number, number_by};

const NODES: u32 = 10_000;

/// The lines of a ring of nodes, of which each second one has a tag.
fn ring(alloc: Global, nodes: u32) -> io::Result<String> {
    let mut lines = String::new(alloc);
    for i in 0..nodes {
        let next = (u64::from(i) * 7 + 1) % u64::from(nodes.max(1));
        let node = format!(in alloc; "<urn:n{i}> <urn:next> <urn:n{next}> .\n")?;
        lines.push_str(node.as_str())?;
        if i % 2 == 0 {
            let tag = i % 10;
            let line = format!(in alloc; "<urn:n{i}> <urn:tag> \"t{tag}\" .\n")?;
            lines.push_str(line.as_str())?;
        }
    }
    Ok(lines)
}

/// The bytes of the file that is named, or those of a ring.
fn data(rt: &HostRuntime) -> io::Result<Vec<u8>> {
    match env::args(rt)?.nth(1) {
        Some(name) => fs::read(rt, name.as_str()),
        None => Ok(ring(rt.alloc(), NODES)?.into_bytes()),
    }
}

/// The triples of a file.
fn read(alloc: Global, bytes: &[u8]) -> Result<TripleList, FeedFault>
    ensures { IfOk result (All IsRdfTriple) }
{
    let mut triples = TripleList::new(alloc);
    read_lines(alloc, bytes, &mut triples)?;
    Ok(triples)
}

fn tell(rt: &HostRuntime, numbers: Result<Numbers, NumberFault>, start: Instant) -> io::Result<()> {
    let taken = start.elapsed(rt)?;
    match numbers {
        Ok(n) => println!(rt; "{} nodes are both, {} triples", n.shared(), n.triples())?,
        Err(fault) => println!(rt; "{fault}")?,
    }
    eprintln!(rt; "{taken:?}")
}

fn complain(rt: &HostRuntime, fault: FeedFault) -> io::Result<()> {
    match fault {
        FeedFault::NotNTriples { line } => println!(rt; "line {line} is bad"),
        FeedFault::Memory => Err(AllocError.into()),
    }
}

/// As the triples come, without a list of them. The time is that of reading too.
fn time_built(rt: &HostRuntime, bytes: &[u8]) -> io::Result<()> {
    let hashers = RandomState::new(rt)?;
    let start = Instant::now(rt)?;
    let mut builder = Builder::with_hasher(rt.alloc(), hashers, u32::MAX);
    match read_lines(rt.alloc(), bytes, &mut builder) {
        Ok(()) => tell(rt, builder.finish(), start),
        Err(fault) => complain(rt, fault),
    }
}

/// As a program without the system at hand does it.
fn time_keyed(rt: &HostRuntime, triples: &[Triple]) -> io::Result<()>
    requires { All IsRdfTriple triples.now }
{
    let start = Instant::now(rt)?;
    let numbers = number(rt.alloc(), triples, u32::MAX);
    tell(rt, numbers, start)
}

/// With keys from the system.
fn time_random(rt: &HostRuntime, triples: &[Triple]) -> io::Result<()>
    requires { All IsRdfTriple triples.now }
{
    let hashers = RandomState::new(rt)?;
    let start = Instant::now(rt)?;
    let numbers = number_by(rt.alloc(), hashers, triples, u32::MAX);
    tell(rt, numbers, start)
}

fn main(rt: HostRuntime) -> io::Result<()> {
    let bytes = data(&rt)?;
    time_built(&rt, &bytes)?;
    if env::args(&rt)?.nth(2).is_some() {
        return Ok(());
    }
    match read(rt.alloc(), &bytes) {
        Ok(triples) => {
            time_keyed(&rt, triples.as_slice())?;
            time_random(&rt, triples.as_slice())
        }
        Err(fault) => complain(&rt, fault),
    }
}
