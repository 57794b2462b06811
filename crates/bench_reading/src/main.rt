//! How long N-Triples take to be read: a file that is named, or twenty thousand lines like those of real data, and then a
//! million such lines as a stream in pieces. What was found goes to the standard output, and the times to the standard error.
#![tactic(auto)]

use bm_term::TripleList;
use nt_read::{FeedFault, Reader, read_lines};
use std::alloc::{AllocError, Global};
use std::time::{Duration, Instant};
use std::{env, fs, io};

const ROUNDS: u32 = 2_000;

const LINES: &str = "\
<http://www.wikidata.org/entity/Q42> <http://www.w3.org/1999/02/22-rdf-syntax-ns#type> <http://xmlns.com/foaf/0.1/Person> .
<http://www.wikidata.org/entity/Q42> <http://www.w3.org/2000/01/rdf-schema#label> \"Douglas Adams\"@en .
<http://www.wikidata.org/entity/Q42> <http://www.w3.org/2000/01/rdf-schema#label> \"Дуглас Адамс\"@ru .
<http://www.wikidata.org/entity/Q42> <http://purl.org/dc/terms/modified> \"1952-03-11T00:00:00Z\"^^<http://www.w3.org/2001/XMLSchema#dateTime> .
# so long
_:b0123456789abcdef <http://xmlns.com/foaf/0.1/knows> <http://www.wikidata.org/entity/Q42> .
_:b0123456789abcdef <http://xmlns.com/foaf/0.1/age> \"42\"^^<http://www.w3.org/2001/XMLSchema#integer> .

<http://www.wikidata.org/entity/Q42> <http://purl.org/dc/terms/abstract> \"So long, and thanks for all the fish.\\nThe fourth of five books, in which \\\"Fenchurch\\\" appears.\" .
<http://www.wikidata.org/entity/Q42> <http://xmlns.com/foaf/0.1/nick> \"caf\\u00E9\" .
";

/// How often the twenty thousand lines are fed to a stream: that is a million lines.
const TURNS: u32 = 50;

/// How many bytes a piece has at most.
const PIECE: usize = 65_536;

/// Writes what was found, and how long it took.
fn tell(
    rt: &HostRuntime,
    read: Result<usize, FeedFault>,
    size: usize,
    how: &str,
    taken: Duration,
) -> io::Result<()> {
    match read {
        Ok(triples) => println!(rt; "{triples} triples, {size} bytes{how}")?,
        Err(FeedFault::NotNTriples { line }) => println!(rt; "line {line} is bad")?,
        Err(FeedFault::Memory) => return Err(AllocError.into()),
    }
    let speed = (size as u128 * 1000)
        .checked_div(taken.as_nanos())
        .unwrap_or(0);
    eprintln!(rt; "{taken:?}, {speed} MB/s")
}

/// Reads the bytes as a file that lies in memory.
fn time_whole(rt: &HostRuntime, bytes: &[u8]) -> io::Result<()> {
    let mut triples = TripleList::new(rt.alloc());
    let start = Instant::now(rt)?;
    let read = read_lines(rt.alloc(), bytes, &mut triples);
    let taken = start.elapsed(rt)?;
    let found = read.map(|()| triples.as_slice().len());
    tell(rt, found, bytes.len(), "", taken)
}

/// Feeds the bytes in pieces, and answers how many triples came. They are let go after each piece.
fn feed(alloc: Global, reader: &mut Reader, bytes: &[u8]) -> Result<usize, FeedFault> {
    let mut count: usize = 0;
    for piece in bytes.chunks(PIECE) {
        let mut triples = TripleList::new(alloc);
        reader.feed(piece, &mut triples)?;
        count = count.saturating_add(triples.as_slice().len());
    }
    Ok(count)
}

/// Feeds the bytes again and again, and ends the stream.
fn feed_turns(alloc: Global, bytes: &[u8]) -> Result<usize, FeedFault> {
    let mut reader = Reader::new(alloc);
    let mut count: usize = 0;
    for _ in 0..TURNS {
        count = count.saturating_add(feed(alloc, &mut reader, bytes)?);
    }
    let mut last = TripleList::new(alloc);
    reader.finish(&mut last)?;
    Ok(count.saturating_add(last.as_slice().len()))
}

/// Reads a million lines as a stream in pieces.
fn time_pieces(rt: &HostRuntime, bytes: &[u8]) -> io::Result<()> {
    let start = Instant::now(rt)?;
    let read = feed_turns(rt.alloc(), bytes);
    let taken = start.elapsed(rt)?;
    let size = bytes.len().saturating_mul(TURNS as usize);
    tell(rt, read, size, " in pieces", taken)
}

fn main(rt: HostRuntime) -> io::Result<()> {
    match env::args(&rt)?.nth(1) {
        Some(name) => time_whole(&rt, &fs::read(&rt, name.as_str())?),
        None => {
            let bytes = LINES.as_bytes().repeat(rt.alloc(), ROUNDS as usize)?;
            time_whole(&rt, &bytes)?;
            time_pieces(&rt, &bytes)
        }
    }
}
