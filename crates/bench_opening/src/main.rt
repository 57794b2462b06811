//! How long an index takes to be opened, and which share each condition has: that of the file that is named, or of a
//! small one. Damaged copies are opened too: each is refused by one condition, after the conditions before it. What was
//! found goes to the standard output, and the times to the standard error.
#![tactic(auto)]

use byte_tables::first_number;
use index_file::{Index, IndexCounts};
use std::alloc::{AllocError, Global};
use std::time::Instant;
use std::{env, fs, io};

/// Where the number of triples is in the head, and the number of bytes that the texts have.
const TRIPLES: usize = 28;

const TEXT_BYTES: usize = 32;

/// How long the head is.
const HEAD: usize = 44;

/// The bytes of the file that is named, or of a small index.
fn data(rt: &HostRuntime) -> io::Result<Vec<u8>> {
    match env::args(rt)?.nth(1) {
        Some(name) => fs::read(rt, name.as_str()),
        None => fs::read(rt, "two.index"),
    }
}

/// The bytes with one of them changed.
fn damaged(alloc: Global, bytes: &[u8], place: usize) -> Result<Vec<u8>, AllocError> {
    let mut copy = Vec::from_slice(alloc, bytes)?;
    if let Some(byte) = copy.get_mut(place) {
        *byte = byte.wrapping_add(1);
    }
    Ok(copy)
}

/// Where the starts of the slices begin.
fn directory_place(counts: &IndexCounts, bytes: &[u8]) -> usize {
    if bytes.len() < HEAD {
        return 0;
    }
    let texts = u64::from(counts.shared)
        + u64::from(counts.subjects)
        + u64::from(counts.objects)
        + u64::from(counts.predicates);
    let text_bytes = first_number(&bytes[TEXT_BYTES..]);
    HEAD + 4 * (texts as usize + 1) + text_bytes as usize
}

/// Opens an index, and tells how long that took.
fn time_open(rt: &HostRuntime, what: &str, bytes: &[u8]) -> io::Result<()> {
    let start = Instant::now(rt)?;
    let opened = Index::open(bytes);
    let taken = start.elapsed(rt)?;
    match opened {
        Ok(index) => println!(rt; "{} triples", index.counts().triples)?,
        Err(damage) => println!(rt; "{damage}")?,
    }
    eprintln!(rt; "{what}: {taken:?}")
}

/// Opens copies of an index that are damaged, each in a later part.
fn time_damaged(rt: &HostRuntime, counts: &IndexCounts, bytes: &[u8]) -> io::Result<()> {
    let directory = damaged(rt.alloc(), bytes, directory_place(counts, bytes))?;
    time_open(rt, "up to the directory", &directory)?;
    let triples = damaged(rt.alloc(), bytes, TRIPLES)?;
    time_open(rt, "up to the counts", &triples)
}

fn main(rt: HostRuntime) -> io::Result<()> {
    let bytes = data(&rt)?;
    if let Ok(index) = Index::open(&bytes) {
        time_damaged(&rt, &index.counts(), &bytes)?;
    }
    time_open(&rt, "all", &bytes)
}
