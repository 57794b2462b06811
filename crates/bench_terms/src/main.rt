//! How long terms take: a hundred thousand texts like those of real data are read. What was found goes to the
//! standard output, and the time to the standard error.
#![tactic(auto)]

use bm_term::TermRef;
use std::io;
use std::time::Instant;

const ROUNDS: u32 = 10_000;

const TEXTS: [&str; 10] = [
    "<http://www.wikidata.org/entity/Q42>",
    "<http://www.w3.org/1999/02/22-rdf-syntax-ns#type>",
    "<http://purl.org/dc/terms/modified>",
    "_:b0123456789abcdef",
    "\"Douglas Adams\"@en",
    "\"Дуглас Адамс\"@ru",
    "\"English writer and humourist (1952\u{2013}2001)\"@en-gb",
    "\"1952-03-11T00:00:00Z\"^^<http://www.w3.org/2001/XMLSchema#dateTime>",
    "\"So long, and thanks for all the fish.\\nThe fourth of five books, in which \\\"Fenchurch\\\" appears.\"",
    "\"42\"^^<http://www.w3.org/2001/XMLSchema#integer>",
];

/// How many of the texts are terms, and how many bytes these have.
fn read_round(read: &mut u64, bytes: &mut u64) {
    for text in TEXTS {
        if let Some(term) = TermRef::new(text.as_bytes()) {
            *read = read.wrapping_add(1);
            *bytes = bytes.wrapping_add(term.bytes().len() as u64);
        }
    }
}

fn main(rt: HostRuntime) -> io::Result<()> {
    let mut read = 0u64;
    let mut bytes = 0u64;
    let start = Instant::now(&rt)?;
    for _ in 0..ROUNDS {
        read_round(&mut read, &mut bytes);
    }
    let taken = start.elapsed(&rt)?;
    println!(rt; "{read} terms, {bytes} bytes")?;
    let each = taken
        .as_nanos()
        .checked_div(u128::from(bytes / 1000))
        .unwrap_or(0);
    eprintln!(rt; "{taken:?}, {each} ns for 1000 bytes")
}
