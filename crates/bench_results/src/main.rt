//! How long results take to be written: a million rows like those of real data, in the form that is named, or in both.
//! What was written goes to the standard output, and the time to the standard error.
#![tactic(auto)]

mod counting_world;

use alg_model::{Columns, Names, PatList, Pattern, Query, Var};
use answer_rows::{Cell, TextRows};
use bm_term::TermRef;
use counting_world::CountingWorld;
use result_write::{Form, WriteEnd, write_rows};
use std::alloc::{AllocError, Global};
use std::time::Instant;
use std::{env, io};

const ROUNDS: u32 = 250_000;

const NAMES: [&str; 3] = ["item", "label", "modified"];

/// Four rows; an empty text is an unbound cell.
const ROWS: [[&str; 3]; 4] = [
    [
        "<http://www.wikidata.org/entity/Q42>",
        "\"Douglas Adams\"@en",
        "\"1952-03-11T00:00:00Z\"^^<http://www.w3.org/2001/XMLSchema#dateTime>",
    ],
    [
        "<http://www.wikidata.org/entity/Q42>",
        "\"Дуглас Адамс\"@ru",
        "",
    ],
    [
        "_:b0123456789abcdef",
        "\"So long, and thanks for all the fish.\\nThe fourth of five books.\"",
        "\"42\"^^<http://www.w3.org/2001/XMLSchema#integer>",
    ],
    [
        "<http://www.wikidata.org/entity/Q3107329>",
        "\"The Hitchhiker's Guide to the Galaxy\"@en-gb",
        "\"1979-10-12\"^^<http://www.w3.org/2001/XMLSchema#date>",
    ],
];

fn query(alloc: Global) -> Result<Query, AllocError> {
    let mut names = Names::new(alloc);
    let mut columns = Columns::new(alloc);
    for (number, name) in NAMES.iter().enumerate() {
        names.push(name)?;
        columns.push(Var(number as u8))?;
    }
    Ok(Query {
        names,
        pattern: Pattern::Bgp(PatList::new(alloc)),
        columns,
        distinct: false,
    })
}

fn rows(alloc: Global) -> Result<TextRows<'static>, AllocError> {
    let mut rows = TextRows::new(alloc, NAMES.len() as u8);
    for _ in 0..ROUNDS {
        for texts in &ROWS {
            let cells = texts.map(|text| Cell::of(TermRef::new(text.as_bytes())));
            rows.push_row(&cells)?;
        }
    }
    Ok(rows)
}

fn time(rt: &HostRuntime, form: Form, name: &str, rows: &TextRows<'_>) -> io::Result<()> {
    let alloc = rt.alloc();
    let query = query(alloc)?;
    let mut world = CountingWorld::new();
    let start = Instant::now(rt)?;
    let end = write_rows(alloc, form, &query, rows, &mut world);
    let taken = start.elapsed(rt)?;
    if let Err(WriteEnd::Memory) = end {
        return Err(AllocError.into());
    }
    println!(rt;
        "{name}: {} rows, {} bytes, {} calls",
        rows.len(),
        world.bytes,
        world.calls
    )?;
    eprintln!(rt; "{name}: {taken:?}")
}

fn main(rt: HostRuntime) -> io::Result<()> {
    let rows = rows(rt.alloc())?;
    let only = env::args(&rt)?.nth(1);
    if only.as_ref().is_none_or(|form| form.as_str() == "tsv") {
        time(&rt, Form::Tsv, "tsv", &rows)?;
    }
    if only.as_ref().is_none_or(|form| form.as_str() == "json") {
        time(&rt, Form::Json, "json", &rows)?;
    }
    Ok(())
}
