//! The images of two graphs, byte by byte, and what is told of their damages.

ghost use Rattle.std.specs.Prelude.{All, IfOk, OnOk};
ghost use Rattle.bm_term.specs.Canonical.{IsTextOf};
ghost use Rattle.bm_term.specs.Triple.{IsRdfTriple};
ghost use Rattle.bm_term.specs.declared.term_parts.TermKind.TheVariants.{Iri};

use crate::image;
use bm_term::{Term, TermKind, TermRef, Triple};
use cube_slices::Lines;
use index_file::{Family, Index, Part};
use run_rows::{RowForm, RowRef};
use std::alloc::Global;
use std::process::Abort;
use std::test::Fail;
use term_numbers::number;

/// Of no triple: the name, the version, seven zeros, the length, and two starts.
const EMPTY: [u8; 52] = [
    66, 73, 84, 77, 65, 84, 76, 66, 1, 0, 0, 0, 0, 0, 0, 0, 0, 0, 0, 0, 0, 0, 0, 0, 0, 0, 0, 0, 0,
    0, 0, 0, 0, 0, 0, 0, 0, 0, 0, 0, 52, 0, 0, 0, 0, 0, 0, 0, 0, 0, 0, 0,
];

/// Of <urn:a> <urn:p> <urn:b> and <urn:b> <urn:p> <urn:c>.
const TWO: [u8; 272] = [
    66, 73, 84, 77, 65, 84, 76, 66, 1, 0, 0, 0, 1, 0, 0, 0, 1, 0, 0, 0, 1, 0, 0, 0, 1, 0, 0, 0, 2,
    0, 0, 0, 28, 0, 0, 0, 152, 0, 0, 0, 16, 1, 0, 0, 0, 0, 0, 0, 7, 0, 0, 0, 14, 0, 0, 0, 21, 0, 0,
    0, 28, 0, 0, 0, 60, 117, 114, 110, 58, 98, 62, 60, 117, 114, 110, 58, 97, 62, 60, 117, 114,
    110, 58, 99, 62, 60, 117, 114, 110, 58, 112, 62, 0, 0, 0, 0, 36, 0, 0, 0, 72, 0, 0, 0, 92, 0,
    0, 0, 112, 0, 0, 0, 132, 0, 0, 0, 152, 0, 0, 0, 2, 0, 0, 0, 0, 0, 0, 0, 8, 0, 0, 0, 1, 0, 0, 0,
    16, 0, 0, 0, 1, 0, 0, 0, 1, 0, 0, 0, 0, 0, 0, 0, 1, 0, 0, 0, 2, 0, 0, 0, 0, 0, 0, 0, 8, 0, 0,
    0, 1, 0, 0, 0, 16, 0, 0, 0, 1, 0, 0, 0, 1, 0, 0, 0, 0, 0, 0, 0, 1, 0, 0, 0, 1, 0, 0, 0, 0, 0,
    0, 0, 8, 0, 0, 0, 1, 0, 0, 0, 1, 0, 0, 0, 1, 0, 0, 0, 0, 0, 0, 0, 8, 0, 0, 0, 0, 0, 0, 0, 1, 0,
    0, 0, 1, 0, 0, 0, 0, 0, 0, 0, 8, 0, 0, 0, 1, 0, 0, 0, 1, 0, 0, 0, 1, 0, 0, 0, 0, 0, 0, 0, 8, 0,
    0, 0, 0, 0, 0, 0, 1, 0, 0, 0,
];

fn iri(alloc: Global, text: &[u8]) -> Result<Term, Fail>
    ensures { IfOk result (IsTextOf Iri) }
{
    let term = TermRef::new(text).ok_or("no term")?;
    let TermKind::Iri = term.parts().kind else {
        return Err("no IRI")?;
    };
    Ok(Term::copy_of(alloc, term)?)
}

fn triple(alloc: Global, texts: [&[u8]; 3]) -> Result<Triple, Fail>
    ensures { IfOk result IsRdfTriple }
{
    let object = TermRef::new(texts[2]).ok_or("no term")?;
    Ok(Triple {
        subject: iri(alloc, texts[0])?,
        predicate: iri(alloc, texts[1])?,
        object: Term::copy_of(alloc, object)?,
    })
}

fn triples(alloc: Global, table: &[[&[u8]; 3]]) -> Result<Vec<Triple>, Fail>
    ensures { IfOk result (λ list. All IsRdfTriple list.items) }
{
    let mut list = Vec::new(alloc);
    for texts in table {
        list.push(triple(alloc, *texts)?)?;
    }
    Ok(list)
}

/// The image of a table of triples.
fn image_of(alloc: Global, table: &[[&[u8]; 3]]) -> Result<Vec<u8>, Fail> {
    image_of_list(alloc, &triples(alloc, table)?)
}

/// The image of a list of triples.
fn image_of_list(alloc: Global, list: &[Triple]) -> Result<Vec<u8>, Fail>
    requires { All IsRdfTriple list.now }
{
    let numbers = number(alloc, list, 10).map_err(|_| "not numbered")?;
    if numbers.triples() > 10 {
        return Err("too many")?;
    }
    Ok(image(alloc, RowForm::V1, &numbers).map_err(|_| "no image")?)
}

#[test]
fn the_image_of_no_triple(rt: HostRuntime) -> Result<(), Fail> {
    let bytes = image_of(rt.alloc(), &[])?;
    assert_eq!(rt; bytes.as_slice(), EMPTY.as_slice());
    Ok(())
}

#[test]
fn the_image_of_two_triples(rt: HostRuntime) -> Result<(), Fail> {
    let a = [b"<urn:a>".as_slice(), b"<urn:p>", b"<urn:b>"];
    let b = [b"<urn:b>".as_slice(), b"<urn:p>", b"<urn:c>"];
    let bytes = image_of(rt.alloc(), &[b, a, b])?;
    assert_eq!(rt; bytes.as_slice(), TWO.as_slice());
    Ok(())
}

/// Eight bytes of the image that are others, from a place on, and the part that is told then.
const DAMAGES: [(usize, [u8; 8], Part); 12] = [
    (0, [0, 73, 84, 77, 65, 84, 76, 66], Part::Header),
    (8, [3, 0, 0, 0, 1, 0, 0, 0], Part::Header),
    (28, [255, 255, 255, 255, 28, 0, 0, 0], Part::Length),
    (32, [255, 255, 255, 255, 152, 0, 0, 0], Part::Length),
    (64, [120, 117, 114, 110, 58, 98, 62, 60], Part::Terms),
    (92, [1, 0, 0, 0, 36, 0, 0, 0], Part::Directory),
    (120, [255, 255, 255, 255, 0, 0, 0, 0], Part::Rows),
    (128, [9, 0, 0, 0, 1, 0, 0, 0], Part::Rows),
    (140, [255, 255, 255, 255, 1, 0, 0, 0], Part::Rows),
    (144, [0, 0, 0, 0, 0, 0, 0, 0], Part::Rows),
    (176, [0, 0, 0, 0, 2, 0, 0, 0], Part::Counts),
    (176, [0, 0, 0, 0, 1, 0, 0, 0], Part::Agreement),
];

/// The image with other bytes from a place on, as far as it goes.
fn damaged(place: usize, with: &[u8]) -> [u8; 272] {
    let mut bytes = TWO;
    for (i, byte) in with.iter().enumerate() {
        if let Some(old) = bytes.get_mut(place.saturating_add(i)) {
            *old = *byte;
        }
    }
    bytes
}

/// The part that is told of bytes, if they are no index.
fn told(bytes: &[u8]) -> Option<Part> {
    match Index::open(bytes) {
        Ok(_) => None,
        Err(damage) => Some(damage.part),
    }
}

#[test]
fn damages_are_told_by_their_part(rt: HostRuntime) {
    for (place, with, part) in DAMAGES.iter() {
        let bytes = damaged(*place, with);
        assert_eq!(rt; told(&bytes), Some(*part), "byte {place}");
    }
}

#[test]
fn no_front_of_the_image_is_an_index(rt: HostRuntime) {
    for len in 0..272usize {
        let part = if len < 44 { Part::Header } else { Part::Length };
        assert_eq!(rt; told(&TWO[..len]), Some(part), "{len} bytes");
    }
}

/// The text of the term with a number in the term table.
fn text_of<'a>(index: &Index<'a>, value: u64) -> Result<&'a [u8], Fail> {
    let counts = index.counts();
    let nodes = u64::from(counts.shared) + u64::from(counts.subjects) + u64::from(counts.objects);
    if value >= nodes + u64::from(counts.predicates) {
        return Err("no such term")?;
    }
    match u32::try_from(value) {
        Ok(value) => Ok(index.term(value).bytes()),
        Err(_) => Err("no such term")?,
    }
}

/// The triple with these numbers, by name.
fn named(alloc: Global, index: &Index<'_>, numbers: (u32, u32, u32)) -> Result<Triple, Fail>
    ensures { IfOk result IsRdfTriple }
{
    let counts = index.counts();
    let (subject, predicate, object) = numbers;
    let subjects = u64::from(counts.shared) + u64::from(counts.subjects);
    let after = if object < counts.shared {
        0
    } else {
        u64::from(counts.subjects)
    };
    triple(
        alloc,
        [
            text_of(index, u64::from(subject))?,
            text_of(
                index,
                subjects + u64::from(counts.objects) + u64::from(predicate),
            )?,
            text_of(index, u64::from(object) + after)?,
        ],
    )
}

/// The triples of a row of S-O, by name, after the others.
fn push_row(
    alloc: Global,
    index: &Index<'_>,
    place: (u32, u32),
    row: &RowRef<'_>,
    list: &mut Vec<Triple>,
) -> Result<(), Fail>
    requires { All IsRdfTriple list.old.items }
    ensures { OnOk result (All IsRdfTriple list.new.items) }
{
    for object in row.iter() {
        list.push(named(alloc, index, (place.0, place.1, object))?)?;
    }
    Ok(())
}

/// The triples of a slice of S-O, by name, after the others.
fn push_slice(
    alloc: Global,
    index: &Index<'_>,
    predicate: u32,
    lines: Lines<'_>,
    list: &mut Vec<Triple>,
) -> Result<(), Fail>
    requires { All IsRdfTriple list.old.items }
    ensures { OnOk result (All IsRdfTriple list.new.items) }
{
    let mut lines = lines;
    while let Some((subject, row, rest)) = lines.split_first() {
        push_row(alloc, index, (subject, predicate), &row, list)?;
        lines = rest;
    }
    Ok(())
}

/// The triples of an index, by name.
fn triples_of(alloc: Global, index: &Index<'_>) -> Result<Vec<Triple>, Fail>
    ensures { IfOk result (λ list. All IsRdfTriple list.items) }
{
    let mut list = Vec::new(alloc);
    for predicate in 0..index.counts().predicates {
        let slice = index.slice(Family::So, predicate);
        push_slice(alloc, index, predicate, slice.lines(), &mut list)?;
    }
    Ok(list)
}

/// Bytes are refused, or they are the image of the triples that they stand for.
fn expect_refused_or_image(rt: &impl Abort, alloc: Global, bytes: &[u8]) -> Result<(), Fail> {
    if let Ok(index) = Index::open(bytes) {
        let list = triples_of(alloc, &index)?;
        let again = image_of_list(alloc, &list)?;
        assert!(rt; again.as_slice() == bytes);
    }
    Ok(())
}

/// So are those of the image with any other byte at a place.
fn expect_any_byte(rt: &impl Abort, alloc: Global, place: usize) -> Result<(), Fail> {
    for byte in 0..=255u8 {
        expect_refused_or_image(rt, alloc, &damaged(place, &[byte]))?;
    }
    Ok(())
}

/// And those with any other byte at one of some places.
fn expect_any_bytes(rt: &impl Abort, alloc: Global, from: usize, to: usize) -> Result<(), Fail> {
    for place in from..to {
        expect_any_byte(rt, alloc, place)?;
    }
    Ok(())
}

#[test]
fn any_byte_of_the_head_is_refused_or_gives_an_image(rt: HostRuntime) -> Result<(), Fail> {
    expect_any_bytes(&rt, rt.alloc(), 0, 64)
}

#[test]
fn any_byte_of_the_texts_is_refused_or_gives_an_image(rt: HostRuntime) -> Result<(), Fail> {
    expect_any_bytes(&rt, rt.alloc(), 64, 92)
}

#[test]
fn any_byte_of_s_o_and_o_s_is_refused_or_gives_an_image(rt: HostRuntime) -> Result<(), Fail> {
    expect_any_bytes(&rt, rt.alloc(), 92, 192)
}

#[test]
fn any_byte_of_p_s_and_p_o_is_refused_or_gives_an_image(rt: HostRuntime) -> Result<(), Fail> {
    expect_any_bytes(&rt, rt.alloc(), 192, 272)
}
