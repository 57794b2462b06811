//! Tables of graphs and what is answered for them, and random triples beside a plain search.
ghost use Rattle.std.specs.Prelude.{All, IfOk};
ghost use Rattle.bm_term.specs.declared.term_parts.TermKind.TheVariants.{Iri};
ghost use Rattle.bm_term.specs.Canonical.{IsTextOf};
ghost use Rattle.bm_term.specs.Triple.{IsRdfTriple};

use crate::{Builder, NumberFault, Numbers, number};
use bm_term::{Taker, Term, TermKind, TermRef, Triple};
use std::alloc::Global;
use std::test::Fail;

fn iri(alloc: Global, text: &str) -> Result<Term, Fail>
    ensures { IfOk result (IsTextOf Iri) }
{
    let term = TermRef::new(text.as_bytes()).ok_or("no term")?;
    let TermKind::Iri = term.parts().kind else {
        return Err("no IRI")?;
    };
    Ok(Term::copy_of(alloc, term)?)
}

fn triple(alloc: Global, texts: &[&str; 3]) -> Result<Triple, Fail>
    ensures { IfOk result IsRdfTriple }
{
    let object = TermRef::new(texts[2].as_bytes()).ok_or("no term")?;
    Ok(Triple {
        subject: iri(alloc, texts[0])?,
        predicate: iri(alloc, texts[1])?,
        object: Term::copy_of(alloc, object)?,
    })
}

fn triples(alloc: Global, table: &[[&str; 3]]) -> Result<Vec<Triple>, Fail>
    ensures { IfOk result (λ list. All IsRdfTriple list.items) }
{
    let mut list = Vec::new(alloc);
    for texts in table {
        list.push(triple(alloc, texts)?)?;
    }
    Ok(list)
}

/// The counts, or the fault.
fn told(numbers: Result<Numbers, NumberFault>) -> Result<[u32; 5], NumberFault> {
    let n = numbers?;
    Ok([
        n.shared(),
        n.subjects(),
        n.objects(),
        n.predicates(),
        n.triples(),
    ])
}

/// How the texts of a table are numbered.
fn counts(
    alloc: Global,
    table: &[[&str; 3]],
    limit: u32,
) -> Result<Result<[u32; 5], NumberFault>, Fail> {
    let list = triples(alloc, table)?;
    Ok(told(number(alloc, &list, limit)))
}

/// How they are numbered as they come.
fn built(
    alloc: Global,
    table: &[[&str; 3]],
    limit: u32,
) -> Result<Result<[u32; 5], NumberFault>, Fail> {
    let mut builder = Builder::new(alloc, limit);
    for texts in table {
        builder.take(triple(alloc, texts)?)?;
    }
    Ok(told(builder.finish()))
}

/// Three distinct triples are more than two; two and a repeat are not.
#[test]
fn the_limit_is_of_distinct_triples(rt: HostRuntime) -> Result<(), Fail> {
    let a = ["<a>", "<p>", "\"1\""];
    let b = ["<b>", "<p>", "<a>"];
    let c = ["<a>", "<q>", "\"1\""];
    let many = Err(NumberFault::TooManyTriples);
    assert_eq!(rt; counts(rt.alloc(), &[a, b, c], 2)?, many);
    assert_eq!(rt; counts(rt.alloc(), &[a, b, c], 3)?, Ok([1, 1, 1, 2, 3]));
    assert_eq!(rt; counts(rt.alloc(), &[a, b, a], 2)?, Ok([1, 1, 1, 1, 2]));
    assert_eq!(rt; counts(rt.alloc(), &[a], 0)?, many);
    assert_eq!(rt; counts(rt.alloc(), &[], 0)?, Ok([0, 0, 0, 0, 0]));
    Ok(())
}

/// A repeat counts once, wherever it comes, and after one triple too many nothing helps.
#[test]
fn triples_are_numbered_as_they_come(rt: HostRuntime) -> Result<(), Fail> {
    let a = ["<a>", "<p>", "\"1\""];
    let b = ["<b>", "<p>", "<a>"];
    let c = ["<a>", "<q>", "\"1\""];
    let many = Err(NumberFault::TooManyTriples);
    assert_eq!(rt; built(rt.alloc(), &[], 0)?, Ok([0, 0, 0, 0, 0]));
    assert_eq!(rt; built(rt.alloc(), &[a], 0)?, many);
    assert_eq!(rt;
        built(rt.alloc(), &[a, b, a, b, a], 2)?,
        Ok([1, 1, 1, 1, 2])
    );
    assert_eq!(rt; built(rt.alloc(), &[a, b, a, c], 2)?, many);
    assert_eq!(rt; built(rt.alloc(), &[a, c, b, a, b], 2)?, many);
    assert_eq!(rt;
        built(rt.alloc(), &[a, c, b, a, b], 3)?,
        Ok([1, 1, 1, 2, 3])
    );
    Ok(())
}

/// The term at a place of the table, or nothing where there is none.
fn term_at(numbers: &Numbers, place: u32) -> Option<&[u8]> {
    let nodes = numbers.shared() as u64 + numbers.subjects() as u64 + numbers.objects() as u64;
    if (place as u64) < nodes + numbers.predicates() as u64 {
        Some(numbers.term(place).bytes())
    } else {
        None
    }
}

/// Whether a text is at a place of the table.
fn is_text(numbers: &Numbers, place: u32, text: &str) -> bool {
    match term_at(numbers, place) {
        Some(found) => found == text.as_bytes(),
        None => false,
    }
}

/// A term that is subject and object comes first, and has one number; a predicate that is also a node is there twice.
#[test]
fn a_small_graph(rt: HostRuntime) -> Result<(), Fail> {
    let list = triples(
        rt.alloc(),
        &[
            ["<z>", "<p>", "\"v\""],
            ["<m>", "<p>", "<z>"],
            ["<z>", "<a>", "<p>"],
            ["<z>", "<p>", "\"v\""],
        ],
    )?;
    let numbers = number(rt.alloc(), &list, 3).map_err(|_| "a fault")?;
    let texts = ["<z>", "<m>", "\"v\"", "<p>", "<a>", "<p>"];
    assert!(rt; (0..6).all(|place| is_text(&numbers, place, texts[place as usize % 6])));
    assert!(rt; term_at(&numbers, 6).is_none());
    assert_eq!(rt; numbers.triples(), 3);
    assert_eq!(rt; numbers.triple(0), (0, 0, 2));
    assert_eq!(rt; numbers.triple(1), (0, 1, 1));
    assert_eq!(rt; numbers.triple(2), (1, 1, 0));
    Ok(())
}

const LETTERS: [&str; 6] = ["<a>", "<b>", "<c>", "<d>", "<e>", "<f>"];

/// A letter of the first so many, by a linear congruence.
fn pick(state: &mut u32, of: u32) -> &'static str {
    *state = state.wrapping_mul(1_664_525).wrapping_add(1_013_904_223);
    let at = (*state >> 16) % of.clamp(1, 6);
    LETTERS[at as usize % 6]
}

/// Whether an earlier triple of a list is the same.
fn is_repeat(list: &[Triple], at: usize) -> bool {
    list.iter()
        .take(at)
        .any(|t| list.get(at).is_some_and(|u| t == u))
}

/// Whether the texts of some places of the table ascend strictly.
fn ascend(numbers: &Numbers, first: u32, count: u32) -> bool {
    for i in 1..count {
        let place = first.saturating_add(i);
        if term_at(numbers, place.saturating_sub(1)) >= term_at(numbers, place) {
            return false;
        }
    }
    true
}

/// The place in the table of a subject and of an object with a number.
fn object_place(numbers: &Numbers, number: u32) -> u32 {
    if number < numbers.shared() {
        number
    } else {
        number.saturating_add(numbers.subjects())
    }
}

/// How many triples of a list are no repeats.
fn distinct(list: &[Triple]) -> usize {
    let mut count = 0usize;
    for at in 0..list.len() {
        if !is_repeat(list, at) {
            count = count.saturating_add(1);
        }
    }
    count
}

/// Whether some numbers are those of a triple: the table has its terms at them.
fn are_of(numbers: &Numbers, found: (u32, u32, u32), triple: &Triple) -> bool {
    let nodes = numbers
        .shared()
        .saturating_add(numbers.subjects())
        .saturating_add(numbers.objects());
    term_at(numbers, found.0) == Some(triple.subject.as_ref().bytes())
        && term_at(numbers, nodes.saturating_add(found.1))
            == Some(triple.predicate.as_ref().bytes())
        && term_at(numbers, object_place(numbers, found.2)) == Some(triple.object.as_ref().bytes())
}

/// Whether each triple of a list is found by its numbers, by a search through all.
fn has_all(numbers: &Numbers, list: &[Triple]) -> bool {
    list.iter().all(|triple| (0..numbers.triples()).any(|i| are_of(
        numbers,
        triple_at(numbers, i),
        triple,
    )))
}

/// The triple at a place, or the greatest numbers where there is none.
fn triple_at(numbers: &Numbers, i: u32) -> (u32, u32, u32) {
    if i < numbers.triples() {
        numbers.triple(i)
    } else {
        (u32::MAX, u32::MAX, u32::MAX)
    }
}

fn random_list(
    alloc: Global,
    state: &mut u32,
    length: u32,
    letters: u32,
) -> Result<Vec<Triple>, Fail>
    ensures { IfOk result (λ list. All IsRdfTriple list.items) }
{
    let mut list = Vec::new(alloc);
    for _ in 0..length {
        let texts = [
            pick(state, letters),
            pick(state, letters),
            pick(state, letters),
        ];
        list.push(triple(alloc, &texts)?)?;
    }
    Ok(list)
}

/// Each group ascends, the triples ascend, there are as many as there are distinct ones, and each triple is there.
fn agrees(numbers: &Numbers, list: &[Triple]) -> bool {
    let subjects = numbers.shared();
    let objects = subjects.saturating_add(numbers.subjects());
    let predicates = objects.saturating_add(numbers.objects());
    ascend(numbers, 0, subjects)
        && ascend(numbers, subjects, numbers.subjects())
        && ascend(numbers, objects, numbers.objects())
        && ascend(numbers, predicates, numbers.predicates())
        && (1..numbers.triples()).all(|i| triple_at(numbers, i - 1) < triple_at(numbers, i))
        && numbers.triples() as usize == distinct(list)
        && has_all(numbers, list)
}

#[test]
fn random_triples_are_numbered(rt: HostRuntime) -> Result<(), Fail> {
    let mut state = 7u32;
    for round in 0..60u32 {
        let list = random_list(rt.alloc(), &mut state, round % 20, 2 + round % 5)?;
        let numbers = number(rt.alloc(), &list, 20).map_err(|_| "a fault")?;
        assert!(rt; agrees(&numbers, &list), "round {round}");
    }
    Ok(())
}
