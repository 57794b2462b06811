//! Queries of two triple patterns over the index of two triples.

ghost use Rattle.std.specs.Prelude.{◌≡◌, ◌<◌, [], ◌∷◌, All, IfOk, map};
ghost use Rattle.alg_model.specs.Limits.{KeepsLimits, PatternKeepsLimits};
ghost use Rattle.alg_model.specs.Pattern.{Bgp, HasVarsBelow, algebra_of, place_vars, triple_vars};

use crate::{AnswerFault, answer};
use alg_model::{Columns, Names, PatList, Pattern, Place, Query, TriplePat, Var};
use answer_rows::{Cell, TextRows};
use bm_term::{Term, TermRef};
use index_file::Index;
use std::alloc::Global;
use std::test::Fail;

/// The image of two triples: `<urn:a> <urn:p> <urn:b>` and `<urn:b> <urn:p> <urn:c>`.
const IMAGE: [u8; 272] = [
    66, 73, 84, 77, 65, 84, 76, 66, 1, 0, 0, 0, 1, 0, 0, 0, 1, 0, 0, 0, 1, 0, 0, 0, 1, 0, 0, 0, 2,
    0, 0, 0, 28, 0, 0, 0, 152, 0, 0, 0, 16, 1, 0, 0, 0, 0, 0, 0, 7, 0, 0, 0, 14, 0, 0, 0, 21, 0, 0,
    0, 28, 0, 0, 0, 60, 117, 114, 110, 58, 98, 62, 60, 117, 114, 110, 58, 97, 62, 60, 117, 114,
    110, 58, 99, 62, 60, 117, 114, 110, 58, 112, 62, 0, 0, 0, 0, 36, 0, 0, 0, 72, 0, 0, 0, 92, 0,
    0, 0, 112, 0, 0, 0, 132, 0, 0, 0, 152, 0, 0, 0, 2, 0, 0, 0, 0, 0, 0, 0, 8, 0, 0, 0, 1, 0, 0, 0,
    16, 0, 0, 0, 1, 0, 0, 0, 1, 0, 0, 0, 0, 0, 0, 0, 1, 0, 0, 0, 2, 0, 0, 0, 0, 0, 0, 0, 8, 0, 0,
    0, 1, 0, 0, 0, 16, 0, 0, 0, 1, 0, 0, 0, 1, 0, 0, 0, 0, 0, 0, 0, 1, 0, 0, 0, 1, 0, 0, 0, 0, 0,
    0, 0, 8, 0, 0, 0, 1, 0, 0, 0, 1, 0, 0, 0, 1, 0, 0, 0, 0, 0, 0, 0, 8, 0, 0, 0, 0, 0, 0, 0, 1, 0,
    0, 0, 1, 0, 0, 0, 0, 0, 0, 0, 8, 0, 0, 0, 1, 0, 0, 0, 1, 0, 0, 0, 1, 0, 0, 0, 0, 0, 0, 0, 8, 0,
    0, 0, 0, 0, 0, 0, 1, 0, 0, 0,
];

/// How two triple patterns make a pattern.
#[derive(Clone, Copy, Debug, PartialEq, Eq)]
enum Shape {
    /// A basic graph pattern of both.
    Basic,
    /// The first, and the second in an OPTIONAL.
    Optional,
    /// The first in an OPTIONAL, and then the second.
    After,
}

/// What answers a pattern: each row as the texts of three variables, an empty one where it is unbound.
const ANSWERS: [(Shape, &str, &str, &str); 4] = [
    (
        Shape::Basic,
        "?0 <urn:p> ?1",
        "?1 <urn:p> ?2",
        "<urn:a> <urn:b> <urn:c>;",
    ),
    (
        Shape::Optional,
        "?0 <urn:p> ?1",
        "?1 <urn:p> ?2",
        "<urn:a> <urn:b> <urn:c>;<urn:b> <urn:c> ;",
    ),
    (
        Shape::Basic,
        "<urn:a> ?0 ?1",
        "?2 ?0 <urn:c>",
        "<urn:p> <urn:b> <urn:b>;",
    ),
    (Shape::Basic, "?0 <urn:p> ?1", "?1 <urn:q> ?2", ""),
];

/// Why a pattern is refused.
const REFUSALS: [(Shape, &str, &str, AnswerFault); 4] = [
    (
        Shape::After,
        "?0 <urn:p> ?1",
        "?1 <urn:p> ?2",
        AnswerFault::NotWellDesigned {
            optional: 1,
            var: Var(1),
        },
    ),
    (
        Shape::Basic,
        "?0 <urn:p> ?1",
        "?0 ?1 ?2",
        AnswerFault::ThreePlaces { pattern: 2 },
    ),
    (
        Shape::Basic,
        "?0 ?1 <urn:c>",
        "?1 <urn:p> ?2",
        AnswerFault::CrossPlace { var: Var(1) },
    ),
    (
        Shape::After,
        "?0 ?1 ?2",
        "?2 ?0 ?1",
        AnswerFault::NotWellDesigned {
            optional: 1,
            var: Var(0),
        },
    ),
];

/// A place: `?` and the digit of one of three variables, or a term.
fn place(alloc: Global, text: &str) -> Result<Place, Fail>
    ensures { IfOk result (λ place. All (λ var. var < 3) (place_vars place)) }
{
    match text.as_bytes() {
        [b'?', digit] => Ok(Place::Var(Var(digit % 3))),
        bytes => {
            let term = TermRef::new(bytes).ok_or("no term")?;
            Ok(Place::Term(Term::copy_of(alloc, term)?))
        }
    }
}

/// A triple pattern of three places.
fn triple_pat(alloc: Global, text: &str, number: u16) -> Result<TriplePat, Fail>
    ensures below { IfOk result (λ triple. All (λ var. var < 3) (triple_vars triple)) }
    ensures number { IfOk result (λ triple. triple.number ≡ number) }
{
    let mut places = text.split(' ');
    let subject = places.next().ok_or("no subject")?;
    let predicate = places.next().ok_or("no predicate")?;
    let object = places.next().ok_or("no object")?;
    Ok(TriplePat {
        subject: place(alloc, subject)?,
        predicate: place(alloc, predicate)?,
        object: place(alloc, object)?,
        number,
    })
}

/// A list of one triple pattern.
fn one(alloc: Global, text: &str, number: u16) -> Result<PatList, Fail>
    ensures below { IfOk result (λ list. HasVarsBelow 3 (Bgp list)) }
    ensures numbers { IfOk result (λ list. map (λ triple. triple.number) list ≡ number ∷ []) }
{
    let mut list = PatList::new(alloc);
    list.push(triple_pat(alloc, text, number)?)?;
    Ok(list)
}

/// A pattern of two triple patterns.
fn pattern(alloc: Global, shape: Shape, first: &str, second: &str) -> Result<Pattern, Fail>
    ensures { IfOk result (λ pattern. PatternKeepsLimits 3 (algebra_of pattern)) }
{
    let mut left = one(alloc, first, 1)?;
    match shape {
        Shape::Basic => {
            left.push(triple_pat(alloc, second, 2)?)?;
            Ok(Pattern::Bgp(left))
        }
        Shape::Optional => {
            let right = one(alloc, second, 2)?;
            Ok(Pattern::left_join(alloc, Pattern::Bgp(left), Pattern::Bgp(right))?)
        }
        Shape::After => {
            let right = one(alloc, second, 2)?;
            let none = Pattern::Bgp(PatList::new(alloc));
            let left = Pattern::left_join(alloc, none, Pattern::Bgp(left))?;
            Ok(Pattern::join(alloc, left, Pattern::Bgp(right))?)
        }
    }
}

/// A query of three variables, all of which are answered.
fn query(alloc: Global, pattern: Pattern) -> Result<Query, Fail>
    requires { PatternKeepsLimits 3 (algebra_of pattern) }
    ensures { IfOk result KeepsLimits }
{
    let mut names = Names::new(alloc);
    names.push("x")?;
    names.push("y")?;
    names.push("z")?;
    let mut columns = Columns::new(alloc);
    columns.push(Var(0))?;
    columns.push(Var(1))?;
    columns.push(Var(2))?;
    Ok(Query {
        names,
        pattern,
        columns,
        distinct: false,
    })
}

/// Puts the texts of a row at the end, with a blank between them and a semicolon after them.
fn push_row(text: &mut Vec<u8>, row: &[Cell<'_>]) -> Result<(), Fail> {
    for (column, cell) in row.iter().enumerate() {
        if column > 0 {
            text.push(b' ')?;
        }
        if let Some(term) = cell.term() {
            text.extend_from_slice(term.bytes())?;
        }
    }
    text.push(b';')?;
    Ok(())
}

/// The texts of rows.
fn text_of(alloc: Global, rows: &TextRows<'_>) -> Result<Vec<u8>, Fail> {
    let mut text = Vec::new(alloc);
    for i in 0..rows.len() {
        push_row(&mut text, rows.row(i))?;
    }
    Ok(text)
}

#[test]
fn answers_are_rows_in_order(rt: HostRuntime) -> Result<(), Fail> {
    let alloc = rt.alloc();
    let index = Index::open(&IMAGE).map_err(|_| "an index")?;
    for (shape, first, second, wanted) in ANSWERS {
        let query = query(alloc, pattern(alloc, shape, first, second)?)?;
        let rows = answer(alloc, &index, &query).map_err(|_| "answers")?;
        assert!(rt; text_of(alloc, &rows)?.as_slice() == wanted.as_bytes());
    }
    Ok(())
}

#[test]
fn refused_patterns_are_not_answered(rt: HostRuntime) -> Result<(), Fail> {
    let alloc = rt.alloc();
    let index = Index::open(&IMAGE).map_err(|_| "an index")?;
    for (shape, first, second, fault) in REFUSALS {
        let query = query(alloc, pattern(alloc, shape, first, second)?)?;
        assert_eq!(rt; answer(alloc, &index, &query).err(), Some(fault));
    }
    Ok(())
}
