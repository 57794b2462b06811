ghost use Rattle.std.specs.Prelude.{◌≡◌, ◌≢◌, ◌<◌, length, All, AllPairs, IfOk, IsTrue, flat_map};
ghost use Rattle.alg_model.specs.Pattern.{HasVarsBelow, algebra_of, place_vars, triple_vars};

use crate::{Columns, Names, PatList, Pattern, Place, RowList, TriplePat, Var, eval_plain};
use bm_term::{Term, TermRef, Triple};
use std::alloc::Global;
use std::process::Abort;
use std::test::Fail;

fn term(alloc: Global, text: &str) -> Result<Term, Fail> {
    let term = TermRef::new(text.as_bytes()).ok_or("no term")?;
    Ok(Term::copy_of(alloc, term)?)
}

// A place: `?` and the digit of a variable, or a term.
fn place(alloc: Global, text: &str) -> Result<Place, Fail> {
    match text.as_bytes() {
        [b'?', digit] => Ok(Place::Var(Var(digit.saturating_sub(b'0')))),
        _ => Ok(Place::Term(term(alloc, text)?)),
    }
}

fn triple(alloc: Global, texts: &[&str; 3]) -> Result<Triple, Fail> {
    Ok(Triple {
        subject: term(alloc, texts[0])?,
        predicate: term(alloc, texts[1])?,
        object: term(alloc, texts[2])?,
    })
}

fn triple_pat(alloc: Global, texts: &[&str; 3]) -> Result<TriplePat, Fail> {
    Ok(TriplePat {
        subject: place(alloc, texts[0])?,
        predicate: place(alloc, texts[1])?,
        object: place(alloc, texts[2])?,
        number: 1,
    })
}

fn triple_list(alloc: Global, table: &[[&str; 3]]) -> Result<Vec<Triple>, Fail> {
    let mut triples = Vec::new(alloc);
    for texts in table {
        triples.push(triple(alloc, texts)?)?;
    }
    Ok(triples)
}

fn pat_list(alloc: Global, table: &[[&str; 3]]) -> Result<PatList, Fail> {
    let mut patterns = PatList::new(alloc);
    for texts in table {
        patterns.push(triple_pat(alloc, texts)?)?;
    }
    Ok(patterns)
}

fn bgp(alloc: Global, table: &[[&str; 3]]) -> Result<Pattern, Fail> {
    Ok(Pattern::Bgp(pat_list(alloc, table)?))
}

// The LeftJoin of a basic graph pattern and an optional part.
fn optional(alloc: Global, left: &[[&str; 3]], right: Pattern) -> Result<Pattern, Fail> {
    Ok(Pattern::left_join(alloc, bgp(alloc, left)?, right)?)
}

fn differ(triple: &Triple, other: &Triple) -> bool
    ensures { IsTrue result → triple.now ≢ other.now }
{
    triple != other
}

fn is_none_of(triple: &Triple, triples: &[Triple]) -> bool
    ensures { IsTrue result → All (λ other. other ≢ triple.now) triples.now }
{
    for other in triples {
        if !differ(other, triple) {
            return false;
        }
    }
    true
}

// Whether no triple stands twice.
fn each_once(triples: &[Triple]) -> bool
    ensures { IsTrue result → AllPairs (λ t u. t ≢ u) triples.now }
{
    for (i, triple) in triples.iter().enumerate() {
        if !is_none_of(triple, &triples[..i]) {
            return false;
        }
    }
    true
}

fn place_is_below(place: &Place, vars: u8) -> bool
    ensures { IsTrue result → All (λ var. var < vars) (place_vars place.now) }
{
    match place {
        Place::Var(var) => var.0 < vars,
        Place::Term(_) => true,
    }
}

fn triple_is_below(pattern: &TriplePat, vars: u8) -> bool
    ensures { IsTrue result → All (λ var. var < vars) (triple_vars pattern.now) }
{
    if !place_is_below(&pattern.subject, vars) {
        return false;
    }
    if !place_is_below(&pattern.predicate, vars) {
        return false;
    }
    place_is_below(&pattern.object, vars)
}

// Whether all variables are below `vars`.
fn are_below(patterns: &[TriplePat], vars: u8) -> bool
    ensures { IsTrue result → All (λ var. var < vars) (flat_map triple_vars patterns.now) }
{
    for pattern in patterns {
        if !triple_is_below(pattern, vars) {
            return false;
        }
    }
    true
}

// Whether all variables of a pattern are below `vars`.
fn is_below(pattern: &Pattern, vars: u8) -> bool
    ensures { IsTrue result → HasVarsBelow vars (algebra_of pattern.now) }
{
    match pattern {
        Pattern::Bgp(patterns) => are_below(patterns.as_slice(), vars),
        Pattern::Join(left, right) | Pattern::LeftJoin(left, right) => {
            if !is_below(left, vars) {
                return false;
            }
            is_below(right, vars)
        }
    }
}

// The rows of a pattern over triples.
fn rows_of(
    rt: &impl Abort,
    alloc: Global,
    vars: u8,
    pattern: &Pattern,
    triples: &[Triple],
) -> Result<RowList, Fail>
    ensures { IfOk result (λ rows. All (λ row. length row ≡ vars) rows) }
{
    assert!(rt; is_below(pattern, vars));
    assert!(rt; each_once(triples));
    Ok(eval_plain(alloc, pattern, vars, triples)?)
}

// A row as a line: its terms in a row, with `-` for a cell that is unbound.
fn line(alloc: Global, rows: &RowList, row: usize, vars: u8) -> Result<Vec<u8>, Fail>
    requires row_exists { row < length rows.now }
    requires width { All (λ row. length row ≡ vars) rows.now }
{
    let mut line = Vec::new(alloc);
    for var in 0..vars {
        match rows.cell(row, Var(var)) {
            Some(term) => line.extend_from_slice(term.bytes())?,
            None => line.push(b'-')?,
        }
    }
    Ok(line)
}

fn lines(alloc: Global, rows: &RowList, vars: u8) -> Result<Vec<Vec<u8>>, Fail>
    requires width { All (λ row. length row ≡ vars) rows.now }
{
    let mut lines = Vec::new(alloc);
    for row in 0..rows.len() {
        lines.push(line(alloc, rows, row, vars)?)?;
    }
    lines.sort()?;
    Ok(lines)
}

// The rows of a basic graph pattern are these, in the order of their bytes.
fn expect_rows(
    rt: &impl Abort,
    alloc: Global,
    vars: u8,
    patterns: &[[&str; 3]],
    triples: &[[&str; 3]],
    want: &[&str],
) -> Result<(), Fail> {
    expect_pattern(rt, alloc, vars, &bgp(alloc, patterns)?, triples, want)
}

// The rows of a pattern are these, in the order of their bytes.
fn expect_pattern(
    rt: &impl Abort,
    alloc: Global,
    vars: u8,
    pattern: &Pattern,
    triples: &[[&str; 3]],
    want: &[&str],
) -> Result<(), Fail> {
    let triples = triple_list(alloc, triples)?;
    let rows = rows_of(rt, alloc, vars, pattern, &triples)?;
    let lines = lines(alloc, &rows, vars)?;
    assert_eq!(rt; rows.is_empty(), want.is_empty());
    assert_eq!(rt; lines.len(), want.len());
    for (line, text) in lines.iter().zip(want.iter()) {
        assert_eq!(rt; line.as_slice(), text.as_bytes(), "{text}");
    }
    Ok(())
}

const CHAIN: [[&str; 3]; 2] = [["<a>", "<p>", "<b>"], ["<b>", "<p>", "<c>"]];

#[test]
fn two_patterns_share_a_variable(rt: HostRuntime) -> Result<(), Fail> {
    let patterns = [["?0", "<p>", "?1"], ["?1", "<p>", "?2"]];
    expect_rows(&rt, rt.alloc(), 3, &patterns, &CHAIN, &["<a><b><c>"])
}

#[test]
fn a_variable_stands_twice(rt: HostRuntime) -> Result<(), Fail> {
    let triples = [["<a>", "<p>", "<b>"], ["<c>", "<p>", "<c>"]];
    expect_rows(
        &rt,
        rt.alloc(),
        1,
        &[["?0", "<p>", "?0"]],
        &triples,
        &["<c>"],
    )
}

#[test]
fn constants_alone(rt: HostRuntime) -> Result<(), Fail> {
    expect_rows(&rt, rt.alloc(), 1, &[["<a>", "<p>", "<b>"]], &CHAIN, &["-"])?;
    expect_rows(&rt, rt.alloc(), 1, &[["<a>", "<p>", "<c>"]], &CHAIN, &[])?;
    expect_rows(&rt, rt.alloc(), 1, &[["<a>", "<q>", "<b>"]], &CHAIN, &[])?;
    expect_rows(&rt, rt.alloc(), 1, &[["<c>", "<p>", "<b>"]], &CHAIN, &[])?;
    expect_rows(&rt, rt.alloc(), 1, &[], &CHAIN, &["-"])
}

#[test]
fn no_common_variable_gives_each_pair(rt: HostRuntime) -> Result<(), Fail> {
    let patterns = [["?0", "<p>", "?1"], ["?2", "<p>", "?3"]];
    let want = [
        "<a><b><a><b>",
        "<a><b><b><c>",
        "<b><c><a><b>",
        "<b><c><b><c>",
    ];
    expect_rows(&rt, rt.alloc(), 4, &patterns, &CHAIN, &want)
}

// Three triples, one behind another.
const LONG_CHAIN: [[&str; 3]; 3] = [
    ["<a>", "<p>", "<b>"],
    ["<b>", "<p>", "<c>"],
    ["<c>", "<p>", "<d>"],
];

#[test]
fn a_left_join_in_a_left_join(rt: HostRuntime) -> Result<(), Fail> {
    let alloc = rt.alloc();
    let inner = optional(
        alloc,
        &[["?1", "<p>", "?2"]],
        bgp(alloc, &[["?2", "<p>", "?3"]])?,
    )?;
    let pattern = optional(alloc, &[["?0", "<p>", "?1"]], inner)?;
    let want = ["<a><b><c><d>", "<b><c><d>-", "<c><d>--"];
    expect_pattern(&rt, alloc, 4, &pattern, &LONG_CHAIN, &want)
}

#[test]
fn a_left_join_of_a_left_join(rt: HostRuntime) -> Result<(), Fail> {
    let alloc = rt.alloc();
    let first = optional(
        alloc,
        &[["?0", "<p>", "?1"]],
        bgp(alloc, &[["?1", "<p>", "?2"]])?,
    )?;
    let pattern = Pattern::left_join(alloc, first, bgp(alloc, &[["<b>", "<p>", "?2"]])?)?;
    let want = ["<a><b><c>", "<b><c><d>", "<c><d><c>"];
    expect_pattern(&rt, alloc, 3, &pattern, &LONG_CHAIN, &want)
}

#[test]
fn no_row_of_the_optional_part(rt: HostRuntime) -> Result<(), Fail> {
    let alloc = rt.alloc();
    let left = [["?0", "<p>", "?1"]];
    let missing = optional(alloc, &left, bgp(alloc, &[["?1", "<q>", "?2"]])?)?;
    expect_pattern(&rt, alloc, 3, &missing, &CHAIN, &["<a><b>-", "<b><c>-"])?;
    let empty = optional(alloc, &left, bgp(alloc, &[])?)?;
    expect_pattern(&rt, alloc, 2, &empty, &CHAIN, &["<a><b>", "<b><c>"])
}

// The right side binds a variable that the left side left unbound.
#[test]
fn a_join_of_two_optionals(rt: HostRuntime) -> Result<(), Fail> {
    let alloc = rt.alloc();
    let left = optional(
        alloc,
        &[["?0", "<p>", "?1"]],
        bgp(alloc, &[["?1", "<p>", "?2"]])?,
    )?;
    let right = optional(
        alloc,
        &[["<b>", "<p>", "?1"]],
        bgp(alloc, &[["<a>", "<p>", "?2"]])?,
    )?;
    let pattern = Pattern::join(alloc, left, right)?;
    expect_pattern(&rt, alloc, 3, &pattern, &CHAIN, &["<b><c><b>"])
}

#[test]
fn a_long_chain_of_joins(rt: HostRuntime) -> Result<(), Fail> {
    let alloc = rt.alloc();
    let mut pattern = bgp(alloc, &[["?0", "<p>", "?1"]])?;
    for _ in 0..600 {
        pattern = Pattern::join(alloc, pattern, bgp(alloc, &[["?0", "<p>", "?1"]])?)?;
    }
    expect_pattern(&rt, alloc, 2, &pattern, &CHAIN, &["<a><b>", "<b><c>"])
}

#[test]
fn lists_keep_what_is_pushed(rt: HostRuntime) -> Result<(), Fail> {
    let mut names = Names::new(rt.alloc());
    assert!(rt; names.is_empty());
    names.push("x")?;
    names.push("yz")?;
    assert_eq!(rt; names.len(), 2);
    assert_eq!(rt; names.get(0), "x");
    assert_eq!(rt; names.get(1), "yz");
    let mut columns = Columns::new(rt.alloc());
    assert!(rt; columns.is_empty());
    columns.push(Var(7))?;
    columns.push(Var(3))?;
    assert_eq!(rt; columns.len(), 2);
    assert_eq!(rt; columns.get(0), Var(7));
    assert_eq!(rt; columns.get(1), Var(3));
    Ok(())
}

#[test]
fn patterns_keep_their_order(rt: HostRuntime) -> Result<(), Fail> {
    let mut patterns = pat_list(rt.alloc(), &[["?0", "<p>", "?1"]])?;
    let mut second = triple_pat(rt.alloc(), &["<a>", "<p>", "?1"])?;
    second.number = 2;
    assert!(rt; PatList::new(rt.alloc()).is_empty());
    patterns.push(second)?;
    assert!(rt; patterns.len() == 2);
    assert_eq!(rt; patterns.get(0).number, 1);
    assert_eq!(rt; patterns.get(1).number, 2);
    Ok(())
}
