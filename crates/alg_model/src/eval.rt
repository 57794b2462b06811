ghost use Rattle.std.specs.Prelude.{◌≡◌, ◌≢◌, ◌==◌, ◌++◌, [], ◌∷◌, List, length, All, AllPairs, IsPermutation, IfOk, OnOk};
ghost use Rattle.std.specs.Option.{option_to_list};
ghost use Rattle.std.specs.Cmp.Lexicographic.{pointwise};
ghost use Rattle.std.specs.List.{filter_map};
ghost use Rattle.alg_model.specs.Row.{both_rows, merged, join, without_partner, left_join};
ghost use Rattle.alg_model.specs.Pattern.{Bgp, HasVarsBelow, algebra_of};
ghost use Rattle.alg_model.specs.Eval.{as_terms, place_row, match_of, matches_of, bgp_rows, eval};
ghost use Rattle.alg_model.specs.Solution.{AreSolutions};

use crate::row::Row;
use crate::{Pattern, Place, RowList, TriplePat};
use bm_term::{Term, Triple};
use std::alloc::{AllocError, Global};

/// The rows of a pattern over triples, as the SPARQL algebra has them: each as often as there, in any
/// order. `vars` is the number of cells of a row. All variables of the pattern have numbers below it, and no
/// triple stands twice. `Err` only where memory runs out. It is plain: nested loops over lists.
pub fn eval_plain(
    alloc: Global,
    pattern: &Pattern,
    vars: u8,
    triples: &[Triple],
) -> Result<RowList, AllocError>
    requires vars_below { HasVarsBelow vars (algebra_of pattern.now) }
    requires each_once { AllPairs (λ t u. t ≢ u) triples.now }
    ensures rows { IfOk result (λ rows. IsPermutation (eval as_terms vars (algebra_of pattern.now) triples.now) rows) }
    ensures width { IfOk result (λ rows. All (λ row. length row ≡ vars) rows) }
    ensures solutions { (patterns : List TriplePat) → algebra_of pattern.now ≡ Bgp patterns →
        IfOk result (AreSolutions as_terms vars patterns triples.now) }
{
    let rows = pattern_rows(alloc, pattern, vars, triples)?;
    Ok(RowList::from_rows(rows))
}

fn pattern_rows(
    alloc: Global,
    pattern: &Pattern,
    vars: u8,
    triples: &[Triple],
) -> Result<Vec<Row>, AllocError>
    ensures { IfOk result (λ rows. rows.items ≡ eval as_terms vars (algebra_of pattern.now) triples.now) }
{
    match pattern {
        Pattern::Bgp(patterns) => basic_rows(alloc, vars, patterns.as_slice(), triples),
        Pattern::Join(left, right) => {
            let left = pattern_rows(alloc, left, vars, triples)?;
            let right = pattern_rows(alloc, right, vars, triples)?;
            joined(alloc, &left, &right)
        }
        Pattern::LeftJoin(left, right) => {
            let left = pattern_rows(alloc, left, vars, triples)?;
            let right = pattern_rows(alloc, right, vars, triples)?;
            left_joined(alloc, left, &right)
        }
    }
}

fn basic_rows(
    alloc: Global,
    vars: u8,
    patterns: &[TriplePat],
    triples: &[Triple],
) -> Result<Vec<Row>, AllocError>
    ensures { IfOk result (λ rows. rows.items ≡ bgp_rows as_terms vars patterns.now triples.now) }
{
    let mut rows = Vec::new(alloc);
    rows.push(Row::unbound(alloc, vars)?)?;
    for pattern in patterns {
        let matches = matches(alloc, vars, pattern, triples)?;
        rows = joined(alloc, &rows, &matches)?;
    }
    Ok(rows)
}

// The matches of one triple pattern.
fn matches(
    alloc: Global,
    vars: u8,
    pattern: &TriplePat,
    triples: &[Triple],
) -> Result<Vec<Row>, AllocError>
    ensures { IfOk result (λ rows. rows.items ≡ matches_of as_terms vars pattern.now triples.now) }
{
    let mut rows = Vec::new(alloc);
    for triple in triples {
        push_some(&mut rows, match_triple(alloc, vars, pattern, triple)?)?;
    }
    Ok(rows)
}

fn match_triple(
    alloc: Global,
    vars: u8,
    pattern: &TriplePat,
    triple: &Triple,
) -> Result<Option<Row>, AllocError>
    ensures { IfOk result (λ row. row ≡ match_of as_terms vars pattern.now triple.now) }
{
    let subject = match_place(alloc, vars, &pattern.subject, &triple.subject)?;
    let predicate = match_place(alloc, vars, &pattern.predicate, &triple.predicate)?;
    let object = match_place(alloc, vars, &pattern.object, &triple.object)?;
    both(alloc, both(alloc, subject, predicate)?, object)
}

fn match_place(
    alloc: Global,
    vars: u8,
    place: &Place,
    term: &Term,
) -> Result<Option<Row>, AllocError>
    ensures { IfOk result (λ row. row ≡ place_row as_terms vars place.now term.now) }
{
    match place {
        Place::Term(wanted) => {
            if term == wanted {
                Ok(Some(Row::unbound(alloc, vars)?))
            } else {
                Ok(None)
            }
        }
        Place::Var(var) => Ok(Some(Row::single(alloc, vars, *var, term)?)),
    }
}

// The merge of two rows, where both are there and compatible.
fn both(alloc: Global, left: Option<Row>, right: Option<Row>) -> Result<Option<Row>, AllocError>
    ensures { IfOk result (λ row. row ≡ both_rows (pointwise ◌==◌) left right) }
{
    match (left, right) {
        (Some(left), Some(right)) => left.merged(alloc, &right),
        _ => Ok(None),
    }
}

// The merges of compatible rows, one of each side.
fn joined(alloc: Global, left: &[Row], right: &[Row]) -> Result<Vec<Row>, AllocError>
    ensures { IfOk result (λ rows. rows.items ≡ join (pointwise ◌==◌) left.now right.now) }
{
    let mut rows = Vec::new(alloc);
    for row in left {
        join_row(alloc, row, right, &mut rows)?;
    }
    Ok(rows)
}

// The merges of compatible rows, and then the rows of the left side that have no partner.
fn left_joined(alloc: Global, left: Vec<Row>, right: &[Row]) -> Result<Vec<Row>, AllocError>
    ensures { IfOk result (λ rows. rows.items ≡ left_join (pointwise ◌==◌) left.items right.now) }
{
    let mut rows = Vec::new(alloc);
    let mut alone = Vec::new(alloc);
    for row in left {
        left_join_row(alloc, row, right, &mut rows, &mut alone)?;
    }
    rows.append(&mut alone)?;
    Ok(rows)
}

// The merges of one row with the rows that are compatible with it, or the row itself where none is.
fn left_join_row(
    alloc: Global,
    row: Row,
    right: &[Row],
    rows: &mut Vec<Row>,
    alone: &mut Vec<Row>,
) -> Result<(), AllocError>
    ensures merged { OnOk result (rows.new.items ≡ rows.old.items ++ filter_map (merged (pointwise ◌==◌) row) right.now) }
    ensures alone { OnOk result (alone.new.items ≡ alone.old.items ++ without_partner (pointwise ◌==◌) (row ∷ []) right.now) }
{
    let before = rows.len();
    join_row(alloc, &row, right, rows)?;
    if rows.len() == before {
        alone.push(row)?;
    }
    Ok(())
}

// The merges of one row with the rows that are compatible with it.
fn join_row(alloc: Global, row: &Row, right: &[Row], into: &mut Vec<Row>) -> Result<(), AllocError>
    ensures { OnOk result (into.new.items ≡ into.old.items ++ filter_map (merged (pointwise ◌==◌) row.now) right.now) }
{
    for other in right {
        push_some(into, row.merged(alloc, other)?)?;
    }
    Ok(())
}

fn push_some(rows: &mut Vec<Row>, row: Option<Row>) -> Result<(), AllocError>
    ensures { OnOk result (rows.new.items ≡ rows.old.items ++ option_to_list row) }
{
    if let Some(row) = row {
        rows.push(row)?;
    }
    Ok(())
}
