//! The columns of a query: each variable once, in the order in which it first occurs.
ghost use Rattle.std.specs.Prelude.{◌≡◌, ◌==◌, OnOk, map, fold, flat_map};
ghost use Rattle.std.specs.List.{list_any};
ghost use Rattle.alg_model.specs.Pattern.{algebra_of, place_vars, triple_vars, vars_of};
ghost use Rattle.sparql_parse.specs.computed.Meaning.{with_number};

use alg_model::{Columns, Pattern, Place, TriplePat, Var};
use std::alloc::AllocError;

/// Whether the variable is among the columns.
fn is_column(columns: &Columns, var: Var) -> bool
    ensures { result ≡ list_any (λ number. number == var.0) (map (λ column. column.0) columns.now) }
{
    for i in 0..columns.len() {
        if columns.get(i).0 == var.0 {
            return true;
        }
    }
    false
}

/// Puts a variable at the end of the columns, unless it is there.
pub(crate) fn put_column(columns: &mut Columns, var: Var) -> Result<(), AllocError>
    ensures { OnOk result (map (λ column. column.0) columns.new ≡ with_number (map (λ column. column.0) columns.old) var.0) }
{
    if is_column(columns, var) {
        return Ok(());
    }
    columns.push(var)
}

fn put_place(columns: &mut Columns, place: &Place) -> Result<(), AllocError>
    ensures { OnOk result (map (λ column. column.0) columns.new ≡ fold with_number (map (λ column. column.0) columns.old) (place_vars place.now)) }
{
    match place {
        Place::Var(var) => put_column(columns, *var),
        Place::Term(_) => Ok(()),
    }
}

fn put_triple(columns: &mut Columns, pattern: &TriplePat) -> Result<(), AllocError>
    ensures { OnOk result (map (λ column. column.0) columns.new ≡ fold with_number (map (λ column. column.0) columns.old) (triple_vars pattern.now)) }
{
    put_place(columns, &pattern.subject)?;
    put_place(columns, &pattern.predicate)?;
    put_place(columns, &pattern.object)
}

fn put_triples(columns: &mut Columns, patterns: &[TriplePat]) -> Result<(), AllocError>
    ensures { OnOk result (map (λ column. column.0) columns.new ≡ fold with_number (map (λ column. column.0) columns.old) (flat_map triple_vars patterns.now)) }
{
    for pattern in patterns {
        put_triple(columns, pattern)?;
    }
    Ok(())
}

/// Puts the variables of a pattern at the end of the columns, in the order of its text, unless they are
/// there.
pub(crate) fn put_variables(columns: &mut Columns, pattern: &Pattern) -> Result<(), AllocError>
    ensures { OnOk result (map (λ column. column.0) columns.new ≡ fold with_number (map (λ column. column.0) columns.old) (vars_of (algebra_of pattern.now))) }
{
    match pattern {
        Pattern::Bgp(patterns) => put_triples(columns, patterns.as_slice()),
        Pattern::Join(left, right) | Pattern::LeftJoin(left, right) => {
            put_variables(columns, left)?;
            put_variables(columns, right)
        }
    }
}
