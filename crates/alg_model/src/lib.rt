//! The SPARQL algebra. Patterns and queries are data here, and their meaning stands in `specs/`:
//! rows, matches, basic graph patterns and evaluation, for any kind of value. `eval_plain` is the plain
//! evaluator, whose rows are those of the algebra. The algebra's laws are contracts too, those of
//! `basic_pattern_law`, `triple_order_law` and `arranged_rows_law`.
#![tactic(auto)]

mod eval;
mod laws;
mod limits;
mod pattern;
mod query;
mod row;
#[cfg(test)]
mod tests;
mod var;
mod var_set;

pub use eval::eval_plain;
pub use laws::{arranged_rows_law, basic_pattern_law, triple_order_law};
pub use limits::{
    MAX_GROUPS, MAX_OPEN_GROUPS, MAX_OPTIONALS, MAX_TRIPLE_PATTERNS, MAX_VARIABLES, limits_law,
};
pub use pattern::{PatList, Pattern, Place, TriplePat};
pub use query::{Columns, Names, Query};
pub use row::RowList;
pub use var::Var;
