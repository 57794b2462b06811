//! Best-match: of rows of values, each different one once, except those that another row extends with more variables.
//! `best_match` keeps them, and `best_rows_law` says what they are of partial solutions.
#![tactic(auto)]

mod best;
mod cut;
mod groups;
mod laws;
mod marks;
mod row_key;
mod search;
#[cfg(test)]
mod tests;

pub use best::best_match;
pub use laws::best_rows_law;
