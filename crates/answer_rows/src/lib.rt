//! The answers of a query as rows. `TextRows` keeps rows of borrowed terms: a cell is a reference, and no
//! text is copied. `project_sort` cuts rows to the columns of a query, drops repeated rows where it says
//! DISTINCT, and puts the rows in order.
#![tactic(auto)]

mod cell;
mod from_list;
mod project;
mod row_key;
#[cfg(test)]
mod tests;
mod text_rows;

pub use cell::Cell;
pub use project::project_sort;
pub use text_rows::TextRows;
