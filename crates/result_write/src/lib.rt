//! Prints the rows of a query's result, as tab-separated values or as JSON. The texts are defined by characters, from the
//! recommendations of SPARQL and from RFC 8259, and `write_rows` prints exactly the defined text, or some front of it
//! where it refuses. It goes row by row through one buffer, so that no more of a text stands in memory at once than
//! 64 KiB and one row. `serde_json` writes the object of each row and the list of names.
#![tactic(auto)]

mod column;
mod form;
mod json_result;
mod json_row;
mod json_term;
mod laws;
mod pieces;
mod tsv;
mod write;

pub use form::{Form, WriteEnd};
pub use laws::{each_text_is_read_as_its_term, members_are_the_bound_columns_by_name};
pub use write::write_rows;

#[cfg(test)]
mod tests;
