//! Run-length rows: a row is a non-empty, strictly ascending list of column numbers, kept as bytes.
//!
//! [`check`] tells whether bytes are the one encoding of such a list, [`view`] reads bytes that are known
//! to be, and [`encode`] and [`append`] write them. A [`RowRef`] borrows the bytes: it searches them by
//! halving and walks them number by number or run by run, and takes no memory.
#![tactic(auto)]

mod form;
mod iter;
mod row;
mod run;
mod runs;
mod writing;

pub use form::RowForm;
pub use iter::{RowIter, RunIter};
pub use row::{RowRef, check, view};
pub use run::Run;
pub use writing::{append, encode, encoded_len};

#[cfg(test)]
mod tests;
