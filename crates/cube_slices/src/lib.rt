//! Slices: a sparse matrix of rows, as bytes. A slice is a strictly ascending, non-empty list of pairs of a
//! row and a column, and has one spelling.
//!
//! [`check_slice`] tells whether bytes are a slice, [`view_slice`] reads bytes that are known to be one, and
//! [`encode_slice`] writes one. A [`SliceRef`] borrows the bytes and is seen as the list of its lines, each a
//! row's number with the row. It finds a row by halving, walks all lines in order, and folds them under a mask.
//! No call but those that write takes memory.
#![tactic(auto)]

mod check;
mod folds;
mod lines;
mod parts;
mod seek;
mod slice;
mod writing;

pub use lines::Lines;
pub use slice::{SliceRef, check_slice, view_slice};
pub use writing::{append_slice, encode_slice};

#[cfg(test)]
mod tests;
