//! Numbers in bytes, and tables of pieces: the lowest layer of the index file.
//!
//! A number is four bytes, the lowest first, and a pair two numbers. A table of pieces is a list of starts,
//! one more than there are pieces, beside the bytes of all pieces: [`cut_whole`] tells whether starts cut all
//! bytes, and [`piece_at`] gives a piece. No call but those that write takes memory.
#![tactic(auto)]

mod numbers;
mod pairs;
mod pieces;
mod writing;

pub use numbers::{first_number, number_at, split_number};
pub use pairs::{first_pair, pair_at, split_pair};
pub use pieces::{between, cut_whole, piece_at, piece_of};
pub use writing::{push_number, push_numbers, push_pair};

#[cfg(test)]
mod tests;
