//! Relations under masks: what is left of a triple pattern's matches, without copying a row.
//!
//! A [`PatRel`] is a borrowed [`Shape`] with a mask for each side. It is seen as its lines and the two masks, and the
//! pairs left of it are those of its lines whose numbers are in the masks. It folds them into a mask, drops those that a
//! mask does not have, counts them, and gives them one by one, by [`next`](PatRel::next) or by a cursor that the caller
//! keeps. No call takes memory.
#![tactic(auto)]

mod bound;
mod counts;
mod cursor;
mod folds;
mod next;
mod partners;
mod pools;
mod relation;
mod sets;
mod shape;
mod side;
mod sides;
mod walk;

pub use bound::{Bound, Pair};
pub use cursor::{PairsLeft, RowLeft};
pub use relation::PatRel;
pub use shape::Shape;
pub use side::Side;

#[cfg(test)]
mod tests;
