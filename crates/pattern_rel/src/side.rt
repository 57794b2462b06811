//! The two sides of a relation.

/// A side of a relation: that of the first numbers, or of the second ones.
#[derive(Clone, Copy, Debug, PartialEq, Eq)]
pub enum Side {
    First,
    Second,
}
