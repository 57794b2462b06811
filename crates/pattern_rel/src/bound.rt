//! Which pair is asked for.

/// The numbers that a pair must have, where they are given.
#[derive(Clone, Copy, Debug, PartialEq, Eq)]
pub struct Bound {
    pub first: Option<u32>,
    pub second: Option<u32>,
}

/// A pair of a relation.
#[derive(Clone, Copy, Debug, PartialEq, Eq)]
pub struct Pair {
    pub first: u32,
    pub second: u32,
}
