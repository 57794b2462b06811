//! How many of each an index has.

/// The version of an index, and how many terms of each group and how many triples it has.
#[derive(Clone, Copy, PartialEq, Eq, Debug, Drop)]
pub struct IndexCounts {
    /// The version of the file.
    pub version: u32,
    /// Terms that are subject and object.
    pub shared: u32,
    /// Subjects that are no object.
    pub subjects: u32,
    /// Objects that are no subject.
    pub objects: u32,
    /// Predicates.
    pub predicates: u32,
    /// Triples.
    pub triples: u32,
}
