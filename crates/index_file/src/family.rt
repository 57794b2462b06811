/// A family of slices: how the triples are cut into slices, rows and columns.
#[derive(Clone, Copy, Debug, PartialEq, Eq)]
pub enum Family {
    /// A slice for each predicate, with rows by subject and columns by object.
    So,
    /// A slice for each predicate, with rows by object and columns by subject.
    Os,
    /// A slice for each object, with rows by predicate and columns by subject.
    Ps,
    /// A slice for each subject, with rows by predicate and columns by object.
    Po,
}
