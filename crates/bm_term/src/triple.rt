use crate::Term;

/// A triple: the subject, the predicate and the object (RDF 1.1 Concepts, section 3.1). Triples are
/// ordered by subject, then predicate, then object, each by the bytes of its text.
#[derive(Clone, Debug, PartialEq, Eq, PartialOrd, Ord, Hash, Drop)]
pub struct Triple {
    pub subject: Term,
    pub predicate: Term,
    pub object: Term,
}
