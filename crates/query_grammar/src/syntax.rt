// The roles of tokens in a query.

/// What a token is for in a query.
#[derive(Clone, Copy, Debug, PartialEq, Eq)]
pub enum Role {
    /// A word or a sign that only separates: PREFIX, SELECT, WHERE, `.`, `;`, `,` and `^^`.
    Keyword,
    /// The prefix that a declaration declares.
    Declared,
    /// The IRI of a declaration.
    Namespace,
    /// The word DISTINCT.
    Distinct,
    /// A variable of the SELECT clause.
    Column,
    /// The `*` of the SELECT clause.
    AllColumns,
    /// The word OPTIONAL.
    Optional,
    /// The `{` of a group.
    Open,
    /// The `}` of a group.
    Close,
    /// The first token of a subject.
    Subject,
    /// The token of a verb, the predicate of its triples.
    Verb,
    /// The first token of an object.
    Object,
    /// The language tag of a literal, which begins with the last subject or object.
    Tag,
    /// The datatype of a literal, which begins with the last subject or object.
    Datatype,
}
