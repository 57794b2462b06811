/// The kinds of term: an IRI, a blank node, and a literal whose datatype is xsd:string, that has a
/// language tag, or that has another datatype.
#[derive(Clone, Copy, PartialEq, Eq, Debug)]
pub enum TermKind {
    /// `<iri>`
    Iri,
    /// `_:label`
    Blank,
    /// `"form"`: the datatype is xsd:string.
    Plain,
    /// `"form"@tag`: the datatype is rdf:langString.
    Tagged,
    /// `"form"^^<iri>`: the datatype is another one than xsd:string.
    Typed,
}

/// The parts of a canonical text.
#[derive(Clone, Copy, Debug)]
pub struct Parts<'a> {
    pub kind: TermKind,
    /// The IRI without its brackets, the label without `_:`, or the lexical form as it is spelled.
    pub body: &'a [u8],
    /// The language tag, the IRI of the datatype without its brackets, or nothing.
    pub tail: &'a [u8],
}
