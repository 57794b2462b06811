//! What a token is.

/// The kinds of tokens, most of them a rule of SPARQL 1.1 Query, section 19.8.
#[derive(Clone, Copy, Debug, PartialEq, Eq)]
pub enum TokenKind {
    /// `IRIREF`, with its escapes by number.
    Iri,
    /// `PNAME_NS`: a prefix with its colon.
    Prefix,
    /// `PNAME_LN`: a prefix with its colon, and a local name.
    Prefixed,
    /// `VAR1` or `VAR2`, with its mark.
    Variable,
    /// `STRING_LITERAL1` or `STRING_LITERAL2`, with its marks.
    Quoted,
    /// `LANGTAG`, with its `@`.
    Tag,
    /// `INTEGER`, also with a sign.
    Integer,
    /// `DECIMAL`, also with a sign.
    Decimal,
    /// `DOUBLE`, also with a sign.
    Double,
    /// One letter of ASCII or more.
    Word,
    /// `BLANK_NODE_LABEL`, with its `_:`.
    Blank,
    /// One of `{` `}` `.` `;` `,` `*` `^^` `^` `/` `|` `+` `?` `!` `(` `)` `[` `]`.
    Sign,
    /// Three equal quotation marks, with which long strings begin.
    Quotes,
    /// The rest of a source at a place where no token begins.
    Bad,
}

/// A token: its kind, its text, which is a slice of the source, and the byte of the source with which
/// that begins, from 0.
#[derive(Clone, Copy, Debug)]
pub struct Token<'a> {
    pub kind: TokenKind,
    pub text: &'a [u8],
    pub at: usize,
}
