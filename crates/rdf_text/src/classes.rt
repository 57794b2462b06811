//! The classes of characters that the grammars of N-Triples and of SPARQL name.
ghost use Rattle.std.specs.Prelude.{◌≡◌};
ghost use Rattle.rdf_text.specs.Classes.{is_scalar, is_letter, is_lower_letter, is_digit, is_hex, is_pn_chars_base, is_sparql_pn_chars_u, is_nt_pn_chars_u, is_pn_chars_more, is_sparql_pn_chars, is_nt_pn_chars, is_irichar, is_lower_alphanumeric, is_alphanumeric, is_nt_label_first, is_sparql_label_first, is_comment_char};

/// Whether the number is a Unicode scalar value: at most 10FFFF, and no surrogate.
#[tactic(auto, unfolding(crate::specs::Classes::is_scalar))]
pub fn is_scalar(c: u32) -> bool
    ensures { result ≡ is_scalar c }
{
    matches!(c, 0..=0xD7FF | 0xE000..=0x10FFFF)
}

/// `A` to `Z` and `a` to `z`.
#[tactic(auto, unfolding(crate::specs::Classes::is_letter))]
pub fn is_letter(c: u32) -> bool
    ensures { result ≡ is_letter c }
{
    matches!(c, 0x41..=0x5A | 0x61..=0x7A)
}

/// `a` to `z`.
#[tactic(auto, unfolding(crate::specs::Classes::is_lower_letter))]
pub fn is_lower_letter(c: u32) -> bool
    ensures { result ≡ is_lower_letter c }
{
    matches!(c, 0x61..=0x7A)
}

/// `0` to `9`.
#[tactic(auto, unfolding(crate::specs::Classes::is_digit))]
pub fn is_digit(c: u32) -> bool
    ensures { result ≡ is_digit c }
{
    matches!(c, 0x30..=0x39)
}

/// `HEX`: `0` to `9`, `A` to `F` and `a` to `f`.
#[tactic(auto, unfolding(crate::specs::Classes::is_hex))]
pub fn is_hex(c: u32) -> bool
    ensures { result ≡ is_hex c }
{
    matches!(c, 0x30..=0x39 | 0x41..=0x46 | 0x61..=0x66)
}

/// `PN_CHARS_BASE`, which is the same in both grammars.
#[tactic(auto, unfolding(crate::specs::Classes::is_pn_chars_base))]
pub fn is_pn_chars_base(c: u32) -> bool
    ensures { result ≡ is_pn_chars_base c }
{
    matches!(
        c,
        0x41..=0x5A
            | 0x61..=0x7A
            | 0xC0..=0xD6
            | 0xD8..=0xF6
            | 0xF8..=0x2FF
            | 0x370..=0x37D
            | 0x37F..=0x1FFF
            | 0x200C..=0x200D
            | 0x2070..=0x218F
            | 0x2C00..=0x2FEF
            | 0x3001..=0xD7FF
            | 0xF900..=0xFDCF
            | 0xFDF0..=0xFFFD
            | 0x10000..=0xEFFFF
    )
}

/// `PN_CHARS_U` of SPARQL: `PN_CHARS_BASE` and `_`.
#[tactic(auto, unfolding(crate::specs::Classes::is_sparql_pn_chars_u))]
pub fn is_sparql_pn_chars_u(c: u32) -> bool
    ensures { result ≡ is_sparql_pn_chars_u c }
{
    is_pn_chars_base(c) || c == 0x5F
}

/// `PN_CHARS_U` of N-Triples: `PN_CHARS_BASE`, `_` and `:`.
#[tactic(auto, unfolding(crate::specs::Classes::is_nt_pn_chars_u))]
pub fn is_nt_pn_chars_u(c: u32) -> bool
    ensures { result ≡ is_nt_pn_chars_u c }
{
    is_pn_chars_base(c) || matches!(c, 0x3A | 0x5F)
}

/// `PN_CHARS` of SPARQL: its `PN_CHARS_U`, `-`, digits, B7, 300 to 36F and 203F to 2040.
#[tactic(auto, unfolding(crate::specs::Classes::is_sparql_pn_chars))]
pub fn is_sparql_pn_chars(c: u32) -> bool
    ensures { result ≡ is_sparql_pn_chars c }
{
    is_sparql_pn_chars_u(c) || is_pn_chars_more(c)
}

/// `PN_CHARS` of N-Triples: its `PN_CHARS_U`, `-`, digits, B7, 300 to 36F and 203F to 2040.
#[tactic(auto, unfolding(crate::specs::Classes::is_nt_pn_chars))]
pub fn is_nt_pn_chars(c: u32) -> bool
    ensures { result ≡ is_nt_pn_chars c }
{
    is_nt_pn_chars_u(c) || is_pn_chars_more(c)
}

/// What PN_CHARS has besides PN_CHARS_U.
#[tactic(auto, unfolding(crate::specs::Classes::is_pn_chars_more))]
fn is_pn_chars_more(c: u32) -> bool
    ensures { result ≡ is_pn_chars_more c }
{
    matches!(c, 0x2D | 0x30..=0x39 | 0xB7 | 0x300..=0x36F | 0x203F..=0x2040)
}

/// `IRICHAR`: every character but those from 0 to 20 and `<`, `>`, `"`, `{`, `}`, `|`, `^`, the
/// grave accent and the backslash.
#[tactic(auto, unfolding(crate::specs::Classes::is_irichar))]
pub fn is_irichar(c: u32) -> bool
    ensures { result ≡ is_irichar c }
{
    is_scalar(c)
        && c > 0x20
        && !matches!(
            c,
            0x22 | 0x3C | 0x3E | 0x5C | 0x5E | 0x60 | 0x7B | 0x7C | 0x7D
        )
}

/// `a` to `z` and `0` to `9`.
#[tactic(auto, unfolding(crate::specs::Classes::is_lower_alphanumeric))]
pub fn is_lower_alphanumeric(c: u32) -> bool
    ensures { result ≡ is_lower_alphanumeric c }
{
    is_lower_letter(c) || is_digit(c)
}

/// `A` to `Z`, `a` to `z` and `0` to `9`.
#[tactic(auto, unfolding(crate::specs::Classes::is_alphanumeric))]
pub fn is_alphanumeric(c: u32) -> bool
    ensures { result ≡ is_alphanumeric c }
{
    is_letter(c) || is_digit(c)
}

/// The characters with which a label of N-Triples begins: its `PN_CHARS_U` and digits.
#[tactic(auto, unfolding(crate::specs::Classes::is_nt_label_first))]
pub fn is_nt_label_first(c: u32) -> bool
    ensures { result ≡ is_nt_label_first c }
{
    is_nt_pn_chars_u(c) || is_digit(c)
}

/// The characters with which a label of SPARQL begins: its `PN_CHARS_U` and digits.
#[tactic(auto, unfolding(crate::specs::Classes::is_sparql_label_first))]
pub fn is_sparql_label_first(c: u32) -> bool
    ensures { result ≡ is_sparql_label_first c }
{
    is_sparql_pn_chars_u(c) || is_digit(c)
}

/// What a comment may have after its `#`: every character but LF and CR.
#[tactic(auto, unfolding(crate::specs::Classes::is_comment_char))]
pub fn is_comment_char(c: u32) -> bool
    ensures { result ≡ is_comment_char c }
{
    !matches!(c, 0xA | 0xD)
}
