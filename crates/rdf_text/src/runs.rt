//! Runs of characters that are walked byte by byte: each character beyond ASCII belongs to them.
ghost use Rattle.std.specs.Prelude.{◌≡◌, ℕ, Bool, is_none};
ghost use Rattle.std.specs.List.{list_all};
ghost use Rattle.std.specs.Option.{option_map};
ghost use Rattle.std.specs.Str.{chars, IsUtf8};
ghost use Rattle.rdf_text.specs.Classes.{is_irichar};
ghost use Rattle.rdf_text.specs.Spelling.{escape_letter};
ghost use Rattle.rdf_text.specs.Text.{HasRest};
ghost use Rattle.rdf_text.specs.scanning.Text.{after_run};
ghost use Rattle.rdf_text.specs.scanning.Repetition.{after_pieces};
ghost use Rattle.rdf_text.specs.scanning.Bytes.{is_iri_byte, is_raw_char, is_raw_byte};
ghost use Rattle.rdf_text.specs.scanning.Spelling.{is_escape_letter, after_escape, after_spelling};

/// The text after the longest run of `IRICHAR` that it begins with.
pub fn after_irichars(text: &str) -> &str
    ensures { chars result.now ≡ after_run is_irichar (chars text.now) }
{
    end_of(text, after_byte_run(text.as_bytes(), IriByte))
}

/// The text after the longest run of characters that stand for themselves in a canonical literal.
pub fn after_raw_chars(text: &str) -> &str
    ensures { chars result.now ≡ after_run is_raw_char (chars text.now) }
{
    end_of(text, after_byte_run(text.as_bytes(), RawByte))
}

/// How many bytes are tested at once.
const BLOCK: usize = 16;

/// A class of bytes, whose test takes no branch.
trait ByteClass: Copy {
    ghost members: { ℕ → Bool };

    fn has(self, b: u8) -> bool
        ensures { result ≡ members b };
}

/// The bytes of IRICHARs: each byte of a character beyond ASCII, which all are members.
#[derive(Clone, Copy)]
struct IriByte;

impl ByteClass for IriByte {
    ghost members = { is_iri_byte };

    #[tactic(auto, unfolding(crate::specs::scanning::Bytes::is_iri_byte, crate::specs::Classes::is_irichar, crate::specs::Classes::is_scalar))]
    fn has(self, b: u8) -> bool {
        (b > 0x20)
            & (b != b'"')
            & (b != b'<')
            & (b != b'>')
            & (b != b'\\')
            & (b != b'^')
            & (b != b'`')
            & (b != b'{')
            & (b != b'|')
            & (b != b'}')
    }
}

/// The bytes of characters that stand for themselves in a canonical literal.
#[derive(Clone, Copy)]
struct RawByte;

impl ByteClass for RawByte {
    ghost members = { is_raw_byte };

    #[tactic(auto, unfolding(crate::specs::scanning::Bytes::is_raw_byte, crate::specs::Spelling::escape_letter))]
    fn has(self, b: u8) -> bool {
        is_raw(b)
    }
}

/// Whether all bytes are members. Each is tested, so that the test is made for many at once.
fn are_members<C: ByteClass>(block: &[u8], class: C) -> bool
    ensures { result ≡ list_all C.members block.now }
{
    let mut all = true;
    for b in block {
        all &= class.has(*b);
    }
    all
}

/// What is left after blocks of members.
fn after_blocks<C: ByteClass>(bytes: &[u8], class: C) -> &[u8]
    ensures { after_run C.members result.now ≡ after_run C.members bytes.now }
{
    let mut rest = bytes;
    while let Some((block, after)) = rest.split_at_checked(BLOCK) {
        if !are_members(block, class) {
            break;
        }
        rest = after;
    }
    rest
}

#[tactic(auto, unfolding(crate::specs::scanning::Text::after_run))]
fn after_byte_run<C: ByteClass>(bytes: &[u8], class: C) -> &[u8]
    ensures { result.now ≡ after_run C.members bytes.now }
{
    let mut rest = after_blocks(bytes, class);
    while let [b, after @ ..] = rest {
        if !class.has(*b) {
            break;
        }
        rest = after;
    }
    rest
}

/// The text after the longest run of characters as they are spelled in a canonical literal.
pub fn after_spellings(text: &str) -> &str
    ensures { chars result.now ≡ after_pieces after_spelling (chars text.now) }
{
    end_of(text, after_spelled_bytes(text.as_bytes()))
}

#[tactic(auto, using(crate::proofs::Spellings::spellings))]
fn after_spelled_bytes(bytes: &[u8]) -> &[u8]
    ensures { result.now ≡ after_pieces after_spelling bytes.now }
{
    let mut rest = bytes;
    while let Some(after) = after_spelling(rest) {
        rest = after;
    }
    rest
}

/// What follows one character of ASCII as it is spelled, or one byte of another character.
#[tactic(auto, unfolding(crate::specs::scanning::Spelling::after_spelling))]
fn after_spelling(bytes: &[u8]) -> Option<&[u8]>
    ensures { option_map (λ rest. rest.now) result ≡ after_spelling bytes.now }
{
    match bytes {
        [b'\\', rest @ ..] => after_escape(rest),
        [b, rest @ ..] if is_raw(*b) => Some(rest),
        _ => None,
    }
}

fn after_escape(bytes: &[u8]) -> Option<&[u8]>
    ensures { option_map (λ rest. rest.now) result ≡ after_escape bytes.now }
{
    match bytes {
        [letter, rest @ ..] if is_escape_letter(*letter) => Some(rest),
        _ => None,
    }
}

#[tactic(auto, unfolding(crate::specs::scanning::Spelling::is_escape_letter))]
fn is_escape_letter(b: u8) -> bool
    ensures { result ≡ is_escape_letter b }
{
    matches!(b, b'"' | b'\\' | b'n' | b'r' | b't')
}

/// Whether the byte stands for itself in a literal.
#[tactic(auto, unfolding(crate::specs::Spelling::escape_letter))]
fn is_raw(b: u8) -> bool
    ensures { result ≡ is_none (escape_letter b) }
{
    (b != b'"') & (b != b'\\') & (b != b'\n') & (b != b'\r') & (b != b'\t')
}

/// The end of a text, which has these bytes.
fn end_of<'a>(text: &'a str, rest: &[u8]) -> &'a str
    requires ends { HasRest text.now rest.now }
    requires utf8 { IsUtf8 rest.now }
    ensures { result.now ≡ rest.now }
{
    let (_, end) = text.split_at(text.len() - rest.len());
    end
}
