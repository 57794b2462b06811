//! What the characters of an IRI and of a string stand for, written as canonical terms have it.
ghost use Rattle.std.specs.Prelude.{◌≡◌, ◌++◌, OnOk, OnErr, string_bytes};
ghost use Rattle.std.specs.Str.{chars, encode_utf8_all};
ghost use Rattle.rdf_text.specs.Spelling.{escaped};
ghost use Rattle.rdf_text.specs.Text.{HasFront};
ghost use Rattle.rdf_escapes.specs.scanning.Pieces.{values};
ghost use Rattle.rdf_escapes.specs.scanning.Iris.{iri_piece};
ghost use Rattle.rdf_escapes.specs.scanning.Strings.{string_piece};

use crate::iris::iri_piece;
use crate::strings::string_piece;
use rdf_text::push_spelling;
use std::alloc::AllocError;

/// Writes the characters of an IRI with which a text begins, their escapes undone. Where memory runs
/// out, a front of them is written.
#[tactic(auto, using(crate::proofs::CharacterLaws::iri_pieces))]
pub fn push_iri_pieces(out: &mut String, text: &str) -> Result<(), AllocError>
    ensures ok { OnOk result (string_bytes out.new ≡ string_bytes out.old ++ encode_utf8_all (values iri_piece (chars text.now))) }
    ensures err { OnErr result (HasFront (string_bytes out.old ++ encode_utf8_all (values iri_piece (chars text.now))) (string_bytes out.new)) }
{
    let mut rest = text;
    while let Some((c, after)) = iri_piece(rest) {
        out.push(c)?;
        rest = after;
    }
    Ok(())
}

/// Writes the characters of a string with which a text begins, each in its one spelling in a canonical
/// literal. Where memory runs out, a front of them is written.
#[tactic(auto, using(crate::proofs::CharacterLaws::string_pieces))]
pub fn push_string_pieces(out: &mut String, mark: char, text: &str) -> Result<(), AllocError>
    ensures ok { OnOk result (string_bytes out.new ≡ string_bytes out.old ++ encode_utf8_all (escaped (values (string_piece mark) (chars text.now)))) }
    ensures err { OnErr result (HasFront (string_bytes out.old ++ encode_utf8_all (escaped (values (string_piece mark) (chars text.now)))) (string_bytes out.new)) }
{
    let mut rest = text;
    while let Some((c, after)) = string_piece(mark, rest) {
        push_spelling(out, c)?;
        rest = after;
    }
    Ok(())
}
