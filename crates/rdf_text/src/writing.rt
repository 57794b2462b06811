//! What is written of a text, character by character.
ghost use Rattle.std.specs.Prelude.{◌≡◌, ◌++◌, map, OnOk, OnErr, string_bytes};
ghost use Rattle.std.specs.Char.{to_ascii_lowercase};
ghost use Rattle.std.specs.Str.{chars, encode_utf8_all};
ghost use Rattle.rdf_text.specs.Text.{HasFront};

use crate::text::split_char;
use std::alloc::AllocError;

/// Writes a text in lower case: each letter of ASCII becomes its small letter. Where memory runs out, a
/// front of it is written.
pub fn push_lower(out: &mut String, text: &str) -> Result<(), AllocError>
    ensures ok { OnOk result (string_bytes out.new ≡ string_bytes out.old ++ encode_utf8_all (map to_ascii_lowercase (chars text.now))) }
    ensures err { OnErr result (HasFront (string_bytes out.old ++ encode_utf8_all (map to_ascii_lowercase (chars text.now))) (string_bytes out.new)) }
{
    let mut rest = text;
    while let Some((c, after)) = split_char(rest) {
        out.push(c.to_ascii_lowercase())?;
        rest = after;
    }
    Ok(())
}
