//! IRIREF ::= '<' (IRICHAR | UCHAR)* '>'.
ghost use Rattle.std.specs.Prelude.{◌≡◌, IfSome};
ghost use Rattle.std.specs.Option.{option_map};
ghost use Rattle.std.specs.Str.{chars, IsUtf8};
ghost use Rattle.query_tokens.specs.scanning.Iris.{after_iri};

use rdf_text::after_char;
use rdf_escapes::after_iri_pieces;

/// The text after an IRI whose '<' is already read.
#[tactic(auto, unfolding(crate::specs::scanning::Iris::after_iri))]
pub(crate) fn after_iri(text: &str) -> Option<&str>
    ensures chars { option_map (λ rest. chars rest.now) result ≡ after_iri (chars text.now) }
    ensures utf8 { IfSome result (λ rest. IsUtf8 rest.now) }
{
    after_char(after_iri_pieces(text), '>')
}
