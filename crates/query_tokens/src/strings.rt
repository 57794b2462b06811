//! STRING_LITERAL1, STRING_LITERAL2, and three marks in a row.
ghost use Rattle.std.specs.Prelude.{◌≡◌, IfSome};
ghost use Rattle.std.specs.Option.{option_map};
ghost use Rattle.std.specs.Str.{chars, IsUtf8};
ghost use Rattle.query_tokens.specs.scanning.Strings.{after_string};
ghost use Rattle.query_tokens.specs.scanning.Tokens.{after_two_more, scan_quoted};

use crate::token::TokenKind;
use rdf_text::after_char;
use rdf_escapes::after_string_pieces;

/// A string, or three marks in a row, of which the first is already read.
#[tactic(auto, unfolding(crate::specs::scanning::Tokens::scan_quoted))]
pub(crate) fn scan_quoted(mark: char, text: &str) -> Option<(TokenKind, &str)>
    ensures chars { option_map (λ p. (p.0, chars p.1.now)) result ≡ scan_quoted mark (chars text.now) }
    ensures utf8 { IfSome result (λ p. IsUtf8 p.1.now) }
{
    match after_two_more(mark, text) {
        Some(rest) => Some((TokenKind::Quotes, rest)),
        None => Some((TokenKind::Quoted, after_string(mark, text)?)),
    }
}

#[tactic(auto, unfolding(crate::specs::scanning::Tokens::after_two_more))]
fn after_two_more(mark: char, text: &str) -> Option<&str>
    ensures chars { option_map (λ rest. chars rest.now) result ≡ after_two_more mark (chars text.now) }
    ensures utf8 { IfSome result (λ rest. IsUtf8 rest.now) }
{
    after_char(after_char(text, mark)?, mark)
}

/// The text after a string whose first mark is already read.
#[tactic(auto, unfolding(crate::specs::scanning::Strings::after_string))]
fn after_string(mark: char, text: &str) -> Option<&str>
    ensures chars { option_map (λ rest. chars rest.now) result ≡ after_string mark (chars text.now) }
    ensures utf8 { IfSome result (λ rest. IsUtf8 rest.now) }
{
    after_char(after_string_pieces(mark, text), mark)
}
