//! Signs, and what begins like one.
ghost use Rattle.std.specs.Prelude.{◌≡◌, IfSome};
ghost use Rattle.std.specs.Option.{option_map};
ghost use Rattle.std.specs.Str.{chars, IsUtf8};
ghost use Rattle.query_tokens.specs.declared.token.TokenKind.TheVariants.{Variable};
ghost use Rattle.query_tokens.specs.Signs.{is_sign};
ghost use Rattle.query_tokens.specs.scanning.Variables.{after_variable_name};
ghost use Rattle.query_tokens.specs.scanning.Tokens.{as_kind, or_sign, after_circumflex, scan_sign};

use crate::numbers::{scan_fraction, scan_number};
use crate::token::TokenKind;
use crate::variables::after_variable_name;
use rdf_text::after_char;

/// A token that begins with this character, which is already read, and which is neither of a name nor a
/// digit nor begins a quoted text, a tag or a label.
#[tactic(auto, unfolding(crate::specs::scanning::Tokens::scan_sign))]
pub(crate) fn scan_sign(c: char, text: &str) -> Option<(TokenKind, &str)>
    ensures chars { option_map (λ p. (p.0, chars p.1.now)) result ≡ scan_sign c (chars text.now) }
    ensures utf8 { IfSome result (λ p. IsUtf8 p.1.now) }
{
    match c {
        '?' => Some(or_sign(scan_variable(text), text)),
        '$' => scan_variable(text),
        '+' => Some(or_sign(scan_number(text), text)),
        '-' => scan_number(text),
        '.' => Some(or_sign(scan_fraction(text), text)),
        '^' => Some((TokenKind::Sign, after_circumflex(text))),
        _ if is_sign(c) => Some((TokenKind::Sign, text)),
        _ => None,
    }
}

fn scan_variable(text: &str) -> Option<(TokenKind, &str)>
    ensures chars { option_map (λ p. (p.0, chars p.1.now)) result ≡ as_kind Variable (after_variable_name (chars text.now)) }
    ensures utf8 { IfSome result (λ p. IsUtf8 p.1.now) }
{
    Some((TokenKind::Variable, after_variable_name(text)?))
}

/// What was found, or else the sign that was read.
fn or_sign<'a>(found: Option<(TokenKind, &'a str)>, text: &'a str) -> (TokenKind, &'a str)
    requires { IfSome found (λ p. IsUtf8 p.1.now) }
    ensures chars { Some (result.0, chars result.1.now) ≡ or_sign (option_map (λ p. (p.0, chars p.1.now)) found.entry) (chars text.now) }
    ensures utf8 { IsUtf8 result.1.now }
{
    match found {
        Some(longer) => longer,
        None => (TokenKind::Sign, text),
    }
}

/// The text after a second '^', or all of it where there is none.
fn after_circumflex(text: &str) -> &str
    ensures { chars result.now ≡ after_circumflex (chars text.now) }
{
    match after_char(text, '^') {
        Some(rest) => rest,
        None => text,
    }
}

/// Whether the character is a sign by itself.
#[tactic(auto, unfolding(crate::specs::Signs::is_sign))]
fn is_sign(c: char) -> bool
    ensures { result ≡ is_sign c }
{
    matches!(
        c,
        '{' | '}'
            | '.'
            | ';'
            | ','
            | '*'
            | '^'
            | '/'
            | '|'
            | '+'
            | '?'
            | '!'
            | '('
            | ')'
            | '['
            | ']'
    )
}
