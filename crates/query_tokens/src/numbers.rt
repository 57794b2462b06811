//! INTEGER, DECIMAL and DOUBLE.
ghost use Rattle.std.specs.Prelude.{◌≡◌, IfSome};
ghost use Rattle.std.specs.Option.{option_map};
ghost use Rattle.std.specs.Str.{chars, IsUtf8};
ghost use Rattle.query_tokens.specs.scanning.Numbers.{after_sign, after_exponent, with_exponent, scan_fraction, scan_after_point, scan_after_digits, scan_number};

use crate::class_types::Digit;
use crate::token::TokenKind;
use rdf_text::{after_char, after_run, after_some, is_digit, split_char};

/// A number without its sign.
#[tactic(auto, unfolding(crate::specs::scanning::Numbers::scan_number))]
pub(crate) fn scan_number(text: &str) -> Option<(TokenKind, &str)>
    ensures chars { option_map (λ p. (p.0, chars p.1.now)) result ≡ scan_number (chars text.now) }
    ensures utf8 { IfSome result (λ p. IsUtf8 p.1.now) }
{
    match split_char(text)? {
        (c, rest) if is_digit(c as u32) => Some(scan_after_digits(after_run(rest, Digit))),
        ('.', rest) => scan_fraction(rest),
        _ => None,
    }
}

/// A number whose digits before a '.', if it has one, are already read.
#[tactic(auto, unfolding(crate::specs::scanning::Numbers::scan_after_digits))]
fn scan_after_digits(text: &str) -> (TokenKind, &str)
    ensures chars { (result.0, chars result.1.now) ≡ scan_after_digits (chars text.now) }
    ensures utf8 { IsUtf8 result.1.now }
{
    match after_char(text, '.') {
        Some(after) => scan_after_point(text, after),
        None => with_exponent(TokenKind::Integer, text),
    }
}

/// A number whose digits before a '.' are already read: the text with the '.', and the text after it.
#[tactic(auto, unfolding(crate::specs::scanning::Numbers::scan_after_point))]
fn scan_after_point<'a>(text: &'a str, after: &'a str) -> (TokenKind, &'a str)
    ensures chars { (result.0, chars result.1.now) ≡ scan_after_point (chars text.now) (chars after.now) }
    ensures utf8 { IsUtf8 result.1.now }
{
    if let Some(rest) = after_exponent(after_run(after, Digit)) {
        return (TokenKind::Double, rest);
    }
    match after_some(after, Digit) {
        Some(rest) => (TokenKind::Decimal, rest),
        None => (TokenKind::Integer, text),
    }
}

/// A number that has no digit before its '.', which is already read.
#[tactic(auto, unfolding(crate::specs::scanning::Numbers::scan_fraction))]
pub(crate) fn scan_fraction(text: &str) -> Option<(TokenKind, &str)>
    ensures chars { option_map (λ p. (p.0, chars p.1.now)) result ≡ scan_fraction (chars text.now) }
    ensures utf8 { IfSome result (λ p. IsUtf8 p.1.now) }
{
    let rest = after_some(text, Digit)?;
    Some(with_exponent(TokenKind::Decimal, rest))
}

/// A number of this kind, which an exponent makes a double.
fn with_exponent(kind: TokenKind, text: &str) -> (TokenKind, &str)
    ensures chars { (result.0, chars result.1.now) ≡ with_exponent kind (chars text.now) }
    ensures utf8 { IsUtf8 result.1.now }
{
    match after_exponent(text) {
        Some(rest) => (TokenKind::Double, rest),
        None => (kind, text),
    }
}

/// EXP ::= [eE] [+-]? [0-9]+
#[tactic(auto, unfolding(crate::specs::scanning::Numbers::after_exponent))]
fn after_exponent(text: &str) -> Option<&str>
    ensures chars { option_map (λ rest. chars rest.now) result ≡ after_exponent (chars text.now) }
    ensures utf8 { IfSome result (λ rest. IsUtf8 rest.now) }
{
    match split_char(text)? {
        ('e' | 'E', rest) => after_some(after_sign(rest), Digit),
        _ => None,
    }
}

/// The text after a sign, or all of it where it begins with none.
fn after_sign(text: &str) -> &str
    ensures { chars result.now ≡ after_sign (chars text.now) }
{
    match split_char(text) {
        Some(('+' | '-', rest)) => rest,
        _ => text,
    }
}
