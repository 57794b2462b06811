//! Names with dots inside, and language tags: each ends where the longest one does.
ghost use Rattle.std.specs.Prelude.{◌≡◌, false, IfSome, IfNone};
ghost use Rattle.std.specs.Option.{option_map};
ghost use Rattle.std.specs.Str.{chars, IsUtf8};
ghost use Rattle.rdf_text.specs.Names.{IsDottedName, IsLanguageTag};
ghost use Rattle.rdf_text.specs.scanning.Names.{dotted_end, after_dotted_name, after_subtag, after_language_tag};
ghost use Rattle.rdf_text.specs.Marks.{hyphen};
ghost use Rattle.rdf_text.specs.Text.{FollowsLongest, BeginsWithNone};
ghost use Rattle.rdf_text.specs.scanning.Repetition.{after_pieces};

use crate::text::{CharClass, after_char, after_some, split_char};

/// The text after the longest name that it begins with: `first ((inner | '.')* inner)?`. `None` where
/// it begins with none.
pub fn after_dotted_name<F: CharClass, I: CharClass>(text: &str, first: F, inner: I) -> Option<&str>
    ensures longest { IfSome result (λ rest.
        FollowsLongest (IsDottedName F.members I.members) (chars text.now) (chars rest.now)) }
    ensures none { IfNone result (BeginsWithNone (IsDottedName F.members I.members) (chars text.now)) }
    ensures chars { option_map (λ rest. chars rest.now) result ≡ after_dotted_name F.members I.members (chars text.now) }
    ensures utf8 { IfSome result (λ rest. IsUtf8 rest.now) }
{
    read_dotted_name(text, first, inner)
}

#[tactic(auto, unfolding(crate::specs::scanning::Names::after_dotted_name))]
fn read_dotted_name<F: CharClass, I: CharClass>(text: &str, first: F, inner: I) -> Option<&str>
    ensures chars { option_map (λ rest. chars rest.now) result ≡ after_dotted_name F.members I.members (chars text.now) }
    ensures utf8 { IfSome result (λ rest. IsUtf8 rest.now) }
{
    match split_char(text) {
        Some((c, rest)) if first.has(c) => Some(dotted_end(rest, inner)),
        _ => None,
    }
}

/// The text after the last character that the name may end with.
#[tactic(auto, unfolding(crate::specs::scanning::Names::dotted_end))]
fn dotted_end<I: CharClass>(text: &str, inner: I) -> &str
    ensures { chars result.now ≡ dotted_end I.members (chars text.now) (chars text.now) }
{
    let mut end = text;
    let mut rest = text;
    while let Some((c, after)) = split_char(rest) {
        if inner.has(c) {
            end = after;
        } else if c != '.' {
            break;
        }
        rest = after;
    }
    end
}

/// The text after the longest language tag that it begins with: `letter+ ('-' alphanumeric+)*`.
/// `None` where it begins with none. The hyphen is a member of neither class.
pub fn after_language_tag<L: CharClass, A: CharClass>(
    text: &str,
    letter: L,
    alphanumeric: A,
) -> Option<&str>
    requires letter { L.members hyphen ≡ false }
    requires alphanumeric { A.members hyphen ≡ false }
    ensures longest { IfSome result (λ rest.
        FollowsLongest (IsLanguageTag L.members A.members) (chars text.now) (chars rest.now)) }
    ensures none { IfNone result (BeginsWithNone (IsLanguageTag L.members A.members) (chars text.now)) }
    ensures chars { option_map (λ rest. chars rest.now) result ≡ after_language_tag L.members A.members (chars text.now) }
    ensures utf8 { IfSome result (λ rest. IsUtf8 rest.now) }
{
    read_language_tag(text, letter, alphanumeric)
}

#[tactic(auto, unfolding(crate::specs::scanning::Names::after_language_tag))]
fn read_language_tag<L: CharClass, A: CharClass>(
    text: &str,
    letter: L,
    alphanumeric: A,
) -> Option<&str>
    ensures chars { option_map (λ rest. chars rest.now) result ≡ after_language_tag L.members A.members (chars text.now) }
    ensures utf8 { IfSome result (λ rest. IsUtf8 rest.now) }
{
    let rest = after_some(text, letter)?;
    Some(after_subtags(rest, alphanumeric))
}

#[tactic(auto, using(crate::proofs::LanguageTags::subtags))]
fn after_subtags<A: CharClass>(text: &str, alphanumeric: A) -> &str
    ensures { chars result.now ≡ after_pieces (after_subtag A.members) (chars text.now) }
{
    let mut rest = text;
    while let Some(after) = after_subtag(rest, alphanumeric) {
        rest = after;
    }
    rest
}

#[tactic(auto, unfolding(crate::specs::scanning::Names::after_subtag))]
fn after_subtag<A: CharClass>(text: &str, alphanumeric: A) -> Option<&str>
    ensures chars { option_map (λ rest. chars rest.now) result ≡ after_subtag A.members (chars text.now) }
    ensures utf8 { IfSome result (λ rest. IsUtf8 rest.now) }
{
    after_some(after_char(text, '-')?, alphanumeric)
}
