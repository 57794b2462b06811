//! Walking a text from its front.
ghost use Rattle.std.specs.Prelude.{◌≡◌, ◌==◌, ℕ, Bool, IfSome, length};
ghost use Rattle.std.specs.Option.{option_map};
ghost use Rattle.std.specs.Str.{chars, IsUtf8};
ghost use Rattle.rdf_text.specs.scanning.Text.{uncons, after_char, after_run, after_some, before};
ghost use Rattle.rdf_text.specs.Text.{HasRest};

/// The first character, and the text after it. `None` where the text is empty.
pub fn split_char(text: &str) -> Option<(char, &str)>
    ensures chars { option_map (λ p. (p.0, chars p.1.now)) result ≡ uncons (chars text.now) }
    ensures utf8 { IfSome result (λ p. IsUtf8 p.1.now) }
{
    let mut rest = text.chars();
    let c = rest.next()?;
    Some((c, rest.as_str()))
}

/// The text after this character. `None` where the text does not begin with it.
pub fn after_char(text: &str, expected: char) -> Option<&str>
    ensures chars { option_map (λ rest. chars rest.now) result ≡ after_char expected (chars text.now) }
    ensures utf8 { IfSome result (λ rest. IsUtf8 rest.now) }
{
    match split_char(text) {
        Some((c, rest)) if c == expected => Some(rest),
        _ => None,
    }
}

/// The text before a rest of it: the text ends with the rest.
pub fn before<'a>(text: &'a str, rest: &str) -> &'a str
    requires { HasRest (chars text.now) (chars rest.now) }
    ensures { chars result.now ≡ before (chars text.now) (chars rest.now) }
{
    let (front, _) = text.split_at(text.len() - rest.len());
    front
}

/// A class of characters.
pub trait CharClass: Copy {
    /// Whether each character is a member.
    ghost members: { ℕ → Bool };

    /// Whether the character is a member.
    fn has(self, c: char) -> bool
        ensures { result ≡ members c };
}

/// The text after the longest run of members that it begins with.
#[tactic(auto, unfolding(crate::specs::scanning::Text::after_run))]
pub fn after_run<C: CharClass>(text: &str, class: C) -> &str
    ensures { chars result.now ≡ after_run C.members (chars text.now) }
{
    let mut rest = text;
    while let Some((c, after)) = split_char(rest) {
        if !class.has(c) {
            break;
        }
        rest = after;
    }
    rest
}

/// The text after the longest run of members that it begins with. `None` where it begins with none.
pub fn after_some<C: CharClass>(text: &str, class: C) -> Option<&str>
    ensures chars { option_map (λ rest. chars rest.now) result ≡ after_some C.members (chars text.now) }
    ensures utf8 { IfSome result (λ rest. IsUtf8 rest.now) }
{
    match split_char(text) {
        Some((c, rest)) if class.has(c) => Some(after_run(rest, class)),
        _ => None,
    }
}

/// Whether nothing is left of a text.
pub fn is_at_end(text: &str) -> bool
    ensures { result ≡ (length (chars text.now) == 0) }
{
    text.is_empty()
}
