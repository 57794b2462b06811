//! White space and comments.
ghost use Rattle.std.specs.Prelude.{◌≡◌, IfSome};
ghost use Rattle.std.specs.Option.{option_map};
ghost use Rattle.std.specs.Str.{chars, IsUtf8};
ghost use Rattle.query_tokens.specs.Blanks.{is_white_space};
ghost use Rattle.query_tokens.specs.scanning.Blanks.{after_blank, after_blanks};

use rdf_text::{CommentChar, after_run, split_char};

/// The text after the white space and the comments that it begins with.
#[tactic(auto, using(crate::proofs::BlankRuns::blanks))]
pub(crate) fn after_blanks(text: &str) -> &str
    ensures { chars result.now ≡ after_blanks (chars text.now) }
{
    let mut rest = text;
    while let Some(after) = after_blank(rest) {
        rest = after;
    }
    rest
}

/// The text after one character of white space or one comment.
#[tactic(auto, unfolding(crate::specs::scanning::Blanks::after_blank))]
fn after_blank(text: &str) -> Option<&str>
    ensures chars { option_map (λ rest. chars rest.now) result ≡ after_blank (chars text.now) }
    ensures utf8 { IfSome result (λ rest. IsUtf8 rest.now) }
{
    match split_char(text)? {
        (c, rest) if is_white_space(c) => Some(rest),
        ('#', rest) => Some(after_run(rest, CommentChar)),
        _ => None,
    }
}

#[tactic(auto, unfolding(crate::specs::Blanks::is_white_space))]
fn is_white_space(c: char) -> bool
    ensures { result ≡ is_white_space c }
{
    matches!(c, ' ' | '\t' | '\n' | '\r')
}
