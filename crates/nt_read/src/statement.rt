//! The statement of a line.
ghost use Rattle.std.specs.Prelude.{◌≡◌, IfSome};
ghost use Rattle.std.specs.Option.{option_map};
ghost use Rattle.std.specs.Str.{chars};
ghost use Rattle.nt_read.specs.scanning.Found.{terms_found, AreFoundTexts};
ghost use Rattle.nt_read.specs.scanning.Line.{scan_statement};

use crate::found::FoundTriple;
use crate::places::{after_blanks, is_end, object, predicate, subject};
use rdf_text::after_char;

/// subject predicate object '.' comment?
#[tactic(auto, unfolding(crate::specs::scanning::Line::scan_statement))]
pub(crate) fn statement(text: &str) -> Option<FoundTriple<'_>>
    ensures chars { option_map terms_found result ≡ scan_statement (chars text.now) }
    ensures is { IfSome result AreFoundTexts }
{
    let (subject, rest) = subject(text)?;
    let (predicate, rest) = predicate(rest)?;
    let (object, rest) = object(rest)?;
    let rest = after_char(after_blanks(rest), '.')?;
    if !is_end(rest) {
        return None;
    }
    Some(FoundTriple {
        subject,
        predicate,
        object,
    })
}
