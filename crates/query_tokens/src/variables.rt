//! VAR1 and VAR2.
ghost use Rattle.std.specs.Prelude.{◌≡◌, IfSome};
ghost use Rattle.std.specs.Option.{option_map};
ghost use Rattle.std.specs.Str.{chars, IsUtf8};
ghost use Rattle.query_tokens.specs.scanning.Variables.{after_variable_name};

use crate::class_types::VariableInner;
use rdf_text::{after_run, is_sparql_label_first, split_char};

/// The text after a variable whose mark is already read.
#[tactic(auto, unfolding(crate::specs::scanning::Variables::after_variable_name))]
pub(crate) fn after_variable_name(text: &str) -> Option<&str>
    ensures chars { option_map (λ rest. chars rest.now) result ≡ after_variable_name (chars text.now) }
    ensures utf8 { IfSome result (λ rest. IsUtf8 rest.now) }
{
    match split_char(text)? {
        (c, rest) if is_sparql_label_first(c as u32) => Some(after_run(rest, VariableInner)),
        _ => None,
    }
}
