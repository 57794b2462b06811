ghost use Rattle.std.specs.Prelude.{◌≡◌, ◌↔◌, ◌≤◌, IsOk, Err};
ghost use Rattle.alg_model.specs.Limits.{max_variables, max_optionals};
ghost use Rattle.alg_model.specs.Pattern.{algebra_of, optional_parts, HasVarsBelow};
ghost use Rattle.alg_model.specs.WellDesigned.{IsWellDesigned, IsOffender};

use crate::walk::{earlier, walk_back, walk_on};
use alg_model::{Pattern, Var};

/// A pattern is not well designed: `optional` is the number, from 1 in the order of the text, of the first
/// OPTIONAL that fails, and `var` is the least variable that offends there.
#[derive(Clone, Copy, Debug, PartialEq, Eq)]
pub struct NotWellDesigned {
    pub optional: u8,
    pub var: Var,
}

/// Whether a pattern is well designed. It takes no memory.
pub fn test(pattern: &Pattern) -> Result<(), NotWellDesigned>
    requires vars_below { HasVarsBelow max_variables (algebra_of pattern.now) }
    requires few_optional { optional_parts (algebra_of pattern.now) ≤ max_optionals }
    ensures well_designed { IsOk result ↔ IsWellDesigned (algebra_of pattern.now) }
    ensures offender { (fault : NotWellDesigned) → (result ≡ Err fault) ↔ IsOffender (algebra_of pattern.now) fault.optional fault.var.0 }
{
    let onward = walk_on(pattern, 0, 0);
    let backward = walk_back(pattern, 0, onward.optionals);
    match earlier(onward.fault, backward.fault) {
        Some(fault) => Err(fault),
        None => Ok(()),
    }
}
