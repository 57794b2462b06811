//! Why a pattern is not answered, whatever the data.
ghost use Rattle.std.specs.Prelude.{◌≡◌, ◌↔◌, ◌≤◌, IsNone, Some};
ghost use Rattle.alg_model.specs.Limits.{max_variables, max_optionals};
ghost use Rattle.alg_model.specs.Pattern.{algebra_of, optional_parts, HasVarsBelow};
ghost use Rattle.well_designed.specs.Refusals.{IsRefused, IsAccepted};

use crate::{cross_place, test, three_places};
use alg_model::{Pattern, Var};

/// Why a pattern is refused.
#[derive(Clone, Copy, Debug, PartialEq, Eq)]
pub enum Refusal {
    /// It is not well designed: the first OPTIONAL that fails, and the least variable that offends there.
    NotWellDesigned { optional: u8, var: Var },
    /// A variable stands at each place of a triple pattern: the least number of such a one.
    ThreePlaces { pattern: u16 },
    /// A variable stands at a predicate place and at a node place: the least such variable.
    CrossPlace { var: Var },
}

/// Why a pattern is refused, if it is: the first cause that holds, in the order of the enum. It takes no
/// memory.
pub fn refusal_of(pattern: &Pattern) -> Option<Refusal>
    requires vars_below { HasVarsBelow max_variables (algebra_of pattern.now) }
    requires few_optional { optional_parts (algebra_of pattern.now) ≤ max_optionals }
    ensures accepted { IsNone result ↔ IsAccepted (algebra_of pattern.now) }
    ensures exactly { (refusal : Refusal) → (result ≡ Some refusal) ↔ IsRefused (algebra_of pattern.now) refusal }
{
    match test(pattern) {
        Err(fault) => Some(Refusal::NotWellDesigned {
            optional: fault.optional,
            var: fault.var,
        }),
        Ok(()) => match three_places(pattern) {
            Some(number) => Some(Refusal::ThreePlaces { pattern: number }),
            None => match cross_place(pattern) {
                Some(var) => Some(Refusal::CrossPlace { var }),
                None => None,
            },
        },
    }
}
