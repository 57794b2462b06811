//! The two walks of the test. What stands outside of an OPTIONAL stands before it or after it in the text. So
//! one walk goes on in the order of the text, with the variables that it has met, and one goes back. Each
//! does each part once.
ghost use Rattle.std.specs.Prelude.{◌≡◌, ◌+◌, ◌-◌, ◌≤◌, true, false};
ghost use Rattle.std.specs.Int.{w64, bit_not};
ghost use Rattle.std.specs.Int.Bits.{bit_and};
ghost use Rattle.alg_model.specs.Limits.{max_optionals};
ghost use Rattle.alg_model.specs.Pattern.{algebra_of, optional_parts};
ghost use Rattle.alg_model.specs.VarSet.{pattern_set, PatternFits};
ghost use Rattle.well_designed.specs.Walk.{own_fault, fault_beside, backward, comes_before, earlier};

use crate::NotWellDesigned;
use alg_model::{Pattern, Var};

/// What a walk over a part answers: the variables of the part, the number of OPTIONALs of the text at the
/// end of the part that the walk comes to last, and the first OPTIONAL of the part that fails.
#[derive(Clone, Copy, Debug)]
pub(crate) struct Walked {
    vars: u64,
    pub(crate) optionals: u8,
    pub(crate) fault: Option<NotWellDesigned>,
}

// In the order of the text: these variables and so many OPTIONALs stand before the part.
pub(crate) fn walk_on(pattern: &Pattern, met: u64, before: u8) -> Walked
    requires fits { PatternFits (algebra_of pattern.now) }
    requires few { before + optional_parts (algebra_of pattern.now) ≤ max_optionals }
    ensures vars { result.vars ≡ pattern_set (algebra_of pattern.now) }
    ensures optionals { result.optionals ≡ before + optional_parts (algebra_of pattern.now) }
    ensures fault { result.fault ≡ fault_beside false true met before (algebra_of pattern.now) }
{
    match pattern {
        Pattern::Bgp(list) => Walked {
            vars: list.vars(),
            optionals: before,
            fault: None,
        },
        Pattern::Join(left, right) => {
            let left = walk_on(left, met, before);
            let right = walk_on(right, met | left.vars, left.optionals);
            Walked {
                vars: left.vars | right.vars,
                optionals: right.optionals,
                fault: left.fault.or(right.fault),
            }
        }
        Pattern::LeftJoin(left, right) => {
            let left = walk_on(left, met, before);
            let number = left.optionals + 1;
            let right = walk_on(right, met | left.vars, number);
            let own = own_fault(number, offending(left.vars, right.vars, met));
            Walked {
                vars: left.vars | right.vars,
                optionals: right.optionals,
                fault: left.fault.or(own).or(right.fault),
            }
        }
    }
}

// Against the order of the text: these variables stand after the part, and so many OPTIONALs before its end.
pub(crate) fn walk_back(pattern: &Pattern, met: u64, end: u8) -> Walked
    requires fits { PatternFits (algebra_of pattern.now) }
    requires few { optional_parts (algebra_of pattern.now) ≤ end }
    ensures vars { result.vars ≡ pattern_set (algebra_of pattern.now) }
    ensures optionals { result.optionals ≡ end - optional_parts (algebra_of pattern.now) }
    ensures fault { result.fault ≡ backward met end (algebra_of pattern.now) }
{
    match pattern {
        Pattern::Bgp(list) => Walked {
            vars: list.vars(),
            optionals: end,
            fault: None,
        },
        Pattern::Join(left, right) => {
            let right = walk_back(right, met, end);
            let left = walk_back(left, met | right.vars, right.optionals);
            Walked {
                vars: left.vars | right.vars,
                optionals: left.optionals,
                fault: left.fault.or(right.fault),
            }
        }
        Pattern::LeftJoin(left, right) => {
            let right = walk_back(right, met, end);
            let number = right.optionals;
            let left = walk_back(left, met | right.vars, number - 1);
            let own = own_fault(number, offending(left.vars, right.vars, met));
            Walked {
                vars: left.vars | right.vars,
                optionals: left.optionals,
                fault: left.fault.or(own).or(right.fault),
            }
        }
    }
}

// The variables of the right side and of those that were met, without those of the left side.
fn offending(left: u64, right: u64, met: u64) -> u64
    ensures { result ≡ bit_and (bit_and right (bit_not w64 left)) met }
{
    right & !left & met
}

// The fault of the OPTIONAL with a number, where these variables offend there.
fn own_fault(number: u8, offending: u64) -> Option<NotWellDesigned>
    ensures { result ≡ own_fault number offending }
{
    if offending == 0 {
        None
    } else {
        Some(NotWellDesigned {
            optional: number,
            var: Var(offending.trailing_zeros() as u8),
        })
    }
}

// The first of two faults that may be there: of the first OPTIONAL, and then of the least variable.
pub(crate) fn earlier(
    fault: Option<NotWellDesigned>,
    other: Option<NotWellDesigned>,
) -> Option<NotWellDesigned>
    ensures { result ≡ earlier fault other }
{
    match (fault, other) {
        (Some(fault), Some(other)) => {
            if comes_before(other, fault) {
                Some(other)
            } else {
                Some(fault)
            }
        }
        (Some(fault), None) => Some(fault),
        (None, other) => other,
    }
}

fn comes_before(fault: NotWellDesigned, other: NotWellDesigned) -> bool
    ensures { result ≡ comes_before fault other }
{
    if fault.optional == other.optional {
        fault.var.0 < other.var.0
    } else {
        fault.optional < other.optional
    }
}
