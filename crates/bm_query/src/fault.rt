//! Why a query is not answered.

use alg_model::Var;
use std::alloc::AllocError;
use well_designed::Refusal;

/// Why a query is not answered.
#[derive(Clone, Copy, Debug, PartialEq, Eq)]
pub enum AnswerFault {
    /// Its pattern is not well designed: the first OPTIONAL that fails, and the least variable that offends there.
    NotWellDesigned { optional: u8, var: Var },
    /// A variable stands at each place of a triple pattern: the least number of such a one.
    ThreePlaces { pattern: u16 },
    /// A variable stands at a predicate place and at a node place: the least such variable.
    CrossPlace { var: Var },
    /// Memory ran out.
    Memory,
}

impl From<Refusal> for AnswerFault {
    ghost use Rattle.std.specs.Prelude.{◌≡◌};
    ghost use Rattle.bm_query.specs.Faults.{fault_of};

    ghost from_gives = { λ refusal fault. fault ≡ fault_of refusal };

    fn from(refusal: Refusal) -> Self {
        match refusal {
            Refusal::NotWellDesigned { optional, var } => {
                AnswerFault::NotWellDesigned { optional, var }
            }
            Refusal::ThreePlaces { pattern } => AnswerFault::ThreePlaces { pattern },
            Refusal::CrossPlace { var } => AnswerFault::CrossPlace { var },
        }
    }
}

impl From<AllocError> for AnswerFault {
    ghost use Rattle.std.specs.Prelude.{◌≡◌};
    ghost use Rattle.bm_query.specs.declared.fault.AnswerFault.TheVariants.{Memory};

    ghost from_gives = { λ _ fault. fault ≡ Memory };

    fn from(_: AllocError) -> Self {
        AnswerFault::Memory
    }
}
