//! Why triples are not numbered.
ghost use Rattle.std.specs.Prelude.{◌≡◌, IfOk};
ghost use Rattle.term_numbers.specs.declared.fault.NumberFault.TheVariants.{Memory};

use std::alloc::{AllocError, AllocFailed};
use thiserror::Error;

/// Why triples are not numbered.
#[derive(Clone, Copy, PartialEq, Eq, Debug, Drop, Error)]
pub enum NumberFault {
    /// There are more distinct triples than the limit.
    #[error("too many triples")]
    TooManyTriples,
    /// Memory ran out. It also comes where there are more than 4,294,967,295 texts, for which no number is left.
    #[error("out of memory")]
    Memory,
}

impl From<AllocError> for NumberFault {
    ghost from_gives = { λ _ e. e ≡ Memory };

    fn from(_e: AllocError) -> NumberFault {
        NumberFault::Memory
    }
}

impl<T: Drop> From<AllocFailed<T>> for NumberFault {
    ghost from_gives = { λ _ e. e ≡ Memory };

    fn from(_e: AllocFailed<T>) -> NumberFault {
        NumberFault::Memory
    }
}

/// The number in four bytes. Where it has no room there, it is as if memory had run out.
pub(crate) fn number_from(n: usize) -> Result<u32, AllocError>
    ensures { IfOk result (λ number. number ≡ n) }
{
    match u32::try_from(n) {
        Ok(number) => Ok(number),
        Err(_) => Err(AllocError),
    }
}
