//! Why a command has no answer, once its files have been read.

use crate::refusal::QueryRefusal;
use index_image::ImageFault;
use sparql_parse::QueryFault;
use std::alloc::AllocError;
use term_numbers::NumberFault;

/// Why there is no answer.
#[derive(Debug, Drop)]
pub(crate) enum Undecided {
    BadLine { line: u64 },
    TooManyTriples,
    ImageTooLong,
    Query { refusal: QueryRefusal },
    Memory,
}

impl From<NumberFault> for Undecided {
    ghost use Rattle.std.specs.Prelude.{◌≡◌};
    ghost use Rattle.bm_top.specs.steps.Undecided.{from_numbers};

    ghost from_gives = { λ fault undecided. undecided ≡ from_numbers fault };

    fn from(fault: NumberFault) -> Self {
        match fault {
            NumberFault::TooManyTriples => Undecided::TooManyTriples,
            NumberFault::Memory => Undecided::Memory,
        }
    }
}

impl From<ImageFault> for Undecided {
    ghost use Rattle.std.specs.Prelude.{◌≡◌};
    ghost use Rattle.bm_top.specs.steps.Undecided.{from_image};

    ghost from_gives = { λ fault undecided. undecided ≡ from_image fault };

    fn from(fault: ImageFault) -> Self {
        match fault {
            ImageFault::TooLong => Undecided::ImageTooLong,
            ImageFault::Memory => Undecided::Memory,
        }
    }
}

impl From<QueryFault> for Undecided {
    ghost use Rattle.std.specs.Prelude.{◌≡◌};
    ghost use Rattle.bm_top.specs.steps.Undecided.{from_query};

    ghost from_gives = { λ fault undecided. undecided ≡ from_query fault };

    fn from(fault: QueryFault) -> Self {
        match fault {
            QueryFault::Memory => Undecided::Memory,
            fault => Undecided::Query {
                refusal: QueryRefusal::Fault { fault },
            },
        }
    }
}

impl From<AllocError> for Undecided {
    ghost use Rattle.std.specs.Prelude.{◌≡◌};
    ghost use Rattle.bm_top.specs.declared.undecided.Undecided.TheVariants.{Memory};

    ghost from_gives = { λ _ undecided. undecided ≡ Memory };

    fn from(_: AllocError) -> Self {
        Undecided::Memory
    }
}
