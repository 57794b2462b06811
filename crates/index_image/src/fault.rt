//! Why no image is made.

ghost use Rattle.std.specs.Prelude.{◌≡◌};
ghost use Rattle.index_image.specs.declared.fault.ImageFault.TheVariants.{Memory};

use std::alloc::{AllocError, AllocFailed};
use thiserror::Error;

/// Why no image is made.
#[derive(Clone, Copy, PartialEq, Eq, Debug, Drop, Error)]
pub enum ImageFault {
    /// The image would have more than 4,294,967,295 bytes.
    #[error("the image is too long")]
    TooLong,
    /// Memory ran out.
    #[error("out of memory")]
    Memory,
}

impl From<AllocError> for ImageFault {
    ghost from_gives = { λ _ e. e ≡ Memory };

    fn from(_e: AllocError) -> ImageFault {
        ImageFault::Memory
    }
}

impl<T: Drop> From<AllocFailed<T>> for ImageFault {
    ghost from_gives = { λ _ e. e ≡ Memory };

    fn from(_e: AllocFailed<T>) -> ImageFault {
        ImageFault::Memory
    }
}
