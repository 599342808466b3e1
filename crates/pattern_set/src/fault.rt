//! Why patterns were not built.

ghost use Rattle.std.specs.Prelude.{◌≡◌};
ghost use Rattle.pattern_set.specs.declared.fault.BuildError.TheVariants.{OutOfMemory};

use std::alloc::{AllocError, AllocFailed};
use thiserror::Error;

/// Why patterns were not built. This project's own.
#[derive(Debug, Drop, Error)]
pub enum BuildError {
    /// A text is no pattern of the `regex` crate's grammar, or it nests more than 250 deep. Those before it are patterns.
    #[error("text {place} is no pattern")]
    Refused {
        /// The place of the first such text, counted from 1.
        place: u32,
    },
    /// A pattern that counts repetitions in braces is too large when it is built. Those before it are patterns.
    #[error("pattern {place} is too large")]
    TooLarge {
        /// Its place, counted from 1.
        place: u32,
    },
    /// No memory was to be had.
    #[error("out of memory")]
    OutOfMemory,
}

impl From<AllocError> for BuildError {
    ghost from_gives = { λ _ e. e ≡ OutOfMemory };

    fn from(_refused: AllocError) -> BuildError {
        BuildError::OutOfMemory
    }
}

impl<T: Drop> From<AllocFailed<T>> for BuildError {
    ghost from_gives = { λ _ e. e ≡ OutOfMemory };

    fn from(_refused: AllocFailed<T>) -> BuildError {
        BuildError::OutOfMemory
    }
}
