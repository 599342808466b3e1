//! Why a configuration wasn't made ready.

ghost use Rattle.std.specs.Prelude.{◌≡◌};
ghost use Rattle.conf_index.specs.declared.fault.BuildError.TheVariants as none;

use thiserror::Error;
use zbx_types::OutOfMemory;

/// Why a configuration wasn't made ready (this project's own).
#[derive(Debug, Drop, Error)]
pub enum BuildError {
    /// A pattern is none of the `regex` crate's grammar, or it nests more than 250 deep. Those before it are patterns.
    #[error("pattern {place} is none")]
    Refused {
        /// The place of the first such pattern, counted from 1.
        place: u32,
    },
    /// A pattern that counts repetitions in braces is too large when it is built. Those before it are patterns.
    #[error("pattern {place} is too large")]
    TooLarge {
        /// Its place, counted from 1.
        place: u32,
    },
    /// No memory was to be had.
    #[error("out of memory")]
    OutOfMemory,
}

impl From<OutOfMemory> for BuildError {
    ghost from_gives = { λ _ e. e ≡ none.OutOfMemory };

    fn from(_refused: OutOfMemory) -> BuildError {
        BuildError::OutOfMemory
    }
}
