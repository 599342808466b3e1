//! Why nothing was read.

ghost use Rattle.std.specs.Prelude.{◌≡◌};
ghost use Rattle.sender_json.specs.declared.failed.ElementError.TheVariants.{NotJson, OutOfMemory as NoMemory};

use json::Invalid;
use std::alloc::{AllocError, AllocFailed};
use thiserror::Error;
use zbx_types::OutOfMemory;

/// Why no element was read.
#[derive(Clone, Copy, Debug, Drop, PartialEq, Eq, Error)]
pub enum ElementError {
    /// What comes first is no JSON by the reading of `serde_json`, or nests too deep.
    #[error("no JSON")]
    NotJson,
    /// No memory was to be had.
    #[error("out of memory")]
    OutOfMemory,
}

impl From<Invalid> for ElementError {
    ghost from_gives = { λ _ e. e ≡ NotJson };

    fn from(_invalid: Invalid) -> ElementError {
        ElementError::NotJson
    }
}

impl From<AllocError> for ElementError {
    ghost from_gives = { λ _ e. e ≡ NoMemory };

    fn from(_refused: AllocError) -> ElementError {
        ElementError::OutOfMemory
    }
}

impl<T: Drop> From<AllocFailed<T>> for ElementError {
    ghost from_gives = { λ _ e. e ≡ NoMemory };

    fn from(_refused: AllocFailed<T>) -> ElementError {
        ElementError::OutOfMemory
    }
}

impl From<OutOfMemory> for ElementError {
    ghost from_gives = { λ _ e. e ≡ NoMemory };

    fn from(_refused: OutOfMemory) -> ElementError {
        ElementError::OutOfMemory
    }
}
