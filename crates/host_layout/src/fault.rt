//! Why a document has no flat configuration.

ghost use Rattle.std.specs.Prelude.{◌≡◌};
ghost use Rattle.host_layout.specs.declared.fault.FlatError.TheVariants.{OutOfMemory};

use std::alloc::AllocFailed;
use thiserror::Error;
use zbx_types::{Cause, OutOfMemory, Text};

/// Why a document gave no flat configuration.
#[derive(Debug, Drop, Error)]
pub enum FlatError {
    /// The first fault of the document: a JSON pointer (RFC 6901) to the member at fault, as it is written in the
    /// document, and what is wrong there. This project's own.
    #[error("the configuration is refused")]
    Refused {
        /// The pointer. Of an inherited object it is that of the template's.
        path: Text,
        /// What is wrong.
        cause: Cause,
    },
    /// No memory was to be had.
    #[error("out of memory")]
    OutOfMemory,
}

impl From<OutOfMemory> for FlatError {
    ghost from_gives = { λ _ e. e ≡ OutOfMemory };

    fn from(_refused: OutOfMemory) -> FlatError {
        FlatError::OutOfMemory
    }
}

impl<T: Drop> From<AllocFailed<T>> for FlatError {
    ghost from_gives = { λ _ e. e ≡ OutOfMemory };

    fn from(_refused: AllocFailed<T>) -> FlatError {
        FlatError::OutOfMemory
    }
}
