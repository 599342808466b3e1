//! Why nothing was read.

ghost use Rattle.std.specs.Prelude.{◌≡◌};
ghost use Rattle.json_form.specs.declared.fault.ReadError.TheVariants.{OutOfMemory};

use std::alloc::{AllocError, AllocFailed};
use std::convert::AsStr;
use thiserror::Error;
use zbx_types::{Cause, OutOfMemory, Text};

/// Why a document was not read.
#[derive(Debug, Drop, Error)]
pub enum ReadError {
    /// The document's first fault (this project's own).
    #[error("the document is refused at `{path}`", path = path.as_str())]
    Refused {
        /// The JSON pointer (RFC 6901) of the place at fault; where a member is missing, the place where it would
        /// stand. It is empty for the whole document.
        path: Text,
        /// What is wrong there.
        cause: Cause,
    },
    /// No memory was to be had.
    #[error("out of memory")]
    OutOfMemory,
}

impl From<AllocError> for ReadError {
    ghost from_gives = { λ _ e. e ≡ OutOfMemory };

    fn from(_refused: AllocError) -> ReadError {
        ReadError::OutOfMemory
    }
}

impl<T: Drop> From<AllocFailed<T>> for ReadError {
    ghost from_gives = { λ _ e. e ≡ OutOfMemory };

    fn from(_refused: AllocFailed<T>) -> ReadError {
        ReadError::OutOfMemory
    }
}

impl From<OutOfMemory> for ReadError {
    ghost from_gives = { λ _ e. e ≡ OutOfMemory };

    fn from(_refused: OutOfMemory) -> ReadError {
        ReadError::OutOfMemory
    }
}
