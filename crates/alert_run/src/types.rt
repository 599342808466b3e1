//! Notes, and why calls stop.

use std::alloc::AllocFailed;
use thiserror::Error;
use zbx_types::{OutOfMemory, Text};

/// A message to a recipient.
#[derive(Debug, Drop)]
pub struct Note {
    /// Whom it is for.
    pub recipient: Text,
    /// Its subject.
    pub subject: Text,
    /// Its body.
    pub body: Text,
}

/// Why there are no notes.
#[derive(Clone, Copy, Debug, PartialEq, Eq, Error)]
pub enum NotesError {
    /// A line begins as a message and is none.
    #[error("the line at byte {at} is no message")]
    BadLine {
        /// The place of its first byte, counted from 0.
        at: u64,
    },
    /// No memory was to be had.
    #[error("out of memory")]
    OutOfMemory,
}

impl From<OutOfMemory> for NotesError {
    ghost use Rattle.std.specs.Prelude.{◌≡◌};
    ghost use Rattle.alert_run.specs.declared.types.NotesError.TheVariants as error;

    ghost from_gives = { λ _ e. e ≡ error.OutOfMemory };

    fn from(_refused: OutOfMemory) -> NotesError {
        NotesError::OutOfMemory
    }
}

impl<T: Drop> From<AllocFailed<T>> for NotesError {
    ghost use Rattle.std.specs.Prelude.{◌≡◌};
    ghost use Rattle.alert_run.specs.declared.types.NotesError.TheVariants as error;

    ghost from_gives = { λ _ e. e ≡ error.OutOfMemory };

    fn from(_failed: AllocFailed<T>) -> NotesError {
        NotesError::OutOfMemory
    }
}
