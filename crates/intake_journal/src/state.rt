//! The states of a journal, and why its calls stop.

use thiserror::Error;
use zbx_types::OutOfMemory;

/// Where a journal stands in its life.
#[derive(Clone, Copy, Debug, PartialEq, Eq)]
pub enum State {
    /// Its groups are being read.
    Reading,
    /// All its groups were read, and groups may be added.
    Ready,
    /// Its disk failed. It does nothing more.
    Broken,
}

/// Why a journal wasn't opened or read.
#[derive(Clone, Copy, Debug, PartialEq, Eq, Error)]
pub enum JournalError {
    /// The file has more than 9 bytes and doesn't begin as a journal.
    #[error("the file is no journal")]
    NotOurs,
    /// The file begins as a journal with a base, which isn't complete: making it was cut off.
    #[error("the journal was not made to its end")]
    Unfinished,
    /// An open gate is followed by no group, or that of the base by no base.
    #[error("the journal is damaged at byte {at}")]
    Damaged {
        /// The gate's place, counted in bytes from the file's beginning.
        at: u64,
    },
    /// The disk failed, in this call or in an earlier one of this journal.
    #[error("the journal's disk failed")]
    DiskFault,
    /// No memory was to be had.
    #[error("out of memory")]
    OutOfMemory,
}

impl From<OutOfMemory> for JournalError {
    ghost use Rattle.std.specs.Prelude.{◌≡◌};
    ghost use Rattle.intake_journal.specs.declared.state.JournalError.TheVariants as error;

    ghost from_gives = { λ _ e. e ≡ error.OutOfMemory };

    fn from(_refused: OutOfMemory) -> JournalError {
        JournalError::OutOfMemory
    }
}

/// Why groups weren't added.
#[derive(Clone, Copy, Debug, PartialEq, Eq, Error)]
pub enum AppendError {
    /// With the groups the journal would pass a limit.
    #[error("the journal is full")]
    Full {
        /// How many entries it would have.
        entries: u64,
        /// How many bytes it would have, up to and with the gate behind the last of them, or 2^64 - 1 where it is more.
        bytes: u64,
    },
    /// The disk failed, in this call or in an earlier one of this journal.
    #[error("the journal's disk failed")]
    DiskFault,
    /// No memory was to be had.
    #[error("out of memory")]
    OutOfMemory,
}

impl From<OutOfMemory> for AppendError {
    ghost use Rattle.std.specs.Prelude.{◌≡◌};
    ghost use Rattle.intake_journal.specs.declared.state.AppendError.TheVariants as error;

    ghost from_gives = { λ _ e. e ≡ error.OutOfMemory };

    fn from(_refused: OutOfMemory) -> AppendError {
        AppendError::OutOfMemory
    }
}
