//! Why calls stop.

use thiserror::Error;
use zbx_types::OutOfMemory;

/// Why marks weren't read.
#[derive(Clone, Copy, Debug, PartialEq, Eq, Error)]
pub enum MarksError {
    /// The file has more than 9 bytes and doesn't begin as one of marks.
    #[error("the file is none of marks")]
    NotOurs,
    /// An open gate is followed by no group with a gate, or by the number 0, or by that of a note that has a mark already.
    #[error("the marks are damaged at byte {at}")]
    Damaged {
        /// The gate's place, counted in bytes from the file's beginning.
        at: u64,
    },
    /// The disk failed.
    #[error("the disk of the marks failed")]
    DiskFault,
    /// No memory was to be had.
    #[error("out of memory")]
    OutOfMemory,
}

impl From<OutOfMemory> for MarksError {
    ghost use Rattle.std.specs.Prelude.{◌≡◌};
    ghost use Rattle.alert_marks.specs.declared.types.MarksError.TheVariants as error;

    ghost from_gives = { λ _ e. e ≡ error.OutOfMemory };

    fn from(_refused: OutOfMemory) -> MarksError {
        MarksError::OutOfMemory
    }
}

/// Why a mark wasn't added.
#[derive(Clone, Copy, Debug, PartialEq, Eq, Error)]
pub enum AddError {
    /// The disk failed, in this call or in an earlier one of these marks.
    #[error("the disk of the marks failed")]
    DiskFault,
    /// No memory was to be had.
    #[error("out of memory")]
    OutOfMemory,
}
