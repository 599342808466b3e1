//! Why lines don't go out.

use outside::Failed;
use thiserror::Error;
use zbx_types::OutOfMemory;

/// Why not all lines were written.
#[derive(Clone, Copy, Debug, PartialEq, Eq, Error)]
pub enum FlushError {
    /// The outbox failed, and its count rose.
    #[error("the outbox failed")]
    OutboxFault,
    /// No memory was to be had.
    #[error("out of memory")]
    OutOfMemory,
}

impl From<Failed> for FlushError {
    ghost use Rattle.std.specs.Prelude.{◌≡◌};
    ghost use Rattle.book.specs.declared.errors.FlushError.TheVariants as flush;

    ghost from_gives = { λ _ e. e ≡ flush.OutboxFault };

    fn from(_failed: Failed) -> FlushError {
        FlushError::OutboxFault
    }
}

impl From<OutOfMemory> for FlushError {
    ghost use Rattle.std.specs.Prelude.{◌≡◌};
    ghost use Rattle.book.specs.declared.errors.FlushError.TheVariants as flush;

    ghost from_gives = { λ _ e. e ≡ flush.OutOfMemory };

    fn from(_refused: OutOfMemory) -> FlushError {
        FlushError::OutOfMemory
    }
}
