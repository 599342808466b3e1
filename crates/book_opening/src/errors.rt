//! Why a book can't be opened.

use outside::Failed;
use thiserror::Error;
use zbx_types::OutOfMemory;

/// Why no book was made.
#[derive(Clone, Copy, Debug, PartialEq, Eq, Error)]
pub enum BookError {
    /// The outbox holds fewer bytes than the lines have that stand before those of the kept entries.
    #[error("the outbox is behind the base")]
    OutboxBehind {
        /// How many bytes the outbox holds.
        held: u64,
        /// How many bytes the base's lines have.
        base: u64,
    },
    /// The outbox holds more bytes than the base's lines and those of the kept entries have.
    #[error("the outbox is ahead")]
    OutboxAhead {
        /// How many bytes the outbox holds.
        held: u64,
        /// How many bytes all these lines have.
        lines: u64,
    },
    /// The outbox holds another byte than the lines of the kept entries, and it isn't 0.
    #[error("the outbox holds other lines")]
    OutboxDiffers {
        /// The place of the first such byte, counted from 0.
        at: u64,
    },
    /// The outbox failed, and its count rose.
    #[error("the outbox failed")]
    OutboxFault,
    /// No memory was to be had.
    #[error("out of memory")]
    OutOfMemory,
}

impl From<Failed> for BookError {
    ghost use Rattle.std.specs.Prelude.{◌≡◌};
    ghost use Rattle.book_opening.specs.declared.errors.BookError.TheVariants as book;

    ghost from_gives = { λ _ e. e ≡ book.OutboxFault };

    fn from(_failed: Failed) -> BookError {
        BookError::OutboxFault
    }
}

impl From<OutOfMemory> for BookError {
    ghost use Rattle.std.specs.Prelude.{◌≡◌};
    ghost use Rattle.book_opening.specs.declared.errors.BookError.TheVariants as book;

    ghost from_gives = { λ _ e. e ≡ book.OutOfMemory };

    fn from(_refused: OutOfMemory) -> BookError {
        BookError::OutOfMemory
    }
}
