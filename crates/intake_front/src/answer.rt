//! What an event is answered with, and why no front was made.

use thiserror::Error;
use zbx_types::{Bytes, Many, Numbered, OutOfMemory};

/// The bytes that a connection gets. It is closed behind them.
#[derive(Drop)]
pub struct Reply {
    /// The connection's number.
    pub conn: u64,
    /// The frame that it gets.
    pub bytes: Bytes,
}

/// Why no event is taken after this one.
#[derive(Clone, Copy, Debug, PartialEq, Eq)]
pub enum Stop {
    /// The wire was closed.
    Closed,
    /// The journal's disk failed.
    DiskFault,
    /// With one more group the journal would pass a limit.
    Full {
        /// How many entries it would have.
        entries: u64,
        /// How many bytes it would have, up to and with the gate behind its last group, or 2^64 - 1 where it is more.
        bytes: u64,
    },
}

/// What an event is answered with.
#[derive(Drop)]
pub struct Answer {
    /// The reply to the sender whose first frame is whole.
    pub reply: Option<Reply>,
    /// The connection that the event closes, also behind a reply.
    pub shut: Option<u64>,
    /// The entries that the event added to the journal, in the order of their numbers.
    pub added: Many<Numbered>,
    /// Why no event is taken after this one, where it is the last.
    pub stop: Option<Stop>,
}

/// Why no front was made.
#[derive(Clone, Copy, Debug, PartialEq, Eq, Error)]
pub enum FrontError {
    /// With the configuration the journal would pass a limit.
    #[error("the journal is full")]
    Full {
        /// How many entries it would have.
        entries: u64,
        /// How many bytes it would have, up to and with the gate behind its last group, or 2^64 - 1 where it is more.
        bytes: u64,
    },
    /// The journal's disk failed.
    #[error("the journal's disk failed")]
    DiskFault,
    /// No memory was to be had.
    #[error("out of memory")]
    OutOfMemory,
}

impl From<OutOfMemory> for FrontError {
    ghost use Rattle.std.specs.Prelude.{◌≡◌};
    ghost use Rattle.intake_front.specs.declared.answer.FrontError.TheVariants as error;

    ghost from_gives = { λ _ e. e ≡ error.OutOfMemory };

    fn from(_refused: OutOfMemory) -> FrontError {
        FrontError::OutOfMemory
    }
}

/// What comes back where no front was made.
#[derive(Drop)]
pub struct Unmade<D> {
    /// The journal's disk.
    pub disk: D,
    /// The entries that the journal kept.
    pub kept: Many<Numbered>,
    /// Why none was made.
    pub error: FrontError,
}
