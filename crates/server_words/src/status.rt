//! How a run ended.

ghost use Rattle.std.specs.Prelude.{◌≡◌};
ghost use Rattle.server_words.specs.Printed.{exit_of};

use zbx_types::{Cause, Text};

/// How a run ended (this project's own).
#[derive(PartialEq, Eq, Drop)]
pub enum Status {
    /// The wire was read to its end.
    Ok,
    /// The words aren't those of the command.
    Usage,
    /// The configuration couldn't be read.
    SourceFault,
    /// The configuration is refused for its first fault.
    ConfigRefused {
        /// A JSON pointer (RFC 6901) to the member at fault.
        path: Text,
        /// What is wrong there.
        cause: Cause,
    },
    /// A pattern of the configuration isn't read by the grammar of `regex`, or nests more deeply than `regex` allows.
    PatternRefused {
        /// A JSON pointer (RFC 6901) to the pattern's text.
        path: Text,
    },
    /// A pattern of the configuration is too large for `regex`.
    PatternTooLarge {
        /// A JSON pointer (RFC 6901) to the pattern's text.
        path: Text,
    },
    /// The journal's file is no journal.
    NotOurs,
    /// The journal's file is a copy that was never finished.
    Unfinished,
    /// The journal is damaged, or its entries don't fit the configurations that it holds.
    Damaged {
        /// The place in the journal's bytes, counted from 0.
        at: u64,
    },
    /// The outbox holds more bytes than the lines of the kept entries have.
    OutboxAhead {
        /// How many bytes the outbox holds.
        held: u64,
        /// How many bytes the lines have.
        lines: u64,
    },
    /// The outbox holds fewer bytes than stood in it when the state was copied with which the journal begins.
    OutboxBehind {
        /// How many bytes the outbox holds.
        held: u64,
        /// How many bytes of lines belong to that state.
        base: u64,
    },
    /// The outbox holds a byte that differs from the lines of the kept entries.
    OutboxDiffers {
        /// The place of the first one, counted from 0.
        at: u64,
    },
    /// The journal's disk failed, or that of its copy.
    DiskFault,
    /// The wire failed.
    WireFault,
    /// The outbox failed.
    OutboxFault,
    /// The line about a run that ended well couldn't be printed.
    PrintFault,
    /// The next entries would have made the journal larger than is allowed, or a copy of it would have been.
    Full {
        /// How many entries it would have had; a copy has none.
        entries: u64,
        /// How many bytes it would have had.
        bytes: u64,
    },
    /// As many events were taken as the plan allows, and none closed the wire.
    TurnLimit,
    /// A line of the outbox begins as a message and is none.
    BadLine {
        /// The place of its first byte, counted from 0.
        at: u64,
    },
    /// There are more marks than messages.
    MarksAhead {
        /// How many marks there are.
        marks: u64,
        /// How many messages there are.
        messages: u64,
    },
    /// The outbox has more bytes than are read.
    LinesTooLong,
    /// The document of media isn't of its form.
    MediaRefused {
        /// A JSON pointer (RFC 6901) to the first member at fault; empty where the document isn't JSON or is too long.
        path: Text,
    },
    /// The file that a journal was to be copied into holds something.
    NotEmpty {
        /// How many bytes it holds.
        bytes: u64,
    },
    /// The journal that was to be copied holds no entry, and no state.
    NoEntries,
    /// No memory was to be had.
    OutOfMemory,
}

impl Status {
    /// The number with which the program exits. No status has 8.
    pub fn exit(&self) -> u8
        ensures { result ≡ exit_of self.now }
    {
        match self {
            Status::Ok => 0,
            Status::Usage => 2,
            Status::ConfigRefused { .. } => 3,
            Status::PatternRefused { .. } => 4,
            Status::SourceFault => 5,
            Status::NotOurs => 6,
            Status::Damaged { .. } => 7,
            Status::OutboxAhead { .. } => 9,
            Status::DiskFault => 10,
            Status::OutboxFault => 11,
            Status::PrintFault => 12,
            Status::WireFault => 13,
            Status::Full { .. } => 14,
            Status::TurnLimit => 15,
            Status::OutOfMemory => 16,
            Status::OutboxBehind { .. } => 18,
            Status::Unfinished => 19,
            Status::NotEmpty { .. } => 20,
            Status::NoEntries => 21,
            Status::BadLine { .. } => 22,
            Status::MarksAhead { .. } => 23,
            Status::LinesTooLong => 24,
            Status::MediaRefused { .. } => 25,
            Status::PatternTooLarge { .. } => 26,
            Status::OutboxDiffers { .. } => 27,
        }
    }
}

/// What a run counted. A count above 2^64 - 1 stands as 2^64 - 1.
#[derive(Clone, Copy, Debug, PartialEq, Eq)]
pub struct Counts {
    /// Numbered entries, the configuration among them.
    pub entries: u64,
    /// Problems that were made.
    pub problems: u64,
    /// Problems that were closed.
    pub recoveries: u64,
    /// Messages to recipients.
    pub messages: u64,
    /// Bytes of all lines.
    pub bytes: u64,
}
