//! What a queue is made of, and what it answers.

use zbx_types::Moment;

/// What the tries of a note came to.
#[derive(Clone, Copy, Debug, PartialEq, Eq)]
pub enum Mark {
    /// A try succeeded.
    Done,
    /// As many tries failed as its limit.
    Failed,
}

/// A note's mark.
#[derive(Clone, Copy, Debug, PartialEq, Eq)]
pub struct NoteMark {
    /// The note's number.
    pub note: u32,
    /// Its mark.
    pub mark: Mark,
}

/// What is to be done now.
#[derive(Clone, Copy, Debug, PartialEq, Eq)]
pub enum Taken {
    /// Try this note.
    Try {
        /// Its number.
        note: u32,
    },
    /// None is due. One will be at this moment.
    Later {
        /// The moment.
        at: Moment,
    },
    /// Each recipient with a note that has no mark has an open try.
    Busy,
    /// Every note has its mark.
    Nothing,
}

/// How a recipient's notes are tried.
#[derive(Clone, Copy, Debug, PartialEq, Eq)]
pub struct Kind {
    /// The most tries of a note, at least 1.
    pub limit: u32,
    /// How many seconds after a failed try the next may come.
    pub interval: u32,
}
