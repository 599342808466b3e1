//! Marks of notes, on a disk, whichever note each is of.
//!
//! [`Marks`] keeps on a disk what became of notes, each mark with its note: a crash at any moment of [`Marks::add`] leaves the
//! marks before it, or these with the new one; once it has answered Ok, each crash leaves them.
//!
//! The file is `ZTSALR01` and groups behind gates of one byte, as the journal has them. A group of one byte, `d` or `f`, marks
//! the next note in order, as sent or as failed. Behind a group of the byte `2` each group is the number of a note, four
//! bytes with the lowest first, and `d` or `f`. The first mark that is added brings that group where it isn't there.
//!
//! ```text
//! let mut marks = Marks::recover(alloc, disk)?;           // so many notes were done with before
//! marks.add(NoteMark { note, mark: Mark::Done })?;        // of a note without a mark; durable once it has answered Ok
//! let (disk, list) = marks.end();
//! ```
#![tactic(auto)]

mod marks;
mod opening;
mod reading;
mod seen;
mod types;

pub use marks::Marks;
pub use types::{AddError, MarksError};
