//! Alerts: the messages of an outbox.
//!
//! [`messages`] reads the notes of an outbox's lines, or says where the first line is that begins as a message and is none.
//!
//! ```text
//! let notes = messages(alloc, bytes)?;                    // or BadLine { at }
//! ```
#![tactic(auto)]

mod fields;
mod notes;
mod types;

pub use notes::messages;
pub use types::{Note, NotesError};
