//! The connections of a wire: which are there, and when the first frame of one is whole.
//!
//! A [`Table`] is told the events of a wire one after another, each with the moment of the run,
//! and answers what the event comes to: nothing ([`Turn::Nothing`]), a connection to be closed
//! ([`Turn::Shut`]), or the body of a connection's first frame with the moment at which the
//! connection opened ([`Turn::Whole`]).
//!
//! The contract: [`Table::on`] answers `turn_of` of the connections that are there and the event,
//! and leaves the connections of `after_event`; where memory is refused, nothing has changed.
//!
//! A connection is there from its `Opened` to its `Ended`, its `Broke`, its closing or its first
//! whole frame, since the reply ends it. What it brings while it is not there comes to nothing.
//! Its bytes are all its pieces since it opened, up to the end of its first frame; `Opened` for one
//! that is there begins it anew. At most 128 are there at once: one more is closed as it opens.
//! Bytes with which no frame begins close their connection, at the first byte that shows it. The
//! end after one reply, and the limit, are this project's own.
//!
//! ```text
//! let mut table = Table::new(alloc);
//! match table.on(alloc, &event, now)? {
//!     Turn::Nothing => ..,                    // wait for the next event
//!     Turn::Shut { conn } => ..,              // close it
//!     Turn::Whole { conn, body, since } => .. // answer it, then close it
//! }
//! ```
#![tactic(auto)]

mod peer;
mod table;
mod turn;

pub use table::Table;
pub use turn::Turn;
