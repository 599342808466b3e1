//! What a run goes on with of its journal: the groups that it kept are read and judged, the configurations among them made
//! ready, and the intake begun behind them.
//!
//! [`resume`] opens the journal on a disk and reads its base and all its groups, of which one at a time is held. The base
//! must be empty, or one with which a run can begin; their entries are numbered behind it. The text of each Config among them
//! must be accepted, and each entry must fit the configuration in force where it stands; else the base, or the first group
//! with a text that is refused, or the first misfit where all are accepted, is told
//! (`specs/Opening.antt`, `specs/Recovered.antt`). Then each of the configurations is made ready, that of the run last, and
//! stands in place of the last kept one where that has the same text (`specs/Epochs.antt`). The configuration of the run is
//! journaled where the journal has none, or the last one has another text. What such a run has begun with, and why one is
//! turned away, is `HasBegun` and `TurnedAway` (`specs/Resumed.antt`): each reason names what the file or the text is, and
//! each says what a crash meanwhile leaves.
//!
//! [`read_kept`] reads and judges a journal in the same way for a call that adds nothing to it, and makes all its
//! configurations ready. Why it doesn't is `IsUnkept` (`specs/Unkept.antt`).
//!
//! What a text stands for is said here once (`flat` in `specs/Replayed.antt`), and so are the lines and the counts of a run's
//! entries, and the reason of each status that ends an opening (`specs/Reasons.antt`), also of those that come of the
//! outbox.
//!
//! ```text
//! let ready = ready_of(alloc, conf)?;
//! let (epochs, front) = resume(alloc, ready, disk, max_entries)?;
//! ```
#![tactic(auto)]

mod basing;
mod epochs;
mod keeping;
mod numbering;
mod recovering;
mod resuming;

pub use epochs::ready_of;
pub use keeping::{Kept, read_kept};
pub use resuming::{Refused, resume};
