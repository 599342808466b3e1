//! The copy of a journal: a new file with the state that its entries leave, and no entries.
//!
//! [`run_checkpoint`] reads a journal of either version, replays its entries behind its base, and makes a journal of the
//! state that they leave (`intake_journal::make`). A server that is opened on the copy, with the outbox that the entries
//! have filled, goes on as if it had read them: [`laws::copy_goes_on`] says so, over `base_laws`. Both disks and the
//! printer are handed in, so the same code runs over files and over memory.
//!
//! The one contract, in a sentence: at Ok each crash leaves in the copy the base of the log that the journal keeps; a
//! call that ends otherwise names its cause; and at every moment the journal keeps what it kept. It is `IsCopy`, field by
//! field, in `specs/Copies.antt`.
//!
//! A call is refused for the first cause that there is, in this order: the words; what the journal's file is; that it keeps
//! nothing; a configuration in it that isn't accepted, an entry that doesn't fit, a pattern; bytes in the new file; a state
//! that is too large; a fault of the new file's disk. Until it has answered Ok the new file is not for opening: it may be
//! unfinished.
//!
//! ```text
//! let copied = run_checkpoint(alloc, words.as_slice(), from, into, &mut printer);
//! std::process::exit(copied.status.exit())
//! ```
#![tactic(auto)]

mod copying;
pub mod laws;
mod placing;
mod replaying;
mod reporting;

pub use copying::{Copied, run_checkpoint};
