//! The jobs beside the server's run: what an operator's services call between its runs.
//!
//! [`run_alerts`] reads an outbox and runs a script for each message in it, as a document of media says for its recipient,
//! and keeps on a disk what became of each. Everything outside, the sources of the outbox and of the media, the disk of
//! the progress, the spawner of the scripts, the clock and the printer, is handed in. [`run_sessions`] does so in as many
//! sessions as it is handed spawners and clocks, at the same time.
//!
//! The one contract, in a sentence: each recipient's notes that had no mark are tried in their order, each up to the first
//! run that succeeds or to as many as its medium allows, and get their marks then; at Ok each note has one; and a call is
//! refused, or ends early, only for the cause that its status names.
//!
//! ```text
//! let mut hand = Hand { spawner, clock };
//! let alerted = run_alerts(alloc, words.as_slice(), &mut lines, &mut media, disk, &mut hand, &mut printer);
//! std::process::exit(alerted.status.exit())
//! ```
#![tactic(auto)]

mod alerts;
mod ordering;
mod queueing;
mod reading;
mod recipients;
mod reporting;
mod sessions;
mod trying;
mod working;

pub use alert_sessions::Hand;
pub use alerts::{Alerted, run_alerts};
pub use sessions::run_sessions;
