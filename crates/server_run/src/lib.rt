//! The run of the server, on one thread or beside history syncers, from its words to its printed line.
//!
//! [`run_single`] reads the configuration, takes the events of a wire in their order, journals what it takes, answers
//! each sender, evaluates the triggers and writes a line for each record. [`run_syncers`] does the same while threads
//! of their own evaluate the triggers. Events that stand ready one behind another, up to 128, are journaled by one
//! append, and answered behind it in their order. Where the journal begins with a base, the state that stands in place
//! of earlier entries, the run goes on behind it as behind these. Everything outside, the configuration's source, the
//! wire, the journal's disk, the outbox and the printer, is handed in, so the same code runs over files and sockets and
//! over memory, and its contract speaks of whatever was handed in.
//!
//! The one contract, in a sentence: the replies and entries are those that the definition of what events make gives
//! for the events taken, behind those that the journal kept; a stop at any moment leaves the entries behind some of
//! the events; the outbox has the lines of one thread replaying the entries, none missing and none twice; and a run
//! ends early only for the cause that its status names. It is `IsRun`, field by field, in `specs/Ran.antt`. That no
//! answered value is lost is a clause of each commit, which hands an answer out only once each crash leaves its
//! entries.
//!
//! A run goes through its opening, in which each refusal ends it (what concerns the journal is in the crate
//! `journal_opening`, what concerns the outbox in `book_opening`): the words; reading the configuration; flattening it;
//! its patterns; opening the journal and reading its base, if it has one, and its groups; flattening the text of each
//! configuration that is among them, which must be accepted, and judging the base and the entries, each of which must
//! fit the configuration in force where it stands; the patterns of these configurations; journaling that of the run
//! where there is none, or the last one has another text; replaying the entries; and comparing the outbox. Then, begun,
//! it writes the lines that the outbox lacks and takes the events, up to one that closes the wire. Last it prints one
//! line.
//!
//! ```text
//! let ended = run_single(alloc, words.as_slice(), &mut source, &mut wire, disk, outbox, &mut printer);
//! std::process::exit(ended.status.exit())
//! ```
#![tactic(auto)]

mod course;
mod crew;
mod delivery;
mod handing;
mod opening;
mod reading;
mod run;
mod serving;
mod shared;
mod syncing;
mod taking;

pub use run::{Ended, run_single, run_syncers};
