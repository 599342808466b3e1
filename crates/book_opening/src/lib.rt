//! With what a book begins: the entries that a journal kept are replayed by one thread, their lines made, and the outbox
//! compared with them.
//!
//! [`begin`] replays them, one after another by `step` of `entry_step`, and a Config by `carry`: from nothing on, or behind a
//! base, the state that stands in a journal in place of the entries up to its number. Behind an empty base the first entry
//! is a Config that carries nothing over; any other base brings the first configuration itself, and the cells with which it
//! begins. What it answers stands for the search of the whole log behind the base: the configuration in force, the cells, and
//! the counts of all records; and beside them the first place at which the outbox holds another byte than the lines of these
//! records, and those of their bytes that it lacks where it is cut there (`specs/Opening.antt`). The outbox is only read.
//!
//! The lines of the entries that a base stands for aren't known: in the outbox they are its first bytes, as many as the base
//! tells, whatever they are. All lines that are made stand behind them, at places counted from the outbox's beginning.
//!
//! [`mend`] then cuts the outbox where it holds a 0 in place of the lines' byte, as a power cut may leave it, and refuses one
//! that lacks some of those first bytes, is ahead of the lines or holds other ones. Behind it the outbox has a front of the
//! lines (`specs/Outgoing.antt`).
//!
//! [`replay_kept`] replays kept entries without an outbox, for a call that writes no line.
//!
//! A function with a parameter `S: StartName` is proved for every name. Its caller passes `Brand`, and picks the name in its
//! own `Invariants.antt`, from what the run begins with.
//!
//! [`write_out`], [`write_all`], [`add_lines`], [`behind`] and [`Tally`] take lines of records to a sink and count them,
//! in an opening and behind it.
//!
//! ```text
//! let replayed = begin::<S, O>(alloc, base, epochs, &kept, &mut outbox)?;
//! mend(&mut outbox, base.lines, replayed.tally.bytes, replayed.other)?;
//! ```
#![tactic(auto)]

mod errors;
mod kept;
mod names;
mod opening;
mod outgoing;
mod present;
mod tally;
mod writing;

pub use errors::BookError;
pub use kept::{Reached, replay_kept};
pub use names::StartName;
pub use opening::{Replayed, begin, mend};
pub use outgoing::{add_lines, behind, write_out};
pub use present::{Present, new_cache};
pub use tally::Tally;
pub use writing::write_all;
