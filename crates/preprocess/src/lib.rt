//! What a value becomes on its way through the preprocessing steps of its item, and of the items that depend on it (the
//! Zabbix 6.0 manual, "Item value preprocessing" and "Dependent items").
//!
//! The public contract: [`run`] leaves in the cells, and tells, exactly what the definition finds by a search up the
//! masters of each item, over what the steps remembered before; where memory is wanting nothing changes.
//!
//! An item's chain takes its steps in order. A step's value goes on, or it is discarded, or the step fails, and then
//! its `on_fail` decides:
//!
//! ```text
//! empty      a Failure record with the text `step K: ` and the step's own, K counted from 1
//! discard    the value is dropped without an error
//! value      the chain goes on behind the step with the text that it sets
//! error      a Failure record with the text that it sets
//! ```
//!
//! At the end a number item reads the value as a number; where it is none, it fails with `value: not a number`. What an
//! item stores goes to its enabled dependents in the order of items, each with its own before the next one, with the
//! same time: of a number its written form. A value that is discarded or fails gives them nothing. Each step of an item
//! keeps its own memory, so that no visit changes what another one finds.
//!
//! A text is read as JSON once a chain, as long as it stays the same text. A path is read, and the place of a pattern
//! found, once, at the opening. A caller of many values builds [`Chains`] once, and takes each value in two calls, of
//! which the second takes no memory. The first puts what is to be stored into the cache, and the second its tokens into
//! the cells:
//!
//! ```text
//! let chains = Chains::build(alloc, &conf, &patterns)?;
//! let mut cells = Cells::new(alloc, &conf)?;
//! let made = prepare(alloc, &conf, &patterns, &chains, &cache, &mut cells, item, &value, time, number)?;
//! commit(&mut cells, made.draft, now);            // made.failures: records
//! ```
//!
//! Over a configuration that follows another one the cells go on by [`Cells::carry`]: an item that has the names and the
//! value type of an old one goes on with what that one's cell is to keep, and its steps with what the old ones remember,
//! up to the first that differs.
#![tactic(auto)]

mod cached;
mod carrying;
mod cells;
mod chain;
mod chains;
mod draft;
mod ended;
mod exchange;
mod json;
pub mod laws;
mod memories;
mod naming;
mod putting;
mod running;
mod step;
mod visit;
mod ways;

pub use cells::Cells;
pub use chain::{Chained, run_chain};
pub use chains::Chains;
pub use draft::{Draft, Prepared, commit, prepare};
pub use ended::Ended;
pub use exchange::exchange_at;
pub use running::run;
pub use visit::{ItemOutcome, Visit};
pub use ways::{Way, ways_of};
