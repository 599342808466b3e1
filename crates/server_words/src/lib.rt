//! The words of the command line, the statuses of a run, and the line that it prints.
//!
//! A run begins with a list of words and ends with a status. [`plan`] turns the words into a [`Plan`] or answers Usage:
//! the words are those of one command of `clap`, with options in any order, and a mode needs some of them. [`printed`]
//! gives the line that a run prints last, and [`Status::exit`] the number with which the program exits.
//!
//! The one contract: `plan` gives the plan of the words, exactly; `printed` gives the status's line over the counts.
//! What `clap` takes is taken: a lone `--` behind the options, a plus sign and leading zeros of a number, and the empty
//! text of `--config=`.
//!
//! ```text
//! let plan = plan(alloc, words)?;         // Plan { mode: Feed, config: Some(C), script: Some(S), outbox: "-", .. }
//! let line = printed(alloc, &status, &counts)?;   // "status: Ok; entries: 3; problems: 1; .."
//! ```
#![tactic(auto)]

mod command;
mod planning;
mod printing;
mod status;
mod words;

pub use planning::{alerts_plan, checkpoint_plan, plan};
pub use printing::{printed, printed_alerts, printed_copy};
pub use status::{Counts, Status};
pub use words::{Mode, Plan, PlanError};
