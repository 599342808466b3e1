//! Escalations: what the actions of the configuration do about a problem, from its opening to its recovery.
//!
//! The one contract: each call gives exactly the records that the definitions say (`specs/Escalations.antt`) of the
//! configuration, the problem, the steps that ran for it and the moment.
//!
//! An action matches a problem where its conditions hold of the problem, all (`and`) or at least one (`or`); one without
//! conditions matches each (`specs/Conditions.antt`). Its escalation is steps with numbers from 1 (`specs/Steps.antt`):
//!
//! ```text
//! exists      up to the greatest `to` of its operations, without end where some `to` is 0
//! lasts       as long as the shortest operation that the step belongs to; 0 there means what the action says
//! is due      step 1 at once, another one where the step before it ran as long ago as it lasts
//! pauses      while the problem's trigger is suppressed, where the action says so
//! ```
//!
//! A step that runs makes a Step record, and behind it one Message record for each operation and recipient, in file
//! order (`specs/Messages.antt`). At most one step of an action runs at a time. When the problem closes, each action that
//! ran a step for it sends its recovery operations, suppressed or not.
//!
//! That the last step of each action is enough of those that ran is the law in `laws`.
//!
//! Each call takes time linear in actions times conditions, operations and steps that ran, and memory for its answer.
//!
//! ```text
//! let made = first(alloc, &conf, &problem, now)?;                 // as it opens
//! let made = due(alloc, &conf, &problem, steps_run, now)?;        // each half minute while it is open
//! let made = recovered(alloc, &conf, &problem, steps_run, now)?;  // as it closes
//! ```
#![tactic(auto)]

mod conditions;
pub mod laws;
mod messages;
mod running;
mod steps;
mod triggers;

pub use running::{due, due_of, first, first_of, recovered};
