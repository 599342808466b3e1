//! One entry at a time: what an entry stores, which triggers it evaluates, and which problems begin and end.
//!
//! The configuration is a `Ready` of the crate `conf_index`, with its indexes, so what is done for a value takes no walk over
//! it. `Cells` keep what a run needs between entries: the values that a later window can see, what preprocessing steps
//! remember, the open problems of each trigger, the first Tick. `step` takes one numbered entry and answers the records that
//! it makes.
//!
//! The contract: whatever cells it is that the kept ones represent (`specs/Represents.antt`), `step` answers the
//! records of the entry over them, and leaves what represents the cells behind the entry (`specs/Cells.antt`). Over a
//! log that is held, these are the records that a search of the log and of its records finds. At `Err` all is as
//! before.
//!
//! A log has its newest entry first (`specs/Log.antt`), records stand in the order in which they were made. A value
//! goes through the preprocessing steps of its item, and what the item stores through the items that depend on it, as
//! the crate `preprocess` says; each failure makes a Failure record, and what is stored goes into the history of its
//! item by its time (`specs/History.antt`). Behind the failures, the enabled triggers with a call over an item that
//! stored a value are evaluated one after another, by depth and then by id (`specs/Evaluation.antt`,
//! `specs/Records.antt`): the verdict of the crate `trigger_state`, over the problems that
//! are open then, makes a problem or closes some. A Tick evaluates in the same way the enabled triggers with a
//! function that changes with time alone, as `nodata` and `time`, and then runs the steps that are due for the
//! problems that are open, in the order of making (`specs/Due.antt`). In a log of one configuration, behind its start, a
//! Config makes no records.
//!
//! A Config behind the first one is a function on cells (`specs/Carry.antt`), and `carry` takes it; any entry of a log whose
//! configuration changes gives over them what the searches find (`specs/Whole.antt`), and what such a log leaves is a start
//! for the entries that follow it (`specs/InForce.antt`). The crate `entry_laws` has the laws of order and those of whole logs
//! as clauses.
//!
//! The value of a call is that of `history_functions` over the window of the item's whole history; what is kept of
//! it, in the cells of `value_cache`, shows the same window. Operators are those of the crate `expr_eval`. A
//! problem's record has its name and tags with the latest values in them, and tells whether it is suppressed. Behind
//! it come the Recovery records of global correlation, whose rules are those of the crate `event_correlation`, over
//! all that is open as the problem is made: the old problems first, and the new one last. Where that stays open, step
//! 1 comes of each action that matches it and isn't paused. Behind each Recovery come its recovery messages. Where no
//! rule's reach holds a trigger, nothing is looked at for its problems.
//!
//! ```text
//! let ready = Ready::build(alloc, conf, cache)?;
//! let mut cells = Cells::new(alloc, ready.conf())?;
//! let mut steps = Steps::new(blank);
//! let made = step(alloc, &ready, &mut cells, &entry, &mut steps)?;
//! ```
#![tactic(auto)]

mod call_values;
mod calls;
mod carrying;
mod cells;
mod changes;
mod copying;
mod due;
mod exchange;
mod occasions;
mod opens;
mod parts;
mod records;
mod ruling;
mod same;
mod seen;
mod stepping;
mod steps;
mod touched;

pub use carrying::carry;
pub use cells::Cells;
pub use parts::{ItemRow, Part, TriggerRow, WorkedOut, work_out};
pub use stepping::step;
pub use steps::Steps;
