//! The state of triggers: which problems are open, which triggers are held, and what a trigger does where it is
//! evaluated.
//!
//! The one contract: [`verdict`] is exactly the verdict on a trigger (`specs/Verdicts.antt`) over the open problems
//! that the cells hold, and after [`TriggerCells::absorb`] the cells hold exactly what the search over the records
//! with one more finds (`specs/Problems.antt`, [`laws`]).
//!
//! A trigger is in PROBLEM while a problem of it is open: a Problem record whose event no later Recovery names. An
//! open problem keeps its Problem record, the last Step record of each action, and the rank of its event, which is the
//! depth that its trigger had. Which trigger an event is of, [`InForce`] tells. A
//! trigger is held while one of its masters, through any number of dependencies, is in PROBLEM. With p for the value
//! of its problem expression and r for that of its recovery expression, the verdict is:
//!
//! ```text
//! held, or p unknown                    nothing
//! p true                                new where none is open, or at a value where the trigger has `multiple`
//! p 0, mode expression                  close
//! p 0, mode recovery_expression         close where r is true
//! p 0, mode none                        nothing
//! ```
//!
//! With a `close_tag` only those close that share a value of it with the trigger's tags as they are now.
//!
//! Where another configuration follows, [`TriggerCells::carry`] goes on with the open problems (`specs/Carry.antt`): each
//! with the trigger that has the names of its host and its trigger, if that has, in order, the names of its tags. The
//! others are gone, and are told in the order of making. Events keep their ids, so the trigger id in the event of such a
//! problem is no longer that of its trigger: [`carry_over`] tells the origins of those that go on, and with
//! [`InForce::follow`] the configuration finds their triggers by these.
//!
//! A short use:
//!
//! ```text
//! let stage = InForce::first(conf);
//! let mut cells = TriggerCells::new(alloc, stage.conf())?;
//! match verdict(alloc, stage.conf(), &cells, trigger, p, r, tags, is_value)? {
//!     Verdict::New => cells.absorb(alloc, &stage, &problem)?,
//!     Verdict::Close(events) => { .. }        // a Recovery record for each, absorbed in turn
//!     Verdict::Nothing => {}
//! }
//! ```
#![tactic(auto)]

mod absorbing;
mod answer;
mod carrying;
mod cells;
mod judging;
pub mod laws;
mod looking;
mod naming;
mod problems;
mod stage;
mod steps;

pub use absorbing::absorb_into;
pub use answer::Verdict;
pub use carrying::{Carried, carry_over};
pub use cells::TriggerCells;
pub use judging::{held_by, verdict, verdict_over};
pub use looking::Opens;
pub use problems::Open;
pub use stage::{InForce, Origin, Told};
