//! A queue of notes: which of them is to be tried next, and what its tries come to.
//!
//! Each recipient has a lane: its notes that have no mark yet, in order, of which the first is tried. `Queue::take` hands
//! out the least number among the first notes of the lanes that are due and have no open try. `Queue::done` ends a try.
#![tactic(auto)]

mod filing;
mod filling;
mod lane;
mod laws;
mod least;
mod moments;
mod queue;
mod types;

pub use laws::every_schedule;
pub use queue::Queue;
pub use types::{Kind, Mark, NoteMark, Taken};
