//! Sessions that try the notes of a queue at the same time, and keep their marks.
//!
//! [`work_in_sessions`] has a session for each hand, which is a spawner and a clock, in a thread of its own. The queue and
//! the marks stand under one lock, that no session holds while a program runs or while it rests. Each recipient's notes are
//! tried in order, one at a time; a session that finds all of them open waits for the end of a try.
//!
//! ```text
//! let worked = work_in_sessions(&rt, alloc, queue, marks, &orders, &mut hands);
//! let (disk, list) = worked.marks.end();
//! ```
#![tactic(auto)]

mod counting;
mod hands;
mod names;
mod orders;
mod running;
mod session;
mod shared;
mod spread;
mod state;
mod working;

pub use hands::Hand;
pub use orders::Orders;
pub use working::{Worked, work_in_sessions};
