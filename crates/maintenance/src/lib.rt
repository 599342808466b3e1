//! Maintenances: when they are in force, which problems they suppress, and which hosts' values they keep out.
//!
//! A maintenance is active from one second till another, and in force in its periods. A period begins at its starts and
//! lasts for its length from each of them (`specs/Starts.antt`, `specs/Force.antt`):
//!
//! ```text
//! once       at a moment, also one before the maintenance is active
//! daily      at a time of day, on the local day on which the maintenance becomes active and every n days after it
//! weekly     at a time of day, on weekdays of the week in which it becomes active and every n weeks after it; weeks begin
//!            on Monday
//! monthly    at a time of day, on a day of months, in each year in which the month has that day
//! ```
//!
//! The one contract: each call answers exactly what the definitions find by searching all starts of all periods, for
//! any configuration and moment. The code looks at few of them: in a series of starts that lie a step apart the latest
//! one decides, which a division gives; a weekday of every n weeks is such a series, and so is each date of a month, of
//! which only those of the years are tried that the length reaches back to. No call takes memory.
//!
//! A maintenance is of the hosts that it names and of the hosts in its groups (`specs/Covering.antt`). It suppresses a
//! trigger's problem where it is of the host of some item that the trigger's calls look at, and for the problem's tags
//! (`specs/Tags.antt`, `specs/Suppression.antt`).
//!
//! ```text
//! if !collects(&conf, host, now) { .. }                      // the value is refused
//! let quiet = suppressed(&conf, trigger, tags, now);         // the problem is made all the same
//! ```
#![tactic(auto)]

mod covering;
mod force;
mod periods;
mod series;
mod suppression;

pub use force::in_force;
pub use suppression::{collects, suppressed};
