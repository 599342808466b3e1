//! The local clock at a fixed offset from UTC: which day it is, and what a clock shows.
//!
//! Local time is UTC plus an offset in seconds; there are no time zones and no daylight saving. Days are counted by the
//! number of the local day, 0 for 1 January 1970 and negative before it, in the proleptic Gregorian calendar of
//! `jiff_core`.
//!
//! The one contract: [`local`] gives exactly the date and time of day that the definitions find for a moment
//! (`specs/Clock.antt`), and that date and time lead back to the local day and the second of the day. No call takes
//! memory, and none fails.
//!
//! ```text
//! local(moment, offset)       year, month, day, weekday, hour, minute and second
//! local_day(offset, second)   the number of the local day that a second is in
//! second_of(offset, day, at)  the second at which a local day is `at` seconds old
//! monday_of(day)              the Monday of a day's week
//! date_of(day)                the date of a day
//! date_in(year, month, 29)    the date of a day of a month, where that month has it
//! ```
//!
//! A short use:
//!
//! ```text
//! let clock = local(moment, 3600);                          // an hour ahead of UTC
//! write!(text, "{:04}.{:02}.{:02}", clock.year, clock.month, clock.day)?;
//! ```
#![tactic(auto)]

mod clock;
mod days;

pub use clock::{Clock, local};
pub use days::{date_in, date_of, local_day, monday_of, second_of};
