//! The value of a call of a function in a trigger's expression (the Zabbix 6.0 manual, "Supported functions").
//!
//! The public contract: [`value`] gives what the definition of the call's function says of the window of its item,
//! oldest first, at a moment, or None where that is unknown. [`value_at`] gives the same over values where they stand, of
//! which none is copied, and where the place of the call's pattern is known, as [`pattern_place`] found it once. A
//! definition looks at lists alone; the code costs about as much as the window is long, `percentile` sorts its numbers
//! once, and `count` and `find` make one matcher for all of it.
//!
//! ```text
//! last #n, first                   the n-th latest number, the oldest; unknown where there is none
//! min, max, sum, avg               of no number unknown; avg is the exact sum divided by their count, cut at six decimals
//! percentile P                     the number of rank max(1, ceil(P * count / 100)) in ascending order
//! change                           the latest value less the one before; of texts 0 where they are equal, else 1
//! changecount all, inc, dec        how many neighbours differ, rise, fall; of texts each that differs
//! monoinc, monodec weak, strict    1 where all neighbours rise, fall; else 0
//! count, find op, arg              how many values match; 1 where one does, else 0, and unknown of no value
//! nodata p                         0 where there is a value; else 1 from p seconds after the first Tick on
//! now, time, date                  the seconds, and HHMMSS and YYYYMMDD by the local clock
//! dayofweek, dayofmonth            1 for Monday to 7, 1 to 31, by the local clock
//! ```
//!
//! A number compares with `arg` as a number text with an optional suffix, and matches nothing where that is none;
//! patterns see it written. A text compares by its bytes, and `like` asks whether it contains `arg`. An operator that
//! doesn't fit the value matches nothing, as `like` on a number, `gt` on a text, or any other name. Truths are 1 and 0,
//! and a result above 10^24 without its sign is unknown. What the parser refuses has a value too, by the same
//! definitions. A short use:
//!
//! ```text
//! // avg(/host/key,#2) over 3.25 and 1.5
//! value(alloc, &call, window, now, first_tick, offset, &patterns)?    // Some(2.375)
//! let place = pattern_place(alloc, &call, &patterns)?;                // 0: it has none
//! let window = Values::cached(&cache, tokens);
//! value_at(alloc, &call, place, &window, now, first_tick, offset, &patterns)?
//! ```
#![tactic(auto)]

mod absence;
mod changes;
mod clock;
mod functions;
mod matching;
mod numbers;
mod patterned;
mod ranks;
mod values;

pub use functions::{value, value_at};
pub use patterned::pattern_place;
