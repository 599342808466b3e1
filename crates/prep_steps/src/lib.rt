//! One preprocessing step over one value (the Zabbix 6.0 manual, "Preprocessing details").
//!
//! The public contract: [`apply`] gives exactly what the definition of the step's kind makes of a value that came at a
//! moment, with what the step remembers before and after it. [`apply_at`] gives the same where the place of the step's
//! pattern is known, as [`pattern_place`] found it once.
//!
//! Each step sees the value as a text, and makes one of three outcomes:
//!
//! ```text
//! Value     the value goes on, with at most 65,535 bytes
//! Discard   it is dropped without an error
//! Fail      the step fails, with one of these texts:
//!           not a number, number range, out of range, bad digits, no match, match, too long, or an error's own output
//!           of at most 65,535 bytes
//! ```
//!
//! A number step (multiplier, both changes, range) drops blanks around the value, reads a number with six decimals and
//! writes its result in the one form of such numbers; a result that is unknown or beyond 10^24 is `number range`.
//!
//! Four kinds of steps remember the last value that marked them: a change step each number that it takes into account,
//! the discarding steps each value that passes. The others leave the memory as it was. The two kinds that look into JSON
//! texts aren't made here. What becomes of a failure is the caller's.
//!
//! ```text
//! let mut memory = StepMemory::new(alloc);
//! let done = apply(alloc, &step, &memory, &value, time, &patterns)?;   // multiplier 0.01, "85 "
//! memory = done.memory;
//! match done.outcome {
//!     Outcome::Value(text) => ..,                                      // "0.85"
//!     Outcome::Discard => ..,
//!     Outcome::Fail(why) => ..,
//! }
//! ```
#![tactic(auto)]

mod changes;
mod digits;
mod matching;
mod memory;
mod numbering;
mod outcome;
mod steps;
mod throttling;
mod words;

pub use matching::{pattern_place, unless};
pub use memory::StepMemory;
pub use numbering::{NOT_A_NUMBER, number_of};
pub use outcome::{Outcome, StepDone, TOO_LONG, fail, is_short, parameter, pass};
pub use steps::{apply, apply_at};
