//! The patterns of a configuration: built once, then searched for in texts.
//!
//! The contract in a sentence: [`Patterns::build`] takes only texts that the grammar of the `regex` crate reads, and
//! each search gives the leftmost match in a text of what a pattern's text stands for, as the definition of that crate
//! has it.
//!
//! ```text
//! place   names a pattern: 1 is the first text, 0 stands for none
//! span    the part of a text that a group of the match spans, in bytes; a group that took no part isn't there
//! ```
//!
//! Patterns don't change once they are built, and threads may share them. What a search writes to lives for one call: a
//! [`Matcher`] serves for all the texts that are looked at in one. A short use:
//!
//! ```text
//! let patterns = Patterns::build(alloc, &texts)?;           // texts: "(ERR|OK) (.)"
//! let place = patterns.find(&text);                         // 1
//! match patterns.spans(alloc, place, "ERR a")? {
//!     Some(spans) => spans.as_slice()[2] ..,                // there, from 4 to 5
//!     None => ..,                                           // it matches nowhere
//! }
//! patterns.filled(alloc, place, "ERR a", "\\2: \\1")?        // Some("a: ERR")
//! patterns.filled_within(alloc, place, "ERR a", "\\2: \\1", 5)? // TooLong
//! ```
#![tactic(auto)]

mod built;
mod fault;
mod filling;
mod matcher;
mod output;
mod patterns;
mod sharing;
mod spans;

pub use fault::BuildError;
pub use matcher::Matcher;
pub use output::Filled;
pub use patterns::Patterns;
pub use spans::Span;
