//! Texts that are read from a source to its end, and texts that are written whole to a sink.
//!
//! The one public contract: [`read_all`] gives what a source has left, or more than a limit of it, and [`write_all`] adds
//! all the bytes or, at an error, some from the front.
//!
//! ```text
//! let text = read_all(alloc, LONGEST, &mut source)?;       // longer than LONGEST where the source has more
//! write_all(&mut sink, line.as_bytes())?;
//! ```
#![tactic(auto)]

mod reading;
mod writing;

pub use reading::{ReadError, read_all};
pub use writing::write_all;
