//! Files of groups behind gates, of which a crash leaves each whole or not at all.
//!
//! Such a file begins with eight bytes that say whose it is, and a gate. A group is what stands behind a gate of 1, up to
//! the next gate; behind a gate with another byte nothing counts. How long a group is says the form of the file.
//!
//! The one public contract: while [`keep`] puts a block behind a closed gate and opens it, each crash leaves the bytes up to
//! the gate as they were, or the whole block behind them. From that follows, for each form of groups, that a
//! crash leaves the groups before, or these with the new one.
//!
//! [`prepare`] opens a file, and makes it anew where it is short. [`read_whole`] reads as many bytes as there are.
//!
//! ```text
//! if prepare(&mut disk, b"ZTSALR01\0")? {          // its own, or made anew; all of it durable
//!     keep(&mut disk, gate, &[b'd', 0])?;          // four calls of the disk; durable once it has answered Ok
//! }
//! ```
#![tactic(auto)]

mod disk_calls;
mod opening;
mod whole;

pub use disk_calls::keep;
pub use opening::prepare;
pub use whole::read_whole;
