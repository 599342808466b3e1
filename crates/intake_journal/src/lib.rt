//! The journal: the entries that were taken, in groups, on a disk that may stop at any moment.
//!
//! The one public contract: what [`Journal::recover`] and [`Journal::read_next`] up to its None give is exactly what the
//! definition `kept` says of the file's bytes, and a crash at any moment of [`Journal::append`] leaves a file that keeps
//! the groups from before the call, or these with all groups of the block; once it has answered Ok, each crash leaves them.
//!
//! The file is `ZTSJRN01` and groups, each behind a gate of one byte. Only what stands behind gates equal to 1 counts, up to
//! the first gate with another byte. All numbers have four bytes, the lowest first:
//!
//! ```text
//! group     gate, size of the entries in bytes, number of entries (at least 1), the entries; then the next gate
//! Config    1, seconds, nanoseconds, length and text
//! Value     2, seconds, nanoseconds, item, seconds and nanoseconds of its time, length and value
//! Tick      3, seconds, nanoseconds
//! ```
//!
//! Groups are added in blocks, each by one write of all of it but its first gate, a sync, one write of that gate as 1, and a
//! sync. In a block the gates between the groups are 1, and the one behind the last is 0.
//!
//! A journal is Reading until `read_next` has answered None, then Ready, and Broken once its disk has failed. A short use:
//!
//! ```text
//! let mut journal = Journal::recover(alloc, disk, 1_000_000, LONGEST_JOURNAL)?;
//! while let Some(group) = journal.read_next(alloc)? { .. }
//! let mut block = Block::new(alloc)?;
//! journal.stage(&mut block, entries)?;                   // takes the memory, or answers Full
//! journal.append(&block)?;                               // durable once it has answered Ok
//! block.clear();
//! ```
#![tactic(auto)]

mod ahead;
mod base_decoding;
mod base_encoding;
mod block;
mod decoding;
mod encoding;
mod format;
mod journal;
mod making;
mod opening;
mod reading;
mod state;

pub use base_decoding::decode_base;
pub use block::Block;
pub use decoding::decode;
pub use encoding::{encode, size};
pub use format::Group;
pub use journal::Journal;
pub use making::{MakeError, make};
pub use opening::FIRST_GATE;
pub use reading::LONGEST_JOURNAL;
pub use state::{AppendError, JournalError, State};
