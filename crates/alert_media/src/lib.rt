//! Media: with which command, how often and at which interval messages to a recipient are tried.
//!
//! [`Media::read`] reads the document that says so, or tells its first member at fault.
//!
//! ```text
//! {"media":[{"recipient":"ops","command":"/etc/gifteldu/by_mail","attempts":5,"interval":"1m"}]}
//! ```
//!
//! Recipient and command are texts of 1 to 255 bytes, the recipients distinct. `attempts` is from 1 to 100, and 3 where it
//! isn't given; `interval` is a period text of at most an hour, and 10 seconds where it isn't given. A recipient without an
//! entry has the command and the attempts that are handed in, and 10 seconds.
#![tactic(auto)]

mod fault;
mod media;

pub use fault::MediaError;
pub use media::{Media, Medium};
