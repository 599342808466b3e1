//! The texts of events: names, tags, messages, and the lines of records that an outbox gets.
//!
//! The one contract: each call gives exactly the text that its definition says (`specs/Titles.antt`,
//! `specs/Messages.antt`, `specs/Lines.antt`), or [`OutOfMemory`]. [`line`] and [`lines`] then leave the bytes that they
//! were to grow as they were.
//!
//! ```text
//! name         the name of a trigger's events: its title with its macros replaced, within 2,048 bytes
//! tags         the tags of its problems: their values with their macros replaced, within 255 characters
//! patterns_in  the regular expressions in a title or in a tag's value, which `name` and `tags` look up
//! message      the subject or body of a message with its macros replaced
//! line, lines  the lines of records
//! ```
//!
//! Macros of titles and tags are `{HOST.NAME}`, `{ITEM.VALUE}`, `{ITEM.LASTVALUE2}` and
//! `{{ITEM.VALUE}.regsub(pattern,output)}`; what one stands for isn't looked through again, and whatever is no macro
//! stays. A line is fields with `|` between them and a line feed behind the last, the kind's letter first:
//!
//! ```text
//! F|entry|host|key|why
//! P|event|moment|severity|suppressed|host|trigger|name, then |tag|value for each tag
//! R|event|entry that closed it|moment|cause
//! S|event|action|step|moment
//! M|event|action|step|recipient|subject|body
//! ```
//!
//! An event is the number of the entry that opened it, `-` and its trigger. A moment is its seconds, a point and nine
//! digits. Suppressed is `1` or `0`, and the cause `e` for the trigger's expression, `c` for correlation or `r` where a
//! changed configuration has no trigger for the problem. In texts a backslash, a bar, a line feed and a carriage return
//! are written `\\`, `\|`, `\n` and `\r`. A short use:
//!
//! ```text
//! let name = name(alloc, &conf, trigger, &values, &patterns)?;      // "h1: 1.5" of "{HOST.NAME}: {ITEM.VALUE}"
//! lines(alloc, records, &mut out)?;
//! ```
//!
//! [`OutOfMemory`]: zbx_types::OutOfMemory
#![tactic(auto)]

mod braces;
mod clocks;
mod fields;
mod fronts;
mod macros;
mod messages;
mod page;
mod quotes;
mod records;
mod titles;
mod words;

pub use messages::message;
pub use records::{line, lines};
pub use titles::{name, patterns_in, tags};
