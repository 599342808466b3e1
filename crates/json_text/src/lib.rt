//! JSON texts (RFC 8259): what value a text is, where it goes wrong, and the one text that is written of a value.
//!
//! The public contract: [`read`] gives the value that a text is by the grammar of JSON, or the place where no JSON text
//! goes on; [`write`] writes one text of a value, and what was read is read again from it as the same.
//!
//! ```text
//! text     a value with blanks around it; the text of strings is UTF-8
//! value    null, true, false, a number, a string, an array or an object
//! blanks   spaces, tabs, line feeds and carriage returns, around values and names
//! depth    at most 64 brackets are open at one place (this project's own)
//! number   keeps its text as it was written
//! string   without quotes and escapes; surrogate escapes only in pairs, the high one first
//! object   members in order; a repeated name puts the later value in the earlier place (this project's own)
//!
//! time     as the text's length, and n log n in the names of an object, whichever they are
//! ```
//!
//! [`write`] puts no blanks. In texts a quote and a backslash get a backslash, bytes below 32 are `\u00` with two
//! lower-case hexadecimal digits, and all else stands as it is. For a caller that writes an array of its own,
//! [`put_comma`] adds the comma before each item but the first.
//!
//! Contracts see a [`Tree`] as a plain tree, without where it lies in memory. A short use:
//!
//! ```text
//! let tree = json_text::read(alloc, b" {\"a\": [1.50, \"x\\u0041\"]} ")?;
//! let mut out = Bytes::new(alloc);
//! json_text::write(&tree, &mut out)?;                // {"a":[1.50,"xA"]}
//! json_text::read(alloc, b"[1,]")                    // Err(At(3))
//! ```
#![tactic(auto)]

mod frame;
mod kinds;
mod machine;
mod making;
mod naming;
mod number;
mod place;
mod reading;
mod spans;
mod string;
mod tree;
mod writing;

pub use reading::{ReadError, read};
pub use tree::{Member, Members, Tree, Trees};
pub use writing::{put_comma, write};
