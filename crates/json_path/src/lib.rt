//! Paths into JSON documents, as `$.hosts[0].name` (the Zabbix 6.0 manual, "JSONPath functionality"): what a text says,
//! and what a path gives of a document.
//!
//! The public contract: [`read`] gives the one path that a text is by the grammar below, or the place of the first byte
//! where no path goes on; [`select`] gives the text of the values that a path selects of a tree of JSON, or of what its
//! function makes of them, or says that there is no match or no number.
//!
//! ```text
//! path      $ segments, and perhaps .function()
//! segment   .name  .*  ..name  ..*  [selector]  ..[selector]
//! selector  'name','name'  0,-1  1:3  *  ?(condition)
//! condition @ names comparison literal, each name as .name or ['name']
//! function  length, first, min, max, sum, avg
//! name      one or more letters, digits, `_`, `-` and bytes above 127, in UTF-8
//! quoted    in ' or "; a backslash takes the next byte as it is; what it stands for is UTF-8
//! literal   a quoted text, or a number of JSON (RFC 8259, section 6)
//! ```
//!
//! Spaces, and no other blanks, may stand around each part in brackets; `?(` is one part. This project's own limits: a
//! text has at most 65,535 bytes, and an integer is digits, perhaps behind `-`, for a number of 64 bits with its sign,
//! so the digit that passes that is the place where no path goes on. The manual's arithmetic, regular expressions,
//! `&&`, `||`, `!`, and conditions without a comparison or with a path at its right aren't of this grammar.
//!
//! ```text
//! let tree = json_text::read(alloc, b"{\"load\": [0.5, 1]}")?;
//! let path = json_path::read(alloc, b"$.load[*].sum()")?;     // segments: load, *; function: Sum
//! let text = json_path::select(alloc, &tree, &path)?;         // 1.5
//! ```
#![tactic(auto)]

mod brackets;
mod comparing;
mod conditions;
mod contents;
mod integers;
mod numbers;
mod path;
mod places;
mod reading;
mod results;
mod selecting;
mod sums;
mod tokens;

pub use path::{Comparison, Condition, Function, Literal, Path, PathError, Segment, Selector};
pub use reading::{LONGEST_PATH, read};
pub use results::{SelectError, select};
