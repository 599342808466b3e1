//! Documents in JSON, read member by member: the value that a reader finds at a place, or the fault of the place.
//!
//! The contract in a sentence: each reader gives exactly what the reading of its name in `specs/` gives of the same
//! place, the value or the first [`Cause`] with the JSON pointer (RFC 6901) of the place at fault; only want of memory
//! is free.
//!
//! A reader of a whole document is made of these. A member that isn't there has a place too, the pointer where it would
//! stand, so that a missing name is told there. `null` counts as there. Of two members with one name the last counts,
//! as `serde_json` reads a text.
//!
//! ```text
//! parse          a text of at most so many bytes        TooLong, NotJson
//! Object, At     an object; a member or an element      BadMember
//! Names          the names that are taken               Duplicate
//! list, distinct, sequence                              what the elements refuse
//! element        the pointer to an element of a list
//! ```
//!
//! ```text
//! let value = parse(alloc, text, 1000)?;
//! let object = Object::at(alloc, "", &value)?;
//! let size = object.member("size").number_or(alloc, 1, 0, 9)?;   // "/size" is BadMember at 10
//! let tags = list::<Texts>(alloc, &object.member("tags"))?;   // "/tags/0" is BadMember at 5
//! ```
#![tactic(auto)]

mod fault;
mod listed;
mod names;
mod parsing;
mod places;
mod pointers;
mod wording;

pub use fault::ReadError;
pub use listed::{Element, Following, Named, Texts, distinct, distinct_beside, list, sequence};
pub use names::Names;
pub use parsing::parse;
pub use places::{At, Object};
pub use pointers::element;
pub use wording::Words;
