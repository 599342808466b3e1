//! Templates laid out over the hosts of a document, and the items that hosts have by it.
//!
//! The contract in a sentence: each call gives exactly what the definition of its name in `specs/` gives of the document,
//! the value or its first fault with the JSON pointer of the member at fault; only want of memory is free.
//!
//! A host is a list of sources: itself, then the templates that it is linked to, level by level, each template once. What it
//! has is what they have, in that order. References to user macros get the value of the host, else of its templates in that
//! order, else the global one. Of an inherited object the pointer is that of the template's.
//!
//! ```text
//! Inheritance::of     the links, and the global macros       UnknownName, Cycle
//! owner_at            a host with its sources and macros
//! items               the items of all hosts                 BadKey, Duplicate, TooMany
//! mastered            the same with their masters            UnknownName, Cycle, TooDeep, TooMany
//! prepared            the same with their steps              what a step's parameter refuses
//! step_patterns       the patterns of these steps            BadMember, TooMany
//! ```
//!
//! ```text
//! let inheritance = Inheritance::of(alloc, &raw)?;
//! let list = mastered(alloc, &raw, &inheritance, items(alloc, &raw, &inheritance)?)?;
//! list.items.as_slice() ..      // in the order of their hosts, their ids counted from 1
//! list.names.place(alloc, host, "load")?;
//! ```
#![tactic(auto)]

mod fault;
mod firsts;
mod held;
mod inheritance;
mod item_list;
mod keys;
mod macros;
mod mastering;
mod owned_names;
mod owners;
mod passes;
mod pattern_steps;
mod patterns;
mod pointers;
mod preparing;
mod refusals;
mod step_params;
mod step_places;
mod templates;

pub use fault::FlatError;
pub use firsts::FirstPlaces;
pub use held::beside;
pub use inheritance::Inheritance;
pub use item_list::{ItemList, items};
pub use mastering::mastered;
pub use owned_names::OwnedNames;
pub use owners::{Owner, host_names, owner_at};
pub use pattern_steps::step_patterns;
pub use patterns::{Joining, PatternList};
pub use preparing::prepared;
pub use refusals::{element_pointer, member_pointer, refused_element, refused_member};
pub use templates::links::{Links, sources};
pub use templates::sources::{Origin, Source};
