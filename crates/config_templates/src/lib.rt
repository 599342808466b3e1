//! The flat configuration of a document: templates are laid out over their hosts, user macros have their values, and
//! names of hosts and items are ids.
//!
//! The contract in a sentence: [`flat`] gives `flat_of` of the text, the configuration that the document stands for or its
//! first fault with the JSON pointer of the member at fault; only want of memory is free.
//!
//! A host has its own items and triggers, then those of the templates that it is linked to, level by level, each template
//! once. References to user macros get the value of the host, else of its templates in that order, else the global one.
//! Of an inherited object the pointer is that of the template's.
//!
//! ```text
//! order of faults: what reading refuses, links, keys of all hosts' items, their masters, their steps, triggers of all
//! hosts, what they depend on, hosts that maintenances and actions name
//! ```
//!
//! ```text
//! match flat(alloc, text) {
//!     Ok(conf) => conf.items.as_slice() ..,
//!     Err(FlatError::Refused { path, cause }) => ..,   // "/templates/0/items/1/key", Duplicate
//!     Err(FlatError::OutOfMemory) => ..,
//! }
//! ```
#![tactic(auto)]

mod depends;
mod expressions;
mod flattening;
mod functions;
mod hosts;
mod meanings;
mod members;
mod resolving;
mod titles;
mod triggers;
mod uses;

pub use flattening::flat;
pub use host_layout::FlatError;
