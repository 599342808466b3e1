//! A configuration made ready for a run: its indexes, which are made once.
//!
//! `Ready` finds hosts by their names, items by their keys, and by an item or a trigger what belongs to it: the triggers
//! with a call over the item, or over one that depends on it, in the order of evaluation (`specs/Order.antt`: by depth, and
//! of one depth by id); the nodes of a trigger's expressions, one behind another (`specs/Plans.antt`); the places of its
//! calls' patterns (`specs/Asked.antt`); the triggers that a Tick evaluates (`specs/Timed.antt`); which triggers some rule of
//! global correlation reaches; the feet of the items, as the crate `footprint` says. Each is what a search of the
//! configuration finds (`specs/Index.antt`), and none walks over it.
//!
//! [`plan_value`] and [`recovery_value`] evaluate such nodes over the values of a trigger's calls.
//!
//! Beside its configuration a `Ready` has where the events of earlier configurations come from, which `know` tells it.
//! The crate `entry_step` takes entries by it.
//!
//! ```text
//! let ready = Ready::build(alloc, conf)?;
//! let item = ready.item_keyed(host, &key);
//! ```
#![tactic(auto)]

mod asked;
mod evaluation;
mod fault;
mod index;
mod indexes;
mod lists;
mod masters;
mod names;
mod order;
mod packed;
mod patterned;
mod plans;
mod reached;
mod rows;
mod timed;

pub use evaluation::{plan_value, recovery_value};
pub use fault::BuildError;
pub use index::Ready;
pub use plans::Node;
