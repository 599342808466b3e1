//! Footprints: which entries may be worked on side by side.
//!
//! The one contract: [`Feet::conflicts`] says yes exactly where the feet of two entries meet, by the definitions of
//! `specs/Feet.antt` and `specs/Conflict.antt`.
//!
//! The foot of an entry is what it may read or change. Of a Tick and a Config it is everything. Of a value it is:
//!
//! ```text
//! items       the item, its dependents through any number of masters, and the items of the triggers over these
//! triggers    the triggers over the item and its dependents, enabled or not, and all masters of those
//! marks       the rules of global correlation whose reach holds one of these triggers
//! ```
//!
//! A mark stands for all triggers in its rule's reach. So two feet meet in an item, in a trigger, or in marks whose
//! rules share a trigger. An item that isn't there has only itself in its foot.
//!
//! All is worked out once, as rows of rising ids per item. A test of two values then walks over short rows, and takes
//! no memory; it never looks at all triggers. Building takes time nearly linear in the sum of the feet.
//!
//! ```text
//! let feet = Feet::build(alloc, &conf)?;        // of a configuration whose dependencies don't go in a cycle
//! if feet.conflicts(&one, &other) { .. }        // the later one waits
//! for id in feet.triggers(item) { .. }          // the rows themselves, to mark cells
//! ```
#![tactic(auto)]

mod feet;
mod meeting;
mod reach;
mod rows;
mod tables;

pub use feet::Feet;
pub use reach::in_reach;
pub use rows::settled;
pub use tables::chain;
