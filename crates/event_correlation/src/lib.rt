//! Global correlation of events: which problems the rules of the configuration close when a new problem opens.
//!
//! The one contract: [`closes`] gives exactly what its definition says (`specs/Closings.antt`) of the configuration, the
//! new problem and the problems that were open when it was made. [`closes_among`] is the same over references, so that
//! no problem is copied.
//!
//! A rule has one or more conditions, of which all must hold (`and`) or at least one (`or`), on an old and the new
//! problem (`specs/Conditions.antt`):
//!
//! ```text
//! old_tag, new_tag                the old one, the new one has the tag
//! old_tag_value, new_tag_value    an operator holds of the values of the old one's tag, of the new one's tag
//! tag_pair                        some value of the old one's tag equals some value of the new one's tag
//! new_group                       the new one's host is in the host group
//! ```
//!
//! The rules are taken in file order. A rule that closes old problems closes, in their order, those that it matches and
//! that no rule before it closed. A rule that closes the new problem does so where it matches at least one old problem,
//! closed already or not.
//!
//! It takes time linear in rules times old problems times conditions, and memory for what closes.
//!
//! That old problems whose triggers no rule can bring together with the new one's may be left out is the law in `laws`.
//!
//! ```text
//! let closed = closes(alloc, &conf, &new, &open)?;
//! for event in closed.old.as_slice() { .. }   // close these, in this order
//! if closed.new { .. }                        // and the new one last
//! ```
#![tactic(auto)]

mod answer;
mod closing;
mod conditions;
mod due;
pub mod laws;
mod matching;

pub use answer::Closes;
pub use closing::{closes, closes_among};
