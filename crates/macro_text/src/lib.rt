//! User macros in texts: a reference such as `{$MAX}` is replaced by the value that a list gives for it.
//!
//! The contracts: [`expand`] gives exactly the text that the definition `expanded` says, or [`OutOfMemory`]. Beside it
//! [`expand_within`] gives the same text where it is within a limit, and else its front, which is all that is made.
//!
//! A reference is `{$`, a name and `}`. A name is one or more of the letters A to Z, the digits 0 to 9, `_` and `.`.
//! Each reference is replaced once, by the first definition in the list whose name is that reference as it is written.
//! One that has no definition stays as it is, and so does all that is no reference, as `{$}`, `{$max}` and `{$MAX`. A
//! value that was put in is not looked through again, so references in it stay.
//!
//! References follow the Zabbix 6.0 manual, "User macros". That they are replaced wherever a text holds them is this
//! project's own. Contexts are not known: `{$MAX:disk}` is no reference, and stays.
//!
//! ```text
//! lookup: {$MAX} is 4
//!
//! let shown = expand(alloc, &Text::of(alloc, "load>{$MAX}")?, &lookup)?;      // "load>4"
//!
//! let global = MacroIndex::of(alloc, macros_of_the_document)?;
//! let macros = Macros::new(MacroIndex::of(alloc, macros_of_the_host)?, &global);
//! match expand_within(alloc, &text, &macros, 2048)? {
//!     Expansion::Whole(text) => ..,       // at most 2,048 bytes
//!     Expansion::Longer(front) => ..,     // the first 2,048 bytes
//! }
//! ```
//!
//! [`OutOfMemory`]: zbx_types::OutOfMemory
#![tactic(auto)]

mod index;
mod limited;
mod macros;
mod parts;
mod references;
mod replacing;

pub use index::{MacroIndex, Macros};
pub use limited::{Expansion, expand_front, expand_within};
pub use macros::{Macro, MacroRef};
pub use replacing::expand;
