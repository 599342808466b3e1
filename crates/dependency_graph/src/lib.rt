//! Links between things: which lie on a cycle, and how long the chains of links are.
//!
//! The contract in a sentence: [`first_on_cycle`] gives exactly the first link that lies on a cycle, and [`depths`] for each
//! thing exactly the length of the longest chain of links from it; only want of memory is free.
//!
//! Things go by their places in a list, counted from 0. `links` has for each thing the places of those that it has links
//! to, in their order: of a template those that it is linked to, of a trigger those that it depends on.
//!
//! ```text
//! 0 → 1, 2      the walk from 0 is 0, 1, 2; the depths are 2, 1, 0, and no link lies on a cycle
//! 1 → 2
//! 2             with a link 2 → 1, the links 1 → 2 and 2 → 1 lie on a cycle, and 0 → 1 doesn't
//! ```
//!
//! ```text
//! if let Some(place) = first_on_cycle(alloc, &links)? { .. }   // place.from, place.at
//! let depths = depths(alloc, &links)?;
//! ```
//!
//! Each call takes time linear in the things and their links.
#![tactic(auto)]

mod chains;
mod cycles;
mod visits;
mod walks;

pub use chains::depths;
pub use cycles::{LinkPlace, first_on_cycle};
pub use walks::walk;
