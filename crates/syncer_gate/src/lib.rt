//! The choice of batches: which pending entries a syncer may work on beside the others.
//!
//! The one contract: [`Claims::claim`] gives exactly the chosen batch, by the definition `chosen` of
//! `specs/Chosen.antt`. Of the first pending entries, as many as it is told to look at, in order it takes each that conflicts with no skipped one
//! before it and with no entry of an open batch, up to a limit.
//!
//! Each entry has one mark. It says where the entry stands:
//!
//! ```text
//! Pending  --claim-->  Taken(batch)  --settle-->     Applied
//!                      Taken(batch)  --give_back-->  Pending
//! ```
//!
//! A batch is known by its id and its numbers. One that isn't open changes nothing when it is settled or given back,
//! so an order that comes twice, or comes late, does no harm.
//!
//! A claim stamps the items, triggers and rules that open and skipped entries touch, and tests each entry against the
//! stamps. So its cost is the feet of the entries that it looks at, and not their pairs. Two places bound the marks
//! that it goes over: all entries before the one are applied, and all from the other on are pending.
//!
//! ```text
//! let mut claims = Claims::new(alloc, 1);                                // the first entry has number 1
//! claims.offer(6)?;                                                      // entries 1 to 6 are pending
//! if let Some(batch) = claims.claim(alloc, &feet, &entries, 1000, 64)? {
//!     ..                                                                 // work on the entries of `batch.numbers`
//!     claims.settle(batch);                                              // or `give_back`
//! }
//! ```
//!
//! [`laws`] says that no list of these steps breaks the order. The clauses `step` say that each call is such a step.
#![tactic(auto)]

mod batch;
mod choice;
mod claims;
pub mod laws;
mod marking;
mod marks;
mod stamps;
mod touched;

pub use batch::Batch;
pub use claims::Claims;
