//! The work of several threads on the entries of a run: the ring between the intake and the syncers, the book that the
//! syncers share, and the orders that they work out apart from it.
//!
//! Numbered entries go into the ring at its head and come out at its end, each once, in the order of their numbers.
//! Head and end may be in two threads. The end belongs to the book, which takes the entries out. A syncer claims an
//! order, some entries with copies of the cells that they touch, works it out on its own, and brings it back; the
//! book puts what it came to in place, in whatever order the orders come back. The book passes the entries that are
//! worked out with all before them, and writes their lines to the outbox.
//!
//! The one contract: whatever is pulled, claimed, applied, given back and flushed, what the outbox got since the
//! opening is a front of the lines that one thread makes which takes the entries in the order of their numbers, but
//! for as many of their first bytes as the outbox held; none is missing and none comes twice. Once the book is
//! finished ([`Book::finish`]) they are all out, of the entries with which the run began and of all that went into
//! the ring. Where the journal begins with a base, a state in place of its first entries, this is said of the entries behind
//! it: the outbox's first bytes, as many as the base's lines have, stay as they were, and these lines stand behind them.
//!
//! A book goes through these states. It is made behind the base of the journal and the entries that this kept, which it
//! replays and doesn't keep ([`Book::new`]); an outbox that holds more than their lines, or fewer bytes than the base's, is
//! refused. These may hold several Configs: each but the first of a journal without a base carries over what goes on under
//! it. Through the ring no Config goes: one configuration, that of the last
//! Config, is in force from then on. Then any calls may come, from one thread
//! at a time. Where the outbox fails, some lines from the front are out, and the next flush goes on behind them.
//! Where memory is refused nothing is lost. At the end all open batches are given back, and one thread works out what
//! is left.
//!
//! A run has two names, which stand for contracts alone. `StartName`, of `book_opening`, is with what it begins: the
//! configuration that each text stands for, the base of its journal and the entries that this kept behind it, which don't go
//! through the ring, what they leave for those that follow, and what its outbox told. [`RunName`] is which ring is its own. Two ends with the same names are of one
//! ring, so a call that takes both asks for nothing more, also where one of them comes out of a lock.
//!
//! ```text
//! let ring = Ring::<S>::new(alloc, 4096)?;                    // no entry was sent
//! let (mut head, end) = ring.named::<N>();                    // N is picked for this ring
//! // `epochs` are the configurations of the base and of the kept Configs, `ready` is the last one
//! let (mut book, ready) = Book::<S, N, O>::new(alloc, &base, epochs, kept, end, outbox)?;
//! if let Err(entry) = head.push(entry) {                      // no slot was free: the entry is here again
//!     ..
//! }
//! book.pull(alloc)?;                                          // under a lock, as are the other calls of the book
//! if let Some(order) = book.claim(alloc, &ready, 128)? {
//!     let done = order.run(alloc, &ready, &mut steps)?;       // outside the lock
//!     book.apply(alloc, &ready, done, &mut steps)?;
//!     book.flush(alloc)?;
//! }
//! let closed = book.finish(alloc, &ready, head)?;             // all lines are out
//! ```
//!
//! A function with a parameter `S: StartName` or `N: RunName` is proved for every name. Its caller passes `Brand`,
//! and picks the name in its own `Invariants.antt`: the first from what the run begins with, the second from the ring
//! that it hands over.
//!
//! [`laws`] is about the work on the entries. To the core of `syncer_gate` it adds cells, and the records that are
//! kept of each entry under its number: where a batch ends with its results, its entries are worked out over the
//! cells, the oldest first. Whatever is offered, claimed, applied and given back, the cells stand for the applied
//! entries, and the records kept of each applied entry are those of its place in one thread's replay. Where all
//! entries up to a place are applied, the records kept of them are that replay. The laws speak of a log behind any good
//! start; the book's cells and records are such ones, over what the kept entries leave.
#![tactic(auto)]

mod alone;
mod book;
mod crossing;
mod errors;
mod inputs;
pub mod laws;
mod names;
mod order;
mod progress;
mod ring;

pub use book::{Book, Closed};
pub use errors::FlushError;
pub use names::RunName;
pub use order::{Done, Order};
pub use ring::{Ring, RingEnd, RingHead};
