//! Intake: what wire events make of a run's entries, what its journal keeps, and what senders are answered.
//!
//! A `Front` holds the journal, the moment that the events have reached, the half minute of the last Tick, the
//! connections of the wire and all entries that were numbered. Its contract in a sentence: each event leaves the
//! intake that the definition `handled` says and is answered as it says, once each crash leaves the entries that it
//! added; and entries that fit, each the configuration in force where it stands, stay so.
//!
//! The configuration in force is that of the last Config, or that of the journal's base where no entry is one. On an
//! empty base entry 1 is one. A run that goes on with a configuration of another text than that of the last one journals
//! it, at the moment that the entries have reached. `Judge` judges the groups that a journal kept beside the
//! configurations of the base and of their Configs.
//!
//! An event sets the moment, which never goes back, and offers a Tick to the journal where none was numbered in this
//! half minute. Then it does what it means for its connection. A whole frame is read as a request of the sender
//! protocol (the Zabbix 6.0 manual, section "Trapper items"), or as one of an agent: the values that are taken are
//! offered as one group behind the Tick, the reply counts them and those that failed, and the connection is closed
//! behind it. A value is taken where its host and key name an enabled item of an enabled host, a trapper item for a
//! sender and an active one for an agent, no maintenance without data collection is in force for that host, its value
//! has at most 65,535 bytes, its clock is absent or good, and its agent supports the item; its time is its clock, but
//! never later than the moment at which it is taken. An agent that asks for its items is told those of its host, and
//! no entry is made. `Closed` is the last event.
//!
//! Events are taken one by one and committed together. `take` numbers an event's entries, stages its Tick and its
//! values as two groups behind those that wait, and holds its answer back. `commit` writes all groups that wait by
//! one append, and hands the answers out in the order of the events. `on_event` is both, for one event.
//!
//! Where the journal would pass a limit with a group, it isn't kept, and no event follows. Where its disk fails at a
//! commit, none of its groups is kept, and only the events up to that of the first group are answered. Values that
//! aren't kept count as failed, and behind a Tick that isn't kept the event isn't handled.
//!
//! ```text
//! let mut front = Front::new(alloc, &ready, journal, kept)?; // the configuration of `ready` is in force
//! let mut collection = Collection::new(&ready);
//! front.take(alloc, &mut collection, &event)?;               // more events while `front.goes_on()`
//! for answer in front.commit(alloc).as_slice() { .. }        // durable: send its reply, then close answer.shut
//! let (disk, entries) = front.end();
//! ```
//!
//! Where memory is refused no entry was added, and the front takes no further event. What waits can be committed.
#![tactic(auto)]

mod answer;
mod asking;
mod batch;
mod collection;
mod drafts;
mod fitting;
mod front;
mod gathering;
mod held;
mod offering;
mod opening;
mod origin;
mod refusal;
mod settling;
mod staging;
mod taking;
mod telling;

pub use answer::{Answer, FrontError, Reply, Stop, Unmade};
pub use collection::Collection;
pub use fitting::{Judge, first_misfit};
pub use front::Front;
pub use refusal::ValueRefusal;
