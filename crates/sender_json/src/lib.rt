//! The sender protocol: requests that bring values, and the replies to them.
//!
//! A body, the data of a frame, is a request where it is a JSON object with the member `"request":"sender data"` and
//! an array `data`, whose elements are the asked values (the Zabbix 6.0 manual, section "Zabbix sender protocol"). The
//! contract in a sentence: `read` gives `request_of` of the body, a definition over the reading of JSON that
//! `serde_json` states, and `reply` and `refusal` give the bytes of their text in a frame.
//!
//! ```text
//! {"request":"sender data","data":[{"host":"h","key":"k","value":"10","clock":50,"ns":7}]}
//! {"response":"success","info":"processed: 1; failed: 0; total: 1; seconds spent: 0.002500"}
//! ```
//!
//! A body is read in one pass over its tokens. Of an element nothing but its host, key, value, clock and ns is kept,
//! and no tree is made. `gather` hands each asked value to a `Gatherer` as soon as it is read, so that a body takes room
//! for its length and for what is gathered, whatever stands in it. `read` gathers a list of the asked values.
//! `gather_body` is this pass, over what an `Element` keeps of each element: requests of agents are read by it too.
//!
//! A body is `NotJson`, `Other` (JSON of another form) or `Values`. An element of any form is an asked value: a part
//! that isn't of its form is `None`, and its `Clock` says whether a moment is absent, bad or there. Other members are
//! ignored, also a `clock` beside `data`. Nothing is known here of hosts, items or what a value may be.
//!
//! ```text
//! match read(alloc, body)? {
//!     Request::NotJson => refusal(alloc, Refusal::NotJson),
//!     Request::Other => refusal(alloc, Refusal::Unsupported),
//!     Request::Values(all) => .. reply(alloc, processed, failed, spent),
//! }
//! ```
#![tactic(auto)]

mod asked;
mod body;
mod element;
mod failed;
mod gatherer;
mod parts;
mod passing;
mod reading;
mod refused;
mod replying;
mod request;
mod seen;

pub use asked::{Asked, Clock};
pub use body::Body;
pub use element::{Element, read_agent_element, read_element};
pub use failed::ElementError;
pub use gatherer::{Gatherer, Listing};
pub use reading::{gather, gather_body, read, read_body};
pub use refused::Refusal;
pub use replying::{refusal, reply};
pub use request::Request;
