//! The active agent protocol: an agent asks which items it is to bring, and brings their values.
//!
//! A body, the data of a frame, is such a request where it is a JSON object with the member `"request":"active checks"`,
//! or with `"request":"agent data"` and an array `data` (the Zabbix 6.0 manual, section "Passive and active agent
//! checks"; which members count is this project's own). The contract in a sentence: `read` gives `agent_request_of` of
//! the body, a definition over the reading of JSON that `serde_json` states, and `checks` gives `checks_text`, which has
//! exactly the active items of the host that are enabled, in the order of the configuration, in a frame.
//!
//! ```text
//! {"request":"active checks","host":"h","version":"6.0"}
//! {"response":"success","data":[{"key":"k","delay":30,"lastlogsize":0,"mtime":0}]}
//! {"response":"failed","info":"unknown host"}
//! {"request":"agent data","data":[{"host":"h","key":"k","value":"10","id":1,"clock":50,"ns":7}]}
//! {"request":"agent data","data":[{"host":"h","key":"k","value":"no such file","state":1,"id":2,"clock":50,"ns":7}]}
//! ```
//!
//! An element of agent data is an asked value as a sender's, and `unsupported` where its `state` is the number 1: the
//! agent doesn't support the item, and the value is a text about that. Other members, among them `session` and `id`,
//! are ignored. A body is read in one pass, as `sender_json` reads one, in which the members stand in any order, and
//! `gather` hands each element to a `Gatherer` as soon as it is read; `read` gathers a list of the elements.
//!
//! Nothing is known here of which hosts there are or what is done with a value: a host is told by its id.
#![tactic(auto)]

mod listing;
mod reading;
mod refusing;
mod request;

pub use listing::{checks, tells_items};
pub use reading::{gather, read};
pub use refusing::{ChecksRefusal, refusal};
pub use request::{AgentAsked, AgentRequest};
