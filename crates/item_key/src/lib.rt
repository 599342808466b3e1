//! Keys of items, as `system.cpu.load[all,avg1]`: what of a text is a key, and where one goes wrong.
//!
//! The public contract: [`read`] gives the length of the longest front of a text that is a key by the grammar, or the
//! place where no key goes on.
//!
//! A key is (the Zabbix 6.0 manual, "Item key format"):
//!
//! ```text
//! key        name, or name [ parameters ]; at most 2,048 bytes (this project's own limit)
//! name       one or more letters, digits, `_`, `-`, `.`
//! parameters one or more, with commas between them; spaces before each are skipped
//! parameter  " .. "   up to the next quote that isn't after a backslash; spaces may follow
//!            [ .. ]   a list of parameters that are no lists; only a comma or a bracket follows
//!            any other bytes, or none, up to a comma or `]`
//! ```
//!
//! For a reader of texts in which keys stand, the crate gives its machine too: a [`Place`] is what the bytes of a key
//! so far allow, [`next`] moves it by a byte, and [`may_end`] tells whether the key may end there. From each place some
//! bytes lead to a key, so a byte without a next place is the first where no key goes on.
//!
//! ```text
//! match item_key::read(b"net.if.in[eth0],60") {
//!     Ok(length) => ..,  // 15: what stands behind is the caller's
//!     Err(place) => ..,
//! }
//! ```
#![tactic(auto)]

mod places;
mod reading;

pub use places::{InParameter, Place, may_end, next};
pub use reading::read;
