//! The ground of the readers that go through a text byte by byte: characters in UTF-8, bytes of numbers, runs of a
//! machine, and the first fault of a text.
//!
//! The public contract: [`next`] gives what a text in UTF-8 asks behind one byte more, or none exactly where no text in
//! UTF-8 goes on so; [`is_whole`] tells whether the bytes so far are a text in UTF-8. UTF-8 is that of RFC 3629: no
//! overlong forms, no surrogates (U+D800 to U+DFFF), and nothing above U+10FFFF. [`is_digit`] and [`is_e`] tell the
//! bytes of numbers.
//!
//! A reader starts from [`Character::Whole`], and keeps one [`Character`] of what has come:
//!
//! ```text
//! let mut character = Character::Whole;
//! for byte in text {
//!     match next(character, *byte) {
//!         Some(now) => character = now,
//!         None => ..,   // no text in UTF-8 goes on with this byte
//!     }
//! }
//! is_whole(character)   // the text is UTF-8
//! ```
//!
//! Nothing is allocated. The definitions that the readers of keys, paths and expressions share stand here too: a run of
//! a machine over bytes, and the first fault of a text in a grammar.
#![tactic(auto)]

mod characters;
mod digits;

pub use characters::{Character, is_whole, next};
pub use digits::{is_digit, is_e};
