//! The plain types that every other crate stands on: texts, bytes, lists, moments and numbers, journal entries with the
//! records that they make, and the configuration in the flat form in which it is used.
//!
//! The one contract: each call gives exactly what its definition says of the values that contracts see, and a call that
//! takes memory answers [`OutOfMemory`] and leaves what it was to change as it was.
//!
//! Contracts see each type as a plain value, so that a clause names no memory and no representation:
//!
//! ```text
//! Text, Bytes     the list of its bytes
//! Many<T>         the list of its items
//! Moment          its nanoseconds since moment 0, a natural number
//! Fix             its millionths, an integer, from -10^30 to 10^30
//! Operand         its expression as a tree
//! Entry, Rec, Conf and the others     themselves, each field seen as above
//! ```
//!
//! Ids of hosts, items and triggers count from 1, and 0 stands for none; [`by_id`] looks them up. A short use:
//!
//! ```text
//! let mut name = Text::of(alloc, "cpu")?;
//! name.push_str(" load")?;                                  // "cpu load"
//! let value = Fix::read(b"1.5").map(|f| f.raw());           // Some(1500000)
//! if let Some(third) = one.div(three) {                     // cut towards zero: 333333 millionths
//!     third.write(&mut name)?;                              // "cpu load0.333333"
//! }
//! ```
#![tactic(auto)]

mod actions;
mod base;
mod blanks;
mod bytes;
mod calls;
mod causes;
mod conf;
mod dependencies;
mod digits;
mod entries;
mod equality;
mod expr;
mod fix;
mod frames;
mod groups;
mod ids;
mod items;
mod limits;
mod maintenances;
mod many;
mod memory;
mod moment;
mod name_bytes;
mod numbers;
mod numerals;
mod operators;
mod periods;
mod pieces;
mod reserved;
mod rules;
mod steps;
mod suffixes;
mod tag_tests;
mod text;
mod triggers;
mod writing;

pub use actions::{Action, ActionCond, Operation, Sending, SeverityOp};
pub use base::{Base, BaseItem, BaseProblem, BaseStep, BaseValue, Ran};
pub use blanks::unpadded;
pub use bytes::Bytes;
pub use calls::{Call, Fun, Range};
pub use causes::Cause;
pub use conf::{Conf, Host};
pub use dependencies::{depth_of, depths_fall, masters, masters_by_chains};
pub use digits::{all_digits, digit_at, last_six_digits, number_up_to, number_within};
pub use entries::{
    Cause2, Entry, EventId, Held, Numbered, Rec, Stored, Tag, copy_records, copy_tags,
};
pub use equality::{same_entry, same_record, same_records, same_tags};
pub use expr::{Expr, Op, Operand};
pub use fix::Fix;
pub use frames::{LONGEST_DATA, frame_header};
pub use groups::groups_of;
pub use ids::{by_id, id_of};
pub use items::{Item, ItemKind, ValueType};
pub use limits::{
    LONGEST_EXPRESSION, LONGEST_KEY, LONGEST_NAME, LONGEST_RANGE, LONGEST_TEXT, LONGEST_TITLE,
    LONGEST_VALUE, MOST_CONNECTIONS,
};
pub use maintenances::{Maintenance, Period};
pub use many::{Many, copy_texts};
pub use memory::OutOfMemory;
pub use moment::Moment;
pub use name_bytes::{is_host_name_byte, is_macro_name_byte};
pub use numbers::{greatest, least, total};
pub use operators::{Operator, operator_of, pattern_of};
pub use periods::seconds_up_to;
pub use reserved::Reserved;
pub use rules::{Rule, RuleCond};
pub use steps::{OnFail, StepKind, StepSpec};
pub use tag_tests::{Matching, TagOp, TagTest, has_tag, share_value, tests_pass};
pub use text::{Text, is_same, same_text};
pub use triggers::{RecoveryMode, Trigger};
