//! Patterns cross threads.
//!
//! The search for the proof that a type is `Send` and `Sync` gives up at a regex, which has many parts. So it is shown here
//! once, and `proofs/Crossing.antt` has it for the crates that share patterns among threads: they name its lemmas in the
//! answers of their own `join` and `spawn`.

use crate::patterns::Patterns;
use regex::Regex;

fn is_sync<T: Sync>() {}

fn is_send<T: Send>() {}

/// A regex may be used by more than one thread at a time.
pub(crate) fn regex_is_shared() {
    is_sync::<Regex>()
}

/// A regex may be moved to another thread.
pub(crate) fn regex_is_moved() {
    is_send::<Regex>()
}

/// Patterns may be used by more than one thread at a time.
pub(crate) fn patterns_are_shared() {
    is_sync::<Patterns>()
}

/// Patterns may be moved to another thread.
pub(crate) fn patterns_are_moved() {
    is_send::<Patterns>()
}
