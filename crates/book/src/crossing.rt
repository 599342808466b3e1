//! The ends of a ring cross threads.

use crate::names::RunName;
use crate::ring::{RingEnd, RingHead};
use book_opening::StartName;

fn is_send<T: Send>() {}

/// The end that sends may be moved to another thread.
pub(crate) fn head_is_moved<S: StartName + Send, N: RunName + Send>() {
    is_send::<RingHead<S, N>>()
}

/// The end that receives may be moved to another thread.
pub(crate) fn end_is_moved<S: StartName + Send, N: RunName + Send>() {
    is_send::<RingEnd<S, N>>()
}
