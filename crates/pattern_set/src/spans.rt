//! What groups of a match span.

ghost use Rattle.std.specs.Prelude.{◌≡◌, map, IfOk};
ghost use Rattle.std.specs.List.{range_with_len};
ghost use Rattle.regex.specs.Strings.{captures_span};
ghost use Rattle.pattern_set.specs.Spans.{span_of};

use regex::Captures;
use std::alloc::Global;
use zbx_types::{Many, OutOfMemory};

/// How many groups of a match are told: the whole match and the groups 1 to 9 (this project's own).
const GROUPS: usize = 10;

/// The part of a text that a group of a match spans. This project's own.
#[derive(Clone, Copy, Debug, PartialEq, Eq)]
pub struct Span {
    /// Whether the group is there: false for one that took no part in the match, and for one that the pattern hasn't.
    pub there: bool,
    /// Where it begins, in bytes from the beginning of the text; 0 where the group isn't there.
    pub from: u64,
    /// Where it ends, behind its last byte; 0 where the group isn't there.
    pub to: u64,
}

/// The span of a group.
fn span_of(groups: &Captures<'_, '_>, group: usize) -> Span
    ensures { result ≡ span_of (captures_span groups.now group) }
{
    match groups.get(group) {
        Some(found) => Span {
            there: true,
            from: found.start() as u64,
            to: found.end() as u64,
        },
        None => Span {
            there: false,
            from: 0,
            to: 0,
        },
    }
}

/// The spans of groups 0 to 9, in this order.
pub(crate) fn spans_of(alloc: Global, groups: &Captures<'_, '_>) -> Result<Many<Span>, OutOfMemory>
    ensures { IfOk result (λ spans. spans ≡ map (λ group. span_of (captures_span groups.now group)) (range_with_len 0 10)) }
{
    let mut spans = Many::new(alloc);
    for group in 0..GROUPS {
        spans.push(span_of(groups, group))?;
    }
    Ok(spans)
}
