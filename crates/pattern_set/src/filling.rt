//! Outputs that name groups.

ghost use Rattle.std.specs.Prelude.{◌≡◌, ◌<◌, ◌≤◌, ◌+◌, ◌++◌, Some, IfOk, MatchOption, length};
ghost use Rattle.regex.specs.Strings.{captures_span, captures_haystack};
ghost use Rattle.pattern_set.specs.Filling.{names_in_front, text_of, texts_of, filled_by, at_most, GoesOn};

use crate::output::Filled;
use regex::Captures;
use std::alloc::Global;
use zbx_types::{OutOfMemory, Text};

/// The text of a group; empty where the group isn't there.
fn text_of<'h>(groups: &Captures<'_, 'h>, group: usize) -> &'h str
    ensures { result.now ≡ text_of (captures_haystack groups.now) (captures_span groups.now group) }
{
    match groups.get(group) {
        Some(found) => found.as_str(),
        None => "",
    }
}

/// Whether an output begins with a backslash and a digit.
fn names_in_front(output: &[u8]) -> bool
    ensures { result ≡ names_in_front output.now }
{
    match output {
        [byte, next, ..] => *byte == b'\\' && next.is_ascii_digit(),
        _ => false,
    }
}

/// Puts a piece, which stands for so many bytes of an output, behind what was made, and answers that count; None where
/// it doesn't fit within the limit.
fn put(
    made: &mut Vec<u8>,
    piece: &[u8],
    count: usize,
    limit: usize,
) -> Result<Option<usize>, OutOfMemory>
    requires { length made.old.items ≤ limit }
    ensures taken { IfOk result (λ taken. MatchOption taken (limit < length made.old.items + length piece.now) (λ n. (n ≡ count) × (made.new.items ≡ made.old.items ++ piece.now))) }
    ensures within { length made.new.items ≤ limit }
{
    if limit - made.len() < piece.len() {
        return Ok(None);
    }
    made.extend_from_slice(piece)?;
    Ok(Some(count))
}

/// Takes what stands first in an output: a backslash with the digit behind it, which gives the text of that group, or else
/// one byte. Answers how many bytes that is; None where what comes of it doesn't fit within the limit.
fn take(
    made: &mut Vec<u8>,
    groups: &Captures<'_, '_>,
    output: &[u8],
    limit: usize,
) -> Result<Option<usize>, OutOfMemory>
    requires some { 0 < length output.now }
    requires fits { length made.old.items ≤ limit }
    ensures taken { IfOk result (λ taken. MatchOption taken (limit < length (made.old.items ++ filled_by (texts_of groups.now) output.now)) (GoesOn (texts_of groups.now) made.old.items output.now made.new.items)) }
    ensures within { length made.new.items ≤ limit }
{
    if names_in_front(output) {
        let named = text_of(groups, (output[1] - b'0') as usize);
        put(made, named.as_bytes(), 2, limit)
    } else {
        put(made, &output[..1], 1, limit)
    }
}

/// The output with each `\0` to `\9` replaced by the text of that group, and by nothing where the group isn't there. Every
/// other byte stays. No more than the limit is made.
pub(crate) fn filled(
    alloc: Global,
    groups: &Captures<'_, '_>,
    output: &str,
    limit: usize,
) -> Result<Filled, OutOfMemory>
    ensures { IfOk result (λ filled. filled ≡ at_most limit (Some (filled_by (texts_of groups.now) output.now))) }
{
    let mut made = Vec::new(alloc);
    let mut rest = output.as_bytes();
    while !rest.is_empty() {
        let Some(count) = take(&mut made, groups, rest, limit)? else {
            return Ok(Filled::TooLong);
        };
        rest = &rest[count..];
    }
    Ok(Filled::Made(Text::from(String::from_utf8(made).unwrap())))
}
