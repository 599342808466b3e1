//! The macros of names of events and of values of tags.

ghost use Rattle.std.specs.Prelude.{◌≡◌, ◌<◌, IfOk, length, option_map, option_and_then};
ghost use Rattle.std.specs.Option.{option_or};
ghost use Rattle.zbx_types.specs.Blanks.{without_front};
ghost use Rattle.event_text.specs.Forms.{digit_place, place_with, place_of, item_name, item_at, unquoted, closed_by, argument_at, argument};
ghost use Rattle.event_text.specs.Forms.{with_output, with_pattern, filled_name, filled_at, value_at, host_at, macro_at};

use crate::braces::{ascii_first, behind};
use crate::quotes::{unquoted, up_to};
use std::alloc::Global;
use std::convert::AsStr;
use zbx_types::{OutOfMemory, Text};

/// A macro in a title or in a tag's value.
#[derive(Drop)]
pub(crate) enum Macro {
    /// The host's name.
    Host,
    /// The value of the item of the history call with this number, from 1 to 9.
    Item(u8),
    /// An output with the groups of a pattern's leftmost match in such a value.
    Filled {
        place: u8,
        pattern: Text,
        output: Text,
    },
}

/// The digit of an item macro, which stands in front of a text, and what follows the brace behind it.
fn digit_place(digit: u8, rest: &str) -> Option<(u8, &str)>
    ensures { option_map (λ r. (r.0, r.1.now)) result ≡ digit_place digit rest.now }
{
    if b'1' <= digit && digit <= b'9' {
        let after = behind(rest, "}")?;
        return Some((digit - b'0', after));
    }
    None
}

/// The number of an item macro whose name is followed by this byte.
fn place_with(first: u8, rest: &str) -> Option<(u8, &str)>
    ensures { option_map (λ r. (r.0, r.1.now)) result ≡ place_with (first, rest.now) }
{
    if first == b'}' {
        return Some((1, rest));
    }
    digit_place(first, rest)
}

/// The number of an item macro whose name stands before, and what follows it.
fn place_of(text: &str) -> Option<(u8, &str)>
    ensures { option_map (λ r. (r.0, r.1.now)) result ≡ place_of text.now }
{
    let (first, rest) = ascii_first(text)?;
    place_with(first, rest)
}

/// What stands behind the name of an item macro.
fn item_name(text: &str) -> Option<&str>
    ensures { option_map (λ r. r.now) result ≡ item_name text.now }
{
    match behind(text, "ITEM.VALUE") {
        Some(rest) => Some(rest),
        None => behind(text, "ITEM.LASTVALUE"),
    }
}

/// The number of the item macro behind a brace, and what follows it.
#[tactic(auto, unfolding(crate::specs::Forms::item_at))]
fn item_at(text: &str) -> Option<(u8, &str)>
    ensures { option_map (λ r. (r.0, r.1.now)) result ≡ item_at text.now }
{
    place_of(item_name(text)?)
}

/// A text without the blanks that it begins with.
fn without_front(text: &str) -> &str
    ensures { result.now ≡ without_front text.now }
{
    let mut rest = text;
    while let Some((first, behind)) = ascii_first(rest)
        && matches!(first, b' ' | b'\t' | b'\r' | b'\n')
    {
        rest = behind;
    }
    rest
}

/// An argument in quotes with a mark right behind it, and what follows the mark.
fn quoted<'a>(
    alloc: Global,
    text: &'a str,
    mark: &str,
) -> Result<Option<(Text, &'a str)>, OutOfMemory>
    ensures { IfOk result (λ found. option_map (λ r. (r.0, r.1.now)) found ≡ option_and_then (closed_by mark.now) (unquoted text.now)) }
{
    let Some((value, rest)) = unquoted(alloc, text)? else {
        return Ok(None);
    };
    match behind(rest, mark) {
        Some(after) => Ok(Some((value, after))),
        None => Ok(None),
    }
}

/// An argument that begins here.
fn argument_at<'a>(
    alloc: Global,
    text: &'a str,
    mark: &str,
) -> Result<Option<(Text, &'a str)>, OutOfMemory>
    requires { 0 < length mark.now }
    ensures { IfOk result (λ found. option_map (λ r. (r.0, r.1.now)) found ≡ argument_at mark.now text.now) }
{
    match behind(text, "\"") {
        Some(rest) => quoted(alloc, rest, mark),
        None => up_to(alloc, text, mark),
    }
}

/// An argument, blanks before which are dropped.
#[tactic(auto, unfolding(crate::specs::Forms::argument))]
fn argument<'a>(
    alloc: Global,
    text: &'a str,
    mark: &str,
) -> Result<Option<(Text, &'a str)>, OutOfMemory>
    requires { 0 < length mark.now }
    ensures { IfOk result (λ found. option_map (λ r. (r.0, r.1.now)) found ≡ argument mark.now text.now) }
{
    argument_at(alloc, without_front(text), mark)
}

/// The form whose number and pattern are read, and what follows it.
#[tactic(auto, unfolding(crate::specs::Forms::with_output))]
fn with_output(
    alloc: Global,
    place: u8,
    pattern: Text,
    text: &str,
) -> Result<Option<(Macro, &str)>, OutOfMemory>
    ensures { IfOk result (λ found. option_map (λ r. (r.0, r.1.now)) found ≡ with_output place pattern text.now) }
{
    match argument(alloc, text, ")}")? {
        Some((output, rest)) => Ok(Some((
            Macro::Filled {
                place,
                pattern,
                output,
            },
            rest,
        ))),
        None => Ok(None),
    }
}

/// The form whose number is read, and what follows it.
#[tactic(auto, unfolding(crate::specs::Forms::with_pattern))]
fn with_pattern(alloc: Global, place: u8, text: &str) -> Result<Option<(Macro, &str)>, OutOfMemory>
    ensures { IfOk result (λ found. option_map (λ r. (r.0, r.1.now)) found ≡ with_pattern place text.now) }
{
    match argument(alloc, text, ",")? {
        Some((pattern, rest)) => with_output(alloc, place, pattern, rest),
        None => Ok(None),
    }
}

/// The number of the item macro of a regular expression, and what stands behind its opening parenthesis.
fn filled_name(text: &str) -> Option<(u8, &str)>
    ensures { option_map (λ r. (r.0, r.1.now)) result ≡ filled_name text.now }
{
    let (place, rest) = item_at(behind(text, "{")?)?;
    let arguments = behind(rest, ".regsub(")?;
    Some((place, arguments))
}

/// A regular expression on an item's value behind a brace, and what follows it.
#[tactic(auto, unfolding(crate::specs::Forms::filled_at))]
fn filled_at(alloc: Global, text: &str) -> Result<Option<(Macro, &str)>, OutOfMemory>
    ensures { IfOk result (λ found. option_map (λ r. (r.0, r.1.now)) found ≡ filled_at text.now) }
{
    match filled_name(text) {
        Some((place, rest)) => with_pattern(alloc, place, rest),
        None => Ok(None),
    }
}

/// The host's name or an item's value behind a brace, and what follows it.
#[tactic(auto, unfolding(crate::specs::Forms::host_at, crate::specs::Forms::value_at))]
fn simple_at(text: &str) -> Option<(Macro, &str)>
    ensures { option_map (λ r. (r.0, r.1.now)) result ≡ option_or (host_at text.now) (value_at text.now) }
{
    if let Some(rest) = behind(text, "HOST.NAME}") {
        return Some((Macro::Host, rest));
    }
    let (place, rest) = item_at(text)?;
    Some((Macro::Item(place), rest))
}

/// The macro behind a brace, and what follows it.
#[tactic(auto, unfolding(crate::specs::Forms::macro_at))]
pub(crate) fn macro_at(alloc: Global, text: &str) -> Result<Option<(Macro, &str)>, OutOfMemory>
    ensures { IfOk result (λ found. option_map (λ r. (r.0, r.1.now)) found ≡ macro_at text.now) }
{
    match simple_at(text) {
        Some(found) => Ok(Some(found)),
        None => filled_at(alloc, text),
    }
}
