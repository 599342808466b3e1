//! The asked value of what is kept of an element.

ghost use Rattle.std.specs.Prelude.{◌≡◌, ◌<◌, ◌≤◌, IfOk, IfSome, option_map, option_and_then};
ghost use Rattle.serde_json.specs.Data.{Data};
ghost use Rattle.serde_json.specs.Find.{as_str};
ghost use Rattle.sender_json.specs.Requests.{digits_within, whole_within, value_text, asked_of};
ghost use Rattle.sender_json.specs.Requests.{ns_of, moment_of, clock_of, is_one_at};
ghost use Rattle.sender_json.specs.Seen.{data_of, HoldsParts};

use crate::asked::{Asked, Clock};
use crate::element::Parts;
use crate::seen::Seen;
use std::alloc::Global;
use zbx_types::{Moment, OutOfMemory, Text, all_digits, number_within};

const MOST_SECONDS: u32 = 4_294_967_295;

const MOST_NANOSECONDS: u32 = 999_999_999;

/// The text that was kept.
pub(crate) fn text_of<'a>(seen: Option<Seen<'a>>) -> Option<&'a str>
    ensures { option_map (λ s. s.now) result ≡ option_and_then as_str (option_map data_of seen.entry) }
{
    match seen? {
        Seen::Text(text) => Some(text),
        Seen::Unsigned(_) | Seen::Negative(_) | Seen::Other => None,
    }
}

pub(crate) fn copied(alloc: Global, seen: Option<Seen<'_>>) -> Result<Option<Text>, OutOfMemory>
    ensures { IfOk result (λ text. text ≡ option_and_then as_str (option_map data_of seen.entry)) }
{
    match text_of(seen) {
        Some(text) => Ok(Some(Text::of(alloc, text)?)),
        None => Ok(None),
    }
}

/// The text of an element's value.
#[tactic(auto, unfolding(crate::specs::Requests::value_text))]
fn value_of(alloc: Global, seen: Seen<'_>) -> Result<Option<Text>, OutOfMemory>
    ensures { IfOk result (λ text. text ≡ value_text (data_of seen.entry)) }
{
    match seen {
        Seen::Text(text) => Ok(Some(Text::of(alloc, text)?)),
        Seen::Unsigned(n) => Ok(Some(Text::from(n.to_string(alloc)?))),
        Seen::Negative(n) => Ok(Some(Text::from(n.to_string(alloc)?))),
        Seen::Other => Ok(None),
    }
}

fn value_at(alloc: Global, seen: Option<Seen<'_>>) -> Result<Option<Text>, OutOfMemory>
    ensures { IfOk result (λ text. text ≡ option_and_then value_text (option_map data_of seen.entry)) }
{
    match seen {
        Some(seen) => value_of(alloc, seen),
        None => Ok(None),
    }
}

#[tactic(auto, unfolding(crate::specs::Requests::digits_within))]
fn digits_within(most: u32, text: &[u8]) -> Option<u32>
    ensures value { result ≡ digits_within most text.now }
    ensures within { IfSome result (λ n. n ≤ most) }
{
    if text.is_empty() || !all_digits(text) {
        return None;
    }
    number_within(most, text)
}

/// The whole number that a value is or writes, up to the greatest.
#[tactic(auto, unfolding(crate::specs::Requests::whole_within))]
fn whole_within(most: u32, seen: Seen<'_>) -> Option<u32>
    ensures value { result ≡ whole_within most (data_of seen.entry) }
    ensures within { IfSome result (λ n. n ≤ most) }
{
    match seen {
        Seen::Text(text) => digits_within(most, text.as_bytes()),
        Seen::Unsigned(n) => {
            if n <= u64::from(most) {
                Some(n as u32)
            } else {
                None
            }
        }
        Seen::Negative(_) | Seen::Other => None,
    }
}

/// The nanoseconds of an element.
#[tactic(auto, unfolding(crate::specs::Requests::ns_of))]
fn ns_of(ns: Option<Seen<'_>>) -> Option<u32>
    ensures value { result ≡ ns_of (option_map data_of ns.entry) }
    ensures within { IfSome result (λ n. n < 1000000000) }
{
    match ns {
        Some(ns) => whole_within(MOST_NANOSECONDS, ns),
        None => Some(0),
    }
}

#[tactic(auto, unfolding(crate::specs::Requests::moment_of))]
fn moment_of(sec: Option<u32>, ns: Option<u32>) -> Clock
    requires { IfSome ns (λ n. n < 1000000000) }
    ensures { result ≡ moment_of sec ns }
{
    match (sec, ns) {
        (Some(sec), Some(ns)) => Clock::At(Moment { sec, ns }),
        (Some(_), None) | (None, _) => Clock::Bad,
    }
}

/// What an element says of its moment.
#[tactic(auto, unfolding(crate::specs::Requests::clock_of))]
fn clock_of(clock: Option<Seen<'_>>, ns: Option<Seen<'_>>) -> Clock
    ensures { result ≡ clock_of (option_map data_of clock.entry) (option_map data_of ns.entry) }
{
    match clock {
        Some(clock) => moment_of(whole_within(MOST_SECONDS, clock), ns_of(ns)),
        None => Clock::Absent,
    }
}

/// Whether the whole number 1 was kept.
#[tactic(auto, unfolding(crate::specs::Requests::is_one_at, crate::specs::Requests::is_one))]
pub(crate) fn is_one(seen: Option<Seen<'_>>) -> bool
    ensures { result ≡ is_one_at (option_map data_of seen.entry) }
{
    match seen {
        Some(Seen::Unsigned(n)) => n == 1,
        Some(Seen::Text(_) | Seen::Negative(_) | Seen::Other) | None => false,
    }
}

/// The asked value of an element.
pub(crate) fn asked_of(alloc: Global, parts: &Parts<'_>) -> Result<Asked, OutOfMemory>
    ensures { IfOk result (λ asked. (d : Data) → HoldsParts parts.now d → asked ≡ asked_of d) }
{
    Ok(Asked {
        host: copied(alloc, parts.host)?,
        key: copied(alloc, parts.key)?,
        value: value_at(alloc, parts.value)?,
        clock: clock_of(parts.clock, parts.ns),
    })
}
