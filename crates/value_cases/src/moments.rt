//! Moments, local clocks and local days.

use local_time::{date_in, date_of, local_day, monday_of, second_of};
use std::alloc::Global;
use zbx_types::{Moment, OutOfMemory};

/// The moment of a text, its seconds, and its nanoseconds behind a colon.
pub(crate) fn moment_of(text: &str) -> Moment {
    let (sec, ns) = text.split_once(':').unwrap_or((text, "0"));
    let ns: u32 = ns.parse().unwrap_or(0);
    Moment {
        sec: sec.parse().unwrap_or(0),
        ns: ns % 1_000_000_000,
    }
}

/// A moment as such a text.
fn shown(alloc: Global, moment: Moment) -> Result<String, OutOfMemory> {
    Ok(format!(in alloc; "{}:{}", moment.sec, moment.ns)?)
}

/// The part of an input before its first blank, and what is behind it.
fn both(input: &str) -> (&str, &str) {
    input.split_once(' ').unwrap_or((input, ""))
}

/// Whether a moment is past another one by so many seconds.
fn is_past(input: &str) -> bool {
    let (moment, rest) = both(input);
    let (other, seconds) = both(rest);
    moment_of(moment).is_past(moment_of(other), seconds.parse().unwrap_or(0))
}

/// What a case of two moments comes to.
fn of_moments(alloc: Global, kind: &str, input: &str) -> Result<Option<String>, OutOfMemory> {
    let (one, other) = both(input);
    let (one, other) = (moment_of(one), moment_of(other));
    match kind {
        "later" => Ok(Some(shown(alloc, one.later(other))?)),
        "earlier" => Ok(Some(shown(alloc, one.earlier(other))?)),
        "since" => Ok(Some(format!(in alloc; "{}", one.since(other))?)),
        "half_minutes" => Ok(Some(format!(in alloc; "{}", one.half_minutes())?)),
        "is_past" => Ok(Some(format!(in alloc; "{}", is_past(input))?)),
        "is_after_zero" => Ok(Some(format!(in alloc; "{}", Moment::zero() < one)?)),
        _ => Ok(None),
    }
}

/// A whole number, or `out of range`.
fn told(alloc: Global, number: Option<i64>) -> Result<String, OutOfMemory> {
    Ok(match number {
        Some(number) => format!(in alloc; "{number}")?,
        None => String::from_str(alloc, "out of range")?,
    })
}

/// The number of the local day of a second, at an offset.
fn day_at(input: &str) -> Option<i64> {
    let (offset, second) = both(input);
    let second: i64 = second.parse().unwrap_or(0);
    if second < -4_294_967_296 || 4_294_967_296 < second {
        return None;
    }
    Some(local_day(offset.parse().unwrap_or(0), second))
}

/// The number of the Monday of a day's week.
fn monday(input: &str) -> Option<i64> {
    let day: i64 = input.parse().unwrap_or(0);
    if day < -100_000 || 100_000 < day {
        return None;
    }
    Some(monday_of(day))
}

/// The second at which a local day is so many seconds old: an offset, the day and these.
fn second_at(input: &str) -> Option<i64> {
    let (offset, rest) = both(input);
    let (day, at) = both(rest);
    let day: i64 = day.parse().unwrap_or(0);
    if day < -10_000_000 || 10_000_000 < day {
        return None;
    }
    Some(second_of(offset.parse().unwrap_or(0), day, at.parse().unwrap_or(0)))
}

/// The number in its month of a local day.
fn number_in_month(input: &str) -> Option<i64> {
    let day: i64 = input.parse().unwrap_or(0);
    if day < -1_000_000 || 1_000_000 < day {
        return None;
    }
    Some(i64::from(date_of(day).day))
}

/// The date with a year, a month and a number in it, or `none`.
fn date(alloc: Global, input: &str) -> Result<String, OutOfMemory> {
    let (year, rest) = both(input);
    let (month, number) = both(rest);
    let date = date_in(
        year.parse().unwrap_or(0),
        month.parse().unwrap_or(0),
        number.parse().unwrap_or(0),
    );
    Ok(match date {
        Some(date) => format!(in alloc; "{} {} {}", date.year, date.month, date.day)?,
        None => String::from_str(alloc, "none")?,
    })
}

/// What a case of moments, clocks and days comes to.
pub(crate) fn answer(
    alloc: Global,
    kind: &str,
    input: &str,
) -> Result<Option<String>, OutOfMemory> {
    match kind {
        "local_day" => Ok(Some(told(alloc, day_at(input))?)),
        "monday_of" => Ok(Some(told(alloc, monday(input))?)),
        "second_of" => Ok(Some(told(alloc, second_at(input))?)),
        "day_of_month" => Ok(Some(told(alloc, number_in_month(input))?)),
        "date_in" => Ok(Some(date(alloc, input)?)),
        _ => of_moments(alloc, kind, input),
    }
}
