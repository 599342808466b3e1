//! Which values `intake_front` takes by a configuration with a maintenance.

use crate::front_misfits::second;
use crate::front_runs::{new_disk, opened, opening, piece, ready_with, take_all};
use crate::rows::numbers;
use conf_index::Ready;
use intake_front::{Answer, FrontError};
use outside::WireEvent;
use std::alloc::Global;
use zbx_types::{Entry, Maintenance, Many, Matching, OutOfMemory, Period, Text};

/// The host `h` alone.
fn hosts(alloc: Global) -> Result<Many<Text>, OutOfMemory> {
    let name = Text::of(alloc, "h")?;
    let mut hosts = Many::new(alloc);
    hosts.push(name)?;
    Ok(hosts)
}

/// A period from second 1000 on for five minutes.
fn periods(alloc: Global) -> Result<Many<Period>, OutOfMemory> {
    let mut periods = Many::new(alloc);
    periods.push(Period::Once {
        start: 1000,
        length: 300,
    })?;
    Ok(periods)
}

/// A maintenance of the host `h` that is in force in this period.
fn maintenance(alloc: Global, collect: bool) -> Result<Maintenance, OutOfMemory> {
    let hosts = hosts(alloc)?;
    let periods = periods(alloc)?;
    Ok(Maintenance {
        name: Text::new(alloc),
        since: 0,
        till: 10_000,
        collect,
        hosts,
        groups: Many::new(alloc),
        matching: Matching::And,
        tags: Many::new(alloc),
        periods,
    })
}

/// The configuration of one item with such a maintenance.
fn in_maintenance(alloc: Global, collect: bool) -> Result<Ready, OutOfMemory> {
    let maintenance = maintenance(alloc, collect)?;
    let mut all = Many::new(alloc);
    all.push(maintenance)?;
    ready_with(alloc, all)
}

/// Two connections, and a value of each: the first at a second, and the second, which is this one, at another.
fn events(
    alloc: Global,
    seconds: (u64, u64),
    value: &[u8],
) -> Result<Many<WireEvent>, OutOfMemory> {
    let (before, now) = seconds;
    let mut events = Many::new(alloc);
    put_event(&mut events, opening(1))?;
    put_event(&mut events, opening(2))?;
    put_piece(alloc, &mut events, 1, b"7", before)?;
    put_piece(alloc, &mut events, 2, value, now)?;
    Ok(events)
}

/// Adds an event.
pub(crate) fn put_event(events: &mut Many<WireEvent>, event: WireEvent) -> Result<(), OutOfMemory> {
    events.push(event)?;
    Ok(())
}

/// Adds a piece with a value, at this second.
pub(crate) fn put_piece(
    alloc: Global,
    events: &mut Many<WireEvent>,
    conn: u64,
    value: &[u8],
    sec: u64,
) -> Result<(), OutOfMemory> {
    let piece = piece(alloc, conn, value, second(sec.min(10_000) as u32))?;
    put_event(events, piece)
}

/// How many values an answer added.
fn values_added(answer: &Answer) -> u64 {
    let mut values = 0u64;
    for numbered in answer.added.as_slice() {
        if let Entry::Value { .. } = &numbered.entry {
            values = values.saturating_add(1);
        }
    }
    values
}

/// How many values the last one of these answers adds.
fn last_added(answers: &[Answer]) -> u64 {
    match answers.last() {
        Some(answer) => values_added(answer),
        None => 0,
    }
}

/// How many values the last event adds.
fn taken_behind(alloc: Global, ready: &Ready, events: &[WireEvent]) -> Result<u64, FrontError> {
    let mut front = opened(alloc, ready, new_disk(alloc, 100), Many::new(alloc), 9)?;
    let answers = take_all(alloc, ready, &mut front, events);
    drop(front);
    match answers {
        Ok(answers) => Ok(last_added(answers.as_slice())),
        Err(OutOfMemory) => Err(FrontError::OutOfMemory),
    }
}

/// How many values are taken of one that comes at the second of two seconds, behind one that comes at the first, by the
/// configuration with such a maintenance.
fn taken_in(
    alloc: Global,
    collect: bool,
    seconds: (u64, u64),
    value: &[u8],
) -> Result<u64, FrontError> {
    let events = events(alloc, seconds, value)?;
    let ready = in_maintenance(alloc, collect)?;
    let taken = taken_behind(alloc, &ready, events.as_slice());
    drop(ready);
    taken
}

/// How many values are taken where the input is two seconds and a value, as far as its end, maybe with a clock; with a
/// maintenance that collects, or one that doesn't.
pub(crate) fn tell_taken(alloc: Global, collect: bool, input: &str) -> Result<Text, OutOfMemory> {
    let (seconds, value) = input.split_once(", ").unwrap_or((input, ""));
    let taken = taken_in(alloc, collect, numbers(seconds), value.as_bytes());
    Ok(Text::from(format!(in alloc; "{taken:?}")?))
}
