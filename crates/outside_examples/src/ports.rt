//! What calls of a source, a sink or a wire answer, as a text.

use outside::{Failed, Sink, Source, Trouble, Wire, WireEvent};
use std::alloc::Global;
use zbx_types::{OutOfMemory, Text};

/// Adds a space and a number.
pub(crate) fn put_number(told: &mut Text, number: u64) -> Result<(), OutOfMemory> {
    told.push_str(" ")?;
    told.push_decimal(number)
}

/// Adds bytes, which are a text.
fn put_bytes(told: &mut Text, bytes: &[u8]) -> Result<(), OutOfMemory> {
    told.push_str(str::from_utf8(bytes).unwrap_or("?"))
}

/// Adds what a read of at most two bytes gives, a comma behind it.
fn put_read<S: Source>(told: &mut Text, source: &mut S) -> Result<(), OutOfMemory> {
    let mut into = [0; 2];
    match source.read(&mut into) {
        Ok(count) => put_bytes(told, into.get(..count).unwrap_or(b"??"))?,
        Err(Failed) => told.push_str("failed")?,
    }
    told.push_str(",")
}

/// Adds what so many reads of at most two bytes give, and how many calls failed.
pub(crate) fn put_reads<S: Source>(
    told: &mut Text,
    source: &mut S,
    calls: u64,
) -> Result<(), OutOfMemory> {
    for _ in 0..calls {
        put_read(told, source)?;
    }
    put_number(told, source.faults())
}

/// Adds what a call answered that gives nothing.
fn put_done(told: &mut Text, done: Result<(), Failed>) -> Result<(), OutOfMemory> {
    told.push_str(match done {
        Ok(()) => "ok",
        Err(Failed) => "failed",
    })
}

/// Adds the place at which a sink differs.
fn put_place(told: &mut Text, found: Result<Option<u64>, Failed>) -> Result<(), OutOfMemory> {
    match found {
        Ok(Some(place)) => told.push_decimal(place),
        Ok(None) => told.push_str("same"),
        Err(Failed) => told.push_str("failed"),
    }
}

/// Adds how much of a piece a sink took.
fn put_count(told: &mut Text, count: Result<usize, Failed>) -> Result<(), OutOfMemory> {
    match count {
        Ok(count) => told.push_decimal(count as u64),
        Err(Failed) => told.push_str("failed"),
    }
}

/// The number that a digit writes.
fn digit(byte: u8) -> u64 {
    u64::from(byte.saturating_sub(b'0'))
}

/// Adds what a call of a sink answers, a comma behind it. `?` with a digit and bytes compares these from that place on, `-`
/// with a digit cuts the sink there, `!` syncs it, and anything else is a piece that is written.
fn put_call<K: Sink>(told: &mut Text, sink: &mut K, call: &str) -> Result<(), OutOfMemory> {
    match call.as_bytes() {
        [b'?', at, bytes @ ..] => put_place(told, sink.differs(digit(*at), bytes))?,
        [b'-', to] => put_done(told, sink.cut(digit(*to)))?,
        [b'!'] => put_done(told, sink.sync())?,
        piece => put_count(told, sink.write(piece))?,
    }
    told.push_str(",")
}

/// Adds what each call of a sink answers, the calls having commas between them; how much it holds then, and how many calls
/// failed.
pub(crate) fn put_calls<K: Sink>(
    told: &mut Text,
    sink: &mut K,
    calls: &str,
) -> Result<(), OutOfMemory> {
    for call in calls.split(',') {
        put_call(told, sink, call)?;
    }
    put_number(told, sink.held())?;
    put_number(told, sink.faults())
}

/// Adds what a call of a wire's `next` answered, as a line.
fn put_answer(
    alloc: Global,
    told: &mut Text,
    answer: &Result<WireEvent, Trouble>,
) -> Result<(), OutOfMemory> {
    let line = match answer {
        Ok(event) => format!(in alloc; "{event:?}\n")?,
        Err(trouble) => format!(in alloc; "{trouble:?}\n")?,
    };
    told.push_str(line.as_str())
}

/// Adds what so many calls of a wire's `next` answer, a line each.
pub(crate) fn put_answers<W: Wire>(
    alloc: Global,
    told: &mut Text,
    wire: &mut W,
    calls: u64,
) -> Result<(), OutOfMemory> {
    for _ in 0..calls {
        let answer = wire.next(alloc);
        let put = put_answer(alloc, told, &answer);
        drop(answer);
        put?;
    }
    Ok(())
}
