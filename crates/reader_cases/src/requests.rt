//! Requests of senders, and the replies to them.

use case_rows::{bytes_of, long_text, number, shown};
use json::{Reader, Scratch};
use sender_json::{
    Asked, Clock, ElementError, Refusal, Request, read, read_element, refusal, reply,
};
use std::alloc::Global;
use std::convert::AsStr;
use zbx_types::{Many, OutOfMemory, Text};

fn word(part: &Option<Text>) -> &str {
    match part {
        Some(text) => text.as_str(),
        None => "none",
    }
}

/// What is said of a moment: its seconds and nanoseconds with a point between.
fn put_clock(out: &mut Text, clock: Clock) -> Result<(), OutOfMemory> {
    match clock {
        Clock::Absent => out.push_str("absent"),
        Clock::Bad => out.push_str("bad"),
        Clock::At(at) => {
            out.push_decimal(u64::from(at.sec))?;
            out.push_str(".")?;
            out.push_decimal(u64::from(at.ns))
        }
    }
}

/// Host, key, value and clock of an asked value.
fn put_asked(out: &mut Text, one: &Asked) -> Result<(), OutOfMemory> {
    out.push_str(word(&one.host))?;
    out.push_str(" ")?;
    out.push_str(word(&one.key))?;
    out.push_str(" ")?;
    out.push_str(word(&one.value))?;
    out.push_str(" ")?;
    put_clock(out, one.clock)
}

/// Each asked value, with `|` between.
fn put_all(out: &mut Text, all: &[Asked]) -> Result<(), OutOfMemory> {
    let mut is_first = true;
    for one in all {
        if !is_first {
            out.push_str("|")?;
        }
        put_asked(out, one)?;
        is_first = false;
    }
    Ok(())
}

/// How many asked values there are, and the last one.
fn put_last(out: &mut Text, all: &[Asked]) -> Result<(), OutOfMemory> {
    out.push_decimal(all.len() as u64)?;
    out.push_str(" with ")?;
    match all.last() {
        Some(last) => put_asked(out, last),
        None => out.push_str("none"),
    }
}

/// What a request is: its asked values, or how many there are with the last one.
fn told(
    alloc: Global,
    request: &Request<Many<Asked>>,
    is_last: bool,
) -> Result<String, OutOfMemory> {
    let mut out = Text::new(alloc);
    match request {
        Request::NotJson => out.push_str("not JSON")?,
        Request::Other => out.push_str("other")?,
        Request::Values(all) if is_last => put_last(&mut out, all.as_slice())?,
        Request::Values(all) => put_all(&mut out, all.as_slice())?,
    }
    shown(alloc, out.as_bytes())
}

/// What a body is.
fn of_body(alloc: Global, body: &[u8], is_last: bool) -> Result<String, OutOfMemory> {
    let request = read(alloc, body)?;
    let made = told(alloc, &request, is_last);
    drop(request);
    made
}

/// What a row's body is.
fn of_row(alloc: Global, input: &str, is_last: bool) -> Result<String, OutOfMemory> {
    let text = long_text(alloc, input)?;
    let body = bytes_of(alloc, text.as_str())?;
    of_body(alloc, body.as_slice(), is_last)
}

/// The host of the first element of a text.
fn first_host(alloc: Global, text: &str, depth: usize) -> Result<String, ElementError> {
    let mut scratch = Scratch::new(alloc);
    let mut reader = Reader::new(text, &mut scratch)?;
    let asked = read_element(alloc, &mut reader, depth)?;
    Ok(String::from_str(alloc, word(&asked.host))?)
}

/// The same of a row, in which the depth stands before the text, or what stands against it.
fn element(alloc: Global, input: &str) -> Result<String, OutOfMemory> {
    let (depth, text) = input.split_once(' ').unwrap_or(("0", input));
    match first_host(alloc, text, number(depth) as usize) {
        Ok(host) => Ok(host),
        Err(failed) => Ok(format!(in alloc; "{failed}")?),
    }
}

/// The reply to three numbers: of the processed and the failed values, and the spent millionths of a second.
fn replied(alloc: Global, input: &str) -> Result<String, OutOfMemory> {
    let (processed, rest) = input.split_once(' ').unwrap_or((input, ""));
    let (failed, spent) = rest.split_once(' ').unwrap_or((rest, ""));
    let reply = reply(
        alloc,
        u64::from(number(processed)),
        u64::from(number(failed)),
        u64::from(number(spent)),
    )?;
    shown(alloc, reply.as_slice())
}

/// The reply to a refusal.
fn refused(alloc: Global, input: &str) -> Result<String, OutOfMemory> {
    let why = match input {
        "not JSON" => Refusal::NotJson,
        _ => Refusal::Unsupported,
    };
    let reply = refusal(alloc, why)?;
    shown(alloc, reply.as_slice())
}

/// What a case of requests comes to.
pub(crate) fn answer(
    alloc: Global,
    kind: &str,
    input: &str,
) -> Result<Option<String>, OutOfMemory> {
    match kind {
        "request" => Ok(Some(of_row(alloc, input, false)?)),
        "long request" => Ok(Some(of_row(alloc, input, true)?)),
        "host of an element" => Ok(Some(element(alloc, input)?)),
        "reply" => Ok(Some(replied(alloc, input)?)),
        "refusal" => Ok(Some(refused(alloc, input)?)),
        _ => Ok(None),
    }
}
