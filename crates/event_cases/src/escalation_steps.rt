//! What actions do about a problem, and the lines of records.

use crate::parts::{Came, Piece, add_word, both, matching, moment, number, one, pieces, split};
use crate::suppression::maintained;
use case_rows::bytes_of;
use escalations::{due, first, recovered};
use event_text::{line, lines};
use std::alloc::Global;
use std::mem::replace;
use zbx_types::{Action, Bytes, Conf, EventId, Many, Operation, OutOfMemory, Rec, Sending, Text};

/// Whom a message is for: nobody where the text is empty.
fn recipients(alloc: Global, text: &str) -> Result<Many<Text>, OutOfMemory> {
    if text.is_empty() {
        return Ok(Many::new(alloc));
    }
    one(alloc, Text::of(alloc, text))
}

/// A message with a body to a recipient.
fn sending(alloc: Global, recipient: &str, body: &str) -> Result<Sending, OutOfMemory> {
    let texts = both(Text::of(alloc, "{EVENT.NAME}"), Text::of(alloc, body));
    let (recipients, texts) = both(recipients(alloc, recipient), texts)?;
    let (subject, body) = texts;
    Ok(Sending {
        recipients,
        subject,
        body,
    })
}

/// The reader of operations, as `1-2:ops:b1`: the first step and the last, a recipient and a body.
struct OperationReader;

impl Piece for OperationReader {
    type Made = Operation;

    fn read(alloc: Global, _place: u32, word: &str) -> Result<Operation, OutOfMemory> {
        let (steps, rest) = split(word, ':');
        let (from, to) = split(steps, '-');
        let (recipient, body) = split(rest, ':');
        let Sending {
            recipients,
            subject,
            body,
        } = sending(alloc, recipient, body)?;
        Ok(Operation {
            from: number(from),
            to: number(to),
            duration: 0,
            recipients,
            subject,
            body,
        })
    }
}

/// The action `act` of operations that take a minute each, as `pauses OPERATION OPERATION`, or with another word before; the
/// message `ok` goes to `ops` when the problem ends.
fn action(alloc: Global, text: &str) -> Result<Action, OutOfMemory> {
    let (pauses, words) = split(text, ' ');
    let recovery = one(alloc, sending(alloc, "ops", "ok"));
    let sent = both(pieces::<OperationReader>(alloc, words, ' '), recovery);
    let (name, sent) = both(Text::of(alloc, "act"), sent)?;
    let (operations, recovery) = sent;
    Ok(Action {
        name,
        matching: matching("and"),
        conditions: Many::new(alloc),
        step_duration: 60,
        pause_suppressed: pauses == "pauses",
        operations,
        recovery,
    })
}

/// A configuration with such an action, whose first trigger is suppressed from second 235 till 535.
fn acting(alloc: Global, text: &str) -> Result<Conf, OutOfMemory> {
    let actions = one(alloc, action(alloc, text));
    let (actions, mut made) = both(actions, maintained(alloc, "yes and"))?;
    drop(replace(&mut made.actions, actions));
    Ok(made)
}

/// The problem `hot` of that trigger, whose event names another id.
fn hot(alloc: Global) -> Result<Rec, OutOfMemory> {
    let (host, name) = both(Text::of(alloc, "other"), Text::of(alloc, "hot"))?;
    Ok(Rec::Problem {
        event: EventId {
            number: 3,
            trigger: 2,
        },
        now: moment("120/0"),
        severity: 3,
        suppressed: false,
        host,
        trigger: Text::new(alloc),
        name,
        tags: Many::new(alloc),
    })
}

/// The reader of steps that ran, as `3:act:2:480/0`: the number of the event's entry, the action, the step and the moment.
struct RanReader;

impl Piece for RanReader {
    type Made = Rec;

    fn read(alloc: Global, _place: u32, word: &str) -> Result<Rec, OutOfMemory> {
        let (first, rest) = split(word, ':');
        let (action, rest) = split(rest, ':');
        let (step, at) = split(rest, ':');
        let action = Text::of(alloc, action)?;
        Ok(Rec::Step {
            event: EventId {
                number: number(first) as u64,
                trigger: 2,
            },
            action,
            step: number(step),
            now: moment(at),
        })
    }
}

/// Adds the lines of a text.
fn add_lines(made: &mut String, text: &str) -> Result<(), OutOfMemory> {
    for line in text.split('\n') {
        if !line.is_empty() {
            add_word(made, line)?;
        }
    }
    Ok(())
}

/// The lines in bytes, with blanks between; none where they are no text.
fn as_words(alloc: Global, bytes: &[u8]) -> Result<String, OutOfMemory> {
    let mut made = String::new(alloc);
    add_lines(&mut made, str::from_utf8(bytes).unwrap_or("")).and(Ok(made))
}

fn lines_of(alloc: Global, records: &[Rec]) -> Result<String, OutOfMemory> {
    let mut out = Bytes::new(alloc);
    let put = lines(alloc, records, &mut out);
    put.and(as_words(alloc, out.as_slice()))
}

/// What comes of the problem behind the steps and at the moment in `STEPS;MOMENT`.
fn made_of(
    alloc: Global,
    conf: &Conf,
    kind: &str,
    problem: &Rec,
    text: &str,
) -> Result<Many<Rec>, OutOfMemory> {
    let (steps, at) = split(text, ';');
    let steps = pieces::<RanReader>(alloc, steps, ' ')?;
    match kind {
        "first" => first(alloc, conf, problem, moment(at)),
        "due" => due(alloc, conf, problem, steps.as_slice(), moment(at)),
        _ => recovered(alloc, conf, problem, steps.as_slice(), moment(at)),
    }
}

fn made(alloc: Global, conf: &Conf, kind: &str, text: &str) -> Result<Many<Rec>, OutOfMemory> {
    let problem = hot(alloc)?;
    let made = made_of(alloc, conf, kind, &problem, text);
    drop(problem);
    made
}

/// The lines that come in `ACTION;STEPS;MOMENT`.
fn told(alloc: Global, kind: &str, input: &str) -> Result<String, OutOfMemory> {
    let (words, rest) = split(input, ';');
    let conf = acting(alloc, words)?;
    let made = made(alloc, &conf, kind, rest);
    drop(conf);
    lines_of(alloc, made?.as_slice())
}

/// The text that a word writes, as `a%0ab`.
fn text_of(alloc: Global, word: &str) -> Result<Text, OutOfMemory> {
    let bytes = bytes_of(alloc, word)?;
    Text::of(alloc, str::from_utf8(bytes.as_slice()).unwrap_or(""))
}

/// A failure, as `NUMBER HOST KEY WHY`.
fn failure(alloc: Global, input: &str) -> Result<Rec, OutOfMemory> {
    let (first, rest) = split(input, ' ');
    let (host, rest) = split(rest, ' ');
    let (key, why) = split(rest, ' ');
    let names = both(text_of(alloc, host), text_of(alloc, key));
    let (names, why) = both(names, text_of(alloc, why))?;
    let (host, key) = names;
    Ok(Rec::Failure {
        number: first.parse().unwrap_or(0),
        host,
        key,
        why,
    })
}

/// The line of a failure, behind a line `before`.
fn failure_line(alloc: Global, input: &str) -> Result<String, OutOfMemory> {
    let out = Bytes::of(alloc, b"before\n");
    let (failure, mut out) = both(failure(alloc, input), out)?;
    let put = line(alloc, &failure, &mut out);
    drop(failure);
    put.and(as_words(alloc, out.as_slice()))
}

/// What a case of escalations comes to.
pub(crate) fn answer(alloc: Global, kind: &str, input: &str) -> Option<Came> {
    match kind {
        "first" | "due" | "recovered" => Some(told(alloc, kind, input)),
        "failure" => Some(failure_line(alloc, input)),
        _ => None,
    }
}
