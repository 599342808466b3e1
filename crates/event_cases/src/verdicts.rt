//! Verdicts on triggers, and what stays open behind records.

ghost use Rattle.std.specs.Prelude.{◌≡◌, Some};

use crate::parts::{
    Came, Links, Piece, add_each, add_number, both, configuration, moment, number, numbers, pieces,
    problem, split, tags, told, trigger,
};
use std::alloc::Global;
use trigger_state::{InForce, Open, Opens, TriggerCells, Verdict, verdict};
use zbx_types::{
    Cause2, Conf, EventId, Fix, Many, Moment, OutOfMemory, Rec, RecoveryMode, Text, Trigger,
    depths_fall, masters,
};

fn recovery(word: &str) -> RecoveryMode {
    match word {
        "recovery_expression" => RecoveryMode::RecoveryExpression,
        "none" => RecoveryMode::Nothing,
        _ => RecoveryMode::Expression,
    }
}

/// The reader of triggers, as `RECOVERY:DEPENDS:DEPTH:TAG`; one with a closing tag makes several problems.
struct ClosingReader;

impl Piece for ClosingReader {
    type Made = Trigger;

    fn read(alloc: Global, _place: u32, word: &str) -> Result<Trigger, OutOfMemory> {
        let (mode, rest) = split(word, ':');
        let (depends, rest) = split(rest, ':');
        let (depth, tag) = split(rest, ':');
        let (depends, close_tag) = both(numbers(alloc, depends), Text::of(alloc, tag))?;
        let links = Links {
            host: 1,
            call_items: Many::new(alloc),
            depends,
            depth: number(depth),
        };
        Ok(trigger(alloc, links, Many::new(alloc), recovery(mode), close_tag))
    }
}

/// A configuration of such triggers.
fn with_triggers(alloc: Global, text: &str) -> Result<Conf, OutOfMemory> {
    let made = pieces::<ClosingReader>(alloc, text, ' ')?;
    let none = Many::new(alloc);
    Ok(configuration(
        alloc,
        Many::new(alloc),
        Many::new(alloc),
        made,
        none,
        Many::new(alloc),
    ))
}

fn at(sec: u32) -> Moment {
    Moment { sec, ns: 0 }
}

/// An event, as `3-1`.
pub(crate) fn event(word: &str) -> EventId {
    let (first, trigger) = split(word, '-');
    EventId {
        number: number(first) as u64,
        trigger: number(trigger),
    }
}

fn ran(alloc: Global, event: EventId, text: &str) -> Result<Rec, OutOfMemory> {
    let (action, step) = split(text, ' ');
    let action = Text::of(alloc, action)?;
    Ok(Rec::Step {
        event,
        action,
        step: number(step),
        now: at(100),
    })
}

/// A record, as `problem 3-1 svc=b`, `recovery 3-1` or `step 3-1 mail 2`.
fn record(alloc: Global, words: &str) -> Result<Rec, OutOfMemory> {
    let (kind, rest) = split(words, ' ');
    let (of, rest) = split(rest, ' ');
    match kind {
        "problem" => problem(alloc, event(of), "", rest),
        "step" => ran(alloc, event(of), rest),
        _ => Ok(Rec::Recovery {
            event: event(of),
            by: 9,
            now: at(100),
            cause: Cause2::Expression,
        }),
    }
}

fn take(
    alloc: Global,
    stage: &InForce,
    cells: &mut TriggerCells,
    words: &str,
) -> Result<(), OutOfMemory> {
    let record = record(alloc, words)?;
    let taken = cells.absorb(alloc, stage, &record);
    drop(record);
    taken
}

/// Takes records, with commas between.
fn take_all(
    alloc: Global,
    stage: &InForce,
    cells: &mut TriggerCells,
    text: &str,
) -> Result<(), OutOfMemory> {
    for words in text.split(',') {
        if !words.is_empty() {
            take(alloc, stage, cells, words)?;
        }
    }
    Ok(())
}

/// What is open behind records, with commas between.
fn behind(alloc: Global, stage: &InForce, text: &str) -> Result<TriggerCells, OutOfMemory> {
    let mut cells = TriggerCells::new(alloc, stage.conf())?;
    take_all(alloc, stage, &mut cells, text).and(Ok(cells))
}

/// Adds the numbers of events.
fn add_events(alloc: Global, text: &mut String, events: &[EventId]) -> Result<(), OutOfMemory> {
    for event in events {
        add_number(alloc, text, event.number)?;
    }
    Ok(())
}

/// The events that a verdict closes.
fn closed(alloc: Global, events: &[EventId]) -> Result<String, OutOfMemory> {
    let mut text = told(alloc, "close")?;
    add_events(alloc, &mut text, events).and(Ok(text))
}

fn said(alloc: Global, made: &Verdict) -> Result<String, OutOfMemory> {
    match made {
        Verdict::Nothing => told(alloc, "nothing"),
        Verdict::New => told(alloc, "new"),
        Verdict::Close(events) => closed(alloc, events.as_slice()),
    }
}

/// The number whose millionths are those of a number: this one.
fn taken_back(number: Fix) -> Option<Fix>
    ensures { result ≡ Some number }
{
    Fix::of_raw(number.raw())
}

/// The value of an expression, and none where a word writes no number.
fn value_of(word: &str) -> Option<Fix> {
    Fix::read(word.as_bytes()).and_then(taken_back)
}

/// The verdict that is asked for as `TRIGGER P R value TAGS`, or with `tick` in place of `value`: P and R are the values of
/// the expressions, and anything but a number stands for none.
fn judged(
    alloc: Global,
    conf: &Conf,
    cells: &TriggerCells,
    asked: &str,
) -> Result<Verdict, OutOfMemory> {
    let (id, rest) = split(asked, ' ');
    let (p, rest) = split(rest, ' ');
    let (r, rest) = split(rest, ' ');
    let (at, words) = split(rest, ' ');
    if !depths_fall(conf) {
        return Ok(Verdict::Nothing);
    }
    let tags = tags(alloc, words)?;
    verdict(
        alloc,
        conf,
        cells,
        number(id),
        value_of(p),
        value_of(r),
        tags.as_slice(),
        at == "value",
    )
}

fn judged_behind(alloc: Global, stage: &InForce, text: &str) -> Result<Verdict, OutOfMemory> {
    let (records, asked) = split(text, ';');
    let cells = behind(alloc, stage, records)?;
    let made = judged(alloc, stage.conf(), &cells, asked);
    drop(cells);
    made
}

/// The verdict in `TRIGGERS;RECORDS;ASKED`.
fn verdict_of(alloc: Global, input: &str) -> Result<String, OutOfMemory> {
    let (words, rest) = split(input, ';');
    let stage = InForce::first(with_triggers(alloc, words)?);
    let made = judged_behind(alloc, &stage, rest);
    drop(stage);
    let made = made?;
    let text = said(alloc, &made);
    drop(made);
    text
}

fn masters_in(alloc: Global, conf: &Conf, id: u32) -> Result<Many<u32>, OutOfMemory> {
    if !depths_fall(conf) {
        return Ok(Many::new(alloc));
    }
    masters(alloc, conf, id)
}

/// The masters in `TRIGGERS;ID`.
fn masters_of(alloc: Global, input: &str) -> Result<String, OutOfMemory> {
    let (words, id) = split(input, ';');
    let conf = with_triggers(alloc, words)?;
    let made = masters_in(alloc, &conf, number(id));
    drop(conf);
    let made = made?;
    let mut text = String::new(alloc);
    add_each(alloc, &mut text, made.as_slice()).and(Ok(text))
}

/// Adds the numbers of steps.
fn add_steps(alloc: Global, text: &mut String, steps: &[Rec]) -> Result<(), OutOfMemory> {
    for one in steps {
        if let Rec::Step { step, .. } = one {
            add_number(alloc, text, *step as u64)?;
        }
    }
    Ok(())
}

/// The number of an open problem, its rank, and the numbers of the steps that stand with it.
fn shown(alloc: Global, open: &Open) -> Result<String, OutOfMemory> {
    let number = open.problem.event().number;
    let mut text = format!(in alloc; "{number} rank {} steps", open.rank)?;
    add_steps(alloc, &mut text, open.steps.as_slice()).and(Ok(text))
}

/// What is to be said of the first of some open problems.
fn first_of(alloc: Global, open: &[Open]) -> Result<String, OutOfMemory> {
    match open.first() {
        Some(first) => shown(alloc, first),
        None => told(alloc, "none"),
    }
}

fn open_behind(alloc: Global, stage: &InForce, text: &str) -> Result<String, OutOfMemory> {
    let (records, id) = split(text, ';');
    let cells = behind(alloc, stage, records)?;
    let made = first_of(alloc, cells.open(number(id)));
    drop(cells);
    made
}

/// The first open problem in `TRIGGERS;RECORDS;TRIGGER`.
fn open_of(alloc: Global, input: &str) -> Result<String, OutOfMemory> {
    let (words, rest) = split(input, ';');
    let stage = InForce::first(with_triggers(alloc, words)?);
    let made = open_behind(alloc, &stage, rest);
    drop(stage);
    made
}

/// Takes Ticks, and says which one was the first.
fn ticked(mut cells: TriggerCells, text: &str) -> Option<Moment> {
    for word in text.split_whitespace() {
        cells.ticked(moment(word));
    }
    let first = cells.first_tick();
    drop(cells);
    first
}

/// The first Tick behind those at some moments, as `100/5` for 100 seconds and 5 nanoseconds.
fn first_tick(alloc: Global, text: &str) -> Result<String, OutOfMemory> {
    let conf = with_triggers(alloc, "")?;
    let cells = TriggerCells::new(alloc, &conf);
    drop(conf);
    match ticked(cells?, text) {
        None => told(alloc, "none"),
        Some(first) => Ok(format!(in alloc; "{}/{}", first.sec, first.ns)?),
    }
}

/// What a case of verdicts comes to.
pub(crate) fn answer(alloc: Global, kind: &str, input: &str) -> Option<Came> {
    match kind {
        "verdict" => Some(verdict_of(alloc, input)),
        "masters" => Some(masters_of(alloc, input)),
        "open" => Some(open_of(alloc, input)),
        "first tick" => Some(first_tick(alloc, input)),
        _ => None,
    }
}
