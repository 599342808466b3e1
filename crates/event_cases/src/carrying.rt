//! What a configuration that follows another one leaves of the open problems.

use crate::parts::{
    Came, Links, Piece, add_number, add_word, both, configuration, number, pieces, problem_of,
    split, tags, told, trigger,
};
use crate::verdicts::event;
use std::alloc::Global;
use trigger_state::{InForce, Open, Opens, TriggerCells};
use zbx_types::{Conf, EventId, Host, Many, OutOfMemory, Rec, RecoveryMode, Text, Trigger};

/// The reader of hosts by their names.
struct HostReader;

impl Piece for HostReader {
    type Made = Host;

    fn read(alloc: Global, _place: u32, word: &str) -> Result<Host, OutOfMemory> {
        Ok(Host {
            name: Text::of(alloc, word)?,
            groups: Many::new(alloc),
            enabled: true,
        })
    }
}

/// The reader of triggers, as `HOST:NAME:DEPTH:TAGS`, the host by its id.
struct NamedReader;

impl Piece for NamedReader {
    type Made = Trigger;

    fn read(alloc: Global, _place: u32, words: &str) -> Result<Trigger, OutOfMemory> {
        let (host, rest) = split(words, ':');
        let (name, rest) = split(rest, ':');
        let (depth, words) = split(rest, ':');
        let (name, tags) = both(Text::of(alloc, name), tags(alloc, words))?;
        let links = Links {
            host: number(host),
            call_items: Many::new(alloc),
            depends: Many::new(alloc),
            depth: number(depth),
        };
        let none = Text::new(alloc);
        let mut made = trigger(alloc, links, tags, RecoveryMode::Expression, none);
        made.name = name;
        Ok(made)
    }
}

/// A configuration, as `HOSTS|TRIGGERS`, with commas between the triggers.
fn with_names(alloc: Global, text: &str) -> Result<Conf, OutOfMemory> {
    let (hosts, triggers) = split(text, '|');
    let hosts = pieces::<HostReader>(alloc, hosts, ' ');
    let (hosts, triggers) = both(hosts, pieces::<NamedReader>(alloc, triggers, ','))?;
    let none = Many::new(alloc);
    Ok(configuration(
        alloc,
        hosts,
        Many::new(alloc),
        triggers,
        none,
        Many::new(alloc),
    ))
}

/// A problem, as `3-1 HOST TRIGGER TAGS`.
fn opened(alloc: Global, words: &str) -> Result<Rec, OutOfMemory> {
    let (of, rest) = split(words, ' ');
    let (host, rest) = split(rest, ' ');
    let (name, words) = split(rest, ' ');
    problem_of(alloc, event(of), host, name, words)
}

fn open_one(
    alloc: Global,
    stage: &InForce,
    cells: &mut TriggerCells,
    words: &str,
) -> Result<(), OutOfMemory> {
    let record = opened(alloc, words)?;
    let taken = cells.absorb(alloc, stage, &record);
    drop(record);
    taken
}

/// Opens problems, with commas between.
fn open_all(
    alloc: Global,
    stage: &InForce,
    cells: &mut TriggerCells,
    text: &str,
) -> Result<(), OutOfMemory> {
    for words in text.split(',') {
        open_one(alloc, stage, cells, words)?;
    }
    Ok(())
}

fn with_open(alloc: Global, stage: &InForce, text: &str) -> Result<TriggerCells, OutOfMemory> {
    let mut cells = TriggerCells::new(alloc, stage.conf())?;
    open_all(alloc, stage, &mut cells, text).and(Ok(cells))
}

/// Adds events, as `3-1`.
fn add_events(alloc: Global, text: &mut String, events: &[EventId]) -> Result<(), OutOfMemory> {
    for event in events {
        let word = format!(in alloc; "{}-{}", event.number, event.trigger)?;
        add_word(text, word.as_str())?;
    }
    Ok(())
}

/// Adds the numbers of the events of open problems.
fn add_open(alloc: Global, text: &mut String, open: &[Open]) -> Result<(), OutOfMemory> {
    for one in open {
        add_number(alloc, text, one.problem.event().number)?;
    }
    Ok(())
}

/// The events that are gone, and the numbers of those that are open.
fn said(alloc: Global, gone: &[EventId], open: &[Open]) -> Result<String, OutOfMemory> {
    let mut text = told(alloc, "gone")?;
    add_events(alloc, &mut text, gone)
        .and(add_word(&mut text, "open"))
        .and(add_open(alloc, &mut text, open))
        .and(Ok(text))
}

/// Goes on with a new configuration, and says what is gone, and what is open of the trigger with an id.
fn gone_on(
    alloc: Global,
    cells: TriggerCells,
    old: &Conf,
    new: &Conf,
    id: u32,
) -> Result<String, OutOfMemory> {
    let mut left = cells;
    let gone = left.carry(alloc, old, new);
    let made = match gone {
        Ok(events) => said(alloc, events.as_slice(), left.open(id)),
        Err(OutOfMemory) => Err(OutOfMemory),
    };
    drop(left);
    made
}

/// What is left of the open problems in `PROBLEMS;NEW;TRIGGER`.
fn left_of(alloc: Global, stage: &InForce, text: &str) -> Result<String, OutOfMemory> {
    let (problems, rest) = split(text, ';');
    let (words, id) = split(rest, ';');
    let (cells, new) = both(with_open(alloc, stage, problems), with_names(alloc, words))?;
    let made = gone_on(alloc, cells, stage.conf(), &new, number(id));
    drop(new);
    made
}

/// What is left of the open problems in `OLD;PROBLEMS;NEW;TRIGGER`: the old configuration, the problems that are open
/// under it, the new configuration, and the id of one of its triggers.
fn carried(alloc: Global, input: &str) -> Result<String, OutOfMemory> {
    let (words, rest) = split(input, ';');
    let stage = InForce::first(with_names(alloc, words)?);
    let made = left_of(alloc, &stage, rest);
    drop(stage);
    made
}

/// What a case of changed configurations comes to.
pub(crate) fn answer(alloc: Global, kind: &str, input: &str) -> Option<Came> {
    match kind {
        "carried" => Some(carried(alloc, input)),
        _ => None,
    }
}
