//! Parts of configurations and of problems, as words.

use std::alloc::Global;
use zbx_types::{
    Conf, EventId, Expr, Host, Item, ItemKind, Maintenance, Many, Matching, Moment, OutOfMemory,
    Rec, RecoveryMode, Rule, Tag, TagOp, TagTest, Text, Trigger, ValueType,
};

/// A text before the first of a mark, and the one behind it; all of it, and nothing, where the mark isn't there.
pub(crate) fn split(text: &str, mark: char) -> (&str, &str) {
    text.split_once(mark).unwrap_or((text, ""))
}

/// The number that a word writes, and 0 where it writes none.
pub(crate) fn number(word: &str) -> u32 {
    word.parse().unwrap_or(0)
}

/// A moment, as `540/5` for 540 seconds and 5 nanoseconds.
pub(crate) fn moment(word: &str) -> Moment {
    let (sec, ns) = split(word, '/');
    Moment {
        sec: number(sec),
        ns: number(ns) % 1_000_000_000,
    }
}

/// So many numbers from the first on, each by the rise greater than the one before it.
fn add_row(numbers: &mut Many<u32>, first: u32, count: u32, rise: u32) -> Result<(), OutOfMemory> {
    for place in 0..count {
        numbers.push(first.wrapping_add(rise.wrapping_mul(place)))?;
    }
    Ok(())
}

/// The numbers of a word: `7`, as well as `7*3` for three times 7, and `7-9` for 7, 8 and 9.
fn add_numbers(numbers: &mut Many<u32>, word: &str) -> Result<(), OutOfMemory> {
    if let Some((one, times)) = word.split_once('*') {
        return add_row(numbers, number(one), number(times), 0);
    }
    if let Some((first, last)) = word.split_once('-') {
        let behind = number(last).saturating_add(1);
        return add_row(
            numbers,
            number(first),
            behind.saturating_sub(number(first)),
            1,
        );
    }
    match word.parse() {
        Ok(one) => add_row(numbers, one, 1, 0),
        Err(_) => Ok(()),
    }
}

/// The numbers of words with commas between.
pub(crate) fn numbers(alloc: Global, text: &str) -> Result<Many<u32>, OutOfMemory> {
    let mut made = Many::new(alloc);
    for word in text.split(',') {
        add_numbers(&mut made, word)?;
    }
    Ok(made)
}

/// A word behind those that a text has, with a blank before it if there are any.
pub(crate) fn add_word(text: &mut String, word: &str) -> Result<(), OutOfMemory> {
    let between = if text.is_empty() { "" } else { " " };
    let put = text.push_str(between).ok();
    put.and(text.push_str(word).ok()).ok_or(OutOfMemory)
}

/// What a case comes to.
pub(crate) type Came = Result<String, OutOfMemory>;

/// A text of a word.
pub(crate) fn told(alloc: Global, word: &str) -> Result<String, OutOfMemory> {
    String::from_str(alloc, word).ok().ok_or(OutOfMemory)
}

/// Adds a number as a word.
pub(crate) fn add_number(alloc: Global, text: &mut String, number: u64) -> Result<(), OutOfMemory> {
    let word = format!(in alloc; "{number}")?;
    add_word(text, word.as_str())
}

/// Adds numbers as words.
pub(crate) fn add_each(
    alloc: Global,
    text: &mut String,
    numbers: &[u32],
) -> Result<(), OutOfMemory> {
    for number in numbers {
        add_number(alloc, text, *number as u64)?;
    }
    Ok(())
}

/// Two things, where there was room for both.
pub(crate) fn both<A: Drop, B: Drop>(
    one: Result<A, OutOfMemory>,
    other: Result<B, OutOfMemory>,
) -> Result<(A, B), OutOfMemory> {
    one.ok().zip(other.ok()).ok_or(OutOfMemory)
}

/// A list with one more.
fn with_one<T: Drop>(mut list: Many<T>, made: T) -> Result<Many<T>, OutOfMemory> {
    list.push(made).ok().and(Some(list)).ok_or(OutOfMemory)
}

/// A list of one.
pub(crate) fn one<T: Drop>(
    alloc: Global,
    made: Result<T, OutOfMemory>,
) -> Result<Many<T>, OutOfMemory> {
    let made = made?;
    with_one(Many::new(alloc), made)
}

/// A list of two.
pub(crate) fn two<T: Drop>(
    alloc: Global,
    first: Result<T, OutOfMemory>,
    second: Result<T, OutOfMemory>,
) -> Result<Many<T>, OutOfMemory> {
    let (list, second) = both(one(alloc, first), second)?;
    with_one(list, second)
}

/// A reader of the pieces of a text. It is named by a type that is only a name.
pub(crate) trait Piece {
    /// What a piece is read as.
    type Made: Drop;

    /// Reads a piece, the first of which is at place 0.
    fn read(alloc: Global, place: u32, word: &str) -> Result<Self::Made, OutOfMemory>;
}

/// The pieces of a text between marks; none of an empty text.
pub(crate) fn pieces<P: Piece>(
    alloc: Global,
    text: &str,
    mark: char,
) -> Result<Many<P::Made>, OutOfMemory> {
    let mut made = Many::new(alloc);
    if text.is_empty() {
        return Ok(made);
    }
    let mut place: u32 = 0;
    for word in text.split(mark) {
        made.push(P::read(alloc, place, word)?)?;
        place = place.wrapping_add(1);
    }
    Ok(made)
}

/// The reader of tags.
struct TagReader;

impl Piece for TagReader {
    type Made = Tag;

    fn read(alloc: Global, _place: u32, word: &str) -> Result<Tag, OutOfMemory> {
        let (tag, value) = split(word, '=');
        let (tag, value) = both(Text::of(alloc, tag), Text::of(alloc, value))?;
        Ok(Tag { tag, value })
    }
}

/// Tags, as `name=value`, with blanks between.
pub(crate) fn tags(alloc: Global, text: &str) -> Result<Many<Tag>, OutOfMemory> {
    pieces::<TagReader>(alloc, text, ' ')
}

fn operator(word: &str) -> TagOp {
    match word {
        "contains" => TagOp::Contains,
        "not_equals" => TagOp::NotEquals,
        "not_contains" => TagOp::NotContains,
        _ => TagOp::Equals,
    }
}

/// A test of a tag, as `app/contains/eb`.
pub(crate) fn test(alloc: Global, word: &str) -> Result<TagTest, OutOfMemory> {
    let (tag, rest) = split(word, '/');
    let (op, value) = split(rest, '/');
    let (tag, value) = both(Text::of(alloc, tag), Text::of(alloc, value))?;
    Ok(TagTest {
        tag,
        op: operator(op),
        value,
    })
}

pub(crate) fn matching(word: &str) -> Matching {
    match word {
        "or" => Matching::Or,
        _ => Matching::And,
    }
}

fn host(alloc: Global, name: &str, group: &str) -> Result<Host, OutOfMemory> {
    let groups = one(alloc, Text::of(alloc, group));
    let (groups, name) = both(groups, Text::of(alloc, name))?;
    Ok(Host {
        name,
        groups,
        enabled: true,
    })
}

/// Host `h` is in the group `g`, host `other` in the group `else`.
pub(crate) fn hosts(alloc: Global) -> Result<Many<Host>, OutOfMemory> {
    two(alloc, host(alloc, "h", "g"), host(alloc, "other", "else"))
}

/// An item of a host, with its master (0: none).
pub(crate) fn item(alloc: Global, host: u32, master: u32) -> Item {
    Item {
        host,
        key: Text::new(alloc),
        kind: ItemKind::Trapper,
        master,
        value_type: ValueType::Number,
        enabled: true,
        steps: Many::new(alloc),
        delay: 0,
    }
}

fn items_of(alloc: Global, masters: &[u32]) -> Result<Many<Item>, OutOfMemory> {
    let mut made = Many::new(alloc);
    for master in masters {
        made.push(item(alloc, 1, *master))?;
    }
    Ok(made)
}

/// Items of host 1, each by its master (0: none).
pub(crate) fn items(alloc: Global, masters: &str) -> Result<Many<Item>, OutOfMemory> {
    let masters = numbers(alloc, masters)?;
    items_of(alloc, masters.as_slice())
}

/// What a trigger looks at and depends on.
#[derive(Drop)]
pub(crate) struct Links {
    pub(crate) host: u32,
    pub(crate) call_items: Many<u32>,
    pub(crate) depends: Many<u32>,
    pub(crate) depth: u32,
}

/// A trigger. One with a closing tag makes several problems.
pub(crate) fn trigger(
    alloc: Global,
    links: Links,
    tags: Many<Tag>,
    recovery: RecoveryMode,
    close_tag: Text,
) -> Trigger {
    Trigger {
        host: links.host,
        name: Text::new(alloc),
        title: Text::new(alloc),
        expr: Expr::Call(0),
        recovery,
        recovery_expr: None,
        calls: Many::new(alloc),
        call_items: links.call_items,
        multiple: 0 < close_tag.len(),
        close_tag,
        severity: 3,
        tags,
        depends: links.depends,
        enabled: true,
        depth: links.depth,
    }
}

/// A trigger of a host, as `CALLS:DEPENDS:DEPTH` or with the name of a tag behind: the items of its calls, what it depends
/// on, and its depth.
pub(crate) fn calling(alloc: Global, host: u32, word: &str) -> Result<Trigger, OutOfMemory> {
    let (calls, rest) = split(word, ':');
    let (depends, rest) = split(rest, ':');
    let (depth, name) = split(rest, ':');
    let on = both(numbers(alloc, calls), numbers(alloc, depends));
    let (on, tags) = both(on, tags(alloc, name))?;
    let (call_items, depends) = on;
    let links = Links {
        host,
        call_items,
        depends,
        depth: number(depth),
    };
    Ok(trigger(
        alloc,
        links,
        tags,
        RecoveryMode::Expression,
        Text::new(alloc),
    ))
}

/// The reader of such triggers of host 1.
pub(crate) struct CallingReader;

impl Piece for CallingReader {
    type Made = Trigger;

    fn read(alloc: Global, _place: u32, word: &str) -> Result<Trigger, OutOfMemory> {
        calling(alloc, 1, word)
    }
}

/// A configuration of hosts, items and triggers, with rules and maintenances.
pub(crate) fn configuration(
    alloc: Global,
    hosts: Many<Host>,
    items: Many<Item>,
    triggers: Many<Trigger>,
    correlations: Many<Rule>,
    maintenances: Many<Maintenance>,
) -> Conf {
    Conf {
        text: Text::new(alloc),
        utc_offset: 0,
        hosts,
        items,
        triggers,
        correlations,
        maintenances,
        actions: Many::new(alloc),
        patterns: Many::new(alloc),
        pattern_paths: Many::new(alloc),
    }
}

/// A problem of a trigger of a host, by their names, with tags, at second 100.
pub(crate) fn problem_of(
    alloc: Global,
    event: EventId,
    host: &str,
    trigger: &str,
    words: &str,
) -> Result<Rec, OutOfMemory> {
    let names = both(Text::of(alloc, host), Text::of(alloc, trigger));
    let ((host, trigger), tags) = both(names, tags(alloc, words))?;
    Ok(Rec::Problem {
        event,
        now: Moment { sec: 100, ns: 0 },
        severity: 3,
        suppressed: false,
        host,
        trigger,
        name: Text::new(alloc),
        tags,
    })
}

/// A problem of a host with tags, of a trigger without a name.
pub(crate) fn problem(
    alloc: Global,
    event: EventId,
    host: &str,
    words: &str,
) -> Result<Rec, OutOfMemory> {
    problem_of(alloc, event, host, "", words)
}
