//! What the rules of global correlation close.

use crate::parts::{
    Came, Piece, add_number, add_word, both, configuration, hosts, matching, number, pieces,
    problem, split, test,
};
use event_correlation::{Closes, closes};
use std::alloc::Global;
use zbx_types::{Conf, EventId, Many, OutOfMemory, Rec, Rule, RuleCond, Text};

/// A condition on tags or a group, as `old_tag/svc`, `new_tag/svc`, `new_group/g` or `tag_pair/old/new`.
fn named(alloc: Global, kind: &str, rest: &str) -> Result<RuleCond, OutOfMemory> {
    let (name, other) = split(rest, '/');
    let (name, other) = both(Text::of(alloc, name), Text::of(alloc, other))?;
    Ok(match kind {
        "old_tag" => {
            drop(other);
            RuleCond::OldTag { tag: name }
        }
        "new_tag" => {
            drop(other);
            RuleCond::NewTag { tag: name }
        }
        "new_group" => {
            drop(other);
            RuleCond::NewGroup { group: name }
        }
        _ => RuleCond::TagPair {
            old_tag: name,
            new_tag: other,
        },
    })
}

/// The reader of conditions: one of those, or a test, as `old_tag_value/svc/equals/x`.
struct ConditionReader;

impl Piece for ConditionReader {
    type Made = RuleCond;

    fn read(alloc: Global, _place: u32, word: &str) -> Result<RuleCond, OutOfMemory> {
        let (kind, rest) = split(word, '/');
        match kind {
            "old_tag_value" => Ok(RuleCond::OldTagValue(test(alloc, rest)?)),
            "new_tag_value" => Ok(RuleCond::NewTagValue(test(alloc, rest)?)),
            _ => named(alloc, kind, rest),
        }
    }
}

/// The reader of rules, as `and:CONDITION,CONDITION:old`, with `old`, `new` or `both` for what a rule closes.
struct RuleReader;

impl Piece for RuleReader {
    type Made = Rule;

    fn read(alloc: Global, _place: u32, word: &str) -> Result<Rule, OutOfMemory> {
        let (joined, rest) = split(word, ':');
        let (given, which) = split(rest, ':');
        let conditions = pieces::<ConditionReader>(alloc, given, ',')?;
        Ok(Rule {
            name: Text::new(alloc),
            matching: matching(joined),
            conditions,
            close_old: which != "new",
            close_new: which != "old",
        })
    }
}

/// A configuration of rules, with host `h` in group `g`.
fn ruled(alloc: Global, text: &str) -> Result<Conf, OutOfMemory> {
    let (hosts, rules) = both(hosts(alloc), pieces::<RuleReader>(alloc, text, ' '))?;
    let none = Many::new(alloc);
    Ok(configuration(
        alloc,
        hosts,
        none,
        Many::new(alloc),
        rules,
        Many::new(alloc),
    ))
}

fn event(number: u64) -> EventId {
    EventId { number, trigger: 7 }
}

/// The reader of problems of host `h`, numbered from 1 on, by their tags.
struct ProblemReader;

impl Piece for ProblemReader {
    type Made = Rec;

    fn read(alloc: Global, place: u32, words: &str) -> Result<Rec, OutOfMemory> {
        problem(alloc, event((place as u64).wrapping_add(1)), "h", words)
    }
}

/// Adds an event, as `1-7`.
fn add_event(alloc: Global, text: &mut String, event: EventId) -> Result<(), OutOfMemory> {
    let word = format!(in alloc; "{}-{}", event.number, event.trigger)?;
    add_word(text, word.as_str())
}

/// Adds the events that close, and `new` where the new one does.
fn add_closes(alloc: Global, text: &mut String, made: &Closes) -> Result<(), OutOfMemory> {
    for event in made.old.as_slice() {
        add_event(alloc, text, *event)?;
    }
    if made.new {
        return add_word(text, "new");
    }
    Ok(())
}

/// What closes as a problem opens beside old ones.
fn closed_beside(
    alloc: Global,
    conf: &Conf,
    old: Result<Many<Rec>, OutOfMemory>,
    new: Result<Rec, OutOfMemory>,
) -> Result<Closes, OutOfMemory> {
    let (old, new) = both(old, new)?;
    let made = closes(alloc, conf, &new, old.as_slice());
    drop(new);
    made
}

/// What closes as a problem of a host with tags opens while others are open, in `HOST;TAGS;OTHERS`.
fn closed_over(alloc: Global, conf: &Conf, text: &str) -> Result<Closes, OutOfMemory> {
    let (host, rest) = split(text, ';');
    let (words, others) = split(rest, ';');
    let old = pieces::<ProblemReader>(alloc, others, '|');
    closed_beside(alloc, conf, old, problem(alloc, event(100), host, words))
}

/// The same under the rules before that.
fn closed(alloc: Global, input: &str) -> Result<String, OutOfMemory> {
    let (rules, rest) = split(input, ';');
    let conf = ruled(alloc, rules)?;
    let made = closed_over(alloc, &conf, rest);
    drop(conf);
    let made = made?;
    let mut text = String::new(alloc);
    add_closes(alloc, &mut text, &made).and(Ok(text))
}

/// So many problems of host `h`, numbered from 0 on, with one tag.
fn many_problems(alloc: Global, count: u32) -> Result<Many<Rec>, OutOfMemory> {
    let mut made = Many::new(alloc);
    for number in 0..count {
        made.push(problem(alloc, event(number as u64), "h", "svc=x")?)?;
    }
    Ok(made)
}

fn many_closed(alloc: Global, conf: &Conf, count: u32) -> Result<Closes, OutOfMemory> {
    let old = many_problems(alloc, count);
    closed_beside(
        alloc,
        conf,
        old,
        problem(alloc, event(count as u64), "h", "svc=x"),
    )
}

/// Adds how many events there are, and the number of the last one.
fn add_count(alloc: Global, text: &mut String, events: &[EventId]) -> Result<(), OutOfMemory> {
    add_number(alloc, text, events.len() as u64)?;
    match events.last() {
        Some(event) => add_number(alloc, text, event.number),
        None => Ok(()),
    }
}

/// How many of so many problems close as one more with their tag opens, and the number of the last one.
fn closed_of_many(alloc: Global, count: u32) -> Result<String, OutOfMemory> {
    let conf = ruled(alloc, "and:tag_pair/svc/svc:both")?;
    let made = many_closed(alloc, &conf, count);
    drop(conf);
    let made = made?;
    let mut text = String::new(alloc);
    add_count(alloc, &mut text, made.old.as_slice()).and(Ok(text))
}

/// What a case of correlation comes to.
pub(crate) fn answer(alloc: Global, kind: &str, input: &str) -> Option<Came> {
    match kind {
        "closes" => Some(closed(alloc, input)),
        "closes of many" => Some(closed_of_many(alloc, number(input))),
        _ => None,
    }
}
