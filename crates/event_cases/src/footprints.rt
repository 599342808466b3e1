//! Which values conflict.

use crate::parts::{
    CallingReader, Piece, add_word, both, configuration, items, matching, number, one, pieces,
    split, told,
};
use footprint::Feet;
use std::alloc::Global;
use zbx_types::{Conf, Entry, Many, Moment, OutOfMemory, Rule, RuleCond, Text, depths_fall};

/// A value of an item at second 100.
pub(crate) fn value(alloc: Global, item: u32) -> Entry {
    Entry::Value {
        now: Moment { sec: 100, ns: 0 },
        item,
        time: Moment { sec: 100, ns: 0 },
        value: Text::new(alloc),
    }
}

/// A Tick at second 100.
pub(crate) fn tick() -> Entry {
    Entry::Tick {
        now: Moment { sec: 100, ns: 0 },
    }
}

/// The feet of a configuration whose depths fall.
fn feet_of(alloc: Global, conf: &Conf) -> Result<Option<Feet>, OutOfMemory> {
    if !depths_fall(conf) {
        return Ok(None);
    }
    Ok(Some(Feet::build(alloc, conf)?))
}

/// The feet of items and triggers, with rules.
pub(crate) fn feet(
    alloc: Global,
    masters: &str,
    words: &str,
    ruling: &str,
) -> Result<Option<Feet>, OutOfMemory> {
    let on = both(
        items(alloc, masters),
        pieces::<CallingReader>(alloc, words, ' '),
    );
    let (on, rules) = both(on, pieces::<RuleReader>(alloc, ruling, ' '))?;
    let (items, triggers) = on;
    let none = Many::new(alloc);
    let conf = configuration(alloc, none, items, triggers, rules, Many::new(alloc));
    let feet = feet_of(alloc, &conf);
    drop(conf);
    feet
}

fn pair(alloc: Global, old: &str, new: &str) -> Result<RuleCond, OutOfMemory> {
    let (old_tag, new_tag) = both(Text::of(alloc, old), Text::of(alloc, new))?;
    Ok(RuleCond::TagPair { old_tag, new_tag })
}

/// The reader of rules that pair two tags, as `and/a/b`.
struct RuleReader;

impl Piece for RuleReader {
    type Made = Rule;

    fn read(alloc: Global, _place: u32, word: &str) -> Result<Rule, OutOfMemory> {
        let (joined, rest) = split(word, '/');
        let (old, new) = split(rest, '/');
        let conditions = one(alloc, pair(alloc, old, new))?;
        Ok(Rule {
            name: Text::new(alloc),
            matching: matching(joined),
            conditions,
            close_old: true,
            close_new: false,
        })
    }
}

/// Whether the values of two items conflict; none where their order matters, or a Tick doesn't conflict with the first.
fn meet(alloc: Global, feet: &Feet, a: u32, b: u32) -> Option<bool> {
    let one = value(alloc, a);
    let other = value(alloc, b);
    let ticks = tick();
    let is = feet.conflicts(&one, &other);
    let is_even = feet.conflicts(&other, &one) == is;
    let with_ticks = feet.conflicts(&one, &ticks) && feet.conflicts(&ticks, &one);
    drop(one);
    drop(other);
    drop(ticks);
    (is_even && with_ticks).then_some(is)
}

/// Adds a pair of items, as `1-2`, if their values conflict.
fn add_pair(alloc: Global, feet: &Feet, word: &str, made: &mut String) -> Result<(), OutOfMemory> {
    let (a, b) = split(word, '-');
    match meet(alloc, feet, number(a), number(b)) {
        Some(true) => add_word(made, word),
        Some(false) => Ok(()),
        None => add_word(made, "uneven"),
    }
}

fn add_pairs(
    alloc: Global,
    feet: &Feet,
    pairs: &str,
    made: &mut String,
) -> Result<(), OutOfMemory> {
    for word in pairs.split(' ') {
        add_pair(alloc, feet, word, made)?;
    }
    Ok(())
}

fn conflicting(alloc: Global, feet: &Feet, pairs: &str) -> Result<String, OutOfMemory> {
    let mut made = String::new(alloc);
    add_pairs(alloc, feet, pairs, &mut made).and(Ok(made))
}

/// Those of some pairs of items whose values conflict, in `MASTERS;TRIGGERS;RULES;PAIRS`.
pub(crate) fn conflicts(alloc: Global, input: &str) -> Result<String, OutOfMemory> {
    let (masters, rest) = split(input, ';');
    let (words, rest) = split(rest, ';');
    let (ruling, pairs) = split(rest, ';');
    match feet(alloc, masters, words, ruling)? {
        Some(feet) => {
            let made = conflicting(alloc, &feet, pairs);
            drop(feet);
            made
        }
        None => told(alloc, "out of range"),
    }
}
