//! When a maintenance is in force, which problems it suppresses, and which hosts' values it keeps out.

use crate::parts::{
    Came, Piece, both, calling, configuration, hosts, item, matching, number, one, pieces, split,
    tags, test, told, two,
};
use maintenance::{collects, in_force, suppressed};
use std::alloc::Global;
use zbx_types::{
    Conf, Item, Maintenance, Many, Moment, OutOfMemory, Period, TagTest, Text, Trigger,
};

/// The reader of tests of tags, as `app/equals/web`.
struct TestReader;

impl Piece for TestReader {
    type Made = TagTest;

    fn read(alloc: Global, _place: u32, word: &str) -> Result<TagTest, OutOfMemory> {
        test(alloc, word)
    }
}

/// A maintenance of the group `g` for five minutes from second 235 on, as `yes and app/equals/web`: whether it collects, how
/// its tests are joined, and the tests, with commas between.
fn grouped(alloc: Global, words: &str) -> Result<Maintenance, OutOfMemory> {
    let (collect, rest) = split(words, ' ');
    let (joined, given) = split(rest, ' ');
    let once = Period::Once {
        start: 235,
        length: 300,
    };
    let given = both(
        pieces::<TestReader>(alloc, given, ','),
        one(alloc, Text::of(alloc, "g")),
    );
    let (given, periods) = both(given, one(alloc, Ok(once)))?;
    let (tags, groups) = given;
    Ok(Maintenance {
        name: Text::new(alloc),
        since: 0,
        till: 100_000,
        collect: collect == "yes",
        hosts: Many::new(alloc),
        groups,
        matching: matching(joined),
        tags,
        periods,
    })
}

/// Item 1 is of host 1, item 2 of host 2.
fn items(alloc: Global) -> Result<Many<Item>, OutOfMemory> {
    two(alloc, Ok(item(alloc, 1, 0)), Ok(item(alloc, 2, 0)))
}

/// Trigger 1 is of host 2 and looks at the time and at item 1, trigger 2 is of host 1 and looks at item 2.
fn triggers(alloc: Global) -> Result<Many<Trigger>, OutOfMemory> {
    two(alloc, calling(alloc, 2, "0,1"), calling(alloc, 1, "2"))
}

/// A configuration of these with a maintenance.
pub(crate) fn maintained(alloc: Global, words: &str) -> Result<Conf, OutOfMemory> {
    let on = both(hosts(alloc), items(alloc));
    let over = both(triggers(alloc), one(alloc, grouped(alloc, words)));
    let (on, over) = both(on, over)?;
    let (hosts, items) = on;
    let (triggers, maintenances) = over;
    Ok(configuration(
        alloc,
        hosts,
        items,
        triggers,
        Many::new(alloc),
        maintenances,
    ))
}

fn is_suppressed(
    alloc: Global,
    conf: &Conf,
    trigger: u32,
    words: &str,
    now: Moment,
) -> Result<bool, OutOfMemory> {
    let tags = tags(alloc, words)?;
    Ok(suppressed(conf, trigger, tags.as_slice(), now))
}

/// Whether a maintenance is in force, collects of a host, or suppresses a trigger, by their numbers.
fn holds(
    alloc: Global,
    conf: &Conf,
    kind: &str,
    which: u32,
    text: &str,
) -> Result<bool, OutOfMemory> {
    let (sec, words) = split(text, ';');
    let now = Moment {
        sec: number(sec),
        ns: 0,
    };
    match kind {
        "in force" => Ok(in_force(conf, which, now)),
        "collects" => Ok(collects(conf, which, now)),
        _ => is_suppressed(alloc, conf, which, words, now),
    }
}

/// The same in `MAINTENANCE;NUMBER;SECOND;TAGS`.
fn held(alloc: Global, kind: &str, input: &str) -> Result<String, OutOfMemory> {
    let (words, rest) = split(input, ';');
    let (which, rest) = split(rest, ';');
    let conf = maintained(alloc, words)?;
    let made = holds(alloc, &conf, kind, number(which), rest);
    drop(conf);
    told(alloc, if made? { "yes" } else { "no" })
}

/// What a case of maintenances comes to.
pub(crate) fn answer(alloc: Global, kind: &str, input: &str) -> Option<Came> {
    match kind {
        "in force" | "collects" | "suppressed" => Some(held(alloc, kind, input)),
        _ => None,
    }
}
