//! Which kept entries `intake_front` finds not to fit their configuration.

use crate::rows::row_of;
use intake_front::first_misfit;
use intake_journal::Group;
use std::alloc::Global;
use std::test::Fail;
use zbx_types::{
    Base, Conf, Entry, Host, Item, ItemKind, Maintenance, Many, Moment, OutOfMemory, Text,
    ValueType,
};

/// The host `h`.
fn hosts(alloc: Global, enabled: bool) -> Result<Many<Host>, OutOfMemory> {
    let name = Text::of(alloc, "h")?;
    let mut hosts = Many::new(alloc);
    hosts.push(Host {
        name,
        groups: Many::new(alloc),
        enabled,
    })?;
    Ok(hosts)
}

/// A trapper item of the first host.
fn item(alloc: Global, key: &str, enabled: bool) -> Result<Item, OutOfMemory> {
    let key = Text::of(alloc, key)?;
    Ok(Item {
        host: 1,
        key,
        kind: ItemKind::Trapper,
        master: 0,
        value_type: ValueType::Number,
        enabled,
        steps: Many::new(alloc),
        delay: 0,
    })
}

/// The item `k`, enabled.
fn items(alloc: Global) -> Result<Many<Item>, OutOfMemory> {
    let mut items = Many::new(alloc);
    items.push(item(alloc, "k", true)?)?;
    Ok(items)
}

/// The item `k`, disabled, and the item `l`, enabled.
fn other_items(alloc: Global) -> Result<Many<Item>, OutOfMemory> {
    let mut items = Many::new(alloc);
    items.push(item(alloc, "k", false)?)?;
    items.push(item(alloc, "l", true)?)?;
    Ok(items)
}

/// One host, `h`, with these items and maintenances.
fn conf_with(
    alloc: Global,
    enabled: bool,
    items: Many<Item>,
    maintenances: Many<Maintenance>,
) -> Result<Conf, OutOfMemory> {
    let hosts = hosts(alloc, enabled)?;
    Ok(Conf {
        text: Text::new(alloc),
        utc_offset: 0,
        hosts,
        items,
        triggers: Many::new(alloc),
        correlations: Many::new(alloc),
        maintenances,
        actions: Many::new(alloc),
        patterns: Many::new(alloc),
        pattern_paths: Many::new(alloc),
    })
}

/// One host, `h`, with one enabled trapper item, `k`, and these maintenances.
pub(crate) fn conf(
    alloc: Global,
    enabled: bool,
    maintenances: Many<Maintenance>,
) -> Result<Conf, OutOfMemory> {
    let items = items(alloc)?;
    conf_with(alloc, enabled, items, maintenances)
}

pub(crate) fn second(sec: u32) -> Moment {
    Moment { sec, ns: 0 }
}

/// A Config.
fn config(alloc: Global, sec: u32) -> Entry {
    Entry::Config {
        now: second(sec),
        text: Text::new(alloc),
    }
}

/// An entry that a letter stands for: a Config at 0 or at 6 seconds, a Tick at 5 or at 9 seconds, a value of item 1, of
/// item 2, or with a time after its moment.
fn entry(alloc: Global, letter: u8) -> Entry {
    let (item, time) = match letter {
        b'c' => return config(alloc, 0),
        b'd' => return config(alloc, 6),
        b't' => return Entry::Tick { now: second(5) },
        b'u' => return Entry::Tick { now: second(9) },
        b'v' => (1, 3),
        b'w' => (2, 3),
        _ => (1, 8),
    };
    Entry::Value {
        now: second(7),
        item,
        time: second(time),
        value: Text::new(alloc),
    }
}

/// The entries of a group, one for each letter.
fn group(alloc: Global, letters: &[u8]) -> Result<Many<Entry>, OutOfMemory> {
    let mut entries = Many::new(alloc);
    for letter in letters {
        entries.push(entry(alloc, *letter))?;
    }
    Ok(entries)
}

/// Groups with blanks between them, the n-th at place n.
fn groups(alloc: Global, words: &str) -> Result<Vec<Group>, OutOfMemory> {
    let mut made = Vec::new(alloc);
    for word in words.split(' ') {
        if !word.is_empty() {
            let entries = group(alloc, word.as_bytes())?;
            let at = made.len() as u64 + 1;
            made.push(Group { at, entries })?;
        }
    }
    Ok(made)
}

/// The configurations of the Configs: that of a Config at 0 seconds has the item `k` enabled, which is item 1, and that
/// of one at 6 seconds the item `l`, which is item 2. The host is disabled in both.
fn confs(alloc: Global, letters: &[u8]) -> Result<Many<Conf>, OutOfMemory> {
    let mut made = Many::new(alloc);
    for letter in letters {
        let items = match *letter {
            b'c' => items(alloc)?,
            b'd' => other_items(alloc)?,
            _ => continue,
        };
        made.push(conf_with(alloc, false, items, Many::new(alloc))?)?;
    }
    Ok(made)
}

/// The place of the first misfit in a table of letters.
fn misfit(alloc: Global, letters: &str) -> Result<Option<u64>, OutOfMemory> {
    let kept = groups(alloc, letters)?;
    let confs = confs(alloc, letters.as_bytes())?;
    let place = first_misfit(&Base::empty(alloc), confs.as_slice(), kept.as_slice());
    drop(confs);
    Ok(place)
}

/// First groups with one Config, then with several: the first is at moment 0, no moment falls at a later one, and a value
/// fits the configuration of the last Config before it, also in a group with both.
fn cases() -> &'static str {
    "groups | None\n\
    groups | None | c t v u\n\
    groups | Some(1) | t c\n\
    groups | Some(3) | c t c\n\
    groups | Some(3) | c u v\n\
    groups | Some(4) | c t v w\n\
    groups | Some(3) | c t x\n\
    groups | Some(1) | d\n\
    groups | None | c t d w\n\
    groups | None | c t dw u\n\
    groups | Some(4) | c t d v\n\
    groups | Some(3) | c t dv\n\
    groups | Some(3) | c t wd"
}

#[test]
fn the_first_group_that_does_not_fit_is_told(rt: HostRuntime) -> Result<(), Fail> {
    let alloc = rt.alloc();
    for line in cases().split('\n') {
        let row = row_of(line);
        let told = format!(in alloc; "{:?}", misfit(alloc, row.input)?)?;
        assert_eq!(rt; told.as_str(), row.wanted, "{line}");
    }
    Ok(())
}
