//! The ids of what is in the feet of some entries.

ghost use Rattle.std.specs.Prelude.{◌≡◌, ◌++◌, ◌||◌, ℕ, IfOk, OnOk};
ghost use Rattle.std.specs.List.{list_any};
ghost use Rattle.zbx_types.specs.Ids.{ids_from};
ghost use Rattle.zbx_types.specs.Masters.{has_id};
ghost use Rattle.footprint.specs.Rows.{those};
ghost use Rattle.footprint.specs.Feet.{is_reached};
ghost use Rattle.entry_step.specs.Cells.{ItemKey, TriggerKey, touches};
ghost use Rattle.entry_step.specs.Laws.{any_touches};
ghost use Rattle.entry_step.specs.Touched.{IsFound};

use conf_index::Ready;
use footprint::settled;
use std::alloc::Global;
use zbx_types::{Entry, Many, Numbered, OutOfMemory, id_of};

/// Adds the ids of all items of a list.
fn find_all<T>(found: &mut Vec<u32>, all: &[T]) -> Result<(), OutOfMemory>
    ensures { OnOk result (found.new.items ≡ found.old.items ++ ids_from 1 all.now) }
{
    for place in 0..all.len() {
        found.push(id_of(place)?)?;
    }
    Ok(())
}

/// Adds the ids of the triggers that the reaches of rules hold.
fn find_reached(ready: &Ready, found: &mut Vec<u32>, rules: &[u32]) -> Result<(), OutOfMemory>
    ensures { OnOk result ((id : ℕ) → has_id found.new.items
        id ≡ (has_id found.old.items id || list_any (λ rule. is_reached ready.now.conf rule id) rules.now)) }
{
    for rule in rules {
        found.extend_from_slice(ready.reach(*rule))?;
    }
    Ok(())
}

/// Adds the ids of the items in the foot of an entry.
fn find_items<T>(
    ready: &Ready,
    found: &mut Vec<u32>,
    entry: &Entry,
    all: &[T],
) -> Result<(), OutOfMemory>
    ensures { OnOk result (IsFound all.now found.old.items (λ id. touches ready.now.conf entry.now (ItemKey id))
        found.new.items) }
{
    match entry {
        Entry::Config { .. } => {
            find_all(found, all)?;
            Ok(())
        }
        Entry::Tick { .. } => {
            find_all(found, all)?;
            Ok(())
        }
        Entry::Value { item, .. } => {
            found.push(*item)?;
            found.extend_from_slice(ready.feet().items(*item))?;
            Ok(())
        }
    }
}

/// Adds the ids of the triggers in the foot of an entry.
fn find_triggers<T>(
    ready: &Ready,
    found: &mut Vec<u32>,
    entry: &Entry,
    all: &[T],
) -> Result<(), OutOfMemory>
    ensures { OnOk result (IsFound all.now found.old.items (λ id. touches ready.now.conf entry.now (TriggerKey id))
        found.new.items) }
{
    match entry {
        Entry::Config { .. } => {
            find_all(found, all)?;
            Ok(())
        }
        Entry::Tick { .. } => {
            find_all(found, all)?;
            Ok(())
        }
        Entry::Value { item, .. } => {
            found.extend_from_slice(ready.feet().triggers(*item))?;
            find_reached(ready, found, ready.feet().marks(*item))?;
            Ok(())
        }
    }
}

/// The ids of a list's items that are in the feet of some entries, as ids of items, rising.
pub(crate) fn item_ids<T>(
    alloc: Global,
    ready: &Ready,
    entries: &[Numbered],
    all: &[T],
) -> Result<Many<u32>, OutOfMemory>
    ensures { IfOk result (λ ids. ids ≡ those all.now (λ id. any_touches ready.now.conf entries.now (ItemKey id))) }
{
    let mut found = Vec::new(alloc);
    for one in entries {
        find_items(ready, &mut found, &one.entry, all)?;
    }
    settled(alloc, found, all)
}

/// The ids of a list's items that are in the feet of some entries, as ids of triggers, rising.
pub(crate) fn trigger_ids<T>(
    alloc: Global,
    ready: &Ready,
    entries: &[Numbered],
    all: &[T],
) -> Result<Many<u32>, OutOfMemory>
    ensures { IfOk result (λ ids. ids ≡ those all.now (λ id. any_touches ready.now.conf entries.now (TriggerKey id))) }
{
    let mut found = Vec::new(alloc);
    for one in entries {
        find_triggers(ready, &mut found, &one.entry, all)?;
    }
    settled(alloc, found, all)
}
