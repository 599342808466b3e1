//! The triggers over each item.

ghost use Rattle.std.specs.Prelude.{◌≡◌, ◌++◌, ◌∷◌, [], ℕ, Some, IfOk, OnOk, if◌then◌else◌};
ghost use Rattle.zbx_types.specs.Ids.{at_id};
ghost use Rattle.conf_index.specs.Index.{listed, has_id, with_masters, is_over_below, triggers_under};
ghost use Rattle.conf_index.specs.Packed.{row_at};

use crate::order::order;
use crate::packed::{Packed, pack};
use crate::rows::enter;
use footprint::chain;
use std::alloc::Global;
use zbx_types::{Conf, Many, OutOfMemory, Trigger, by_id};

/// Whether an id is among these.
fn has_id(ids: &[u32], id: u32) -> bool
    ensures { result ≡ has_id id ids.now }
{
    ids.contains(&id)
}

/// The ids of items and of all their masters.
fn with_masters(alloc: Global, conf: &Conf, items: &[u32]) -> Result<Many<u32>, OutOfMemory>
    ensures { IfOk result (λ ids. ids ≡ with_masters conf.now items.now) }
{
    let mut ids = Many::new(alloc);
    for item in items {
        ids.append(chain(alloc, conf, *item)?)?;
    }
    Ok(ids)
}

/// Adds an id to the lists of items, to each once.
fn enter_all(
    alloc: Global,
    over: &mut Vec<Many<u32>>,
    items: &[u32],
    id: u32,
) -> Result<(), OutOfMemory>
    ensures { OnOk result ((item : ℕ) → listed over.new.items item ≡ listed over.old.items
        item ++ (if has_id item items.now then id ∷ [] else [])) }
{
    for (place, item) in items.iter().enumerate() {
        if !has_id(&items[..place], *item) {
            enter(alloc, over, *item, id)?;
        }
    }
    Ok(())
}

/// Adds an enabled trigger's id to the lists of the items that it has calls over and of all their masters, to each
/// once.
fn enter_trigger(
    alloc: Global,
    over: &mut Vec<Many<u32>>,
    conf: &Conf,
    trigger: &Trigger,
    id: u32,
) -> Result<(), OutOfMemory>
    ensures { OnOk result ((item : ℕ) → listed over.new.items item ≡ listed over.old.items
        item ++ (if is_over_below conf.now item (Some trigger.now) then id ∷ [] else [])) }
{
    if trigger.enabled {
        let items = with_masters(alloc, conf, trigger.call_items.as_slice())?;
        enter_all(alloc, over, items.as_slice(), id)?;
    }
    Ok(())
}

/// Adds a trigger's id to the lists of the items that the trigger is over, or over one that depends on them.
fn enter_by_id(
    alloc: Global,
    over: &mut Vec<Many<u32>>,
    conf: &Conf,
    id: u32,
) -> Result<(), OutOfMemory>
    ensures { OnOk result ((item : ℕ) → listed over.new.items item ≡ listed over.old.items
        item ++ (if is_over_below conf.now item (at_id conf.now.triggers id) then id ∷ [] else [])) }
{
    match by_id(conf.triggers.as_slice(), id) {
        None => Ok(()),
        Some(trigger) => enter_trigger(alloc, over, conf, trigger, id),
    }
}

/// The ids of the triggers over each item or one that depends on it, in the order of evaluation.
#[tactic(auto, unfolding(crate::specs::Index::triggers_under))]
fn rows_of(alloc: Global, conf: &Conf) -> Result<Vec<Many<u32>>, OutOfMemory>
    ensures { IfOk result (λ over. (item : ℕ) → listed over.items item ≡ triggers_under conf.now item) }
{
    let mut over = Vec::new(alloc);
    let ids = order(alloc, conf)?;
    for id in ids.as_slice() {
        enter_by_id(alloc, &mut over, conf, *id)?;
    }
    Ok(over)
}

/// The ids of the triggers over each item, in the order of evaluation, by the ids of items.
pub(crate) fn lists_of(alloc: Global, conf: &Conf) -> Result<Packed<u32>, OutOfMemory>
    ensures { IfOk result (λ over. (item : ℕ) → row_at over.starts over.items item ≡ triggers_under conf.now item) }
{
    let rows = rows_of(alloc, conf)?;
    pack(alloc, rows.as_slice())
}
