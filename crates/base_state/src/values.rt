//! What a base keeps of the items, put into cells.

ghost use Rattle.std.specs.Prelude.{◌≡◌, length, map, reverse, OnOk, IfOk};
ghost use Rattle.value_cache.specs.Cells.{trim, IsIn};
ghost use Rattle.value_cache.specs.Histories.{placed, IsOrdered};
ghost use Rattle.value_cache.specs.Keeps.{keeps_of};
ghost use Rattle.preprocess.specs.Draft.{AreIn};
ghost use Rattle.base_laws.specs.Bases.{read_step, read_value};
ghost use Rattle.base_laws.specs.FitsBase.{FitsBase};
ghost use Rattle.base_state.specs.Restoring.{PutsItem, HaveOrdered, PutsAt, AreRestored};

use prep_steps::StepMemory;
use std::alloc::Global;
use value_cache::{Cache, ItemCell, Keep, keeps};
use zbx_types::{
    Base, BaseItem, BaseStep, BaseValue, Conf, Fix, Held, Many, Moment, OutOfMemory, Stored,
    ValueType, by_id, id_of,
};

/// What a step remembers.
fn mark_of(alloc: Global, step: &BaseStep) -> Result<StepMemory, OutOfMemory>
    ensures { IfOk result (λ mark. mark ≡ read_step step.now) }
{
    Ok(StepMemory {
        there: step.there,
        time: step.time,
        value: step.value.copy(alloc)?,
    })
}

/// What the steps of an item remember.
fn marks_of(alloc: Global, steps: &[BaseStep]) -> Result<Many<StepMemory>, OutOfMemory>
    ensures { IfOk result (λ marks. marks ≡ map read_step steps.now) }
{
    let mut marks = Many::new(alloc);
    for step in steps {
        marks.push(mark_of(alloc, step)?)?;
    }
    Ok(marks)
}

/// A value of an item.
fn value_of(alloc: Global, value_type: ValueType, value: &BaseValue) -> Result<Stored, OutOfMemory>
    ensures { IfOk result (λ stored. stored ≡ read_value value_type value.now) }
{
    let held = match value_type {
        ValueType::Number => {
            Held::Number(Fix::read(value.value.as_bytes()).unwrap_or(Fix::truth(false)))
        }
        ValueType::Words => Held::Words(value.value.copy(alloc)?),
    };
    Ok(Stored {
        time: value.time,
        number: value.number,
        value: held,
    })
}

/// Takes a value into a cell at a moment.
fn put(cell: &mut ItemCell, cache: &Cache, stored: Stored, now: Moment) -> Result<(), OutOfMemory>
    requires { IsIn cache.now cell.old }
    ensures of { IsIn cache.now cell.new }
    ensures keep { cell.new.keep ≡ cell.old.keep }
    ensures trimmed { OnOk result (cell.new.values ≡ trim cell.old.keep now (placed stored cell.old.values)) }
{
    match cell.insert(cache, stored, now) {
        Ok(()) => Ok(()),
        Err(refused) => {
            drop(refused);
            Err(OutOfMemory)
        }
    }
}

/// A cell with the values of an item, given the oldest first, of which it keeps what is to be kept at a moment. They stand
/// in the cache.
fn cell_of(
    alloc: Global,
    cache: &Cache,
    keep: Keep,
    now: Moment,
    value_type: ValueType,
    values: &[BaseValue],
) -> Result<ItemCell, OutOfMemory>
    requires { IsOrdered (reverse (map (read_value value_type) values.now)) }
    ensures keep { IfOk result (λ cell. cell.keep ≡ keep) }
    ensures values { IfOk result (λ cell. cell.values ≡ trim keep now (reverse (map (read_value value_type) values.now))) }
    ensures of { IfOk result (λ cell. IsIn cache.now cell) }
{
    let mut cell = ItemCell::new(alloc, keep);
    for value in values {
        let stored = value_of(alloc, value_type, value)?;
        put(&mut cell, cache, stored, now)?;
    }
    Ok(cell)
}

/// Puts what a base keeps of an item into the cells.
fn put_item(
    alloc: Global,
    cache: &Cache,
    items: &mut preprocess::Cells,
    id: u32,
    keep: Keep,
    now: Moment,
    value_type: ValueType,
    kept: &BaseItem,
) -> Result<(), OutOfMemory>
    requires { IsOrdered (reverse (map (read_value value_type) kept.now.values)) }
    ensures puts { OnOk result (PutsItem id keep (trim keep now (reverse (map (read_value value_type) kept.now.values)))
        (map read_step kept.now.steps) items.old items.new) }
    ensures of { AreIn cache.now items.old.cells.items → AreIn cache.now items.new.cells.items }
{
    let mut cell = cell_of(alloc, cache, keep, now, value_type, kept.values.as_slice())?;
    let mut marks = marks_of(alloc, kept.steps.as_slice())?;
    items.exchange(id, &mut cell, &mut marks);
    Ok(())
}

/// Puts what a base keeps of the item with an id into the cells, where there is such an item.
#[tactic(auto, using(crate::proofs::Histories::put_there))]
fn put_at(
    alloc: Global,
    cache: &Cache,
    conf: &Conf,
    keeps: &[Keep],
    now: Moment,
    rows: &[BaseItem],
    items: &mut preprocess::Cells,
    id: u32,
) -> Result<(), OutOfMemory>
    requires keeps { keeps.now ≡ keeps_of conf.now }
    requires ordered { HaveOrdered conf.now.items rows.now }
    ensures puts { OnOk result (PutsAt conf.now now rows.now id items.old items.new) }
    ensures of { AreIn cache.now items.old.cells.items → AreIn cache.now items.new.cells.items }
{
    match by_id(conf.items.as_slice(), id) {
        None => Ok(()),
        Some(item) => match by_id(rows, id) {
            None => Ok(()),
            Some(kept) => match by_id(keeps, id) {
                None => Ok(()),
                Some(keep) => put_item(alloc, cache, items, id, *keep, now, item.value_type, kept),
            },
        },
    }
}

/// Puts what a base keeps of each item into cells without values.
#[tactic(auto, using(crate::proofs::Restored::are_ordered))]
fn put_all(
    alloc: Global,
    cache: &Cache,
    conf: &Conf,
    base: &Base,
    items: &mut preprocess::Cells,
) -> Result<(), OutOfMemory>
    requires fits { FitsBase conf.now base.now }
    requires new { AreRestored conf.now base.now 0 items.old }
    ensures restored { OnOk result (AreRestored conf.now base.entry.now (length base.entry.now.items) items.new) }
    ensures of { AreIn cache.now items.old.cells.items → AreIn cache.now items.new.cells.items }
{
    let keeps = keeps(alloc, conf)?;
    let rows = base.items.as_slice();
    for place in 0..rows.len() {
        put_at(
            alloc,
            cache,
            conf,
            keeps.as_slice(),
            base.now,
            rows,
            items,
            id_of(place)?,
        )?;
    }
    Ok(())
}

/// What a run that begins with a base keeps of the items: their values, which stand in the cache, and what their steps
/// remember.
#[tactic(auto, using(crate::proofs::Restored::new_restored))]
pub(crate) fn items_of(
    alloc: Global,
    cache: &Cache,
    conf: &Conf,
    base: &Base,
) -> Result<preprocess::Cells, OutOfMemory>
    requires { FitsBase conf.now base.now }
    ensures restored { IfOk result (AreRestored conf.now base.entry.now (length base.entry.now.items)) }
    ensures of { IfOk result (λ items. AreIn cache.now items.cells.items) }
{
    let mut items = preprocess::Cells::new(alloc, conf)?;
    put_all(alloc, cache, conf, base, &mut items)?;
    Ok(items)
}
