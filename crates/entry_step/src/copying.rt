//! Copies of cells, as rows of a part.

ghost use Rattle.std.specs.Prelude.{◌≡◌, ◌++◌, [], map, option_map, IfOk, OnOk};
ghost use Rattle.std.specs.List.{cons_option};
ghost use Rattle.zbx_types.specs.Ids.{at_id};
ghost use Rattle.preprocess.specs.Draft.{roomless};
ghost use Rattle.entry_step.specs.Exchange.{roomless_row, item_copy, item_copies, trigger_copy, trigger_copies};

use crate::opens::copies;
use crate::parts::{ItemRow, TriggerRow};
use prep_steps::StepMemory;
use std::alloc::Global;
use trigger_state::Open;
use value_cache::ItemCell;
use zbx_types::{Many, OutOfMemory, by_id};

/// Copies of what steps remember.
fn copied_marks(alloc: Global, marks: &[StepMemory]) -> Result<Many<StepMemory>, OutOfMemory>
    ensures { IfOk result (λ made. made ≡ marks.now) }
{
    let mut made = Many::new(alloc);
    for one in marks {
        made.push(one.copy(alloc)?)?;
    }
    Ok(made)
}

/// The row of an item's copies.
#[tactic(auto, using(crate::proofs::Exchanging::row_made))]
fn item_row(
    alloc: Global,
    id: u32,
    cell: &ItemCell,
    marks: &Many<StepMemory>,
) -> Result<ItemRow, OutOfMemory>
    ensures { IfOk result (λ row. roomless_row row ≡ record { id = id; cell = roomless cell.now; marks = marks.now }) }
{
    Ok(ItemRow {
        id,
        cell: cell.copy(alloc)?,
        marks: copied_marks(alloc, marks.as_slice())?,
    })
}

/// The row of a copy of a trigger's open problems.
fn trigger_row(alloc: Global, id: u32, problems: &Many<Open>) -> Result<TriggerRow, OutOfMemory>
    ensures { IfOk result (λ row. row ≡ record { id = id; problems = problems.now }) }
{
    Ok(TriggerRow {
        id,
        problems: copies(alloc, problems.as_slice())?,
    })
}

/// The row of the copies of the item with an id, if it has a cell.
#[tactic(auto, using(crate::proofs::Exchanging::row_missing, crate::proofs::Exchanging::row_there))]
fn row_of_item(
    alloc: Global,
    cells: &[ItemCell],
    memories: &[Many<StepMemory>],
    id: u32,
) -> Result<Option<ItemRow>, OutOfMemory>
    ensures { IfOk result (λ row. option_map roomless_row row ≡ item_copy id (at_id (map roomless cells.now) id)
        (at_id memories.now id)) }
{
    let Some(cell) = by_id(cells, id) else {
        return Ok(None);
    };
    let Some(marks) = by_id(memories, id) else {
        return Ok(None);
    };
    Ok(Some(item_row(alloc, id, cell, marks)?))
}

/// The row of a copy of the open problems of the trigger with an id, if it has a cell.
fn row_of_trigger(
    alloc: Global,
    problems: &[Many<Open>],
    id: u32,
) -> Result<Option<TriggerRow>, OutOfMemory>
    ensures { IfOk result (λ row. row ≡ trigger_copy id (at_id problems.now id)) }
{
    let Some(opens) = by_id(problems, id) else {
        return Ok(None);
    };
    Ok(Some(trigger_row(alloc, id, opens)?))
}

/// Adds a row, if there is one.
fn add_row<R: Drop>(rows: &mut Vec<R>, row: Option<R>) -> Result<(), OutOfMemory>
    ensures { OnOk result (rows.new.items ≡ rows.old.items ++ cons_option row []) }
{
    if let Some(row) = row {
        rows.push(row)?;
    }
    Ok(())
}

/// Copies of what is kept of the items with these ids.
pub(crate) fn copied_items(
    alloc: Global,
    cells: &[ItemCell],
    memories: &[Many<StepMemory>],
    ids: &[u32],
) -> Result<Vec<ItemRow>, OutOfMemory>
    ensures { IfOk result (λ rows. map roomless_row rows.items ≡ item_copies (map roomless cells.now) memories.now
        ids.now) }
{
    let mut rows = Vec::new(alloc);
    for id in ids {
        add_row(&mut rows, row_of_item(alloc, cells, memories, *id)?)?;
    }
    Ok(rows)
}

/// Copies of the open problems of the triggers with these ids.
pub(crate) fn copied_triggers(
    alloc: Global,
    problems: &[Many<Open>],
    ids: &[u32],
) -> Result<Vec<TriggerRow>, OutOfMemory>
    ensures { IfOk result (λ rows. rows.items ≡ trigger_copies problems.now ids.now) }
{
    let mut rows = Vec::new(alloc);
    for id in ids {
        add_row(&mut rows, row_of_trigger(alloc, problems, *id)?)?;
    }
    Ok(rows)
}

/// Copies of rows of items.
pub(crate) fn items_again(alloc: Global, rows: &[ItemRow]) -> Result<Vec<ItemRow>, OutOfMemory>
    ensures { IfOk result (λ made. map roomless_row made.items ≡ map roomless_row rows.now) }
{
    let mut made = Vec::new(alloc);
    for row in rows {
        made.push(item_row(alloc, row.id, &row.cell, &row.marks)?)?;
    }
    Ok(made)
}

/// Copies of rows of triggers.
pub(crate) fn triggers_again(
    alloc: Global,
    rows: &[TriggerRow],
) -> Result<Vec<TriggerRow>, OutOfMemory>
    ensures { IfOk result (λ made. made.items ≡ rows.now) }
{
    let mut made = Vec::new(alloc);
    for row in rows {
        made.push(trigger_row(alloc, row.id, &row.problems)?)?;
    }
    Ok(made)
}
