//! Rows of a part that are exchanged for cells, and whether they are the same.

ghost use Rattle.std.specs.Prelude.{◌≡◌, ◌↔◌, IsTrue, Some, None};
ghost use Rattle.zbx_types.specs.Ids.{at_id};
ghost use Rattle.preprocess.specs.Rows.{with_row};
ghost use Rattle.value_cache.specs.Cells.{IsIn};
ghost use Rattle.preprocess.specs.Draft.{AreIn};
ghost use Rattle.entry_step.specs.Each.{Each};
ghost use Rattle.entry_step.specs.Parts.{AreHeldIn};
ghost use Rattle.entry_step.specs.Exchange.{put_all, item_taken, items_taken, trigger_taken, triggers_taken};
ghost use Rattle.entry_step.specs.Exchange.{IsSameCell, IsSameItem, IsSameTrigger};

use crate::parts::{ItemRow, TriggerRow};
use crate::same::{same_memories, same_opens};
use preprocess::exchange_at;
use trigger_state::Open;
use value_cache::Cache;
use zbx_types::{Many, by_id};

/// Exchanges the copies of an item for what is kept of it. Takes no memory.
fn exchange_item(items: &mut preprocess::Cells, row: &mut ItemRow)
    ensures cells { items.new.cells.items ≡ with_row items.old.cells.items row.old.id row.old.cell }
    ensures memories { items.new.memories.items ≡ with_row items.old.memories.items row.old.id row.old.marks }
    ensures row { row.new ≡ item_taken items.old.cells.items items.old.memories.items row.old }
{
    items.exchange(row.id, &mut row.cell, &mut row.marks);
}

/// Exchanges the copies of items for what is kept of them. Takes no memory.
pub(crate) fn exchange_items(items: &mut preprocess::Cells, rows: &mut [ItemRow])
    ensures cells { items.new.cells.items ≡ put_all (λ row. row.id) (λ row. row.cell) items.old.cells.items rows.old }
    ensures memories { items.new.memories.items ≡ put_all (λ row. row.id) (λ row. row.marks) items.old.memories.items
        rows.old }
    ensures rows { rows.new ≡ items_taken items.old.cells.items items.old.memories.items rows.old }
{
    for place in 0..rows.len() {
        exchange_item(items, &mut rows[place]);
    }
}

/// Exchanges the copies of a trigger's open problems for those that are kept. Takes no memory.
fn exchange_trigger(problems: &mut Vec<Many<Open>>, row: &mut TriggerRow)
    ensures problems { problems.new.items ≡ with_row problems.old.items row.old.id row.old.problems }
    ensures row { row.new ≡ trigger_taken problems.old.items row.old }
{
    exchange_at(problems, row.id, &mut row.problems);
}

/// Exchanges the copies of triggers' open problems for those that are kept. Takes no memory.
pub(crate) fn exchange_triggers(problems: &mut Vec<Many<Open>>, rows: &mut [TriggerRow])
    ensures problems { problems.new.items ≡ put_all (λ row. row.id) (λ row. row.problems) problems.old.items rows.old }
    ensures rows { rows.new ≡ triggers_taken problems.old.items rows.old }
{
    for place in 0..rows.len() {
        exchange_trigger(problems, &mut rows[place]);
    }
}

/// Whether the copy of a cell is what is kept.
#[tactic(auto, using(crate::proofs::Exchanging::cell_some, crate::proofs::Exchanging::cell_none))]
fn same_cell(cache: &Cache, items: &preprocess::Cells, row: &ItemRow) -> bool
    requires own { AreIn cache.now items.now.cells.items }
    requires copy { IsIn cache.now row.now.cell }
    ensures { IsTrue result ↔ IsSameCell items.now.cells.items row.now }
{
    match items.cell(row.id) {
        None => false,
        Some(cell) => cell.same(cache, &row.cell),
    }
}

/// Whether the copy of what steps remember is what they do.
fn same_marks(memories: &[Many<prep_steps::StepMemory>], row: &ItemRow) -> bool
    ensures { IsTrue result ↔ (at_id memories.now row.now.id ≡ Some row.now.marks) }
{
    match by_id(memories, row.id) {
        None => false,
        Some(marks) => same_memories(marks.as_slice(), row.marks.as_slice()),
    }
}

/// Whether the copies of an item are what is kept.
fn same_item(cache: &Cache, items: &preprocess::Cells, row: &ItemRow) -> bool
    requires own { AreIn cache.now items.now.cells.items }
    requires copy { IsIn cache.now row.now.cell }
    ensures { IsTrue result ↔ IsSameItem items.now.cells.items items.now.memories.items row.now }
{
    same_cell(cache, items, row) && same_marks(items.memories(), row)
}

/// Whether the copies of items are what is kept of them.
pub(crate) fn same_items(cache: &Cache, items: &preprocess::Cells, rows: &[ItemRow]) -> bool
    requires own { AreIn cache.now items.now.cells.items }
    requires copies { AreHeldIn cache.now rows.now }
    ensures { IsTrue result ↔ Each (IsSameItem items.now.cells.items items.now.memories.items) rows.now }
{
    for row in rows {
        if !same_item(cache, items, row) {
            return false;
        }
    }
    true
}

/// Whether the copies of a trigger's open problems are those that are kept.
fn same_trigger(problems: &[Many<Open>], row: &TriggerRow) -> bool
    ensures { IsTrue result ↔ IsSameTrigger problems.now row.now }
{
    match by_id(problems, row.id) {
        None => false,
        Some(opens) => same_opens(opens.as_slice(), row.problems.as_slice()),
    }
}

/// Whether the copies of triggers' open problems are those that are kept.
pub(crate) fn same_triggers(problems: &[Many<Open>], rows: &[TriggerRow]) -> bool
    ensures { IsTrue result ↔ Each (IsSameTrigger problems.now) rows.now }
{
    for row in rows {
        if !same_trigger(problems, row) {
            return false;
        }
    }
    true
}
