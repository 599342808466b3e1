//! What a run keeps of the items.

ghost use Rattle.std.specs.Prelude.{◌≡◌, IfOk, OnOk, OnErr, map, option_copied, ℕ};
ghost use Rattle.std.specs.Option.{unwrap_or};
ghost use Rattle.zbx_types.specs.Ids.{at_id};
ghost use Rattle.preprocess.specs.Rows.{with_row};
ghost use Rattle.preprocess.specs.Carry.{AreCarried};
ghost use Rattle.preprocess.specs.Cells.{AreNew, empty, kept_in, no_marks};
ghost use Rattle.value_cache.specs.Cells.{IsIn};
ghost use Rattle.value_cache.specs.Tokens.{CacheId};
ghost use Rattle.preprocess.specs.Draft.{kept_of, roomless, AreIn, HasRoom};

use crate::carrying::cells_for;
use crate::exchange::exchange_at;
use crate::memories::memories_for;
use crate::naming::old_items;
use prep_steps::StepMemory;
use std::alloc::Global;
use value_cache::{Cache, ItemCell, Keep, keeps};
use zbx_types::{Conf, Item, Many, Moment, OutOfMemory, by_id};

/// What a run keeps of the items of a configuration, in the order of their ids: the cell of each, and what its steps
/// remember.
#[derive(Drop)]
pub struct Cells {
    pub(crate) cells: Vec<ItemCell>,
    pub(crate) memories: Vec<Many<StepMemory>>,
}

/// Cells without values.
pub(crate) fn empty_cells(alloc: Global, keeps: &[Keep]) -> Result<Vec<ItemCell>, OutOfMemory>
    ensures kept { IfOk result (λ cells. map kept_of cells.items ≡ map empty keeps.now) }
    ensures of { IfOk result (λ cells. (cache : CacheId) → AreIn cache cells.items) }
{
    let mut cells = Vec::new(alloc);
    for keep in keeps {
        cells.push(ItemCell::new(alloc, *keep))?;
    }
    Ok(cells)
}

/// The memories of steps that no value has marked.
pub(crate) fn no_marks(alloc: Global, item: &Item) -> Result<Many<StepMemory>, OutOfMemory>
    ensures { IfOk result (λ marks. marks ≡ no_marks item.now) }
{
    let mut marks = Many::new(alloc);
    for _step in item.steps.as_slice() {
        marks.push(StepMemory::new(alloc))?;
    }
    Ok(marks)
}

/// The same of each item.
fn all_marks(alloc: Global, items: &[Item]) -> Result<Vec<Many<StepMemory>>, OutOfMemory>
    ensures { IfOk result (λ memories. memories.items ≡ map no_marks items.now) }
{
    let mut memories = Vec::new(alloc);
    for item in items {
        memories.push(no_marks(alloc, item)?)?;
    }
    Ok(memories)
}

/// Cells over another cache, in which copies of their values are stored.
fn moved_cells(
    alloc: Global,
    from: &Cache,
    to: &Cache,
    cells: &[ItemCell],
) -> Result<Vec<ItemCell>, OutOfMemory>
    requires { AreIn from.now cells.now }
    ensures kept { IfOk result (λ made. map kept_of made.items ≡ map kept_of cells.now) }
    ensures of { IfOk result (λ made. AreIn to.now made.items) }
{
    let mut made = Vec::with_capacity(alloc, cells.len())?;
    for cell in cells {
        made.push(cell.moved(alloc, from, to)?)?;
    }
    Ok(made)
}

impl Cells {
    /// The cells before the first entry of a configuration: without values, and no step has a mark. Each cell is to
    /// keep what the calls of the configuration ask for. [`OutOfMemory`] where there is no room for them.
    pub fn new(alloc: Global, conf: &Conf) -> Result<Cells, OutOfMemory>
        ensures new { IfOk result (λ cells. AreNew conf.now cells) }
        ensures of { IfOk result (λ cells. (cache : CacheId) → AreIn cache cells.cells.items) }
    {
        let keeps = keeps(alloc, conf)?;
        Ok(Cells {
            cells: empty_cells(alloc, keeps.as_slice())?,
            memories: all_marks(alloc, conf.items.as_slice())?,
        })
    }

    /// The cells of the items, in the order of ids. Takes no memory.
    pub fn cells(&self) -> &[ItemCell]
        ensures { result.now ≡ self.now.cells.items }
    {
        self.cells.as_slice()
    }

    /// The cell of the item with an id. Takes no memory.
    pub fn cell(&self, id: u32) -> Option<&ItemCell>
        ensures { option_copied result ≡ at_id self.now.cells.items id }
    {
        by_id(self.cells.as_slice(), id)
    }

    /// What the steps of the items remember, in the order of ids. Takes no memory.
    pub fn memories(&self) -> &[Many<StepMemory>]
        ensures { result.now ≡ self.now.memories.items }
    {
        self.memories.as_slice()
    }

    /// Exchanges a cell, and what steps remember, for those of the item with an id. Takes no memory.
    #[tactic(auto, using(crate::proofs::InCache::in_exchanged, crate::proofs::InCache::in_taken))]
    pub fn exchange(&mut self, id: u32, cell: &mut ItemCell, marks: &mut Many<StepMemory>)
        ensures cells { self.new.cells.items ≡ with_row self.old.cells.items id cell.old }
        ensures cell { cell.new ≡ unwrap_or (at_id self.old.cells.items id) cell.old }
        ensures memories { self.new.memories.items ≡ with_row self.old.memories.items id marks.old }
        ensures marks { marks.new ≡ unwrap_or (at_id self.old.memories.items id) marks.old }
        ensures of { (cache : CacheId) → AreIn cache self.old.cells.items → IsIn cache cell.old → AreIn cache self.new.cells.items }
        ensures cell_of { (cache : CacheId) → AreIn cache self.old.cells.items → IsIn cache cell.old → IsIn cache cell.new }
    {
        exchange_at(&mut self.cells, id, cell);
        exchange_at(&mut self.memories, id, marks);
    }

    /// Goes over to a configuration that follows the old one, at a moment that isn't before that of an earlier value. Each
    /// of its items has a cell that is to keep what its calls ask for. An item of the old configuration with the same
    /// name of its host, the same key and the same value type goes on as it: its values are those that the old one's cell
    /// is to keep at this moment, and its steps remember what the old ones do, each while it and those before it are
    /// equal to the old ones. Any other item has no values, and no step of it has a mark.
    ///
    /// [`OutOfMemory`] where there is no room; all is then as before. Items are found by an index of their names, so that
    /// it takes time by the lengths of the names and of what is kept.
    #[tactic(auto, using(crate::proofs::GoingOn::as_many, crate::proofs::GoingOn::values_are))]
    pub fn carry(
        &mut self,
        alloc: Global,
        old: &Conf,
        new: &Conf,
        now: Moment,
    ) -> Result<(), OutOfMemory>
        ensures ok { OnOk result (AreCarried old.now new.now now self.old self.new) }
        ensures of { (cache : CacheId) → AreIn cache self.old.cells.items → AreIn cache self.new.cells.items }
        ensures err { OnErr result (self.new ≡ self.old) }
    {
        let olds = old_items(alloc, old, new)?;
        let keeps = keeps(alloc, new)?;
        let memories = memories_for(alloc, old, new, olds.as_slice(), self.memories.as_slice())?;
        let cells = cells_for(
            alloc,
            &mut self.cells,
            olds.as_slice(),
            keeps.as_slice(),
            now,
        )?;
        self.cells = cells;
        self.memories = memories;
        Ok(())
    }

    /// Stores copies of the values of the cells, which stand in one cache, in another one, and has the cells show those. At
    /// [`OutOfMemory`] the cells are as before.
    pub fn move_to(&mut self, alloc: Global, from: &Cache, to: &Cache) -> Result<(), OutOfMemory>
        requires { AreIn from.now self.old.cells.items }
        ensures kept { OnOk result (kept_in self.new ≡ kept_in self.old) }
        ensures of { OnOk result (AreIn to.now self.new.cells.items) }
        ensures memories { self.new.memories ≡ self.old.memories }
        ensures err { OnErr result (self.new ≡ self.old) }
    {
        self.cells = moved_cells(alloc, from, to, self.cells.as_slice())?;
        Ok(())
    }
}

/// Makes room for one more value of an item, if it has a cell.
#[tactic(auto, using(crate::proofs::Keeping::roomless_set, crate::proofs::Keeping::room_own, crate::proofs::Keeping::room_none, crate::proofs::Keeping::room_past, crate::proofs::Keeping::room_other))]
pub(crate) fn reserve_at(cells: &mut Vec<ItemCell>, id: u32) -> Result<(), OutOfMemory>
    ensures same { map roomless cells.new.items ≡ map roomless cells.old.items }
    ensures room { OnOk result (HasRoom cells.new.items id) }
    ensures others { OnOk result ((other : ℕ) → HasRoom cells.old.items other → HasRoom cells.new.items other) }
{
    if id == 0 {
        return Ok(());
    }
    let index = id as usize - 1;
    if index >= cells.len() {
        return Ok(());
    }
    cells[index].reserve()
}
