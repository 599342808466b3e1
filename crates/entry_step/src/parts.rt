//! Parts of cells: copies of those in the feet of some entries, on which the entries are worked out apart from the
//! others.

ghost use Rattle.std.specs.Prelude.{◌≡◌, true, [], IfOk, OnOk, IsTrue, ◌↔◌};
ghost use Rattle.entry_step.specs.Start.{fresh};
ghost use Rattle.entry_step.specs.Represents.{Holds};
ghost use Rattle.entry_step.specs.Parts.{IsPartOf, IsSame, IsReplaced, IsWorkable, WorksOut, IsCounted};
ghost use Rattle.entry_step.specs.Exchange.{IsCopy, IsTaken};
ghost use Rattle.entry_step.specs.Stepping.{AllMade, AllCounted, AreSteppedTo};

use crate::cells::{Cells, shared};
use crate::copying::{copied_items, copied_triggers, items_again, triggers_again};
use crate::exchange::{exchange_items, exchange_triggers, same_items, same_triggers};
use crate::stepping::step;
use crate::steps::Steps;
use crate::touched::{item_ids, trigger_ids};
use conf_index::Ready;
use prep_steps::StepMemory;
use std::alloc::Global;
use std::marker::Model;
use std::mem::swap;
use std::sync::Arc;
use std::sync::ledger::Ledger;
use trigger_state::Open;
use value_cache::{Cache, ItemCell};
use zbx_types::{Many, Moment, Numbered, OutOfMemory, Rec};

/// The copy of an item's cell, and of what its steps remember.
#[derive(Drop)]
pub struct ItemRow {
    pub(crate) id: u32,
    pub(crate) cell: ItemCell,
    pub(crate) marks: Many<StepMemory>,
}

/// The copy of a trigger's open problems.
#[derive(Drop)]
pub struct TriggerRow {
    pub(crate) id: u32,
    pub(crate) problems: Many<Open>,
}

/// Copies of the cells in the feet of some entries, and the moment of the first Tick. Copies of cells have no values: these
/// stand in the cache of the cells that they were copied from.
#[derive(Drop)]
pub struct Part {
    items: Vec<ItemRow>,
    triggers: Vec<TriggerRow>,
    tick: Option<Moment>,
    cache: Arc<Cache>,
}

impl Model for Part {
    ghost use Rattle.std.specs.Prelude.{◌≡◌, true, map};
    ghost use Rattle.std.specs.Arc.{arc_value};
    ghost use Rattle.footprint.specs.Rows.{rises};
    ghost use Rattle.entry_step.specs.Parts.{PartView, AreHeldIn};

    ghost Value = { PartView };

    ghost view = { λ p. record { items = p.items.items; triggers = p.triggers.items; tick = p.tick; cache = arc_value p.cache } };

    ghost invariant = { λ p. (rises (map (λ row. row.id) p.items.items) ≡ true) × (rises (map (λ row. row.id) p.triggers.items) ≡ true) × AreHeldIn (arc_value p.cache) p.items.items };
}

impl Part {
    /// A copy. [`OutOfMemory`] where there is no room for it.
    #[tactic(auto, using(crate::proofs::Parting::copy_rises))]
    fn copy(&self, alloc: Global) -> Result<Part, OutOfMemory>
        ensures copy { IfOk result (λ made. IsCopy made self.now) }
        ensures cache { IfOk result (λ made. made.cache ≡ self.now.cache) }
    {
        let cache = shared(&self.cache)?;
        Ok(Part {
            items: items_again(alloc, self.items.as_slice())?,
            triggers: triggers_again(alloc, self.triggers.as_slice())?,
            tick: self.tick,
            cache,
        })
    }
}

/// What entries make of a part: their records, those of each entry in turn, and the copies that they leave.
#[derive(Drop)]
pub struct WorkedOut {
    /// What they leave.
    pub part: Part,
    /// Their records.
    pub made: Many<Many<Rec>>,
}

impl Cells {
    /// Copies the cells in the feet of some entries, and the moment of the first Tick. No value is copied: those of the
    /// copies are where those of the cells are. [`OutOfMemory`] where there is no room for them.
    ///
    /// It takes time in the sizes of the feet, and for a Config or a Tick in that of all cells.
    pub fn part(
        &self,
        alloc: Global,
        ready: &Ready,
        entries: &[Numbered],
    ) -> Result<Part, OutOfMemory>
        ensures part { IfOk result (λ part. IsPartOf ready.now.conf entries.now self.now part) }
        ensures cache { IfOk result (λ part. part.cache ≡ self.now.cache) }
    {
        let cells = self.items.cells();
        let memories = self.items.memories();
        if cells.len() != memories.len() {
            return Err(OutOfMemory);
        }
        let cache = shared(&self.cache)?;
        let items = item_ids(alloc, ready, entries, cells)?;
        let triggers = trigger_ids(alloc, ready, entries, self.problems.as_slice())?;
        Ok(Part {
            items: copied_items(alloc, cells, memories, items.as_slice())?,
            triggers: copied_triggers(alloc, self.problems.as_slice(), triggers.as_slice())?,
            tick: self.tick,
            cache,
        })
    }

    /// Whether each copy in a part, whose values stand in the same cache, equals what is here: of values it compares
    /// indexes. Takes no memory.
    pub fn same(&self, part: &Part) -> bool
        requires { part.now.cache ≡ self.now.cache }
        ensures { (result ≡ true) ↔ IsSame self.now part.now }
    {
        if !same_tick(self.tick, part.tick) {
            return false;
        }
        if !same_items(&self.cache, &self.items, part.items.as_slice()) {
            return false;
        }
        same_triggers(self.problems.as_slice(), part.triggers.as_slice())
    }

    /// Exchanges each copy for what is in its place, and the moments of the first Tick. The values of both stand in one
    /// cache. Takes no memory.
    fn exchange(&mut self, part: &mut Part)
        requires { part.old.cache ≡ self.old.cache }
        ensures replaced { IsReplaced self.old part.old self.new }
        ensures taken { IsTaken self.old part.old part.new }
        ensures cache { self.new.cache ≡ self.old.cache }
        ensures part_cache { part.new.cache ≡ part.old.cache }
    {
        exchange_items(&mut self.items, part.items.as_mut_slice());
        exchange_triggers(&mut self.problems, part.triggers.as_mut_slice());
        swap(&mut self.tick, &mut part.tick);
    }

    /// Puts each copy, whose values stand in the same cache, in its place. Takes no memory.
    pub fn put(&mut self, part: Part)
        requires { part.cache ≡ self.old.cache }
        ensures replaced { IsReplaced self.old part self.new }
        ensures cache { self.new.cache ≡ self.old.cache }
    {
        let mut part = part;
        self.exchange(&mut part);
    }
}

/// Whether two moments are the same, or neither is there.
fn same_tick(one: Option<Moment>, other: Option<Moment>) -> bool
    ensures { IsTrue result ↔ (one ≡ other) }
{
    match (one, other) {
        (None, None) => true,
        (Some(a), Some(b)) => a == b,
        _ => false,
    }
}

/// Takes entries, one after another, whatever cells these represent, and answers the records of each.
pub(crate) fn step_all<L: Ledger>(
    alloc: Global,
    ready: &Ready,
    cells: &mut Cells,
    entries: &[Numbered],
    steps: &mut Steps<L>,
) -> Result<Many<Many<Rec>>, OutOfMemory>
    ensures made { IfOk result (λ made. AllMade ready.now cells.old entries.now made cells.new) }
    ensures counted { OnOk result (AllCounted ready.now cells.old entries.now steps.old steps.new) }
    ensures some { AreSteppedTo ready.now cells.old entries.now cells.new }
    ensures cache { cells.new.cache ≡ cells.old.cache }
{
    let mut made = Many::new(alloc);
    for entry in entries {
        made.push(step(alloc, ready, cells, entry, steps)?)?;
    }
    Ok(made)
}

/// Works out entries, one after another, on a part of cells. The part has to be of some cells to which they come.
/// `scratch` are cells before the first entry, in which it is done, and which are so again behind it; its values stand in the
/// same cache.
///
/// One step is counted for each trigger that is evaluated. `Err` where no memory is to be had.
pub fn work_out<L: Ledger>(
    alloc: Global,
    ready: &Ready,
    scratch: &mut Cells,
    part: &Part,
    entries: &[Numbered],
    steps: &mut Steps<L>,
) -> Result<WorkedOut, OutOfMemory>
    requires scratch { Holds (fresh ready.now) scratch.old [] }
    requires cache { part.now.cache ≡ scratch.old.cache }
    requires workable { IsWorkable ready.now entries.now part.now }
    ensures scratch { Holds (fresh ready.now) scratch.new [] }
    ensures cache { scratch.new.cache ≡ scratch.old.cache }
    ensures part_cache { IfOk result (λ w. w.part.cache ≡ part.now.cache) }
    ensures made { IfOk result (λ w. WorksOut ready.now entries.now part.now w.part w.made) }
    ensures counted { OnOk result (IsCounted ready.now entries.now part.now steps.old steps.new) }
{
    let mut part = part.copy(alloc)?;
    scratch.exchange(&mut part);
    let made = step_all(alloc, ready, scratch, entries, steps);
    scratch.exchange(&mut part);
    Ok(WorkedOut { part, made: made? })
}
