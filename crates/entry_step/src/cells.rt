//! The cells of a run.

ghost use Rattle.std.specs.Prelude.{◌≡◌, [], map, replicate, IfOk, OnOk, OnErr};
ghost use Rattle.std.specs.Arc.{arc_value};
ghost use Rattle.entry_step.specs.Start.{first_start};
ghost use Rattle.preprocess.specs.Draft.{roomless, AreIn};
ghost use Rattle.entry_step.specs.Represents.{Holds, StillRepresents};

use std::alloc::Global;
use std::marker::Model;
use std::sync::Arc;
use trigger_state::Open;
use value_cache::Cache;
use zbx_types::{Conf, Many, Moment, OutOfMemory};

/// What a run keeps between entries: the values of each item that a later window can see, what its steps remember,
/// the open problems of each trigger in the order in which they were made, and the moment of the first Tick. Items
/// and triggers stand in the order of ids. The values stand in a cache, which cells and their parts share: it keeps that
/// all tokens are of this cache, so that no call has a condition on it.
#[derive(Drop)]
pub struct Cells {
    pub(crate) items: preprocess::Cells,
    pub(crate) problems: Vec<Many<Open>>,
    pub(crate) tick: Option<Moment>,
    pub(crate) cache: Arc<Cache>,
}

impl Model for Cells {
    ghost use Rattle.std.specs.Prelude.{map};
    ghost use Rattle.std.specs.Arc.{arc_value};
    ghost use Rattle.preprocess.specs.Draft.{roomless, AreIn};
    ghost use Rattle.entry_step.specs.Represents.{CellsView};

    ghost Value = { CellsView };

    ghost view = { λ c. record { items = map roomless c.items.cells.items; memories = c.items.memories.items; problems = c.problems.items; tick = c.tick; cache = arc_value c.cache } };

    ghost invariant = { λ c. AreIn (arc_value c.cache) c.items.cells.items };
}

/// One more owner of a cache. [`OutOfMemory`] where there are as many as can be counted.
pub(crate) fn shared(cache: &Arc<Cache>) -> Result<Arc<Cache>, OutOfMemory>
    ensures { IfOk result (λ made. arc_value made ≡ arc_value cache.now) }
{
    Ok(cache.clone()?)
}

/// The open problems of triggers that have none.
fn no_problems(alloc: Global, count: usize) -> Result<Vec<Many<Open>>, OutOfMemory>
    ensures { IfOk result (λ problems. problems.items ≡ replicate count []) }
{
    let mut problems = Vec::new(alloc);
    for _trigger in 0..count {
        problems.push(Many::new(alloc))?;
    }
    Ok(problems)
}

impl Cells {
    /// The cells before the first entry of a configuration, whose values are to stand in this cache. `Err` where no memory
    /// is to be had.
    pub fn new(alloc: Global, conf: &Conf, cache: Arc<Cache>) -> Result<Cells, OutOfMemory>
        ensures holds { IfOk result (λ cells. Holds (first_start conf.now) cells []) }
        ensures cache { IfOk result (λ cells. cells.cache ≡ arc_value cache) }
    {
        Ok(Cells {
            items: preprocess::Cells::new(alloc, conf)?,
            problems: no_problems(alloc, conf.triggers.len())?,
            tick: None,
            cache,
        })
    }

    /// The cells with what is kept of the items, whose values stand in this cache, the open problems of each trigger, in
    /// the order of ids, and the moment of the first Tick, where there was one. Takes no memory.
    pub fn of(
        items: preprocess::Cells,
        problems: Vec<Many<Open>>,
        tick: Option<Moment>,
        cache: Arc<Cache>,
    ) -> Cells
        requires { AreIn (arc_value cache) items.cells.items }
        ensures items { result.items ≡ map roomless items.cells.items }
        ensures memories { result.memories ≡ items.memories.items }
        ensures problems { result.problems ≡ problems.items }
        ensures tick { result.tick ≡ tick }
        ensures cache { result.cache ≡ arc_value cache }
    {
        Cells {
            items,
            problems,
            tick,
            cache,
        }
    }

    /// The cache in which the values of the cells stand. Takes no memory.
    pub fn cache(&self) -> &Cache
        ensures { result.now ≡ self.now.cache }
    {
        &self.cache
    }

    /// The same cache, for other cells. [`OutOfMemory`] where it has as many owners as can be counted.
    pub fn share(&self) -> Result<Arc<Cache>, OutOfMemory>
        ensures { IfOk result (λ cache. arc_value cache ≡ self.now.cache) }
    {
        shared(&self.cache)
    }

    /// Stores copies of the values of the cells in another cache, which is theirs from now on, and leaves the one so far:
    /// what else it holds is free once it has no other owner. At [`OutOfMemory`] the cells are as before.
    pub fn move_to(&mut self, alloc: Global, cache: Arc<Cache>) -> Result<(), OutOfMemory>
        ensures represented { OnOk result (StillRepresents self.old self.new) }
        ensures cache { OnOk result (self.new.cache ≡ arc_value cache) }
        ensures err { OnErr result (self.new ≡ self.old) }
    {
        self.items.move_to(alloc, &self.cache, &cache)?;
        self.cache = cache;
        Ok(())
    }

    /// What is kept of the items. Takes no memory.
    pub fn items(&self) -> &preprocess::Cells
        ensures cells { map roomless result.now.cells.items ≡ self.now.items }
        ensures memories { result.now.memories.items ≡ self.now.memories }
        ensures of { AreIn self.now.cache result.now.cells.items }
    {
        &self.items
    }

    /// The open problems of each trigger in the order in which they were made, the triggers in the order of ids. Takes no
    /// memory.
    pub fn problems(&self) -> &[Many<Open>]
        ensures { result.now ≡ self.now.problems }
    {
        self.problems.as_slice()
    }

    /// The moment of the first Tick, where there was one.
    pub fn first_tick(&self) -> Option<Moment>
        ensures { result ≡ self.now.tick }
    {
        self.tick
    }
}
