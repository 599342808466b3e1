//! The cells of triggers.

ghost use Rattle.std.specs.Prelude.{◌≡◌, [], ◌∷◌, None, Some, length, replicate, IfOk, OnOk, OnErr};
ghost use Rattle.std.specs.Option.{option_or};
ghost use Rattle.trigger_state.specs.Cells.{opens_in, HasOpen, none_open};
ghost use Rattle.trigger_state.specs.Carry.{carried, gone_of, all_open};
ghost use Rattle.trigger_state.specs.Problems.{grown};

use crate::absorbing::{add, close, run};
use crate::carrying::{Carried, carry_over, ids_in_order};
use crate::looking::Opens;
use crate::problems::Open;
use crate::stage::InForce;
use std::alloc::Global;
use std::marker::Model;
use zbx_types::{Conf, EventId, Many, Moment, OutOfMemory, Rec};

/// What a run keeps of triggers: the open problems of each, in the order in which they were made, and the moment of
/// the first Tick. Contracts see the rows, and read them by `opens_in`.
#[derive(Drop)]
pub struct TriggerCells {
    rows: Vec<Many<Open>>,
    tick: Option<Moment>,
}

impl Model for TriggerCells {
    ghost use Rattle.trigger_state.specs.Cells.{Kept};

    ghost Value = { Kept };

    ghost view = { λ c. record { rows = c.rows.items; first_tick = c.tick } };
}

/// So many rows with nothing open.
fn no_rows(alloc: Global, count: usize) -> Result<Vec<Many<Open>>, OutOfMemory>
    ensures { IfOk result (λ rows. rows.items ≡ replicate count []) }
{
    let mut rows = Vec::new(alloc);
    for _row in 0..count {
        rows.push(Many::new(alloc))?;
    }
    Ok(rows)
}

/// Rows behind one with nothing open, which is that of no trigger.
fn with_first(alloc: Global, rows: Vec<Many<Open>>) -> Result<Vec<Many<Open>>, OutOfMemory>
    ensures { IfOk result (λ made. made.items ≡ [] ∷ rows.items) }
{
    let mut made = Vec::new(alloc);
    let mut rest = rows;
    made.push(Many::new(alloc))?;
    made.append(&mut rest)?;
    Ok(made)
}

impl TriggerCells {
    /// The cells before the first entry of a configuration: nothing is open, and there was no Tick. [`OutOfMemory`]
    /// where there is no room for a row per trigger.
    pub fn new(alloc: Global, conf: &Conf) -> Result<TriggerCells, OutOfMemory>
        ensures opens { IfOk result (λ cells. HasOpen cells none_open) }
        ensures first_tick { IfOk result (λ cells. cells.first_tick ≡ None) }
        ensures rows { IfOk result (λ cells. length cells.rows ≡ length conf.now.triggers) }
    {
        Ok(TriggerCells {
            rows: no_rows(alloc, conf.triggers.len())?,
            tick: None,
        })
    }

    /// The moment of the first Tick, where there was one.
    pub fn first_tick(&self) -> Option<Moment>
        ensures { result ≡ self.now.first_tick }
    {
        self.tick
    }

    /// Takes a Tick of this moment. The first one is kept.
    pub fn ticked(&mut self, now: Moment)
        ensures first_tick { self.new.first_tick ≡ option_or self.old.first_tick (Some now) }
        ensures opens { self.new.rows ≡ self.old.rows }
    {
        if self.tick.is_none() {
            self.tick = Some(now);
        }
    }

    /// Takes a record: a Problem is opened, a Recovery closes its problem, and a Step stands with its problem in the
    /// place of the last one of its action. Other records change nothing. [`OutOfMemory`] where there is no room for
    /// the copy that is kept; what is open is then as before.
    ///
    /// It looks at the open problems of the record's trigger alone.
    #[tactic(auto, unfolding(crate::specs::Problems::absorbed))]
    pub fn absorb(&mut self, alloc: Global, stage: &InForce, rec: &Rec) -> Result<(), OutOfMemory>
        ensures opens { OnOk result (HasOpen self.new (grown stage.now (opens_in self.old) (rec.now ∷ []))) }
        ensures same { OnErr result (HasOpen self.new (opens_in self.old)) }
        ensures first_tick { self.new.first_tick ≡ self.old.first_tick }
    {
        match rec {
            Rec::Problem { event, .. } => add(alloc, stage, &mut self.rows, *event, rec),
            Rec::Recovery { event, .. } => {
                close(alloc, &mut self.rows, stage.home(*event), *event);
                Ok(())
            }
            Rec::Step { event, .. } => run(alloc, &mut self.rows, stage.home(*event), rec),
            Rec::Failure { .. } | Rec::Message { .. } => Ok(()),
        }
    }

    /// Goes on with a configuration that follows the old one. Each trigger of the new one has the open problems of the
    /// old one's trigger with the names of its host and its own, in their order, but for those that are gone: an open
    /// problem is gone where no trigger has the names of its host and its trigger, or where the one that has them
    /// hasn't, in order, tags with the names of the problem's tags. The result lists the events of all open problems of
    /// the old configuration's triggers that are gone, in the order of making (what is carried over where the
    /// configuration changes is this project's own).
    ///
    /// [`OutOfMemory`] where there is no room for the copies; what is open is then as before. Triggers are found by an
    /// index of their names, so that it takes time by their number and that of the open problems.
    #[tactic(auto, using(crate::proofs::Leaving::row_carried))]
    pub fn carry(
        &mut self,
        alloc: Global,
        old: &Conf,
        new: &Conf,
    ) -> Result<Many<EventId>, OutOfMemory>
        ensures opens { OnOk result (HasOpen self.new (carried old.now new.now (opens_in self.old))) }
        ensures gone { IfOk result (λ gone. gone ≡ gone_of new.now (all_open old.now (opens_in self.old))) }
        ensures same { OnErr result (self.new.rows ≡ self.old.rows) }
        ensures first_tick { self.new.first_tick ≡ self.old.first_tick }
    {
        let ids = ids_in_order(alloc, old)?;
        let Carried { rows, gone, .. } = carry_over(alloc, old, new, &*self, ids.as_slice())?;
        self.rows = with_first(alloc, rows)?;
        Ok(gone)
    }
}

impl Opens for TriggerCells {
    ghost problems = { opens_in };

    fn open(&self, trigger: u32) -> &[Open] {
        match self.rows.get(trigger as usize) {
            None => &[],
            Some(row) => row.as_slice(),
        }
    }
}
