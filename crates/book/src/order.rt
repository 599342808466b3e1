//! Orders: batches with all that is needed to work them out, apart from the book.

ghost use Rattle.std.specs.Prelude.{◌≡◌, get_or, length, min, IfOk, IfErr, OnOk};
ghost use Rattle.entry_step.specs.Parts.{IsCounted};

use book_opening::StartName;
use conf_index::Ready;
use entry_step::{Cells, Part, Steps, WorkedOut, work_out};
use std::alloc::Global;
use std::marker::{Model, PhantomData};
use std::sync::ledger::Ledger;
use syncer_gate::Batch;
use zbx_types::{Many, Numbered, OutOfMemory, Rec};

/// A batch of entries, with copies of the cells in their feet. These have no values, which stand in the run's cache: that,
/// and that its configuration is the run's, its type says.
#[derive(Drop)]
pub struct Order<S: StartName> {
    pub(crate) batch: Batch,
    pub(crate) entries: Many<Numbered>,
    pub(crate) part: Part,
    pub(crate) scratch: Cells,
    pub(crate) of: PhantomData<S>,
}

impl<S: StartName> Model for Order<S> {
    ghost use Rattle.book.specs.Progress.{OrderView, IsOrder};

    ghost Value = { OrderView };

    ghost view = { λ o. record { batch = o.batch; entries = o.entries; part = o.part } };

    ghost invariant = { λ o. IsOrder S.start.stage S.cache o.batch o.entries o.part o.scratch };
}

/// An order that was worked out.
#[derive(Drop)]
pub struct Done<S: StartName> {
    pub(crate) order: Order<S>,
    pub(crate) part: Part,
    pub(crate) made: Many<Many<Rec>>,
}

impl<S: StartName> Model for Done<S> {
    ghost use Rattle.std.specs.Prelude.{◌≡◌};
    ghost use Rattle.entry_step.specs.Parts.{WorksOut};
    ghost use Rattle.book.specs.Progress.{DoneView};

    ghost Value = { DoneView };

    ghost view = { λ d. record { order = d.order; part = d.part; made = d.made } };

    ghost invariant = { λ d. WorksOut S.start.stage d.order.entries d.order.part d.part d.made × (d.part.cache ≡ S.cache) };
}

/// A number of entries, or 2^32 - 1 where it is more.
pub(crate) fn capped(count: usize) -> u32
    ensures { result ≡ min count 4294967295 }
{
    if count < u32::MAX as usize {
        count as u32
    } else {
        u32::MAX
    }
}

impl<S: StartName> Order<S> {
    /// The number of its first entry.
    pub fn first(&self) -> u64
        ensures { result ≡ get_or self.now.batch.numbers 0 0 }
    {
        self.batch.numbers.as_slice().first().copied().unwrap_or(0)
    }

    /// How many entries it has, or 2^32 - 1 where they are more.
    pub fn count(&self) -> u32
        ensures { result ≡ min (length self.now.batch.numbers) 4294967295 }
    {
        capped(self.batch.numbers.as_slice().len())
    }

    /// Works the entries out, one after another, on the copies. It needs nothing of the book. One step is counted for
    /// each trigger that is evaluated. Where memory is refused, the order comes back as it was.
    pub fn run<L: Ledger>(
        self,
        alloc: Global,
        ready: &Ready,
        steps: &mut Steps<L>,
    ) -> Result<Done<S>, (Order<S>, OutOfMemory)>
        requires conf { ready.now ≡ S.start.stage }
        ensures done { IfOk result (λ done. done.order ≡ self) }
        ensures counted { OnOk result (IsCounted S.start.stage self.entries self.part steps.old steps.new) }
        ensures back { IfErr result (λ refused. refused.0 ≡ self) }
    {
        let Order {
            batch,
            entries,
            part,
            mut scratch,
            of,
        } = self;
        let worked = work_out(alloc, ready, &mut scratch, &part, entries.as_slice(), steps);
        let order = Order {
            batch,
            entries,
            part,
            scratch,
            of,
        };
        match worked {
            Ok(WorkedOut { part, made }) => Ok(Done { order, part, made }),
            Err(OutOfMemory) => Err((order, OutOfMemory)),
        }
    }
}
