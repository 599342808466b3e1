//! How far the work on the entries is: the entries themselves, where each of them stands, the cells, and the records
//! kept.

ghost use Rattle.std.specs.Prelude.{◌≡◌, ◌≢◌, ◌≤◌, ◌<◌, ◌+◌, ◌++◌, [], ℕ, true, false, length, map, replicate, get_or, is_some, IfOk, IfErr, IfSome, OnOk, OnErr, Some, None, take};
ghost use Rattle.std.specs.Option.{option_map};
ghost use Rattle.footprint.specs.Feet.{feet_of};
ghost use Rattle.entry_step.specs.Log.{log_of};
ghost use Rattle.entry_step.specs.Records.{replay};
ghost use Rattle.syncer_gate.specs.Gate.{IsOpenBatch, batch_of, claimed, with_ended};
ghost use Rattle.syncer_gate.specs.Chosen.{chosen};
ghost use Rattle.syncer_gate.specs.declared.marks.Mark.{Mark};
ghost use Rattle.syncer_gate.specs.declared.marks.Mark.TheVariants as Mark;
ghost use Rattle.std.specs.Vec.{vec_len, vec_capacity};
ghost use Rattle.entry_step.specs.Laws.{IsGood};
ghost use Rattle.entry_step.specs.Represents.{Holds};
ghost use Rattle.book.specs.Entries.{IsWholeLog};
ghost use Rattle.book.specs.Progress.{IsGoing, HasInputs, IsOneMore};
ghost use Rattle.syncer_gate.specs.Marks.{is_open, is_pending, reopened};
ghost use Rattle.std.specs.List.{list_any};

use crate::inputs::{
    Listed, Outputs, is_open_here, order_of, outputs_of, put_by, put_in, take_batch, work_in,
};
use crate::names::RunName;
use crate::order::{Done, Order};
use crate::ring::RingEnd;
use book_opening::StartName;
use conf_index::Ready;
use entry_step::{Cells, Steps};
use std::alloc::Global;
use std::marker::{Model, PhantomData};
use std::sync::ledger::Ledger;
use syncer_gate::Claims;
use zbx_types::{Many, Numbered, OutOfMemory, Rec};

/// How many pending entries are looked at for one that may be worked out in place.
const LOOKS: u32 = 4000;

/// The entries behind those with which the run began, in the order of their numbers, where each of them stands, the
/// cells behind those that are applied, and the records of these. Some cells before the first entry are spare, for
/// orders to work in.
#[derive(Drop)]
pub(crate) struct Progress<S: StartName> {
    // the number before the first of them
    before: u64,
    entries: Vec<Numbered>,
    claims: Claims,
    cells: Cells,
    made: Vec<Many<Rec>>,
    spare: Vec<Cells>,
    of: PhantomData<S>,
}

impl<S: StartName> Model for Progress<S> {
    ghost use Rattle.std.specs.Prelude.{◌≡◌, ◌≤◌, All};
    ghost use Rattle.book.specs.Progress.{ProgressView, IsBlank, IsGoing};

    ghost Value = { ProgressView };

    ghost view = { λ p. record { entries = p.entries.items; gate = p.claims; cells = p.cells; made = p.made.items } };

    ghost invariant = { λ p. IsGoing S.start (record { entries = p.entries.items; gate = p.claims; cells = p.cells; made = p.made.items }) × All (IsBlank S.start.stage S.cache) p.spare.items × (p.before ≡ S.start.number) × (p.before ≤ 9000000004294967295) × (p.cells.cache ≡ S.cache) };
}

/// The records at a place, none where there is no such place.
fn kept_at(made: &Vec<Many<Rec>>, place: usize) -> &[Rec]
    ensures { result.now ≡ get_or made.now.items place [] }
{
    match made.get(place) {
        None => &[],
        Some(list) => list.as_slice(),
    }
}

/// Takes so many entries out of the ring, which are known to be there, to places that are there. None of them has
/// records.
#[tactic(auto, using(crate::proofs::Batches::more_came, crate::proofs::Numbers::came_whole))]
fn pull_known<S: StartName, N: RunName>(
    alloc: Global,
    entries: &mut Vec<Numbered>,
    made: &mut Vec<Many<Rec>>,
    ring: &mut RingEnd<S, N>,
    count: usize,
)
    requires known { count ≤ length ring.old.known }
    requires received { entries.old.items ≡ ring.old.received }
    requires whole { IsWholeLog S.start entries.old.items }
    requires room { vec_len entries.old + count ≤ vec_capacity entries.old }
    requires rows { vec_len made.old + count ≤ vec_capacity made.old }
    ensures received { entries.new.items ≡ ring.new.received }
    ensures fifo { ring.new.received ++ ring.new.known ≡ ring.old.received ++ ring.old.known }
    ensures capacity { ring.new.capacity ≡ ring.old.capacity }
    ensures count { length ring.new.received ≡ length ring.old.received + count }
    ensures whole { IsWholeLog S.start entries.new.items }
    ensures more { entries.new.items ≡ entries.old.items ++ take count ring.old.known }
    ensures size { length made.new.items ≡ length made.old.items + count }
    ensures made { (n : ℕ) → get_or made.new.items n [] ≡ get_or made.old.items n [] }
{
    for _entry in 0..count {
        entries.push_reserved(ring.take_known());
        made.push_reserved(Many::new(alloc));
    }
}

impl<S: StartName> Progress<S> {
    /// The work behind what stood before a run, of which these cells hold what is left: no entry came yet.
    pub(crate) fn new(alloc: Global, before: u64, cells: Cells) -> Progress<S>
        requires before { before ≡ S.start.number }
        requires few { before ≤ 9000000004294967295 }
        requires good { IsGood S.start }
        requires cells { Holds S.start cells [] }
        requires cache { cells.cache ≡ S.cache }
        ensures entries { result.entries ≡ [] }
        ensures gate { result.gate ≡ record { first = before + 1; marks = []; next = 1 } }
    {
        let entries = Vec::new(alloc);
        let claims = Claims::new(alloc, before + 1);
        let made = Vec::new(alloc);
        let spare = Vec::new(alloc);
        Progress {
            before,
            entries,
            claims,
            cells,
            made,
            spare,
            of: PhantomData,
        }
    }

    /// Takes so many entries out of the ring, which are known to be there. They are pending. At `Err` none was taken.
    pub(crate) fn pull<N: RunName>(
        &mut self,
        alloc: Global,
        ring: &mut RingEnd<S, N>,
        count: usize,
    ) -> Result<(), OutOfMemory>
        requires known { count ≤ length ring.old.known }
        requires received { self.old.entries ≡ ring.old.received }
        ensures received { self.new.entries ≡ ring.new.received }
        ensures fifo { ring.new.received ++ ring.new.known ≡ ring.old.received ++ ring.old.known }
        ensures capacity { ring.new.capacity ≡ ring.old.capacity }
        ensures count { OnOk result (length ring.new.received ≡ length ring.old.received + count) }
        ensures gate { OnOk result (self.new.gate ≡ record self.old.gate
            { marks = self.old.gate.marks ++ replicate count Mark.Pending }) }
        ensures rest { (self.new.cells ≡ self.old.cells)
            × ((n : ℕ) → get_or self.new.made n [] ≡ get_or self.old.made n []) }
        ensures err { OnErr result (self.new ≡ self.old) }
        ensures err_ring { OnErr result (ring.new ≡ ring.old) }
    {
        if count > u32::MAX as usize {
            return Err(OutOfMemory);
        }
        self.entries.reserve(count)?;
        self.made.reserve(count)?;
        self.claims.offer(count as u32)?;
        pull_known(alloc, &mut self.entries, &mut self.made, ring, count);
        Ok(())
    }

    /// Takes a batch of at most `limit` of the first `looks` pending entries, as the crate `syncer_gate` chooses it, with
    /// copies of the cells in their feet. None comes exactly where there is nothing to take; with no open batch that is exactly where nothing is
    /// pending. Where memory is refused nothing was taken.
    pub(crate) fn claim(
        &mut self,
        alloc: Global,
        ready: &Ready,
        looks: u32,
        limit: u32,
    ) -> Result<Option<Order<S>>, OutOfMemory>
        requires conf { ready.now ≡ S.start.stage }
        requires looks { 1 ≤ looks }
        requires limit { 1 ≤ limit }
        ensures batch { IfOk result (λ made. option_map (λ order. order.batch) made ≡ batch_of self.old.gate.next
            (chosen (feet_of S.start.stage.conf) self.old.gate self.old.entries looks limit)) }
        ensures inputs { IfOk result (λ made. IfSome made (λ order. HasInputs self.old order)) }
        ensures gate { OnOk result (self.new.gate ≡ claimed self.old.gate
            (chosen (feet_of S.start.stage.conf) self.old.gate self.old.entries looks limit)) }
        ensures rest { (self.new.entries ≡ self.old.entries) × (self.new.cells ≡ self.old.cells)
            × (self.new.made ≡ self.old.made) }
        ensures idle { IfOk result (λ made. list_any is_open self.old.gate.marks ≡ false
            → is_some made ≡ list_any is_pending self.old.gate.marks) }
        ensures err { OnErr result (self.new.gate.marks ≡ self.old.gate.marks) }
    {
        let all = self.entries.as_slice();
        let taken = take_batch::<S>(alloc, ready, &mut self.claims, all, looks, limit)?;
        match taken {
            None => Ok(None),
            Some(batch) => {
                let listed = Listed {
                    before: self.before,
                    entries: all,
                };
                match order_of(alloc, ready, &self.cells, listed, &mut self.spare, batch) {
                    Ok(order) => Ok(Some(order)),
                    Err((batch, OutOfMemory)) => {
                        self.claims.give_back(batch);
                        Err(OutOfMemory)
                    }
                }
            }
        }
    }

    /// Puts what an order came to in place: its entries are applied. Where its batch isn't open here nothing changes.
    /// Where its inputs aren't what is here, its entries are worked out anew; else no step is counted. Where memory
    /// is refused the order comes back, and all is as before.
    pub(crate) fn apply<L: Ledger>(
        &mut self,
        alloc: Global,
        ready: &Ready,
        done: Done<S>,
        steps: &mut Steps<L>,
    ) -> Result<(), (Done<S>, OutOfMemory)>
        requires conf { ready.now ≡ S.start.stage }
        ensures entries { self.new.entries ≡ self.old.entries }
        ensures open { OnOk result (IsOpenBatch self.old.gate done.order.batch
            → self.new.gate ≡ with_ended done.order.batch.id Mark.Applied self.old.gate) }
        ensures other { (IsOpenBatch self.old.gate done.order.batch → ⊥) → self.new ≡ self.old }
        ensures uncounted { HasInputs self.old done.order → steps.new ≡ steps.old }
        ensures err { OnErr result (self.new ≡ self.old) }
        ensures back { IfErr result (λ refused. refused.0 ≡ done) }
    {
        if !is_open_here(&self.claims, &done) {
            drop(done);
            return Ok(());
        }
        let all = Listed {
            before: self.before,
            entries: self.entries.as_slice(),
        };
        let outputs = outputs_of(alloc, ready, &self.cells, all, done, steps)?;
        let Outputs {
            batch,
            entries,
            part,
            made,
            scratch,
        } = outputs;
        let ones = Listed {
            before: self.before,
            entries: entries.as_slice(),
        };
        put_in(&mut self.cells, &mut self.made, ones, part, made);
        drop(entries);
        self.claims.settle(batch);
        put_by(&mut self.spare, scratch);
        Ok(())
    }

    /// Makes the entries of an order pending again. Where its batch isn't open here nothing changes. It is never
    /// refused.
    pub(crate) fn give_back(&mut self, order: Order<S>)
        ensures open { IsOpenBatch self.old.gate order.batch
            → self.new.gate ≡ with_ended order.batch.id Mark.Pending self.old.gate }
        ensures other { (IsOpenBatch self.old.gate order.batch → ⊥) → self.new ≡ self.old }
        ensures rest { (self.new.entries ≡ self.old.entries) × (self.new.cells ≡ self.old.cells)
            × (self.new.made ≡ self.old.made) }
    {
        let Order { batch, scratch, .. } = order;
        put_by(&mut self.spare, scratch);
        self.claims.give_back(batch);
    }

    /// Works out the first entry that may be claimed, in the cells themselves, and answers whether there was one.
    /// Where memory is refused all is as before but for the next batch's id.
    pub(crate) fn work_one<L: Ledger>(
        &mut self,
        alloc: Global,
        ready: &Ready,
        steps: &mut Steps<L>,
    ) -> Result<bool, OutOfMemory>
        requires conf { ready.now ≡ S.start.stage }
        ensures entries { self.new.entries ≡ self.old.entries }
        ensures one { IfOk result (λ some. some ≡ true → (id : ℕ)
            × (self.new.gate.marks ≡ (with_ended id Mark.Applied
            (claimed self.old.gate (chosen (feet_of S.start.stage.conf) self.old.gate self.old.entries 4000 1))).marks)) }
        ensures none { IfOk result (λ some. some ≡ false
            → (chosen (feet_of S.start.stage.conf) self.old.gate self.old.entries 4000 1 ≡ []) × (self.new ≡ self.old)) }
        ensures more { IfOk result (λ some. some ≡ true → IsOneMore self.old.gate.marks self.new.gate.marks) }
        ensures idle { IfOk result (λ some. some ≡ false → list_any is_open self.old.gate.marks ≡ false
            → list_any is_pending self.old.gate.marks ≡ false) }
        ensures err { OnErr result ((self.new.gate.marks ≡ self.old.gate.marks) × (self.new.cells ≡ self.old.cells)
            × (self.new.made ≡ self.old.made)) }
    {
        let all = self.entries.as_slice();
        let taken = take_batch::<S>(alloc, ready, &mut self.claims, all, LOOKS, 1)?;
        match taken {
            None => Ok(false),
            Some(batch) => {
                let numbers = batch.numbers.as_slice();
                let (cells, made) = (&mut self.cells, &mut self.made);
                let listed = Listed {
                    before: self.before,
                    entries: all,
                };
                match work_in::<S, L>(alloc, ready, cells, made, listed, numbers, steps) {
                    Ok(()) => {
                        self.claims.settle(batch);
                        Ok(true)
                    }
                    Err(OutOfMemory) => {
                        self.claims.give_back(batch);
                        Err(OutOfMemory)
                    }
                }
            }
        }
    }

    /// Ends all open batches, whose entries are pending again, and works out all entries, one after another. At `Err`
    /// some of them are worked out.
    pub(crate) fn work_all<L: Ledger>(
        &mut self,
        alloc: Global,
        ready: &Ready,
        steps: &mut Steps<L>,
    ) -> Result<(), OutOfMemory>
        requires conf { ready.now ≡ S.start.stage }
        ensures entries { self.new.entries ≡ self.old.entries }
        ensures all { OnOk result ((i : ℕ) → i < length self.new.entries
            → get_or self.new.gate.marks i Mark.Pending ≡ Mark.Applied) }
        ensures applied { (i : ℕ) → get_or self.old.gate.marks i Mark.Pending ≡ Mark.Applied
            → get_or self.new.gate.marks i Mark.Pending ≡ Mark.Applied }
    {
        self.reopen();
        for _entry in 0..self.len() {
            if !self.work_one(alloc, ready, steps)? {
                return Ok(());
            }
        }
        Ok(())
    }

    /// Ends all open batches, whose entries are pending again.
    fn reopen(&mut self)
        ensures reopened { self.new ≡ record self.old {
          gate = record self.old.gate
              { marks = map reopened self.old.gate.marks };
        } }
        ensures size { length self.new.gate.marks ≡ length self.new.entries }
    {
        self.claims.give_back_all();
    }

    /// How many entries are applied with all before them. Takes no memory.
    pub(crate) fn applied(&self) -> usize
        ensures within { result ≤ length self.now.entries }
        ensures applied { (i : ℕ) → i < result → get_or self.now.gate.marks i Mark.Pending ≡ Mark.Applied }
        ensures next { result < length self.now.entries
            → get_or self.now.gate.marks result Mark.Pending ≢ Mark.Applied }
    {
        self.claims.applied()
    }

    /// The records of the entry at a place, from 0 on, where it is applied.
    pub(crate) fn records(&self, place: usize) -> &[Rec]
        ensures made { result.now ≡ get_or self.now.made place [] }
        ensures whole { IsWholeLog S.start self.now.entries }
        ensures next { place < length self.now.entries → get_or self.now.gate.marks place Mark.Pending ≡ Mark.Applied
            → replay S.start (log_of (take (place + 1) self.now.entries))
            ≡ replay S.start (log_of (take place self.now.entries)) ++ result.now }
    {
        kept_at(&self.made, place)
    }

    /// What holds of it at all times.
    pub(crate) fn going(&self)
        ensures { IsGoing S.start self.now }
    {
        let _ = &self.entries;
    }

    /// How many entries there are.
    pub(crate) fn len(&self) -> usize
        ensures { result ≡ length self.now.entries }
    {
        self.entries.len()
    }
}
