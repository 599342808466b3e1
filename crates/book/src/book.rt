//! The book: what the syncers share. It takes entries out of the ring, hands out batches of them, and writes their
//! lines.

ghost use Rattle.std.specs.Prelude.{◌≡◌, ◌≢◌, ◌≤◌, ◌<◌, ◌+◌, ◌-◌, ◌++◌, [], ℕ, List, Some, min, true, false, length, map, drop, replicate, get_or, is_some, IfOk, IfErr, IfSome, OnOk, OnErr, IsErrOf};
ghost use Rattle.std.specs.Arc.{arc_value};
ghost use Rattle.std.specs.Option.{option_map};
ghost use mathlib.Core.List.{IsPrefix};
ghost use Rattle.outside.specs.Causes.{Rose};
ghost use Rattle.footprint.specs.Feet.{feet_of};
ghost use Rattle.trigger_state.specs.Stages.{first_stage};
ghost use Rattle.entry_laws.specs.InForce.{FitsLog, HasBegun, IsFull, texts_on};
ghost use Rattle.entry_step.specs.Log.{log_of};
ghost use Rattle.entry_step.specs.Named.{AreDistinct};
ghost use Rattle.syncer_gate.specs.Gate.{IsOpenBatch, batch_of, claimed, with_ended};
ghost use Rattle.syncer_gate.specs.Chosen.{chosen};
ghost use Rattle.syncer_gate.specs.Marks.{is_open, is_pending};
ghost use Rattle.std.specs.List.{list_any};
ghost use Rattle.syncer_gate.specs.declared.marks.Mark.{Mark};
ghost use Rattle.syncer_gate.specs.declared.marks.Mark.TheVariants as Mark;
ghost use Rattle.outside.specs.Others.{first_other};
ghost use Rattle.base_laws.specs.Grounds.{IsBase, start_of};
ghost use Rattle.book_opening.specs.Outgoing.{HasFront, HasAll, IsLeft, IsMendable, log_lines, log_tally};
ghost use Rattle.book.specs.Progress.{HasInputs, IsOneMore};
ghost use Rattle.book.specs.Book.{work_of, AreApplied, IsFrontier, lines_upto};

use crate::alone::work_all;
use crate::errors::FlushError;
use crate::names::RunName;
use crate::order::{Done, Order, capped};
use crate::progress::Progress;
use crate::ring::{RingEnd, RingHead};
use book_opening::{
    BookError, Present, Replayed, StartName, Tally, add_lines, begin, mend, write_out,
};
use conf_index::Ready;
use entry_step::Steps;
use outside::Sink;
use std::alloc::Global;
use std::marker::Model;
use std::mem::forget;
use std::sync::Arc;
use std::sync::ledger::Ledger;
use value_cache::Cache;
use zbx_types::{Base, Bytes, Numbered, OutOfMemory};

/// The entries that came out of a ring behind those with which a run began, and how far the work on them is; and the
/// lines of those that are worked out with all before them, on their way to the outbox.
///
/// It keeps one promise whatever is called: behind its first bytes, which are the base's lines and stay as they were, the
/// outbox has a front of the lines of one thread that replays the entries, whatever it held before, where it tells that.
#[derive(Drop)]
pub struct Book<S: StartName, N: RunName, O: Sink> {
    progress: Progress<S>,
    ring: RingEnd<S, N>,
    // Of how many of its entries the lines were made.
    frontier: usize,
    tally: Tally,
    // Lines that the outbox doesn't have yet.
    unwritten: Bytes,
    outbox: O,
}

impl<S: StartName, N: RunName, O: Sink> Model for Book<S, N, O> {
    ghost use Rattle.book.specs.Book.{BookView, IsBook};

    ghost Value = { BookView };

    ghost view = { λ b. record { entries = b.progress.entries; gate = b.progress.gate; cells = b.progress.cells; made = b.progress.made; frontier = b.frontier; tally = b.tally; sink = O.tells b.outbox; unwritten = b.unwritten } };

    ghost invariant = { λ b. IsBook (record { flat = S.flat; base = S.base; kept = S.kept; outbox = S.outbox }) b.ring.received b.progress.entries b.progress.gate.marks b.frontier b.tally (O.tells b.outbox) b.unwritten };
}

/// A book at its end: its outbox, and what the records of all entries behind the base count, those with which the run began
/// among them.
#[derive(Drop)]
pub struct Closed<O> {
    /// The outbox, which has all lines.
    pub outbox: O,
    /// How many Problem records there are. A count above 2^64 - 1 stands as 2^64 - 1, here and below.
    pub problems: u64,
    /// How many Recovery records.
    pub recoveries: u64,
    /// How many Message records.
    pub messages: u64,
    /// How many bytes their lines have, and the base's.
    pub bytes: u64,
}

/// The number of the last of so many entries behind a base.
fn last_number(base: &Base, count: usize) -> u64
    requires few { base.now.number ≤ 9000000000000000000 }
    requires within { count ≤ 4294967295 }
    ensures { result ≡ base.entry.now.number + count }
{
    base.number + count as u64
}

impl<S: StartName, N: RunName, O: Sink> Book<S, N, O> {
    /// A book behind the entries with which a run begins, over the end of its ring. These are replayed, behind the base of
    /// the journal, or, where that is empty, from nothing on, and the outbox is compared with their lines, which stand behind
    /// as many bytes as the base's lines have: where its first other byte is a 0, as a power cut may leave it, the outbox is
    /// cut there. No entry came out of the ring, and nothing is written yet.
    ///
    /// A base that isn't empty fits the configuration of its text. Behind an empty one the first of the entries is a Config of
    /// moment 0. The numbers go on by one from the base's, no moment falls from its moment on, and each value fits the
    /// configuration in force where it stands. `epochs` are the configurations, each made ready: that of the base's text,
    /// where the base isn't empty, and behind it those of the Configs among the entries, in the same order. At each Config but
    /// the first of all configurations the run goes over to the next of them: what goes on under it is carried over, open
    /// problems that are gone are recovered, and the configuration before it is dropped. The last one comes back, with where
    /// the problems come from that are open still: it is in force behind these entries, and all other calls take it. The
    /// values of the cells, and of those of all orders, stand in this cache.
    ///
    /// # Errors
    ///
    /// `OutboxBehind` comes exactly where the outbox holds fewer bytes than the base's lines have, `OutboxAhead` exactly where
    /// it holds more than these and the lines of the entries have, `OutboxDiffers` where its first other byte isn't a 0,
    /// `OutboxFault` where it failed. `OutOfMemory` may come too. The outbox comes back with the bytes that it held.
    pub fn new(
        alloc: Global,
        base: &Base,
        epochs: Vec<Ready>,
        kept: &[Numbered],
        cache: Arc<Cache>,
        ring: RingEnd<S, N>,
        outbox: O,
    ) -> Result<(Book<S, N, O>, Ready), (O, BookError)>
        requires distinct { (text : List ℕ) → AreDistinct (S.flat text) }
        requires base { base.now ≡ S.base }
        requires fits { IsBase S.flat S.base }
        requires kept { kept.now ≡ S.kept }
        requires begun { HasBegun (start_of S.flat S.base) (log_of S.kept) }
        requires whole { IsFull (start_of S.flat S.base) (log_of S.kept)
            × FitsLog S.flat (start_of S.flat S.base) (log_of S.kept) }
        requires epochs { epochs.items ≡ map (λ text. first_stage (S.flat text)) (texts_on S.base.text S.kept) }
        requires cache { arc_value cache ≡ S.cache }
        requires received { ring.received ≡ [] }
        requires outbox { O.tells outbox ≡ S.outbox }
        ensures ready { IfOk result (λ made. made.1 ≡ S.start.stage) }
        ensures entries { IfOk result (λ made. (made.0.entries ≡ []) × (made.0.frontier ≡ 0)) }
        ensures front { IfOk result (λ made. HasFront S.base.lines S.outbox made.0.sink
            (log_lines S.flat S.base (log_of S.kept))) }
        ensures unwritten { IfOk result (λ made. made.0.unwritten
            ≡ drop (made.0.sink.held - S.base.lines) (log_lines S.flat S.base (log_of S.kept))) }
        ensures mendable { IfOk result (λ _. IsMendable S.base.lines S.outbox (log_lines S.flat S.base (log_of S.kept))) }
        ensures back { IfErr result (λ refused. IsLeft S.outbox (O.tells refused.0)) }
        ensures behind { IfErr result (λ refused. (held : ℕ) (count : ℕ) → refused.1 ≡ BookError.OutboxBehind held count
            → (held ≡ S.outbox.held) × (count ≡ S.base.lines) × (held < count)) }
        ensures ahead { IfErr result (λ refused. (held : ℕ) (lines : ℕ) → refused.1 ≡ BookError.OutboxAhead held lines
            → (held ≡ S.outbox.held) × (lines ≡ S.base.lines + length (log_lines S.flat S.base (log_of S.kept)))
            × (lines < held)) }
        ensures differs { IfErr result (λ refused. (at : ℕ) → refused.1 ≡ BookError.OutboxDiffers at
            → (S.base.lines ≤ S.outbox.held)
            × (S.outbox.held ≤ S.base.lines + length (log_lines S.flat S.base (log_of S.kept)))
            × (S.base.lines ≤ at) × (at < S.outbox.held)
            × IfSome S.outbox.bytes (λ b.
            (first_other S.base.lines (log_lines S.flat S.base (log_of S.kept)) (drop S.base.lines b) ≡ Some at)
            × (get_or b at 0 ≢ 0))) }
        ensures cause { IfErr result (λ refused. refused.1 ≡ BookError.OutboxFault
            → Rose S.outbox.faults (O.tells refused.0).faults) }
    {
        let count = kept.len();
        if count > u32::MAX as usize {
            return Err((outbox, BookError::OutOfMemory));
        }
        let before = last_number(base, count);
        let mut outbox = outbox;
        let replayed = match begin::<S, O>(alloc, base, epochs, kept, cache, &mut outbox) {
            Ok(replayed) => replayed,
            Err(error) => return Err((outbox, error)),
        };
        match mend(
            &mut outbox,
            base.lines,
            replayed.tally.bytes,
            replayed.other,
        ) {
            Ok(()) => {}
            Err(error) => {
                drop(replayed);
                return Err((outbox, error));
            }
        }
        let Replayed {
            present: Present { ready, cells },
            tally,
            other: _,
            missing,
        } = replayed;
        let book = Book {
            progress: Progress::new(alloc, before, cells),
            ring,
            frontier: 0,
            tally,
            unwritten: missing,
            outbox,
        };
        Ok((book, ready))
    }

    /// Takes the entries that the ring shows, and answers how many they are, or 2^32 - 1 where they are more. What
    /// the head sends meanwhile may stay. At `Err` none was taken.
    pub fn pull(&mut self, alloc: Global) -> Result<u32, OutOfMemory>
        ensures more { IsPrefix self.old.entries self.new.entries }
        ensures gate { self.new.gate ≡ record self.old.gate {
          marks = self.old.gate.marks ++ replicate (length self.new.entries - length self.old.entries)
              Mark.Pending;
        } }
        ensures count { IfOk result (λ count. count ≡ min
            (length self.new.entries - length self.old.entries) 4294967295) }
        ensures rest { (self.new.cells ≡ self.old.cells)
            × ((n : ℕ) → get_or self.new.made n [] ≡ get_or self.old.made n []) }
        ensures out { (self.new.frontier ≡ self.old.frontier) × (self.new.tally ≡ self.old.tally)
            × (self.new.sink ≡ self.old.sink) × (self.new.unwritten ≡ self.old.unwritten) }
        ensures err { OnErr result (self.new ≡ self.old) }
    {
        let count = self.ring.look();
        self.progress.pull(alloc, &mut self.ring, count)?;
        Ok(capped(count))
    }

    /// Takes all entries that are in the ring, for a thread that has both ends, and answers how many they are, or
    /// 2^32 - 1 where they are more. All slots are then known to be free. At `Err` none was taken.
    pub fn pull_beside(
        &mut self,
        alloc: Global,
        head: &mut RingHead<S, N>,
    ) -> Result<u32, OutOfMemory>
        ensures more { IsPrefix self.old.entries self.new.entries }
        ensures within { IsPrefix self.new.entries head.new.sent }
        ensures all { OnOk result (self.new.entries ≡ head.new.sent) }
        ensures free { OnOk result (head.new.free ≡ head.new.capacity) }
        ensures head { (head.new.sent ≡ head.old.sent) × (head.new.capacity ≡ head.old.capacity) }
        ensures gate { self.new.gate ≡ record self.old.gate {
          marks = self.old.gate.marks ++ replicate (length self.new.entries - length self.old.entries)
              Mark.Pending;
        } }
        ensures count { IfOk result (λ count. count ≡ min
            (length self.new.entries - length self.old.entries) 4294967295) }
        ensures rest { (self.new.cells ≡ self.old.cells)
            × ((n : ℕ) → get_or self.new.made n [] ≡ get_or self.old.made n []) }
        ensures out { (self.new.frontier ≡ self.old.frontier) × (self.new.tally ≡ self.old.tally)
            × (self.new.sink ≡ self.old.sink) × (self.new.unwritten ≡ self.old.unwritten) }
        ensures err { OnErr result (self.new ≡ self.old) }
    {
        let count = self.ring.look_beside(head);
        self.progress.pull(alloc, &mut self.ring, count)?;
        head.look_beside(&mut self.ring);
        Ok(capped(count))
    }

    /// Takes a batch of at most `limit` of the first `looks` pending entries, as the crate `syncer_gate` chooses it, with
    /// copies of the cells in their feet. None comes exactly where there is nothing to take; with no open batch that is exactly where nothing is
    /// pending. Where memory is refused nothing was taken.
    pub fn claim(
        &mut self,
        alloc: Global,
        ready: &Ready,
        looks: u32,
        limit: u32,
    ) -> Result<Option<Order<S>>, OutOfMemory>
        requires conf { ready.now ≡ S.start.stage }
        requires looks { 1 ≤ looks }
        requires limit { 1 ≤ limit }
        ensures batch { IfOk result (λ made. option_map (λ order. order.batch) made ≡ batch_of self.old.gate.next
            (chosen (feet_of S.start.stage.conf) self.old.gate self.old.entries looks limit)) }
        ensures inputs { IfOk result (λ made. IfSome made (λ order. HasInputs (work_of self.old) order)) }
        ensures gate { OnOk result (self.new.gate ≡ claimed self.old.gate
            (chosen (feet_of S.start.stage.conf) self.old.gate self.old.entries looks limit)) }
        ensures rest { (self.new.entries ≡ self.old.entries) × (self.new.cells ≡ self.old.cells)
            × (self.new.made ≡ self.old.made) }
        ensures out { (self.new.frontier ≡ self.old.frontier) × (self.new.tally ≡ self.old.tally)
            × (self.new.sink ≡ self.old.sink) × (self.new.unwritten ≡ self.old.unwritten) }
        ensures idle { IfOk result (λ made. list_any is_open self.old.gate.marks ≡ false
            → is_some made ≡ list_any is_pending self.old.gate.marks) }
        ensures err { OnErr result (self.new.gate.marks ≡ self.old.gate.marks) }
    {
        self.progress.going();
        self.progress.claim(alloc, ready, looks, limit)
    }

    /// Puts what an order came to in place: its entries are applied. Where its batch isn't open here nothing changes.
    /// Where its inputs aren't what is here, its entries are worked out anew; else no step is counted. Where memory
    /// is refused the order comes back, and all is as before.
    pub fn apply<L: Ledger>(
        &mut self,
        alloc: Global,
        ready: &Ready,
        done: Done<S>,
        steps: &mut Steps<L>,
    ) -> Result<(), (Done<S>, OutOfMemory)>
        requires conf { ready.now ≡ S.start.stage }
        ensures entries { self.new.entries ≡ self.old.entries }
        ensures open { OnOk result (IsOpenBatch self.old.gate done.order.batch
            → self.new.gate ≡ with_ended done.order.batch.id Mark.Applied self.old.gate) }
        ensures other { (IsOpenBatch self.old.gate done.order.batch → ⊥) → self.new ≡ self.old }
        ensures uncounted { HasInputs (work_of self.old) done.order → steps.new ≡ steps.old }
        ensures out { (self.new.frontier ≡ self.old.frontier) × (self.new.tally ≡ self.old.tally)
            × (self.new.sink ≡ self.old.sink) × (self.new.unwritten ≡ self.old.unwritten) }
        ensures err { OnErr result (self.new ≡ self.old) }
        ensures back { IfErr result (λ refused. refused.0 ≡ done) }
    {
        self.progress.apply(alloc, ready, done, steps)
    }

    /// Makes the entries of an order pending again. Where its batch isn't open here nothing changes. Takes no memory.
    pub fn give_back(&mut self, order: Order<S>)
        ensures open { IsOpenBatch self.old.gate order.batch
            → self.new.gate ≡ with_ended order.batch.id Mark.Pending self.old.gate }
        ensures other { (IsOpenBatch self.old.gate order.batch → ⊥) → self.new ≡ self.old }
        ensures rest { (self.new.entries ≡ self.old.entries) × (self.new.cells ≡ self.old.cells)
            × (self.new.made ≡ self.old.made) }
        ensures out { (self.new.frontier ≡ self.old.frontier) × (self.new.tally ≡ self.old.tally)
            × (self.new.sink ≡ self.old.sink) × (self.new.unwritten ≡ self.old.unwritten) }
    {
        self.progress.give_back(order);
    }

    /// Works out the first entry that may be claimed, in the cells themselves, and answers whether there was one: for
    /// one thread. Where memory is refused all is as before but for the next batch's id.
    pub fn work_one<L: Ledger>(
        &mut self,
        alloc: Global,
        ready: &Ready,
        steps: &mut Steps<L>,
    ) -> Result<bool, OutOfMemory>
        requires conf { ready.now ≡ S.start.stage }
        ensures entries { self.new.entries ≡ self.old.entries }
        ensures one { IfOk result (λ some. some ≡ true → (id : ℕ)
            × (self.new.gate.marks ≡ (with_ended id Mark.Applied
            (claimed self.old.gate (chosen (feet_of S.start.stage.conf) self.old.gate self.old.entries 4000 1))).marks)) }
        ensures none { IfOk result (λ some. some ≡ false
            → (chosen (feet_of S.start.stage.conf) self.old.gate self.old.entries 4000 1 ≡ []) × (self.new ≡ self.old)) }
        ensures more { IfOk result (λ some. some ≡ true → IsOneMore self.old.gate.marks self.new.gate.marks) }
        ensures idle { IfOk result (λ some. some ≡ false → list_any is_open self.old.gate.marks ≡ false
            → list_any is_pending self.old.gate.marks ≡ false) }
        ensures out { (self.new.frontier ≡ self.old.frontier) × (self.new.tally ≡ self.old.tally)
            × (self.new.sink ≡ self.old.sink) × (self.new.unwritten ≡ self.old.unwritten) }
        ensures err { OnErr result ((self.new.gate.marks ≡ self.old.gate.marks) × (self.new.cells ≡ self.old.cells)
            × (self.new.made ≡ self.old.made)) }
    {
        self.progress.going();
        self.progress.work_one(alloc, ready, steps)
    }

    /// Passes the entry at the frontier, which is among the first that are applied: its lines are to be written.
    fn pass(&mut self, alloc: Global, applied: usize) -> Result<(), OutOfMemory>
        requires before { self.old.frontier < applied }
        requires within { applied ≤ length self.old.entries }
        requires applied { AreApplied self.old.gate.marks applied }
        ensures rest { self.new ≡ record self.old
            { frontier = self.new.frontier; tally = self.new.tally; unwritten = self.new.unwritten } }
        ensures next { OnOk result (self.new.frontier ≡ self.old.frontier + 1) }
        ensures err { OnErr result (self.new ≡ self.old) }
    {
        let records = self.progress.records(self.frontier);
        add_lines(alloc, records, &mut self.tally, &mut self.unwritten)?;
        self.frontier += 1;
        Ok(())
    }

    /// Of how many entries the lines were made.
    fn passed(&self) -> usize
        ensures { result ≡ self.now.frontier }
    {
        self.frontier
    }

    /// How many entries are applied with all before them.
    fn applied(&self) -> usize
        ensures within { self.now.frontier ≤ result }
        ensures frontier { IsFrontier self.now.gate.marks self.now.entries result }
    {
        let _ = &self.frontier;
        self.progress.applied()
    }

    /// Passes the entries that are applied with all before them. At `Err` some of them may be passed.
    fn pass_all(&mut self, alloc: Global) -> Result<(), OutOfMemory>
        ensures rest { self.new ≡ record self.old
            { frontier = self.new.frontier; tally = self.new.tally; unwritten = self.new.unwritten } }
        ensures frontier { OnOk result (IsFrontier self.new.gate.marks self.new.entries self.new.frontier) }
    {
        let applied = self.applied();
        while self.passed() < applied {
            self.pass(alloc, applied)?;
        }
        Ok(())
    }

    /// Writes the lines that the outbox doesn't have.
    fn write(&mut self, alloc: Global) -> Result<(), FlushError>
        ensures rest { self.new ≡ record self.old { sink = self.new.sink; unwritten = self.new.unwritten } }
        ensures all { OnOk result (self.new.unwritten ≡ []) }
        ensures later { self.old.sink.faults ≤ self.new.sink.faults }
        ensures cause { IfErr result (λ error. (error ≡ FlushError.OutboxFault)
            × Rose self.old.sink.faults self.new.sink.faults) }
    {
        write_out(alloc, &mut self.outbox, &mut self.unwritten)?;
        Ok(())
    }

    /// What the outbox has, once all lines are written.
    fn told(&self)
        requires { self.now.unwritten ≡ [] }
        ensures { HasAll S.base.lines S.outbox self.now.sink
            (lines_upto S.flat S.base S.kept self.now.entries self.now.frontier) }
    {
        let _ = &self.unwritten;
    }

    /// Makes the lines of the entries that are applied with all before them, and writes the lines that the outbox
    /// doesn't have.
    ///
    /// # Errors
    ///
    /// `OutboxFault` where the outbox failed: some of the lines from the front are out, and the next call goes on
    /// behind them. `OutOfMemory` where memory was refused: nothing was written.
    pub fn flush(&mut self, alloc: Global) -> Result<(), FlushError>
        ensures work { work_of self.new ≡ work_of self.old }
        ensures frontier { OnOk result (IsFrontier self.new.gate.marks self.new.entries self.new.frontier) }
        ensures all { OnOk result (self.new.unwritten ≡ []) }
        ensures lines { OnOk result (HasAll S.base.lines S.outbox self.new.sink
            (lines_upto S.flat S.base S.kept self.new.entries self.new.frontier)) }
        ensures later { self.old.sink.faults ≤ self.new.sink.faults }
        ensures cause { IsErrOf result FlushError.OutboxFault → Rose self.old.sink.faults self.new.sink.faults }
        ensures unwritten { IsErrOf result FlushError.OutOfMemory → self.new.sink ≡ self.old.sink }
    {
        self.pass_all(alloc)?;
        self.write(alloc)?;
        self.told();
        Ok(())
    }

    /// Ends all open batches, and works out all entries, one after another, in the cells themselves: for one thread.
    /// At `Err` some of them are worked out.
    pub fn work_all(&mut self, alloc: Global, ready: &Ready) -> Result<(), OutOfMemory>
        requires conf { ready.now ≡ S.start.stage }
        ensures entries { self.new.entries ≡ self.old.entries }
        ensures all { OnOk result (AreApplied self.new.gate.marks (length self.new.entries)) }
        ensures out { (self.new.frontier ≡ self.old.frontier) × (self.new.tally ≡ self.old.tally)
            × (self.new.sink ≡ self.old.sink) × (self.new.unwritten ≡ self.old.unwritten) }
    {
        work_all(alloc, ready, &mut self.progress)
    }

    /// Takes what is in the ring, works all out, and writes all lines.
    fn settle(
        &mut self,
        alloc: Global,
        ready: &Ready,
        head: &mut RingHead<S, N>,
    ) -> Result<(), FlushError>
        requires conf { ready.now ≡ S.start.stage }
        ensures within { IsPrefix self.new.entries head.old.sent }
        ensures all { OnOk result (self.new.entries ≡ head.old.sent) }
        ensures frontier { OnOk result (self.new.frontier ≡ length self.new.entries) }
        ensures unwritten { OnOk result (self.new.unwritten ≡ []) }
        ensures later { self.old.sink.faults ≤ self.new.sink.faults }
        ensures cause { IsErrOf result FlushError.OutboxFault → Rose self.old.sink.faults self.new.sink.faults }
    {
        self.pull_beside(alloc, head)?;
        self.work_all(alloc, ready)?;
        self.flush(alloc)
    }

    /// The outbox, which has some of the lines from the front.
    fn into_outbox(self) -> O
        ensures front { (all : List Numbered) → IsPrefix self.entries all
            → HasFront S.base.lines S.outbox (O.tells result) (log_lines S.flat S.base (log_of (S.kept ++ all))) }
        ensures sink { O.tells result ≡ self.sink }
    {
        let Book {
            progress,
            ring,
            frontier: _,
            tally: _,
            unwritten,
            outbox,
        } = self;
        drop(progress);
        drop(ring);
        drop(unwritten);
        outbox
    }

    /// What is left of a book whose lines are all written.
    fn close(self) -> Closed<O>
        requires frontier { self.frontier ≡ length self.entries }
        requires unwritten { self.unwritten ≡ [] }
        ensures lines { HasAll S.base.lines S.outbox (O.tells result.outbox)
            (log_lines S.flat S.base (log_of (S.kept ++ self.entries))) }
        ensures sink { O.tells result.outbox ≡ self.sink }
        ensures counts { log_tally S.flat S.base (log_of (S.kept ++ self.entries)) ≡ record
            { problems = result.problems; recoveries = result.recoveries; messages = result.messages; bytes = result.bytes } }
    {
        let Book {
            progress,
            ring: _,
            frontier: _,
            tally,
            unwritten: _,
            outbox,
        } = self;
        // It holds nothing but memory, which the system takes back whole where the process ends.
        forget(progress);
        Closed {
            outbox,
            problems: tally.problems,
            recoveries: tally.recoveries,
            messages: tally.messages,
            bytes: tally.bytes,
        }
    }

    /// Takes what is in the ring, ends all open batches, works all entries out, and writes all lines.
    ///
    /// # Errors
    ///
    /// `OutboxFault` where the outbox failed, and `OutOfMemory` where memory was refused: the outbox comes back, and
    /// has some of the lines from the front.
    pub fn finish(
        self,
        alloc: Global,
        ready: &Ready,
        head: RingHead<S, N>,
    ) -> Result<Closed<O>, (O, FlushError)>
        requires conf { ready.now ≡ S.start.stage }
        ensures lines { IfOk result (λ closed. HasAll S.base.lines S.outbox (O.tells closed.outbox)
            (log_lines S.flat S.base (log_of (S.kept ++ head.sent)))) }
        ensures counts { IfOk result (λ closed. log_tally S.flat S.base (log_of (S.kept ++ head.sent)) ≡ record
            { problems = closed.problems; recoveries = closed.recoveries; messages = closed.messages; bytes = closed.bytes }) }
        ensures front { IfErr result (λ refused. HasFront S.base.lines S.outbox (O.tells refused.0)
            (log_lines S.flat S.base (log_of (S.kept ++ head.sent)))) }
        ensures later { IfOk result (λ closed. self.sink.faults ≤ (O.tells closed.outbox).faults) }
        ensures later_err { IfErr result (λ refused. self.sink.faults ≤ (O.tells refused.0).faults) }
        ensures cause { IfErr result (λ refused. refused.1 ≡ FlushError.OutboxFault
            → Rose self.sink.faults (O.tells refused.0).faults) }
    {
        let mut book = self;
        let mut head = head;
        match book.settle(alloc, ready, &mut head) {
            Ok(()) => Ok(book.close()),
            Err(error) => Err((book.into_outbox(), error)),
        }
    }

    /// How often the outbox has failed. The count stays at 2^64 - 1.
    pub fn faults(&self) -> u64
        ensures now { result ≡ self.now.sink.faults }
        ensures since { S.outbox.faults ≤ result }
    {
        self.outbox.faults()
    }
}
