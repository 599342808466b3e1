//! Claims: which entries are pending, in work, or applied.

ghost use Rattle.std.specs.Prelude.{◌≡◌, ◌≢◌, ◌<◌, ◌≤◌, ◌+◌, ◌++◌, ◌^◌, ◌↔◌, ℕ, true, false, List, []};
ghost use Rattle.std.specs.Prelude.{length, map, get_or, replicate, is_some, IfOk, IfSome, OnOk, OnErr};
ghost use Rattle.std.specs.List.{list_any};
ghost use Rattle.zbx_types.specs.Masters.{has_id};
ghost use Rattle.zbx_types.specs.declared.entries.Numbered.{Numbered};
ghost use Rattle.footprint.specs.Feet.{told_by};
ghost use Rattle.syncer_gate.specs.Gate.{AreOffered, AreAlike, mark_of, batch_of, claimed};
ghost use Rattle.syncer_gate.specs.Gate.{IsOpenBatch, with_ended};
ghost use Rattle.syncer_gate.specs.Marks.{is_pending, is_open, reopened};
ghost use Rattle.syncer_gate.specs.Chosen.{chosen};
ghost use Rattle.syncer_gate.specs.Window.{AreBelow, AreDone};
ghost use Rattle.syncer_gate.specs.Core.{Claim, Apply, GiveBack, core_of, happens, offered, IsStep};

use crate::batch::Batch;
use crate::choice::{note_open, pick};
use crate::marking::{end, first_left, is_held, reopen, take};
use crate::marks::Mark;
use crate::touched::Touched;
use footprint::Feet;
use std::alloc::Global;
use std::marker::Model;
use zbx_types::{Many, Numbered, OutOfMemory};

/// Where each entry stands that was offered. Contracts see the first entry's number, a mark for each entry in order, and
/// the next batch's id.
#[derive(Drop)]
pub struct Claims {
    first: u64,
    marks: Vec<Mark>,
    next: u64,
    /// All entries before this place are applied.
    low: usize,
    /// All entries from this place on are pending.
    high: usize,
    /// What stood in the way at the last claim.
    touched: Touched,
}

impl Model for Claims {
    ghost use Rattle.syncer_gate.specs.Gate.{Gate};
    ghost use Rattle.syncer_gate.specs.Window.{AreKept};

    ghost Value = { Gate };

    ghost view = { λ c. record { first = c.first; marks = c.marks.items; next = c.next } };

    ghost invariant = { λ c. AreKept c.first c.next c.low c.high c.marks.items };
}

impl Claims {
    /// No entries yet. The one that is offered first will have this number. Takes no memory.
    pub fn new(alloc: Global, first: u64) -> Claims
        ensures { result ≡ record { first = first; marks = []; next = 1 } }
    {
        Claims {
            first,
            marks: Vec::new(alloc),
            next: 1,
            low: 0,
            high: 0,
            touched: Touched::new(alloc),
        }
    }

    /// So many more entries are pending, with the next numbers. No number may pass 2^64 - 1. At [`OutOfMemory`] all is as
    /// before.
    pub fn offer(&mut self, count: u32) -> Result<(), OutOfMemory>
        requires { self.old.first + (length self.old.marks + count) ≤ 2 ^ 64 }
        ensures ok { OnOk result (self.new ≡ record self.old { marks = self.old.marks ++ replicate count Mark.Pending }) }
        ensures step { OnOk result ((entries more : List Numbered) → core_of (entries ++ more) self.new ≡ offered more (core_of entries self.old)) }
        ensures err { OnErr result (self.new ≡ self.old) }
    {
        self.grow(count)?;
        Ok(())
    }

    /// Adds so many pending marks.
    fn grow(&mut self, count: u32) -> Result<(), OutOfMemory>
        requires { self.old.first + (length self.old.marks + count) ≤ 2 ^ 64 }
        ensures ok { OnOk result (self.new ≡ record self.old { marks = self.old.marks ++ replicate count Mark.Pending }) }
        ensures err { OnErr result (self.new ≡ self.old) }
    {
        match self.marks.len().checked_add(count as usize) {
            None => Err(OutOfMemory),
            Some(size) => {
                self.marks.resize(size, Mark::Pending)?;
                Ok(())
            }
        }
    }

    /// Takes a batch: among the first `looks` pending entries, in order, each that conflicts with no skipped one before it
    /// and with no entry of an open batch, up to `limit`; both are at least 1. `entries` are all entries that were
    /// offered, in order. None comes exactly where there is nothing to take; with no open batch that is exactly where
    /// nothing is pending. At [`OutOfMemory`] all is as before; it comes also once all ids of batches are used up.
    ///
    /// It takes time in the feet of the open entries and of those that it looks at.
    pub fn claim(
        &mut self,
        alloc: Global,
        feet: &Feet,
        entries: &[Numbered],
        looks: u32,
        limit: u32,
    ) -> Result<Option<Batch>, OutOfMemory>
        requires looks { 1 ≤ looks }
        requires limit { 1 ≤ limit }
        requires offered { AreOffered self.old entries.now }
        ensures batch { IfOk result (λ made. made ≡ batch_of self.old.next (chosen (told_by feet.now) self.old entries.now looks limit)) }
        ensures gate { OnOk result (self.new ≡ claimed self.old (chosen (told_by feet.now) self.old entries.now looks limit)) }
        ensures alike { AreAlike self.old self.new }
        ensures idle { IfOk result (λ made. list_any is_open self.old.marks ≡ false → is_some made ≡ list_any is_pending self.old.marks) }
        ensures step { IfOk result (λ made. IfSome made (λ batch. IsStep (told_by feet.now) entries.now self.old (Claim batch.id batch.numbers) self.new)) }
        ensures err { OnErr result (self.new ≡ self.old) }
    {
        let numbers = self.choose(alloc, feet, entries, looks, limit)?;
        Ok(self.hand_out(numbers))
    }

    /// The numbers of the entries that a claim takes. [`OutOfMemory`] also where no id is left for their batch.
    fn choose(
        &mut self,
        alloc: Global,
        feet: &Feet,
        entries: &[Numbered],
        looks: u32,
        limit: u32,
    ) -> Result<Many<u64>, OutOfMemory>
        requires { AreOffered self.old entries.now }
        ensures numbers { IfOk result (λ numbers. numbers ≡ chosen (told_by feet.now) self.old entries.now looks limit) }
        ensures same { self.new ≡ self.old }
        ensures fresh { AreBelow self.old.next self.old.marks }
        ensures room { OnOk result (self.old.next + 1 < 2 ^ 64) }
    {
        if self.next == u64::MAX {
            return Err(OutOfMemory);
        }
        let marks = self.marks.as_slice();
        note_open(&mut self.touched, feet, marks, entries, self.low, self.high)?;
        pick(
            alloc,
            &mut self.touched,
            feet,
            marks,
            entries,
            self.low,
            looks,
            limit,
        )
    }

    /// The batch of some pending entries, which it takes. None where there are no entries.
    fn hand_out(&mut self, numbers: Many<u64>) -> Option<Batch>
        requires room { self.old.next + 1 < 2 ^ 64 }
        requires offered { (n : ℕ) → has_id numbers n ≡ true → (self.old.first ≤ n) × (n < self.old.first + length self.old.marks) }
        requires pending { (n : ℕ) → has_id numbers n ≡ true → mark_of self.old n ≡ Mark.Pending }
        ensures batch { result ≡ batch_of self.old.next numbers }
        ensures gate { self.new ≡ claimed self.old numbers }
        ensures alike { AreAlike self.old self.new }
    {
        if numbers.as_slice().is_empty() {
            return None;
        }
        let id = self.next;
        self.high = take(
            &mut self.marks,
            numbers.as_slice(),
            self.first,
            id,
            self.high,
        );
        self.next = id + 1;
        Some(Batch { id, numbers })
    }

    /// Ends a batch whose results are in: its entries are applied. A batch that isn't, by id and numbers, an open one
    /// changes nothing. Takes no memory.
    pub fn settle(&mut self, batch: Batch)
        ensures open { IsOpenBatch self.old batch → self.new ≡ with_ended batch.id Mark.Applied self.old }
        ensures other { (IsOpenBatch self.old batch → ⊥) → self.new ≡ self.old }
        ensures alike { AreAlike self.old self.new }
        ensures step { IsOpenBatch self.old batch → (entries : List Numbered) → core_of entries self.new ≡ happens (core_of entries self.old) (Apply batch.id) }
    {
        if self.is_open(&batch) {
            end(
                &mut self.marks,
                batch.id,
                Mark::Applied,
                self.low,
                self.high,
            );
            self.low = first_left(self.marks.as_slice(), self.low);
        }
    }

    /// Ends a batch that nothing came of: its entries are pending again. A batch that isn't, by id and numbers, an open
    /// one changes nothing. Takes no memory.
    pub fn give_back(&mut self, batch: Batch)
        ensures open { IsOpenBatch self.old batch → self.new ≡ with_ended batch.id Mark.Pending self.old }
        ensures other { (IsOpenBatch self.old batch → ⊥) → self.new ≡ self.old }
        ensures alike { AreAlike self.old self.new }
        ensures step { IsOpenBatch self.old batch → (entries : List Numbered) → core_of entries self.new ≡ happens (core_of entries self.old) (GiveBack batch.id) }
    {
        if self.is_open(&batch) {
            end(
                &mut self.marks,
                batch.id,
                Mark::Pending,
                self.low,
                self.high,
            );
        }
    }

    /// Ends all open batches: their entries are pending again. Takes no memory.
    pub fn give_back_all(&mut self)
        ensures { self.new ≡ record self.old { marks = map reopened self.old.marks } }
    {
        reopen(&mut self.marks, self.low, self.high);
    }

    /// How many entries are applied with all before them. Takes no memory.
    pub fn applied(&self) -> usize
        ensures within { result ≤ length self.now.marks }
        ensures applied { AreDone result self.now.marks }
        ensures next { result < length self.now.marks → get_or self.now.marks result Mark.Pending ≢ Mark.Applied }
    {
        first_left(self.marks.as_slice(), self.low)
    }

    /// Whether a batch is open: its id has taken the entries with its numbers, and no others.
    #[tactic(auto, using(crate::proofs::Ended::same_tells))]
    pub fn is_open(&self, batch: &Batch) -> bool
        ensures { (result ≡ true) ↔ IsOpenBatch self.now batch.now }
    {
        is_held(
            self.marks.as_slice(),
            batch.numbers.as_slice(),
            self.first,
            batch.id,
            self.low,
            self.high,
        )
    }
}
