//! What is in force behind the entries that were replayed, and the cells.

ghost use Rattle.std.specs.Prelude.{◌≡◌, ◌≢◌, ◌<◌, ◌+◌, ◌%◌, ◌==◌, [], ◌∷◌, List, true, length, IsTrue, IfOk, OnOk};
ghost use Rattle.std.specs.Arc.{arc_value};
ghost use Rattle.std.specs.VecDeque.{deque_len};
ghost use Rattle.zbx_types.specs.declared.entries.Numbered.{Numbered};
ghost use Rattle.entry_step.specs.InForce.{CarriesOver};
ghost use Rattle.entry_step.specs.Log.{is_config};
ghost use Rattle.entry_step.specs.Represents.{Holds};
ghost use Rattle.entry_step.specs.Start.{first_start};
ghost use Rattle.entry_step.specs.Whole.{point, out_at};
ghost use Rattle.base_laws.specs.Bases.{base_stage, told_start};
ghost use Rattle.base_laws.specs.FitsBase.{FitsBase};
ghost use Rattle.base_laws.specs.Grounds.{start_of};
ghost use Rattle.book_opening.specs.Opening.{IsFirst, IsSound, IsPresent, IsStill, epochs_of};

use crate::names::StartName;
use base_state::restore;
use conf_index::Ready;
use entry_step::{Cells, Steps, carry, step};
use std::alloc::Global;
use std::collections::VecDeque;
use std::mem::replace;
use std::sync::Arc;
use std::sync::ledger::Ledger;
use value_cache::{Cache, ItemCell};
use zbx_types::{Base, Entry, Many, Moment, Numbered, OutOfMemory, Rec};

/// What is in force behind the entries so far, and the cells (this project's own).
#[derive(Drop)]
pub struct Present {
    /// The configuration in force, and where the events of others before it come from.
    pub ready: Ready,
    /// The cells, as the entries leave them.
    pub cells: Cells,
}

/// A cache for the values of a run, without any yet.
pub fn new_cache(alloc: Global) -> Result<Arc<Cache>, OutOfMemory> {
    Ok(Arc::new(alloc, Cache::new(alloc)?)?)
}

/// How many entries are taken at least until the values that no cell has anymore are given up.
const RENEWED_AFTER: u64 = 65_536;

/// How many values cells have, or the greatest number that there is.
fn held(cells: &[ItemCell]) -> u64 {
    let mut held: u64 = 0;
    for cell in cells {
        held = held.saturating_add(cell.held());
    }
    held
}

/// Whether the values that no cell has anymore are given up at the entry with this number: so often that they are bounded by
/// those that the cells have, and so seldom that each entry pays for one copy of a value at most.
fn is_due(cells: &Cells, number: u64) -> bool
    ensures { IsTrue result → number % 65536 ≡ 0 }
{
    if number % RENEWED_AFTER != 0 {
        return false;
    }
    let times = (held(cells.items().cells()) / RENEWED_AFTER + 1).next_power_of_two();
    (number / RENEWED_AFTER) % times == 0
}

/// Whether a base stands in place of no entries.
pub(crate) fn is_empty(base: &Base) -> bool
    ensures { result ≡ (length base.entry.now.text == 0) }
{
    base.text.len() == 0
}

/// The first of the configurations that are still to come.
pub(crate) fn next_epoch(epochs: &mut VecDeque<Ready>) -> Ready
    requires { 0 < deque_len epochs.old }
    ensures next { epochs.old.items ≡ result ∷ epochs.new.items }
    ensures len { deque_len epochs.new + 1 ≡ deque_len epochs.old }
{
    epochs.pop_front().unwrap()
}

/// Carries the cells to the next configuration, at the entry with this number and moment.
fn carried(
    alloc: Global,
    old: &Ready,
    next: &mut Ready,
    cells: &mut Cells,
    number: u64,
    at: Moment,
) -> Result<Many<Rec>, OutOfMemory>
    ensures ok { IfOk result (λ made. CarriesOver old.now next.old.conf number at cells.old made next.new cells.new) }
    ensures cache { cells.new.cache ≡ cells.old.cache }
{
    carry(alloc, old, next, cells, number, at)
}

/// Puts a configuration in the place of another one, which is dropped.
fn change(ready: &mut Ready, next: Ready)
    ensures { ready.new ≡ next }
{
    drop(replace(ready, next));
}

/// Goes over to the next configuration, over what is in force and the cells, each by a reference of its own: lent out of one
/// struct they take minutes to prove.
fn exchanged(
    alloc: Global,
    ready: &mut Ready,
    next: Ready,
    cells: &mut Cells,
    number: u64,
    at: Moment,
) -> Result<Many<Rec>, OutOfMemory>
    ensures ok { IfOk result (λ made. CarriesOver ready.old next.conf number at cells.old made ready.new cells.new) }
    ensures cache { cells.new.cache ≡ cells.old.cache }
{
    let mut next = next;
    match carried(alloc, ready, &mut next, cells, number, at) {
        Ok(made) => {
            change(ready, next);
            Ok(made)
        }
        Err(OutOfMemory) => {
            drop(next);
            Err(OutOfMemory)
        }
    }
}

impl Present {
    /// Behind the first entry, which brings this configuration.
    fn first(alloc: Global, ready: Ready, cache: Arc<Cache>) -> Result<Present, OutOfMemory>
        ensures made { IfOk result (λ made. (made.ready ≡ ready) × Holds (first_start ready.conf) made.cells []) }
        ensures cache { IfOk result (λ made. made.cells.cache ≡ arc_value cache) }
    {
        match Cells::new(alloc, ready.conf(), cache) {
            Ok(cells) => Ok(Present { ready, cells }),
            Err(OutOfMemory) => {
                drop(ready);
                Err(OutOfMemory)
            }
        }
    }

    /// Behind a base, which fits this configuration.
    fn restored(
        alloc: Global,
        ready: Ready,
        base: &Base,
        cache: Arc<Cache>,
    ) -> Result<Present, OutOfMemory>
        requires fits { FitsBase ready.conf base.now }
        requires first { ready.origins ≡ [] }
        ensures ready { IfOk result (λ made. made.ready ≡ base_stage ready.conf base.entry.now) }
        ensures cells { IfOk result (λ made. Holds (told_start ready.conf base.entry.now) made.cells []) }
        ensures cache { IfOk result (λ made. made.cells.cache ≡ arc_value cache) }
    {
        let mut ready = ready;
        match restore(alloc, &mut ready, base, cache) {
            Ok(cells) => Ok(Present { ready, cells }),
            Err(OutOfMemory) => {
                drop(ready);
                Err(OutOfMemory)
            }
        }
    }

    /// Behind a base, whose configuration this is, or, where the base is empty, behind the first entry, which brings it.
    /// The values of the cells stand in this cache.
    pub(crate) fn begin(
        alloc: Global,
        ready: Ready,
        base: &Base,
        cache: Arc<Cache>,
    ) -> Result<Present, OutOfMemory>
        requires fits { base.now.text ≢ [] → FitsBase ready.conf base.now }
        requires first { ready.origins ≡ [] }
        ensures first { IfOk result (IsFirst base.entry.now.text base.entry.now ready) }
        ensures cache { IfOk result (λ made. made.cells.cache ≡ arc_value cache) }
    {
        if is_empty(base) {
            return Present::first(alloc, ready, cache);
        }
        Present::restored(alloc, ready, base, cache)
    }

    /// Goes over to the next configuration, at the entry with this number and moment, and drops the one before.
    fn go_over(
        &mut self,
        alloc: Global,
        next: Ready,
        number: u64,
        at: Moment,
    ) -> Result<Many<Rec>, OutOfMemory>
        ensures ok { IfOk result (λ made. CarriesOver self.old.ready next.conf number at self.old.cells made self.new.ready
            self.new.cells) }
        ensures cache { self.new.cells.cache ≡ self.old.cells.cache }
    {
        exchanged(alloc, &mut self.ready, next, &mut self.cells, number, at)
    }

    /// Moves what the cells still have into a cache, which is theirs from now on.
    pub(crate) fn move_to(&mut self, alloc: Global, cache: Arc<Cache>) -> Result<(), OutOfMemory>
        ensures still { OnOk result (IsStill self.old self.new) }
        ensures cache { OnOk result (self.new.cells.cache ≡ arc_value cache) }
    {
        self.cells.move_to(alloc, cache)
    }

    /// Gives up the values that no cell has anymore, now and then: a cache only grows.
    fn renew(&mut self, alloc: Global, number: u64) -> Result<(), OutOfMemory>
        ensures { OnOk result (IsStill self.old self.new) }
    {
        if !is_due(&self.cells, number) {
            return Ok(());
        }
        self.move_to(alloc, new_cache(alloc)?)
    }

    /// Takes the next entry, and answers its records. A Config brings the first of the configurations that are still to
    /// come.
    pub(crate) fn take<S: StartName, L: Ledger>(
        &mut self,
        alloc: Global,
        entry: &Numbered,
        epochs: &mut VecDeque<Ready>,
        steps: &mut Steps<L>,
    ) -> Result<Many<Rec>, OutOfMemory>
        requires some { is_config entry.now.entry ≡ true → 0 < deque_len epochs.old }
        ensures made { IfOk result (λ made. (log later : List Numbered) → IsSound S.flat S.base (entry.now ∷ log)
            → epochs.old.items ≡ epochs_of S.flat (entry.now ∷ later) → IsPresent S.flat S.base log self.old
            → (made ≡ out_at S.flat (point S.flat (start_of S.flat S.base) log) entry.now entry.now.entry)
            × IsPresent S.flat S.base (entry.now ∷ log) self.new) }
        ensures epochs { OnOk result ((later : List Numbered) → epochs.old.items ≡ epochs_of S.flat (entry.now ∷ later)
            → epochs.new.items ≡ epochs_of S.flat later) }
        ensures len { OnOk result (deque_len epochs.old ≡ length epochs.old.items
            → deque_len epochs.new ≡ length epochs.new.items) }
    {
        self.renew(alloc, entry.number)?;
        self.take_on::<S, L>(alloc, entry, epochs, steps)
    }

    // The same over the cells as they are.
    fn take_on<S: StartName, L: Ledger>(
        &mut self,
        alloc: Global,
        entry: &Numbered,
        epochs: &mut VecDeque<Ready>,
        steps: &mut Steps<L>,
    ) -> Result<Many<Rec>, OutOfMemory>
        requires some { is_config entry.now.entry ≡ true → 0 < deque_len epochs.old }
        ensures made { IfOk result (λ made. (log later : List Numbered) → IsSound S.flat S.base (entry.now ∷ log)
            → epochs.old.items ≡ epochs_of S.flat (entry.now ∷ later) → IsPresent S.flat S.base log self.old
            → (made ≡ out_at S.flat (point S.flat (start_of S.flat S.base) log) entry.now entry.now.entry)
            × IsPresent S.flat S.base (entry.now ∷ log) self.new) }
        ensures epochs { OnOk result ((later : List Numbered) → epochs.old.items ≡ epochs_of S.flat (entry.now ∷ later)
            → epochs.new.items ≡ epochs_of S.flat later) }
        ensures len { OnOk result (deque_len epochs.old ≡ length epochs.old.items
            → deque_len epochs.new ≡ length epochs.new.items) }
    {
        match &entry.entry {
            Entry::Config { now, .. } => {
                self.go_over(alloc, next_epoch(epochs), entry.number, *now)
            }
            Entry::Value { .. } | Entry::Tick { .. } => {
                step(alloc, &self.ready, &mut self.cells, entry, steps)
            }
        }
    }
}
