//! Entries that a journal kept are replayed by one thread without an outbox: the lines of each are made, counted, and
//! dropped.

ghost use Rattle.std.specs.Prelude.{◌≡◌, ◌<◌, ◌++◌, ◌∷◌, List, length, true, IfOk, OnOk};
ghost use Rattle.std.specs.VecDeque.{deque_len};
ghost use Rattle.zbx_types.specs.declared.entries.Numbered.{Numbered};
ghost use Rattle.entry_laws.specs.InForce.{HasBegun};
ghost use Rattle.entry_step.specs.Log.{log_of, is_config};
ghost use Rattle.base_laws.specs.Grounds.{start_of};
ghost use Rattle.book_opening.specs.Opening.{IsReached, IsSound, epochs_of, run_epochs};
ghost use Rattle.book_opening.specs.Tally.{tally_with};

use crate::names::StartName;
use crate::opening::behind_first;
use crate::outgoing::add_lines;
use crate::present::{Present, new_cache, next_epoch};
use crate::tally::Tally;
use conf_index::Ready;
use entry_step::Steps;
use std::alloc::Global;
use std::collections::VecDeque;
use std::marker::Brand;
use std::sync::ledger::{Blank, Ledger};
use zbx_types::{Base, Bytes, Numbered, OutOfMemory, Rec};

/// What entries leave that were replayed without an outbox (this project's own).
#[derive(Drop)]
pub struct Reached {
    /// What is in force behind them, and the cells.
    pub present: Present,
    /// The counts of their records, and of the bytes of their lines and of those before them.
    pub tally: Tally,
}

/// Counts the records of an entry. Their lines are made for that, and dropped.
fn count_all(alloc: Global, records: &[Rec], so_far: &mut Reached) -> Result<(), OutOfMemory>
    ensures tally { OnOk result (so_far.new.tally ≡ tally_with so_far.old.tally records.now) }
    ensures present { so_far.new.present ≡ so_far.old.present }
{
    let mut lines = Bytes::new(alloc);
    add_lines(alloc, records, &mut so_far.tally, &mut lines)
}

/// Replays the next entry. A Config brings the first of the configurations that are still to come.
fn reach_one<S: StartName, L: Ledger>(
    alloc: Global,
    entry: &Numbered,
    epochs: &mut VecDeque<Ready>,
    so_far: &mut Reached,
    steps: &mut Steps<L>,
) -> Result<(), OutOfMemory>
    requires some { is_config entry.now.entry ≡ true → 0 < deque_len epochs.old }
    ensures reached { OnOk result ((log later : List Numbered) → IsSound S.flat S.base (entry.now ∷ log)
        → epochs.old.items ≡ epochs_of S.flat (entry.now ∷ later) → IsReached S.flat S.base log so_far.old
        → IsReached S.flat S.base (entry.now ∷ log) so_far.new) }
    ensures epochs { OnOk result ((later : List Numbered) → epochs.old.items ≡ epochs_of S.flat (entry.now ∷ later)
        → epochs.new.items ≡ epochs_of S.flat later) }
    ensures len { OnOk result (deque_len epochs.old ≡ length epochs.old.items
        → deque_len epochs.new ≡ length epochs.new.items) }
{
    let records = so_far.present.take::<S, L>(alloc, entry, epochs, steps)?;
    count_all(alloc, records.as_slice(), so_far)
}

/// Replays entries behind others, with one configuration for each Config among them, and counts the steps in a ledger
/// of their own.
fn reach_all<S: StartName, L: Ledger>(
    alloc: Global,
    kept: &[Numbered],
    epochs: &mut VecDeque<Ready>,
    so_far: &mut Reached,
    blank: Blank,
) -> Result<(), OutOfMemory>
    requires name { blank.name ≡ L.name }
    requires parts { blank.parts ≡ L.parts }
    requires some { 0 < L.parts }
    requires epochs { epochs.old.items ≡ epochs_of S.flat kept.now }
    requires len { deque_len epochs.old ≡ length epochs.old.items }
    ensures { OnOk result ((log : List Numbered) → IsSound S.flat S.base (log_of kept.now ++ log)
        → IsReached S.flat S.base log so_far.old → IsReached S.flat S.base (log_of kept.now ++ log) so_far.new) }
{
    let mut steps = Steps::<L>::new(blank);
    for entry in kept {
        reach_one::<S, L>(alloc, entry, epochs, so_far, &mut steps)?;
    }
    Ok(())
}

/// Replays the entries that a journal kept, behind a base, or, where that is empty, from nothing on, and counts their
/// records, and the bytes of their lines behind those of the base. It looks at no outbox, and holds the lines of one entry
/// at a time. Of the configurations the first is that of the base, where it isn't empty; then there is one for each Config
/// among the entries. Of the values that are stored meanwhile it holds those that the cells have, and of the others a bounded
/// number.
///
/// [`OutOfMemory`] where memory was refused.
pub fn replay_kept<S: StartName>(
    alloc: Global,
    base: &Base,
    epochs: Vec<Ready>,
    kept: &[Numbered],
) -> Result<Reached, OutOfMemory>
    requires base { base.now ≡ S.base }
    requires kept { kept.now ≡ S.kept }
    requires begun { HasBegun (start_of S.flat S.base) (log_of S.kept) }
    requires sound { IsSound S.flat S.base (log_of S.kept) }
    requires epochs { epochs.items ≡ run_epochs S.flat S.base S.kept }
    ensures { IfOk result (IsReached S.flat S.base (log_of S.kept)) }
{
    let cache = new_cache(alloc)?;
    let mut epochs = VecDeque::from(epochs);
    let present = Present::begin(alloc, next_epoch(&mut epochs), base, cache)?;
    let tally = Tally::behind(base.lines);
    let mut so_far = Reached { present, tally };
    let rest = behind_first(kept, base);
    let blank = Blank::new(1);
    match reach_all::<S, Brand>(alloc, rest, &mut epochs, &mut so_far, blank) {
        Ok(()) => Ok(so_far),
        Err(OutOfMemory) => {
            drop(so_far);
            Err(OutOfMemory)
        }
    }
}
