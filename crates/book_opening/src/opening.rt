//! The entries with which a run begins are replayed by one thread, one after another, their lines made, and the outbox
//! compared with them.

ghost use Rattle.std.specs.Prelude.{◌≡◌, ◌≢◌, ◌≤◌, ◌<◌, ◌+◌, ◌-◌, ◌++◌, [], ◌∷◌, ℕ, List, length, min, true, take, drop, get_or, Some, None, IfSome, IfOk, IfErr, OnOk, IsErrOf, unwrap_or};
ghost use Rattle.std.specs.Arc.{arc_value};
ghost use Rattle.std.specs.VecDeque.{deque_len};
ghost use Rattle.zbx_types.specs.declared.base.Base.{Base};
ghost use Rattle.zbx_types.specs.declared.conf.Conf.{Conf};
ghost use Rattle.zbx_types.specs.declared.entries.Numbered.{Numbered};
ghost use Rattle.outside.specs.Tells.{SinkTells};
ghost use Rattle.outside.specs.Causes.{Rose, HasCause};
ghost use Rattle.entry_step.specs.Log.{log_of, is_config};
ghost use Rattle.zbx_types.specs.declared.entries.Rec.{Rec};
ghost use Rattle.book_opening.specs.declared.errors.BookError.TheVariants as BookError;
ghost use Rattle.entry_laws.specs.InForce.{HasBegun};
ghost use Rattle.base_laws.specs.Grounds.{start_of};
ghost use Rattle.book_opening.specs.Opening.{IsSound, IsReplayed, IsRecorded, IsCompared, IsRefused, epochs_of, replayed_of, run_epochs};
ghost use Rattle.book_opening.specs.Outgoing.{HasFront, IsLeft};

use crate::errors::BookError;
use crate::names::StartName;
use crate::outgoing::{add_lines, behind};
use crate::present::{Present, is_empty, new_cache, next_epoch};
use crate::tally::Tally;
use conf_index::Ready;
use entry_step::Steps;
use outside::{Failed, Sink};
use std::alloc::Global;
use std::collections::VecDeque;
use std::marker::Brand;
use std::sync::Arc;
use std::sync::ledger::{Blank, Ledger};
use value_cache::Cache;
use zbx_types::{Base, Bytes, Numbered, OutOfMemory, Rec};

/// What entries leave that were replayed (this project's own).
#[derive(Drop)]
pub struct Replayed {
    /// What is in force behind them, and the cells.
    pub present: Present,
    /// The counts of their records, and of the bytes of their lines and of those before them.
    pub tally: Tally,
    /// The first place behind those before them at which the outbox holds another byte than their lines, counted from 0.
    pub other: Option<u64>,
    /// Those of their lines' bytes that the outbox lacks, where it is cut at that place.
    pub missing: Bytes,
}

/// The first place at which an outbox holds another byte than all lines, where that of the lines before these is known,
/// and how many bytes stand before these.
fn other_in<O: Sink>(
    outbox: &mut O,
    seen: u64,
    lines: &[u8],
    other: Option<u64>,
) -> Result<Option<u64>, Failed>
    ensures other { IfOk result (λ found. (before : ℕ) (all : List ℕ) → seen ≡ min (before + length all) 18446744073709551615
        → IsCompared before (O.tells outbox.old) all other → IsCompared before (O.tells outbox.old) (all ++ lines.now) found) }
    ensures first { IfOk result (λ found. other ≡ None → IfSome found (λ place.
        (place < (O.tells outbox.old).held) × (seen ≤ place))) }
    ensures still { IfOk result (λ found. (place : ℕ) → other ≡ Some place → found ≡ Some place) }
    ensures left { IsLeft (O.tells outbox.old) (O.tells outbox.new) }
    ensures cause { HasCause (O.tells outbox.old).faults (O.tells outbox.new).faults result }
{
    if other.is_some() || outbox.held() <= seen || lines.is_empty() {
        return Ok(other);
    }
    outbox.differs(seen, lines)
}

/// Adds the lines of an entry's records to those that the outbox lacks, once they are compared with what it holds.
fn compare<O: Sink>(
    alloc: Global,
    records: &[Rec],
    outbox: &mut O,
    so_far: &mut Replayed,
) -> Result<(), BookError>
    ensures lines { OnOk result ((before : ℕ) (all : List Rec) → IsRecorded before all (O.tells outbox.old) so_far.old
        → IsRecorded before (all ++ records.now) (O.tells outbox.old) so_far.new) }
    ensures present { so_far.new.present ≡ so_far.old.present }
    ensures left { IsLeft (O.tells outbox.old) (O.tells outbox.new) }
    ensures cause { IsErrOf result BookError.OutboxFault → Rose (O.tells outbox.old).faults (O.tells outbox.new).faults }
    ensures why { IfErr result IsRefused }
{
    let seen = so_far.tally.bytes;
    let mut lines = Bytes::new(alloc);
    add_lines(alloc, records, &mut so_far.tally, &mut lines)?;
    so_far.other = other_in(outbox, seen, lines.as_slice(), so_far.other)?;
    let from = so_far.other.unwrap_or(outbox.held());
    so_far
        .missing
        .extend(behind(lines.as_slice(), from.saturating_sub(seen)))?;
    Ok(())
}

/// Replays the next entry. A Config brings the first of the configurations that are still to come.
fn replay_one<S: StartName, O: Sink, L: Ledger>(
    alloc: Global,
    entry: &Numbered,
    epochs: &mut VecDeque<Ready>,
    outbox: &mut O,
    so_far: &mut Replayed,
    steps: &mut Steps<L>,
) -> Result<(), BookError>
    requires some { is_config entry.now.entry ≡ true → 0 < deque_len epochs.old }
    ensures replayed { OnOk result ((log later : List Numbered) → IsSound S.flat S.base (entry.now ∷ log)
        → epochs.old.items ≡ epochs_of S.flat (entry.now ∷ later)
        → IsReplayed S.flat S.base log (O.tells outbox.old) so_far.old
        → IsReplayed S.flat S.base (entry.now ∷ log) (O.tells outbox.old) so_far.new) }
    ensures epochs { OnOk result ((later : List Numbered) → epochs.old.items ≡ epochs_of S.flat (entry.now ∷ later)
        → epochs.new.items ≡ epochs_of S.flat later) }
    ensures len { OnOk result (deque_len epochs.old ≡ length epochs.old.items
        → deque_len epochs.new ≡ length epochs.new.items) }
    ensures left { IsLeft (O.tells outbox.old) (O.tells outbox.new) }
    ensures cause { IsErrOf result BookError.OutboxFault → Rose (O.tells outbox.old).faults (O.tells outbox.new).faults }
    ensures why { IfErr result IsRefused }
{
    let records = so_far.present.take::<S, L>(alloc, entry, epochs, steps)?;
    compare(alloc, records.as_slice(), outbox, so_far)
}

/// Replays entries behind others, with one configuration for each Config among them, and counts the steps in a ledger
/// of their own.
fn replay_all<S: StartName, O: Sink, L: Ledger>(
    alloc: Global,
    kept: &[Numbered],
    epochs: &mut VecDeque<Ready>,
    outbox: &mut O,
    so_far: &mut Replayed,
    blank: Blank,
) -> Result<(), BookError>
    requires name { blank.name ≡ L.name }
    requires parts { blank.parts ≡ L.parts }
    requires some { 0 < L.parts }
    requires epochs { epochs.old.items ≡ epochs_of S.flat kept.now }
    requires len { deque_len epochs.old ≡ length epochs.old.items }
    ensures replayed { OnOk result ((log : List Numbered) → IsSound S.flat S.base (log_of kept.now ++ log)
        → IsReplayed S.flat S.base log (O.tells outbox.old) so_far.old
        → IsReplayed S.flat S.base (log_of kept.now ++ log) (O.tells outbox.old) so_far.new) }
    ensures left { IsLeft (O.tells outbox.old) (O.tells outbox.new) }
    ensures cause { IsErrOf result BookError.OutboxFault → Rose (O.tells outbox.old).faults (O.tells outbox.new).faults }
    ensures why { IfErr result IsRefused }
{
    let mut steps = Steps::<L>::new(blank);
    for entry in kept {
        replay_one::<S, O, L>(alloc, entry, epochs, outbox, so_far, &mut steps)?;
    }
    Ok(())
}

/// The same with what the cells have in the cache of the run.
fn settled(alloc: Global, so_far: Replayed, cache: Arc<Cache>) -> Result<Replayed, OutOfMemory>
    ensures replayed { IfOk result (λ done. (flat : List ℕ → Conf) (base : Base) (log : List Numbered) (outbox : SinkTells)
        → IsReplayed flat base log outbox so_far → IsReplayed flat base log outbox done) }
    ensures cache { IfOk result (λ done. done.present.cells.cache ≡ arc_value cache) }
{
    let mut so_far = so_far;
    match so_far.present.move_to(alloc, cache) {
        Ok(()) => Ok(so_far),
        Err(OutOfMemory) => {
            drop(so_far);
            Err(OutOfMemory)
        }
    }
}

/// All entries but the first.
fn rest_of(kept: &[Numbered]) -> &[Numbered]
    requires { 0 < length kept.now }
    ensures { result.now ≡ take (length kept.now - 1) (drop 1 kept.now) }
{
    &kept[1..]
}

/// The entries that are replayed one after another: behind an empty base all but the first, which brings the first
/// configuration.
pub(crate) fn behind_first<'a>(kept: &'a [Numbered], base: &Base) -> &'a [Numbered]
    requires { base.now.text ≡ [] → 0 < length kept.now }
    ensures { result.now ≡ replayed_of base.entry.now.text kept.now }
{
    if is_empty(base) { rest_of(kept) } else { kept }
}

/// Replays the entries with which a run begins, behind a base, or, where that is empty, from nothing on, and makes their
/// lines that the outbox lacks. Of the configurations the first is that of the base, where it isn't empty; then there is one
/// for each Config among the entries. What the cells have behind them stands in the cache; the other values that are stored
/// meanwhile are given up, so that the memory which they take is bounded. The outbox keeps what it holds. Where it holds fewer
/// bytes than the base's lines have, it is compared with none.
///
/// # Errors
///
/// `OutboxFault` where the outbox can't be read, and `OutOfMemory` where memory was refused. It answers no other one.
pub fn begin<S: StartName, O: Sink>(
    alloc: Global,
    base: &Base,
    epochs: Vec<Ready>,
    kept: &[Numbered],
    cache: Arc<Cache>,
    outbox: &mut O,
) -> Result<Replayed, BookError>
    requires base { base.now ≡ S.base }
    requires kept { kept.now ≡ S.kept }
    requires begun { HasBegun (start_of S.flat S.base) (log_of S.kept) }
    requires sound { IsSound S.flat S.base (log_of S.kept) }
    requires epochs { epochs.items ≡ run_epochs S.flat S.base S.kept }
    ensures replayed { IfOk result (IsReplayed S.flat S.base (log_of S.kept) (O.tells outbox.old)) }
    ensures cache { IfOk result (λ replayed. replayed.present.cells.cache ≡ arc_value cache) }
    ensures left { IsLeft (O.tells outbox.old) (O.tells outbox.new) }
    ensures cause { IsErrOf result BookError.OutboxFault → Rose (O.tells outbox.old).faults (O.tells outbox.new).faults }
    ensures why { IfErr result IsRefused }
{
    // One that can't be opened fails here.
    outbox.differs(0, &[])?;
    let own = new_cache(alloc)?;
    let mut epochs = VecDeque::from(epochs);
    let present = Present::begin(alloc, next_epoch(&mut epochs), base, own)?;
    let tally = Tally::behind(base.lines);
    let missing = Bytes::new(alloc);
    let mut so_far = Replayed {
        present,
        tally,
        other: None,
        missing,
    };
    let rest = behind_first(kept, base);
    let blank = Blank::new(1);
    match replay_all::<S, O, Brand>(alloc, rest, &mut epochs, outbox, &mut so_far, blank) {
        Ok(()) => Ok(settled(alloc, so_far, cache)?),
        Err(error) => {
            drop(so_far);
            Err(error)
        }
    }
}

/// Cuts an outbox where it holds a 0 in place of the lines' byte, as a power cut may leave it. It is refused where it holds
/// fewer bytes than stand before the lines, where it holds more than these and the lines have, and where it holds any other
/// byte. Then it is as before, as it is where a call of it fails.
///
/// # Errors
///
/// `OutboxBehind` where it holds fewer than these first bytes, `OutboxAhead` where it holds more than this number of bytes,
/// which counts those and the lines', `OutboxDiffers` where it holds another byte at the place `other` than a 0, and
/// `OutboxFault` where a call of it failed.
pub fn mend<O: Sink>(
    outbox: &mut O,
    before: u64,
    lines: u64,
    other: Option<u64>,
) -> Result<(), BookError>
    ensures mended { OnOk result ((all : List ℕ) → lines ≡ min (before + length all) 18446744073709551615
        → IsCompared before (O.tells outbox.old) all other
        → HasFront before (O.tells outbox.old) (O.tells outbox.new) all) }
    ensures least { OnOk result (before ≤ (O.tells outbox.old).held) }
    ensures enough { OnOk result ((O.tells outbox.old).held ≤ lines) }
    ensures mendable { OnOk result (IfSome (O.tells outbox.old).bytes (λ b. IfSome other (λ place. get_or b place 0 ≡ 0))) }
    ensures held { OnOk result ((O.tells outbox.new).held ≡ min (unwrap_or other (O.tells outbox.old).held) (O.tells outbox.old).held) }
    ensures later { (O.tells outbox.old).faults ≤ (O.tells outbox.new).faults }
    ensures left { IfErr result (λ _. IsLeft (O.tells outbox.old) (O.tells outbox.new)) }
    ensures behind { IfErr result (λ error. (held count : ℕ) → error ≡ BookError.OutboxBehind held count
        → (held ≡ (O.tells outbox.old).held) × (count ≡ before) × (held < count)) }
    ensures ahead { IfErr result (λ error. (held count : ℕ) (all : List ℕ) → error ≡ BookError.OutboxAhead held count
        → lines ≡ min (before + length all) 18446744073709551615
        → (held ≡ (O.tells outbox.old).held) × (count ≡ before + length all) × (count < held)) }
    ensures differs { IfErr result (λ error. (at : ℕ) → error ≡ BookError.OutboxDiffers at
        → (before ≤ (O.tells outbox.old).held) × ((O.tells outbox.old).held ≤ lines) × (other ≡ Some at)
        × IfSome (O.tells outbox.old).bytes (λ b. at < length b → get_or b at 0 ≢ 0)) }
    ensures cause { IsErrOf result BookError.OutboxFault → Rose (O.tells outbox.old).faults (O.tells outbox.new).faults }
{
    let held = outbox.held();
    if held < before {
        return Err(BookError::OutboxBehind { held, base: before });
    }
    if lines < held {
        return Err(BookError::OutboxAhead { held, lines });
    }
    let Some(at) = other else {
        return Ok(());
    };
    if outbox.differs(at, &[0])?.is_some() {
        return Err(BookError::OutboxDiffers { at });
    }
    outbox.cut(at)?;
    Ok(())
}
