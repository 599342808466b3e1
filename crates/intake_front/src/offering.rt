//! Events that are taken: their groups are staged, and their answers held back.

ghost use Rattle.std.specs.Prelude.{◌≡◌, ◌≢◌, ◌≤◌, ◌<◌, ◌+◌, ◌^◌, ◌++◌, [], length, All, Option, Some, None, MatchResult, IfOk, OnOk, OnErr};
ghost use Rattle.std.specs.Vec.{vec_len, vec_capacity};
ghost use Rattle.intake_journal.specs.Bytes.{HasShortValue};
ghost use Rattle.intake_journal.specs.declared.state.State.TheVariants as state;
ghost use Rattle.intake_front.specs.Intake.{Intake, ticked, handled, offered, numbered_from};
ghost use Rattle.intake_front.specs.Fronted.{HasRoom, limits_of};
ghost use Rattle.intake_front.specs.Staging.{FollowsBlock, IsOffered, IsStagedAs};
ghost use Rattle.intake_front.specs.Waiting.{IsBatch, IsWaiting, IsTaken, IsLeft};
ghost use Rattle.intake_front.specs.declared.answer.Stop.TheVariants as stop;

use crate::answer::{Answer, Stop};
use crate::batch::{Batch, commit};
use crate::collection::Collection;
use crate::drafts::{Draft, stop_of, ticks_at, turned};
use crate::held::Held;
use crate::settling::{Settled, enter, groups_of, numbered_both, settle, ticked_with};
use crate::staging::{Staged, stage_both};
use conf_index::Ready;
use intake_journal::{Block, Journal};
use outside::{Disk, WireEvent};
use std::alloc::Global;
use zbx_types::{Entry, Many, Moment, Numbered, OutOfMemory};

/// The half minute of the last Tick once these Ticks are kept at a moment, of which there is one at most.
fn half_behind(last: Option<u32>, now: Moment, ticks: &[Entry]) -> Option<u32>
    ensures { (i : Intake) → i.tick ≡ last → i.now ≡ now → result ≡ (ticked i ticks.now).tick }
{
    if ticks.is_empty() {
        last
    } else {
        Some(now.half_minutes())
    }
}

/// Copies an event's groups with the numbers from this one on, and stages them. Where memory is refused the block is
/// as before.
fn staged_numbered<D: Disk>(
    alloc: Global,
    journal: &Journal<D>,
    block: &mut Block,
    first: u64,
    ticks: &[Entry],
    group: &[Entry],
) -> Result<(Staged, Many<Numbered>), OutOfMemory>
    requires short_ticks { All HasShortValue ticks.now }
    requires short_values { All HasShortValue group.now }
    requires few { first + length ticks.now + length group.now < 2 ^ 64 }
    ensures staged { IfOk result (λ r. IsStagedAs journal.now block.old ticks.now group.now block.new r.0) }
    ensures added { IfOk result (λ r. r.1 ≡ numbered_from first (ticks.now ++ group.now)) }
    ensures room { OnOk result (HasRoom journal.now block.old → HasRoom journal.now block.new) }
    ensures err { OnErr result (block.new ≡ block.old) }
{
    let added = numbered_both(alloc, first, ticks, group)?;
    match stage_both(alloc, journal, block, ticks, group) {
        Ok(staged) => Ok((staged, added)),
        Err(refused) => {
            drop(added);
            Err(refused)
        }
    }
}

/// Takes all memory that an event's groups need, and stages them. But for its room and its block nothing is changed.
fn prepared<D: Disk>(
    alloc: Global,
    journal: &Journal<D>,
    entries: &mut Vec<Numbered>,
    batch: &mut Batch,
    first: u64,
    ticks: &[Entry],
    group: &[Entry],
) -> Result<(Staged, Many<Numbered>), OutOfMemory>
    requires short_ticks { All HasShortValue ticks.now }
    requires short_values { All HasShortValue group.now }
    requires few { first + length ticks.now + length group.now < 2 ^ 64 }
    ensures staged { IfOk result (λ r. IsStagedAs journal.now batch.old.block ticks.now group.now batch.new.block r.0) }
    ensures added { IfOk result (λ r. r.1 ≡ numbered_from first (ticks.now ++ group.now)) }
    ensures room { OnOk result (HasRoom journal.now batch.old.block → HasRoom journal.now batch.new.block) }
    ensures err { OnErr result (batch.new.block ≡ batch.old.block) }
    ensures entries { entries.new.items ≡ entries.old.items }
    ensures len { vec_len entries.new ≡ vec_len entries.old }
    ensures roomy { OnOk result (vec_len entries.old + length ticks.now + length group.now ≤ vec_capacity entries.new) }
    ensures answers { batch.new.answers.items ≡ batch.old.answers.items }
    ensures answer { OnOk result (0 < batch.new.answers.room) }
    ensures first { batch.new.first ≡ batch.old.first }
    ensures ticked { batch.new.is_ticked ≡ batch.old.is_ticked }
    ensures mark { batch.new.mark ≡ batch.old.mark }
{
    entries.reserve(ticks.len() + group.len())?;
    batch.answers.reserve(1)?;
    staged_numbered(alloc, journal, &mut batch.block, first, ticks, group)
}

/// Stages an event's Tick and its values, enters what was staged, and holds its answers back. All memory is taken
/// before anything is changed.
fn offer<D: Disk>(
    alloc: Global,
    journal: &Journal<D>,
    held: &mut Held,
    batch: &mut Batch,
    ticks: Many<Entry>,
    draft: Draft,
    last: Option<Stop>,
) -> Result<Option<Stop>, OutOfMemory>
    requires short_ticks { All HasShortValue ticks }
    requires short_values { All HasShortValue draft.group }
    requires last { last ≢ Some stop.DiskFault }
    requires stands { FollowsBlock journal.now batch.old.block held.old }
    requires batch { IsBatch held.old batch.old }
    ensures taken { MatchResult result (IsTaken held.old held.new batch.old batch.new
        (λ s. offered (limits_of journal.now s) held.old ticks draft last))
        (λ _. IsLeft held.old held.new batch.old batch.new) }
    ensures room { HasRoom journal.now batch.old.block → HasRoom journal.now batch.new.block }
{
    let first = held.before + held.entries.as_slice().len() as u64 + 1;
    let (staged, added) = match prepared(
        alloc,
        journal,
        &mut held.entries,
        batch,
        first,
        ticks.as_slice(),
        draft.group.as_slice(),
    ) {
        Ok(both) => both,
        Err(refused) => {
            drop(ticks);
            drop(draft);
            return Err(refused);
        }
    };
    let Settled {
        ticks,
        group,
        now,
        fault,
    } = settle(alloc, staged, ticks, draft, last, added);
    let stop = now.stop;
    batch.is_ticked = ticked_with(batch.is_ticked, ticks.as_slice(), group.as_slice());
    held.tick = half_behind(held.tick, held.now, ticks.as_slice());
    held.bytes = journal.bytes_with(&batch.block);
    held.groups += groups_of(ticks.as_slice()) + groups_of(group.as_slice());
    enter(held.before, &mut held.entries, ticks);
    enter(held.before, &mut held.entries, group);
    batch.push(now, fault);
    Ok(stop)
}

/// Takes an event: moves the connections, and offers what it makes.
pub(crate) fn receive<D: Disk>(
    alloc: Global,
    journal: &Journal<D>,
    held: &mut Held,
    batch: &mut Batch,
    collection: &mut Collection<'_>,
    event: &WireEvent,
) -> Result<Option<Stop>, OutOfMemory>
    requires stands { FollowsBlock journal.now batch.old.block held.old }
    requires batch { IsBatch held.old batch.old }
    ensures taken { MatchResult result (IsTaken held.old held.new batch.old batch.new
        (λ s. handled (limits_of journal.now s) collection.old held.old event.now))
        (λ _. IsLeft held.old held.new batch.old batch.new) }
    ensures same { collection.new ≡ collection.old }
    ensures room { HasRoom journal.now batch.old.block → HasRoom journal.now batch.new.block }
{
    let now = held.now.later(event.at());
    let ticks = ticks_at(alloc, held.tick, now)?;
    let turn = held.table.on(alloc, event, now)?;
    let draft = turned(alloc, collection, now, turn)?;
    held.now = now;
    offer(alloc, journal, held, batch, ticks, draft, stop_of(event))
}

/// Takes an event and commits it.
pub(crate) fn receive_alone<D: Disk>(
    alloc: Global,
    journal: &mut Journal<D>,
    held: &mut Held,
    batch: &mut Batch,
    ready: &Ready,
    event: &WireEvent,
) -> Result<Answer, OutOfMemory>
    requires ready { journal.old.state ≡ state.Ready }
    requires waiting { IsWaiting D.tells journal.old held.old batch.old }
    requires block { batch.old.block ≡ [] }
    requires answers { batch.old.answers.items ≡ [] }
    ensures offered { IsOffered D.tells journal.old journal.new held.old held.new
        (λ s. handled (limits_of journal.old s) ready.now.conf held.old event.now) result }
    ensures waiting { IsWaiting D.tells journal.new held.new batch.new }
    ensures block { batch.new.block ≡ [] }
    ensures answers { batch.new.answers.items ≡ [] }
    ensures first { batch.new.first ≡ None }
{
    let mut collection = Collection::new(ready);
    receive(alloc, journal, held, batch, &mut collection, event)?;
    match commit(alloc, journal, held, batch).into_vec().pop() {
        Some(answer) => Ok(answer),
        None => Err(OutOfMemory),
    }
}
