//! What an event enters of its groups, and what it is answered with.

ghost use Rattle.std.specs.Prelude.{◌≡◌, ◌≤◌, ◌<◌, ◌++◌, ◌+◌, ◌^◌, ◌||◌, [], length, is_some, Option, OnOk, IfOk};
ghost use Rattle.std.specs.Vec.{vec_len, vec_capacity};
ghost use Rattle.entry_step.specs.Log.{tick_of};
ghost use Rattle.intake_journal.specs.Based.{most_counted};
ghost use Rattle.intake_front.specs.Intake.{numbered_from, with_group};
ghost use Rattle.intake_front.specs.Staging.{groups_in, fault_at, settled};
ghost use Rattle.intake_front.specs.Waiting.{has_tick};
ghost use Rattle.intake_front.specs.declared.answer.Stop.{Stop};
ghost use Rattle.intake_front.specs.declared.staging.Staged.TheVariants as staged;

use crate::answer::{Answer, Reply, Stop};
use crate::drafts::{Draft, stopping};
use crate::staging::Staged;
use std::alloc::Global;
use zbx_types::{Entry, Many, Moment, Numbered, OutOfMemory};

/// The groups that an event enters, and what it is answered with.
#[derive(Drop)]
pub(crate) struct Settled {
    /// Its Tick, of which there is one at most.
    pub(crate) ticks: Many<Entry>,
    /// Its values.
    pub(crate) group: Many<Entry>,
    /// The answer where they are kept.
    pub(crate) now: Answer,
    /// The answer where the disk refuses the first of them, if there is any.
    pub(crate) fault: Option<Answer>,
}

/// The number of groups that these entries are.
pub(crate) fn groups_of(entries: &[Entry]) -> u64
    ensures value { result ≡ groups_in entries.now }
    ensures few { result ≤ length entries.now }
    ensures one { result ≤ 1 }
{
    if entries.is_empty() { 0 } else { 1 }
}

fn is_tick(entry: &Entry) -> bool
    ensures { result ≡ is_some (tick_of entry.now) }
{
    match entry {
        Entry::Tick { .. } => true,
        Entry::Config { .. } | Entry::Value { .. } => false,
    }
}

/// Whether a Tick is among entries.
fn has_tick(entries: &[Entry]) -> bool
    ensures { result ≡ has_tick entries.now }
{
    for entry in entries {
        if is_tick(entry) {
            return true;
        }
    }
    false
}

/// Whether there was a Tick, or one is among two groups.
pub(crate) fn ticked_with(before: bool, ticks: &[Entry], group: &[Entry]) -> bool
    ensures { result ≡ (before || has_tick ticks.now || has_tick group.now) }
{
    before || has_tick(ticks) || has_tick(group)
}

/// Adds copies of a group, with the numbers from this one on behind those of what was made.
fn number(
    alloc: Global,
    made: &mut Many<Numbered>,
    first: u64,
    group: &[Entry],
) -> Result<(), OutOfMemory>
    requires { first + length made.old + length group.now < 2 ^ 64 }
    ensures { OnOk result (made.new ≡ made.old ++ numbered_from (first + length made.old) group.now) }
{
    for entry in group {
        let number = first + made.as_slice().len() as u64;
        made.push(Numbered {
            number,
            entry: entry.copy(alloc)?,
        })?;
    }
    Ok(())
}

/// Copies of two groups, one behind the other, with the numbers from this one on.
pub(crate) fn numbered_both(
    alloc: Global,
    first: u64,
    ticks: &[Entry],
    group: &[Entry],
) -> Result<Many<Numbered>, OutOfMemory>
    requires { first + length ticks.now + length group.now < 2 ^ 64 }
    ensures { IfOk result (λ made. made ≡ numbered_from first (ticks.now ++ group.now)) }
{
    let mut made = Many::new(alloc);
    number(alloc, &mut made, first, ticks)?;
    number(alloc, &mut made, first, group)?;
    Ok(made)
}

/// Moves a group behind entries, before all of which an entry with this number stands, with the numbers behind theirs.
/// There is room for it. Takes no memory.
pub(crate) fn enter(before: u64, entries: &mut Vec<Numbered>, group: Many<Entry>)
    requires few { before ≤ most_counted }
    requires room { vec_len entries.old + length group ≤ vec_capacity entries.old }
    ensures items { entries.new.items ≡ with_group before entries.old.items group }
    ensures len { vec_len entries.new ≡ vec_len entries.old + length group }
    ensures room { vec_capacity entries.new ≡ vec_capacity entries.old }
{
    for entry in group.into_vec() {
        let number = before + entries.len() as u64 + 1;
        entries.push_reserved(Numbered { number, entry });
    }
}

/// The answer where the disk refuses the first of an event's groups: behind a Tick the event isn't handled, and
/// values count as failed.
fn fault_at(
    alloc: Global,
    ticks: &[Entry],
    group: &[Entry],
    failing: Option<Reply>,
    shut: Option<u64>,
) -> Option<Answer>
    ensures { result ≡ fault_at ticks.now group.now failing shut }
{
    if !ticks.is_empty() {
        return Some(stopping(alloc, Stop::DiskFault));
    }
    if group.is_empty() {
        return None;
    }
    Some(Answer {
        reply: failing,
        shut,
        added: Many::new(alloc),
        stop: Some(Stop::DiskFault),
    })
}

/// What an event enters and is answered with, by what of its groups was staged. Takes no memory.
pub(crate) fn settle(
    alloc: Global,
    staged: Staged,
    ticks: Many<Entry>,
    draft: Draft,
    last: Option<Stop>,
    added: Many<Numbered>,
) -> Settled
    ensures value { result ≡ settled staged ticks draft last added }
    ensures few_ticks { length result.ticks ≤ length ticks }
    ensures few_values { length result.group ≤ length draft.group }
{
    match staged {
        Staged::Both => {
            let Draft {
                group,
                reply,
                failing,
                shut,
            } = draft;
            let fault = fault_at(alloc, ticks.as_slice(), group.as_slice(), failing, shut);
            Settled {
                ticks,
                group,
                now: Answer {
                    reply,
                    shut,
                    added,
                    stop: last,
                },
                fault,
            }
        }
        Staged::OnlyTick(full) => only_tick(alloc, ticks, draft, full, added),
        Staged::Neither(full) => Settled {
            ticks: Many::new(alloc),
            group: Many::new(alloc),
            now: stopping(alloc, full),
            fault: None,
        },
    }
}

/// The same where there was no room for the values.
fn only_tick(
    alloc: Global,
    ticks: Many<Entry>,
    draft: Draft,
    full: Stop,
    added: Many<Numbered>,
) -> Settled
    ensures value { (last : Option Stop) → result ≡ settled (staged.OnlyTick full) ticks draft last added }
    ensures ticks { result.ticks ≡ ticks }
    ensures group { result.group ≡ [] }
{
    let mut added = added.into_vec();
    added.truncate(ticks.as_slice().len());
    let fault = fault_at(alloc, ticks.as_slice(), &[], None, None);
    Settled {
        ticks,
        group: Many::new(alloc),
        now: Answer {
            reply: draft.failing,
            shut: draft.shut,
            added: Many::from_vec(added),
            stop: Some(full),
        },
        fault,
    }
}
