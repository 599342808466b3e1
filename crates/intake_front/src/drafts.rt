//! What an event makes before its groups are offered: entries and replies.

ghost use Rattle.std.specs.Prelude.{◌≡◌, ◌<◌, All, IfOk};
ghost use Rattle.intake_journal.specs.Bytes.{HasShortValue};
ghost use Rattle.intake_front.specs.Intake.{ticks_at, is_due, only, replying, counting, counted, answered_taken, turned, stop_of, stopping};

use crate::answer::{Answer, Reply, Stop};
use crate::asking::{Ask, asked};
use crate::collection::Collection;
use crate::gathering::Taken;
use crate::telling::told;
use conf_index::Ready;
use outside::WireEvent;
use sender_json::{refusal, reply};
use std::alloc::Global;
use wire_core::Turn;
use zbx_types::{Bytes, Entry, Many, Moment, OutOfMemory};

/// What an event makes: the values of a group, and both replies.
#[derive(Drop)]
pub(crate) struct Draft {
    /// The values that are taken, as entries.
    pub(crate) group: Many<Entry>,
    /// The reply where the group is kept.
    pub(crate) reply: Option<Reply>,
    /// The reply where it isn't: it counts all values as failed.
    pub(crate) failing: Option<Reply>,
    /// The connection that is closed.
    pub(crate) shut: Option<u64>,
}

fn only(alloc: Global, reply: Option<Reply>, shut: Option<u64>) -> Draft
    ensures { result ≡ only reply shut }
{
    Draft {
        group: Many::new(alloc),
        reply,
        failing: None,
        shut,
    }
}

fn replying(conn: u64, bytes: Bytes) -> Option<Reply>
    ensures { result ≡ replying conn bytes }
{
    Some(Reply { conn, bytes })
}

fn counting(
    alloc: Global,
    conn: u64,
    processed: u64,
    failed: u64,
    now: Moment,
    since: Moment,
) -> Result<Option<Reply>, OutOfMemory>
    ensures { IfOk result (λ r. r ≡ counting conn processed failed now since) }
{
    let bytes = reply(alloc, processed, failed, now.since(since) / 1000)?;
    Ok(replying(conn, bytes))
}

/// What an event makes that brings so many values, of which these are taken.
#[tactic(auto, unfolding(crate::specs::Intake::counted))]
fn counted(
    alloc: Global,
    now: Moment,
    conn: u64,
    since: Moment,
    group: Many<Entry>,
    total: u64,
) -> Result<Draft, OutOfMemory>
    ensures { IfOk result (λ draft. draft ≡ counted now conn since group total) }
{
    let processed = group.as_slice().len() as u64;
    let good = counting(
        alloc,
        conn,
        processed,
        total.saturating_sub(processed),
        now,
        since,
    )?;
    let failing = counting(alloc, conn, 0, total, now, since)?;
    Ok(Draft {
        group,
        reply: good,
        failing,
        shut: Some(conn),
    })
}

/// What is made of what a body asks, whose values were taken.
#[tactic(auto, unfolding(crate::specs::Intake::answered_taken))]
fn answered_taken(
    alloc: Global,
    ready: &Ready,
    now: Moment,
    conn: u64,
    since: Moment,
    ask: Ask<Taken, Taken>,
) -> Result<Draft, OutOfMemory>
    ensures { IfOk result (λ draft. draft ≡ answered_taken ready.now.conf now conn since ask) }
{
    match ask {
        Ask::Refused(why) => {
            let bytes = refusal(alloc, why)?;
            Ok(only(alloc, replying(conn, bytes), Some(conn)))
        }
        Ask::Checks { host } => {
            let bytes = told(alloc, ready, &host)?;
            Ok(only(alloc, replying(conn, bytes), Some(conn)))
        }
        Ask::Values(taken) | Ask::Data(taken) => {
            let Taken { group, total } = taken;
            counted(alloc, now, conn, since, group, total)
        }
    }
}

/// What is made at a moment of what an event meant for its connection.
#[tactic(auto, unfolding(crate::specs::Intake::turned, crate::specs::Intake::answered_ask))]
fn draft_of(
    alloc: Global,
    collection: &mut Collection<'_>,
    now: Moment,
    turn: Turn,
) -> Result<Draft, OutOfMemory>
    ensures made { IfOk result (λ draft. draft ≡ turned collection.old now turn) }
    ensures same { collection.new ≡ collection.old }
{
    match turn {
        Turn::Nothing => Ok(only(alloc, None, None)),
        Turn::Shut { conn } => Ok(only(alloc, None, Some(conn))),
        Turn::Whole { conn, body, since } => {
            let by = collection.taking(now)?;
            let ask = asked(alloc, &by, body.as_slice())?;
            answered_taken(alloc, collection.ready(), now, conn, since, ask)
        }
    }
}

/// The same, whose values are all short.
#[tactic(auto, using(crate::proofs::Short::turned_short))]
pub(crate) fn turned(
    alloc: Global,
    collection: &mut Collection<'_>,
    now: Moment,
    turn: Turn,
) -> Result<Draft, OutOfMemory>
    ensures made { IfOk result (λ draft. draft ≡ turned collection.old now turn) }
    ensures same { collection.new ≡ collection.old }
    ensures short { IfOk result (λ draft. All HasShortValue draft.group) }
{
    let draft = draft_of(alloc, collection, now, turn)?;
    Ok(draft)
}

fn is_due(last: Option<u32>, half: u32) -> bool
    ensures { result ≡ is_due last half }
{
    match last {
        None => true,
        Some(last) => last < half,
    }
}

/// The Tick that is due at a moment.
pub(crate) fn ticks_at(
    alloc: Global,
    last: Option<u32>,
    now: Moment,
) -> Result<Many<Entry>, OutOfMemory>
    ensures made { IfOk result (λ made. made ≡ ticks_at last now) }
    ensures short { IfOk result (λ made. All HasShortValue made) }
{
    let mut made = Many::new(alloc);
    if is_due(last, now.half_minutes()) {
        made.push(Entry::Tick { now })?;
    }
    Ok(made)
}

/// Why no event follows this one, where nothing is refused.
pub(crate) fn stop_of(event: &WireEvent) -> Option<Stop>
    ensures { result ≡ stop_of event.now }
{
    match event {
        WireEvent::Closed { .. } => Some(Stop::Closed),
        WireEvent::Opened { .. }
        | WireEvent::Piece { .. }
        | WireEvent::Ended { .. }
        | WireEvent::Broke { .. }
        | WireEvent::Quiet { .. } => None,
    }
}

/// Nothing is answered but why no event is taken any more.
pub(crate) fn stopping(alloc: Global, stop: Stop) -> Answer
    ensures { result ≡ stopping stop }
{
    Answer {
        reply: None,
        shut: None,
        added: Many::new(alloc),
        stop: Some(stop),
    }
}
