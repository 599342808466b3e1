//! The top call for alerts by several sessions.

ghost use Rattle.std.specs.Prelude.{◌≡◌, ◌≢◌, ◌⊎◌, ◌≤◌, ◌<◌, ◌^◌, [], None, All, false, length, map, is_some, IfSome};
ghost use Rattle.outside.specs.Causes.{Rose};
ghost use Rattle.outside.specs.Disk.{LeavesOnly};
ghost use Rattle.alert_marks.specs.Marks.{EachKeeps, AreOnce};
ghost use Rattle.alert_media.specs.Media.{IsLimited};
ghost use Rattle.server_words.specs.Words.{alerts_plan_of};
ghost use Rattle.server_words.specs.declared.status.Status.TheVariants as status;
ghost use Rattle.server_jobs.specs.Numbering.{AreWithin};
ghost use Rattle.server_jobs.specs.Working.{EndsTries, KeepsSome};
ghost use Rattle.server_jobs.specs.Sessions.{WorkTogetherIfAny, AreOrders, stopped_for};
ghost use Rattle.server_jobs.specs.Alerts.{IsUnopened, ComesTo, Opens, KeepsThrough};
ghost use Rattle.server_jobs.specs.Reports.{Prints};

use crate::alerts::{Alerted, held_back, unopened};
use crate::ordering::orders_of;
use crate::queueing::ahead_of;
use crate::reading::{Given, read_given};
use crate::reporting::report;
use alert_marks::{AddError, Marks};
use alert_media::Media;
use alert_run::Note;
use alert_sessions::{Hand, work_in_sessions};
use outside::{Clock, Disk, Sink, Source, Spawner};
use server_words::Status;
use std::alloc::Global;
use std::sync::Wait;
use std::thread::Threads;
use zbx_types::{Many, Text};

/// How a call ended whose sessions stopped for this, or for nothing.
fn stopped_for(stopped: Option<AddError>) -> Status
    ensures { result ≡ stopped_for stopped }
{
    match stopped {
        None => Status::Ok,
        Some(AddError::DiskFault) => Status::DiskFault,
        Some(AddError::OutOfMemory) => Status::OutOfMemory,
    }
}

/// A call that ends with these marks.
fn ended<D: Disk>(marks: Marks<D>, status: Status) -> Alerted<D>
    ensures { result ≡ record { status = status; progress = marks.disk; marks = marks.list } }
{
    let (progress, marks) = marks.end();
    Alerted {
        status,
        progress,
        marks,
    }
}

/// Tries the notes that have no mark, where no mark is of a note that isn't there.
#[tactic(auto, using(crate::proofs::Together::unmarked, crate::proofs::Together::homes_same, crate::proofs::Together::works_together, crate::proofs::Together::ends_together, crate::proofs::Together::kept_together, crate::proofs::Together::moments_together, crate::proofs::Crashes::moments_none, crate::proofs::Crashes::moments_some))]
fn work_within<D, W, C, R>(
    rt: &R,
    alloc: Global,
    media: &Media,
    notes: Many<Note>,
    marks: Marks<D>,
    hands: &mut [Hand<W, C>],
) -> Alerted<D>
where
    D: Disk + Send,
    W: Spawner + Send,
    C: Clock + Send,
    R: Threads + Wait + Sync,
    requires few { length notes < 2 ^ 32 }
    requires entries { All IsLimited media.now.entries }
    requires others { 1 ≤ media.now.attempts }
    requires once { AreOnce marks.list }
    requires within { AreWithin (length notes) marks.list }
    requires going { marks.is_broken ≡ false }
    requires keeps { EachKeeps (D.tells marks.disk) marks.list }
    requires some { 0 < length hands.old }
    ensures works { WorkTogetherIfAny media.now notes (map (λ h. W.tells h.spawner) hands.old) (map (λ h. W.tells h.spawner) hands.new) marks.list result.marks }
    ensures why { EndsTries notes marks.list result.marks (D.tells marks.disk).faults (D.tells result.progress).faults (map (λ h. W.tells h.spawner) hands.old) (map (λ h. W.tells h.spawner) hands.new) result.status }
    ensures keeps { result.status ≢ status.DiskFault → EachKeeps (D.tells result.progress) result.marks }
    ensures later { (D.tells marks.disk).faults ≤ (D.tells result.progress).faults }
    ensures told { is_some (D.tells result.progress).bytes ≡ is_some (D.tells marks.disk).bytes }
    ensures any_moment { IfSome (D.tells marks.disk).bytes (λ _. LeavesOnly (D.tells marks.disk) (D.tells result.progress) (KeepsSome result.marks)) }
{
    let Ok((queue, orders)) = orders_of(alloc, media, notes, marks.list()) else {
        return ended(marks, Status::OutOfMemory);
    };
    let worked = work_in_sessions(rt, alloc, queue, marks, &orders, hands);
    ended(worked.marks, stopped_for(worked.stopped))
}

/// Tries the notes that have no mark, where there are no more marks than notes.
#[tactic(auto, using(crate::proofs::Starting::within_ahead, crate::proofs::Crashes::moments_none, crate::proofs::Crashes::moments_some))]
fn with_marks<D, W, C, R>(
    rt: &R,
    alloc: Global,
    media: &Media,
    notes: Many<Note>,
    marks: Marks<D>,
    hands: &mut [Hand<W, C>],
) -> Alerted<D>
where
    D: Disk + Send,
    W: Spawner + Send,
    C: Clock + Send,
    R: Threads + Wait + Sync,
    requires few { length notes < 2 ^ 32 }
    requires entries { All IsLimited media.now.entries }
    requires others { 1 ≤ media.now.attempts }
    requires once { AreOnce marks.list }
    requires going { marks.is_broken ≡ false }
    requires keeps { EachKeeps (D.tells marks.disk) marks.list }
    requires some { 0 < length hands.old }
    ensures works { WorkTogetherIfAny media.now notes (map (λ h. W.tells h.spawner) hands.old) (map (λ h. W.tells h.spawner) hands.new) marks.list result.marks }
    ensures why { EndsTries notes marks.list result.marks (D.tells marks.disk).faults (D.tells result.progress).faults (map (λ h. W.tells h.spawner) hands.old) (map (λ h. W.tells h.spawner) hands.new) result.status }
    ensures keeps { result.status ≢ status.DiskFault → EachKeeps (D.tells result.progress) result.marks }
    ensures later { (D.tells marks.disk).faults ≤ (D.tells result.progress).faults }
    ensures told { is_some (D.tells result.progress).bytes ≡ is_some (D.tells marks.disk).bytes }
    ensures any_moment { IfSome (D.tells marks.disk).bytes (λ _. LeavesOnly (D.tells marks.disk) (D.tells result.progress) (KeepsSome result.marks)) }
{
    match ahead_of(marks.list(), notes.len()) {
        Some(ahead) => ended(
            marks,
            Status::MarksAhead {
                marks: ahead,
                messages: notes.len() as u64,
            },
        ),
        None => work_within(rt, alloc, media, notes, marks, hands),
    }
}

/// Opens a progress, and tries the notes that have no mark on it.
#[tactic(auto, using(crate::proofs::Coming::opens, crate::proofs::Crashes::moments_through, crate::proofs::Crashes::moments_opened))]
fn on_progress<D, W, C, R>(
    rt: &R,
    alloc: Global,
    media: &Media,
    notes: Many<Note>,
    progress: D,
    hands: &mut [Hand<W, C>],
) -> Alerted<D>
where
    D: Disk + Send,
    W: Spawner + Send,
    C: Clock + Send,
    R: Threads + Wait + Sync,
    requires few { length notes < 2 ^ 32 }
    requires entries { All IsLimited media.now.entries }
    requires others { 1 ≤ media.now.attempts }
    requires some { 0 < length hands.old }
    ensures done { Opens (WorkTogetherIfAny media.now) notes (D.tells progress) (D.tells result.progress) (map (λ h. W.tells h.spawner) hands.old) (map (λ h. W.tells h.spawner) hands.new) result.status result.marks
        ⊎ (IsUnopened (D.tells progress).bytes (D.tells progress).faults (D.tells result.progress).faults result.status × (result.marks ≡ []) × (hands.new ≡ hands.old)) }
    ensures told { is_some (D.tells result.progress).bytes ≡ is_some (D.tells progress).bytes }
    ensures any_moment { IfSome (D.tells progress).bytes (λ _. LeavesOnly (D.tells progress) (D.tells result.progress) (KeepsThrough (D.tells progress) result.marks)) }
{
    match Marks::recover(alloc, progress) {
        Ok(marks) => with_marks(rt, alloc, media, notes, marks, hands),
        Err((progress, error)) => held_back(alloc, progress, unopened(error)),
    }
}

/// Runs alerts by several sessions up to the printed line.
#[tactic(auto, using(crate::proofs::Crashes::moments_alone))]
fn go<S, M, D, W, C, R>(
    rt: &R,
    alloc: Global,
    words: &[Text],
    lines: &mut S,
    media: &mut M,
    progress: D,
    hands: &mut [Hand<W, C>],
) -> Alerted<D>
where
    S: Source,
    M: Source,
    D: Disk + Send,
    W: Spawner + Send,
    C: Clock + Send,
    R: Threads + Wait + Sync,
    requires some { 0 < length hands.old }
    ensures comes { ComesTo WorkTogetherIfAny words.now (record {
      read = record {
        lines = S.left lines.old;
        faults = S.faults lines.old;
        faults' = S.faults lines.new;
        document = M.left media.old;
        document_faults = M.faults media.old;
        document_faults' = M.faults media.new;
      };
      disk = D.tells progress;
      disk' = D.tells result.progress;
      spawner = map (λ h. W.tells h.spawner) hands.old;
      spawner' = map (λ h. W.tells h.spawner) hands.new;
    }) result.status result.marks }
    ensures told { is_some (D.tells result.progress).bytes ≡ is_some (D.tells progress).bytes }
    ensures any_moment { IfSome (D.tells progress).bytes (λ _. LeavesOnly (D.tells progress) (D.tells result.progress) (KeepsThrough (D.tells progress) result.marks)) }
    ensures unprinted { result.status ≢ status.PrintFault }
    ensures no_plan { alerts_plan_of words.now ≡ None → (lines.new ≡ lines.old) × (media.new ≡ media.old) }
{
    match read_given(alloc, words, lines, media) {
        Ok(
            Given {
                notes,
                media: known,
            },
        ) => on_progress(rt, alloc, &known, notes, progress, hands),
        Err(status) => held_back(alloc, progress, status),
    }
}

/// Runs a script for each message of an outbox that has no mark yet, as [`run_alerts`](crate::run_alerts) does, by a session
/// for each hand at the same time. Last it prints one line.
///
/// Each recipient's messages are tried in order, one at a time; those of several recipients at the same time. Once a mark
/// couldn't be kept no further try is begun. Where sessions have ended early, the call goes on with the first hand. It waits
/// for programs and for moments, and holds what it says if it returns. There is at least one hand.
#[tactic(auto, using(crate::proofs::Coming::comes_printed, crate::proofs::Coming::usage_of, crate::proofs::Coming::no_plan))]
pub fn run_sessions<S, M, D, W, C, P, R>(
    rt: &R,
    alloc: Global,
    words: &[Text],
    lines: &mut S,
    media: &mut M,
    progress: D,
    hands: &mut [Hand<W, C>],
    print: &mut P,
) -> Alerted<D>
where
    S: Source,
    M: Source,
    D: Disk + Send,
    W: Spawner + Send,
    C: Clock + Send,
    P: Sink,
    R: Threads + Wait + Sync,
    requires some { 0 < length hands.old }
    // A call is refused as one by a single session is. Else each recipient's notes that had no mark got theirs in order, for
    // runs of its command.
    ensures comes { ComesTo WorkTogetherIfAny words.now (record {
      read = record {
        lines = S.left lines.old;
        faults = S.faults lines.old;
        faults' = S.faults lines.new;
        document = M.left media.old;
        document_faults = M.faults media.old;
        document_faults' = M.faults media.new;
      };
      disk = D.tells progress;
      disk' = D.tells result.progress;
      spawner = map (λ h. W.tells h.spawner) hands.old;
      spawner' = map (λ h. W.tells h.spawner) hands.new;
    }) result.status result.marks }
    ensures usage { result.status ≡ status.Usage → alerts_plan_of words.now ≡ None }
    ensures no_plan { alerts_plan_of words.now ≡ None → (result.status ≡ status.Usage) ⊎ (result.status ≡ status.OutOfMemory) }
    ensures told { is_some (D.tells result.progress).bytes ≡ is_some (D.tells progress).bytes }

    // A crash at any moment left what one before the call might have, or some of its marks from the front, the one in hand
    // among them or not.
    ensures any_moment { IfSome (D.tells progress).bytes (λ _. LeavesOnly (D.tells progress) (D.tells result.progress) (KeepsThrough (D.tells progress) result.marks)) }
    ensures print { result.status ≡ status.PrintFault → Rose (P.tells print.old).faults (P.tells print.new).faults }
    ensures printed { Prints result.status result.marks (P.tells print.old) (P.tells print.new) }
{
    let done = go(rt, alloc, words, lines, media, progress, hands);
    let status = report(alloc, done.status, done.marks.as_slice(), print);
    Alerted {
        status,
        progress: done.progress,
        marks: done.marks,
    }
}
