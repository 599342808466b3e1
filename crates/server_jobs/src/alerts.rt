//! The top call for alerts.

ghost use Rattle.std.specs.Prelude.{◌≡◌, ◌≢◌, ◌⊎◌, ◌≤◌, ◌<◌, ◌^◌, [], None, All, false, length, is_some, IfSome};
ghost use Rattle.outside.specs.Causes.{Rose};
ghost use Rattle.outside.specs.Disk.{LeavesOnly};
ghost use Rattle.alert_marks.specs.Marks.{EachKeeps, AreOnce};
ghost use Rattle.alert_media.specs.Media.{IsLimited};
ghost use Rattle.server_words.specs.Words.{alerts_plan_of};
ghost use Rattle.server_words.specs.declared.status.Status.TheVariants as status;
ghost use Rattle.server_jobs.specs.Working.{WorksIfAny, EndsTries, KeepsSome};
ghost use Rattle.server_jobs.specs.Alerts.{IsUnopened, ComesTo, Opens, KeepsThrough, unopened};
ghost use Rattle.server_jobs.specs.Reports.{Prints};

use crate::reading::read_given;
use crate::reporting::report;
use crate::working::work_all;
use alert_marks::{Marks, MarksError};
use alert_media::Media;
use alert_queue::NoteMark;
use alert_run::Note;
use alert_sessions::Hand;
use outside::{Clock, Disk, Sink, Source, Spawner};
use server_words::Status;
use std::alloc::Global;
use zbx_types::{Many, Text};

/// What a call for alerts answers.
#[derive(Drop)]
pub struct Alerted<D> {
    /// How it ended.
    pub status: Status,
    /// The disk of the progress that was handed in.
    pub progress: D,
    /// The marks, in the order of making; none where they weren't read.
    pub marks: Many<NoteMark>,
}

/// A call that read nothing of its progress, or couldn't.
#[tactic(auto, using(crate::proofs::Crashes::moments_alone))]
pub(crate) fn held_back<D: Disk>(alloc: Global, progress: D, status: Status) -> Alerted<D>
    ensures is { result ≡ record { status = status; progress = progress; marks = [] } }
    ensures any_moment { IfSome (D.tells progress).bytes (λ _. LeavesOnly (D.tells progress) (D.tells result.progress) (KeepsThrough (D.tells progress) result.marks)) }
{
    Alerted {
        status,
        progress,
        marks: Many::new(alloc),
    }
}

/// How a call ended whose marks weren't read.
pub(crate) fn unopened(error: MarksError) -> Status
    ensures { result ≡ unopened error }
{
    match error {
        MarksError::NotOurs => Status::NotOurs,
        MarksError::Damaged { at } => Status::Damaged { at },
        MarksError::DiskFault => Status::DiskFault,
        MarksError::OutOfMemory => Status::OutOfMemory,
    }
}

/// Tries the notes that have no mark on a progress that was opened.
fn with_marks<D: Disk, W: Spawner, C: Clock>(
    alloc: Global,
    media: &Media,
    notes: &[Note],
    marks: Marks<D>,
    hand: &mut Hand<W, C>,
) -> Alerted<D>
    requires few { length notes.now < 2 ^ 32 }
    requires entries { All IsLimited media.now.entries }
    requires others { 1 ≤ media.now.attempts }
    requires once { AreOnce marks.list }
    requires going { marks.is_broken ≡ false }
    requires keeps { EachKeeps (D.tells marks.disk) marks.list }
    ensures works { WorksIfAny media.now notes.now (W.tells hand.old.spawner) (W.tells hand.new.spawner) marks.list result.marks }
    ensures why { EndsTries notes.now marks.list result.marks (D.tells marks.disk).faults (D.tells result.progress).faults (W.tells hand.old.spawner) (W.tells hand.new.spawner) result.status }
    ensures keeps { result.status ≢ status.DiskFault → EachKeeps (D.tells result.progress) result.marks }
    ensures later { (D.tells marks.disk).faults ≤ (D.tells result.progress).faults }
    ensures told { is_some (D.tells result.progress).bytes ≡ is_some (D.tells marks.disk).bytes }
    ensures any_moment { IfSome (D.tells marks.disk).bytes (λ _. LeavesOnly (D.tells marks.disk) (D.tells result.progress) (KeepsSome result.marks)) }
{
    let mut marks = marks;
    let status = work_all(alloc, media, notes, &mut marks, hand);
    let (progress, marks) = marks.end();
    Alerted {
        status,
        progress,
        marks,
    }
}

/// Opens a progress, and tries the notes that have no mark on it.
#[tactic(auto, using(crate::proofs::Coming::opens, crate::proofs::Crashes::moments_through, crate::proofs::Crashes::moments_opened))]
fn on_progress<D: Disk, W: Spawner, C: Clock>(
    alloc: Global,
    media: &Media,
    notes: &[Note],
    progress: D,
    hand: &mut Hand<W, C>,
) -> Alerted<D>
    requires few { length notes.now < 2 ^ 32 }
    requires entries { All IsLimited media.now.entries }
    requires others { 1 ≤ media.now.attempts }
    ensures done { Opens (WorksIfAny media.now) notes.now (D.tells progress) (D.tells result.progress) (W.tells hand.old.spawner) (W.tells hand.new.spawner) result.status result.marks
        ⊎ (IsUnopened (D.tells progress).bytes (D.tells progress).faults (D.tells result.progress).faults result.status × (result.marks ≡ []) × (hand.new ≡ hand.old)) }
    ensures told { is_some (D.tells result.progress).bytes ≡ is_some (D.tells progress).bytes }
    ensures any_moment { IfSome (D.tells progress).bytes (λ _. LeavesOnly (D.tells progress) (D.tells result.progress) (KeepsThrough (D.tells progress) result.marks)) }
{
    match Marks::recover(alloc, progress) {
        Ok(marks) => with_marks(alloc, media, notes, marks, hand),
        Err((progress, error)) => held_back(alloc, progress, unopened(error)),
    }
}

/// Runs alerts up to the printed line.
#[tactic(auto, using(crate::proofs::Crashes::moments_alone))]
fn go<S: Source, M: Source, D: Disk, W: Spawner, C: Clock>(
    alloc: Global,
    words: &[Text],
    lines: &mut S,
    media: &mut M,
    progress: D,
    hand: &mut Hand<W, C>,
) -> Alerted<D>
    ensures comes { ComesTo WorksIfAny words.now (record {
      read = record {
        lines = S.left lines.old;
        faults = S.faults lines.old;
        faults' = S.faults lines.new;
        document = M.left media.old;
        document_faults = M.faults media.old;
        document_faults' = M.faults media.new;
      };
      disk = D.tells progress;
      disk' = D.tells result.progress;
      spawner = W.tells hand.old.spawner;
      spawner' = W.tells hand.new.spawner;
    }) result.status result.marks }
    ensures told { is_some (D.tells result.progress).bytes ≡ is_some (D.tells progress).bytes }
    ensures any_moment { IfSome (D.tells progress).bytes (λ _. LeavesOnly (D.tells progress) (D.tells result.progress) (KeepsThrough (D.tells progress) result.marks)) }
    ensures unprinted { result.status ≢ status.PrintFault }
    ensures no_plan { alerts_plan_of words.now ≡ None → (lines.new ≡ lines.old) × (media.new ≡ media.old) }
{
    match read_given(alloc, words, lines, media) {
        Ok(given) => on_progress(alloc, &given.media, given.notes.as_slice(), progress, hand),
        Err(status) => held_back(alloc, progress, status),
    }
}

/// Runs a script for each message of an outbox that has no mark yet, as the words and a document of media say, and keeps
/// the marks on a disk. Last it prints one line.
///
/// The words are `--mode alerts --outbox F --progress G --command C`, with `--attempts`. The outbox and the document are
/// handed in as sources, and the progress as a disk. Each recipient's messages are tried in order, one after the other,
/// with the command, the limit of tries and the interval of its entry, or else with the words' command and limit and 10
/// seconds: each up to the first run that succeeds, or as often as the limit says; then it gets its mark. Of the messages
/// that are due the least is tried first. Where none is due, the clock is waited for up to the first one; it counts as
/// being then at that moment at least. A stop between a success and its mark lets the message be tried again.
#[tactic(auto, using(crate::proofs::Coming::comes_printed, crate::proofs::Coming::usage_of, crate::proofs::Coming::no_plan))]
pub fn run_alerts<S: Source, M: Source, D: Disk, W: Spawner, C: Clock, P: Sink>(
    alloc: Global,
    words: &[Text],
    lines: &mut S,
    media: &mut M,
    progress: D,
    hand: &mut Hand<W, C>,
    print: &mut P,
) -> Alerted<D>
    // A call is refused for the first cause that there is, in this order: the words, the outbox, the media, the progress.
    // Else each recipient's notes that had no mark were tried in order, each up to a success or to the limit, and marked as
    // it came out.
    ensures comes { ComesTo WorksIfAny words.now (record {
      read = record {
        lines = S.left lines.old;
        faults = S.faults lines.old;
        faults' = S.faults lines.new;
        document = M.left media.old;
        document_faults = M.faults media.old;
        document_faults' = M.faults media.new;
      };
      disk = D.tells progress;
      disk' = D.tells result.progress;
      spawner = W.tells hand.old.spawner;
      spawner' = W.tells hand.new.spawner;
    }) result.status result.marks }
    ensures usage { result.status ≡ status.Usage → alerts_plan_of words.now ≡ None }
    ensures no_plan { alerts_plan_of words.now ≡ None → (result.status ≡ status.Usage) ⊎ (result.status ≡ status.OutOfMemory) }
    ensures told { is_some (D.tells result.progress).bytes ≡ is_some (D.tells progress).bytes }

    // A crash at any moment left what one before the call might have, or some of its marks from the front, the one in hand
    // among them or not.
    ensures any_moment { IfSome (D.tells progress).bytes (λ _. LeavesOnly (D.tells progress) (D.tells result.progress) (KeepsThrough (D.tells progress) result.marks)) }
    ensures print { result.status ≡ status.PrintFault → Rose (P.tells print.old).faults (P.tells print.new).faults }
    ensures printed { Prints result.status result.marks (P.tells print.old) (P.tells print.new) }
{
    let done = go(alloc, words, lines, media, progress, hand);
    let status = report(alloc, done.status, done.marks.as_slice(), print);
    Alerted {
        status,
        progress: done.progress,
        marks: done.marks,
    }
}
