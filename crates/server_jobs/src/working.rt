//! Notes are tried one after the other, and get their marks.

ghost use Rattle.std.specs.Prelude.{◌≡◌, ◌≢◌, ◌≤◌, ◌<◌, ◌^◌, Err, All, false, true, length, is_some, IfSome, OnOk, OnErr};
ghost use Rattle.outside.specs.Causes.{Rose};
ghost use Rattle.outside.specs.Disk.{LeavesOnly};
ghost use Rattle.alert_marks.specs.Marks.{EachKeeps, AreOnce, has_mark};
ghost use Rattle.alert_marks.specs.declared.types.AddError.TheVariants as error;
ghost use Rattle.alert_media.specs.Media.{IsLimited};
ghost use Rattle.alert_queue.specs.Law.{AreFresh};
ghost use Rattle.server_words.specs.declared.status.Status.TheVariants as status;
ghost use Rattle.server_jobs.specs.Turning.{IsMarkedSo, with_mark};
ghost use Rattle.server_jobs.specs.Numbering.{AreWithin};
ghost use Rattle.server_jobs.specs.Working.{WorksIfAny, Worked, AreMarked, KeepsFront, KeepsSome, EndsTries};

use crate::queueing::{ahead_of, queue_of};
use crate::recipients::number;
use crate::trying::{next, try_note};
use alert_marks::{AddError, Marks};
use alert_media::Media;
use alert_queue::{Mark, NoteMark, Queue};
use alert_run::Note;
use alert_sessions::Hand;
use outside::{Clock, Disk, Spawner};
use server_words::Status;
use std::alloc::Global;

/// Adds a note's mark, where it has one now.
#[tactic(auto, using(crate::proofs::Crashes::moments_none, crate::proofs::Crashes::moments_some, crate::proofs::Crashes::with_front_all, crate::proofs::Crashes::with_some_all))]
fn add_mark<D: Disk>(marks: &mut Marks<D>, number: u32, mark: Option<Mark>) -> Result<(), AddError>
    requires some { 1 ≤ number }
    requires free { has_mark marks.old.list number ≡ false }
    requires going { marks.old.is_broken ≡ false }
    requires keeps { EachKeeps (D.tells marks.old.disk) marks.old.list }
    ensures list { marks.new.list ≡ with_mark marks.old.list number mark result }
    ensures refused { OnErr result (is_some mark ≡ true) }
    ensures durable { OnOk result (EachKeeps (D.tells marks.new.disk) marks.new.list) }
    ensures same { result ≡ Err error.OutOfMemory → marks.new ≡ marks.old }
    ensures going { OnOk result (marks.new.is_broken ≡ false) }
    ensures fault { result ≡ Err error.DiskFault → Rose (D.tells marks.old.disk).faults (D.tells marks.new.disk).faults }
    ensures later { (D.tells marks.old.disk).faults ≤ (D.tells marks.new.disk).faults }
    ensures told { is_some (D.tells marks.new.disk).bytes ≡ is_some (D.tells marks.old.disk).bytes }
    ensures ok_moment { OnOk result (IfSome (D.tells marks.old.disk).bytes (λ _. LeavesOnly (D.tells marks.old.disk) (D.tells marks.new.disk) (KeepsFront marks.new.list))) }
    ensures any_moment { IfSome (D.tells marks.old.disk).bytes (λ _. LeavesOnly (D.tells marks.old.disk) (D.tells marks.new.disk) (KeepsSome marks.old.list)) }
{
    match mark {
        Some(mark) => marks.add(NoteMark { note: number, mark }),
        None => Ok(()),
    }
}

/// Tries the notes of a queue, and adds their marks.
#[tactic(auto, using(crate::proofs::Going::going_none, crate::proofs::Going::worked_so, crate::proofs::Crashes::moments_some))]
fn work<D: Disk, W: Spawner, C: Clock>(
    alloc: Global,
    media: &Media,
    notes: &[Note],
    queue: &mut Queue,
    marks: &mut Marks<D>,
    hand: &mut Hand<W, C>,
) -> Result<(), AddError>
    requires fresh { AreFresh queue.old }
    requires known { IsMarkedSo queue.old marks.old.list }
    requires count { length queue.old.homes ≡ length notes.now }
    requires going { marks.old.is_broken ≡ false }
    requires keeps { EachKeeps (D.tells marks.old.disk) marks.old.list }
    ensures works { Worked media.now notes.now queue.old (W.tells hand.old.spawner) (W.tells hand.new.spawner) marks.old.list marks.new.list }
    ensures all { OnOk result (AreMarked (length notes.now) marks.new.list) }
    ensures keeps { result ≢ Err error.DiskFault → EachKeeps (D.tells marks.new.disk) marks.new.list }
    ensures fault { result ≡ Err error.DiskFault → Rose (D.tells marks.old.disk).faults (D.tells marks.new.disk).faults }
    ensures later { (D.tells marks.old.disk).faults ≤ (D.tells marks.new.disk).faults }
    ensures told { is_some (D.tells marks.new.disk).bytes ≡ is_some (D.tells marks.old.disk).bytes }
    ensures any_moment { IfSome (D.tells marks.old.disk).bytes (λ _. LeavesOnly (D.tells marks.old.disk) (D.tells marks.new.disk) (KeepsSome marks.new.list)) }
{
    while let Some(number) = next(queue, &mut hand.clock) {
        let note = &notes[number as usize - 1];
        let Ok(mark) = try_note(alloc, media, note, number, queue, hand) else {
            return Err(AddError::OutOfMemory);
        };
        add_mark(marks, number, mark)?;
    }
    Ok(())
}

/// Tries the notes of a queue, and answers how that ended.
fn work_on<D: Disk, W: Spawner, C: Clock>(
    alloc: Global,
    media: &Media,
    notes: &[Note],
    queue: &mut Queue,
    marks: &mut Marks<D>,
    hand: &mut Hand<W, C>,
) -> Status
    requires fresh { AreFresh queue.old }
    requires known { IsMarkedSo queue.old marks.old.list }
    requires count { length queue.old.homes ≡ length notes.now }
    requires going { marks.old.is_broken ≡ false }
    requires keeps { EachKeeps (D.tells marks.old.disk) marks.old.list }
    ensures works { Worked media.now notes.now queue.old (W.tells hand.old.spawner) (W.tells hand.new.spawner) marks.old.list marks.new.list }
    ensures why { EndsTries notes.now marks.old.list marks.new.list (D.tells marks.old.disk).faults (D.tells marks.new.disk).faults (W.tells hand.old.spawner) (W.tells hand.new.spawner) result }
    ensures keeps { result ≢ status.DiskFault → EachKeeps (D.tells marks.new.disk) marks.new.list }
    ensures later { (D.tells marks.old.disk).faults ≤ (D.tells marks.new.disk).faults }
    ensures told { is_some (D.tells marks.new.disk).bytes ≡ is_some (D.tells marks.old.disk).bytes }
    ensures any_moment { IfSome (D.tells marks.old.disk).bytes (λ _. LeavesOnly (D.tells marks.old.disk) (D.tells marks.new.disk) (KeepsSome marks.new.list)) }
{
    match work(alloc, media, notes, queue, marks, hand) {
        Ok(()) => Status::Ok,
        Err(AddError::DiskFault) => Status::DiskFault,
        Err(AddError::OutOfMemory) => Status::OutOfMemory,
    }
}

/// Tries the notes that have no mark, where no mark is of a note that isn't there.
#[tactic(auto, using(crate::proofs::Beginning::known_new, crate::proofs::Beginning::works_of, crate::proofs::Beginning::homes_count, crate::proofs::Crashes::moments_none, crate::proofs::Crashes::moments_some))]
fn work_within<D: Disk, W: Spawner, C: Clock>(
    alloc: Global,
    media: &Media,
    notes: &[Note],
    marks: &mut Marks<D>,
    hand: &mut Hand<W, C>,
) -> Status
    requires few { length notes.now < 2 ^ 32 }
    requires entries { All IsLimited media.now.entries }
    requires others { 1 ≤ media.now.attempts }
    requires once { AreOnce marks.old.list }
    requires within { AreWithin (length notes.now) marks.old.list }
    requires going { marks.old.is_broken ≡ false }
    requires keeps { EachKeeps (D.tells marks.old.disk) marks.old.list }
    ensures works { WorksIfAny media.now notes.now (W.tells hand.old.spawner) (W.tells hand.new.spawner) marks.old.list marks.new.list }
    ensures why { EndsTries notes.now marks.old.list marks.new.list (D.tells marks.old.disk).faults (D.tells marks.new.disk).faults (W.tells hand.old.spawner) (W.tells hand.new.spawner) result }
    ensures keeps { result ≢ status.DiskFault → EachKeeps (D.tells marks.new.disk) marks.new.list }
    ensures later { (D.tells marks.old.disk).faults ≤ (D.tells marks.new.disk).faults }
    ensures told { is_some (D.tells marks.new.disk).bytes ≡ is_some (D.tells marks.old.disk).bytes }
    ensures any_moment { IfSome (D.tells marks.old.disk).bytes (λ _. LeavesOnly (D.tells marks.old.disk) (D.tells marks.new.disk) (KeepsSome marks.new.list)) }
{
    let Ok(numbered) = number(alloc, media, notes) else {
        return Status::OutOfMemory;
    };
    let Ok(mut queue) = queue_of(alloc, media, notes, &numbered, marks.list()) else {
        return Status::OutOfMemory;
    };
    work_on(alloc, media, notes, &mut queue, marks, hand)
}

/// Tries the notes that have no mark, where there are no more marks than notes, and answers how that ended.
#[tactic(auto, using(crate::proofs::Starting::within_ahead, crate::proofs::Crashes::moments_none, crate::proofs::Crashes::moments_some))]
pub(crate) fn work_all<D: Disk, W: Spawner, C: Clock>(
    alloc: Global,
    media: &Media,
    notes: &[Note],
    marks: &mut Marks<D>,
    hand: &mut Hand<W, C>,
) -> Status
    requires few { length notes.now < 2 ^ 32 }
    requires entries { All IsLimited media.now.entries }
    requires others { 1 ≤ media.now.attempts }
    requires once { AreOnce marks.old.list }
    requires going { marks.old.is_broken ≡ false }
    requires keeps { EachKeeps (D.tells marks.old.disk) marks.old.list }
    ensures works { WorksIfAny media.now notes.now (W.tells hand.old.spawner) (W.tells hand.new.spawner) marks.old.list marks.new.list }
    ensures why { EndsTries notes.now marks.old.list marks.new.list (D.tells marks.old.disk).faults (D.tells marks.new.disk).faults (W.tells hand.old.spawner) (W.tells hand.new.spawner) result }
    ensures keeps { result ≢ status.DiskFault → EachKeeps (D.tells marks.new.disk) marks.new.list }
    ensures later { (D.tells marks.old.disk).faults ≤ (D.tells marks.new.disk).faults }
    ensures told { is_some (D.tells marks.new.disk).bytes ≡ is_some (D.tells marks.old.disk).bytes }
    ensures any_moment { IfSome (D.tells marks.old.disk).bytes (λ _. LeavesOnly (D.tells marks.old.disk) (D.tells marks.new.disk) (KeepsSome marks.new.list)) }
{
    match ahead_of(marks.list(), notes.len()) {
        Some(ahead) => Status::MarksAhead {
            marks: ahead,
            messages: notes.len() as u64,
        },
        None => work_within(alloc, media, notes, marks, hand),
    }
}
