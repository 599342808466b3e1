//! Events are taken, some at a time, up to the one that ends the run.

ghost use Rattle.std.specs.Prelude.{◌≡◌, ◌≤◌, IsErrOf, IfErr, OnOk};
ghost use Rattle.outside.specs.Causes.{Rose};
ghost use Rattle.intake_front.specs.Fronted.{IsReady, limits_of};
ghost use Rattle.intake_front.specs.Batch.{IsIdle};
ghost use Rattle.server_run.specs.Events.{TookOrEnded};
ghost use Rattle.server_run.specs.Going.{IsServing, HasServed, IsGoing, IsSentBy, IsCause};
ghost use Rattle.server_run.specs.Statuses.{status_of, behind_disk, ended_with};
ghost use Rattle.journal_opening.specs.Journals.{Journals};

use crate::handing::{Worker, send_after};
use crate::shared::Prepared;
use crate::taking::{Batch, take_batch};
use book::{RingHead, RunName};
use book_opening::StartName;
use intake_front::{Collection, Front, Stop};
use outside::{Disk, Trouble, Wire};
use server_words::Status;
use std::alloc::Global;
use zbx_types::OutOfMemory;

/// How far the taking of events has come.
#[derive(Drop)]
pub(crate) enum Taken {
    /// It ended, and the run ends with this status.
    Ended(Status),
    /// So many events were taken, and none of them ended the run.
    Going(u64),
}

/// What a run ends with whose last event stopped it so.
fn status_of(stop: Stop) -> Status
    ensures { result ≡ status_of stop }
{
    match stop {
        Stop::Closed => Status::Ok,
        Stop::DiskFault => Status::DiskFault,
        Stop::Full { entries, bytes } => Status::Full { entries, bytes },
    }
}

/// What a run ends with whose wire failed behind events that stopped so.
fn wire_status(stop: Option<Stop>) -> Status
    ensures { result ≡ behind_disk stop Status.WireFault }
{
    match stop {
        Some(Stop::DiskFault) => Status::DiskFault,
        None | Some(Stop::Closed | Stop::Full { .. }) => Status::WireFault,
    }
}

/// What a run ends with behind events that were committed together, where it does.
fn ended_with(
    stop: Option<Stop>,
    gathered: Result<(), Trouble>,
    sent: Result<(), OutOfMemory>,
) -> Option<Status>
    ensures { result ≡ ended_with stop gathered sent }
{
    match (gathered, sent) {
        (Err(Trouble::OutOfMemory), _) | (_, Err(OutOfMemory)) => Some(Status::OutOfMemory),
        (Err(Trouble::Failed), Ok(())) => Some(wire_status(stop)),
        (Ok(()), Ok(())) => match stop {
            Some(stop) => Some(status_of(stop)),
            None => None,
        },
    }
}

/// Takes events, at most so many, commits them together, answers them, and sends their entries. Answers how many they
/// were, or the status with which the run ends.
fn serve_batch<S: StartName, N: RunName, W: Wire, D: Disk, K: Worker<S, N>>(
    alloc: Global,
    most: u64,
    collection: &mut Collection<'_>,
    wire: &mut W,
    front: &mut Front<D>,
    head: &mut RingHead<S, N>,
    worker: &mut K,
) -> Result<u64, Status>
    requires conf { collection.old ≡ S.start.stage.conf }
    requires serving { IsServing S.flat S.base S.start.stage.conf S.kept front.old head.old }
    ensures wire_later { (W.tells wire.old).faults ≤ (W.tells wire.new).faults }
    ensures wire { IsErrOf result Status.WireFault → Rose (W.tells wire.old).faults (W.tells wire.new).faults }
    ensures cause { IfErr result IsCause }
    ensures took { TookOrEnded (limits_of front.old.journal 0) S.start.stage.conf front.old.intake front.new.intake
        (Journals (λ c. ⊥) (D.tells front.old.journal.disk) (D.tells front.new.journal.disk) front.old.journal.base)
        (W.tells wire.old) (W.tells wire.new) most result }
    ensures sent { IsSentBy S.kept head.new.sent front.new.intake.entries result }
    ensures serving { OnOk result (IsServing S.flat S.base S.start.stage.conf S.kept front.new head.new) }
    ensures ready { OnOk result (IsReady front.old.journal front.new.journal) }
    ensures same { collection.new ≡ collection.old }
    ensures idle { IsIdle front.new }
{
    let from = front.entries().len();
    let Batch {
        count,
        stop,
        gathered,
    } = take_batch(alloc, most, collection, wire, front);
    let sent = send_after(alloc, front, from, head, worker);
    match ended_with(stop, gathered, sent) {
        None => Ok(count),
        Some(status) => Err(status),
    }
}

/// The most events that are committed together.
const MOST_TOGETHER: u64 = 128;

/// Takes events until one ends the run, at most `turns`, or the worker can't go on, and answers how far that came.
/// The worker proceeds before each of them that are committed together.
pub(crate) fn serve<S: StartName, N: RunName, W: Wire, D: Disk, K: Worker<S, N>>(
    alloc: Global,
    turns: u64,
    prepared: &Prepared<S>,
    wire: &mut W,
    front: &mut Front<D>,
    head: &mut RingHead<S, N>,
    worker: &mut K,
) -> Taken
    requires { IsServing S.flat S.base S.start.stage.conf S.kept front.old head.old }
    ensures served { HasServed D.tells S.flat S.base S.start.stage.conf S.kept front.old front.new
        (W.tells wire.old) (W.tells wire.new) head.new turns result }
    ensures stops { IsGoing result → K.stops worker.new }
{
    let mut collection = Collection::new(prepared.ready());
    let mut taken = 0;
    while taken < turns {
        match worker.proceed(alloc, prepared.ready(), head) {
            Ok(true) => {}
            Ok(false) => return Taken::Going(taken),
            Err(OutOfMemory) => return Taken::Ended(Status::OutOfMemory),
        }
        let most = (turns - taken).min(MOST_TOGETHER);
        match serve_batch(alloc, most, &mut collection, wire, front, head, worker) {
            Ok(count) => taken += count,
            Err(status) => return Taken::Ended(status),
        }
    }
    Taken::Ended(Status::TurnLimit)
}
