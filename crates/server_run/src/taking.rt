//! Events are taken from the wire, committed together, and answered.

ghost use Rattle.std.specs.Prelude.{◌≡◌, ◌≢◌, ◌≤◌, ◌<◌, ℕ, None, Some, IfOk, OnErr};
ghost use Rattle.outside.specs.Events.{HasNextCause};
ghost use Rattle.outside.specs.Tells.{WireTells};
ghost use Rattle.intake_journal.specs.declared.state.State.TheVariants as state;
ghost use Rattle.intake_front.specs.Fronted.{Fronted, IsReady, limits_of};
ghost use Rattle.intake_front.specs.Batch.{IsIdle};
ghost use Rattle.intake_front.specs.declared.answer.Stop.TheVariants as stop;
ghost use Rattle.server_run.specs.Events.{Gathered, GatheredBy, GatheredMore, Took};
ghost use Rattle.server_run.specs.Statuses.{anywhere};
ghost use Rattle.journal_opening.specs.Journals.{Journals};

use crate::delivery::deliver_all;
use intake_front::{Collection, Front, Stop};
use outside::{Disk, Trouble, Wire};
use std::alloc::Global;
use zbx_types::OutOfMemory;

/// How it went with events that were committed together: how many they were, why no event follows the last of them,
/// where one doesn't, and whether the wire failed or memory was refused behind them.
#[derive(Drop)]
pub(crate) struct Batch {
    pub count: u64,
    pub stop: Option<Stop>,
    pub gathered: Result<(), Trouble>,
}

/// Takes the next event, which waits for a commit. Answers whether that event stops the run.
///
/// # Errors
///
/// `Failed` where the wire gave no event. `OutOfMemory` where memory was refused. What waited before still does.
fn take_one<W: Wire, D: Disk>(
    alloc: Global,
    collection: &mut Collection<'_>,
    wire: &mut W,
    front: &mut Front<D>,
) -> Result<Option<Stop>, Trouble>
    requires going { front.old.journal.state ≡ state.Ready }
    ensures cause { HasNextCause (W.tells wire.old).faults (W.tells wire.new).faults result }
    ensures same { collection.new ≡ collection.old }
    ensures gathered { (begun : Fronted D) (before : WireTells) (count : ℕ)
        → Gathered collection.old begun front.old before (W.tells wire.old) count None None anywhere
        → GatheredMore collection.old begun front.new before (W.tells wire.new) count result }
{
    let event = wire.next(alloc)?;
    match front.take(alloc, collection, &event) {
        Ok(stop) => Ok(stop),
        Err(OutOfMemory) => Err(Trouble::OutOfMemory),
    }
}

/// Takes events that wait for one commit, at most so many: one, and more while the last one doesn't stop the run,
/// another stands ready, and the commit can wait. Answers how many, and whether the wire failed or memory was refused
/// behind them.
fn gather<W: Wire, D: Disk>(
    alloc: Global,
    most: u64,
    collection: &mut Collection<'_>,
    wire: &mut W,
    front: &mut Front<D>,
) -> (u64, Result<(), Trouble>)
    requires going { front.old.journal.state ≡ state.Ready }
    requires idle { IsIdle front.old }
    ensures cause { HasNextCause (W.tells wire.old).faults (W.tells wire.new).faults result.1 }
    ensures same { collection.new ≡ collection.old }
    ensures gathered { GatheredBy collection.old front.old front.new (W.tells wire.old) (W.tells wire.new) result.0
        result.1 }
    ensures few { result.0 ≤ most }
    ensures fewer { OnErr result.1 (result.0 < most) }
    ensures some { IfOk result.1 (λ _. 0 < most → 0 < result.0) }
{
    for count in 0..most {
        match take_one(alloc, collection, wire, front) {
            Ok(None) => {
                if !(wire.ready() && front.goes_on()) {
                    return (count + 1, Ok(()));
                }
            }
            Ok(Some(_)) => return (count + 1, Ok(())),
            Err(trouble) => return (count, Err(trouble)),
        }
    }
    (most, Ok(()))
}

/// Takes events, at most so many, commits them together, and then sends their replies and closes their connections, in
/// the order of the events.
pub(crate) fn take_batch<W: Wire, D: Disk>(
    alloc: Global,
    most: u64,
    collection: &mut Collection<'_>,
    wire: &mut W,
    front: &mut Front<D>,
) -> Batch
    requires going { front.old.journal.state ≡ state.Ready }
    requires idle { IsIdle front.old }
    ensures cause { HasNextCause (W.tells wire.old).faults (W.tells wire.new).faults result.gathered }
    ensures same { collection.new ≡ collection.old }
    ensures took { Took (limits_of front.old.journal 0) collection.old front.old.intake front.new.intake
        (Journals (λ c. ⊥) (D.tells front.old.journal.disk) (D.tells front.new.journal.disk) front.old.journal.base)
        (W.tells wire.old) (W.tells wire.new) most result.count result.stop result.gathered }
    ensures base { front.new.journal.base ≡ front.old.journal.base }
    ensures idle { IsIdle front.new }
    ensures state { result.stop ≢ Some stop.DiskFault → IsReady front.old.journal front.new.journal }
{
    let (count, gathered) = gather(alloc, most, collection, wire, front);
    let answers = front.commit(alloc);
    let stop = deliver_all(wire, answers.as_slice());
    Batch {
        count,
        stop,
        gathered,
    }
}
