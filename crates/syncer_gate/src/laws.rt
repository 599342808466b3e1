//! Laws of the core: what holds whatever is offered, claimed, applied and given back.

ghost use Rattle.syncer_gate.specs.Core.{EachStep, EverySchedule};

/// No list of steps breaks the order: no entry of an open batch conflicts with an earlier one that is neither applied nor
/// in the same batch, and no applied entry conflicts with an earlier one that isn't applied.
pub fn every_schedule()
    ensures { EverySchedule }
{}

/// What no list of steps breaks is kept by each step: that no entry has gone past an earlier one that it conflicts with, and
/// that only entries of the log have been claimed.
pub fn each_step()
    ensures { EachStep }
{}
