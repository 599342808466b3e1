//! Laws of the work of several syncers: what cells and kept records are, whatever is offered, claimed, applied and
//! given back. The functions do nothing: each stands for its clause.

ghost use Rattle.book.specs.Schedule.{AtFrontier, EveryScheduleFacts};

/// No list of steps breaks what holds, where each entry that is offered is behind what stood before: no entry has gone
/// past an earlier one that it conflicts with, the cells stand for the applied entries, and the records kept of each
/// applied entry are those of its place in one thread's replay.
pub fn every_schedule_holds()
    ensures { EveryScheduleFacts }
{}

/// Where all entries up to a place in the log are applied, the records kept of them, in the order of their numbers,
/// are the replay of the log up to it.
pub fn at_frontier()
    ensures { AtFrontier }
{}
