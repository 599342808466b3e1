//! The laws of order, over the definitions of what entries make. The functions do nothing: each stands for its clause.

ghost use Rattle.entry_step.specs.Laws.{ConflictIsMeeting, FreshIsGood, EntriesOwn, AreTidyCells, Locality, Insertion, BatchOnACopy, AppliedPart};
ghost use Rattle.entry_step.specs.Making.{MakingIsOrder};
ghost use Rattle.entry_step.specs.Behind.{ReplayBehind, BehindIsGood, HoldsBehind, SuitsBehind};
ghost use Rattle.entry_step.specs.Named.{OpenByNames};
ghost use Rattle.entry_step.specs.NamedInside.{OpenInside};
ghost use Rattle.entry_laws.specs.Previous.{PreviousIs, FreshHasMarks};
ghost use Rattle.entry_laws.specs.Rising.{StepsRise, FreshHasSteps};

/// The crate `footprint` tells two entries to conflict exactly where some cell is in both feet.
pub fn conflict_is_meeting()
    ensures { ConflictIsMeeting }
{}

/// A fresh start is good, where no event is of another configuration: nothing stood before it.
pub fn fresh_is_good()
    ensures { FreshIsGood }
{}

/// Behind a good start the triggers of an entry's events have the ids in them: events of other configurations are of earlier
/// entries.
pub fn entries_own()
    ensures { EntriesOwn }
{}

/// Cells that stand for a log behind a good start hold each open problem in the cell of its own trigger, and nothing of
/// an item that isn't there.
pub fn are_tidy()
    ensures { AreTidyCells }
{}

/// Locality: the records and changes of an entry whose events are its own are a function of the entry, the configuration,
/// the first Tick and the cells of its foot, and it changes nothing else.
pub fn locality()
    ensures { Locality }
{}

/// Insertion: behind a good start, an entry that conflicts with no later one joins in its place. Each later entry makes
/// the same records with it and without; over cells that stand for the log without it, it makes the records and changes
/// of its place, and behind it they stand for the log with it.
pub fn insertion()
    ensures { Insertion }
{}

/// A batch whose events are its own and that is evaluated on a copy of the cells of its feet makes the same records, and the copy put back is what
/// the batch leaves.
pub fn batch_on_a_copy()
    ensures { BatchOnACopy }
{}

/// Over cells that stand for the applied part of a log behind a good start, an entry that conflicts with no older one
/// that isn't applied makes the records that it makes over the whole log.
pub fn applied_part()
    ensures { AppliedPart }
{}

/// On the replay of a log whose numbers rise, under a configuration whose triggers have different names, the open
/// problems of a trigger are the Problem records with its host's name and its own that no Recovery names at all.
pub fn open_by_names()
    ensures { OpenByNames }
{}

/// The order of making is the order of the records: behind a log whose numbers rise, and inside its next entry at each of
/// the triggers that it evaluates, and behind the last.
pub fn making_is_order()
    ensures { MakingIsOrder }
{}

/// What a log leaves is the start of the entries behind it: over that they make what they make behind the log.
pub fn replay_behind()
    ensures { ReplayBehind }
{}

/// Behind a good start, what a log leaves is a good start.
pub fn behind_is_good()
    ensures { BehindIsGood }
{}

/// Cells that hold a log hold, over what the log leaves, an empty one.
pub fn holds_behind()
    ensures { HoldsBehind }
{}

/// Entries that suit a start behind a log suit what that log leaves.
pub fn suits_behind()
    ensures { SuitsBehind }
{}

/// Steps of an action rise: in each log whose numbers rise, behind a start whose records have steps so and under actions
/// with different names, a step has the number behind the greatest one of its event and action in all records before it.
/// Of each open problem what is kept of its steps is, of each action, the last one of all records.
pub fn steps_rise()
    ensures { StepsRise }
{}

/// Nothing is recorded before a fresh start, so its records have steps so.
pub fn fresh_has_steps()
    ensures { FreshHasSteps }
{}

/// What a step remembers behind a log is what the last value that marked it left there, as a search of the log finds it.
pub fn previous_is()
    ensures { PreviousIs }
{}

/// A fresh start has a mark for each step of each item, as that search asks for.
pub fn fresh_has_marks()
    ensures { FreshHasMarks }
{}

/// Open problems by the names of their trigger also inside an entry, at each of the triggers that it evaluates and behind
/// the last: the Problem records with the names of its host and its own that no Recovery among those made so far names.
pub fn open_inside()
    ensures { OpenInside }
{}
