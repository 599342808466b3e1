//! The laws of whole logs, whose configuration changes at each Config. The functions do nothing: each stands for its
//! clause.

ghost use Rattle.entry_step.specs.Following.{KeepsOn};
ghost use Rattle.entry_laws.specs.FirstConfig.{FirstConfig};
ghost use Rattle.entry_laws.specs.InForce.{ConfIsBehind, ReplayOn, GoodBehind, HoldsBehindAll, NothingIsGround, PlainFits, FirstHeld, GroundHeld};
ghost use Rattle.entry_laws.specs.Remembered.{PreviousInWhole};
ghost use Rattle.entry_step.specs.Whole.{AnyEntry, StaysTold, AllTold, FreshFits, GoneByNames};

/// Any entry of a whole log whose numbers rise, where no configuration has two triggers of the same names: over the cells
/// that stand for the log before it, a Value or Tick by what entries make, and a Config by what is removed and what is
/// carried over, gives the records that it adds, and then the cells stand for the log with it.
pub fn any_entry()
    ensures { AnyEntry }
{}

/// Behind each such log every open problem stands at a trigger of the configuration in force that has the names of its
/// host and its trigger and, in order, those of its tags.
pub fn stays_told()
    ensures { StaysTold }
{}

/// All records up to an entry are those of the start and those that the entries made.
pub fn all_told()
    ensures { AllTold }
{}

/// On a fresh start a whole log can stand, where no two triggers of its configuration have the same names.
pub fn fresh_fits()
    ensures { FreshFits }
{}

/// Where no two triggers of a configuration have the same names, an open problem is gone exactly where no trigger there
/// has the names of its host and its trigger and, in order, those of its tags.
pub fn gone_by_names()
    ensures { GoneByNames }
{}

/// What is kept of the items, and stands for their histories and for what their steps remember, stands behind a Config for
/// what goes on of both, from its moment on, whatever the new configuration asks for.
pub fn keeps_on()
    ensures { KeepsOn }
{}

/// The first Config of a log, over nothing, carries nothing over: what stands behind it is what stands behind it in a log
/// of one configuration.
pub fn first_config()
    ensures { FirstConfig }
{}

/// In a whole log, where no configuration has two items of one host and key, what a step remembers is what a search finds:
/// what the last entry left there from which the step is carried and that marked it. A step of an item is carried from an
/// entry where the configuration in force there and each later one have an item with the name of its host, its key, its
/// value type and its steps up to that one.
pub fn previous_in_whole()
    ensures { PreviousInWhole }
{}

/// The configuration in force at the end of a whole log is that of its last Config.
pub fn conf_is_behind()
    ensures { ConfIsBehind }
{}

/// Values and Ticks behind a whole log make what they make on what the log leaves.
pub fn replay_on()
    ensures { ReplayOn }
{}

/// What a whole log leaves whose numbers rise is good, where no configuration has two triggers of the same names.
pub fn good_behind()
    ensures { GoodBehind }
{}

/// What stands for a whole log that fits holds nothing yet behind what the log leaves.
pub fn holds_behind_all()
    ensures { HoldsBehindAll }
{}

/// Values and Ticks behind at least one entry fit exactly where the entries before them fit and they suit what those leave.
pub fn plain_fits()
    ensures { PlainFits }
{}

/// What holds a fresh start stands for the log of one Config of moment 0.
pub fn first_held()
    ensures { FirstHeld }
{}

/// Nothing is a start on which a whole log can stand.
pub fn nothing_is_ground()
    ensures { NothingIsGround }
{}

/// What holds a start stands for a log of no entries on it.
pub fn ground_held()
    ensures { GroundHeld }
{}
