//! What the cells hold behind a log of values. The functions do nothing: each stands for its clause.

ghost use Rattle.preprocess.specs.Laws.{HoldNothing, HoldOneMore};
ghost use Rattle.preprocess.specs.Standing.{CarriedStand, CarriedRemember};

/// New cells hold the log without values.
pub fn hold_nothing()
    ensures { HoldNothing }
{}

/// Cells that hold what a search of a log finds of each item, hold it of the log with one more value, once that is put
/// in place: what its steps remember, and what is to be kept of all values that it stored.
pub fn hold_one_more()
    ensures { HoldOneMore }
{}

/// Cells that stand for histories, each from a moment on, stand behind a configuration that follows for what goes on of
/// them, from its moment on, whatever the new one asks for.
pub fn carried_stand()
    ensures { CarriedStand }
{}

/// The steps of the items then remember what goes on of what the old ones do.
pub fn carried_remember()
    ensures { CarriedRemember }
{}
