//! How open problems are looked up.

ghost use Rattle.std.specs.Prelude.{◌≡◌, List, ℕ};
ghost use Rattle.trigger_state.specs.declared.problems.Open.{Open};

use crate::problems::Open;

/// What knows the open problems of triggers, as the cells of a run or a draft over them.
pub trait Opens {
    /// The open problems of each trigger, by its id, in the order of making.
    ghost problems: { Self → ℕ → List Open };

    /// The open problems of the trigger with this id, in the order of making. None for an id of no trigger.
    fn open(&self, trigger: u32) -> &[Open]
        ensures { result.now ≡ problems self.now trigger };
}
