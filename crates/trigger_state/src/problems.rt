//! Open problems.

ghost use Rattle.std.specs.Prelude.{◌≡◌, ◌↔◌, IfOk, IsTrue};
ghost use Rattle.zbx_types.specs.Records.{same_event};
ghost use Rattle.trigger_state.specs.Problems.{event_in};

use std::alloc::Global;
use zbx_types::{EventId, Many, OutOfMemory, Rec, copy_records, same_record, same_records};

/// An open problem (this project's own).
#[derive(Drop)]
pub struct Open {
    /// Its Problem record.
    pub problem: Rec,
    /// The last Step record of each action that ran a step for it, in the order of the bytes of the actions' names. An
    /// action goes by name.
    pub steps: Many<Rec>,
    /// The rank of its event: the depth of its trigger when it opened. With the number and the trigger of its event, the
    /// rank says where the problem stands in the order of making.
    pub rank: u32,
}

impl Open {
    /// A copy. [`OutOfMemory`] where there is no room for it.
    pub fn copy(&self, alloc: Global) -> Result<Open, OutOfMemory>
        ensures { IfOk result (λ made. made ≡ self.now) }
    {
        let steps = copy_records(alloc, self.steps.as_slice())?;
        Ok(Open {
            problem: self.problem.copy(alloc)?,
            steps,
            rank: self.rank,
        })
    }

    /// Whether two open problems are equal: their records, their steps and their ranks.
    pub fn is_same(&self, other: &Open) -> bool
        ensures { IsTrue result ↔ (self.now ≡ other.now) }
    {
        self.rank == other.rank
            && same_record(&self.problem, &other.problem)
            && same_records(self.steps.as_slice(), other.steps.as_slice())
    }
}

/// Whether two events are the same.
pub(crate) fn same_event(one: EventId, other: EventId) -> bool
    ensures { result ≡ same_event one other }
{
    one.number == other.number && one.trigger == other.trigger
}

/// Whether an open problem has an event.
pub(crate) fn is_of(one: &Open, event: EventId) -> bool
    ensures { result ≡ same_event (event_in one.now) event }
{
    same_event(one.problem.event(), event)
}
