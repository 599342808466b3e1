//! What a step remembers.

ghost use Rattle.std.specs.Prelude.{◌≡◌, IfOk};
ghost use Rattle.prep_steps.specs.Outcomes.{unmarked, marked};

use std::alloc::Global;
use zbx_types::{Moment, OutOfMemory, Text};

/// What a step remembers between the values of one item: the last value that marked it. Steps that remember nothing leave
/// it as it is.
///
/// A change step is marked by each number that it takes into account, with its written form; a throttling step by each
/// value that passes it.
#[derive(Debug, Drop)]
pub struct StepMemory {
    /// Whether a value has marked the step.
    pub there: bool,
    /// The time of that value.
    pub time: Moment,
    /// That value, or the written form of that number.
    pub value: Text,
}

impl StepMemory {
    /// The memory of a step that no value has marked: no value, moment 0 and the empty text. Takes no memory.
    pub fn new(alloc: Global) -> StepMemory
        ensures { result ≡ unmarked }
    {
        StepMemory {
            there: false,
            time: Moment::zero(),
            value: Text::new(alloc),
        }
    }

    /// The memory of a value that marked a step.
    pub(crate) fn marked(time: Moment, value: Text) -> StepMemory
        ensures { result ≡ marked time value }
    {
        StepMemory {
            there: true,
            time,
            value,
        }
    }

    /// A copy. [`OutOfMemory`] where there is no room for it.
    pub fn copy(&self, alloc: Global) -> Result<StepMemory, OutOfMemory>
        ensures { IfOk result (λ made. made ≡ self.now) }
    {
        Ok(StepMemory {
            there: self.there,
            time: self.time,
            value: self.value.copy(alloc)?,
        })
    }
}
