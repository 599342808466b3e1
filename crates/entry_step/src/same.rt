//! Whether copies of what is kept are the same as what is kept.

ghost use Rattle.std.specs.Prelude.{◌≡◌, ◌↔◌, IsTrue};

use prep_steps::StepMemory;
use trigger_state::Open;

/// Whether two steps remember the same.
fn same_memory(one: &StepMemory, other: &StepMemory) -> bool
    ensures { IsTrue result ↔ (one.now ≡ other.now) }
{
    one.there == other.there && one.time == other.time && one.value == other.value
}

/// Whether the steps of two items remember the same.
pub(crate) fn same_memories(ones: &[StepMemory], others: &[StepMemory]) -> bool
    ensures { IsTrue result ↔ (ones.now ≡ others.now) }
{
    if ones.len() != others.len() {
        return false;
    }
    for index in 0..ones.len() {
        if !same_memory(&ones[index], &others[index]) {
            return false;
        }
    }
    true
}

/// Whether two triggers have the same open problems.
pub(crate) fn same_opens(ones: &[Open], others: &[Open]) -> bool
    ensures { IsTrue result ↔ (ones.now ≡ others.now) }
{
    if ones.len() != others.len() {
        return false;
    }
    for index in 0..ones.len() {
        if !ones[index].is_same(&others[index]) {
            return false;
        }
    }
    true
}
