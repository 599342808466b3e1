//! Escalation steps that run for open problems.

ghost use Rattle.std.specs.Prelude.{◌≡◌, ◌<◌, ◌++◌, ◌∷◌, [], map, length, IfSome, IfOk, OnOk, OnErr};
ghost use Rattle.std.specs.List.{position_from};
ghost use Rattle.zbx_types.specs.Records.{same_event};
ghost use Rattle.trigger_state.specs.Problems.{action_of, same_action, is_before, event_in, with_step, stepped};

use crate::problems::{Open, is_of};
use std::alloc::Global;
use zbx_types::{EventId, Many, OutOfMemory, Rec};

/// The action of a step, by name; nothing for any other record.
fn action_of(rec: &Rec) -> &[u8]
    ensures { result.now ≡ action_of rec.now }
{
    match rec {
        Rec::Step { action, .. } => action.as_bytes(),
        Rec::Failure { .. } | Rec::Problem { .. } | Rec::Recovery { .. } | Rec::Message { .. } =>
            &[],
    }
}

/// Whether two steps are of one action.
fn same_action(one: &Rec, other: &Rec) -> bool
    ensures { result ≡ same_action one.now other.now }
{
    action_of(one) == action_of(other)
}

/// Whether a step's action stands before another one's.
fn is_before(one: &Rec, other: &Rec) -> bool
    ensures { result ≡ is_before one.now other.now }
{
    action_of(one).cmp(action_of(other)).is_lt()
}

/// Adds a copy of a step.
fn push_copy(alloc: Global, steps: &mut Many<Rec>, step: &Rec) -> Result<(), OutOfMemory>
    ensures { OnOk result (steps.new ≡ steps.old ++ step.now ∷ []) }
{
    steps.push(step.copy(alloc)?)?;
    Ok(())
}

/// Steps with one more: in the place of the one of its action, else where it belongs by its action's name.
fn steps_with(alloc: Global, steps: &[Rec], step: &Rec) -> Result<Many<Rec>, OutOfMemory>
    ensures { IfOk result (λ made. made ≡ with_step steps.now step.now) }
{
    let mut made = Many::new(alloc);
    let mut taken = false;
    for one in steps {
        if taken || is_before(one, step) {
            push_copy(alloc, &mut made, one)?;
        } else {
            push_copy(alloc, &mut made, step)?;
            taken = true;
            if !same_action(one, step) {
                push_copy(alloc, &mut made, one)?;
            }
        }
    }
    if !taken {
        push_copy(alloc, &mut made, step)?;
    }
    Ok(made)
}

/// The place of the first open problem with an event, counted from 0.
fn place_of(opens: &[Open], event: EventId) -> Option<usize>
    ensures within { IfSome result (λ place. place < length opens.now) }
    ensures first { result ≡ position_from (λ o. same_event (event_in o) event) 0 opens.now }
{
    for (place, one) in opens.iter().enumerate() {
        if is_of(one, event) {
            return Some(place);
        }
    }
    None
}

/// Gives a step to each open problem of its event, of which there is one at most where events differ. At
/// [`OutOfMemory`] they are as before.
pub(crate) fn step_all(alloc: Global, opens: &mut [Open], step: &Rec) -> Result<(), OutOfMemory>
    ensures ok { OnOk result (opens.new ≡ map (stepped step.now) opens.old) }
    ensures err { OnErr result (opens.new ≡ opens.old) }
{
    let Some(place) = place_of(opens, step.event()) else {
        return Ok(());
    };
    let steps = steps_with(alloc, opens[place].steps.as_slice(), step)?;
    step_all(alloc, &mut opens[place + 1..], step)?;
    opens[place].steps = steps;
    Ok(())
}
