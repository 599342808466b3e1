//! The steps of an action's escalation.

ghost use Rattle.std.specs.Prelude.{◌≡◌, min, map, filter, Some, None, if◌then◌else◌};
ghost use Rattle.std.specs.List.{list_any, reduce};
ghost use Rattle.escalations.specs.Steps.{goes_to, has_step, step_exists, lasts, duration_of, ran_of, with_first, later, last_step, step_due};

use zbx_types::{Action, EventId, Moment, Operation, Rec, Text};

/// A step that ran.
#[derive(Clone, Copy)]
pub(crate) struct Ran {
    /// Its number.
    pub(crate) step: u32,
    /// When it ran.
    pub(crate) moment: Moment,
}

/// Whether an operation's steps go up to this one or further.
fn goes_to(step: u32, operation: &Operation) -> bool
    ensures { result ≡ goes_to step operation.now }
{
    operation.to == 0 || step <= operation.to
}

fn some_goes_to(step: u32, operations: &[Operation]) -> bool
    ensures { result ≡ list_any (goes_to step) operations.now }
{
    for operation in operations {
        if goes_to(step, operation) {
            return true;
        }
    }
    false
}

/// Whether a step belongs to an operation.
pub(crate) fn has_step(step: u32, operation: &Operation) -> bool
    ensures { result ≡ has_step step operation.now }
{
    operation.from <= step && goes_to(step, operation)
}

/// The step with a number, where the action has it.
fn existing_step(action: &Action, number: u64) -> Option<u32>
    ensures { result ≡ (if step_exists action.now number then Some number else None) }
{
    if number < 1 || u64::from(u32::MAX) < number {
        return None;
    }
    let step = number as u32;
    if some_goes_to(step, action.operations.as_slice()) {
        Some(step)
    } else {
        None
    }
}

/// How many seconds an operation lasts.
fn lasts(action: &Action, operation: &Operation) -> u32
    ensures { result ≡ lasts action.now operation.now }
{
    if operation.duration == 0 {
        action.step_duration
    } else {
        operation.duration
    }
}

/// The lesser one of two numbers, where there are two.
fn lesser(one: Option<u32>, other: u32) -> u32
    ensures { result ≡ with_first min one other }
{
    match one {
        Some(one) => one.min(other),
        None => other,
    }
}

/// How many seconds the shortest of some operations lasts to which a step belongs.
fn shortest(action: &Action, step: u32, operations: &[Operation]) -> Option<u32>
    ensures { result ≡ reduce min (map (lasts action.now) (filter (has_step step) operations.now)) }
{
    let mut shortest: Option<u32> = None;
    for operation in operations {
        if has_step(step, operation) {
            shortest = Some(lesser(shortest, lasts(action, operation)));
        }
    }
    shortest
}

/// How many seconds a step lasts.
fn duration_of(action: &Action, step: u32) -> u32
    ensures { result ≡ duration_of action.now step }
{
    shortest(action, step, action.operations.as_slice()).unwrap_or(action.step_duration)
}

/// The step of this event and action that a record tells.
fn ran_of(event: EventId, action: &Text, rec: &Rec) -> Option<Ran>
    ensures { result ≡ ran_of event action.now rec.now }
{
    match rec {
        Rec::Step {
            event: of,
            action: name,
            step,
            now,
        } => if of.number == event.number
            && of.trigger == event.trigger
            && name.as_bytes() == action.as_bytes()
        {
            Some(Ran {
                step: *step,
                moment: *now,
            })
        } else {
            None
        },
        Rec::Failure { .. } | Rec::Problem { .. } | Rec::Recovery { .. } | Rec::Message { .. } =>
            None,
    }
}

/// The one of two steps with the greater number, or the first one; the other where there is no first one.
fn later(one: Option<Ran>, other: Ran) -> Ran
    ensures { result ≡ with_first later one other }
{
    match one {
        Some(one) => if other.step <= one.step { one } else { other },
        None => other,
    }
}

/// The last step of this event and action that ran.
pub(crate) fn last_step(steps: &[Rec], event: EventId, action: &Text) -> Option<Ran>
    ensures { result ≡ last_step steps.now event action.now }
{
    let mut last: Option<Ran> = None;
    for rec in steps {
        if let Some(ran) = ran_of(event, action, rec) {
            last = Some(later(last, ran));
        }
    }
    last
}

/// The step behind one that ran, where the action has it and it is due.
#[tactic(auto, unfolding(crate::specs::Steps::step_due))]
fn step_behind(action: &Action, now: Moment, ran: Ran) -> Option<u32>
    ensures { result ≡ step_due action.now now (Some ran) }
{
    if now.is_past(ran.moment, duration_of(action, ran.step)) {
        existing_step(action, u64::from(ran.step) + 1)
    } else {
        None
    }
}

/// The step behind the last one that ran, where the action has it and it is due.
#[tactic(auto, unfolding(crate::specs::Steps::step_due))]
pub(crate) fn step_due(action: &Action, now: Moment, last: Option<Ran>) -> Option<u32>
    ensures { result ≡ step_due action.now now last }
{
    match last {
        Some(ran) => step_behind(action, now, ran),
        None => existing_step(action, 1),
    }
}
