//! Old problems that close, and at which rule.

ghost use Rattle.std.specs.Prelude.{◌≡◌, [], ◌++◌, map, IfOk, OnOk};
ghost use Rattle.zbx_types.specs.Records.{event_of};
ghost use Rattle.event_correlation.specs.Conditions.{fits};
ghost use Rattle.event_correlation.specs.Closings.{closed_from};
ghost use Rattle.event_correlation.specs.Due.{due_of, events_at};

use crate::matching::first_closing;
use std::alloc::Global;
use zbx_types::{EventId, Many, OutOfMemory, Rec, Rule, Tag, Text};

/// An old problem that closes.
#[derive(Clone, Copy)]
struct Due {
    /// The place of the first rule that closes it, counted from 0.
    place: usize,
    /// Its event.
    event: EventId,
}

/// The old problems that close, each with the place of the first rule that closes it.
fn due_of(
    alloc: Global,
    groups: &[Text],
    new: &[Tag],
    rules: &[Rule],
    old: &[&Rec],
) -> Result<Vec<Due>, OutOfMemory>
    ensures { IfOk result (λ made. made.items ≡ due_of (fits groups.now new.now) rules.now (map (λ problem. problem.now) old.now)) }
{
    let mut due = Vec::new(alloc);
    for problem in old {
        if let Some(place) = first_closing(groups, new, rules, problem) {
            due.push(Due {
                place,
                event: problem.event(),
            })?;
        }
    }
    Ok(due)
}

/// Adds the events of those that close at the rule at a place.
fn push_events_at(place: usize, due: &[Due], closed: &mut Many<EventId>) -> Result<(), OutOfMemory>
    ensures { OnOk result (closed.new ≡ closed.old ++ events_at place due.now) }
{
    for one in due {
        if one.place == place {
            closed.push(one.event)?;
        }
    }
    Ok(())
}

/// The events of the old problems that close, rule by rule.
pub(crate) fn closed_events(
    alloc: Global,
    groups: &[Text],
    new: &[Tag],
    rules: &[Rule],
    old: &[&Rec],
) -> Result<Many<EventId>, OutOfMemory>
    ensures { IfOk result (λ made. made ≡ map event_of (closed_from (fits groups.now new.now) (map (λ problem. problem.now) old.now) [] rules.now)) }
{
    let due = due_of(alloc, groups, new, rules, old)?;
    let mut closed = Many::new(alloc);
    for place in 0..rules.len() {
        push_events_at(place, due.as_slice(), &mut closed)?;
    }
    Ok(closed)
}
