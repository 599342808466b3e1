//! What a trigger does where it is evaluated.

ghost use Rattle.std.specs.Prelude.{◌≡◌, IfOk};
ghost use Rattle.zbx_types.specs.Masters.{DepthsFall};
ghost use Rattle.trigger_state.specs.Cells.{opens_in};
ghost use Rattle.trigger_state.specs.Verdicts.{is_known_true, some_open, lets_close, is_closed_by, closing, close_all, on_true, on_zero, verdict_over, verdict_of};

use crate::answer::Verdict;
use crate::cells::TriggerCells;
use crate::looking::Opens;
use crate::problems::Open;
use std::alloc::Global;
use zbx_types::{
    Conf, EventId, Fix, Many, OutOfMemory, RecoveryMode, Tag, Text, Trigger, by_id, masters,
    share_value,
};

/// Whether a problem of one of these triggers is open. Over the masters of a trigger that says whether it is held (the
/// Zabbix 6.0 manual, "Trigger dependencies"). Takes no memory.
pub fn held_by<O: Opens>(masters: &[u32], opens: &O) -> bool
    ensures { result ≡ some_open (O.problems opens.now) masters.now }
{
    for master in masters {
        if !opens.open(*master).is_empty() {
            return true;
        }
    }
    false
}

/// Whether the value of an expression is known and not 0.
fn is_known_true(value: Option<Fix>) -> bool
    ensures { result ≡ is_known_true value }
{
    match value {
        None => false,
        Some(number) => number.is_true(),
    }
}

/// Whether a trigger whose problem expression is 0 recovers.
fn lets_close(mode: RecoveryMode, r: Option<Fix>) -> bool
    ensures { result ≡ lets_close mode r }
{
    match mode {
        RecoveryMode::Expression => true,
        RecoveryMode::RecoveryExpression => is_known_true(r),
        RecoveryMode::Nothing => false,
    }
}

/// Whether an open problem closes.
fn is_closed_by(close_tag: &Text, tags: &[Tag], one: &Open) -> bool
    ensures { result ≡ is_closed_by close_tag.now tags.now one.now }
{
    close_tag.as_bytes().is_empty() || share_value(one.problem.tags(), close_tag, tags, close_tag)
}

/// The events of the open problems that close.
fn closing(
    alloc: Global,
    trigger: &Trigger,
    tags: &[Tag],
    problems: &[Open],
) -> Result<Many<EventId>, OutOfMemory>
    ensures { IfOk result (λ events. events ≡ closing trigger.now tags.now problems.now) }
{
    let mut events = Many::new(alloc);
    for one in problems {
        if is_closed_by(&trigger.close_tag, tags, one) {
            events.push(one.problem.event())?;
        }
    }
    Ok(events)
}

/// Closes these, where there are some.
fn close_all(events: Many<EventId>) -> Verdict
    ensures { result ≡ close_all events }
{
    if events.as_slice().is_empty() {
        Verdict::Nothing
    } else {
        Verdict::Close(events)
    }
}

/// What a trigger does whose problem expression is 0.
fn on_zero(
    alloc: Global,
    trigger: &Trigger,
    problems: &[Open],
    r: Option<Fix>,
    tags: &[Tag],
) -> Result<Verdict, OutOfMemory>
    ensures { IfOk result (λ made. made ≡ on_zero trigger.now problems.now r tags.now) }
{
    if lets_close(trigger.recovery, r) {
        Ok(close_all(closing(alloc, trigger, tags, problems)?))
    } else {
        Ok(Verdict::Nothing)
    }
}

/// What a trigger does whose problem expression is true.
fn on_true(trigger: &Trigger, problems: &[Open], is_value: bool) -> Verdict
    ensures { result ≡ on_true trigger.now problems.now is_value }
{
    if problems.is_empty() || (trigger.multiple && is_value) {
        Verdict::New
    } else {
        Verdict::Nothing
    }
}

/// The same as [`verdict`], for a trigger that is held or not and whose open problems are these, in the order of
/// making.
pub fn verdict_over(
    alloc: Global,
    trigger: &Trigger,
    held: bool,
    problems: &[Open],
    p: Option<Fix>,
    r: Option<Fix>,
    tags: &[Tag],
    is_value: bool,
) -> Result<Verdict, OutOfMemory>
    ensures { IfOk result (λ made. made ≡ verdict_over trigger.now held problems.now p r tags.now is_value) }
{
    if held {
        return Ok(Verdict::Nothing);
    }
    match p {
        None => Ok(Verdict::Nothing),
        Some(number) => {
            if number.raw() == 0 {
                on_zero(alloc, trigger, problems, r, tags)
            } else {
                Ok(on_true(trigger, problems, is_value))
            }
        }
    }
}

/// What the trigger with this id does where its problem expression has the value p and its recovery expression the
/// value r, None for unknown; `tags` are the trigger's tags as they are expanded now, and `is_value` says that a value
/// is taken and no Tick (the Zabbix 6.0 manual, "Configuring a trigger", "Trigger dependencies"; that a Tick makes no
/// further problem of a trigger with `multiple` is this project's own).
///
/// Nothing where there is no such trigger. [`OutOfMemory`] where there is no room to look for the masters or for the
/// events that close. Each trigger that one depends on must have a smaller depth, as a configuration without cycles
/// has it.
pub fn verdict(
    alloc: Global,
    conf: &Conf,
    cells: &TriggerCells,
    trigger: u32,
    p: Option<Fix>,
    r: Option<Fix>,
    tags: &[Tag],
    is_value: bool,
) -> Result<Verdict, OutOfMemory>
    requires { DepthsFall conf.now }
    ensures { IfOk result (λ made. made ≡ verdict_of conf.now (opens_in cells.now) trigger p r tags.now is_value) }
{
    let Some(found) = by_id(conf.triggers.as_slice(), trigger) else {
        return Ok(Verdict::Nothing);
    };
    let masters = masters(alloc, conf, trigger)?;
    let held = held_by(masters.as_slice(), cells);
    verdict_over(
        alloc,
        found,
        held,
        cells.open(trigger),
        p,
        r,
        tags,
        is_value,
    )
}
