//! The triggers that a Tick evaluates.

ghost use Rattle.std.specs.Prelude.{◌≡◌, IfOk};
ghost use Rattle.std.specs.List.{list_any};
ghost use Rattle.zbx_types.specs.Ids.{at_id};
ghost use Rattle.conf_index.specs.Timed.{is_timed, is_timed_trigger, timed_triggers};

use crate::order::order;
use std::alloc::Global;
use zbx_types::{Call, Conf, Fun, Many, OutOfMemory, by_id};

/// Whether a function's value may change with time alone.
fn is_timed(fun: Fun) -> bool
    ensures { result ≡ is_timed fun }
{
    match fun {
        Fun::NoData => true,
        _ => fun.is_dated(),
    }
}

/// Whether one of these calls is of such a function.
fn has_timed(calls: &[Call]) -> bool
    ensures { result ≡ list_any (λ call. is_timed call.fun) calls.now }
{
    calls.iter().any(|call| is_timed(call.fun))
}

/// Whether the trigger with an id is enabled and calls such a function.
fn is_timed_trigger(conf: &Conf, id: u32) -> bool
    ensures { result ≡ is_timed_trigger (at_id conf.now.triggers id) }
{
    match by_id(conf.triggers.as_slice(), id) {
        None => false,
        Some(trigger) => trigger.enabled && has_timed(trigger.calls.as_slice()),
    }
}

/// The ids of the triggers that a Tick evaluates, in the order of evaluation.
#[tactic(auto, unfolding(crate::specs::Timed::timed_triggers))]
pub(crate) fn timed_triggers(alloc: Global, conf: &Conf) -> Result<Many<u32>, OutOfMemory>
    ensures { IfOk result (λ ids. ids ≡ timed_triggers conf.now) }
{
    let mut ids = Many::new(alloc);
    let all = order(alloc, conf)?;
    for id in all.as_slice() {
        if is_timed_trigger(conf, *id) {
            ids.push(*id)?;
        }
    }
    Ok(ids)
}
