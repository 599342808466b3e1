//! Steps that discard what hasn't changed (the Zabbix 6.0 manual, "Preprocessing details").

ghost use Rattle.std.specs.Prelude.{◌≡◌, ◌+◌, IfOk, nat_lt};
ghost use Rattle.prep_steps.specs.Throttling.{is_repeated, throttled, unchanged, heartbeat, unchanged_within};
ghost use Rattle.zbx_types.specs.Periods.{seconds_up_to};

use crate::memory::StepMemory;
use crate::outcome::{Outcome, StepDone, is_short, keep, pass};
use std::alloc::Global;
use zbx_types::{Moment, OutOfMemory, Text, seconds_up_to};

/// The seconds of the longest heartbeat.
const YEAR: u32 = 31_536_000;

fn is_repeated(memory: &StepMemory, value: &Text) -> bool
    ensures { result ≡ is_repeated memory.now value.now }
{
    memory.there && memory.value == *value
}

fn throttled(
    alloc: Global,
    drops: bool,
    memory: &StepMemory,
    value: &Text,
    time: Moment,
) -> Result<StepDone, OutOfMemory>
    ensures { IfOk result (λ done. done ≡ throttled drops memory.now value.now time) }
{
    if drops {
        return keep(alloc, memory, Ok(Outcome::Discard));
    }
    if !is_short(value) {
        return keep(alloc, memory, pass(alloc, value.copy(alloc)?));
    }
    Ok(StepDone {
        outcome: Outcome::Value(value.copy(alloc)?),
        memory: StepMemory::marked(time, value.copy(alloc)?),
    })
}

/// A value with the bytes of the last one that passed is discarded.
#[tactic(auto, unfolding(crate::specs::Throttling::unchanged))]
pub(crate) fn throttle(
    alloc: Global,
    memory: &StepMemory,
    value: &Text,
    time: Moment,
) -> Result<StepDone, OutOfMemory>
    ensures { IfOk result (λ done. done ≡ unchanged memory.now value.now time) }
{
    throttled(alloc, is_repeated(memory, value), memory, value, time)
}

/// Whether a moment lies before another one plus a period.
fn is_within(period: &str, last: Moment, time: Moment) -> bool
    ensures { result ≡ nat_lt time (last + heartbeat (seconds_up_to 31536000 period.now)) }
{
    let seconds = seconds_up_to(YEAR, period.as_bytes()).unwrap_or(0);
    last.since(time) > 0 || time.since(last) < u64::from(seconds) * 1_000_000_000
}

/// A value with the bytes of the last one that passed is discarded within a period.
#[tactic(auto, unfolding(crate::specs::Throttling::unchanged_within))]
pub(crate) fn throttle_within(
    alloc: Global,
    period: &str,
    memory: &StepMemory,
    value: &Text,
    time: Moment,
) -> Result<StepDone, OutOfMemory>
    ensures { IfOk result (λ done. done ≡ unchanged_within period.now memory.now value.now time) }
{
    let drops = is_repeated(memory, value) && is_within(period, memory.time, time);
    throttled(alloc, drops, memory, value, time)
}
