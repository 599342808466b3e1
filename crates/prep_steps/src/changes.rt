//! Steps on the change of a number (the Zabbix 6.0 manual, "Preprocessing details").

ghost use Rattle.std.specs.Prelude.{◌≡◌, ◌<◌, IfOk, Some};
ghost use Rattle.prep_steps.specs.Changes.{previous, with_number, change_from, changed, rate, rate_from, rated};

use crate::memory::StepMemory;
use crate::numbering::{no_number, number_of, result_of};
use crate::outcome::{Outcome, StepDone, keep};
use std::alloc::Global;
use zbx_types::{Fix, Moment, OutOfMemory, Text};

/// The greatest signed number of 128 bits.
const MOST: u128 = 170_141_183_460_469_231_731_687_303_715_884_105_727;

/// The previous number, where there is one.
#[tactic(auto, unfolding(crate::specs::Changes::previous))]
fn previous(memory: &StepMemory) -> Option<Fix>
    ensures { result ≡ previous memory.now }
{
    if memory.there {
        Fix::read(memory.value.as_bytes())
    } else {
        None
    }
}

/// An outcome of a number that becomes the previous one.
fn with_number(
    alloc: Global,
    time: Moment,
    number: Fix,
    outcome: Outcome,
) -> Result<StepDone, OutOfMemory>
    ensures { IfOk result (λ done. done ≡ with_number time number outcome) }
{
    let mut text = Text::new(alloc);
    number.write(&mut text)?;
    Ok(StepDone {
        outcome,
        memory: StepMemory::marked(time, text),
    })
}

fn change_from(alloc: Global, before: Option<Fix>, number: Fix) -> Result<Outcome, OutOfMemory>
    ensures { IfOk result (λ outcome. outcome ≡ change_from before number) }
{
    match before {
        None => Ok(Outcome::Discard),
        Some(before) => result_of(alloc, number.sub(before)),
    }
}

/// The change of a value from the previous number.
#[tactic(auto, unfolding(crate::specs::Changes::changed))]
pub(crate) fn change(
    alloc: Global,
    memory: &StepMemory,
    value: &Text,
    time: Moment,
) -> Result<StepDone, OutOfMemory>
    ensures { IfOk result (λ done. done ≡ changed memory.now value.now time) }
{
    match number_of(value) {
        None => keep(alloc, memory, no_number(alloc)),
        Some(number) => {
            let outcome = change_from(alloc, previous(memory), number)?;
            with_number(alloc, time, number, outcome)
        }
    }
}

/// The change over so many nanoseconds, per second.
#[tactic(auto, unfolding(crate::specs::Changes::rate, zbx_types::specs::Arithmetic::in_range))]
fn growth_rate(before: Fix, number: Fix, nanoseconds: u64) -> Option<Fix>
    requires { 0 < nanoseconds }
    ensures { result ≡ rate before number nanoseconds }
{
    let growth = (number.raw() - before.raw()).unsigned_abs();
    let dividend = growth.checked_mul(1_000_000_000)?;
    if dividend > MOST {
        return None;
    }
    Fix::of_raw((dividend / u128::from(nanoseconds)) as i128)
}

fn rate_from(
    alloc: Global,
    before: Fix,
    memory: &StepMemory,
    time: Moment,
    number: Fix,
) -> Result<StepDone, OutOfMemory>
    ensures { IfOk result (λ done. done ≡ rate_from (Some before) memory.now time number) }
{
    let between = time.since(memory.time);
    if between == 0 {
        return keep(alloc, memory, Ok(Outcome::Discard));
    }
    if number < before {
        return with_number(alloc, time, number, Outcome::Discard);
    }
    let outcome = result_of(alloc, growth_rate(before, number, between))?;
    with_number(alloc, time, number, outcome)
}

/// The change of a value from the previous number, per second.
#[tactic(auto, unfolding(crate::specs::Changes::rated))]
pub(crate) fn rate(
    alloc: Global,
    memory: &StepMemory,
    value: &Text,
    time: Moment,
) -> Result<StepDone, OutOfMemory>
    ensures { IfOk result (λ done. done ≡ rated memory.now value.now time) }
{
    let Some(number) = number_of(value) else {
        return keep(alloc, memory, no_number(alloc));
    };
    match previous(memory) {
        None => with_number(alloc, time, number, Outcome::Discard),
        Some(before) => rate_from(alloc, before, memory, time, number),
    }
}
