//! Whether what a base keeps of an item fits it.

ghost use Rattle.std.specs.Prelude.{◌≡◌, ◌↔◌, IsTrue, IfOk, count_by, ◌≢◌};
ghost use Rattle.zbx_types.specs.declared.base.BaseValue.{BaseValue};
ghost use Rattle.entry_step.specs.Each.{Each, EachPair};
ghost use Rattle.base_laws.specs.FitsBase.{IsWritten, is_change, FitsStep, FitsItem};
ghost use Rattle.base_state.specs.Fitting.{FitsValue, is_after, StandsBefore, is_old, FitSteps};

use std::alloc::Global;
use std::collections::HashSet;
use value_cache::Keep;
use zbx_types::{
    BaseItem, BaseStep, BaseValue, Fix, Item, Moment, OutOfMemory, StepKind, StepSpec, Text,
    ValueType, same_text,
};

/// Whether a text is the written form of a number in range.
fn is_written(alloc: Global, text: &Text) -> Result<bool, OutOfMemory>
    ensures { IfOk result (λ is. IsTrue is ↔ IsWritten text.now) }
{
    match Fix::read(text.as_bytes()) {
        None => Ok(false),
        Some(number) => {
            let mut again = Text::new(alloc);
            number.write(&mut again)?;
            Ok(same_text(again.as_bytes(), text.as_bytes()))
        }
    }
}

/// Whether a value is of a type, of an entry up to this number, and of no later moment.
fn value_fits(
    alloc: Global,
    value_type: ValueType,
    number: u64,
    now: Moment,
    value: &BaseValue,
) -> Result<bool, OutOfMemory>
    ensures { IfOk result (λ fits. IsTrue fits ↔ FitsValue value_type number now value.now) }
{
    if value.number > number || value.time.nanoseconds() > now.nanoseconds() {
        return Ok(false);
    }
    match value_type {
        ValueType::Number => is_written(alloc, &value.value),
        ValueType::Words => Ok(true),
    }
}

/// Whether each of some values is.
fn values_fit(
    alloc: Global,
    value_type: ValueType,
    number: u64,
    now: Moment,
    values: &[BaseValue],
) -> Result<bool, OutOfMemory>
    ensures { IfOk result (λ fits. IsTrue fits ↔ Each (FitsValue value_type number now) values.now) }
{
    for value in values {
        if !value_fits(alloc, value_type, number, now, value)? {
            return Ok(false);
        }
    }
    Ok(true)
}

/// Whether a value is later than another one: by time, and of values with one time by number.
fn is_after(value: &BaseValue, other: &BaseValue) -> bool
    ensures { result ≡ is_after value.now other.now }
{
    let time = value.time.nanoseconds();
    let other_time = other.time.nanoseconds();
    other_time < time || (time == other_time && other.number < value.number)
}

/// Whether no value is later than one behind it.
fn are_in_order(values: &[BaseValue]) -> bool
    ensures { IsTrue result ↔ EachPair StandsBefore values.now }
{
    for place in 1..values.len() {
        let before = &values[place - 1];
        let next = &values[place];
        if is_after(before, next) {
            return false;
        }
    }
    true
}

/// How many values aren't of the period that is kept at a moment.
fn count_old(keep: Keep, now: Moment, values: &[BaseValue]) -> usize
    ensures { result ≡ count_by (is_old keep now) values.now }
{
    values
        .iter()
        .filter(|value| now.is_past(value.time, keep.period))
        .count()
}

/// Whether no two values are of one entry.
fn are_of_others(alloc: Global, values: &[BaseValue]) -> Result<bool, OutOfMemory>
    ensures { IfOk result (λ differ. IsTrue differ ↔ EachPair (λ (v w : BaseValue). v.number ≢ w.number) values.now) }
{
    let numbers: HashSet<u64> = values.iter().map(|value| value.number).collect(alloc)?;
    Ok(numbers.len() == values.len())
}

/// Whether a step is on the change of a number.
fn is_change(kind: StepKind) -> bool
    ensures { result ≡ is_change kind }
{
    matches!(kind, StepKind::SimpleChange | StepKind::ChangePerSecond)
}

/// Whether what a step remembers fits it.
fn step_fits(
    alloc: Global,
    now: Moment,
    step: &StepSpec,
    memory: &BaseStep,
) -> Result<bool, OutOfMemory>
    ensures { IfOk result (λ fits. IsTrue fits ↔ FitsStep now step.now memory.now) }
{
    if memory.time.nanoseconds() > now.nanoseconds() {
        return Ok(false);
    }
    if !memory.there {
        return Ok(memory.time.nanoseconds() == 0 && memory.value.len() == 0);
    }
    if !is_change(step.kind) {
        return Ok(true);
    }
    is_written(alloc, &memory.value)
}

/// Whether each step has a memory that fits it.
fn steps_fit(
    alloc: Global,
    now: Moment,
    steps: &[StepSpec],
    kept: &[BaseStep],
) -> Result<bool, OutOfMemory>
    ensures { IfOk result (λ fits. IsTrue fits ↔ FitSteps now steps.now kept.now) }
{
    if kept.len() != steps.len() {
        return Ok(false);
    }
    for place in 0..kept.len() {
        let step = &steps[place];
        let memory = &kept[place];
        let fits = step_fits(alloc, now, step, memory)?;
        if !fits {
            return Ok(false);
        }
    }
    Ok(true)
}

/// Whether what a base of this number and moment keeps of an item fits it.
pub(crate) fn item_fits(
    alloc: Global,
    keep: Keep,
    number: u64,
    now: Moment,
    item: &Item,
    kept: &BaseItem,
) -> Result<bool, OutOfMemory>
    ensures { IfOk result (λ fits. IsTrue fits ↔ FitsItem keep number now item.now kept.now) }
{
    let values = kept.values.as_slice();
    let ordered = are_in_order(values);
    if !ordered {
        return Ok(false);
    }
    let old = count_old(keep, now, values);
    if old > keep.count as usize {
        return Ok(false);
    }
    let told = values_fit(alloc, item.value_type, number, now, values)?;
    if !told {
        return Ok(false);
    }
    let others = are_of_others(alloc, values)?;
    if !others {
        return Ok(false);
    }
    steps_fit(alloc, now, item.steps.as_slice(), kept.steps.as_slice())
}
