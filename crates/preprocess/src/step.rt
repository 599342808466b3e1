//! One step of any kind, and what comes of a failure at it.

ghost use Rattle.std.specs.Prelude.{◌≡◌, ◌++◌, IfOk, Ok, codes};
ghost use Rattle.std.specs.Fmt.{decimal};
ghost use Rattle.preprocess.specs.Chain.{step_done, on_failure, settled};
ghost use Rattle.preprocess.specs.JsonSteps.{selected, json_checked};
ghost use Rattle.preprocess.specs.Parsing.{IsParsed};
ghost use Rattle.preprocess.specs.Ways.{way_for, HasPattern};

use crate::json::{Found, Looked, Parsed, check, look, select};
use crate::ways::Way;
use pattern_set::Patterns;
use prep_steps::{Outcome, StepDone, StepMemory, apply_at};
use std::alloc::Global;
use std::convert::AsStr;
use zbx_types::{Moment, OnFail, OutOfMemory, StepKind, StepSpec, Text};

/// What a step made of a text, and what is known of that text then.
#[derive(Drop)]
pub(crate) struct Stepped {
    pub(crate) outcome: Outcome,
    pub(crate) memory: StepMemory,
    pub(crate) parsed: Parsed,
}

/// What a step makes of a text that came at a moment.
#[tactic(auto, unfolding(crate::specs::Chain::step_done), using(pattern_set::proofs::Placed::placed))]
pub(crate) fn step_done(
    alloc: Global,
    step: &StepSpec,
    way: &Way,
    patterns: &Patterns,
    memory: &StepMemory,
    text: &Text,
    parsed: Parsed,
    time: Moment,
) -> Result<Stepped, OutOfMemory>
    requires way { way.now ≡ way_for patterns.now step.now }
    requires pattern { HasPattern patterns.now step.now }
    requires parsed { IsParsed text.now parsed }
    ensures done { IfOk result (λ stepped. record { outcome = stepped.outcome; memory = stepped.memory } ≡ step_done step.now memory.now text.now time) }
    ensures parsed { IfOk result (λ stepped. IsParsed text.now stepped.parsed) }
{
    match step.kind {
        StepKind::JsonPath => {
            let Looked { found, parsed } = look(alloc, text, parsed, way.path.as_ref())?;
            with_parsed(selected_at(alloc, found, memory), parsed)
        }
        StepKind::JsonError => {
            let Looked { found, parsed } = look(alloc, text, parsed, way.path.as_ref())?;
            with_parsed(checked_at(alloc, found, text, memory), parsed)
        }
        _ => with_parsed(
            apply_at(alloc, step, way.place, memory, text, time, patterns),
            parsed,
        ),
    }
}

/// What a JSONPath step makes of what it found.
fn selected_at(alloc: Global, found: Found, memory: &StepMemory) -> Result<StepDone, OutOfMemory>
    ensures outcome { IfOk result (λ done. done.outcome ≡ selected found) }
    ensures memory { IfOk result (λ done. done.memory ≡ memory.now) }
{
    Ok(StepDone {
        outcome: select(alloc, found)?,
        memory: memory.copy(alloc)?,
    })
}

/// What a check for an error makes of what it found.
fn checked_at(
    alloc: Global,
    found: Found,
    text: &Text,
    memory: &StepMemory,
) -> Result<StepDone, OutOfMemory>
    ensures outcome { IfOk result (λ done. done.outcome ≡ json_checked found text.now) }
    ensures memory { IfOk result (λ done. done.memory ≡ memory.now) }
{
    Ok(StepDone {
        outcome: check(alloc, found, text)?,
        memory: memory.copy(alloc)?,
    })
}

/// What a step made, with what is known of its text.
fn with_parsed(done: Result<StepDone, OutOfMemory>, parsed: Parsed) -> Result<Stepped, OutOfMemory>
    ensures done { IfOk result (λ stepped. done ≡ Ok (record { outcome = stepped.outcome; memory = stepped.memory })) }
    ensures parsed { IfOk result (λ stepped. stepped.parsed ≡ parsed) }
{
    match done {
        Ok(StepDone { outcome, memory }) => Ok(Stepped {
            outcome,
            memory,
            parsed,
        }),
        Err(OutOfMemory) => {
            drop(parsed);
            Err(OutOfMemory)
        }
    }
}

/// The error text of a failure at the step with a number.
fn step_text(alloc: Global, number: u64, why: &Text) -> Result<Text, OutOfMemory>
    ensures { IfOk result (λ text. text ≡ codes "step " ++ (decimal number ++ (codes ": " ++ why.now))) }
{
    let mut text = Text::of(alloc, "step ")?;
    text.push_decimal(number)?;
    text.push_str(": ")?;
    text.push_str(why.as_str())?;
    Ok(text)
}

fn on_failure(
    alloc: Global,
    step: &StepSpec,
    number: u64,
    why: &Text,
) -> Result<Outcome, OutOfMemory>
    ensures { IfOk result (λ outcome. outcome ≡ on_failure step.now.on_fail number step.now.text why.now) }
{
    match step.on_fail {
        OnFail::Empty => Ok(Outcome::Fail(step_text(alloc, number, why)?)),
        OnFail::Discard => Ok(Outcome::Discard),
        OnFail::Value => Ok(Outcome::Value(step.text.copy(alloc)?)),
        OnFail::Error => Ok(Outcome::Fail(step.text.copy(alloc)?)),
    }
}

/// What comes of the outcome of the step with a number, counted from 1: a failure becomes what the step's `on_fail`
/// sets.
pub(crate) fn settle(
    alloc: Global,
    step: &StepSpec,
    number: u64,
    outcome: Outcome,
) -> Result<Outcome, OutOfMemory>
    ensures { IfOk result (λ made. made ≡ settled step.now number outcome) }
{
    match outcome {
        Outcome::Value(value) => Ok(Outcome::Value(value)),
        Outcome::Discard => Ok(Outcome::Discard),
        Outcome::Fail(why) => on_failure(alloc, step, number, &why),
    }
}
