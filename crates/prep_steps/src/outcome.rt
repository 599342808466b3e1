//! What comes of a step.

ghost use Rattle.std.specs.Prelude.{◌≡◌, IfOk, IsOkAnd};
ghost use Rattle.prep_steps.specs.Outcomes.{is_short, passed, kept, parameter};
ghost use Rattle.prep_steps.specs.declared.outcome.Outcome.TheVariants.{Fail};

use crate::memory::StepMemory;
use std::alloc::Global;
use std::convert::AsStr;
use zbx_types::{LONGEST_VALUE, Many, OutOfMemory, Text};

/// The text of the failure of a result above 65,535 bytes.
pub const TOO_LONG: &str = "too long";

/// What comes of a value at a step.
#[derive(Debug, Drop)]
pub enum Outcome {
    /// The value that goes on, of at most 65,535 bytes.
    Value(Text),
    /// The value is dropped without an error.
    Discard,
    /// The step fails with this text.
    Fail(Text),
}

/// What a step did: what comes of the value, and what the step remembers from then on.
#[derive(Debug, Drop)]
pub struct StepDone {
    /// What comes of the value.
    pub outcome: Outcome,
    /// What the step remembers.
    pub memory: StepMemory,
}

/// A failure with its text. [`OutOfMemory`] where there is no room for it.
pub fn fail(alloc: Global, why: &str) -> Result<Outcome, OutOfMemory>
    ensures { IfOk result (λ outcome. outcome ≡ Fail why.now) }
{
    Ok(Outcome::Fail(Text::of(alloc, why)?))
}

/// Whether a value has at most 65,535 bytes.
pub fn is_short(value: &Text) -> bool
    ensures { result ≡ is_short value.now }
{
    value.len() <= LONGEST_VALUE
}

/// The outcome of a result: the value goes on, and one above 65,535 bytes fails with `too long`.
pub fn pass(alloc: Global, value: Text) -> Result<Outcome, OutOfMemory>
    ensures { IfOk result (λ outcome. outcome ≡ passed value) }
{
    if !is_short(&value) {
        return fail(alloc, TOO_LONG);
    }
    Ok(Outcome::Value(value))
}

/// An outcome that leaves the memory as it was.
pub(crate) fn keep(
    alloc: Global,
    memory: &StepMemory,
    outcome: Result<Outcome, OutOfMemory>,
) -> Result<StepDone, OutOfMemory>
    ensures { IfOk result (λ done. IsOkAnd outcome (λ outcome. done ≡ kept memory.now outcome)) }
{
    Ok(StepDone {
        outcome: outcome?,
        memory: memory.copy(alloc)?,
    })
}

/// A parameter by its place, the empty text where it is missing.
pub fn parameter(params: &Many<Text>, place: usize) -> &str
    ensures { result.now ≡ parameter params.now place }
{
    match params.as_slice().get(place) {
        Some(text) => text.as_str(),
        None => "",
    }
}
