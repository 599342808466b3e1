//! Preprocessing steps.

ghost use Rattle.std.specs.Prelude.{◌≡◌, false};
ghost use Rattle.json_form.specs.Faults.{Gives};
ghost use Rattle.json_form.specs.Places.{place_of};
ghost use Rattle.config_read.specs.Steps.{param_count, is_throttling, kind_of, params_of, step_of, throttles, steps_of};

use crate::words::{Fallbacks, StepKinds};
use json_form::{At, Following, Object, ReadError, Texts, list, sequence};
use serde_json::Value;
use std::alloc::Global;
use zbx_types::{Cause, Many, OnFail, StepKind, StepSpec, Text};

fn param_count(kind: StepKind) -> usize
    ensures { result ≡ param_count kind }
{
    match kind {
        StepKind::Regex | StepKind::Replace | StepKind::InRange | StepKind::RegexError => 2,
        StepKind::Trim
        | StepKind::LTrim
        | StepKind::RTrim
        | StepKind::JsonPath
        | StepKind::Multiplier
        | StepKind::Matches
        | StepKind::NotMatches
        | StepKind::JsonError
        | StepKind::ThrottleHeartbeat => 1,
        StepKind::SimpleChange
        | StepKind::ChangePerSecond
        | StepKind::BoolToDecimal
        | StepKind::OctalToDecimal
        | StepKind::HexToDecimal
        | StepKind::Throttle => 0,
    }
}

fn is_throttling(kind: StepKind) -> bool
    ensures { result ≡ is_throttling kind }
{
    matches!(kind, StepKind::Throttle | StepKind::ThrottleHeartbeat)
}

#[tactic(auto, unfolding(crate::specs::Steps::kind_of))]
fn step_kind(alloc: Global, throttled: bool, at: &At<'_, '_>) -> Result<StepKind, ReadError>
    ensures { Gives result (kind_of throttled (place_of at.now)) }
{
    let kind = at.word::<StepKinds>(alloc)?;
    if throttled && is_throttling(kind) {
        return Err(at.refused(alloc, Cause::BadMember));
    }
    Ok(kind)
}

#[tactic(auto, unfolding(crate::specs::Steps::params_of))]
fn params(alloc: Global, count: usize, at: &At<'_, '_>) -> Result<Many<Text>, ReadError>
    ensures { Gives result (params_of count (place_of at.now)) }
{
    let params = list::<Texts>(alloc, at)?;
    if params.len() != count {
        return Err(at.refused(alloc, Cause::BadMember));
    }
    Ok(params)
}

/// The reader of steps. Whether a throttling one stands before is what they leave.
struct StepReader;

impl Following for StepReader {
    type Made = StepSpec;

    type Past = bool;

    ghost after = { throttles };

    ghost reads = { step_of };

    #[tactic(auto, unfolding(crate::specs::Steps::step_of))]
    fn read(
        alloc: Global,
        past: &mut bool,
        path: &str,
        value: &Value,
    ) -> Result<StepSpec, ReadError> {
        let object = Object::at(alloc, path, value)?;
        let kind = step_kind(alloc, *past, &object.member("kind"))?;
        let params = params(alloc, param_count(kind), &object.member("params"))?;
        let on_fail = object
            .member("on_fail")
            .word_or::<Fallbacks>(alloc, OnFail::Empty)?;
        let text = object.member("text").text_or(alloc, "")?;
        *past = *past || is_throttling(kind);
        Ok(StepSpec {
            kind,
            params,
            on_fail,
            text,
        })
    }
}

/// The steps of an item, 32 at most, of which one at most throttles.
#[tactic(auto, unfolding(crate::specs::Steps::steps_of))]
pub(crate) fn steps(alloc: Global, at: &At<'_, '_>) -> Result<Many<StepSpec>, ReadError>
    ensures { Gives result (steps_of (place_of at.now)) }
{
    let few = at.at_most(alloc, 32, Cause::TooMany)?;
    let mut throttled = false;
    sequence::<StepReader>(alloc, &mut throttled, &few)
}
