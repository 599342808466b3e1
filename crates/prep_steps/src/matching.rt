//! Steps on patterns (the Zabbix 6.0 manual, "Preprocessing details").

ghost use Rattle.std.specs.Prelude.{◌≡◌, IfOk, Some, Contains, option_and_then, true};
ghost use Rattle.zbx_types.specs.Ids.{at_id};
ghost use Rattle.zbx_types.specs.Steps.{has_pattern};
ghost use Rattle.pattern_set.specs.Filling.{filled_of};
ghost use Rattle.pattern_set.specs.Places.{match_of, place_of};
ghost use Rattle.prep_steps.specs.Matching.{output_of, wanted, unwanted, unless, refused, pattern_place};
ghost use Rattle.prep_steps.specs.Outcomes.{parameter};

use crate::outcome::{Outcome, TOO_LONG, fail, pass};
use pattern_set::{Filled, Patterns};
use std::alloc::Global;
use std::convert::AsStr;
use zbx_types::{LONGEST_VALUE, Many, OutOfMemory, StepSpec, Text};

/// The place of the first parameter among patterns.
fn first_place(alloc: Global, params: &Many<Text>, patterns: &Patterns) -> u32
    ensures place { result ≡ place_of (parameter params.now 0) patterns.now }
    ensures there { Contains patterns.now (parameter params.now 0) → at_id patterns.now result ≡ Some (parameter params.now 0) }
{
    match params.as_slice().first() {
        Some(pattern) => patterns.find(pattern),
        None => patterns.find(&Text::new(alloc)),
    }
}

/// The place of a step's pattern among patterns, for [`apply_at`](crate::apply_at): found once, it serves for each value.
/// 0 where the step's kind has no pattern, and where its pattern isn't among them. Takes no memory.
pub fn pattern_place(alloc: Global, step: &StepSpec, patterns: &Patterns) -> u32
    ensures place { result ≡ pattern_place step.now patterns.now }
    ensures there { has_pattern step.now.kind ≡ true → Contains patterns.now (parameter step.now.params 0) → at_id patterns.now result ≡ Some (parameter step.now.params 0) }
{
    if step.kind.has_pattern() {
        first_place(alloc, &step.params, patterns)
    } else {
        0
    }
}

/// An output with the groups of the leftmost match of the pattern at a place filled in.
pub(crate) fn extract(
    alloc: Global,
    patterns: &Patterns,
    place: u32,
    output: &str,
    value: &str,
) -> Result<Outcome, OutOfMemory>
    ensures { IfOk result (λ outcome. outcome ≡ output_of (option_and_then (λ p. filled_of p value.now output.now) (at_id patterns.now place))) }
{
    match patterns.filled_within(alloc, place, value, output, LONGEST_VALUE)? {
        Filled::Made(output) => Ok(Outcome::Value(output)),
        Filled::TooLong => fail(alloc, TOO_LONG),
        Filled::Unmatched => fail(alloc, "no match"),
    }
}

/// A value that the pattern at a place matches.
pub(crate) fn match_one(
    alloc: Global,
    patterns: &Patterns,
    place: u32,
    value: &str,
) -> Result<Outcome, OutOfMemory>
    ensures { IfOk result (λ outcome. outcome ≡ wanted (match_of patterns.now place value.now) value.now) }
{
    if !patterns.matches(alloc, place, value)? {
        return fail(alloc, "no match");
    }
    pass(alloc, Text::of(alloc, value)?)
}

/// A value that the pattern at a place doesn't match.
pub(crate) fn match_none(
    alloc: Global,
    patterns: &Patterns,
    place: u32,
    value: &str,
) -> Result<Outcome, OutOfMemory>
    ensures { IfOk result (λ outcome. outcome ≡ unwanted (match_of patterns.now place value.now) value.now) }
{
    if patterns.matches(alloc, place, value)? {
        return fail(alloc, "match");
    }
    pass(alloc, Text::of(alloc, value)?)
}

/// A value that goes on, or a failure with an error text where there is one that isn't empty.
pub fn unless(alloc: Global, error: Option<Text>, value: &str) -> Result<Outcome, OutOfMemory>
    ensures { IfOk result (λ outcome. outcome ≡ unless error value.now) }
{
    if let Some(error) = error {
        if error.len() > 0 {
            return Ok(Outcome::Fail(error));
        }
    }
    pass(alloc, Text::of(alloc, value)?)
}

/// A value, or a failure with an output that isn't empty, where the groups of the leftmost match of the pattern at a place
/// are filled in.
pub(crate) fn check(
    alloc: Global,
    patterns: &Patterns,
    place: u32,
    output: &str,
    value: &str,
) -> Result<Outcome, OutOfMemory>
    ensures { IfOk result (λ outcome. outcome ≡ refused (option_and_then (λ p. filled_of p value.now output.now) (at_id patterns.now place)) value.now) }
{
    let error = patterns.filled_within(alloc, place, value, output, LONGEST_VALUE)?;
    match error {
        Filled::Made(error) => unless(alloc, Some(error), value),
        Filled::TooLong => fail(alloc, TOO_LONG),
        Filled::Unmatched => unless(alloc, None, value),
    }
}
