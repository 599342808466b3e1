//! Each step by its kind.

ghost use Rattle.std.specs.Prelude.{◌≡◌, IfOk, Contains, Some, true, false};
ghost use Rattle.zbx_types.specs.Ids.{at_id};
ghost use Rattle.prep_steps.specs.Outcomes.{parameter};
ghost use Rattle.prep_steps.specs.Steps.{looks_into_json, done_of};
ghost use Rattle.zbx_types.specs.Steps.{has_pattern};

use crate::changes::{change, rate};
use crate::digits::{bool_to_decimal, hex_to_decimal, octal_to_decimal};
use crate::matching::{check, extract, match_none, match_one, pattern_place};
use crate::memory::StepMemory;
use crate::numbering::{multiply, range};
use crate::outcome::{StepDone, keep, parameter};
use crate::throttling::{throttle, throttle_within};
use crate::words::{left_trim, replace, right_trim, trim};
use pattern_set::Patterns;
use std::alloc::Global;
use std::convert::AsStr;
use zbx_types::{Moment, OutOfMemory, StepKind, StepSpec, Text};

/// What a step makes of a value that came at a moment, and what it remembers from then on, by the rules that the crate's
/// comment tells (the Zabbix 6.0 manual, "Preprocessing details"; texts of failures and the limit of 65,535 bytes are this
/// project's own).
///
/// `memory` is what the step remembers of the item's values so far. A missing parameter counts as empty. What `on_fail`
/// sets is its caller's: a failure comes with the step's own text. [`OutOfMemory`] where there is no room for the result.
///
/// A step that looks into JSON texts is none of this crate's, and the pattern of a step that has one is among `patterns`.
pub fn apply(
    alloc: Global,
    step: &StepSpec,
    memory: &StepMemory,
    value: &Text,
    time: Moment,
    patterns: &Patterns,
) -> Result<StepDone, OutOfMemory>
    requires kind { looks_into_json step.now.kind ≡ false }
    requires pattern { has_pattern step.now.kind ≡ true → Contains patterns.now (parameter step.now.params 0) }
    ensures { IfOk result (λ done. done ≡ done_of step.now memory.now value.now time) }
{
    let place = pattern_place(alloc, step, patterns);
    apply_at(alloc, step, place, memory, value, time, patterns)
}

/// The same as [`apply`] makes, where the pattern of a step that has one stands at `place` among `patterns`, and isn't
/// sought for. [`pattern_place`](crate::pattern_place) tells such a place.
#[tactic(auto, unfolding(crate::specs::Steps::done_of, crate::specs::Matching::extracted, crate::specs::Matching::matched, crate::specs::Matching::not_matched, crate::specs::Matching::checked))]
pub fn apply_at(
    alloc: Global,
    step: &StepSpec,
    place: u32,
    memory: &StepMemory,
    value: &Text,
    time: Moment,
    patterns: &Patterns,
) -> Result<StepDone, OutOfMemory>
    requires kind { looks_into_json step.now.kind ≡ false }
    requires place { has_pattern step.now.kind ≡ true → at_id patterns.now place ≡ Some (parameter step.now.params 0) }
    ensures { IfOk result (λ done. done ≡ done_of step.now memory.now value.now time) }
{
    let first = parameter(&step.params, 0);
    let second = parameter(&step.params, 1);
    let text = value.as_str();
    match step.kind {
        StepKind::Regex => keep(alloc, memory, extract(alloc, patterns, place, second, text)),
        StepKind::Replace => keep(alloc, memory, replace(alloc, first, second, text)),
        StepKind::Trim => keep(alloc, memory, trim(alloc, first, text)),
        StepKind::LTrim => keep(alloc, memory, left_trim(alloc, first, text)),
        StepKind::RTrim => keep(alloc, memory, right_trim(alloc, first, text)),
        StepKind::Multiplier => keep(alloc, memory, multiply(alloc, first, value)),
        StepKind::SimpleChange => change(alloc, memory, value, time),
        StepKind::ChangePerSecond => rate(alloc, memory, value, time),
        StepKind::BoolToDecimal => keep(alloc, memory, bool_to_decimal(alloc, value)),
        StepKind::OctalToDecimal => keep(alloc, memory, octal_to_decimal(alloc, value)),
        StepKind::HexToDecimal => keep(alloc, memory, hex_to_decimal(alloc, value)),
        StepKind::InRange => keep(alloc, memory, range(alloc, first, second, value)),
        StepKind::Matches => keep(alloc, memory, match_one(alloc, patterns, place, text)),
        StepKind::NotMatches => keep(alloc, memory, match_none(alloc, patterns, place, text)),
        StepKind::RegexError => keep(alloc, memory, check(alloc, patterns, place, second, text)),
        StepKind::Throttle => throttle(alloc, memory, value, time),
        StepKind::ThrottleHeartbeat => throttle_within(alloc, first, memory, value, time),
        StepKind::JsonPath | StepKind::JsonError => unreachable!(),
    }
}
