//! Periods of time, and lists of 1 to 16.

ghost use Rattle.zbx_types.specs.Periods.{seconds_up_to};
ghost use Rattle.json_form.specs.Faults.{Gives, GivesAs};
ghost use Rattle.json_form.specs.Places.{place_of, word};
ghost use Rattle.config_read.specs.Ranges.{length_of, step_duration_of, operation_duration_of, item_delay_of, one_to_16};

use json_form::{At, ReadError};
use serde_json::Value;
use std::alloc::Global;
use zbx_types::{Cause, seconds_up_to};

/// The seconds of 31 days.
const LONGEST_LENGTH: u32 = 2_678_400;

/// The seconds of 7 days.
const LONGEST_STEP: u32 = 604_800;

/// The seconds of a day.
const LONGEST_DELAY: u32 = 86_400;

#[tactic(auto, unfolding(json_form::specs::Places::word))]
fn period(alloc: Global, at: &At<'_, '_>, most: u32) -> Result<u32, ReadError>
    ensures { Gives result (word (seconds_up_to most) (place_of at.now)) }
{
    let Some(text) = at.value.and_then(Value::as_str) else {
        return Err(at.refused(alloc, Cause::BadMember));
    };
    match seconds_up_to(most, text.as_bytes()) {
        Some(seconds) => Ok(seconds),
        None => Err(at.refused(alloc, Cause::BadMember)),
    }
}

/// How long a maintenance is in force.
#[tactic(auto, unfolding(crate::specs::Ranges::length_of, crate::specs::Ranges::period_that))]
pub(crate) fn length(alloc: Global, at: &At<'_, '_>) -> Result<u32, ReadError>
    ensures { Gives result (length_of (place_of at.now)) }
{
    let seconds = period(alloc, at, LONGEST_LENGTH)?;
    if seconds < 300 {
        return Err(at.refused(alloc, Cause::BadMember));
    }
    Ok(seconds)
}

/// How long a step of an escalation lasts.
#[tactic(auto, unfolding(crate::specs::Ranges::step_duration_of, crate::specs::Ranges::period_that))]
pub(crate) fn step_duration(alloc: Global, at: &At<'_, '_>) -> Result<u32, ReadError>
    ensures { Gives result (step_duration_of (place_of at.now)) }
{
    let seconds = period(alloc, at, LONGEST_STEP)?;
    if seconds < 60 {
        return Err(at.refused(alloc, Cause::BadMember));
    }
    Ok(seconds)
}

/// How long the steps of an operation last, or 0.
#[tactic(auto, unfolding(crate::specs::Ranges::operation_duration_of, crate::specs::Ranges::period_that))]
pub(crate) fn operation_duration(alloc: Global, at: &At<'_, '_>) -> Result<u32, ReadError>
    ensures { Gives result (operation_duration_of (place_of at.now)) }
{
    let seconds = period(alloc, at, LONGEST_STEP)?;
    if seconds != 0 && seconds < 60 {
        return Err(at.refused(alloc, Cause::BadMember));
    }
    Ok(seconds)
}

/// After how long an agent is to bring the next value of an item.
#[tactic(auto, unfolding(crate::specs::Ranges::item_delay_of, crate::specs::Ranges::period_that))]
pub(crate) fn item_delay(alloc: Global, at: &At<'_, '_>) -> Result<u32, ReadError>
    ensures { Gives result (item_delay_of (place_of at.now)) }
{
    let seconds = period(alloc, at, LONGEST_DELAY)?;
    if seconds < 1 {
        return Err(at.refused(alloc, Cause::BadMember));
    }
    Ok(seconds)
}

/// The same place, where its list has 1 to 16 elements.
#[tactic(auto, unfolding(crate::specs::Ranges::one_to_16))]
pub(crate) fn one_to_16<'p, 'v>(alloc: Global, at: &At<'p, 'v>) -> Result<At<'p, 'v>, ReadError>
    ensures { GivesAs place_of result (one_to_16 (place_of at.now)) }
{
    let some = at.not_empty(alloc)?;
    some.at_most(alloc, 16, Cause::BadMember)
}
