//! What the calls of triggers ask for: patterns at their places, and periods that can be counted.

ghost use Rattle.std.specs.Prelude.{◌≡◌, ◌+◌, [], ℕ, All, map, nat_le, slice_index_or, OnOk, IfOk};
ghost use Rattle.std.specs.Bool.{OnTrue};
ghost use Rattle.jiff_core.specs.Calendar.{IsWithin};
ghost use Rattle.zbx_types.specs.Operators.{call_pattern};
ghost use Rattle.history_functions.specs.Matching.{pattern_place};
ghost use Rattle.value_cache.specs.Keeps.{seconds_in, most_seconds};
ghost use Rattle.conf_index.specs.Packed.{row_at};
ghost use Rattle.conf_index.specs.Asked.{places_of, IsAsked, AreAsked, ArePlaced};

use crate::packed::{Packed, pack};
use pattern_set::Patterns;
use std::alloc::Global;
use value_cache::seconds_in;
use zbx_types::{Call, Conf, Many, OutOfMemory, Trigger};

/// Whether the shift and the period of a call can be counted.
fn is_counted(call: &Call) -> bool
    ensures { result ≡ nat_le (call.now.shift + seconds_in call.now.range) most_seconds }
{
    u64::from(call.shift) + u64::from(seconds_in(call.range)) <= 4_294_967_295
}

/// The place of a call's pattern, 0 where it has none. Where the call can't be evaluated, there is no room for it.
#[tactic(auto, using(crate::proofs::Asking::no_pattern, crate::proofs::Asking::pattern_there))]
fn place_of(alloc: Global, call: &Call, patterns: &Patterns) -> Result<u32, OutOfMemory>
    ensures place { IfOk result (λ place. place ≡ pattern_place (call_pattern call.now) patterns.now) }
    ensures asked { OnOk result (IsAsked patterns.now call.now) }
{
    if !is_counted(call) {
        return Err(OutOfMemory);
    }
    match call.pattern(alloc)? {
        None => Ok(0),
        Some(text) => {
            let place = patterns.find(&text);
            if place == 0 {
                return Err(OutOfMemory);
            }
            Ok(place)
        }
    }
}

/// Whether local time differs from UTC by at most 14 hours.
fn is_near(conf: &Conf) -> bool
    ensures { OnTrue result (IsWithin 50400 conf.now.utc_offset) }
{
    let offset = conf.utc_offset;
    -50_400 <= offset && offset <= 50_400
}

/// Where local time differs from UTC by more than 14 hours, there is no room for the configuration.
pub(crate) fn near(conf: &Conf) -> Result<(), OutOfMemory>
    ensures { OnOk result (IsWithin 50400 conf.now.utc_offset) }
{
    if is_near(conf) {
        Ok(())
    } else {
        Err(OutOfMemory)
    }
}

/// The place that a list has at a place, 0 behind its end.
pub(crate) fn place_in(places: &[u32], place: usize) -> u32
    ensures { result ≡ slice_index_or places.now place 0 }
{
    match places.get(place) {
        None => 0,
        Some(found) => *found,
    }
}

/// The places of the patterns of calls.
fn places_of(alloc: Global, calls: &[Call], patterns: &Patterns) -> Result<Many<u32>, OutOfMemory>
    ensures places { IfOk result (λ made. made ≡ map (λ call. pattern_place (call_pattern call) patterns.now)
        calls.now) }
    ensures asked { OnOk result (All (IsAsked patterns.now) calls.now) }
{
    let mut made = Many::new(alloc);
    for call in calls {
        made.push(place_of(alloc, call, patterns)?)?;
    }
    Ok(made)
}

/// The places of the patterns of all calls of triggers.
fn rows_of(
    alloc: Global,
    triggers: &[Trigger],
    patterns: &Patterns,
) -> Result<Vec<Many<u32>>, OutOfMemory>
    ensures rows { IfOk result (λ rows. rows.items ≡ map (places_of patterns.now) triggers.now) }
    ensures asked { OnOk result (AreAsked patterns.now triggers.now) }
{
    let mut rows = Vec::new(alloc);
    for trigger in triggers {
        rows.push(places_of(alloc, trigger.calls.as_slice(), patterns)?)?;
    }
    Ok(rows)
}

/// The places of the patterns of each trigger's calls, by the places of triggers, one list behind another. Where a call
/// can't be evaluated, there is no room for them.
pub(crate) fn places_of_all(
    alloc: Global,
    conf: &Conf,
    patterns: &Patterns,
) -> Result<Packed<u32>, OutOfMemory>
    ensures places { IfOk result (λ made. (number : ℕ)
        → row_at made.starts made.items number ≡ slice_index_or (map (places_of patterns.now) conf.now.triggers)
        number []) }
    ensures asked { OnOk result (ArePlaced patterns.now conf.now) }
{
    let rows = rows_of(alloc, conf.triggers.as_slice(), patterns)?;
    pack(alloc, rows.as_slice())
}
