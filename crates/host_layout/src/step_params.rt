//! What is wrong with the parameters of preprocessing steps.

ghost use Rattle.std.specs.Prelude.{◌≡◌, ◌≤◌, length, IfOk};
ghost use Rattle.host_layout.specs.Prepared.{path_fault, path_cause, bad_unless, is_empty, is_number, is_bound, rises, bounds};
ghost use Rattle.host_layout.specs.Prepared.{longest_heartbeat, is_heartbeat, first_cause, second_cause, param_cause};
ghost use Rattle.json_path.specs.declared.path.PathError.TheVariants.{At};
ghost use Rattle.zbx_types.specs.Limits.{longest_value};
ghost use Rattle.zbx_types.specs.Periods.{seconds_up_to};

use crate::patterns::is_pattern;
use json_path::{PathError, read};
use std::alloc::Global;
use std::convert::AsStr;
use zbx_types::{Cause, Fix, Many, OutOfMemory, StepKind, Text, seconds_up_to};

/// The most seconds of the period of a heartbeat, 365 days (this project's own).
const LONGEST_HEARTBEAT: u32 = 31_536_000;

/// A bad member, unless this holds.
fn bad_unless(fits: bool) -> Option<Cause>
    ensures { result ≡ bad_unless fits }
{
    if fits { None } else { Some(Cause::BadMember) }
}

/// The place of which an error of reading tells.
fn place_of(error: PathError) -> Result<u32, OutOfMemory>
    ensures { IfOk result (λ at. error ≡ At at) }
{
    match error {
        PathError::At(at) => Ok(at),
        PathError::OutOfMemory => Err(OutOfMemory),
    }
}

/// The place of the first byte of a text where no path goes on, none where it is a path.
#[tactic(auto, using(crate::proofs::PathFaults::path, crate::proofs::PathFaults::told))]
fn path_fault(alloc: Global, text: &Text) -> Result<Option<u32>, OutOfMemory>
    requires { length text.now ≤ longest_value }
    ensures { IfOk result (λ fault. fault ≡ path_fault text.now) }
{
    match read(alloc, text.as_bytes()) {
        Ok(_path) => Ok(None),
        Err(error) => Ok(Some(place_of(error)?)),
    }
}

/// What is wrong with a text that has to be a path.
fn path_cause(alloc: Global, text: &Text) -> Result<Option<Cause>, OutOfMemory>
    requires { length text.now ≤ longest_value }
    ensures { IfOk result (λ cause. cause ≡ path_cause (path_fault text.now)) }
{
    match path_fault(alloc, text)? {
        None => Ok(None),
        Some(at) => Ok(Some(Cause::BadPath { at })),
    }
}

fn is_empty(text: &Text) -> bool
    ensures { result ≡ is_empty text.now }
{
    text.len() == 0
}

fn is_number(text: &Text) -> bool
    ensures { result ≡ is_number text.now }
{
    Fix::read(text.as_bytes()).is_some()
}

/// Whether a text is a number, or no bound is given.
fn is_bound(text: &Text) -> bool
    ensures { result ≡ is_bound text.now }
{
    is_empty(text) || is_number(text)
}

/// Whether the first number isn't above the second, where both are given.
fn rises(low: Option<Fix>, high: Option<Fix>) -> bool
    ensures { result ≡ rises low high }
{
    match (low, high) {
        (Some(low), Some(high)) => low.raw() <= high.raw(),
        _ => true,
    }
}

/// Whether a text is a second bound behind a first one.
fn bounds(low: &Text, high: &Text) -> bool
    ensures { result ≡ bounds low.now high.now }
{
    is_bound(high)
        && !(is_empty(low) && is_empty(high))
        && rises(Fix::read(low.as_bytes()), Fix::read(high.as_bytes()))
}

/// Whether a text is the period of a heartbeat, of 1 second to 365 days.
fn is_heartbeat(text: &Text) -> bool
    ensures { result ≡ is_heartbeat (seconds_up_to longest_heartbeat text.now) }
{
    match seconds_up_to(LONGEST_HEARTBEAT, text.as_bytes()) {
        Some(seconds) => 1 <= seconds,
        None => false,
    }
}

/// What is wrong with the first parameter of a step.
fn first_cause(alloc: Global, kind: StepKind, text: &Text) -> Result<Option<Cause>, OutOfMemory>
    requires { length text.now ≤ longest_value }
    ensures { IfOk result (λ cause. cause ≡ first_cause kind text.now) }
{
    match kind {
        StepKind::Regex | StepKind::Matches | StepKind::NotMatches | StepKind::RegexError => {
            Ok(bad_unless(is_pattern(text.as_str())))
        }
        StepKind::Replace => Ok(bad_unless(!is_empty(text))),
        StepKind::JsonPath | StepKind::JsonError => path_cause(alloc, text),
        StepKind::Multiplier => Ok(bad_unless(is_number(text))),
        StepKind::InRange => Ok(bad_unless(is_bound(text))),
        StepKind::ThrottleHeartbeat => Ok(bad_unless(is_heartbeat(text))),
        _ => Ok(None),
    }
}

/// What is wrong with the second parameter of a step.
fn second_cause(kind: StepKind, first: &Text, text: &Text) -> Option<Cause>
    ensures { result ≡ second_cause kind first.now text.now }
{
    match kind {
        StepKind::InRange => bad_unless(bounds(first, text)),
        _ => None,
    }
}

/// What is wrong with a parameter of a step behind others. `BadMember` for a pattern that hasn't 1 to 255 bytes, an empty
/// text to be replaced, what has to be a number and isn't one, bounds of which none is given or the first is above the
/// second, and a heartbeat that isn't a period of 1 second to 365 days; `BadPath` for what has to be a path and isn't one.
pub(crate) fn param_cause(
    alloc: Global,
    kind: StepKind,
    before: &Many<Text>,
    text: &Text,
) -> Result<Option<Cause>, OutOfMemory>
    requires { length text.now ≤ longest_value }
    ensures { IfOk result (λ cause. cause ≡ param_cause kind before.now text.now) }
{
    match before.as_slice() {
        [] => first_cause(alloc, kind, text),
        [first, ..] => Ok(second_cause(kind, first, text)),
    }
}
