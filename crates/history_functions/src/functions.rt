//! The value of a call.

ghost use Rattle.std.specs.Prelude.{◌≡◌, IfOk, IfSome, Contains};
ghost use Rattle.jiff_core.specs.Calendar.{IsWithin};
ghost use Rattle.zbx_types.specs.Ids.{at_id};
ghost use Rattle.zbx_types.specs.Operators.{call_pattern};
ghost use Rattle.history_functions.specs.Values.{numbers};
ghost use Rattle.history_functions.specs.Functions.{of_numbers, of_clock, value_of};

use crate::absence::nodata;
use crate::changes::{change, changecount, monodec, monoinc};
use crate::clock::{date, dayofmonth, dayofweek, now, time};
use crate::matching::{count, find};
use crate::numbers::{avg, first, last, max, min, sum};
use crate::patterned::pattern_place;
use crate::ranks::percentile;
use crate::values::numbers;
use pattern_set::Patterns;
use std::alloc::Global;
use value_cache::Values;
use zbx_types::{Call, Fix, Fun, Moment, OutOfMemory, Stored};

/// The functions of the numbers of a window. Those that look at neighbours or ranks take a list of the numbers, and the
/// others no memory.
fn of_numbers(alloc: Global, call: &Call, window: &Values) -> Result<Option<Fix>, OutOfMemory>
    ensures { IfOk result (λ v. v ≡ of_numbers call.now.fun call.now (numbers window.now)) }
{
    match call.fun {
        Fun::Last => Ok(last(call.range, window)),
        Fun::First => Ok(first(window)),
        Fun::Min => Ok(min(window)),
        Fun::Max => Ok(max(window)),
        Fun::Avg => avg(window),
        Fun::Sum => sum(window),
        Fun::Percentile => {
            let numbers = numbers(alloc, window)?;
            percentile(alloc, call.op.as_bytes(), numbers.as_slice())
        }
        Fun::MonoInc => {
            let numbers = numbers(alloc, window)?;
            Ok(monoinc(call.op.as_bytes(), numbers.as_slice()))
        }
        Fun::MonoDec => {
            let numbers = numbers(alloc, window)?;
            Ok(monodec(call.op.as_bytes(), numbers.as_slice()))
        }
        Fun::Change
        | Fun::Count
        | Fun::Find
        | Fun::NoData
        | Fun::ChangeCount
        | Fun::Now
        | Fun::Time
        | Fun::Date
        | Fun::DayOfWeek
        | Fun::DayOfMonth => Ok(None),
    }
}

/// The functions of the moment.
fn of_clock(fun: Fun, moment: Moment, offset: i32) -> Option<Fix>
    requires { IsWithin 50400 offset }
    ensures { result ≡ of_clock fun moment offset }
{
    match fun {
        Fun::Now => now(moment),
        Fun::Time => time(moment, offset),
        Fun::Date => date(moment, offset),
        Fun::DayOfWeek => dayofweek(moment, offset),
        Fun::DayOfMonth => dayofmonth(moment, offset),
        Fun::Last
        | Fun::First
        | Fun::Min
        | Fun::Max
        | Fun::Avg
        | Fun::Sum
        | Fun::Change
        | Fun::Count
        | Fun::Find
        | Fun::NoData
        | Fun::Percentile
        | Fun::ChangeCount
        | Fun::MonoInc
        | Fun::MonoDec => None,
    }
}

/// The value of a call (the Zabbix 6.0 manual, "Supported functions"), or None where it is unknown.
///
/// `window` holds the values that the call's range and shift name, oldest first; `now` is the moment of the evaluation,
/// `first_tick` that of the first Tick of the run, and `offset` the local time's offset from UTC in seconds, at most 14
/// hours. `patterns` holds the pattern of a call of `count` or `find` with the operator `regexp` or `iregexp`, of the
/// latter its text after `(?i)`. The rules are those that the crate's comment tells.
///
/// [`OutOfMemory`] comes where there is no room for the numbers of the window or for a search, and for sums of more
/// than 10^8 numbers.
pub fn value(
    alloc: Global,
    call: &Call,
    window: &[Stored],
    now: Moment,
    first_tick: Option<Moment>,
    offset: i32,
    patterns: &Patterns,
) -> Result<Option<Fix>, OutOfMemory>
    requires offset { IsWithin 50400 offset }
    requires pattern { IfSome (call_pattern call.now) (Contains patterns.now) }
    ensures { IfOk result (λ v. v ≡ value_of call.now window.now now first_tick offset) }
{
    let place = pattern_place(alloc, call, patterns)?;
    let window = Values::plain(window);
    value_at(
        alloc, call, place, &window, now, first_tick, offset, patterns,
    )
}

/// The same as [`value`] gives, over values where they stand, and where the call's pattern stands at `place` among
/// `patterns`, and isn't sought for: 0 where it has none. [`pattern_place`](crate::pattern_place) tells the place.
///
/// No value is copied. Memory is taken by `percentile`, `monoinc` and `monodec`, for the numbers of the window, and by
/// `count` and `find` with a pattern.
#[tactic(auto, unfolding(crate::specs::Functions::value_of, zbx_types::specs::Operators::call_pattern))]
pub fn value_at(
    alloc: Global,
    call: &Call,
    place: u32,
    window: &Values,
    now: Moment,
    first_tick: Option<Moment>,
    offset: i32,
    patterns: &Patterns,
) -> Result<Option<Fix>, OutOfMemory>
    requires offset { IsWithin 50400 offset }
    requires place { at_id patterns.now place ≡ call_pattern call.now }
    ensures { IfOk result (λ v. v ≡ value_of call.now window.now now first_tick offset) }
{
    match call.fun {
        Fun::Change => Ok(change(window)),
        Fun::ChangeCount => Ok(changecount(call.op.as_bytes(), window)),
        Fun::Count => count(alloc, &call.op, &call.arg, place, window, patterns),
        Fun::Find => find(alloc, &call.op, &call.arg, place, window, patterns),
        Fun::NoData => Ok(nodata(call.range, window, now, first_tick)),
        Fun::Now | Fun::Time | Fun::Date | Fun::DayOfWeek | Fun::DayOfMonth => {
            Ok(of_clock(call.fun, now, offset))
        }
        Fun::Last
        | Fun::First
        | Fun::Min
        | Fun::Max
        | Fun::Avg
        | Fun::Sum
        | Fun::Percentile
        | Fun::MonoInc
        | Fun::MonoDec => of_numbers(alloc, call, window),
    }
}
