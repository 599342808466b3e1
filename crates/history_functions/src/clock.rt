//! Functions of the moment and of the local clock.

ghost use Rattle.std.specs.Prelude.{◌≡◌};
ghost use Rattle.jiff_core.specs.Calendar.{IsWithin};
ghost use Rattle.history_functions.specs.Clock.{clock_number, date_number, now_of, time_of, date_of, dayofweek_of, dayofmonth_of};

use crate::values::whole;
use local_time::{Clock, local};
use zbx_types::{Fix, Moment};

/// HHMMSS.
fn clock_number(clock: Clock) -> u64
    ensures { result ≡ clock_number clock }
{
    u64::from(clock.hour) * 10_000 + u64::from(clock.minute) * 100 + u64::from(clock.second)
}

/// YYYYMMDD.
fn date_number(clock: Clock) -> u64
    ensures { result ≡ date_number clock }
{
    u64::from(clock.year) * 10_000 + u64::from(clock.month) * 100 + u64::from(clock.day)
}

/// `now`: the whole seconds of the moment.
pub(crate) fn now(now: Moment) -> Option<Fix>
    ensures { result ≡ now_of now }
{
    whole(u64::from(now.sec))
}

/// `time`: HHMMSS.
pub(crate) fn time(now: Moment, offset: i32) -> Option<Fix>
    requires { IsWithin 50400 offset }
    ensures { result ≡ time_of now offset }
{
    whole(clock_number(local(now, offset)))
}

/// `date`: YYYYMMDD.
pub(crate) fn date(now: Moment, offset: i32) -> Option<Fix>
    requires { IsWithin 50400 offset }
    ensures { result ≡ date_of now offset }
{
    whole(date_number(local(now, offset)))
}

/// `dayofweek`: 1 for Monday to 7.
pub(crate) fn dayofweek(now: Moment, offset: i32) -> Option<Fix>
    requires { IsWithin 50400 offset }
    ensures { result ≡ dayofweek_of now offset }
{
    whole(u64::from(local(now, offset).weekday))
}

/// `dayofmonth`: 1 to 31.
pub(crate) fn dayofmonth(now: Moment, offset: i32) -> Option<Fix>
    requires { IsWithin 50400 offset }
    ensures { result ≡ dayofmonth_of now offset }
{
    whole(u64::from(local(now, offset).day))
}
