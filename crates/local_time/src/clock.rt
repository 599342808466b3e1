//! What a local clock shows.

ghost use Rattle.std.specs.Prelude.{◌≡◌, ◌+◌, ◌/◌, ◌<◌, pos};
ghost use Rattle.jiff_core.specs.Calendar.{IsWithin};
ghost use Rattle.jiff_core.specs.Date.{epoch_day, weekday_of};
ghost use Rattle.local_time.specs.Days.{local_day};
ghost use Rattle.local_time.specs.Clock.{second_of_day, year_of, month_of, day_of, clock_at, ShowsDay, ShowsTime};

use crate::days::{date_of, local_day};
use jiff_core::civil::Date;
use zbx_types::Moment;

/// A date and a time of day.
#[derive(Clone, Copy, Debug, PartialEq, Eq)]
pub struct Clock {
    /// The year; of a moment at an offset of at most 14 hours one from 1969 to 2106.
    pub year: u16,
    /// 1 for January to 12.
    pub month: u8,
    /// The number in the month, 1 to 31.
    pub day: u8,
    /// 1 for Monday to 7.
    pub weekday: u8,
    /// 0 to 23.
    pub hour: u8,
    /// 0 to 59.
    pub minute: u8,
    /// 0 to 59.
    pub second: u8,
}

/// The date of the local day of a second.
fn local_date(second: u32, offset: i32) -> Date
    requires { IsWithin 50400 offset }
    ensures day { epoch_day result ≡ local_day offset (pos second) }
    ensures year { result.year ≡ pos (year_of (local_day offset (pos second))) }
    ensures month { result.month ≡ month_of (local_day offset (pos second)) }
    ensures number { result.day ≡ day_of (local_day offset (pos second)) }
{
    date_of(local_day(offset, i64::from(second)))
}

/// The seconds since the midnight of the local day.
fn second_of_day(second: u32, offset: i32) -> u32
    ensures value { result ≡ second_of_day offset (pos second) }
    ensures bound { result < 86400 }
{
    (i64::from(second) + i64::from(offset)).rem_euclid(86_400) as u32
}

/// The weekday of a date, 1 for Monday to 7.
fn weekday(date: Date) -> u8
    ensures { result ≡ weekday_of date + 1 }
{
    date.weekday().to_monday_one_offset() as u8
}

/// What a clock shows at a second.
fn shown(second: u32, offset: i32) -> Clock
    requires { IsWithin 50400 offset }
    ensures value { result ≡ clock_at offset (pos second) }
    ensures date { ShowsDay (local_day offset (pos second)) result }
    ensures time { ShowsTime (second_of_day offset (pos second)) result }
{
    let date = local_date(second, offset);
    let rest = second_of_day(second, offset);
    Clock {
        year: date.year as u16,
        month: date.month,
        day: date.day,
        weekday: weekday(date),
        hour: (rest / 3600) as u8,
        minute: (rest % 3600 / 60) as u8,
        second: (rest % 60) as u8,
    }
}

/// What a clock shows at a moment, where local time is UTC plus an offset in seconds, at most 14 hours (the Zabbix 6.0
/// manual, "Date and time functions", has local time; that it is a fixed offset is this project's own).
pub fn local(moment: Moment, offset: i32) -> Clock
    requires { IsWithin 50400 offset }
    ensures value { result ≡ clock_at offset (pos (moment / 1000000000)) }
    ensures date { ShowsDay (local_day offset (pos (moment / 1000000000))) result }
    ensures time { ShowsTime (second_of_day offset (pos (moment / 1000000000))) result }
{
    shown(moment.sec, offset)
}
