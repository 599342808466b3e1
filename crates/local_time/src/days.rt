//! Local days at a fixed offset, and dates.

ghost use Rattle.std.specs.Prelude.{◌≡◌, MatchOption};
ghost use Rattle.jiff_core.specs.Calendar.{IsWithin};
ghost use Rattle.jiff_core.specs.Date.{epoch_day};
ghost use Rattle.jiff_core.specs.declared.civil.date.Date.{Date as CoreDate};
ghost use Rattle.local_time.specs.Days.{local_day, second_of, monday_of};
ghost use Rattle.local_time.specs.Dates.{IsDateIn};

use jiff_core::civil::Date;

const DAY: i64 = 86400;

/// The number of the local day that a second is in: 0 for 1 January 1970. The offset is local time less UTC, in
/// seconds; the second counts from 1970-01-01 00:00:00 UTC and may lie before it.
pub fn local_day(offset: i32, second: i64) -> i64
    requires { IsWithin 4294967296 second }
    ensures value { result ≡ local_day offset second }
    ensures bound { IsWithin 100000 result }
{
    (second + i64::from(offset)).div_euclid(DAY)
}

/// The second at which a local day is `at` seconds old.
pub fn second_of(offset: i32, day: i64, at: u32) -> i64
    requires { IsWithin 10000000 day }
    ensures value { result ≡ second_of offset day at }
    ensures bound { IsWithin 1000000000000 result }
{
    day * DAY + i64::from(at) - i64::from(offset)
}

/// The date of a local day.
pub fn date_of(day: i64) -> Date
    requires { IsWithin 1000000 day }
    ensures { epoch_day result ≡ day }
{
    let Ok(date) = Date::from_unix_epoch_day(day) else {
        unreachable!()
    };
    date
}

/// The number of the Monday of a day's week: weeks begin on Monday.
pub fn monday_of(day: i64) -> i64
    requires { IsWithin 100000 day }
    ensures value { result ≡ monday_of day }
    ensures bound { IsWithin 100010 result }
{
    day - i64::from(date_of(day).weekday().to_monday_zero_offset())
}

/// The date with a year, a month (1 for January to 12) and a number in the month, or None where that month doesn't have
/// it.
pub fn date_in(year: i16, month: u32, number: u32) -> Option<Date>
    ensures { MatchOption result ((date : CoreDate) → IsDateIn year month number date → ⊥) (IsDateIn year month number) }
{
    if month > 12 || number > 31 {
        return None;
    }
    Date::new(year, month as i8, number as i8).ok()
}
