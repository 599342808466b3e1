//! Dates and times of day as messages show them.

ghost use Rattle.std.specs.Prelude.{◌≡◌, ◌++◌, ◌∷◌, ◌<◌, [], OnOk};
ghost use Rattle.jiff_core.specs.Calendar.{IsWithin};
ghost use Rattle.zbx_types.specs.Digits.{digit_at};
ghost use Rattle.event_text.specs.Messages.{two_digits, four_digits, date_of, time_of, offset_of, shown_at};

use local_time::{Clock, local};
use zbx_types::{Conf, Moment, OutOfMemory, Text};

/// A digit of a number, at a power of ten.
fn digit(number: u64, power: u64) -> &'static str
    requires { 0 < power }
    ensures { result.now ≡ digit_at number power ∷ [] }
{
    match number / power % 10 {
        0 => "0",
        1 => "1",
        2 => "2",
        3 => "3",
        4 => "4",
        5 => "5",
        6 => "6",
        7 => "7",
        8 => "8",
        _ => "9",
    }
}

/// Adds a number in two digits.
fn put_two(number: u64, made: &mut Text) -> Result<(), OutOfMemory>
    ensures { OnOk result (made.new ≡ made.old ++ two_digits number) }
{
    made.push_str(digit(number, 10))?;
    made.push_str(digit(number, 1))
}

/// Adds a number in four digits.
fn put_four(number: u64, made: &mut Text) -> Result<(), OutOfMemory>
    ensures { OnOk result (made.new ≡ made.old ++ four_digits number) }
{
    made.push_str(digit(number, 1000))?;
    made.push_str(digit(number, 100))?;
    made.push_str(digit(number, 10))?;
    made.push_str(digit(number, 1))
}

/// Adds the date that a clock shows.
pub(crate) fn put_date(clock: Clock, made: &mut Text) -> Result<(), OutOfMemory>
    ensures { OnOk result (made.new ≡ made.old ++ date_of clock) }
{
    put_four(u64::from(clock.year), made)?;
    made.push_str(".")?;
    put_two(u64::from(clock.month), made)?;
    made.push_str(".")?;
    put_two(u64::from(clock.day), made)
}

/// Adds the time of day that a clock shows.
pub(crate) fn put_time(clock: Clock, made: &mut Text) -> Result<(), OutOfMemory>
    ensures { OnOk result (made.new ≡ made.old ++ time_of clock) }
{
    put_two(u64::from(clock.hour), made)?;
    made.push_str(":")?;
    put_two(u64::from(clock.minute), made)?;
    made.push_str(":")?;
    put_two(u64::from(clock.second), made)
}

/// Local time less UTC, in seconds.
fn offset_of(conf: &Conf) -> i32
    ensures value { result ≡ offset_of conf.now }
    ensures within { IsWithin 50400 result }
{
    let offset = conf.utc_offset;
    if -50_400 <= offset && offset <= 50_400 {
        offset
    } else {
        0
    }
}

/// What the local clock shows at a moment.
#[tactic(auto, unfolding(crate::specs::Messages::shown_at))]
pub(crate) fn shown_at(conf: &Conf, moment: Moment) -> Clock
    ensures { result ≡ shown_at conf.now moment }
{
    local(moment, offset_of(conf))
}
