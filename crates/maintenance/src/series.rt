//! Seconds that lie a step apart.

ghost use Rattle.std.specs.Prelude.{◌≡◌, ◌↔◌, ℕ, ◌+◌, ◌*◌, ◌≤◌, ◌<◌, IsTrue};
ghost use Rattle.jiff_core.specs.Calendar.{IsWithin};
ghost use Rattle.maintenance.specs.Days.{IsStepFrom};
ghost use Rattle.maintenance.specs.Series.{IsInSeries};
ghost use Rattle.maintenance.specs.Force.{IsWithinLength, IsInDays};

use local_time::second_of;

/// What all kinds of periods have in common: local time less UTC, since when the maintenance is active, the second that
/// is tested, and how long a period lasts, all in seconds.
#[derive(Clone, Copy)]
pub(crate) struct Span {
    pub(crate) offset: i32,
    pub(crate) since: u32,
    pub(crate) now: u32,
    pub(crate) length: u32,
}

/// What is left of a number after the greatest multiple of a step that it reaches. The one multiple of 0 is 0.
fn rest(number: u64, step: u64) -> u64
    ensures multiple { (times : ℕ) × (number ≡ times * step + result) }
    ensures least { (times : ℕ) → times * step ≤ number → times * step + result ≤ number }
{
    if step == 0 { number } else { number % step }
}

/// Whether the second is within the length after a second of a series: the latest one that isn't after it decides.
fn in_series(first: i64, step: u64, span: Span) -> bool
    requires { IsWithin 1000000000000 first }
    ensures { IsTrue result ↔ IsWithinLength (IsInSeries first step span.since) span.length span.now }
{
    let now = i64::from(span.now);
    if now < first {
        return false;
    }
    let late = rest((now - first) as u64, step);
    late < u64::from(span.length) && u64::from(span.since) + late <= u64::from(span.now)
}

/// Whether the second is within the length after a time of day of a day of a series. Days are numbers of local days.
pub(crate) fn on_days(first: i64, step: u64, at: u32, span: Span) -> bool
    requires first { IsWithin 10000000 first }
    requires step { step < 1000000000000 }
    ensures { IsTrue result ↔ IsInDays span (IsStepFrom first step) at }
{
    in_series(second_of(span.offset, first, at), 86400 * step, span)
}
