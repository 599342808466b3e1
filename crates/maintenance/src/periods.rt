//! Whether a second is in a period of a maintenance.

ghost use Rattle.std.specs.Prelude.{◌≡◌, ◌↔◌, ℤ, ◌≤ℤ◌, ◌<ℤ◌, IsTrue, Any};
ghost use Rattle.local_time.specs.Dates.{IsDayIn};
ghost use Rattle.maintenance.specs.Starts.{IsDailyDay, IsWeeklyDay, IsMonthlyDay, length_of};
ghost use Rattle.maintenance.specs.Force.{IsInDays, IsInPeriod};

use crate::series::{Span, on_days};
use local_time::{date_in, date_of, local_day, monday_of};
use zbx_types::{Conf, Period};

/// Whether the second is in a period of every few days.
fn in_daily(every: u32, at: u32, span: Span) -> bool
    ensures { IsTrue result ↔ IsInDays span (IsDailyDay span.offset span.since every) at }
{
    on_days(
        local_day(span.offset, i64::from(span.since)),
        u64::from(every),
        at,
        span,
    )
}

/// Whether the second is in a period on a weekday of every few weeks: a weekday comes back every seven days.
fn on_weekday(every: u32, weekday: u32, at: u32, span: Span) -> bool
    ensures { IsTrue result ↔ IsInDays span (IsWeeklyDay span.offset span.since every weekday) at }
{
    if weekday == 0 || weekday > 7 {
        return false;
    }
    let monday = monday_of(local_day(span.offset, i64::from(span.since)));
    on_days(
        monday + i64::from(weekday - 1),
        7 * u64::from(every),
        at,
        span,
    )
}

/// Whether the second is in a period on a day of a month, begun in one year.
fn in_year(year: i16, month: u32, number: u32, at: u32, span: Span) -> bool
    ensures { IsTrue result ↔ IsInDays span (IsDayIn year month number) at }
{
    match date_in(year, month, number) {
        Some(date) => on_days(i64::from(date.to_unix_epoch_day()), 0, at, span),
        None => false,
    }
}

/// Whether the second is in a period on a day of a month, begun in a year from one on and before another.
fn in_years(first: i16, end: i16, month: u32, number: u32, at: u32, span: Span) -> bool
    ensures { IsTrue result ↔ ((year : ℤ) × (first ≤ℤ year) × (year <ℤ end) × IsInDays span (IsDayIn year month number) at) }
{
    for year in first..end {
        if in_year(year, month, number, at, span) {
            return true;
        }
    }
    false
}

/// Whether the second is in a period on a day of a month: one that holds the second began in the year of the second, or
/// in one to which its length reaches back.
fn in_month(month: u32, number: u32, at: u32, span: Span) -> bool
    ensures { IsTrue result ↔ IsInDays span (IsMonthlyDay number month) at }
{
    let last = local_day(span.offset, i64::from(span.now) - i64::from(at));
    let first = last - i64::from(span.length / 86400);
    let end = date_of(last).year + 1;
    in_years(date_of(first).year, end, month, number, at, span)
}

/// Whether the second is in a period on weekdays of every few weeks.
fn in_weekly(every: u32, days: &[u32], at: u32, span: Span) -> bool
    ensures { IsTrue result ↔ Any (λ weekday. IsInDays span (IsWeeklyDay span.offset span.since every weekday) at) days.now }
{
    days.iter()
        .any(|weekday| on_weekday(every, *weekday, at, span))
}

/// Whether the second is in a period on a day of months.
fn in_monthly(months: &[u32], number: u32, at: u32, span: Span) -> bool
    ensures { IsTrue result ↔ Any (λ month. IsInDays span (IsMonthlyDay number month) at) months.now }
{
    months
        .iter()
        .any(|month| in_month(*month, number, at, span))
}

/// How many seconds a period lasts.
fn length_of(period: &Period) -> u32
    ensures { result ≡ length_of period.now }
{
    match period {
        Period::Once { length, .. }
        | Period::Daily { length, .. }
        | Period::Weekly { length, .. }
        | Period::Monthly { length, .. } => *length,
    }
}

/// Whether a second is in a period of a maintenance that is active since some second.
pub(crate) fn in_period(conf: &Conf, since: u32, now: u32, period: &Period) -> bool
    ensures { IsTrue result ↔ IsInPeriod conf.now.utc_offset since now period.now }
{
    let span = Span {
        offset: conf.utc_offset,
        since,
        now,
        length: length_of(period),
    };
    match period {
        Period::Once { start, .. } => *start <= now && now - *start < span.length,
        Period::Daily { every, at, .. } => in_daily(*every, *at, span),
        Period::Weekly {
            every,
            days,
            at,
            ..
        } => in_weekly(*every, days.as_slice(), *at, span),
        Period::Monthly {
            months,
            day,
            at,
            ..
        } => in_monthly(months.as_slice(), *day, *at, span),
    }
}
