//! Values that stay away.

ghost use Rattle.std.specs.Prelude.{◌≡◌};
ghost use Rattle.history_functions.specs.Absence.{awaited, nodata_of};

use value_cache::Values;
use zbx_types::{Fix, Moment, Range};

/// Whether a period is over since the first Tick.
fn awaited(seconds: u32, now: Moment, first_tick: Option<Moment>) -> Option<Fix>
    ensures { result ≡ awaited seconds now first_tick }
{
    match first_tick {
        None => None,
        Some(tick) => {
            if now.is_past(tick, seconds) {
                Some(Fix::truth(true))
            } else {
                None
            }
        }
    }
}

/// `nodata`: whether no value came in the period.
pub(crate) fn nodata(
    range: Range,
    window: &Values,
    now: Moment,
    first_tick: Option<Moment>,
) -> Option<Fix>
    ensures { result ≡ nodata_of range window.now now first_tick }
{
    if !window.is_empty() {
        return Some(Fix::truth(false));
    }
    match range {
        Range::Count(_) => None,
        Range::Period(seconds) => awaited(seconds, now, first_tick),
    }
}
