//! Moments as numbers of nanoseconds.

ghost use Rattle.std.specs.Prelude.{◌≡◌, ◌≤◌};
ghost use Rattle.alert_queue.specs.Lanes.{greatest};

use zbx_types::Moment;

/// The greatest moment, in nanoseconds.
pub(crate) const GREATEST: u64 = 4_294_967_295_999_999_999;

/// The nanoseconds of a moment.
pub(crate) fn nanoseconds_of(moment: Moment) -> u64
    ensures is { result ≡ moment }
    ensures early { result ≤ greatest }
{
    u64::from(moment.sec) * 1_000_000_000 + u64::from(moment.ns)
}

/// The moment of so many nanoseconds.
pub(crate) fn moment_of(nanoseconds: u64) -> Moment
    requires { nanoseconds ≤ greatest }
    ensures { result ≡ nanoseconds }
{
    Moment {
        sec: (nanoseconds / 1_000_000_000) as u32,
        ns: (nanoseconds % 1_000_000_000) as u32,
    }
}
