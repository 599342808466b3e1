//! Moments of a wire.

ghost use Rattle.std.specs.Prelude.{◌≡◌, ◌≤◌, ◌⊎◌, IfOk, IfSome, IsErrOf, None, Some, max};
ghost use Rattle.std.specs.Duration.{as_nanos};
ghost use Rattle.wire_mio.specs.Moments.{shown, time_at};

use outside::Failed;
use std::time::{Clock, Duration, SystemTime};
use zbx_types::Moment;

/// For how many seconds the system's time isn't looked at again.
const LOOK_AGAIN: u64 = 60;

/// What both clocks showed at one time: how long it was since 1970, and since the start of the monotonic one.
#[derive(Clone, Copy)]
struct Reading {
    system: Duration,
    monotonic: Duration,
}

impl Reading {
    /// How long it is since 1970, when the monotonic clock shows this: what it counted is added to the system's time. None
    /// where that is more than a clock shows.
    fn time_at(&self, monotonic: Duration) -> Option<Duration>
        ensures { IfSome result (λ time. as_nanos time ≡ time_at (shown self.now) (as_nanos monotonic)) }
    {
        let since = monotonic.saturating_sub(self.monotonic);
        self.system.checked_add(since)
    }
}

/// The clock of a wire. Its moments begin with the system's time, and go on as the monotonic clock does. Once a minute the system's
/// time is looked at, and taken where it is ahead; so where it is put back, moments neither fall nor stand still.
#[derive(Drop)]
pub(crate) struct WireClock {
    reading: Option<Reading>,
    latest: Moment,
}

impl WireClock {
    /// A clock that wasn't asked yet.
    pub(crate) fn new() -> WireClock {
        WireClock {
            reading: None,
            latest: Moment::zero(),
        }
    }

    /// The moment now, which isn't before any that was given. It fails where a clock can't be read, and where the moment stands
    /// behind 2106, or, at the first call, before 1970.
    pub(crate) fn moment<C: Clock>(&mut self, clock: &C) -> Result<Moment, Failed>
        ensures rises { IfOk result (λ at. self.old.latest ≤ at) }
        ensures latest { IfOk result (λ at. self.new.latest ≡ at) }
    {
        let Ok(monotonic) = clock.monotonic() else {
            return Err(Failed);
        };
        let Some(time) = self.time(clock, monotonic) else {
            return Err(Failed);
        };
        let at = self.latest.later(moment_of(time)?);
        self.latest = at;
        Ok(at)
    }

    /// How long it is since 1970, when the monotonic clock shows this.
    fn time<C: Clock>(&mut self, clock: &C, monotonic: Duration) -> Option<Duration>
        ensures { self.new.latest ≡ self.old.latest }
    {
        if let Some(reading) = self.reading {
            if monotonic.saturating_sub(reading.monotonic) < Duration::from_secs(LOOK_AGAIN) {
                return reading.time_at(monotonic);
            }
        }
        let gone_on = match self.reading {
            Some(reading) => reading.time_at(monotonic),
            None => None,
        };
        let system = ahead(gone_on, since_1970(clock))?;
        self.reading = Some(Reading { system, monotonic });
        Some(system)
    }
}

/// The time that has gone on, or that of the system where that is ahead or the only one.
fn ahead(gone_on: Option<Duration>, system: Option<Duration>) -> Option<Duration>
    ensures later { IfSome gone_on (λ time. IfSome result (λ r. as_nanos time ≤ as_nanos r)) }
    ensures either { (result ≡ gone_on) ⊎ (result ≡ system) }
    ensures none { result ≡ None → (gone_on ≡ None) × (system ≡ None) }
{
    match (gone_on, system) {
        (Some(time), Some(later)) if time.as_nanos() < later.as_nanos() => Some(later),
        (None, system) => system,
        (gone_on, _) => gone_on,
    }
}

/// How long it is since 1970 by the system's clock, where that can be read and stands behind 1970.
fn since_1970<C: Clock>(clock: &C) -> Option<Duration> {
    let now = SystemTime::now(clock).ok()?;
    now.duration_since(SystemTime::UNIX_EPOCH).ok()
}

/// The moment at a time since 1970. It fails behind 2106.
fn moment_of(time: Duration) -> Result<Moment, Failed>
    ensures { IfOk result (λ at. at ≡ as_nanos time) }
{
    match u32::try_from(time.as_secs()) {
        Ok(sec) => Ok(Moment {
            sec,
            ns: time.subsec_nanos(),
        }),
        Err(_) => Err(Failed),
    }
}
