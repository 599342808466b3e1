//! The clock of the system.

use outside::Clock;
use std::time::Duration;
use zbx_types::Moment;

/// The clock of the system, in UTC. It goes back where it is set back; where it can't be read it tells moment 0.
#[derive(Drop)]
pub struct SystemClock<R> {
    rt: R,
}

/// The moment that lies so long behind moment 0, or the last one before 2^32 seconds.
fn moment_of(since: Duration) -> Moment {
    match u32::try_from(since.as_secs()) {
        Ok(sec) => Moment {
            sec,
            ns: since.subsec_nanos(),
        },
        Err(_) => Moment {
            sec: u32::MAX,
            ns: 999_999_999,
        },
    }
}

impl<R: std::time::Clock> SystemClock<R> {
    /// The clock of the system. Takes no memory.
    pub fn new(rt: R) -> SystemClock<R> {
        SystemClock { rt }
    }
}

impl<R: std::time::Clock> Clock for SystemClock<R> {
    fn now(&mut self) -> Moment {
        match self.rt.since_1970() {
            Ok(since) => moment_of(since),
            Err(_) => Moment::zero(),
        }
    }

    /// It sleeps until then. Where the clock is set back meanwhile, the moment that it tells may be an earlier one.
    fn rest(&mut self, until: Moment) -> Moment {
        let now = self.now();
        std::thread::sleep(&self.rt, Duration::from_nanos(until.since(now)));
        self.now()
    }
}

#[cfg(test)]
mod tests {
    use super::*;
    use std::test::Fail;

    #[test]
    fn a_rest_lasts_until_its_moment(rt: HostRuntime) -> Result<(), Fail> {
        let mut clock = SystemClock::new(&rt);
        let now = clock.now();
        assert!(rt; 1_600_000_000 < now.sec);
        let until = Moment {
            sec: now.sec.saturating_add(1),
            ns: now.ns,
        };
        let then = clock.rest(until);
        assert!(rt; until <= then);
        assert!(rt; then.sec < now.sec.saturating_add(30));
        assert!(rt; then <= clock.rest(now));
        Ok(())
    }
}
