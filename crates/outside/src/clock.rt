//! The trait of a clock, and a clock in memory.

ghost use Rattle.std.specs.Prelude.{◌≡◌, max};

use std::marker::Model;
use zbx_types::Moment;

/// A clock that can be waited for. It may go back, as the system's does where it is set: who asks it takes the latest
/// moment that it has told.
pub trait Clock {
    /// The moment now.
    fn now(&mut self) -> Moment;

    /// Waits until a moment, and answers the moment then. It counts as at least that one, whatever is answered.
    fn rest(&mut self, until: Moment) -> Moment;
}

/// A clock in memory, that goes on only where it is waited for.
#[derive(Drop)]
pub struct MemClock {
    at: Moment,
}

impl Model for MemClock {
    ghost use Rattle.std.specs.Prelude.{ℕ};

    ghost Value = { ℕ };

    ghost view = { λ c. c.at };
}

impl MemClock {
    /// A clock that stands at a moment.
    pub fn new(at: Moment) -> MemClock
        ensures { result ≡ at }
    {
        MemClock { at }
    }
}

impl Clock for MemClock {
    /// It stays.
    fn now(&mut self) -> Moment
        ensures told { result ≡ self.old }
        ensures same { self.new ≡ self.old }
    {
        self.at
    }

    /// It goes on to that moment, if that one is later.
    fn rest(&mut self, until: Moment) -> Moment
        ensures told { result ≡ max self.old until }
        ensures moved { self.new ≡ result }
    {
        self.at = self.at.later(until);
        self.at
    }
}
