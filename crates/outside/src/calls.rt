//! The calls of the objects in memory.

ghost use Rattle.std.specs.Prelude.{◌≡◌};
ghost use Rattle.outside.specs.Calls.{no_calls, one_more, is_listed};

use std::marker::Model;
use zbx_types::Many;

/// How many calls of an object there were, and the numbers of those that are to fail.
#[derive(Drop)]
pub(crate) struct CallCount {
    fails: Many<u64>,
    made: u64,
}

impl Model for CallCount {
    ghost use Rattle.outside.specs.Calls.{Calls};

    ghost Value = { Calls };

    ghost view = { λ c. record { fails = c.fails; made = c.made } };
}

impl CallCount {
    /// No call yet. Takes no memory.
    pub(crate) fn new(fails: Many<u64>) -> CallCount
        ensures { result ≡ no_calls fails }
    {
        CallCount { fails, made: 0 }
    }

    /// Counts a call, and says whether it is to fail.
    pub(crate) fn is_failing(&mut self) -> bool
        ensures counted { self.new ≡ one_more self.old }
        ensures listed { result ≡ is_listed self.new }
    {
        self.made = self.made.saturating_add(1);
        self.fails.as_slice().contains(&self.made)
    }
}
