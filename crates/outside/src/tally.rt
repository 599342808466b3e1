//! Counts that only contracts read.

ghost use Rattle.std.specs.Prelude.{◌≡◌, ◌+◌};

use std::marker::Model;
use std::snapshot::Snapshot;

/// A count that only contracts read: no call asks for it. It has no last value, and rising takes no memory.
///
/// It remembers, for contracts alone, the count before it, and is one more.
#[derive(Drop)]
pub struct Tally {
    before: Option<Snapshot<Tally>>,
}

impl Model for Tally {
    ghost use Rattle.std.specs.Prelude.{ℕ};

    ghost Value = { ℕ };

    ghost use Rattle.outside.specs.Tallies.{one_more};

    ghost view = { λ t. one_more t.before };

    ghost size = { λ n. n };

    ghost use Rattle.std.proofs.Common.{arith};

    ghost size_decreases = { λ a h. Prim.grind arith };
}

impl Tally {
    /// The count of nothing.
    pub fn zero() -> Tally
        ensures { result ≡ 0 }
    {
        Tally { before: None }
    }

    /// Counts one more.
    pub fn rise(&mut self)
        ensures { self.new ≡ self.old + 1 }
    {
        let before = Some(Snapshot::of(self));
        *self = Tally { before };
    }
}
