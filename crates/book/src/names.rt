//! The name of a run. Contracts alone know it: a program computes nothing from it.

use std::marker::Brand;

/// Which run it is. Each call of a program picks it, once the ring is made.
pub trait RunName {
    ghost use Rattle.book.specs.Ends.{RingId};

    /// By what its ring is known.
    ghost ring: { RingId };
}

impl RunName for Brand {
    ghost use Rattle.book.specs.Ends.{no_ring};

    ghost ring = { no_ring };
}
