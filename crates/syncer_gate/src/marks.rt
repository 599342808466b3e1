//! Marks of entries.

ghost use Rattle.std.specs.Prelude.{◌≡◌};
ghost use Rattle.syncer_gate.specs.Marks.{is_pending, is_taken, ended, reopened};

/// Where an entry stands.
#[derive(Clone, Copy, Drop)]
pub enum Mark {
    /// Nobody works on it.
    Pending,
    /// Its results are in.
    Applied,
    /// It is in the open batch with this id.
    Taken(u64),
}

impl Mark {
    /// Whether it is in the open batch with this id.
    pub(crate) fn is_taken(self, id: u64) -> bool
        ensures { result ≡ is_taken id self }
    {
        match self {
            Mark::Taken(batch) => batch == id,
            Mark::Pending | Mark::Applied => false,
        }
    }

    /// Whether nobody works on it.
    pub(crate) fn is_pending(self) -> bool
        ensures { result ≡ is_pending self }
    {
        match self {
            Mark::Pending => true,
            Mark::Applied | Mark::Taken(_) => false,
        }
    }

    /// The mark once the batch with this id has ended, so that its entries' marks became another.
    pub(crate) fn ended(self, id: u64, to: Mark) -> Mark
        ensures { result ≡ ended id to self }
    {
        if self.is_taken(id) { to } else { self }
    }

    /// The mark once all batches have ended, so that their entries are pending.
    pub(crate) fn reopened(self) -> Mark
        ensures { result ≡ reopened self }
    {
        match self {
            Mark::Pending | Mark::Taken(_) => Mark::Pending,
            Mark::Applied => Mark::Applied,
        }
    }
}
