//! Sets of ids that are emptied at once.

ghost use Rattle.std.specs.Prelude.{◌≡◌, ◌<◌, ◌≤◌, ◌==◌, ◌||◌, ℕ, false, slice_index, OnOk};
ghost use Rattle.std.specs.List.{list_any};
ghost use Rattle.zbx_types.specs.Masters.{has_id};

use std::alloc::Global;
use zbx_types::OutOfMemory;

/// A set of ids: those whose stamp is the round's number. A new round empties it, and takes no time for that.
#[derive(Drop)]
pub(crate) struct Stamps {
    at: Vec<u64>,
    round: u64,
    ghost below: { (id : ℕ) → slice_index at.items id ≤ round },
    ghost begun: { 0 < round },
}

impl Stamps {
    ghost use Rattle.syncer_gate.specs.Stamped.{is_stamped};

    /// The empty set.
    pub(crate) fn new(alloc: Global) -> Stamps
        ensures { (id : ℕ) → is_stamped result id ≡ false }
    {
        Stamps {
            at: Vec::new(alloc),
            round: 1,
        }
    }

    /// Empties the set.
    pub(crate) fn clear(&mut self)
        ensures { (id : ℕ) → is_stamped self.new id ≡ false }
    {
        if self.round == u64::MAX {
            self.at.clear();
            self.round = 1;
        } else {
            self.round += 1;
        }
    }

    /// Whether an id is in the set.
    pub(crate) fn has(&self, id: u32) -> bool
        ensures { result ≡ is_stamped self.now id }
    {
        match self.at.get(id as usize) {
            None => false,
            Some(stamp) => *stamp == self.round,
        }
    }

    /// Whether one of these ids is in the set.
    pub(crate) fn has_any(&self, ids: &[u32]) -> bool
        ensures { result ≡ list_any (is_stamped self.now) ids.now }
    {
        for id in ids {
            if self.has(*id) {
                return true;
            }
        }
        false
    }

    /// Adds an id.
    pub(crate) fn set(&mut self, id: u32) -> Result<(), OutOfMemory>
        ensures { OnOk result ((x : ℕ) → is_stamped self.new x ≡ (is_stamped self.old x || (id == x))) }
    {
        let place = id as usize;
        if self.at.len() <= place {
            self.at.resize(place + 1, 0)?;
        }
        self.at[place] = self.round;
        Ok(())
    }

    /// Adds these ids.
    pub(crate) fn set_all(&mut self, ids: &[u32]) -> Result<(), OutOfMemory>
        ensures { OnOk result ((x : ℕ) → is_stamped self.new x ≡ (is_stamped self.old x || has_id ids.now x)) }
    {
        for id in ids {
            self.set(*id)?;
        }
        Ok(())
    }
}
