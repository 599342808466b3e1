//! Notes that were met.

ghost use Rattle.std.specs.Prelude.{if◌then◌else◌, not, ◌≡◌, ◌==◌, ◌++◌, ◌∷◌, [], IfOk};
ghost use Rattle.std.specs.List.{list_any};

use indexmap::IndexSet;
use std::alloc::Global;
use std::marker::Model;
use zbx_types::OutOfMemory;

/// The notes that were met so far. Contracts see them in their order. One is found without a search over the others.
#[derive(Drop)]
pub(crate) struct Seen {
    met: IndexSet<u32>,
}

impl Model for Seen {
    ghost use Rattle.std.specs.Prelude.{List, ℕ};

    ghost Value = { List ℕ };

    ghost view = { λ s. s.met.keys };
}

impl Seen {
    /// None was met. Takes no memory.
    pub(crate) fn new(alloc: Global) -> Seen
        ensures { result ≡ [] }
    {
        Seen {
            met: IndexSet::new(alloc),
        }
    }

    /// Meets a note, and says whether it is the first time.
    #[tactic(auto, using(crate::proofs::Meeting::met_any, crate::proofs::Meeting::met_push))]
    pub(crate) fn meet(&mut self, note: u32) -> Result<bool, OutOfMemory>
        ensures first { IfOk result (λ first. first ≡ not (list_any (λ n. n == note) self.old)) }
        ensures met { IfOk result (λ first. self.new ≡ (if first then self.old ++ note ∷ [] else self.old)) }
    {
        Ok(self.met.insert(note)?)
    }
}
