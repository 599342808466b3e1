//! Names that are taken.

ghost use Rattle.std.specs.Prelude.{if◌then◌else◌, not, ◌≡◌, ◌++◌, ◌∷◌, [], IfOk, OnErr};
ghost use Rattle.json_form.specs.Places.{has_name};

use indexmap::IndexSet;
use std::alloc::Global;
use std::marker::Model;
use zbx_types::OutOfMemory;

/// The names that are taken so far. Contracts see them in the order in which they were taken. A name is found without
/// a search over the others.
#[derive(Drop)]
pub struct Names {
    taken: IndexSet<String>,
}

impl Model for Names {
    ghost use Rattle.std.specs.Prelude.{List, ℕ, map, string_bytes};

    ghost Value = { List (List ℕ) };

    ghost view = { λ n. map string_bytes n.taken.keys };
}

impl Names {
    /// No name is taken. Takes no memory.
    pub fn new(alloc: Global) -> Names
        ensures { result ≡ [] }
    {
        Names {
            taken: IndexSet::new(alloc),
        }
    }

    /// Takes the name if it is free, and says whether it was. [`OutOfMemory`] where there is no room for it.
    #[tactic(auto, using(crate::proofs::Taken::names_any, crate::proofs::Taken::names_push, crate::proofs::Taken::names_kept))]
    pub fn take(&mut self, alloc: Global, name: &str) -> Result<bool, OutOfMemory>
        ensures free { IfOk result (λ free. free ≡ not (has_name name.now self.old)) }
        ensures taken { IfOk result (λ free. self.new ≡ (if free then self.old ++ name.now ∷ [] else self.old)) }
        ensures err { OnErr result (self.new ≡ self.old) }
    {
        let name = String::from_str(alloc, name)?;
        Ok(self.taken.insert(name)?)
    }
}
