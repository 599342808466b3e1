//! Names of items and of triggers, each with the host that owns it.

ghost use Rattle.std.specs.Prelude.{◌≡◌, ◌++◌, ◌∷◌, [], not, position, if◌then◌else◌, IfOk};
ghost use Rattle.host_layout.specs.Names.{named, is_named, has_named};

use indexmap::IndexSet;
use std::alloc::Global;
use std::marker::Model;
use zbx_types::OutOfMemory;

/// The names of the items of hosts, or of their triggers, each with its host's id. Contracts see them in the order in
/// which they were taken. A name is found without a search over the others.
#[derive(Drop)]
pub struct OwnedNames {
    taken: IndexSet<(u32, String)>,
}

impl Model for OwnedNames {
    ghost use Rattle.std.specs.Prelude.{List, map, string_bytes};
    ghost use Rattle.host_layout.specs.Names.{Named, named};

    ghost Value = { List Named };

    ghost view = { λ n. map (λ k. named k.0 (string_bytes k.1)) n.taken.keys };
}

impl OwnedNames {
    /// No name is taken. Takes no memory.
    pub fn new(alloc: Global) -> OwnedNames
        ensures { result ≡ [] }
    {
        OwnedNames {
            taken: IndexSet::new(alloc),
        }
    }

    /// Takes the host's name if it is free, and says whether it was.
    pub fn take(&mut self, alloc: Global, host: u32, name: &str) -> Result<bool, OutOfMemory>
        ensures free { IfOk result (λ free. free ≡ not (has_named self.old host name.now)) }
        ensures taken { IfOk result (λ free. self.new ≡ (if free then self.old ++ named host name.now ∷ [] else self.old)) }
    {
        let name = String::from_str(alloc, name)?;
        Ok(self.taken.insert((host, name))?)
    }

    /// The place of the host's name, counted from 0.
    pub fn place(&self, alloc: Global, host: u32, name: &str) -> Result<Option<usize>, OutOfMemory>
        ensures { IfOk result (λ place. place ≡ position (is_named host name.now) self.now) }
    {
        let name = String::from_str(alloc, name)?;
        Ok(self.taken.get_index_of(&(host, name)))
    }
}
