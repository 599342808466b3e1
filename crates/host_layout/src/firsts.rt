//! Names of hosts and templates.

ghost use Rattle.std.specs.Prelude.{◌≡◌, ℕ, List, Some, None, if◌then◌else◌, OnOk};
ghost use Rattle.std.specs.Option.{option_or};
ghost use Rattle.std.specs.Str.{bytes_eq};
ghost use Rattle.host_layout.specs.Firsts.{place_in};

use indexmap::IndexMap;
use std::alloc::Global;
use zbx_types::OutOfMemory;

/// For each name of a list the place where it stands first, counted from 0. A name is found without a search over the
/// others.
#[derive(Drop)]
pub struct FirstPlaces {
    pub first: IndexMap<Vec<u8>, usize>,
}

impl FirstPlaces {
    /// Those of the empty list. Takes no memory.
    pub(crate) fn new(alloc: Global) -> FirstPlaces
        ensures { (sought : List ℕ) → place_in result sought ≡ None }
    {
        FirstPlaces {
            first: IndexMap::new(alloc),
        }
    }

    /// Adds the name that stands at this place, behind the names that were added before.
    pub(crate) fn add(
        &mut self,
        alloc: Global,
        name: &[u8],
        place: usize,
    ) -> Result<(), OutOfMemory>
        ensures { OnOk result ((sought : List ℕ) → place_in self.new sought ≡ option_or (place_in self.old sought) (if bytes_eq name.now sought then Some place else None)) }
    {
        if self.first.contains_key(name) {
            return Ok(());
        }
        let name = Vec::from_slice(alloc, name)?;
        self.first.insert(name, place)?;
        Ok(())
    }

    /// The place where the name stands first, if it stands among them.
    pub fn place(&self, name: &[u8]) -> Option<usize>
        ensures { result ≡ place_in self.now name.now }
    {
        self.first.get(name).copied()
    }
}
