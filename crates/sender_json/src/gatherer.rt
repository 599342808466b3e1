//! What is gathered of elements.

ghost use Rattle.std.specs.Prelude.{◌≡◌, List, [], ◌∷◌, ◌++◌, OnOk};

use std::alloc::Global;
use zbx_types::{Many, OutOfMemory};

/// What is gathered of the elements of a body's `data`, one after another, so that none of them need be held. `E` is
/// what is kept of an element until it is added.
pub trait Gatherer<E> {
    /// What is gathered of all elements.
    type Gathered: Drop;

    /// What is gathered of these elements, in order.
    ghost of: { Self → List E → Self.Gathered };

    /// What is gathered of no elements. Takes no memory.
    fn none(&self, alloc: Global) -> Self::Gathered
        ensures { result ≡ of self.now [] };

    /// Gathers an element behind those that were gathered.
    ///
    /// # Errors
    ///
    /// `OutOfMemory` where memory was refused. What was gathered is then to be let go.
    fn add(&self, gathered: &mut Self::Gathered, one: E) -> Result<(), OutOfMemory>
        ensures { OnOk result ((all : List E) → gathered.old ≡ of self.now all
            → gathered.new ≡ of self.now (all ++ one ∷ [])) };
}

/// Gathers a list of all elements.
pub struct Listing;

impl<E: Drop> Gatherer<E> for Listing {
    type Gathered = Many<E>;

    ghost of = { λ _ all. all };

    fn none(&self, alloc: Global) -> Many<E> {
        Many::new(alloc)
    }

    fn add(&self, gathered: &mut Many<E>, one: E) -> Result<(), OutOfMemory> {
        Ok(gathered.push(one)?)
    }
}
