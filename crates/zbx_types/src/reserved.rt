//! Lists with room.

ghost use Rattle.std.specs.Prelude.{◌≡◌, ◌≤◌, ◌<◌, ◌+◌, ◌-◌, ◌++◌, ◌∷◌, [], OnOk};

use crate::many::Many;
use crate::memory::OutOfMemory;
use std::alloc::Global;
use std::marker::Model;

/// A list with room for further items: adding one within the room takes no memory and can't fail. Contracts see its items
/// in order and how many more there is room for.
#[derive(Drop)]
pub struct Reserved<T> {
    items: Vec<T>,
}

impl<T> Model for Reserved<T> {
    ghost use Rattle.std.specs.Prelude.{◌-◌};
    ghost use Rattle.std.specs.Vec.{vec_capacity, vec_len};
    ghost use Rattle.zbx_types.specs.Reserved.{Roomy};

    ghost Value = { Roomy T };

    ghost view = { λ r. record { items = r.items.items; room = vec_capacity r.items - vec_len r.items } };
}

impl<T> Reserved<T> {
    /// The empty list. Takes no memory.
    pub fn new(alloc: Global) -> Reserved<T>
        ensures { result.items ≡ [] }
    {
        Reserved {
            items: Vec::new(alloc),
        }
    }

    /// Makes room for so many more items. At [`OutOfMemory`] the list is as before.
    pub fn reserve(&mut self, more: usize) -> Result<(), OutOfMemory>
        ensures room { OnOk result (more ≤ self.new.room) }
        ensures no_less { self.old.room ≤ self.new.room }
        ensures items { self.new.items ≡ self.old.items }
    {
        self.items.reserve(more)?;
        Ok(())
    }

    /// Adds an item at the end. Takes no memory.
    pub fn push(&mut self, item: T)
        requires { 0 < self.old.room }
        ensures items { self.new.items ≡ self.old.items ++ item ∷ [] }
        ensures room { self.new.room ≡ self.old.room - 1 }
    {
        self.items.push_reserved(item);
    }

    /// The items.
    pub fn as_slice(&self) -> &[T]
        ensures { result.now ≡ self.now.items }
    {
        self.items.as_slice()
    }

    /// The list without its room. Takes no memory.
    pub fn into_many(self) -> Many<T>
        ensures { result ≡ self.items }
    {
        Many::from_vec(self.items)
    }
}
