//! Rows, which grow at one end and are dropped at the other.

ghost use Rattle.std.specs.Prelude.{◌≡◌, ◌≤◌, ◌<◌, ◌↔◌, IsTrue, [], drop, insert, length, OnOk, OnErr};

use std::alloc::Global;
use std::marker::Model;
use zbx_types::OutOfMemory;

/// A list that gets its items mostly at the end and loses them at the front, each at a constant cost in the mean: what
/// is lost stays where it is until it is half of all, and then goes at once. Contracts see the items in order and how
/// many more there is room for.
#[derive(Drop)]
pub(crate) struct Row<T> {
    items: Vec<T>,
    // how many of them are lost already
    lost: usize,
}

impl<T> Model for Row<T> {
    ghost use Rattle.std.specs.Prelude.{◌-◌, ◌+◌, ◌≤◌, drop};
    ghost use Rattle.std.specs.Vec.{vec_capacity, vec_len};
    ghost use Rattle.zbx_types.specs.Reserved.{Roomy};

    ghost Value = { Roomy T };

    ghost view = { λ r. record { items = drop r.lost r.items.items; room = vec_capacity r.items - vec_len r.items } };

    ghost invariant = { λ r. r.lost + r.lost ≤ vec_len r.items };
}

impl<T: Drop> Row<T> {
    /// The empty row. Takes no memory.
    pub(crate) fn new(alloc: Global) -> Row<T>
        ensures { result.items ≡ [] }
    {
        Row {
            items: Vec::new(alloc),
            lost: 0,
        }
    }

    /// A row of a list's items. Takes no memory.
    pub(crate) fn of(items: Vec<T>) -> Row<T>
        ensures { result.items ≡ items.items }
    {
        Row { items, lost: 0 }
    }

    /// The items.
    pub(crate) fn as_slice(&self) -> &[T]
        ensures { result.now ≡ self.now.items }
    {
        &self.items.as_slice()[self.lost..]
    }

    /// Whether there is room for one more item.
    pub(crate) fn has_room(&self) -> bool
        ensures { IsTrue result ↔ (0 < self.now.room) }
    {
        self.items.len() < self.items.capacity()
    }

    /// Makes room for one more item. At [`OutOfMemory`] the row is as before.
    pub(crate) fn reserve(&mut self) -> Result<(), OutOfMemory>
        ensures room { OnOk result (0 < self.new.room) }
        ensures no_less { self.old.room ≤ self.new.room }
        ensures items { self.new.items ≡ self.old.items }
        ensures err { OnErr result (self.new ≡ self.old) }
    {
        self.items.reserve(1)?;
        Ok(())
    }

    /// Puts an item before the one at a place, or at the end. Takes no memory.
    pub(crate) fn insert(&mut self, place: usize, item: T)
        requires room { 0 < self.old.room }
        requires place { place ≤ length self.old.items }
        ensures { self.new.items ≡ insert self.old.items place item }
    {
        match self.items.insert(self.lost + place, item) {
            Ok(()) => {}
            Err(_) => {}
        }
    }

    /// Drops so many of the first items.
    pub(crate) fn drop_first(&mut self, count: usize)
        requires { count ≤ length self.old.items }
        ensures { self.new.items ≡ drop count self.old.items }
    {
        self.lost += count;
        let left = self.items.len() - self.lost;
        if left <= self.lost {
            self.items.rotate_left(self.lost);
            self.items.truncate(left);
            self.lost = 0;
        }
    }
}
