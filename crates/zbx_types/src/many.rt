//! Lists.

ghost use Rattle.std.specs.Prelude.{◌≡◌, ◌++◌, ◌∷◌, [], length, OnOk, OnErr, IfOk, IfErr};

use crate::memory::OutOfMemory;
use crate::text::Text;
use std::alloc::{AllocFailed, Global};
use std::marker::Model;

/// A list of any length. Contracts see its items in order.
#[derive(Debug, Drop)]
pub struct Many<T> {
    items: Vec<T>,
}

impl<T> Model for Many<T> {
    ghost use Rattle.std.specs.Prelude.{List};

    ghost Value = { List T };

    ghost view = { λ m. m.items.items };
}

impl<T> Many<T> {
    /// The empty list. Takes no memory.
    pub fn new(alloc: Global) -> Many<T>
        ensures { result ≡ [] }
    {
        Many {
            items: Vec::new(alloc),
        }
    }

    /// The items.
    pub fn as_slice(&self) -> &[T]
        ensures { result.now ≡ self.now }
    {
        self.items.as_slice()
    }

    /// How many there are.
    pub fn len(&self) -> usize
        ensures { result ≡ length self.now }
    {
        self.items.len()
    }

    /// Adds an item at the end. Where there is no room the list is as before, and the item comes back in the error.
    /// `?` turns that error into [`OutOfMemory`] where the item may be dropped.
    pub fn push(&mut self, item: T) -> Result<(), AllocFailed<T>>
        ensures ok { OnOk result (self.new ≡ self.old ++ item ∷ []) }
        ensures err { IfErr result (λ failed. failed.value ≡ item) }
        ensures same { OnErr result (self.new ≡ self.old) }
    {
        self.items.push(item)
    }

    /// The vector that it was made of. Takes no memory.
    pub fn into_vec(self) -> Vec<T>
        ensures { result.items ≡ self }
    {
        self.items
    }

    /// A list of a vector's items. Takes no memory.
    pub fn from_vec(items: Vec<T>) -> Many<T>
        ensures { result ≡ items.items }
    {
        Many { items }
    }
}

impl<T: Drop> Many<T> {
    /// Moves a list's items to the end. At [`OutOfMemory`] the list is as before, and what was to be added is gone.
    pub fn append(&mut self, more: Many<T>) -> Result<(), OutOfMemory>
        ensures ok { OnOk result (self.new ≡ self.old ++ more) }
        ensures err { OnErr result (self.new ≡ self.old) }
    {
        let mut items = more.items;
        self.items.append(&mut items)?;
        Ok(())
    }
}

impl<T: Copy> Many<T> {
    /// A copy. [`OutOfMemory`] where there is no room for it.
    pub fn copy(&self, alloc: Global) -> Result<Many<T>, OutOfMemory>
        ensures { IfOk result (λ made. made ≡ self.now) }
    {
        Ok(Many {
            items: Vec::from_slice(alloc, self.items.as_slice())?,
        })
    }
}

/// A copy of a list of texts, each text copied. [`OutOfMemory`] where there is no room for all of them.
pub fn copy_texts(alloc: Global, texts: &Many<Text>) -> Result<Many<Text>, OutOfMemory>
    ensures { IfOk result (λ made. made ≡ texts.now) }
{
    let mut made = Many::new(alloc);
    for text in texts.as_slice() {
        made.push(text.copy(alloc)?)?;
    }
    Ok(made)
}
