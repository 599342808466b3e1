//! Lists of bytes.

ghost use Rattle.std.specs.Prelude.{◌≡◌, ◌++◌, ◌<◌, [], length, take, slice_set, OnOk, OnErr, IfOk};
ghost use Rattle.std.specs.Fmt.{decimal};

use crate::memory::OutOfMemory;
use std::alloc::Global;
use std::marker::Model;

/// A list of bytes, of any content and length. Contracts see the list, each byte as its number from 0 to 255.
#[derive(Debug, Drop)]
pub struct Bytes {
    bytes: Vec<u8>,
}

impl Model for Bytes {
    ghost use Rattle.std.specs.Prelude.{List, ℕ};

    ghost Value = { List ℕ };

    ghost view = { λ b. b.bytes.items };
}

impl Bytes {
    /// No bytes. Takes no memory.
    pub fn new(alloc: Global) -> Bytes
        ensures { result ≡ [] }
    {
        Bytes {
            bytes: Vec::new(alloc),
        }
    }

    /// A copy of bytes. [`OutOfMemory`] where there is no room for it.
    pub fn of(alloc: Global, bytes: &[u8]) -> Result<Bytes, OutOfMemory>
        ensures { IfOk result (λ made. made ≡ bytes.now) }
    {
        Ok(Bytes {
            bytes: Vec::from_slice(alloc, bytes)?,
        })
    }

    /// The bytes.
    pub fn as_slice(&self) -> &[u8]
        ensures { result.now ≡ self.now }
    {
        self.bytes.as_slice()
    }

    /// How many there are.
    pub fn len(&self) -> usize
        ensures { result ≡ length self.now }
    {
        self.bytes.len()
    }

    /// Adds bytes at the end. At [`OutOfMemory`] the list is as before.
    pub fn extend(&mut self, more: &[u8]) -> Result<(), OutOfMemory>
        ensures ok { OnOk result (self.new ≡ self.old ++ more.now) }
        ensures err { OnErr result (self.new ≡ self.old) }
    {
        self.bytes.extend_from_slice(more)?;
        Ok(())
    }

    /// Adds two pieces at the end, one behind the other. At [`OutOfMemory`] the list is as before: never is one piece
    /// added without the other.
    pub fn extend_both(&mut self, first: &[u8], second: &[u8]) -> Result<(), OutOfMemory>
        ensures ok { OnOk result (self.new ≡ self.old ++ first.now ++ second.now) }
        ensures err { OnErr result (self.new ≡ self.old) }
    {
        self.bytes.reserve(first.len() + second.len())?;
        self.bytes.extend_from_slice(first)?;
        self.bytes.extend_from_slice(second)?;
        Ok(())
    }

    /// Makes room for so many more bytes, so that adding them moves nothing. At [`OutOfMemory`] the list is as before too.
    pub fn reserve(&mut self, more: usize) -> Result<(), OutOfMemory>
        ensures { self.new ≡ self.old }
    {
        self.bytes.reserve(more)?;
        Ok(())
    }

    /// Puts a byte in the place of another. Takes no memory.
    pub fn set(&mut self, at: usize, byte: u8)
        requires { at < length self.old }
        ensures { self.new ≡ slice_set self.old at byte }
    {
        self.bytes[at] = byte;
    }

    /// Adds a number in decimal digits at the end. At [`OutOfMemory`] the list is as before.
    pub fn push_decimal(&mut self, number: u64) -> Result<(), OutOfMemory>
        ensures ok { OnOk result (self.new ≡ self.old ++ decimal number) }
        ensures err { OnErr result (self.new ≡ self.old) }
    {
        let digits = number.to_string(*self.bytes.allocator())?;
        self.extend(digits.as_bytes())
    }

    /// Keeps the first bytes, as many as `length`, or all where there are fewer. Takes no memory.
    pub fn truncate(&mut self, length: usize)
        ensures { self.new ≡ take length self.old }
    {
        self.bytes.truncate(length);
    }

    /// The vector that it was made of. Takes no memory.
    pub fn into_vec(self) -> Vec<u8>
        ensures { result.items ≡ self }
    {
        self.bytes
    }
}

impl From<Vec<u8>> for Bytes {
    ghost use Rattle.std.specs.Prelude.{◌≡◌};

    ghost from_gives = { λ v b. b ≡ v.items };

    fn from(bytes: Vec<u8>) -> Bytes {
        Bytes { bytes }
    }
}
