//! A disk in memory that keeps its bytes alone.

ghost use Rattle.std.specs.Prelude.{◌≡◌, ◌+◌, ◌-◌, [], length, take, drop, min, IsOk, IfOk, OnOk, OnErr};
ghost use Rattle.outside.specs.Causes.{HasCause};
ghost use Rattle.outside.specs.Disk.{overwritten, silent, silent_lawful};

use crate::disk::Disk;
use crate::event::Failed;
use crate::memory::copy_front;
use crate::overwriting::{lay, stretch};
use crate::tally::Tally;
use std::alloc::Global;
use std::marker::Model;
use zbx_types::{Bytes, OutOfMemory};

/// A disk in memory that keeps its bytes and no calls, for a run whose journal needn't stay. It tells neither its
/// bytes nor what a crash leaves, which is nothing.
///
/// A write fails where it finds no memory, and changes nothing then; the count of its faults rises. No other call fails.
#[derive(Drop)]
pub struct RamDisk {
    alloc: Global,
    bytes: Bytes,
    faults: u64,
    refused: Tally,
}

impl Model for RamDisk {
    ghost use Rattle.outside.specs.MemDisk.{Bare};

    ghost Value = { Bare };

    ghost view = { λ m. record { bytes = m.bytes; faults = m.faults; refused = m.refused } };
}

impl RamDisk {
    /// A disk of no bytes. Takes no memory.
    pub fn new(alloc: Global) -> RamDisk
        ensures { result ≡ record { bytes = []; faults = 0; refused = 0 } }
    {
        RamDisk {
            alloc,
            bytes: Bytes::new(alloc),
            faults: 0,
            refused: Tally::zero(),
        }
    }

    /// The bytes that it holds.
    pub fn bytes(&self) -> &Bytes
        ensures { result.now ≡ self.now.bytes }
    {
        &self.bytes
    }
}

/// Puts a piece at a place of these bytes, over what is there and past the end; a gap is filled with zeros. All memory
/// is taken first; then the bytes are overwritten where they lie.
#[tactic(auto, using(crate::proofs::Laid::laid))]
fn put(alloc: Global, bytes: &mut Bytes, at: u64, piece: &[u8]) -> Result<(), OutOfMemory>
    ensures ok { OnOk result (bytes.new ≡ overwritten bytes.old at piece.now) }
    ensures err { OnErr result (bytes.new ≡ bytes.old) }
{
    let place = at as usize;
    let end = place.checked_add(piece.len()).ok_or(OutOfMemory)?;
    stretch(alloc, bytes, end)?;
    lay(alloc, bytes, place, piece);
    Ok(())
}

impl Disk for RamDisk {
    ghost tells = { λ m. silent m.faults };

    ghost lawful = { λ m. silent_lawful m.faults };

    fn faults(&self) -> u64 {
        self.faults
    }

    fn len(&mut self) -> Result<u64, Failed>
        ensures ok { IsOk result }
        ensures length { IfOk result (λ n. n ≡ length self.old.bytes) }
        ensures kept { self.new ≡ self.old }
    {
        Ok(self.bytes.len() as u64)
    }

    fn read(&mut self, at: u64, into: &mut [u8]) -> Result<usize, Failed>
        ensures ok { IsOk result }
        ensures amount { IfOk result (λ count. count ≡ min (length into.new) (length self.old.bytes - at)) }
        ensures content { IfOk result (λ count. take count into.new ≡ take count (drop at self.old.bytes)) }
        ensures kept { self.new ≡ self.old }
    {
        let bytes = self.bytes.as_slice();
        let start = bytes.len().min(at as usize);
        Ok(copy_front(&bytes[start..], into))
    }

    /// It fails only where memory is refused it.
    fn write_at(&mut self, at: u64, piece: &[u8]) -> Result<(), Failed>
        ensures written { OnOk result (self.new.bytes ≡ overwritten self.old.bytes at piece.now) }
        ensures granted { OnOk result (self.new.refused ≡ self.old.refused) }
        ensures unchanged { OnErr result (self.new.bytes ≡ self.old.bytes) }
        ensures refused { OnErr result (self.new.refused ≡ self.old.refused + 1) }
        ensures cause { HasCause self.old.faults self.new.faults result }
    {
        if put(self.alloc, &mut self.bytes, at, piece).is_err() {
            self.refused.rise();
            self.faults = self.faults.saturating_add(1);
            return Err(Failed);
        }
        Ok(())
    }

    fn sync(&mut self) -> Result<(), Failed>
        ensures ok { IsOk result }
        ensures kept { self.new ≡ self.old }
    {
        Ok(())
    }
}
