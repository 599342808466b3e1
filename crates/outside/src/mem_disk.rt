//! A disk in memory, whose images are told for every moment.

ghost use Rattle.std.specs.Prelude.{◌≡◌, ◌-◌, ◌++◌, ◌∷◌, [], length, take, drop, min, is_err, IfOk, OnOk, OnErr};
ghost use Rattle.outside.specs.Calls.{no_calls, one_more, is_listed, FailsWhereListed};
ghost use Rattle.outside.specs.Causes.{HasCause};
ghost use Rattle.outside.specs.Disk.{overwritten};
ghost use Rattle.outside.specs.MemDisk.{seen, KeepsPast, told};
ghost use Rattle.outside.specs.MemDiskLaws.{told_lawful};
ghost use Rattle.outside.specs.declared.mem_disk.Call.TheVariants.{Wrote, Synced};

use crate::calls::CallCount;
use crate::disk::Disk;
use crate::event::Failed;
use crate::memory::copy_front;
use crate::overwriting::{lay, stretch};
use crate::tally::Tally;
use std::alloc::Global;
use std::marker::Model;
use std::mem::replace;
use zbx_types::{Bytes, Many, OutOfMemory};

/// A call that changed a disk, or that made what it held durable.
#[derive(Drop)]
pub enum Call {
    /// A write at a place.
    Wrote { at: u64, bytes: Bytes },
    /// A sync.
    Synced,
}

/// A disk in memory. It keeps what it held at first and each call that wrote or synced, so that what a crash may leave
/// is told for every moment.
///
/// The calls of `len`, `read`, `write_at` and `sync` with the numbers in `fails`, counted together from 1, fail, and so
/// does one that finds no memory. A call that fails changes nothing, and the count of its faults rises.
#[derive(Drop)]
pub struct MemDisk {
    alloc: Global,
    first: Bytes,
    written: Option<Bytes>,
    kept: Many<Call>,
    faults: u64,
    calls: CallCount,
    refused: Tally,
}

impl Model for MemDisk {
    ghost use Rattle.std.specs.Prelude.{◌≡◌, reverse, unwrap_or};
    ghost use Rattle.outside.specs.MemDisk.{Recorded, seen};

    ghost Value = { Recorded };

    ghost view = { λ m. record { first = m.first; past = reverse m.kept; faults = m.faults; calls = m.calls; refused = m.refused } };

    ghost invariant = { λ m. unwrap_or m.written m.first ≡ seen m.first (reverse m.kept) };
}

impl MemDisk {
    /// A disk that holds these bytes, all of them durable. Takes no memory.
    pub fn new(alloc: Global, bytes: Bytes, fails: Many<u64>) -> MemDisk
        ensures { result ≡ record { first = bytes; past = []; faults = 0; calls = no_calls fails; refused = 0 } }
    {
        MemDisk {
            alloc,
            first: bytes,
            written: None,
            kept: Many::new(alloc),
            faults: 0,
            calls: CallCount::new(fails),
            refused: Tally::zero(),
        }
    }

    /// The bytes that it holds.
    pub fn bytes(&self) -> &Bytes
        ensures { result.now ≡ seen self.now.first self.now.past }
    {
        match &self.written {
            Some(bytes) => bytes,
            None => &self.first,
        }
    }

    /// Puts a piece at a place, and keeps the call. All memory is taken first; then the bytes are overwritten where
    /// they lie.
    fn put(&mut self, at: u64, piece: &[u8]) -> Result<(), OutOfMemory>
        ensures ok { OnOk result (self.new ≡ record self.old { past = Wrote at piece.now ∷ self.old.past }) }
        ensures err { OnErr result (self.new ≡ self.old) }
    {
        if self.written.is_none() {
            let copy = Bytes::of(self.alloc, self.first.as_slice())?;
            drop(replace(&mut self.written, Some(copy)));
        }
        match &mut self.written {
            Some(bytes) => put_and_keep(self.alloc, bytes, &mut self.kept, at, piece),
            None => Err(OutOfMemory),
        }
    }
}

/// Puts a piece at a place of these bytes, and keeps the call.
#[tactic(auto, using(crate::proofs::Laid::laid))]
fn put_and_keep(
    alloc: Global,
    bytes: &mut Bytes,
    kept: &mut Many<Call>,
    at: u64,
    piece: &[u8],
) -> Result<(), OutOfMemory>
    ensures bytes { OnOk result (bytes.new ≡ overwritten bytes.old at piece.now) }
    ensures kept { OnOk result (kept.new ≡ kept.old ++ Wrote at piece.now ∷ []) }
    ensures same_bytes { OnErr result (bytes.new ≡ bytes.old) }
    ensures same_kept { OnErr result (kept.new ≡ kept.old) }
{
    let at_place = at as usize;
    let end = at_place.checked_add(piece.len()).ok_or(OutOfMemory)?;
    let copy = Bytes::of(alloc, piece)?;
    let length = bytes.len();
    stretch(alloc, bytes, end)?;
    if kept.push(Call::Wrote { at, bytes: copy }).ok().is_none() {
        bytes.truncate(length);
        return Err(OutOfMemory);
    }
    lay(alloc, bytes, at_place, piece);
    Ok(())
}

impl Disk for MemDisk {
    ghost tells = { told };

    ghost lawful = { told_lawful };

    fn faults(&self) -> u64 {
        self.faults
    }

    /// It fails exactly where its number is among those that are to fail, and so does `read`.
    fn len(&mut self) -> Result<u64, Failed>
        ensures calls { self.new.calls ≡ one_more self.old.calls }
        ensures fails { is_err result ≡ is_listed self.new.calls }
        ensures length { IfOk result (λ n. n ≡ length (seen self.old.first self.old.past)) }
        ensures kept { KeepsPast self.old self.new }
        ensures cause { HasCause self.old.faults self.new.faults result }
    {
        if self.calls.is_failing() {
            self.faults = self.faults.saturating_add(1);
            return Err(Failed);
        }
        Ok(self.bytes().len() as u64)
    }

    /// As many bytes as fit, or all that are left from the place on.
    fn read(&mut self, at: u64, into: &mut [u8]) -> Result<usize, Failed>
        ensures calls { self.new.calls ≡ one_more self.old.calls }
        ensures fails { is_err result ≡ is_listed self.new.calls }
        ensures amount { IfOk result (λ count. count ≡ min (length into.new) (length (seen self.old.first self.old.past) - at)) }
        ensures content { IfOk result (λ count. take count into.new ≡ take count (drop at (seen self.old.first self.old.past))) }
        ensures kept { KeepsPast self.old self.new }
        ensures cause { HasCause self.old.faults self.new.faults result }
    {
        if self.calls.is_failing() {
            self.faults = self.faults.saturating_add(1);
            return Err(Failed);
        }
        let bytes = self.bytes().as_slice();
        let start = bytes.len().min(at as usize);
        Ok(copy_front(&bytes[start..], into))
    }

    /// It fails exactly where its number is among those that are to fail, or memory is refused it, and so does `sync`.
    /// A call that fails writes nothing.
    fn write_at(&mut self, at: u64, piece: &[u8]) -> Result<(), Failed>
        ensures calls { self.new.calls ≡ one_more self.old.calls }
        ensures fails { FailsWhereListed self.new.calls self.old.refused self.new.refused result }
        ensures first { self.new.first ≡ self.old.first }
        ensures kept { OnOk result (self.new.past ≡ Wrote at piece.now ∷ self.old.past) }
        ensures unchanged { OnErr result (self.new.past ≡ self.old.past) }
        ensures cause { HasCause self.old.faults self.new.faults result }
    {
        if self.calls.is_failing() {
            self.faults = self.faults.saturating_add(1);
            return Err(Failed);
        }
        if self.put(at, piece).is_err() {
            self.refused.rise();
            self.faults = self.faults.saturating_add(1);
            return Err(Failed);
        }
        Ok(())
    }

    fn sync(&mut self) -> Result<(), Failed>
        ensures calls { self.new.calls ≡ one_more self.old.calls }
        ensures fails { FailsWhereListed self.new.calls self.old.refused self.new.refused result }
        ensures first { self.new.first ≡ self.old.first }
        ensures kept { OnOk result (self.new.past ≡ Synced ∷ self.old.past) }
        ensures unchanged { OnErr result (self.new.past ≡ self.old.past) }
        ensures cause { HasCause self.old.faults self.new.faults result }
    {
        if self.calls.is_failing() {
            self.faults = self.faults.saturating_add(1);
            return Err(Failed);
        }
        if self.kept.push(Call::Synced).ok().is_none() {
            self.refused.rise();
            self.faults = self.faults.saturating_add(1);
            return Err(Failed);
        }
        Ok(())
    }
}
