//! The trait of a disk: bytes that stay, and what a crash may leave of them.
//!
//! A crash leaves one of the disk's images. After a sync that succeeded that is what a read gives; since then each
//! range that was written, and what lies past the old end, may hold any bytes. The images of earlier moments are told
//! too, so that a contract can speak of each moment inside a call. A disk that doesn't tell its bytes has no images,
//! and meets the same clauses without saying anything.

ghost use Rattle.std.specs.Prelude.{◌≡◌, ◌≤◌, ◌<◌, length, take, drop, Some, IfSome, is_some, IfOk, OnOk};
ghost use Rattle.outside.specs.Causes.{HasCause};
ghost use Rattle.outside.specs.Disk.{DiskTells, IsLawful, overwritten, Torn, Follows, AddsNothing, Only, Elapses};

use crate::event::Failed;

/// Somewhere that bytes are kept and stay, as a journal's file.
pub trait Disk {
    /// The bytes that a read gives, what a crash may leave, now and at earlier moments, and how often it has failed.
    ghost tells: { Self → DiskTells };

    /// How often it has failed. The count stays at 2^64 - 1.
    fn faults(&self) -> u64
        ensures { result ≡ (tells self.now).faults };

    /// How many bytes it holds.
    ///
    /// At `Err`, here and below, the count of its faults rises.
    fn len(&mut self) -> Result<u64, Failed>
        ensures length { IfOk result (λ n. IfSome (tells self.old).bytes (λ b. n ≡ length b)) }
        ensures bytes { (tells self.new).bytes ≡ (tells self.old).bytes }
        ensures crash { AddsNothing (tells self.old) (tells self.new) }
        ensures time { Elapses (tells self.old) (tells self.new) }
        ensures cause { HasCause (tells self.old).faults (tells self.new).faults result };

    /// Puts bytes from a place on into the front of a slice, at least one where there is one, and answers how many.
    /// 0 for a slice that isn't empty is the end.
    fn read(&mut self, at: u64, into: &mut [u8]) -> Result<usize, Failed>
        ensures bound { IfOk result (λ count. count ≤ length into.new) }
        ensures content { IfOk result (λ count. IfSome (tells self.old).bytes (λ b. take count into.new ≡ take count (drop at b))) }
        ensures end { IfOk result (λ count. count ≡ 0 → 0 < length into.new → IfSome (tells self.old).bytes (λ b. length b ≤ at)) }
        ensures bytes { (tells self.new).bytes ≡ (tells self.old).bytes }
        ensures crash { AddsNothing (tells self.old) (tells self.new) }
        ensures time { Elapses (tells self.old) (tells self.new) }
        ensures cause { HasCause (tells self.old).faults (tells self.new).faults result };

    /// Puts a piece at a place, over what is there and past the end. A gap behind the end is filled with zeros.
    ///
    /// At `Err` some of it may be written. A disk whose number of bytes could pass 2^64 - 1 fails in place of it.
    fn write_at(&mut self, at: u64, piece: &[u8]) -> Result<(), Failed>
        ensures written { OnOk result (IfSome (tells self.old).bytes (λ b. (tells self.new).bytes ≡ Some (overwritten b at piece.now))) }
        ensures told { is_some (tells self.new).bytes ≡ is_some (tells self.old).bytes }
        ensures crash { Follows (Torn at (length piece.now)) (tells self.old) (tells self.new) }
        ensures time { Elapses (tells self.old) (tells self.new) }
        ensures cause { HasCause (tells self.old).faults (tells self.new).faults result };

    /// Waits until what was written is kept through a crash.
    fn sync(&mut self) -> Result<(), Failed>
        ensures durable { OnOk result (IfSome (tells self.old).bytes (λ b. Only b (tells self.new))) }
        ensures bytes { (tells self.new).bytes ≡ (tells self.old).bytes }
        ensures crash { AddsNothing (tells self.old) (tells self.new) }
        ensures time { Elapses (tells self.old) (tells self.new) }
        ensures cause { HasCause (tells self.old).faults (tells self.new).faults result };

    /// What a read gives is an image, and the moments since this one are this one alone.
    ghost lawful: { (disk : Self) → IsLawful (tells disk) };
}
