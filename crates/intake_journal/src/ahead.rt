//! Bytes of a disk that are read ahead, so that many small groups take few reads.

ghost use Rattle.std.specs.Prelude.{◌≡◌, ◌≤◌, ◌<◌, ◌+◌, ◌-◌, ◌^◌, [], true, length, take, drop, IfSome, IfOk, OnOk, IsErrOf};
ghost use Rattle.outside.specs.Causes.{Rose};
ghost use Rattle.outside.specs.declared.event.Trouble.TheVariants as trouble;
ghost use Rattle.intake_journal.specs.Ahead.{IsAhead, part_of};
ghost use Rattle.gated_file.specs.Moments.{IsAsBefore};

use gated_file::read_whole;
use outside::{Disk, Trouble};
use std::alloc::Global;
use zbx_types::{Bytes, OutOfMemory};

/// How many bytes are read at once, where no more are asked for.
const AT_ONCE: u32 = 65_536;

/// Bytes of a disk from a place on.
#[derive(Drop)]
pub(crate) struct Ahead {
    at: u64,
    bytes: Bytes,
}

/// So many zero bytes.
fn zeros(alloc: Global, size: u32) -> Result<Vec<u8>, OutOfMemory>
    ensures { IfOk result (λ bytes. length bytes.items ≡ size) }
{
    Ok(vec![in alloc; 0u8; size as usize]?)
}

/// Bytes of a disk from a place on, as many as asked for or as there are.
pub(crate) fn read_from<D: Disk>(
    alloc: Global,
    disk: &mut D,
    at: u64,
    size: u32,
) -> Result<Bytes, Trouble>
    requires { at < 2 ^ 32 }
    ensures told { IfOk result (λ bytes. IfSome (D.tells disk.old).bytes (λ b. bytes ≡ take size (drop at b))) }
    ensures before { IsAsBefore (D.tells disk.old) (D.tells disk.new) }
    ensures later { (D.tells disk.old).faults ≤ (D.tells disk.new).faults }
    ensures failed { IsErrOf result trouble.Failed → Rose (D.tells disk.old).faults (D.tells disk.new).faults }
{
    let mut bytes = zeros(alloc, size)?;
    let count = read_whole(disk, at, &mut bytes)?;
    bytes.truncate(count);
    Ok(Bytes::from(bytes))
}

impl Ahead {
    /// No bytes. Takes no memory.
    pub(crate) fn new(alloc: Global) -> Ahead
        ensures { result.bytes ≡ [] }
    {
        Ahead {
            at: 0,
            bytes: Bytes::new(alloc),
        }
    }

    /// Whether it has so many bytes from a place on.
    pub(crate) fn has(&self, at: u64, size: u64) -> bool
        requires place { at < 2 ^ 32 }
        requires small { size ≤ 2 ^ 32 }
        ensures { result ≡ true → (self.now.at ≤ at) × (at + size ≤ self.now.at + length self.now.bytes) }
    {
        self.at <= at && at - self.at + size <= self.bytes.len() as u64
    }

    /// Reads ahead from a place on, where it hasn't so many bytes from there.
    pub(crate) fn reach<D: Disk>(
        &mut self,
        alloc: Global,
        disk: &mut D,
        at: u64,
        size: u32,
    ) -> Result<(), Trouble>
        requires small { at < 2 ^ 32 }
        requires ahead { IsAhead self.old (D.tells disk.old).bytes }
        ensures told { OnOk result (IfSome (D.tells disk.old).bytes (λ b. part_of self.new at size ≡ take size (drop at b))) }
        ensures ahead { IsAhead self.new (D.tells disk.old).bytes }
        ensures before { IsAsBefore (D.tells disk.old) (D.tells disk.new) }
        ensures later { (D.tells disk.old).faults ≤ (D.tells disk.new).faults }
        ensures failed { IsErrOf result trouble.Failed → Rose (D.tells disk.old).faults (D.tells disk.new).faults }
    {
        if !self.has(at, u64::from(size)) {
            self.bytes = read_from(alloc, disk, at, size.max(AT_ONCE))?;
            self.at = at;
        }
        Ok(())
    }

    /// The bytes from a place on, as many as asked for or as it has.
    pub(crate) fn part(&self, at: u64, size: u32) -> &[u8]
        ensures { result.now ≡ part_of self.now at size }
    {
        let bytes = self.bytes.as_slice();
        let start = at.saturating_sub(self.at).min(bytes.len() as u64) as usize;
        let (_, behind) = bytes.split_at(start);
        let (part, _) = behind.split_at(behind.len().min(size as usize));
        part
    }
}
