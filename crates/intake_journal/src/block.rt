//! Groups that are added together, as one block.

ghost use Rattle.std.specs.Prelude.{◌≡◌, ◌==◌, ◌+◌, ◌-◌, ◌<◌, ◌≤◌, [], ◌∷◌, ◌++◌, length, take, slice_set, All, Some, IfOk, OnOk, OnErr};
ghost use Rattle.intake_journal.specs.Bytes.{group_bytes, entries_bytes, HasShortValue};
ghost use Rattle.intake_journal.specs.Format.{entries_of};
ghost use Rattle.intake_journal.specs.Kept.{longest_journal};
ghost use Rattle.intake_journal.specs.Block.{opened_bytes, count_all, IsReadable};

use crate::encoding::{encode, size};
use byteorder::{ByteOrder, LittleEndian};
use std::alloc::Global;
use std::marker::Model;
use zbx_types::{Bytes, Entry, OutOfMemory};

/// Groups that are to be added together. Contracts see the list of them.
#[derive(Drop)]
pub struct Block {
    bytes: Bytes,
    entries: u64,
}

impl Model for Block {
    ghost use Rattle.std.specs.Prelude.{List};
    ghost use Rattle.zbx_types.specs.declared.entries.Entry.{Entry};
    ghost use Rattle.intake_journal.specs.Block.{staged_in, IsStaged};

    ghost Value = { List (List Entry) };

    ghost view = { λ b. staged_in b.bytes };

    ghost invariant = { λ b. IsStaged b.bytes b.entries };
}

/// Adds what stands behind the gate of a group, and a closed gate. At [`OutOfMemory`] some of it may have been added.
fn put_group(out: &mut Bytes, group: &[Entry], size: u32, count: u32) -> Result<(), OutOfMemory>
    requires sized { size ≡ length (entries_bytes group.now) }
    requires counted { count ≡ length group.now }
    ensures ok { OnOk result (out.new ≡ out.old ++ (group_bytes group.now ++ 0 ∷ [])) }
    ensures err { OnErr result (take (length out.old) out.new ≡ out.old) }
    ensures again { OnOk result (All HasShortValue group.now → entries_of (length group.now) (entries_bytes group.now) ≡ Some group.now) }
{
    out.reserve(size as usize + 9)?;
    let mut head = [0; 8];
    LittleEndian::write_u32(&mut head[0..4], size);
    LittleEndian::write_u32(&mut head[4..8], count);
    out.extend(&head)?;
    encode(group, out)?;
    out.extend(&[0])
}

/// Adds a group and a closed gate behind bytes that end with a gate, which is opened. At [`OutOfMemory`] nothing was changed.
fn put_behind(out: &mut Bytes, group: &[Entry], size: u32, count: u32) -> Result<(), OutOfMemory>
    requires gate { 0 < length out.old }
    requires sized { size ≡ length (entries_bytes group.now) }
    requires counted { count ≡ length group.now }
    ensures ok { OnOk result (out.new ≡ slice_set (out.old ++ (group_bytes group.now ++ 0 ∷ [])) (length out.old - 1) 1) }
    ensures err { OnErr result (out.new ≡ out.old) }
    ensures again { OnOk result (All HasShortValue group.now → entries_of (length group.now) (entries_bytes group.now) ≡ Some group.now) }
{
    let before = out.len();
    let done = put_group(out, group, size, count);
    if done.is_ok() {
        out.set(before - 1, 1);
    } else {
        out.truncate(before);
    }
    done
}

impl Block {
    /// No groups.
    pub fn new(alloc: Global) -> Result<Block, OutOfMemory>
        ensures { IfOk result (λ made. made ≡ []) }
    {
        Ok(Block {
            bytes: Bytes::of(alloc, &[0])?,
            entries: 0,
        })
    }

    /// A block of one group.
    pub(crate) fn of(alloc: Global, group: &[Entry]) -> Result<Block, OutOfMemory>
        requires some { 0 < length group.now }
        requires short { All HasShortValue group.now }
        requires within { length (entries_bytes group.now) + 10 ≤ longest_journal }
        ensures { IfOk result (λ made. made ≡ group.now ∷ []) }
    {
        let mut block = Block::new(alloc)?;
        block.stage(group)?;
        Ok(block)
    }

    /// A copy.
    pub fn copy(&self, alloc: Global) -> Result<Block, OutOfMemory>
        ensures { IfOk result (λ made. made ≡ self.now) }
    {
        Ok(Block {
            bytes: Bytes::of(alloc, self.bytes.as_slice())?,
            entries: self.entries,
        })
    }

    /// Whether it has no group.
    pub fn is_empty(&self) -> bool
        ensures { result ≡ (length self.now == 0) }
    {
        self.bytes.len() == 1
    }

    /// How many entries the groups have.
    pub fn entries(&self) -> u64
        ensures value { result ≡ count_all self.now }
        ensures small { result ≤ longest_journal }
    {
        self.entries
    }

    /// How many bytes they are, with their gates and the one behind the last.
    pub fn size(&self) -> u64
        ensures value { result ≡ length (opened_bytes self.now) + 1 }
        ensures small { result ≤ longest_journal }
    {
        self.bytes.len() as u64
    }

    /// Adds a group. At [`OutOfMemory`] the block is as before.
    pub(crate) fn stage(&mut self, group: &[Entry]) -> Result<(), OutOfMemory>
        requires some { 0 < length group.now }
        requires short { All HasShortValue group.now }
        requires within { length (opened_bytes self.old) + length (entries_bytes group.now) + 10 ≤ longest_journal }
        ensures ok { OnOk result (self.new ≡ self.old ++ group.now ∷ []) }
        ensures err { OnErr result (self.new ≡ self.old) }
    {
        let group_size = size(group) as u32;
        put_behind(&mut self.bytes, group, group_size, group.len() as u32)?;
        self.entries += group.len() as u64;
        Ok(())
    }

    /// Takes the groups out. Takes no memory.
    pub fn clear(&mut self)
        ensures { self.new ≡ [] }
    {
        self.bytes.truncate(1);
        self.bytes.set(0, 0);
        self.entries = 0;
    }

    /// What is written behind the gate of the first group.
    pub(crate) fn behind_gate(&self) -> &[u8]
        requires some { 0 < length self.now }
        ensures shape { 1 ∷ result.now ≡ opened_bytes self.now ++ 0 ∷ [] }
        ensures readable { All IsReadable self.now }
    {
        &self.bytes.as_slice()[1..]
    }
}
