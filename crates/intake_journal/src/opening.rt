//! A file that is opened as a journal.

ghost use Rattle.std.specs.Prelude.{◌≡◌, ◌⊎◌, ℕ, ◌≤◌, ◌<◌, ◌+◌, ◌++◌, [], ◌∷◌, true, false, Some, length, take, is_some, IfSome, IfOk, OnOk, IsErrOf};
ghost use Rattle.outside.specs.Causes.{Rose, HasCause};
ghost use Rattle.outside.specs.Disk.{Only, LeavesOnly, overwritten};
ghost use Rattle.outside.specs.declared.event.Trouble.TheVariants as trouble;
ghost use Rattle.zbx_types.specs.declared.base.Base.{Base};
ghost use Rattle.intake_journal.specs.Begun.{IsMagic, IsBaseHead, IsPlaced};
ghost use Rattle.intake_journal.specs.declared.opening.Magic.TheVariants.{Based};
ghost use Rattle.intake_journal.specs.declared.opening.BaseHead.TheVariants.{Open};
ghost use Rattle.gated_file.specs.Opened.{begins};
ghost use Rattle.intake_journal.specs.Kept.{magic, longest_journal, beginning_of};
ghost use Rattle.intake_journal.specs.declared.format.Beginning.TheVariants.{Begun};
ghost use Rattle.gated_file.specs.Moments.{IsAsBefore};
ghost use Rattle.intake_journal.specs.Opened.{IsOpened};
ghost use Rattle.intake_journal.specs.Settled.{KeepsAsOneOf};

use crate::ahead::read_from;
use crate::base_decoding::decode_base;
use crate::format::Beginning;
use crate::reading::LONGEST_JOURNAL;
use byteorder::{ByteOrder, LittleEndian};
use gated_file::read_whole;
use outside::{Disk, Failed, Trouble};
use std::alloc::Global;
use zbx_types::Base;

/// The bytes with which each journal begins that has no base.
const MAGIC: [u8; 8] = *b"ZTSJRN01";

/// Those with which each journal begins that has one.
const BASED_MAGIC: [u8; 8] = *b"ZTSJRN02";

/// The place where the groups of a journal without a base begin: that of their first gate.
pub const FIRST_GATE: u64 = 8;

/// A journal of no group: the magic and a closed gate.
const FRESH: [u8; 9] = *b"ZTSJRN01\0";

/// With which magic a file begins.
#[derive(Clone, Copy)]
pub(crate) enum Magic {
    /// That of journals without a base.
    Plain,
    /// That of journals with one.
    Based,
    /// None.
    Other,
}

/// What the first 13 bytes of a journal with a base are, or all where there are fewer.
#[derive(Clone, Copy)]
pub(crate) enum BaseHead {
    /// The gate of the base isn't open.
    Shut,
    /// It is open, and the file ends before the base.
    Cut,
    /// It is open, and the base is said to have so many bytes.
    Open { size: u32 },
}

/// Makes a journal of no group of a file that is no longer than one.
fn make_anew<D: Disk>(disk: &mut D) -> Result<(), Failed>
    ensures made { OnOk result (IfSome (D.tells disk.old).bytes (λ b. (D.tells disk.new).bytes ≡ Some (overwritten b 0 (magic ++ 0 ∷ [])))) }
    ensures durable { OnOk result (IfSome (D.tells disk.new).bytes (λ b. Only b (D.tells disk.new))) }
    ensures told { is_some (D.tells disk.new).bytes ≡ is_some (D.tells disk.old).bytes }
    ensures any_moment { IfSome (D.tells disk.old).bytes (λ b. length b ≤ 9 → Only b (D.tells disk.old) → LeavesOnly (D.tells disk.old) (D.tells disk.new) (λ c. length c ≤ 9)) }
    ensures cause { HasCause (D.tells disk.old).faults (D.tells disk.new).faults result }
{
    disk.write_at(0, &FRESH)?;
    disk.sync()
}

/// Whether bytes begin as others do, as far as both go.
fn begins_with(bytes: &[u8], first: &[u8; 8]) -> bool
    ensures { result ≡ begins first.now bytes.now }
{
    first.iter().zip(bytes).all(|(wanted, byte)| wanted == byte)
}

/// With which magic bytes begin.
fn magic_of(bytes: &[u8]) -> Magic
    ensures { IsMagic result bytes.now }
{
    if begins_with(bytes, &MAGIC) {
        return Magic::Plain;
    }
    if begins_with(bytes, &BASED_MAGIC) {
        return Magic::Based;
    }
    Magic::Other
}

/// With which magic a file begins.
#[tactic(auto, using(crate::proofs::Beginnings::magic_front))]
fn read_magic<D: Disk>(disk: &mut D) -> Result<Magic, Failed>
    ensures magic { IfOk result (λ it. IfSome (D.tells disk.old).bytes (IsMagic it)) }
    ensures before { IsAsBefore (D.tells disk.old) (D.tells disk.new) }
    ensures cause { HasCause (D.tells disk.old).faults (D.tells disk.new).faults result }
{
    let mut first = [0; 8];
    let count = read_whole(disk, 0, &mut first)?;
    Ok(magic_of(&first[..count]))
}

/// What the first 13 bytes of a journal with a base are, or all where there are fewer.
fn base_head(bytes: &[u8]) -> BaseHead
    ensures { IsBaseHead result bytes.now }
{
    if bytes.len() < 9 || bytes[8] != 1 {
        return BaseHead::Shut;
    }
    if bytes.len() < 13 {
        return BaseHead::Cut;
    }
    BaseHead::Open {
        size: LittleEndian::read_u32(&bytes[9..]),
    }
}

/// Whether a base of this size has room in a file of so many bytes and in the longest journal, with a gate behind it.
fn has_room(held: u64, size: u32) -> bool
    ensures fits { result ≡ true → (size + 14 ≤ held) × (size + 14 ≤ longest_journal) }
    ensures unfit { result ≡ false → (held < size + 14) ⊎ (longest_journal < size + 14) }
{
    let end = u64::from(size) + 14;
    end <= held && end <= LONGEST_JOURNAL
}

/// The base of this size in a journal with a base, whose gate is open, or none.
fn read_base<D: Disk>(
    alloc: Global,
    disk: &mut D,
    held: u64,
    size: u32,
) -> Result<Beginning, Trouble>
    ensures told { IfOk result (λ it. IfSome (D.tells disk.old).bytes (λ b. held ≡ length b → IsBaseHead (Open size) (take 13 b) → IsMagic Based b → it ≡ beginning_of b)) }
    ensures placed { IfOk result IsPlaced }
    ensures before { IsAsBefore (D.tells disk.old) (D.tells disk.new) }
    ensures later { (D.tells disk.old).faults ≤ (D.tells disk.new).faults }
    ensures failed { IsErrOf result trouble.Failed → Rose (D.tells disk.old).faults (D.tells disk.new).faults }
{
    if !has_room(held, size) {
        return Ok(Beginning::Damaged);
    }
    let bytes = read_from(alloc, disk, 13, size)?;
    match decode_base(alloc, bytes.as_slice())? {
        Some(base) => Ok(Beginning::Begun {
            first: u64::from(size) + 13,
            base,
        }),
        None => Ok(Beginning::Damaged),
    }
}

/// What a journal with a base begins with.
fn read_based<D: Disk>(alloc: Global, disk: &mut D, held: u64) -> Result<Beginning, Trouble>
    ensures told { IfOk result (λ it. IfSome (D.tells disk.old).bytes (λ b. 9 < held → held ≡ length b → IsMagic Based b → it ≡ beginning_of b)) }
    ensures placed { IfOk result IsPlaced }
    ensures before { IsAsBefore (D.tells disk.old) (D.tells disk.new) }
    ensures later { (D.tells disk.old).faults ≤ (D.tells disk.new).faults }
    ensures failed { IsErrOf result trouble.Failed → Rose (D.tells disk.old).faults (D.tells disk.new).faults }
{
    let head = read_from(alloc, disk, 0, 13)?;
    match base_head(head.as_slice()) {
        BaseHead::Shut => Ok(Beginning::Unfinished),
        BaseHead::Cut => Ok(Beginning::Damaged),
        BaseHead::Open { size } => read_base(alloc, disk, held, size),
    }
}

/// What a file of so many bytes begins with, which are more than 9.
fn read_beginning<D: Disk>(alloc: Global, disk: &mut D, held: u64) -> Result<Beginning, Trouble>
    requires { 9 < held }
    ensures told { IfOk result (λ it. IfSome (D.tells disk.old).bytes (λ b. held ≡ length b → it ≡ beginning_of b)) }
    ensures placed { IfOk result IsPlaced }
    ensures before { IsAsBefore (D.tells disk.old) (D.tells disk.new) }
    ensures later { (D.tells disk.old).faults ≤ (D.tells disk.new).faults }
    ensures failed { IsErrOf result trouble.Failed → Rose (D.tells disk.old).faults (D.tells disk.new).faults }
{
    match read_magic(disk)? {
        Magic::Plain => Ok(Beginning::Begun {
            first: FIRST_GATE,
            base: Base::empty(alloc),
        }),
        Magic::Based => read_based(alloc, disk, held),
        Magic::Other => Ok(Beginning::NotOurs),
    }
}

/// Makes a file durable, makes a journal of it where it is short, and says what it begins with.
pub(crate) fn prepare<D: Disk>(alloc: Global, disk: &mut D) -> Result<Beginning, Trouble>
    ensures begins { IfOk result (λ it. IfSome (D.tells disk.old).bytes (λ b. it ≡ beginning_of b)) }
    ensures placed { IfOk result IsPlaced }
    ensures opened { IfOk result (λ it. IfSome (D.tells disk.old).bytes (λ b. IfSome (D.tells disk.new).bytes (λ c. (first : ℕ) (base : Base) → it ≡ Begun first base → IsOpened (D.tells disk.new) first b c))) }
    ensures told { is_some (D.tells disk.new).bytes ≡ is_some (D.tells disk.old).bytes }
    ensures any_moment { IfSome (D.tells disk.old).bytes (λ b. LeavesOnly (D.tells disk.old) (D.tells disk.new) (KeepsAsOneOf (D.tells disk.old))) }
    ensures later { (D.tells disk.old).faults ≤ (D.tells disk.new).faults }
    ensures failed { IsErrOf result trouble.Failed → Rose (D.tells disk.old).faults (D.tells disk.new).faults }
{
    disk.sync()?;
    let held = disk.len()?;
    if held <= 9 {
        make_anew(disk)?;
        return Ok(Beginning::Begun {
            first: FIRST_GATE,
            base: Base::empty(alloc),
        });
    }
    read_beginning(alloc, disk, held)
}
