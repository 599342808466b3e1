//! A journal that is made of a base.

ghost use Rattle.std.specs.Prelude.{◌≡◌, ◌≢◌, ◌⊎◌, ◌≤◌, ◌<◌, ◌+◌, ◌++◌, ◌∷◌, [], ℕ, Err, Some, false, IsTrue, length, is_some, IfSome, IfOk, OnOk, OnErr, IfErr};
ghost use Rattle.outside.specs.Causes.{Rose, HasCause};
ghost use Rattle.outside.specs.Disk.{Only, LeavesOnly, overwritten};
ghost use Rattle.gated_file.specs.Around.{IsAround};
ghost use Rattle.gated_file.specs.Moments.{IsAsBefore};
ghost use Rattle.intake_journal.specs.Based.{begun, block_bytes, HasBase, IsMaking, is_too_large, made_disk};
ghost use Rattle.intake_journal.specs.BaseBytes.{base_bytes, IsFormed};
ghost use Rattle.intake_journal.specs.BaseTypes.{IsBaseTyped};
ghost use Rattle.intake_journal.specs.Kept.{longest_journal, based_magic};
ghost use Rattle.intake_journal.specs.declared.making.MakeError.TheVariants as error;

use crate::base_encoding::{put_base, put_number};
use crate::encoding::low;
use crate::reading::LONGEST_JOURNAL;
use gated_file::keep;
use outside::{Disk, Failed};
use std::alloc::Global;
use thiserror::Error;
use zbx_types::{Base, Bytes, OutOfMemory};

/// The beginning of a journal with a base, and a closed gate.
const BEGUN: [u8; 9] = *b"ZTSJRN02\0";

/// The place of a base's gate.
const BASE_GATE: u64 = 8;

/// The most that a base's number may be, and its bytes of lines.
const MOST_COUNTED: u64 = 9_000_000_000_000_000_000;

/// Why a journal wasn't made of a base.
#[derive(Clone, Copy, Debug, PartialEq, Eq, Error)]
pub enum MakeError {
    /// The file holds bytes.
    #[error("the file holds {bytes} bytes")]
    NotEmpty {
        /// How many.
        bytes: u64,
    },
    /// The journal would be longer than 1,073,741,824 bytes, or the base's number or its bytes of lines pass
    /// 9,000,000,000,000,000,000.
    #[error("the base is too large")]
    TooLarge {
        /// How many bytes the journal would have.
        bytes: u64,
    },
    /// The disk failed.
    #[error("the journal's disk failed")]
    DiskFault,
    /// No memory was to be had.
    #[error("out of memory")]
    OutOfMemory,
}

/// The bytes of a base.
fn bytes_of(alloc: Global, base: &Base) -> Result<Bytes, OutOfMemory>
    ensures bytes { IfOk result (λ bytes. bytes ≡ base_bytes base.entry.now) }
    ensures typed { IfOk result (λ _. IsBaseTyped base.entry.now) }
{
    let mut bytes = Bytes::new(alloc);
    put_base(&mut bytes, base)?;
    Ok(bytes)
}

/// What stands behind the gate of a base.
fn block_of(alloc: Global, base: &Base) -> Result<Bytes, OutOfMemory>
    ensures bytes { IfOk result (λ block. block ≡ block_bytes base.entry.now) }
    ensures typed { IfOk result (λ _. IsBaseTyped base.entry.now) }
{
    let bytes = bytes_of(alloc, base)?;
    let mut block = Bytes::new(alloc);
    put_number(&mut block, low(bytes.len()))?;
    block.extend_both(bytes.as_slice(), &[0])?;
    Ok(block)
}

/// Puts the beginning of a journal with a base, whose gate isn't open, into a file of at most 9 bytes.
fn begin<D: Disk>(disk: &mut D) -> Result<(), Failed>
    ensures made { OnOk result (IfSome (D.tells disk.old).bytes (λ b. (D.tells disk.new).bytes ≡ Some (overwritten b 0 begun))) }
    ensures durable { OnOk result (IfSome (D.tells disk.new).bytes (λ b. Only b (D.tells disk.new))) }
    ensures told { is_some (D.tells disk.new).bytes ≡ is_some (D.tells disk.old).bytes }
    ensures any_moment { IfSome (D.tells disk.old).bytes (λ b. length b ≤ 9 → Only b (D.tells disk.old) → LeavesOnly (D.tells disk.old) (D.tells disk.new) (λ c. length c ≤ 9)) }
    ensures cause { HasCause (D.tells disk.old).faults (D.tells disk.new).faults result }
{
    disk.write_at(0, &BEGUN)?;
    disk.sync()
}

/// Puts a block behind the gate of a journal that is begun in a file that holds nothing, and opens the gate. Each of the
/// three is durable before the next.
fn fill<D: Disk>(disk: &mut D, block: &[u8]) -> Result<(), Failed>
    ensures made { OnOk result (IfSome (D.tells disk.old).bytes (λ b. b ≡ [] → (D.tells disk.new).bytes ≡ Some (based_magic ++ 1 ∷ block.now))) }
    ensures durable { OnOk result (IfSome (D.tells disk.new).bytes (λ c. Only c (D.tells disk.new))) }
    ensures told { is_some (D.tells disk.new).bytes ≡ is_some (D.tells disk.old).bytes }
    ensures any_moment { IfSome (D.tells disk.old).bytes (λ b. b ≡ [] → Only b (D.tells disk.old)
        → LeavesOnly (D.tells disk.old) (D.tells disk.new) (λ c. (length c ≤ 9) ⊎ IsAround begun 8 block.now c)) }
    ensures cause { HasCause (D.tells disk.old).faults (D.tells disk.new).faults result }
{
    begin(disk)?;
    keep(disk, BASE_GATE, block)
}

/// Refuses a disk that holds bytes.
#[tactic(auto, using(crate::proofs::BaseMade::no_bytes))]
fn refuse_held<D: Disk>(disk: &mut D) -> Result<(), MakeError>
    ensures empty { OnOk result (IfSome (D.tells disk.old).bytes (λ b. b ≡ [])) }
    ensures not_empty { (bytes : ℕ) → result ≡ Err (error.NotEmpty bytes) → IfSome (D.tells disk.old).bytes (λ b. (0 < length b) × (bytes ≡ length b)) }
    ensures not_large { (bytes : ℕ) → result ≢ Err (error.TooLarge bytes) }
    ensures fault { result ≡ Err error.DiskFault → Rose (D.tells disk.old).faults (D.tells disk.new).faults }
    ensures later { (D.tells disk.old).faults ≤ (D.tells disk.new).faults }
    ensures before { IsAsBefore (D.tells disk.old) (D.tells disk.new) }
{
    match disk.len() {
        Ok(0) => Ok(()),
        Ok(bytes) => Err(MakeError::NotEmpty { bytes }),
        Err(Failed) => Err(MakeError::DiskFault),
    }
}

/// Refuses a base that is too large, of which this is the block.
fn refuse_large(base: &Base, block: &[u8]) -> Result<(), MakeError>
    requires { block.now ≡ block_bytes base.now }
    ensures fits { OnOk result (is_too_large base.entry.now ≡ false) }
    ensures within { OnOk result (length block.now + 9 ≤ longest_journal) }
    ensures too_large { OnErr result (IsTrue (is_too_large base.entry.now)) }
    ensures bytes { IfErr result (λ e. e ≡ error.TooLarge (length (block_bytes base.entry.now) + 9)) }
{
    let bytes = block.len() as u64 + 9;
    if bytes > LONGEST_JOURNAL || base.number > MOST_COUNTED || base.lines > MOST_COUNTED {
        return Err(MakeError::TooLarge { bytes });
    }
    Ok(())
}

/// Makes a journal of a base, of which this is the block, in a file that holds nothing.
#[tactic(auto, using(crate::proofs::BaseMade::only_asked, crate::proofs::BaseMade::filled_moments, crate::proofs::BaseMade::filled_bytes, crate::proofs::BaseMade::holds_base))]
fn make_in<D: Disk>(disk: &mut D, base: &Base, block: &[u8]) -> Result<(), MakeError>
    requires block { block.now ≡ block_bytes base.now }
    requires formed { IsFormed base.now }
    requires typed { IsBaseTyped base.now }
    ensures file { OnOk result (IfSome (D.tells disk.old).bytes (λ _. (D.tells disk.new).bytes ≡ Some (based_magic ++ 1 ∷ block_bytes base.entry.now))) }
    ensures holds { OnOk result (HasBase base.entry.now (based_magic ++ 1 ∷ block_bytes base.entry.now)) }
    ensures durable { OnOk result (IfSome (D.tells disk.new).bytes (λ c. Only c (D.tells disk.new))) }
    ensures told { is_some (D.tells disk.new).bytes ≡ is_some (D.tells disk.old).bytes }
    ensures any_moment { IfSome (D.tells disk.old).bytes (λ b. Only b (D.tells disk.old) → LeavesOnly (D.tells disk.old) (D.tells disk.new) (IsMaking b base.entry.now)) }
    ensures empty { OnOk result (IfSome (D.tells disk.old).bytes (λ b. b ≡ [])) }
    ensures not_empty { (bytes : ℕ) → result ≡ Err (error.NotEmpty bytes) → IfSome (D.tells disk.old).bytes (λ b. (0 < length b) × (bytes ≡ length b)) }
    ensures fits { OnOk result (is_too_large base.entry.now ≡ false) }
    ensures too_large { (bytes : ℕ) → result ≡ Err (error.TooLarge bytes) → IsTrue (is_too_large base.entry.now) × (bytes ≡ length (block_bytes base.entry.now) + 9) }
    ensures first_held { (bytes : ℕ) → result ≡ Err (error.TooLarge bytes) → IfSome (D.tells disk.old).bytes (λ b. b ≡ []) }
    ensures fault { result ≡ Err error.DiskFault → Rose (D.tells disk.old).faults (D.tells disk.new).faults }
    ensures later { (D.tells disk.old).faults ≤ (D.tells disk.new).faults }
{
    refuse_held(disk)?;
    refuse_large(base, block)?;
    match fill(disk, block) {
        Ok(()) => Ok(()),
        Err(Failed) => Err(MakeError::DiskFault),
    }
}

/// Makes a journal of a base and no entries, in a file that holds nothing, by six calls of the disk: the beginning, a sync,
/// the base, a sync, its gate, a sync. At `Ok` each crash leaves the base. The disk comes back.
///
/// `NotEmpty` comes where the file holds bytes, `TooLarge` where it doesn't and the base is too large; both leave the file
/// alone. `DiskFault` comes where the disk failed; the file may be begun then, without its base.
///
/// The base has a configuration's text and both Ticks or neither, each of its problems has a Problem record, and the actions
/// that ran for it stand in byte order of their names.
pub fn make<D: Disk>(alloc: Global, into: D, base: &Base) -> Result<D, (D, MakeError)>
    requires { IsFormed base.now }

    // What the file holds then is the base, in each crash.
    ensures file { IfOk result (λ disk. IfSome (D.tells into).bytes (λ _. (D.tells disk).bytes ≡ Some (based_magic ++ 1 ∷ block_bytes base.entry.now))) }
    ensures holds { IfOk result (λ _. HasBase base.entry.now (based_magic ++ 1 ∷ block_bytes base.entry.now)) }
    ensures durable { IfOk result (λ disk. IfSome (D.tells disk).bytes (λ c. Only c (D.tells disk))) }

    // A crash at any moment leaves the file as it was, at most 9 bytes, an unfinished file, or the base.
    ensures any_moment { IfSome (D.tells into).bytes (λ b. Only b (D.tells into) → LeavesOnly (D.tells into) (D.tells (made_disk result)) (IsMaking b base.entry.now)) }

    ensures empty { IfOk result (λ _. IfSome (D.tells into).bytes (λ b. b ≡ [])) }
    ensures not_empty { (bytes : ℕ) → IfErr result (λ e. e.1 ≡ error.NotEmpty bytes → IfSome (D.tells into).bytes (λ b. (0 < length b) × (bytes ≡ length b))) }
    ensures fits { IfOk result (λ _. is_too_large base.entry.now ≡ false) }
    ensures too_large { (bytes : ℕ) → IfErr result (λ e. e.1 ≡ error.TooLarge bytes → IsTrue (is_too_large base.entry.now) × (bytes ≡ length (block_bytes base.entry.now) + 9)) }
    ensures first_held { (bytes : ℕ) → IfErr result (λ e. e.1 ≡ error.TooLarge bytes → IfSome (D.tells into).bytes (λ b. b ≡ [])) }
    ensures fault { IfErr result (λ e. e.1 ≡ error.DiskFault → Rose (D.tells into).faults (D.tells e.0).faults) }

    ensures told { is_some (D.tells (made_disk result)).bytes ≡ is_some (D.tells into).bytes }
    ensures later { (D.tells into).faults ≤ (D.tells (made_disk result)).faults }
{
    let mut disk = into;
    match block_of(alloc, base) {
        Ok(block) => match make_in(&mut disk, base, block.as_slice()) {
            Ok(()) => Ok(disk),
            Err(why) => Err((disk, why)),
        },
        Err(OutOfMemory) => Err((disk, MakeError::OutOfMemory)),
    }
}
