//! A file of marks that is opened.

ghost use Rattle.std.specs.Prelude.{◌≡◌, ◌≢◌, ◌≤◌, ℕ, false, Err, length, is_some, Some, IfSome, IfOk, IsErrOf};
ghost use Rattle.outside.specs.Causes.{Rose};
ghost use Rattle.outside.specs.Disk.{LeavesOnly};
ghost use Rattle.outside.specs.declared.event.Trouble.TheVariants as trouble;
ghost use Rattle.gated_file.specs.Moments.{IsAsBefore};
ghost use Rattle.gated_file.specs.Groups.{kept, kept_from};
ghost use Rattle.gated_file.specs.Groups.Kept.{NotOurs, Damaged};
ghost use Rattle.alert_marks.specs.Marks.{mark_form, marks_in, KeepsAsOneOf, IsSettled};
ghost use Rattle.alert_marks.specs.Reading.{IsOpened, AreMet};
ghost use Rattle.alert_marks.specs.declared.types.MarksError.TheVariants as error;

use crate::reading::{Reader, read_groups};
use crate::types::MarksError;
use gated_file::{prepare, read_whole};
use outside::{Disk, Failed, Trouble};
use std::alloc::Global;
use zbx_types::OutOfMemory;

/// A file without marks: what each begins with, and a closed gate.
const FRESH: [u8; 9] = *b"ZTSALR01\0";

/// So many zero bytes.
fn zeros(alloc: Global, size: usize) -> Result<Vec<u8>, OutOfMemory>
    ensures { IfOk result (λ bytes. length bytes.items ≡ size) }
{
    Ok(vec![in alloc; 0u8; size]?)
}

/// All bytes of a disk.
fn read_all<D: Disk>(alloc: Global, disk: &mut D) -> Result<Vec<u8>, Trouble>
    ensures told { IfOk result (λ bytes. IfSome (D.tells disk.old).bytes (λ b. bytes.items ≡ b)) }
    ensures before { IsAsBefore (D.tells disk.old) (D.tells disk.new) }
    ensures later { (D.tells disk.old).faults ≤ (D.tells disk.new).faults }
    ensures failed { IsErrOf result trouble.Failed → Rose (D.tells disk.old).faults (D.tells disk.new).faults }
{
    let length = disk.len()? as usize;
    let mut bytes = zeros(alloc, length)?;
    let count = read_whole(disk, 0, &mut bytes)?;
    bytes.truncate(count);
    Ok(bytes)
}

/// The marks of an opened file.
#[tactic(auto, using(crate::proofs::Opened::read_settled, crate::proofs::Opened::read_kept, crate::proofs::Opened::read_damage))]
fn read_marks<D: Disk>(alloc: Global, disk: &mut D) -> Result<Reader, MarksError>
    requires { IsOpened (D.tells disk.old) }
    ensures kept { IfOk result (λ reader. IfSome (D.tells disk.old).bytes (λ b. marks_in b ≡ Some reader.list.items)) }
    ensures settled { IfOk result (λ reader. IsSettled false (D.tells disk.new) reader.gate reader.is_numbered reader.list.items) }
    ensures met { IfOk result AreMet }
    ensures damaged { (at : ℕ) → result ≡ Err (error.Damaged at) → IfSome (D.tells disk.old).bytes (λ b. kept_from mark_form b ≡ Damaged at) }
    ensures ours { result ≢ Err error.NotOurs }
    ensures fault { result ≡ Err error.DiskFault → Rose (D.tells disk.old).faults (D.tells disk.new).faults }
    ensures later { (D.tells disk.old).faults ≤ (D.tells disk.new).faults }
    ensures before { IsAsBefore (D.tells disk.old) (D.tells disk.new) }
{
    match read_all(alloc, disk) {
        Ok(bytes) => read_groups(alloc, &bytes),
        Err(Trouble::Failed) => Err(MarksError::DiskFault),
        Err(Trouble::OutOfMemory) => Err(MarksError::OutOfMemory),
    }
}

/// Opens a file of marks, and reads them.
pub(crate) fn open<D: Disk>(alloc: Global, disk: &mut D) -> Result<Reader, MarksError>
    ensures kept { IfOk result (λ reader. IfSome (D.tells disk.old).bytes (λ b. marks_in b ≡ Some reader.list.items)) }
    ensures settled { IfOk result (λ reader. IsSettled false (D.tells disk.new) reader.gate reader.is_numbered reader.list.items) }
    ensures met { IfOk result AreMet }
    ensures not_ours { result ≡ Err error.NotOurs → IfSome (D.tells disk.old).bytes (λ b. kept mark_form b ≡ NotOurs) }
    ensures damaged { (at : ℕ) → result ≡ Err (error.Damaged at) → IfSome (D.tells disk.old).bytes (λ b. kept mark_form b ≡ Damaged at) }
    ensures fault { result ≡ Err error.DiskFault → Rose (D.tells disk.old).faults (D.tells disk.new).faults }
    ensures later { (D.tells disk.old).faults ≤ (D.tells disk.new).faults }
    ensures told { is_some (D.tells disk.new).bytes ≡ is_some (D.tells disk.old).bytes }
    ensures any_moment { IfSome (D.tells disk.old).bytes (λ _. LeavesOnly (D.tells disk.old) (D.tells disk.new) (KeepsAsOneOf (D.tells disk.old))) }
{
    match prepare(disk, &FRESH) {
        Ok(true) => read_marks(alloc, disk),
        Ok(false) => Err(MarksError::NotOurs),
        Err(Failed) => Err(MarksError::DiskFault),
    }
}
