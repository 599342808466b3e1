//! The marks of notes, on a disk.

ghost use Rattle.std.specs.Prelude.{◌≡◌, ◌≢◌, ◌⊎◌, ◌<◌, ◌≤◌, ◌+◌, ◌^◌, ◌++◌, ◌∷◌, [], List, Err, true, false, is_some, Some, IfSome, IfOk, IfErr, OnOk, OnErr, ℕ};
ghost use Rattle.outside.specs.Causes.{Rose, HasCause};
ghost use Rattle.outside.specs.Disk.{LeavesOnly};
ghost use Rattle.alert_queue.specs.declared.types.NoteMark.{NoteMark as Marking};
ghost use Rattle.alert_marks.specs.Marks.{mark_form, marks_in, KeepsAsOneOf, disk_of, byte_of, group_of, has_mark, AreOnce, IsSettled, EachKeeps, KeepsBeforeOrWith};
ghost use Rattle.gated_file.specs.Groups.{kept};
ghost use Rattle.gated_file.specs.Groups.Kept.{NotOurs, Damaged};
ghost use Rattle.alert_marks.specs.declared.types.AddError.TheVariants as add_error;
ghost use Rattle.alert_marks.specs.declared.types.MarksError.TheVariants as error;

use crate::opening::open;
use crate::reading::Reader;
use crate::types::{AddError, MarksError};
use alert_queue::{Mark, NoteMark};
use gated_file::keep;
use outside::{Disk, Failed};
use std::alloc::Global;
use std::marker::Model;
use zbx_types::{Many, Reserved};

/// The most bytes of a file that a mark is added to.
const MOST_BYTES: u64 = 1 << 62;

/// The byte of a mark.
fn byte_of(mark: Mark) -> u8
    ensures { result ≡ byte_of mark }
{
    match mark {
        Mark::Done => b'd',
        Mark::Failed => b'f',
    }
}

/// The group of a note's mark behind the switch, and a closed gate.
fn numbered_block(note: u32, mark: Mark) -> [u8; 6]
    ensures bytes { result ≡ group_of (record { note = note; mark = mark }) ++ 0 ∷ [] }
    ensures small { note < 2 ^ 32 }
{
    let [a, b, c, d] = note.to_le_bytes();
    [a, b, c, d, byte_of(mark), 0]
}

/// The group of the switch, an open gate, the group of a note's mark, and a closed gate.
fn first_block(note: u32, mark: Mark) -> [u8; 8]
    ensures bytes { result ≡ (50 ∷ 1 ∷ group_of (record { note = note; mark = mark })) ++ 0 ∷ [] }
    ensures small { note < 2 ^ 32 }
{
    let [a, b, c, d] = note.to_le_bytes();
    [b'2', 1, a, b, c, d, byte_of(mark), 0]
}

/// Puts a note's mark behind those that a disk keeps, where the switch stands before them. Answers the next gate's place.
fn put_numbered<D: Disk>(disk: &mut D, at: u64, mark: NoteMark) -> Result<u64, Failed>
    requires low { at < 2 ^ 63 }
    requires some { 1 ≤ mark.note }
    ensures settled { (marks : List Marking) → has_mark marks mark.note ≡ false → IsSettled false (D.tells disk.old) at true marks → IfOk result (λ end. IsSettled false (D.tells disk.new) end true (marks ++ mark ∷ [])) }
    ensures any_moment { (marks : List Marking) → has_mark marks mark.note ≡ false → IsSettled false (D.tells disk.old) at true marks → IfSome (D.tells disk.old).bytes (λ _. LeavesOnly (D.tells disk.old) (D.tells disk.new) (KeepsBeforeOrWith marks mark)) }
    ensures told { is_some (D.tells disk.new).bytes ≡ is_some (D.tells disk.old).bytes }
    ensures cause { HasCause (D.tells disk.old).faults (D.tells disk.new).faults result }
{
    keep(disk, at, &numbered_block(mark.note, mark.mark))?;
    Ok(at + 6)
}

/// Puts the switch and a note's mark behind the marks that a disk keeps, at once. Answers the next gate's place.
fn put_first<D: Disk>(disk: &mut D, at: u64, mark: NoteMark) -> Result<u64, Failed>
    requires low { at < 2 ^ 63 }
    requires some { 1 ≤ mark.note }
    ensures settled { (marks : List Marking) → has_mark marks mark.note ≡ false → IsSettled false (D.tells disk.old) at false marks → IfOk result (λ end. IsSettled false (D.tells disk.new) end true (marks ++ mark ∷ [])) }
    ensures any_moment { (marks : List Marking) → has_mark marks mark.note ≡ false → IsSettled false (D.tells disk.old) at false marks → IfSome (D.tells disk.old).bytes (λ _. LeavesOnly (D.tells disk.old) (D.tells disk.new) (KeepsBeforeOrWith marks mark)) }
    ensures told { is_some (D.tells disk.new).bytes ≡ is_some (D.tells disk.old).bytes }
    ensures cause { HasCause (D.tells disk.old).faults (D.tells disk.new).faults result }
{
    keep(disk, at, &first_block(mark.note, mark.mark))?;
    Ok(at + 8)
}

/// Puts a note's mark behind the marks that a disk keeps, and the switch before it where it isn't there. Answers the next
/// gate's place.
fn put<D: Disk>(disk: &mut D, at: u64, is_numbered: bool, mark: NoteMark) -> Result<u64, Failed>
    requires low { at < 2 ^ 63 }
    requires some { 1 ≤ mark.note }
    ensures settled { (marks : List Marking) → has_mark marks mark.note ≡ false → IsSettled false (D.tells disk.old) at is_numbered marks → IfOk result (λ end. IsSettled false (D.tells disk.new) end true (marks ++ mark ∷ [])) }
    ensures any_moment { (marks : List Marking) → has_mark marks mark.note ≡ false → IsSettled false (D.tells disk.old) at is_numbered marks → IfSome (D.tells disk.old).bytes (λ _. LeavesOnly (D.tells disk.old) (D.tells disk.new) (KeepsBeforeOrWith marks mark)) }
    ensures told { is_some (D.tells disk.new).bytes ≡ is_some (D.tells disk.old).bytes }
    ensures cause { HasCause (D.tells disk.old).faults (D.tells disk.new).faults result }
{
    if is_numbered {
        put_numbered(disk, at, mark)
    } else {
        put_first(disk, at, mark)
    }
}

/// Marks on a disk, each with its note. Contracts see the disk, the list of marks, and whether the disk has failed.
#[derive(Drop)]
pub struct Marks<D: Disk> {
    disk: D,
    list: Reserved<NoteMark>,
    /// The place of the gate behind the last mark.
    at: u64,
    is_numbered: bool,
    is_broken: bool,
}

impl<D: Disk> Model for Marks<D> {
    ghost use Rattle.alert_marks.specs.Marks.{Marked, IsSettled};

    ghost Value = { Marked D };

    ghost view = { λ m. record { disk = m.disk; list = m.list.items; is_broken = m.is_broken } };

    ghost invariant = { λ m. IsSettled m.is_broken (D.tells m.disk) m.at m.is_numbered m.list.items };
}

impl<D: Disk> Marks<D> {
    /// Opens the file on a disk, and reads the marks that it keeps. It begins with a sync; a file of at most 9 bytes is made
    /// anew, as one without marks.
    ///
    /// `NotOurs` comes exactly where the file has more than 9 bytes and doesn't begin as one of marks, `Damaged` exactly where
    /// an open gate isn't followed by a mark with a gate, or by the number 0 or that of a note that has a mark already, and names the
    /// first one, and `DiskFault` only where the disk failed.
    /// The disk comes back with the error.
    pub fn recover(alloc: Global, disk: D) -> Result<Marks<D>, (D, MarksError)>
        ensures kept { IfOk result (λ marks. IfSome (D.tells disk).bytes (λ b. marks_in b ≡ Some marks.list)) }
        ensures going { IfOk result (λ marks. marks.is_broken ≡ false) }
        ensures durable { IfOk result (λ marks. EachKeeps (D.tells marks.disk) marks.list) }
        ensures once { IfOk result (λ marks. AreOnce marks.list) }

        ensures not_ours { IfErr result (λ e. e.1 ≡ error.NotOurs → IfSome (D.tells disk).bytes (λ b. kept mark_form b ≡ NotOurs)) }
        ensures damaged { IfErr result (λ e. (at : ℕ) → e.1 ≡ error.Damaged at → IfSome (D.tells disk).bytes (λ b. kept mark_form b ≡ Damaged at)) }
        ensures fault { IfErr result (λ e. e.1 ≡ error.DiskFault → Rose (D.tells disk).faults (D.tells e.0).faults) }

        ensures later { (D.tells disk).faults ≤ (D.tells (disk_of result)).faults }
        ensures told { is_some (D.tells (disk_of result)).bytes ≡ is_some (D.tells disk).bytes }

        // A crash at any moment of the call leaves a file that keeps what one did that a crash before it might have left.
        ensures any_moment { IfSome (D.tells disk).bytes (λ _. LeavesOnly (D.tells disk) (D.tells (disk_of result)) (KeepsAsOneOf (D.tells disk))) }
    {
        let mut disk = disk;
        match open(alloc, &mut disk) {
            Ok(reader) => {
                let Reader {
                    list,
                    seen: _,
                    gate,
                    is_numbered,
                } = reader;
                Ok(Marks {
                    disk,
                    list,
                    at: gate as u64,
                    is_numbered,
                    is_broken: false,
                })
            }
            Err(error) => Err((disk, error)),
        }
    }

    /// The marks, in the order of making.
    pub fn list(&self) -> &[NoteMark]
        ensures { result.now ≡ self.now.list }
    {
        self.list.as_slice()
    }

    /// How often the disk has failed. The count stays at 2^64 - 1.
    pub fn faults(&self) -> u64
        ensures { result ≡ (D.tells self.now.disk).faults }
    {
        self.disk.faults()
    }

    /// Adds the mark of a note that has none yet, by four calls of the disk. At `Ok` it is kept: from then on each crash
    /// leaves it.
    ///
    /// `DiskFault` comes where the disk failed; from then on each call answers it and leaves the disk alone. What its file keeps
    /// is then the list, or that and the mark. `OutOfMemory` changes nothing.
    pub fn add(&mut self, mark: NoteMark) -> Result<(), AddError>
        requires some { 1 ≤ mark.note }
        requires free { has_mark self.old.list mark.note ≡ false }
        ensures ok { OnOk result (self.new.list ≡ self.old.list ++ mark ∷ []) }
        ensures err { OnErr result (self.new.list ≡ self.old.list) }
        ensures durable { OnOk result (EachKeeps (D.tells self.new.disk) self.new.list) }

        ensures told { is_some (D.tells self.new.disk).bytes ≡ is_some (D.tells self.old.disk).bytes }

        // A crash at any moment of the call leaves the marks from before it, with the new one or without.
        ensures any_moment { self.old.is_broken ≡ false → IfSome (D.tells self.old.disk).bytes (λ _.
            LeavesOnly (D.tells self.old.disk) (D.tells self.new.disk) (KeepsBeforeOrWith self.old.list mark)) }

        ensures fault { result ≡ Err add_error.DiskFault → (self.old.is_broken ≡ true) ⊎ Rose (D.tells self.old.disk).faults (D.tells self.new.disk).faults }
        ensures later { (D.tells self.old.disk).faults ≤ (D.tells self.new.disk).faults }
        ensures broken { self.old.is_broken ≡ true → (result ≡ Err add_error.DiskFault) × (self.new ≡ self.old) }
        ensures breaks { result ≡ Err add_error.DiskFault → self.new.is_broken ≡ true }
        ensures going { result ≢ Err add_error.DiskFault → self.new.is_broken ≡ false }
        ensures same { result ≡ Err add_error.OutOfMemory → self.new ≡ self.old }
    {
        if self.is_broken {
            return Err(AddError::DiskFault);
        }
        if self.at >= MOST_BYTES {
            return Err(AddError::OutOfMemory);
        }
        if self.list.reserve(1).is_err() {
            return Err(AddError::OutOfMemory);
        }
        match put(&mut self.disk, self.at, self.is_numbered, mark) {
            Ok(end) => {
                self.list.push(mark);
                self.at = end;
                self.is_numbered = true;
                Ok(())
            }
            Err(Failed) => {
                self.is_broken = true;
                Err(AddError::DiskFault)
            }
        }
    }

    /// The disk, and the marks. Takes no memory.
    pub fn end(self) -> (D, Many<NoteMark>)
        ensures disk { result.0 ≡ self.disk }
        ensures list { result.1 ≡ self.list }
    {
        (self.disk, self.list.into_many())
    }
}
