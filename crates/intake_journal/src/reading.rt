//! The groups of a journal, read one after the other.

ghost use Rattle.std.specs.Prelude.{◌≡◌, ◌⊎◌, Ok, Err, None, IsTrue, ℕ, ◌≤◌, ◌<◌, ◌+◌, ◌-◌, ◌^◌, nat_lt, length, take, drop, IfSome, IfOk, IsErrOf};
ghost use Rattle.outside.specs.Causes.{Rose, HasCause};
ghost use Rattle.outside.specs.declared.event.Trouble.TheVariants as trouble;
ghost use Rattle.intake_journal.specs.Bytes.{entries_bytes};
ghost use Rattle.intake_journal.specs.Ahead.{IsAhead};
ghost use Rattle.intake_journal.specs.Format.{entries_of};
ghost use Rattle.intake_journal.specs.Kept.{longest_journal, fits as has_room};
ghost use Rattle.intake_journal.specs.Found.{IsHead, IsFound, IsSmall};
ghost use Rattle.intake_journal.specs.declared.reading.Head.TheVariants.{Open};
ghost use Rattle.gated_file.specs.Moments.{IsAsBefore};
ghost use Rattle.intake_journal.specs.Next.{ReadsNext};
ghost use Rattle.intake_journal.specs.declared.state.State.TheVariants.{Ready, Broken};
ghost use Rattle.intake_journal.specs.declared.state.JournalError.TheVariants as error;

use crate::ahead::Ahead;
use crate::decoding::decode;
use crate::format::Group;
use crate::journal::Journal;
use crate::state::{JournalError, State};
use byteorder::{ByteOrder, LittleEndian};
use outside::{Disk, Failed, Trouble};
use std::alloc::Global;
use zbx_types::{Entry, Many};

/// The most bytes of a journal.
pub const LONGEST_JOURNAL: u64 = 1_073_741_824;

/// What the bytes from a gate on are, as far as the first entry.
#[derive(Clone, Copy)]
pub(crate) enum Head {
    /// The gate isn't open, or there is none.
    Closed,
    /// It is open, and the file ends before the first entry.
    Cut,
    /// It is open, and these stand behind it.
    Open { size: u32, count: u32 },
}

/// What stands at a gate.
#[derive(Drop)]
pub(crate) enum Found {
    /// No group: the gate isn't open.
    End,
    /// The gate is open, and no group follows it.
    Damage,
    /// A group of these entries, which are so many bytes.
    Next { entries: Many<Entry>, size: u32 },
}

/// What the first nine bytes from a gate on are, or all where there are fewer.
fn head_of(bytes: &[u8]) -> Head
    ensures { IsHead result bytes.now }
{
    if bytes.is_empty() || bytes[0] != 1 {
        return Head::Closed;
    }
    if bytes.len() < 9 {
        return Head::Cut;
    }
    Head::Open {
        size: LittleEndian::read_u32(&bytes[1..]),
        count: LittleEndian::read_u32(&bytes[5..]),
    }
}

/// The gate at a place, and what stands between it and the first entry.
fn read_head<D: Disk>(
    alloc: Global,
    disk: &mut D,
    ahead: &mut Ahead,
    at: u64,
) -> Result<Head, Trouble>
    requires small { at < 2 ^ 32 }
    requires ahead { IsAhead ahead.old (D.tells disk.old).bytes }
    ensures told { IfOk result (λ head. IfSome (D.tells disk.old).bytes (λ b. IsHead head (take 9 (drop at b)))) }
    ensures ahead { IsAhead ahead.new (D.tells disk.old).bytes }
    ensures before { IsAsBefore (D.tells disk.old) (D.tells disk.new) }
    ensures later { (D.tells disk.old).faults ≤ (D.tells disk.new).faults }
    ensures failed { IsErrOf result trouble.Failed → Rose (D.tells disk.old).faults (D.tells disk.new).faults }
{
    ahead.reach(alloc, disk, at, 9)?;
    Ok(head_of(ahead.part(at, 9)))
}

/// The entries from a place on, so many as `count` says in so many bytes as `size` says, or None where these aren't so many
/// or the disk has fewer bytes.
fn read_entries<D: Disk>(
    alloc: Global,
    disk: &mut D,
    ahead: &mut Ahead,
    at: u64,
    size: u32,
    count: u32,
) -> Result<Option<Many<Entry>>, Trouble>
    requires small { at < 2 ^ 32 }
    requires ahead { IsAhead ahead.old (D.tells disk.old).bytes }
    ensures ahead { IsAhead ahead.new (D.tells disk.old).bytes }
    ensures told { IfOk result (λ read. IfSome (D.tells disk.old).bytes (λ b. at + size ≤ length b → read ≡ entries_of count (take size (drop at b)))) }
    ensures few { IfOk result (λ read. IfSome read (λ entries. length entries ≡ count)) }
    ensures sized { IfOk result (λ read. IfSome read (λ entries. length (entries_bytes entries) ≡ size)) }
    ensures before { IsAsBefore (D.tells disk.old) (D.tells disk.new) }
    ensures later { (D.tells disk.old).faults ≤ (D.tells disk.new).faults }
    ensures failed { IsErrOf result trouble.Failed → Rose (D.tells disk.old).faults (D.tells disk.new).faults }
{
    ahead.reach(alloc, disk, at, size)?;
    let bytes = ahead.part(at, size);
    if bytes.len() < size as usize {
        return Ok(None);
    }
    let read = decode(alloc, bytes, count)?;
    Ok(read)
}

/// Whether the disk has more than so many bytes from a place on. It is asked only where fewer were read ahead.
fn has_more<D: Disk>(disk: &mut D, ahead: &Ahead, at: u64, size: u32) -> Result<bool, Failed>
    requires small { at < 2 ^ 32 }
    requires ahead { IsAhead ahead.now (D.tells disk.old).bytes }
    ensures told { IfOk result (λ more. IfSome (D.tells disk.old).bytes (λ b. more ≡ nat_lt size (length b - at))) }
    ensures before { IsAsBefore (D.tells disk.old) (D.tells disk.new) }
    ensures cause { HasCause (D.tells disk.old).faults (D.tells disk.new).faults result }
{
    let size = u64::from(size);
    if ahead.has(at, size + 1) {
        return Ok(true);
    }
    let length = disk.len()?;
    Ok(size < length.saturating_sub(at))
}

/// Whether a group of this size and count has room behind a gate at this place, where it is said whether there are more
/// than so many bytes behind the count.
fn fits(at: u64, size: u32, count: u32, more: bool) -> bool
    requires { at < 2 ^ 32 }
    ensures room { (left : ℕ) → more ≡ nat_lt size left → result ≡ has_room at size count left }
    ensures within { IsTrue result → (at + size + 10 ≤ longest_journal) × (0 < count) }
{
    more && at + u64::from(size) + 10 <= LONGEST_JOURNAL && 0 < count
}

/// The group of this size and count behind an open gate, where there is one.
fn group_at<D: Disk>(
    alloc: Global,
    disk: &mut D,
    ahead: &mut Ahead,
    at: u64,
    size: u32,
    count: u32,
) -> Result<Found, Trouble>
    requires small { at < 2 ^ 31 }
    requires ahead { IsAhead ahead.old (D.tells disk.old).bytes }
    ensures ahead { IsAhead ahead.new (D.tells disk.old).bytes }
    ensures told { IfOk result (λ found. IfSome (D.tells disk.old).bytes (λ b. IsHead (Open size count) (take 9 (drop at b)) → IsFound found at b)) }
    ensures within { IfOk result (λ found. IsSmall found at) }
    ensures before { IsAsBefore (D.tells disk.old) (D.tells disk.new) }
    ensures later { (D.tells disk.old).faults ≤ (D.tells disk.new).faults }
    ensures failed { IsErrOf result trouble.Failed → Rose (D.tells disk.old).faults (D.tells disk.new).faults }
{
    let more = has_more(disk, ahead, at + 9, size)?;
    if !fits(at, size, count, more) {
        return Ok(Found::Damage);
    }
    match read_entries(alloc, disk, ahead, at + 9, size, count)? {
        Some(entries) => Ok(Found::Next { entries, size }),
        None => Ok(Found::Damage),
    }
}

/// What stands at the gate at a place.
pub(crate) fn look<D: Disk>(
    alloc: Global,
    disk: &mut D,
    ahead: &mut Ahead,
    at: u64,
) -> Result<Found, Trouble>
    requires small { at < 2 ^ 31 }
    requires ahead { IsAhead ahead.old (D.tells disk.old).bytes }
    ensures ahead { IsAhead ahead.new (D.tells disk.old).bytes }
    ensures told { IfOk result (λ found. IfSome (D.tells disk.old).bytes (IsFound found at)) }
    ensures within { IfOk result (λ found. IsSmall found at) }
    ensures before { IsAsBefore (D.tells disk.old) (D.tells disk.new) }
    ensures later { (D.tells disk.old).faults ≤ (D.tells disk.new).faults }
    ensures failed { IsErrOf result trouble.Failed → Rose (D.tells disk.old).faults (D.tells disk.new).faults }
{
    match read_head(alloc, disk, ahead, at)? {
        Head::Closed => Ok(Found::End),
        Head::Cut => Ok(Found::Damage),
        Head::Open { size, count } => group_at(alloc, disk, ahead, at, size, count),
    }
}

impl<D: Disk> Journal<D> {
    /// The next group, or None where all groups were read; the journal is ready then.
    ///
    /// `Damaged` comes where an open gate is followed by no group; it comes again at the next call. `DiskFault` comes where
    /// the disk failed; the journal is broken then, and answers it at each later call. At [`OutOfMemory`] the journal is as
    /// before, and the same group is next. The journal's end moves by the bytes of the group's entries and nine, as with
    /// [`Journal::append`]. It takes memory for the group
    /// and for what is read ahead, which is 64 KiB or the group's bytes, and reads once for so many bytes.
    pub fn read_next(&mut self, alloc: Global) -> Result<Option<Group>, JournalError>
        ensures next { ReadsNext (D.tells self.old.disk).bytes self.old self.new result }
        ensures some { IfOk result (λ read. IfSome read (λ group. 0 < length group.entries)) }
        ensures place { IfOk result (λ read. IfSome read (λ group. self.new.at ≡ self.old.at + length (entries_bytes group.entries) + 9)) }
        ensures before { IsAsBefore (D.tells self.old.disk) (D.tells self.new.disk) }
        ensures ready { self.old.state ≡ Ready → (result ≡ Ok None) × (self.new ≡ self.old) }
        ensures broken { self.old.state ≡ Broken → (result ≡ Err error.DiskFault) × (self.new ≡ self.old) }
        ensures later { (D.tells self.old.disk).faults ≤ (D.tells self.new.disk).faults }
        ensures fault { result ≡ Err error.DiskFault → (self.old.state ≡ Broken) ⊎ Rose (D.tells self.old.disk).faults (D.tells self.new.disk).faults }
    {
        if self.state == State::Broken {
            return Err(JournalError::DiskFault);
        }
        if self.state == State::Ready {
            return Ok(None);
        }
        match look(alloc, &mut self.disk, &mut self.ahead, self.at) {
            Ok(Found::End) => {
                self.state = State::Ready;
                self.ahead = Ahead::new(alloc);
                Ok(None)
            }
            Ok(Found::Damage) => Err(JournalError::Damaged { at: self.at }),
            Ok(Found::Next { entries, size }) => {
                let at = self.at;
                self.at += u64::from(size) + 9;
                self.entries += entries.as_slice().len() as u64;
                Ok(Some(Group { at, entries }))
            }
            Err(Trouble::Failed) => {
                self.state = State::Broken;
                Err(JournalError::DiskFault)
            }
            Err(Trouble::OutOfMemory) => Err(JournalError::OutOfMemory),
        }
    }
}
