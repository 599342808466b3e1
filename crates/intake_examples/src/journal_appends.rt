//! What adding groups to an `intake_journal` leaves on its disk, also where the disk fails.

ghost use Rattle.std.specs.Prelude.{◌≡◌, ◌≢◌, ◌<◌, length, All, IfOk};
ghost use Rattle.intake_journal.specs.Bytes.{HasShortValue};
ghost use Rattle.intake_journal.specs.declared.state.State.TheVariants.{Reading};

use crate::journal_files::counted;
use crate::rows::{Row, bytes_of, number, row_of};
use intake_journal::{AppendError, Block, Journal, JournalError};
use outside::MemDisk;
use std::alloc::Global;
use std::convert::AsStr;
use std::test::Fail;
use zbx_types::{Bytes, Entry, Many, Moment, OutOfMemory, Text};

/// A journal of no group, a Tick's group behind its first gate, and the gate behind it.
const WITH_A_TICK: &[u8] = b"ZTSJRN01\x01\x09\0\0\0\x01\0\0\0\x03\x05\0\0\0\x07\0\0\0\0";

/// The same with the group three times.
const WITH_THREE_TICKS: &[u8] = b"ZTSJRN01\
    \x01\x09\0\0\0\x01\0\0\0\x03\x05\0\0\0\x07\0\0\0\
    \x01\x09\0\0\0\x01\0\0\0\x03\x05\0\0\0\x07\0\0\0\
    \x01\x09\0\0\0\x01\0\0\0\x03\x05\0\0\0\x07\0\0\0\
    \0";

/// A group of one Tick.
fn tick(alloc: Global) -> Result<Many<Entry>, OutOfMemory>
    ensures some { IfOk result (λ group. 0 < length group) }
    ensures short { IfOk result (λ group. All HasShortValue group) }
{
    let mut group = Many::new(alloc);
    group.push(Entry::Tick {
        now: Moment { sec: 5, ns: 7 },
    })?;
    Ok(group)
}

/// A value of one byte.
fn value(alloc: Global) -> Result<Entry, OutOfMemory>
    ensures { IfOk result HasShortValue }
{
    Ok(Entry::Value {
        now: Moment { sec: 5, ns: 7 },
        item: 1,
        time: Moment { sec: 4, ns: 3 },
        value: Text::of(alloc, "a")?,
    })
}

/// A group of so many values.
fn values(alloc: Global, count: u16) -> Result<Many<Entry>, OutOfMemory>
    ensures many { IfOk result (λ group. length group ≡ count) }
    ensures short { IfOk result (λ group. All HasShortValue group) }
{
    let mut group = Many::new(alloc);
    for _ in 0..count {
        group.push(value(alloc)?)?;
    }
    Ok(group)
}

/// The ready journal of a disk whose file keeps no group, or the disk.
fn ready(
    alloc: Global,
    disk: MemDisk,
    max_entries: u16,
    max_bytes: u16,
) -> Result<Journal<MemDisk>, MemDisk>
    ensures { IfOk result (λ journal. journal.state ≢ Reading) }
{
    match Journal::recover(alloc, disk, u64::from(max_entries), u64::from(max_bytes)) {
        Ok(mut journal) => match journal.read_next(alloc) {
            Ok(None) => Ok(journal),
            _ => Err(journal.end()),
        },
        Err((disk, _)) => Err(disk),
    }
}

/// What adding a Tick's group answers, and the disk.
fn add(alloc: Global, journal: Journal<MemDisk>) -> (MemDisk, Result<(), AppendError>)
    requires { journal.state ≢ Reading }
{
    let mut journal = journal;
    let answer = match tick(alloc) {
        Ok(group) => journal.append_group(alloc, group.as_slice()),
        Err(OutOfMemory) => Err(AppendError::OutOfMemory),
    };
    (journal.end(), answer)
}

/// A block of a Tick's group three times.
fn three(alloc: Global, journal: &Journal<MemDisk>) -> Result<Block, AppendError>
    ensures { IfOk result (λ block. 0 < length block) }
{
    let group = tick(alloc)?;
    let mut block = Block::new(alloc)?;
    journal.stage(&mut block, group.as_slice())?;
    journal.stage(&mut block, group.as_slice())?;
    journal.stage(&mut block, group.as_slice())?;
    Ok(block)
}

/// What adding the three answers, and the disk.
fn add_three(alloc: Global, journal: Journal<MemDisk>) -> (MemDisk, Result<(), AppendError>)
    requires { journal.state ≢ Reading }
{
    let mut journal = journal;
    let answer = match three(alloc, &journal) {
        Ok(block) => journal.append(&block),
        Err(why) => Err(why),
    };
    (journal.end(), answer)
}

/// A disk of these bytes, whose call with this number fails.
fn disk_of(alloc: Global, file: &[u8], failing: u64) -> Result<MemDisk, OutOfMemory> {
    let mut fails = Many::new(alloc);
    fails.push(failing)?;
    Ok(MemDisk::new(alloc, Bytes::of(alloc, file)?, fails))
}

/// What adding a Tick's group, or three of them, answers from the disk on, and the disk.
fn open_and_add(
    alloc: Global,
    disk: MemDisk,
    thrice: bool,
    limits: (u16, u16),
) -> (MemDisk, Result<(), AppendError>) {
    let (max_entries, max_bytes) = limits;
    match ready(alloc, disk, max_entries, max_bytes) {
        Ok(journal) => {
            if thrice {
                add_three(alloc, journal)
            } else {
                add(alloc, journal)
            }
        }
        Err(disk) => (disk, Err(AppendError::DiskFault)),
    }
}

/// What adding to a file answers, and what the file holds then.
#[derive(Drop)]
struct Addition {
    answer: Result<(), AppendError>,
    file: Bytes,
}

/// Adds a Tick's group, or three of them, to a file. The call with this number fails.
fn added(
    alloc: Global,
    file: &[u8],
    failing: u64,
    thrice: bool,
    limits: (u16, u16),
) -> Result<Addition, OutOfMemory> {
    let disk = disk_of(alloc, file, failing)?;
    let (disk, answer) = open_and_add(alloc, disk, thrice, limits);
    let file = Bytes::of(alloc, disk.bytes().as_slice());
    drop(disk);
    Ok(Addition {
        answer,
        file: file?,
    })
}

/// A file that keeps no group, and has bytes behind its gate.
fn empty_journal() -> &'static [u8] {
    b"ZTSJRN01\0\x05\x05"
}

/// How many groups a file keeps, or why it isn't read.
fn groups_of(alloc: Global, file: &[u8]) -> Result<u64, JournalError> {
    match counted(alloc, file) {
        Ok((groups, _)) => Ok(groups),
        Err(why) => Err(why),
    }
}

/// The answer where the call with this number fails, and how many groups the file keeps then.
fn fail_at(alloc: Global, thrice: bool, failing: u64) -> Result<Text, OutOfMemory> {
    let limits = if thrice { (3, 63) } else { (1, 1_000) };
    let Addition { answer, file } = added(alloc, empty_journal(), failing, thrice, limits)?;
    let kept = groups_of(alloc, file.as_slice());
    Ok(Text::from(format!(in alloc; "{answer:?} {kept:?}")?))
}

/// The answer of adding a Tick's group to a new file of at most so many bytes.
fn fill_bytes(alloc: Global, max_bytes: u16) -> Result<Text, OutOfMemory> {
    let added = added(alloc, b"", 100, false, (1, max_bytes))?;
    Ok(Text::from(format!(in alloc; "{:?}", added.answer)?))
}

/// The answer of adding three groups where there is room for so many entries.
fn fill_entries(alloc: Global, max_entries: u16) -> Result<Text, OutOfMemory> {
    let added = added(alloc, empty_journal(), 100, true, (max_entries, 63))?;
    Ok(Text::from(format!(in alloc; "{:?}", added.answer)?))
}

/// Whether a file then holds the journal with the group and nothing else.
fn make_anew(alloc: Global, text: &str) -> Result<Text, OutOfMemory> {
    let file = bytes_of(alloc, text)?;
    let added = added(alloc, file.as_slice(), 100, false, (1, 1_000))?;
    let is_new = added.file.as_slice() == WITH_A_TICK;
    Ok(Text::from(format!(in alloc; "{is_new}")?))
}

/// Whether a file then holds the journal with three groups, behind which nothing is.
fn hold_three(alloc: Global) -> Result<Text, OutOfMemory> {
    let added = added(alloc, empty_journal(), 100, true, (3, 63))?;
    let holds = added.file.as_slice() == WITH_THREE_TICKS;
    Ok(Text::from(format!(in alloc; "{holds}")?))
}

/// Adds a group of values, a Tick's and one of values.
fn add_values(
    alloc: Global,
    journal: &mut Journal<MemDisk>,
    values: &[Entry],
    tick: &[Entry],
) -> Result<(), AppendError>
    requires read { journal.old.state ≢ Reading }
    requires some { (0 < length values.now) × (0 < length tick.now) }
    requires short { All HasShortValue values.now × All HasShortValue tick.now }
{
    journal.append_group(alloc, values)?;
    journal.append_group(alloc, tick)?;
    journal.append_group(alloc, values)
}

/// What adding them answers, and the disk.
fn with_values(
    alloc: Global,
    journal: Journal<MemDisk>,
    values: &[Entry],
    tick: &[Entry],
) -> (MemDisk, Result<(), AppendError>)
    requires read { journal.state ≢ Reading }
    requires some { (0 < length values.now) × (0 < length tick.now) }
    requires short { All HasShortValue values.now × All HasShortValue tick.now }
{
    let mut journal = journal;
    let answer = add_values(alloc, &mut journal, values, tick);
    (journal.end(), answer)
}

/// The answer of adding 250 values, a Tick and 250 values more to a new file, and how many groups and entries the file keeps
/// then.
fn add_many(alloc: Global) -> Result<Text, OutOfMemory> {
    let many = values(alloc, 250)?;
    let one = tick(alloc)?;
    let disk = disk_of(alloc, b"", 100)?;
    let (disk, answer) = match ready(alloc, disk, 501, 60_000) {
        Ok(journal) => with_values(alloc, journal, many.as_slice(), one.as_slice()),
        Err(disk) => (disk, Err(AppendError::DiskFault)),
    };
    let kept = counted(alloc, disk.bytes().as_slice());
    drop(disk);
    Ok(Text::from(format!(in alloc; "{answer:?} {kept:?}")?))
}

/// How many groups a file keeps whose gate has this byte, before so many bytes of the block that stands behind it.
fn kept_of_image(alloc: Global, gate: u8, behind: usize) -> Result<u64, JournalError> {
    let mut image = Bytes::of(alloc, &WITH_THREE_TICKS[..8])?;
    image.extend(&[gate])?;
    image.extend(&WITH_THREE_TICKS[9..][..behind.min(54)])?;
    groups_of(alloc, image.as_slice())
}

/// How many groups are kept behind a closed gate, whatever length of the block stands there.
fn kept_behind_closed(alloc: Global) -> Result<u64, JournalError> {
    let mut kept = 0u64;
    for behind in 0usize..55 {
        kept = kept.saturating_add(kept_of_image(alloc, 0, behind)?);
    }
    Ok(kept)
}

/// How many groups are kept behind a gate of this byte.
fn tell_gate(alloc: Global, gate: u64) -> Result<Text, OutOfMemory> {
    let kept = kept_of_image(alloc, gate.min(255) as u8, 54);
    Ok(Text::from(format!(in alloc; "{kept:?}")?))
}

/// What comes of a case.
fn answer(alloc: Global, row: Row<'_>) -> Result<Text, OutOfMemory> {
    match row.kind {
        "made anew" => make_anew(alloc, row.input),
        "room for bytes" => fill_bytes(alloc, number(row.input).min(1_000) as u16),
        "failing call" => fail_at(alloc, false, number(row.input)),
        "failing call of three" => fail_at(alloc, true, number(row.input)),
        "three" => hold_three(alloc),
        "room for entries" => fill_entries(alloc, number(row.input).min(1_000) as u16),
        "many values" => add_many(alloc),
        "open gate" => tell_gate(alloc, number(row.input)),
        _ => {
            let kept = kept_behind_closed(alloc);
            Ok(Text::from(format!(in alloc; "{kept:?}")?))
        }
    }
}

/// A short file is made anew. A journal is full at its limits. A group, or a block of three, takes nine calls of the disk:
/// sync, length, magic, gate, end, block, sync, gate, sync. Where one of the first eight fails the file keeps nothing; at
/// the last one the gate was written, and the answer is a fault all the same.
fn cases() -> &'static str {
    "made anew | true\n\
    made anew | true | ZTSJRN01%01\n\
    made anew | true | %00%00%00\n\
    room for bytes | Ok(()) | 27\n\
    room for bytes | Err(Full { entries: 1, bytes: 27 }) | 26\n\
    failing call | Err(DiskFault) Ok(0) | 1\n\
    failing call | Err(DiskFault) Ok(0) | 2\n\
    failing call | Err(DiskFault) Ok(0) | 3\n\
    failing call | Err(DiskFault) Ok(0) | 4\n\
    failing call | Err(DiskFault) Ok(0) | 5\n\
    failing call | Err(DiskFault) Ok(0) | 6\n\
    failing call | Err(DiskFault) Ok(0) | 7\n\
    failing call | Err(DiskFault) Ok(0) | 8\n\
    failing call | Err(DiskFault) Ok(1) | 9\n\
    failing call | Ok(()) Ok(1) | 10\n\
    failing call of three | Err(DiskFault) Ok(0) | 1\n\
    failing call of three | Err(DiskFault) Ok(0) | 2\n\
    failing call of three | Err(DiskFault) Ok(0) | 3\n\
    failing call of three | Err(DiskFault) Ok(0) | 4\n\
    failing call of three | Err(DiskFault) Ok(0) | 5\n\
    failing call of three | Err(DiskFault) Ok(0) | 6\n\
    failing call of three | Err(DiskFault) Ok(0) | 7\n\
    failing call of three | Err(DiskFault) Ok(0) | 8\n\
    failing call of three | Err(DiskFault) Ok(3) | 9\n\
    failing call of three | Ok(()) Ok(3) | 10\n\
    three | true\n\
    room for entries | Err(Full { entries: 3, bytes: 63 }) | 2\n\
    many values | Ok(()) Ok((3, 501))\n\
    closed gate | Ok(0)\n\
    open gate | Ok(3) | 1\n\
    open gate | Ok(0) | 2\n\
    open gate | Ok(0) | 255"
}

#[test]
fn all_groups_are_added_or_none(rt: HostRuntime) -> Result<(), Fail> {
    for line in cases().split('\n') {
        let row = row_of(line);
        let told = answer(rt.alloc(), row)?;
        assert_eq!(rt; told.as_str(), row.wanted, "{line}");
    }
    Ok(())
}
