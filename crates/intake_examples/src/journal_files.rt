//! What `intake_journal` reads of files, and what it makes of single groups.

use crate::rows::{Row, bytes_of, number, row_of};
use intake_journal::{Journal, JournalError, LONGEST_JOURNAL, decode, encode, size};
use outside::{Disk, MemDisk};
use std::alloc::Global;
use std::convert::AsStr;
use std::test::Fail;
use zbx_types::{Bytes, Entry, Many, Moment, OutOfMemory, Text};

/// How many groups and entries are left in a journal, or why it isn't read to its end.
pub(crate) fn count_all<D: Disk>(
    alloc: Global,
    journal: &mut Journal<D>,
) -> Result<(u64, u64), JournalError> {
    let mut groups = 0u64;
    let mut entries = 0u64;
    for _ in 0..100 {
        match journal.read_next(alloc)? {
            Some(group) => {
                groups = groups.saturating_add(1);
                entries = entries.saturating_add(group.entries.as_slice().len() as u64);
                drop(group);
            }
            None => break,
        }
    }
    Ok((groups, entries))
}

/// How many groups and entries a file keeps, or why it wasn't opened or read to its end.
pub(crate) fn counted(alloc: Global, file: &[u8]) -> Result<(u64, u64), JournalError> {
    let bytes = Bytes::of(alloc, file)?;
    let disk = MemDisk::new(alloc, bytes, Many::new(alloc));
    match Journal::recover(alloc, disk, 1_000, LONGEST_JOURNAL) {
        Ok(journal) => {
            let mut journal = journal;
            let counted = count_all(alloc, &mut journal);
            drop(journal);
            counted
        }
        Err((disk, why)) => {
            drop(disk);
            Err(why)
        }
    }
}

/// What a file keeps whose bytes a text writes.
fn tell_file(alloc: Global, text: &str) -> Result<Text, OutOfMemory> {
    let file = bytes_of(alloc, text)?;
    Ok(Text::from(format!(in alloc; "{:?}", counted(alloc, file.as_slice()))?))
}

/// So many letters.
fn letters(alloc: Global, length: u64) -> Result<Text, OutOfMemory> {
    let mut letters = Text::new(alloc);
    for _ in 0..length {
        letters.push_str("a")?;
    }
    Ok(letters)
}

/// A group of a value of so many bytes.
fn value_of(alloc: Global, length: u64) -> Result<Many<Entry>, OutOfMemory> {
    let value = letters(alloc, length)?;
    let mut entries = Many::new(alloc);
    entries.push(Entry::Value {
        now: Moment { sec: 5, ns: 0 },
        item: 1,
        time: Moment { sec: 4, ns: 3 },
        value,
    })?;
    Ok(entries)
}

/// The bytes of a group.
fn encoded(alloc: Global, entries: &[Entry]) -> Result<Bytes, OutOfMemory> {
    let mut bytes = Bytes::new(alloc);
    encode(entries, &mut bytes)?;
    Ok(bytes)
}

/// Whether a value of so many bytes is read again.
fn is_read_again(alloc: Global, length: u64) -> Result<bool, OutOfMemory> {
    let entries = value_of(alloc, length)?;
    let bytes = encoded(alloc, entries.as_slice())?;
    drop(entries);
    Ok(decode(alloc, bytes.as_slice(), 1)?.is_some())
}

/// The size of a group of a value of so many bytes, and the bytes that are written.
fn tell_size(alloc: Global, length: u64) -> Result<Text, OutOfMemory> {
    let entries = value_of(alloc, length)?;
    let bytes = encoded(alloc, entries.as_slice())?;
    let size = size(entries.as_slice());
    drop(entries);
    Ok(Text::from(format!(in alloc; "{} {:?}", size, bytes.as_slice())?))
}

/// What comes of a case.
fn answer(alloc: Global, row: Row<'_>) -> Result<Text, OutOfMemory> {
    match row.kind {
        "file" => tell_file(alloc, row.input),
        "value is read again" => {
            let again = is_read_again(alloc, number(row.input))?;
            Ok(Text::from(format!(in alloc; "{again}")?))
        }
        "size" => tell_size(alloc, number(row.input)),
        _ => Text::of(alloc, "no such kind"),
    }
}

/// First files that keep nothing: short ones, also such as a crash may leave while a journal is made anew, and those whose
/// first gate isn't open. Then one of a configuration, and behind it a Tick and a value, the numbers written out by hand,
/// and the same without its last byte.
///
/// Then open gates behind which no group is: no size, a size that nothing fills, no entry, a size that is one less and one
/// more than the entry takes, a kind that there isn't, nanoseconds of a second, a text that isn't UTF-8; and beside them
/// the last nanosecond.
///
/// A value has at most 65,535 bytes, and a size is what is written.
fn cases() -> &'static str {
    "file | Ok((0, 0))\n\
    file | Ok((0, 0)) | %01%02%03%04%05%06%07%08%09\n\
    file | Ok((0, 0)) | ZTSJ%00\n\
    file | Ok((0, 0)) | ZTSJRN01%01\n\
    file | Err(NotOurs) | %00%00%00%00%00%00%00%00%00%00\n\
    file | Err(NotOurs) | ZTSJRN03%00%00\n\
    file | Err(Unfinished) | ZTSJRN02%00%00\n\
    file | Ok((0, 0)) | ZTSJRN01%00%00\n\
    file | Ok((0, 0)) | ZTSJRN01%02%00\n\
    file | Ok((2, 3)) | ZTSJRN01%01%0f%00%00%00%01%00%00%00\
    %01%00%00%00%00%00%00%00%00%02%00%00%00{}\
    %01%25%00%00%00%02%00%00%00\
    %03%1e%00%00%00%07%00%00%00\
    %02%1f%00%00%00%01%00%00%00%02%00%00%00%1d%00%00%00%ff%c9%9a%3b%03%00%00%004.5\
    %00\n\
    file | Err(Damaged { at: 32 }) | ZTSJRN01%01%0f%00%00%00%01%00%00%00\
    %01%00%00%00%00%00%00%00%00%02%00%00%00{}\
    %01%25%00%00%00%02%00%00%00\
    %03%1e%00%00%00%07%00%00%00\
    %02%1f%00%00%00%01%00%00%00%02%00%00%00%1d%00%00%00%ff%c9%9a%3b%03%00%00%004.5\n\
    file | Err(Damaged { at: 8 }) | ZTSJRN01%01%00%00%00\n\
    file | Err(Damaged { at: 8 }) | ZTSJRN01%01%ff%ff%ff%ff%01%00%00%00\n\
    file | Err(Damaged { at: 8 }) | ZTSJRN01%01%00%00%00%00%00%00%00%00%00\n\
    file | Err(Damaged { at: 8 }) | ZTSJRN01%01%08%00%00%00%01%00%00%00%03%00%00%00%00%00%00%00%00%00\n\
    file | Err(Damaged { at: 8 }) | ZTSJRN01%01%0a%00%00%00%01%00%00%00%03%00%00%00%00%00%00%00%00%00%00\n\
    file | Err(Damaged { at: 8 }) | ZTSJRN01%01%09%00%00%00%01%00%00%00%04%00%00%00%00%00%00%00%00%00\n\
    file | Err(Damaged { at: 8 }) | ZTSJRN01%01%09%00%00%00%01%00%00%00%03%00%00%00%00%00%ca%9a%3b%00\n\
    file | Err(Damaged { at: 8 }) | ZTSJRN01%01%0e%00%00%00%01%00%00%00%01%00%00%00%00%00%00%00%00%01%00%00%00%ff%00\n\
    file | Ok((1, 1)) | ZTSJRN01%01%09%00%00%00%01%00%00%00%03%00%00%00%00%ff%c9%9a%3b%00\n\
    value is read again | true | 65535\n\
    value is read again | false | 65536\n\
    size | 28 [2, 5, 0, 0, 0, 0, 0, 0, 0, 1, 0, 0, 0, 4, 0, 0, 0, 3, 0, 0, 0, 3, 0, 0, 0, 97, 97, 97] | 3"
}

#[test]
fn a_file_keeps_the_groups_behind_open_gates(rt: HostRuntime) -> Result<(), Fail> {
    for line in cases().split('\n') {
        let row = row_of(line);
        let told = answer(rt.alloc(), row)?;
        assert_eq!(rt; told.as_str(), row.wanted, "{line}");
    }
    Ok(())
}
