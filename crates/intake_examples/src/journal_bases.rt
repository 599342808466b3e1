//! Which bytes are bases, and what making a journal of one leaves, also where its disk fails.

ghost use Rattle.intake_journal.specs.BaseBytes.{IsFormed};

use crate::rows::{Row, bytes_of, number, numbers, row_of};
use intake_journal::{MakeError, decode_base, make};
use outside::MemDisk;
use std::alloc::Global;
use std::convert::AsStr;
use std::test::Fail;
use zbx_types::{Base, Bytes, Many, OutOfMemory, Text};

/// A journal with a base: up to entry 3 at 100.000000005, with Ticks at 30 and 90 and 34 bytes of lines. Its text is `c`.
/// One item keeps the value 7 of entry 2, and the first of its two steps remembers that. One problem is open, of trigger 4
/// since entry 3, with severity 2 and a tag; step 1 of action `m` ran for it, and step 2 of action `p`.
const FILE: &[u8] = b"ZTSJRN02\x01\xc7\0\0\0\
    \x03\0\0\0\0\0\0\0\x64\0\0\0\x05\0\0\0\
    \x01\x1e\0\0\0\0\0\0\0\x5a\0\0\0\0\0\0\0\
    \x22\0\0\0\0\0\0\0\x01\0\0\0c\
    \x01\0\0\0\
    \x01\0\0\0\x63\0\0\0\x01\0\0\0\x02\0\0\0\0\0\0\0\x01\0\0\x007\
    \x02\0\0\0\x01\x63\0\0\0\x01\0\0\0\x01\0\0\x007\0\0\0\0\0\0\0\0\0\0\0\0\0\
    \x01\0\0\0\
    \x03\0\0\0\0\0\0\0\x04\0\0\0\x64\0\0\0\x05\0\0\0\x02\0\
    \x01\0\0\0h\x01\0\0\0t\x01\0\0\0n\x01\0\0\0\x01\0\0\0a\x01\0\0\0b\
    \x02\0\0\0\x01\0\0\0m\x01\0\0\0\x64\0\0\0\x05\0\0\0\x01\0\0\0p\x02\0\0\0\x64\0\0\0\x05\0\0\0\
    \0";

/// The bytes of its base, which stand behind 13 others and before a gate.
fn base_bytes() -> &'static [u8] {
    let behind = &FILE[13..];
    &behind[..behind.len() - 1]
}

/// Whether bytes are a base.
fn is_base(alloc: Global, bytes: &[u8]) -> Result<bool, OutOfMemory> {
    let read = decode_base(alloc, bytes)?;
    Ok(read.is_some())
}

/// Whether the base's bytes are one where the byte at this place is another.
fn change_byte(alloc: Global, place: u64, byte: u64) -> Result<Text, OutOfMemory> {
    let mut bytes = Bytes::of(alloc, base_bytes())?;
    if place < bytes.len() as u64 {
        bytes.set(place as usize, byte.min(255) as u8);
    }
    let is_base = is_base(alloc, bytes.as_slice())?;
    Ok(Text::from(format!(in alloc; "{is_base}")?))
}

/// How many of its shorter beginnings are bases.
fn cut_short(alloc: Global) -> Result<Text, OutOfMemory> {
    let bytes = base_bytes();
    let mut bases = 0u64;
    for length in 0..bytes.len() {
        if is_base(alloc, &bytes[..length])? {
            bases = bases.saturating_add(1);
        }
    }
    Ok(Text::from(format!(in alloc; "{bases}")?))
}

/// Whether it is one with these bytes behind it.
fn make_longer(alloc: Global, more: &str) -> Result<Text, OutOfMemory> {
    let more = bytes_of(alloc, more)?;
    let mut bytes = Bytes::of(alloc, base_bytes())?;
    bytes.extend(more.as_slice())?;
    let is_base = is_base(alloc, bytes.as_slice())?;
    Ok(Text::from(format!(in alloc; "{is_base}")?))
}

/// What making a journal of a base answers, and the disk.
fn make_on(alloc: Global, disk: MemDisk, base: &Base) -> (MemDisk, Result<(), MakeError>)
    requires { IsFormed base.now }
{
    match make(alloc, disk, base) {
        Ok(disk) => (disk, Ok(())),
        Err((disk, why)) => (disk, Err(why)),
    }
}

/// A disk of these bytes, whose call with this number fails.
fn disk_of(alloc: Global, file: &[u8], failing: u64) -> Result<MemDisk, OutOfMemory> {
    let mut fails = Many::new(alloc);
    fails.push(failing)?;
    Ok(MemDisk::new(alloc, Bytes::of(alloc, file)?, fails))
}

/// What making a journal of a base in a file of these bytes answers, and what the file holds then. The call with this number
/// fails.
fn made(
    alloc: Global,
    base: &Base,
    file: &[u8],
    failing: u64,
) -> Result<(Bytes, Result<(), MakeError>), OutOfMemory>
    requires { IsFormed base.now }
{
    let disk = disk_of(alloc, file, failing)?;
    let (disk, answer) = make_on(alloc, disk, base);
    let file = Bytes::of(alloc, disk.bytes().as_slice());
    drop(disk);
    Ok((file?, answer))
}

/// What making a journal of the base answers, and how many bytes the file holds then and which gate. The call with this
/// number fails.
fn fail_at(alloc: Global, base: &Base, failing: u64) -> Result<Text, OutOfMemory>
    requires { IsFormed base.now }
{
    let (file, answer) = made(alloc, base, b"", failing)?;
    let bytes = file.as_slice();
    let length = bytes.len();
    let gate = if length > 8 { bytes[8] } else { 0 };
    Ok(Text::from(format!(in alloc; "{answer:?} {length} {gate}")?))
}

/// Whether the file holds the journal then and nothing else.
fn hold_base(alloc: Global, base: &Base) -> Result<Text, OutOfMemory>
    requires { IsFormed base.now }
{
    let (file, _) = made(alloc, base, b"", 100)?;
    let holds = file.as_slice() == FILE;
    Ok(Text::from(format!(in alloc; "{holds}")?))
}

/// What making a journal of the base answers in a file of these bytes, and whether it holds them then.
fn fill_held(alloc: Global, base: &Base, text: &str) -> Result<Text, OutOfMemory>
    requires { IsFormed base.now }
{
    let held = bytes_of(alloc, text)?;
    let (file, answer) = made(alloc, base, held.as_slice(), 100)?;
    let is_same = file.as_slice() == held.as_slice();
    Ok(Text::from(format!(in alloc; "{answer:?} {is_same}")?))
}

/// What making a journal of the base answers where it has another number and other bytes of lines.
fn count_more(alloc: Global, base: Base, number: u64, lines: u64) -> Result<Text, OutOfMemory>
    requires { IsFormed base }
{
    let mut base = base;
    base.number = number;
    base.lines = lines;
    let (_, answer) = made(alloc, &base, b"", 100)?;
    Ok(Text::from(format!(in alloc; "{answer:?}")?))
}

/// What comes of a case of the base.
fn answer_of(alloc: Global, base: Base, row: Row<'_>) -> Result<Text, OutOfMemory>
    requires { IsFormed base }
{
    match row.kind {
        "made" => hold_base(alloc, &base),
        "failing call" => fail_at(alloc, &base, number(row.input)),
        "held" => fill_held(alloc, &base, row.input),
        _ => {
            let (number, lines) = numbers(row.input);
            count_more(alloc, base, number, lines)
        }
    }
}

/// What comes of a case.
fn answer(alloc: Global, row: Row<'_>) -> Result<Text, OutOfMemory> {
    match row.kind {
        "byte" => {
            let (place, byte) = numbers(row.input);
            change_byte(alloc, place, byte)
        }
        "cut" => cut_short(alloc),
        "longer" => make_longer(alloc, row.input),
        _ => match decode_base(alloc, base_bytes())? {
            Some(base) => answer_of(alloc, base, row),
            None => Ok(Text::new(alloc)),
        },
    }
}

/// A base is refused for a byte that is wrong at its place: nanoseconds of a second and more, a Tick, a remembered value or
/// a maintenance that is neither there nor not, moments of no Tick, an empty text, bytes that are no text, a length or a
/// count that doesn't fit, names of actions out of order. Other numbers are read as they are. Making a journal takes seven
/// calls of the disk: length, beginning, sync, base, sync, gate, sync.
fn cases() -> &'static str {
    "byte | true | 0 255\n\
    byte | true | 15 59\n\
    byte | false | 15 60\n\
    byte | false | 16 0\n\
    byte | false | 16 2\n\
    byte | false | 24 60\n\
    byte | false | 32 60\n\
    byte | true | 40 255\n\
    byte | false | 41 0\n\
    byte | false | 41 2\n\
    byte | false | 45 255\n\
    byte | false | 46 0\n\
    byte | false | 46 2\n\
    byte | false | 50 0\n\
    byte | false | 50 2\n\
    byte | false | 61 60\n\
    byte | true | 69 255\n\
    byte | false | 70 2\n\
    byte | false | 74 128\n\
    byte | false | 75 1\n\
    byte | false | 75 3\n\
    byte | true | 79 0\n\
    byte | false | 79 2\n\
    byte | false | 87 60\n\
    byte | false | 92 192\n\
    byte | true | 93 1\n\
    byte | false | 101 60\n\
    byte | false | 106 0\n\
    byte | false | 106 2\n\
    byte | true | 117 255\n\
    byte | true | 121 255\n\
    byte | false | 129 60\n\
    byte | true | 130 255\n\
    byte | true | 131 1\n\
    byte | false | 131 2\n\
    byte | false | 136 255\n\
    byte | false | 141 255\n\
    byte | false | 146 255\n\
    byte | false | 147 0\n\
    byte | false | 147 2\n\
    byte | false | 155 255\n\
    byte | false | 160 255\n\
    byte | false | 161 1\n\
    byte | false | 161 3\n\
    byte | true | 169 112\n\
    byte | false | 169 113\n\
    byte | false | 169 255\n\
    byte | true | 170 0\n\
    byte | false | 181 60\n\
    byte | true | 186 109\n\
    byte | false | 186 108\n\
    cut | 0\n\
    longer | true\n\
    longer | false | %00\n\
    made | true\n\
    failing call | Err(DiskFault) 0 0 | 1\n\
    failing call | Err(DiskFault) 0 0 | 2\n\
    failing call | Err(DiskFault) 9 0 | 3\n\
    failing call | Err(DiskFault) 9 0 | 4\n\
    failing call | Err(DiskFault) 213 0 | 5\n\
    failing call | Err(DiskFault) 213 0 | 6\n\
    failing call | Err(DiskFault) 213 1 | 7\n\
    failing call | Ok(()) 213 1 | 8\n\
    held | Ok(()) false\n\
    held | Err(NotEmpty { bytes: 1 }) true | %00\n\
    held | Err(NotEmpty { bytes: 9 }) true | ZTSJRN02%00\n\
    counts | Ok(()) | 9000000000000000000 9000000000000000000\n\
    counts | Err(TooLarge { bytes: 213 }) | 9000000000000000001 0\n\
    counts | Err(TooLarge { bytes: 213 }) | 0 9000000000000000001"
}

#[test]
fn a_base_is_made_whole_or_not_read(rt: HostRuntime) -> Result<(), Fail> {
    for line in cases().split('\n') {
        let row = row_of(line);
        let told = answer(rt.alloc(), row)?;
        assert_eq!(rt; told.as_str(), row.wanted, "{line}");
    }
    Ok(())
}
