//! Entries written as bytes.

ghost use Rattle.std.specs.Prelude.{◌≡◌, ◌++◌, ◌∷◌, ◌-◌, ◌/◌, ◌^◌, ◌<◌, min, length, take, All, Some, OnOk, OnErr};
ghost use Rattle.intake_journal.specs.Bytes.{number_bytes, moment_bytes, entry_bytes, entries_bytes, IsTyped, HasShortValue};
ghost use Rattle.intake_journal.specs.Format.{entries_of};

use byteorder::{ByteOrder, LittleEndian};
use std::convert::AsStr;
use zbx_types::{Bytes, Entry, Moment, OutOfMemory};

/// What stands before the text of a configuration.
fn config_head(now: Moment, length: u32) -> [u8; 13]
    ensures bytes { result ≡ 1 ∷ moment_bytes now ++ number_bytes length }
    ensures typed { now / 1000000000 < 2 ^ 32 }
{
    let mut head = [0; 13];
    head[0] = 1;
    LittleEndian::write_u32(&mut head[1..5], now.sec);
    LittleEndian::write_u32(&mut head[5..9], now.ns);
    LittleEndian::write_u32(&mut head[9..13], length);
    head
}

/// What stands before the text of a value.
fn value_head(now: Moment, item: u32, time: Moment, length: u32) -> [u8; 25]
    ensures bytes { result ≡ 2 ∷ moment_bytes now ++ number_bytes item ++ moment_bytes time ++ number_bytes length }
    ensures typed { (now / 1000000000 < 2 ^ 32) × (item < 2 ^ 32) × (time / 1000000000 < 2 ^ 32) }
{
    let mut head = [0; 25];
    head[0] = 2;
    LittleEndian::write_u32(&mut head[1..5], now.sec);
    LittleEndian::write_u32(&mut head[5..9], now.ns);
    LittleEndian::write_u32(&mut head[9..13], item);
    LittleEndian::write_u32(&mut head[13..17], time.sec);
    LittleEndian::write_u32(&mut head[17..21], time.ns);
    LittleEndian::write_u32(&mut head[21..25], length);
    head
}

/// A Tick, the whole of it.
fn tick(now: Moment) -> [u8; 9]
    ensures bytes { result ≡ 3 ∷ moment_bytes now }
    ensures typed { now / 1000000000 < 2 ^ 32 }
{
    let mut made = [0; 9];
    made[0] = 3;
    LittleEndian::write_u32(&mut made[1..5], now.sec);
    LittleEndian::write_u32(&mut made[5..9], now.ns);
    made
}

/// A number whose four bytes are those of a length.
pub(crate) fn low(length: usize) -> u32
    ensures { number_bytes result ≡ number_bytes length }
{
    (length as u64 % (1 << 32)) as u32
}

/// Adds an entry. At [`OutOfMemory`] nothing was added.
fn put(out: &mut Bytes, entry: &Entry) -> Result<(), OutOfMemory>
    ensures ok { OnOk result (out.new ≡ out.old ++ entry_bytes entry.now) }
    ensures err { OnErr result (out.new ≡ out.old) }
    ensures typed { IsTyped entry.now }
{
    match entry {
        Entry::Config { now, text } => {
            let head = config_head(*now, low(text.len()));
            out.extend_both(&head, text.as_str().as_bytes())
        }
        Entry::Value {
            now,
            item,
            time,
            value,
        } => {
            let head = value_head(*now, *item, *time, low(value.len()));
            out.extend_both(&head, value.as_str().as_bytes())
        }
        Entry::Tick { now } => out.extend(&tick(*now)),
    }
}

/// Adds entries. At [`OutOfMemory`] some of them may have been added.
fn put_all(out: &mut Bytes, entries: &[Entry]) -> Result<(), OutOfMemory>
    ensures ok { OnOk result (out.new ≡ out.old ++ entries_bytes entries.now) }
    ensures err { OnErr result (take (length out.old) out.new ≡ out.old) }
    ensures typed { OnOk result (All IsTyped entries.now) }
{
    for entry in entries {
        put(out, entry)?;
    }
    Ok(())
}

/// Adds the bytes of entries. At [`OutOfMemory`] `out` is as before.
///
/// What was written is read again as the same entries, where no value has more than 65,535 bytes and all of it less than
/// 2^32.
pub fn encode(entries: &[Entry], out: &mut Bytes) -> Result<(), OutOfMemory>
    ensures ok { OnOk result (out.new ≡ out.old ++ entries_bytes entries.now) }
    ensures err { OnErr result (out.new ≡ out.old) }
    ensures again { OnOk result (All HasShortValue entries.now → length (entries_bytes entries.now) < 2 ^ 32
        → entries_of (length entries.now) (entries_bytes entries.now) ≡ Some entries.now) }
{
    let before = out.len();
    let done = put_all(out, entries);
    if done.is_err() {
        out.truncate(before);
    }
    done
}

/// How many bytes an entry is, or 2^64 - 1 where it is more.
#[tactic(auto, unfolding(crate::specs::Bytes::entry_bytes))]
fn entry_size(entry: &Entry) -> u64
    ensures { result ≡ min (length (entry_bytes entry.now)) (2 ^ 64 - 1) }
{
    match entry {
        Entry::Config { text, .. } => (text.len() as u64).saturating_add(13),
        Entry::Value { value, .. } => (value.len() as u64).saturating_add(25),
        Entry::Tick { .. } => 9,
    }
}

/// How many bytes entries are, or 2^64 - 1 where they are more.
pub fn size(entries: &[Entry]) -> u64
    ensures { result ≡ min (length (entries_bytes entries.now)) (2 ^ 64 - 1) }
{
    let mut total = 0u64;
    for entry in entries {
        total = total.saturating_add(entry_size(entry));
    }
    total
}
