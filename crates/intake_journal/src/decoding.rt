//! Entries read from bytes.

ghost use Rattle.std.specs.Prelude.{◌≡◌, ◌<◌, ◌+◌, ◌*◌, IfOk};
ghost use Rattle.intake_journal.specs.Format.{number_at, moment_at, piece_at, text_of, value_at, config_at, kind_at, entry_at, entries_of};
ghost use Rattle.intake_journal.specs.Given.{Gives};

use byteorder::{ByteOrder, LittleEndian};
use std::alloc::{AllocFailed, Global};
use zbx_types::{Entry, LONGEST_VALUE, Many, Moment, OutOfMemory, Text};

/// Why bytes weren't read.
#[derive(Clone, Copy)]
pub(crate) enum Unread {
    /// No memory was to be had.
    Memory,
    /// The format has no such bytes.
    Malformed,
}

impl<T: Drop> From<AllocFailed<T>> for Unread {
    ghost use Rattle.std.specs.Prelude.{◌≡◌};
    ghost use Rattle.intake_journal.specs.declared.decoding.Unread.TheVariants as unread;

    ghost from_gives = { λ _ e. e ≡ unread.Memory };

    fn from(_refused: AllocFailed<T>) -> Unread {
        Unread::Memory
    }
}

/// The number at the front, and the bytes behind it.
pub(crate) fn number_of(bytes: &[u8]) -> Result<(u32, &[u8]), Unread>
    ensures { Gives (λ x. (x.0, x.1.now)) result (number_at bytes.now) }
{
    if bytes.len() < 4 {
        return Err(Unread::Malformed);
    }
    let (front, rest) = bytes.split_at(4);
    Ok((LittleEndian::read_u32(front), rest))
}

/// The seconds and the nanoseconds of the moment at the front, and the bytes behind it.
#[tactic(auto, unfolding(crate::specs::Format::moment_at))]
pub(crate) fn moment_of(bytes: &[u8]) -> Result<(u32, u32, &[u8]), Unread>
    ensures parts { Gives (λ x. (x.0 * 1000000000 + x.1, x.2.now)) result (moment_at bytes.now) }
    ensures below { IfOk result (λ x. x.1 < 1000000000) }
{
    let (sec, rest) = number_of(bytes)?;
    let (ns, rest) = number_of(rest)?;
    if ns >= 1_000_000_000 {
        return Err(Unread::Malformed);
    }
    Ok((sec, ns, rest))
}

/// The bytes of the text at the front, and the bytes behind it.
#[tactic(auto, unfolding(crate::specs::Format::piece_at))]
pub(crate) fn piece_of(bytes: &[u8]) -> Result<(&[u8], &[u8]), Unread>
    ensures { Gives (λ x. (x.0.now, x.1.now)) result (piece_at bytes.now) }
{
    let (size, rest) = number_of(bytes)?;
    let size = size as usize;
    if rest.len() < size {
        return Err(Unread::Malformed);
    }
    Ok(rest.split_at(size))
}

/// A copy of the bytes as a text.
#[tactic(auto, using(crate::proofs::Texts::text_read, crate::proofs::Texts::text_refused))]
pub(crate) fn text_of(alloc: Global, bytes: &[u8]) -> Result<Text, Unread>
    ensures { Gives (λ x. x) result (text_of bytes.now) }
{
    match str::from_utf8(bytes) {
        Ok(text) => match Text::of(alloc, text) {
            Ok(made) => Ok(made),
            Err(OutOfMemory) => Err(Unread::Memory),
        },
        Err(_) => Err(Unread::Malformed),
    }
}

/// What stands behind the moment of a configuration, and the bytes behind it.
#[tactic(auto, unfolding(crate::specs::Format::config_at))]
fn config_of(alloc: Global, now: Moment, bytes: &[u8]) -> Result<(Entry, &[u8]), Unread>
    ensures { Gives (λ x. (x.0, x.1.now)) result (config_at now bytes.now) }
{
    let (piece, rest) = piece_of(bytes)?;
    let text = text_of(alloc, piece)?;
    Ok((Entry::Config { now, text }, rest))
}

/// What stands behind the moment of a value, and the bytes behind it.
#[tactic(auto, unfolding(crate::specs::Format::value_at))]
fn value_of(alloc: Global, now: Moment, bytes: &[u8]) -> Result<(Entry, &[u8]), Unread>
    ensures { Gives (λ x. (x.0, x.1.now)) result (value_at now bytes.now) }
{
    let (item, rest) = number_of(bytes)?;
    let (sec, ns, rest) = moment_of(rest)?;
    let (piece, rest) = piece_of(rest)?;
    if piece.len() > LONGEST_VALUE {
        return Err(Unread::Malformed);
    }
    let value = text_of(alloc, piece)?;
    let time = Moment { sec, ns };
    Ok((
        Entry::Value {
            now,
            item,
            time,
            value,
        },
        rest,
    ))
}

/// The entry at the front, and the bytes behind it.
#[tactic(auto, unfolding(crate::specs::Format::entry_at, crate::specs::Format::kind_at))]
fn entry_of(alloc: Global, bytes: &[u8]) -> Result<(Entry, &[u8]), Unread>
    ensures { Gives (λ x. (x.0, x.1.now)) result (entry_at bytes.now) }
{
    let [kind, rest @ ..] = bytes else {
        return Err(Unread::Malformed);
    };
    let (sec, ns, rest) = moment_of(rest)?;
    let now = Moment { sec, ns };
    match *kind {
        1 => config_of(alloc, now, rest),
        2 => value_of(alloc, now, rest),
        3 => Ok((Entry::Tick { now }, rest)),
        _ => Err(Unread::Malformed),
    }
}

/// So many entries, which are all of the bytes.
fn list_of(alloc: Global, bytes: &[u8], count: u32) -> Result<Many<Entry>, Unread>
    ensures { Gives (λ x. x) result (entries_of count bytes.now) }
{
    let mut entries = Many::new(alloc);
    let mut rest = bytes;
    for _ in 0..count {
        match entry_of(alloc, rest) {
            Ok((entry, behind)) => {
                entries.push(entry)?;
                rest = behind;
            }
            Err(why) => return Err(why),
        }
    }
    if !rest.is_empty() {
        return Err(Unread::Malformed);
    }
    Ok(entries)
}

/// The entries that the bytes are, so many as `count` says, or None where the bytes aren't exactly so many. [`OutOfMemory`]
/// where there is no room for them.
pub fn decode(alloc: Global, bytes: &[u8], count: u32) -> Result<Option<Many<Entry>>, OutOfMemory>
    ensures { IfOk result (λ read. read ≡ entries_of count bytes.now) }
{
    match list_of(alloc, bytes, count) {
        Ok(entries) => Ok(Some(entries)),
        Err(Unread::Malformed) => Ok(None),
        Err(Unread::Memory) => Err(OutOfMemory),
    }
}
