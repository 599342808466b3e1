//! Lines of records, on their way to a sink.

ghost use Rattle.std.specs.Prelude.{◌≡◌, ◌≤◌, ◌++◌, ℕ, List, [], length, drop, OnOk, OnErr};
ghost use Rattle.zbx_types.specs.declared.entries.Rec.{Rec};
ghost use Rattle.outside.specs.Causes.{HasCause};
ghost use Rattle.event_text.specs.Lines.{lines_of};
ghost use Rattle.book_opening.specs.Tally.{tally_with};
ghost use Rattle.book_opening.specs.Outgoing.{Grew};

use crate::tally::Tally;
use crate::writing::write_all;
use outside::{Failed, Sink};
use std::alloc::Global;
use std::mem;
use zbx_types::{Bytes, OutOfMemory, Rec};

/// Adds the lines of records, and counts them.
#[tactic(auto, using(crate::proofs::Growing::length_append))]
pub fn add_lines(
    alloc: Global,
    records: &[Rec],
    tally: &mut Tally,
    lines: &mut Bytes,
) -> Result<(), OutOfMemory>
    ensures lines { OnOk result (lines.new ≡ lines.old ++ lines_of records.now) }
    ensures tally { OnOk result (tally.new ≡ tally_with tally.old records.now) }
    ensures err { OnErr result ((lines.new ≡ lines.old) × (tally.new ≡ tally.old)) }
{
    let before = lines.len();
    event_text::lines(alloc, records, lines)?;
    tally.add(records, lines.len() - before);
    Ok(())
}

/// The bytes behind the first ones of this number.
#[tactic(auto, using(std::proofs::lemmas::List::drop_all))]
pub fn behind(bytes: &[u8], first: u64) -> &[u8]
    ensures { result.now ≡ drop first bytes.now }
{
    if first <= bytes.len() as u64 {
        &bytes[first as usize..]
    } else {
        &[]
    }
}

/// Drops so many of the first bytes. Takes no memory.
fn drop_front(alloc: Global, bytes: &mut Bytes, count: usize)
    requires { count ≤ length bytes.old }
    ensures { bytes.new ≡ drop count bytes.old }
{
    let mut all = mem::replace(bytes, Bytes::new(alloc)).into_vec();
    let left = all.len() - count;
    all.rotate_left(count);
    all.truncate(left);
    *bytes = Bytes::from(all);
}

/// Writes all bytes, and drops those that were written. At `Err` some from the front were.
pub fn write_out<O: Sink>(
    alloc: Global,
    outbox: &mut O,
    unwritten: &mut Bytes,
) -> Result<(), Failed>
    ensures written { (front : List ℕ) × Grew (O.tells outbox.old) (O.tells outbox.new) front
        × (unwritten.old ≡ front ++ unwritten.new) }
    ensures all { OnOk result (unwritten.new ≡ []) }
    ensures cause { HasCause (O.tells outbox.old).faults (O.tells outbox.new).faults result }
{
    let before = outbox.held();
    let written = write_all(outbox, unwritten.as_slice());
    let count = outbox.held() - before;
    drop_front(alloc, unwritten, count as usize);
    written
}
