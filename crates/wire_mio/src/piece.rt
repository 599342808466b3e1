//! Pieces that are read.

ghost use Rattle.std.specs.Prelude.{◌≡◌, ◌≤◌, length, take, OnOk};
ghost use Rattle.wire_mio.specs.Pieces.{IsRead};
ghost use Rattle.wire_mio.specs.Queues.{longest_piece};

use std::alloc::Global;
use std::io::{ErrorKind, Read};
use std::mem::replace;
use zbx_types::{Bytes, OutOfMemory};

/// The longest piece in bytes.
pub(crate) const LONGEST_PIECE: usize = 65_536;

/// How many reads read bytes away at one time, at most.
const READS: u32 = 16;

/// What a read of a connection came to.
#[derive(Drop)]
pub(crate) enum Got {
    /// These bytes came.
    Piece(Bytes),
    /// The other side has sent all that it sends.
    End,
    /// Nothing is there yet.
    Nothing,
    /// The read was cut short by a signal, and may be tried again.
    Again,
    /// The connection is lost.
    Lost,
}

/// Makes a buffer as long as the longest piece, where it isn't.
pub(crate) fn fill_out(alloc: Global, buffer: &mut Vec<u8>) -> Result<(), OutOfMemory>
    ensures { OnOk result (length buffer.new.items ≡ longest_piece) }
{
    if buffer.len() != LONGEST_PIECE {
        *buffer = Vec::from_elem(alloc, 0, LONGEST_PIECE)?;
    }
    Ok(())
}

/// Reads once, into a buffer as long as the longest piece. No byte that was read is lost: where there is no memory for a
/// piece of its own, the buffer itself is the piece.
pub(crate) fn read_piece<R: Read>(alloc: Global, buffer: &mut Vec<u8>, reader: &mut R) -> Got
    requires { length buffer.old.items ≡ longest_piece }
    ensures { IsRead (R.remaining reader.old) (R.remaining reader.new) result }
{
    match reader.read(buffer.as_mut_slice()) {
        Ok(0) => Got::End,
        Ok(count) => Got::Piece(cut(alloc, buffer, count)),
        Err(error) => match error.kind() {
            ErrorKind::WouldBlock => Got::Nothing,
            ErrorKind::Interrupted => Got::Again,
            _ => Got::Lost,
        },
    }
}

/// The first bytes of a buffer: a copy, or where there is no memory for one, the buffer itself.
fn cut(alloc: Global, buffer: &mut Vec<u8>, count: usize) -> Bytes
    requires { count ≤ length buffer.old.items }
    ensures { result ≡ take count buffer.old.items }
{
    match Bytes::of(alloc, &buffer[..count]) {
        Ok(copy) => copy,
        Err(OutOfMemory) => {
            let mut whole = replace(buffer, Vec::new(alloc));
            whole.truncate(count);
            Bytes::from(whole)
        }
    }
}

/// What reading bytes away came to.
#[derive(Clone, Copy)]
pub(crate) enum Away {
    /// There may be more.
    More,
    /// Nothing is there yet.
    Nothing,
    /// No byte will come any more.
    Gone,
}

/// Reads away what a reader has, as far as some reads go. The buffer isn't empty.
pub(crate) fn read_away<R: Read>(buffer: &mut Vec<u8>, reader: &mut R) -> Away {
    for _ in 0..READS {
        match reader.read(buffer.as_mut_slice()) {
            Ok(0) => return Away::Gone,
            Ok(_) => {}
            Err(error) => match error.kind() {
                ErrorKind::WouldBlock => return Away::Nothing,
                ErrorKind::Interrupted => {}
                _ => return Away::Gone,
            },
        }
    }
    Away::More
}
