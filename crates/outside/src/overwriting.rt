//! Bytes that are overwritten where they lie.

ghost use Rattle.std.specs.Prelude.{◌≡◌, ◌≤◌, ◌+◌, ◌-◌, ◌++◌, length, take, drop, replicate, OnOk, OnErr};

use std::alloc::Global;
use std::mem::replace;
use zbx_types::{Bytes, OutOfMemory};

/// Adds zeros up to this length, where there are fewer bytes. At [`OutOfMemory`] the bytes are as before.
pub(crate) fn stretch(alloc: Global, bytes: &mut Bytes, least: usize) -> Result<(), OutOfMemory>
    ensures ok { OnOk result (bytes.new ≡ bytes.old ++ replicate (least - length bytes.old) 0) }
    ensures err { OnErr result (bytes.new ≡ bytes.old) }
{
    let mut held = replace(bytes, Bytes::new(alloc)).into_vec();
    let answer = held.resize(held.len().max(least), 0);
    *bytes = Bytes::from(held);
    Ok(answer?)
}

/// Puts a piece over the bytes at a place. Takes no memory.
pub(crate) fn lay(alloc: Global, bytes: &mut Bytes, at: usize, piece: &[u8])
    requires { at + length piece.now ≤ length bytes.old }
    ensures { bytes.new ≡ take at bytes.old ++ piece.now ++ drop (at + length piece.now) bytes.old }
{
    let mut held = replace(bytes, Bytes::new(alloc)).into_vec();
    held[at..at + piece.len()].copy_from_slice(piece);
    *bytes = Bytes::from(held);
}
