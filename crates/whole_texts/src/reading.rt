//! Reading a source to its end.

ghost use Rattle.std.specs.Prelude.{◌<◌, ◌≤◌, ◌^◌, length, IfSome, IfOk};
ghost use Rattle.std.specs.Io.KnownBytes.{IsAtEnd};
ghost use Rattle.whole_texts.specs.Reads.{HasReadCause, IsTextUpTo, ReadsText, ReadsUpTo};

use outside::{Failed, Source};
use std::alloc::Global;
use zbx_types::Bytes;

/// Why a source was not read to its end.
#[derive(Clone, Copy, Debug, PartialEq, Eq)]
pub enum ReadError {
    /// The source failed, and its count rose.
    Failed,
    /// No memory was to be had.
    OutOfMemory,
}

/// Reads a source to its end, or until it has given more than this many bytes.
pub fn read_all<S: Source>(alloc: Global, most: u32, source: &mut S) -> Result<Bytes, ReadError>
    requires { most < 2 ^ 31 }
    ensures cause { HasReadCause (S.faults source.old) (S.faults source.new) result }
    ensures taken { ReadsUpTo most (S.left source.old) (S.left source.new) }
    ensures read { IfOk result (λ text. ReadsText most (S.left source.old) (S.left source.new) text) }
    ensures end { IfOk result (λ text. length text ≤ most → IsAtEnd (S.left source.new)) }
    ensures text { IfSome (S.left source.old) (λ all. IfOk result (IsTextUpTo most all)) }
{
    let mut text = Bytes::new(alloc);
    let mut piece = [0; 4096];
    for _ in 0..most + 1 {
        let room = piece.len().min(most as usize + 1 - text.len());
        match source.read(&mut piece[..room]) {
            Ok(0) => return Ok(text),
            Ok(count) => {
                if text.extend(&piece[..count]).is_err() {
                    return Err(ReadError::OutOfMemory);
                }
                if text.len() > most as usize {
                    return Ok(text);
                }
            }
            Err(Failed) => return Err(ReadError::Failed),
        }
    }
    Ok(text)
}
