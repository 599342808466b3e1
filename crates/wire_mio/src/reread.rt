//! Writers whose bytes can be read again.

ghost use Rattle.std.specs.Prelude.{◌≡◌, ◌≤◌, ◌<◌, ◌+◌, ◌^◌, Bool, true, false, length, take, drop, Some, None, IfSome, IfOk, OnOk, OnErr};
ghost use Rattle.outside.specs.Others.{first_other};
ghost use Rattle.wire_mio.specs.Adapters.{IsCompared};

use outside::{Failed, first_other};
use std::alloc::Allocator;
use std::io;
use std::io::{Error, ErrorKind, Stdout, Write};

/// A writer whose bytes may be read again, cut and synced, as those of a file.
pub trait Reread: Write {
    /// Whether they are this program's alone.
    ghost is_alone: { Self → Bool };

    /// Reads from a place on into the front of a slice, and answers how many bytes it read, or none where its bytes can't
    /// be read. 0 for a slice that isn't empty is the end.
    fn read_back(&mut self, into: &mut [u8], at: u64) -> io::Result<Option<usize>>
        ensures bound { IfOk result (λ read. IfSome read (λ count. count ≤ length into.new)) }
        ensures content { IfOk result (λ read. IfSome read (λ count. IfSome (Self.contents self.old) (λ b. take count into.new ≡ take count (drop at b)))) }
        ensures unread { IfOk result (λ read. read ≡ None → Self.contents self.old ≡ None) }
        ensures same { Self.contents self.new ≡ Self.contents self.old };

    /// Drops the bytes from a place on, which there are.
    fn cut(&mut self, to: u64) -> io::Result<()>
        ensures cut { OnOk result (IfSome (Self.contents self.old) (λ b. Self.contents self.new ≡ Some (take to b))) }
        ensures same { OnErr result (Self.contents self.new ≡ Self.contents self.old) };

    /// Waits until its bytes stay through a crash. One that keeps none has none to wait for.
    fn sync(&mut self) -> io::Result<()>
        ensures same { Self.contents self.new ≡ Self.contents self.old };
}

/// Standard output can't be read, nor cut, and others may write to it.
impl Reread for Stdout {
    ghost is_alone = { λ _. false };

    fn read_back(&mut self, _into: &mut [u8], _at: u64) -> io::Result<Option<usize>> {
        Ok(None)
    }

    fn cut(&mut self, _to: u64) -> io::Result<()> {
        Err(Error::from(ErrorKind::Unsupported))
    }

    fn sync(&mut self) -> io::Result<()> {
        Ok(())
    }
}

/// A slice has no way back to what was written to its front.
impl Reread for &mut [u8] {
    ghost is_alone = { λ _. true };

    fn read_back(&mut self, _into: &mut [u8], _at: u64) -> io::Result<Option<usize>> {
        Ok(None)
    }

    fn cut(&mut self, _to: u64) -> io::Result<()> {
        Err(Error::from(ErrorKind::Unsupported))
    }

    fn sync(&mut self) -> io::Result<()> {
        Ok(())
    }
}

/// A vector of bytes.
impl<A: Allocator> Reread for Vec<u8, A> {
    ghost is_alone = { λ _. true };

    fn read_back(&mut self, into: &mut [u8], at: u64) -> io::Result<Option<usize>> {
        let start = self.len().min(at as usize);
        let (_, behind) = self.as_slice().split_at(start);
        let count = into.len().min(behind.len());
        into[..count].copy_from_slice(&behind[..count]);
        Ok(Some(count))
    }

    fn cut(&mut self, to: u64) -> io::Result<()> {
        self.truncate(to as usize);
        Ok(())
    }

    fn sync(&mut self) -> io::Result<()> {
        Ok(())
    }
}

/// How many bytes are compared at once.
const AT_ONCE: usize = 4_096;

/// What one read shows of bytes that are looked for.
pub(crate) enum Compared {
    /// Nothing: the writer can't be read.
    Unread,
    /// So many of the first ones are there, and one at least.
    Same(usize),
    /// At this place, the first one of which this is so, there is another.
    Other(u64),
}

/// Compares bytes, of which there is one at least, with those from a place on, as many as one read shows. It fails where
/// the writer does or has none there.
fn compare<W: Reread>(writer: &mut W, at: u64, bytes: &[u8]) -> Result<Compared, Failed>
    requires small { at + length bytes.now < 2 ^ 64 }
    ensures compared { IfOk result (IsCompared (W.contents writer.old) at bytes.now) }
    ensures same { W.contents writer.new ≡ W.contents writer.old }
{
    let mut block = [0; AT_ONCE];
    let most = bytes.len().min(AT_ONCE);
    let into = &mut block[..most];
    match writer.read_back(into, at) {
        Ok(None) => Ok(Compared::Unread),
        Ok(Some(0)) | Err(_) => Err(Failed),
        Ok(Some(count)) => {
            let (shown, _) = into.split_at(count);
            let (front, _) = bytes.split_at(count);
            match first_other(at, front, shown) {
                Some(place) => Ok(Compared::Other(place)),
                None => Ok(Compared::Same(count)),
            }
        }
    }
}

/// The first place from `at` on at which a writer that holds so many bytes has another than these. It reads them in
/// blocks.
pub(crate) fn find_other<W: Reread>(
    writer: &mut W,
    held: u64,
    at: u64,
    bytes: &[u8],
) -> Result<Option<u64>, Failed>
    ensures place { IfOk result (λ found. IfSome (W.contents writer.old) (λ b. length b ≡ held → found ≡ first_other at bytes.now (drop at b))) }
    ensures within { IfOk result (λ found. IfSome found (λ place. (at ≤ place) × (place < at + length bytes.now) × (place < held))) }
    ensures same { W.contents writer.new ≡ W.contents writer.old }
{
    let mut place = at;
    let mut rest = bytes;
    while place < held && !rest.is_empty() {
        let most = rest.len().min((held - place) as usize);
        let (front, _) = rest.split_at(most);
        match compare(writer, place, front)? {
            Compared::Unread => return Ok(None),
            Compared::Other(found) => return Ok(Some(found)),
            Compared::Same(count) => {
                let (_, behind) = rest.split_at(count);
                rest = behind;
                place += count as u64;
            }
        }
    }
    Ok(None)
}
