//! Bytes that wait to go out on a connection.

ghost use Rattle.std.specs.Prelude.{◌≡◌, ◌≤◌, ◌++◌, [], true, length, drop, OnOk, OnErr, IfOk};
ghost use Rattle.wire_mio.specs.Queues.{most_waiting};
ghost use Rattle.wire_mio.specs.Pieces.{GoesOut};

use outside::Failed;
use std::alloc::Global;
use std::io::{ErrorKind, Write};
use std::marker::Model;
use std::mem::replace;
use zbx_types::Bytes;

/// How many bytes may wait on one connection: those of a longest frame.
const MOST_WAITING: usize = 16_777_229;

/// Bytes that were sent on a connection and wait to go out, in their order.
#[derive(Drop)]
pub(crate) struct Waiting {
    alloc: Global,
    bytes: Bytes,
    /// How many of them have gone out.
    gone: usize,
    /// Whether some came to wait or went out since this was asked.
    moved: bool,
}

impl Model for Waiting {
    ghost use Rattle.std.specs.Prelude.{ℕ, List, ◌≤◌, drop, length};

    ghost Value = { List ℕ };

    ghost view = { λ w. drop w.gone w.bytes };

    ghost invariant = { λ w. w.gone ≤ length w.bytes };
}

impl Waiting {
    /// No byte waits. Takes no memory.
    pub(crate) fn new(alloc: Global) -> Waiting
        ensures { result ≡ [] }
    {
        Waiting {
            alloc,
            bytes: Bytes::new(alloc),
            gone: 0,
            moved: false,
        }
    }

    /// Whether no byte waits.
    #[tactic(auto, using(crate::proofs::GoingOut::none_left))]
    pub(crate) fn is_empty(&self) -> bool
        ensures { result ≡ true → self.now ≡ [] }
    {
        self.bytes.len() == self.gone
    }

    /// Has more bytes wait behind these. It fails where they would be too many, with those that have gone out since some began to
    /// wait, and where there is no memory for them.
    #[tactic(auto, using(crate::proofs::GoingOut::left_with))]
    pub(crate) fn add(&mut self, more: &[u8]) -> Result<(), Failed>
        ensures ok { OnOk result (self.new ≡ self.old ++ more.now) }
        ensures err { OnErr result (self.new ≡ self.old) }
        ensures most { OnOk result (length self.new ≤ most_waiting) }
    {
        let length = self.bytes.len();
        if MOST_WAITING < length || MOST_WAITING - length < more.len() {
            return Err(Failed);
        }
        self.moved = true;
        match self.bytes.extend(more) {
            Ok(()) => Ok(()),
            Err(_) => Err(Failed),
        }
    }

    /// Whether some came to wait or went out since this was asked.
    pub(crate) fn has_moved(&mut self) -> bool
        ensures { self.new ≡ self.old }
    {
        replace(&mut self.moved, false)
    }

    /// Lets none wait any more.
    pub(crate) fn clear(&mut self)
        ensures { self.new ≡ [] }
    {
        drop(replace(&mut self.bytes, Bytes::new(self.alloc)));
        self.gone = 0;
    }

    /// Writes bytes from the front, as many as there is room for at once; these wait no more.
    pub(crate) fn flush<W: Write>(&mut self, to: &mut W) -> Result<(), Failed>
        ensures { GoesOut (W.contents to.old) self.old (W.contents to.new) self.new }
    {
        let count = write_front(to, &self.bytes.as_slice()[self.gone..])?;
        self.pass(count);
        Ok(())
    }

    /// So many bytes from the front have gone out.
    #[tactic(auto, using(crate::proofs::GoingOut::left_behind, crate::proofs::GoingOut::left_length, crate::proofs::GoingOut::none_left))]
    fn pass(&mut self, count: usize)
        requires { count ≤ length self.old }
        ensures { self.new ≡ drop count self.old }
    {
        let length = self.bytes.len();
        self.gone += count;
        self.moved = self.moved || 0 < count;
        if self.gone == length {
            self.clear();
        }
    }

    /// Writes the bytes that wait, and behind them others, as many as there is room for at once. Answers those of the others that
    /// are left, all of them where some still wait.
    #[tactic(auto, using(crate::proofs::GoingOut::out_behind_none, crate::proofs::GoingOut::out_more, crate::proofs::GoingOut::out_both))]
    pub(crate) fn write_behind<'a, W: Write>(
        &mut self,
        to: &mut W,
        bytes: &'a [u8],
    ) -> Result<&'a [u8], Failed>
        ensures { IfOk result (λ left. GoesOut (W.contents to.old) (self.old ++ bytes.now) (W.contents to.new) (self.new ++ left.now)) }
    {
        if self.is_empty() {
            return write_rest(to, bytes);
        }
        self.flush(to)?;
        if self.is_empty() {
            write_rest(to, bytes)
        } else {
            Ok(bytes)
        }
    }
}

/// Writes bytes from the front of a slice, as many as there is room for at once, and answers those that are left.
fn write_rest<'a, W: Write>(to: &mut W, bytes: &'a [u8]) -> Result<&'a [u8], Failed>
    ensures { IfOk result (λ left. GoesOut (W.contents to.old) bytes.now (W.contents to.new) left.now) }
{
    let count = write_front(to, bytes)?;
    Ok(&bytes[count..])
}

/// Writes bytes from the front of a slice, as many as there is room for at once, and answers how many.
#[tactic(auto, using(crate::proofs::GoingOut::out_front, crate::proofs::GoingOut::out_kept))]
fn write_front<W: Write>(to: &mut W, bytes: &[u8]) -> Result<usize, Failed>
    ensures most { IfOk result (λ count. count ≤ length bytes.now) }
    ensures out { IfOk result (λ count. GoesOut (W.contents to.old) bytes.now (W.contents to.new) (drop count bytes.now)) }
    ensures err { OnErr result (GoesOut (W.contents to.old) bytes.now (W.contents to.new) bytes.now) }
{
    match to.write(bytes) {
        Ok(count) => Ok(count),
        Err(error) => match error.kind() {
            ErrorKind::WouldBlock | ErrorKind::Interrupted => Ok(0),
            _ => Err(Failed),
        },
    }
}
