//! Bytes that grow at their end.

ghost use Rattle.std.specs.Prelude.{◌≡◌, ◌++◌, [], OnOk};
ghost use Rattle.std.specs.Fmt.{decimal};

use std::marker::Model;
use zbx_types::{Bytes, OutOfMemory};

/// Bytes whose front stays: what is written stands behind it, and can be dropped again. Contracts see both parts.
#[derive(Drop)]
pub(crate) struct Page {
    bytes: Bytes,
    start: usize,
}

impl Model for Page {
    ghost use Rattle.std.specs.Prelude.{◌≤◌, length, take, drop};
    ghost use Rattle.event_text.specs.Pages.{Parted};

    ghost Value = { Parted };

    ghost view = { λ p. record { front = take p.start p.bytes; back = drop p.start p.bytes } };

    ghost invariant = { λ p. p.start ≤ length p.bytes };
}

impl Page {
    /// Bytes as the front, with nothing behind them.
    pub(crate) fn of(bytes: Bytes) -> Page
        ensures front { result.front ≡ bytes }
        ensures back { result.back ≡ [] }
    {
        let start = bytes.len();
        Page { bytes, start }
    }

    /// Adds bytes at the end.
    pub(crate) fn extend(&mut self, more: &[u8]) -> Result<(), OutOfMemory>
        ensures ok { OnOk result (self.new.back ≡ self.old.back ++ more.now) }
        ensures front { self.new.front ≡ self.old.front }
    {
        self.bytes.extend(more)
    }

    /// Adds a number in decimal digits at the end.
    pub(crate) fn push_decimal(&mut self, number: u64) -> Result<(), OutOfMemory>
        ensures ok { OnOk result (self.new.back ≡ self.old.back ++ decimal number) }
        ensures front { self.new.front ≡ self.old.front }
    {
        self.bytes.push_decimal(number)
    }

    /// The front and what stands behind it.
    pub(crate) fn whole(self) -> Bytes
        ensures { result ≡ self.front ++ self.back }
    {
        self.bytes
    }

    /// The front alone.
    pub(crate) fn front(self) -> Bytes
        ensures { result ≡ self.front }
    {
        let mut bytes = self.bytes;
        bytes.truncate(self.start);
        bytes
    }
}
