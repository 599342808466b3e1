//! Sinks over writers.

ghost use Rattle.std.specs.Prelude.{◌≡◌, ◌≤◌, ◌<◌, true, false, length, None, IfOk};
ghost use Rattle.std.specs.Option.{option_and_then};
ghost use Rattle.std.specs.Io.KnownBytes.{WriteAppends};
ghost use Rattle.wire_mio.specs.Adapters.{counted};
ghost use Rattle.wire_mio.specs.SinkLaws.{counted_held};

use crate::reread::{Reread, find_other};
use outside::{Failed, Sink};
use std::marker::Model;

/// A sink over a writer. Each write is handed on in one call, and nothing is kept back. It tells the bytes that it holds
/// where its writer tells as many as the sink counts; a file tells none. Where it is compared it reads its writer in blocks.
///
/// One without a writer, whose file couldn't be opened, fails at every call.
#[derive(Drop)]
pub struct WriterSink<W: Reread> {
    writer: Option<W>,
    held: u64,
    faults: u64,
}

impl<W: Reread> Model for WriterSink<W> {
    ghost use Rattle.std.specs.Prelude.{false};
    ghost use Rattle.std.specs.Option.{option_and_then, option_map_or, is_some};
    ghost use Rattle.wire_mio.specs.Adapters.{Holding, counted};

    ghost Value = { Holding };

    ghost view = { λ s. record { has_writer = is_some s.writer; is_alone = option_map_or W.is_alone s.writer false; bytes = counted s.held (option_and_then W.contents s.writer); held = s.held; faults = s.faults } };
}

impl<W: Reread> WriterSink<W> {
    /// A sink over a writer that holds this many bytes.
    pub fn over(writer: W, held: u64) -> WriterSink<W>
        ensures { result ≡ record { has_writer = true; is_alone = W.is_alone writer; bytes = counted held (W.contents writer); held = held; faults = 0 } }
    {
        WriterSink {
            writer: Some(writer),
            held,
            faults: 0,
        }
    }

    /// A sink without a writer, at which every call fails.
    pub fn without() -> WriterSink<W>
        ensures { result ≡ record { has_writer = false; is_alone = false; bytes = None; held = 0; faults = 0 } }
    {
        WriterSink {
            writer: None,
            held: 0,
            faults: 0,
        }
    }
}

impl<W: Reread> Sink for WriterSink<W> {
    ghost tells = { λ s. record { bytes = counted s.held s.bytes; held = s.held; faults = s.faults } };

    ghost held_is = { λ s. counted_held s.held s.bytes };

    fn faults(&self) -> u64 {
        self.faults
    }

    fn held(&self) -> u64 {
        self.held
    }

    fn write(&mut self, piece: &[u8]) -> Result<usize, Failed> {
        if self.held.checked_add(piece.len() as u64).is_some() {
            if let Ok(count) = hand_on(&mut self.writer, piece) {
                self.held += count as u64;
                return Ok(count);
            }
        }
        self.faults = self.faults.saturating_add(1);
        Err(Failed)
    }

    #[tactic(auto, using(crate::proofs::Rereading::counted_told))]
    fn differs(&mut self, at: u64, bytes: &[u8]) -> Result<Option<u64>, Failed> {
        if let Some(writer) = &mut self.writer {
            if let Ok(found) = find_other(writer, self.held, at, bytes) {
                return Ok(found);
            }
        }
        self.faults = self.faults.saturating_add(1);
        Err(Failed)
    }

    fn cut(&mut self, to: u64) -> Result<(), Failed> {
        if let Some(writer) = &mut self.writer {
            if self.held <= to {
                return Ok(());
            }
            if writer.cut(to).is_ok() {
                self.held = to;
                return Ok(());
            }
        }
        self.faults = self.faults.saturating_add(1);
        Err(Failed)
    }

    fn sync(&mut self) -> Result<(), Failed> {
        if let Some(writer) = &mut self.writer {
            if writer.sync().is_ok() {
                return Ok(());
            }
        }
        self.faults = self.faults.saturating_add(1);
        Err(Failed)
    }
}

/// Hands a piece to a writer in one call, and answers how many of its bytes were taken. It fails where there is no
/// writer, where the writer does, and where none were taken of a piece that has some.
fn hand_on<W: Reread>(writer: &mut Option<W>, piece: &[u8]) -> Result<usize, Failed>
    ensures bound { IfOk result (λ count. count ≤ length piece.now) }
    ensures some { IfOk result (λ count. 0 < length piece.now → 0 < count) }
    ensures bytes { WriteAppends (option_and_then W.contents writer.old) (option_and_then W.contents writer.new) result piece.now }
{
    let Some(writer) = writer else {
        return Err(Failed);
    };
    match writer.write(piece) {
        Ok(0) if !piece.is_empty() => Err(Failed),
        Ok(count) => Ok(count),
        Err(_) => Err(Failed),
    }
}
