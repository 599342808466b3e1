//! Standard output as a sink.

ghost use Rattle.std.specs.Prelude.{◌≡◌, true, false, None};

use crate::writer::WriterSink;
use std::io::Stdout;

/// A sink that writes to standard output. It counts the bytes written to it. It can't be read, so it never differs, and
/// can't be cut.
pub type StdSink = WriterSink<Stdout>;

impl WriterSink<Stdout> {
    /// A sink that writes to standard output.
    pub fn new(to: Stdout) -> StdSink
        ensures { result ≡ record { has_writer = true; is_alone = false; bytes = None; held = 0; faults = 0 } }
    {
        WriterSink::over(to, 0)
    }
}
