//! Sinks that add to files.

ghost use Rattle.std.specs.Prelude.{◌≡◌, None};
ghost use Rattle.wire_mio.specs.Adapters.{IsOwn};

use crate::sink_file::{SinkFile, opened};
use crate::writer::WriterSink;
use std::convert::AsStr;
use std::fs::File;
use std::rt::Files;
use zbx_types::Text;

/// A sink that adds to a file. It holds the bytes that the file held when it was opened, and those written since. One that
/// held bytes then, and may be read, can be compared.
pub type FileSink = WriterSink<SinkFile>;

impl WriterSink<SinkFile> {
    /// A sink that adds at the end of the file at a path, which is made where there is none. It is this program's alone as
    /// long as the sink lives, unless it is one whose bytes don't stay, as a pipe. Where it can't be opened, its size can't
    /// be told, or another program has it, every call fails, and nothing of it is touched.
    pub fn at<R: Files<File = File>>(rt: &R, path: &Text) -> FileSink
        ensures bytes { result.bytes ≡ None }
        ensures faults { result.faults ≡ 0 }
        ensures alone { IsOwn result }
    {
        match opened(rt, path.as_str()) {
            Ok((file, held)) => WriterSink::over(file, held),
            Err(_) => WriterSink::without(),
        }
    }
}
