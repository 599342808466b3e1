//! Sources over files.

ghost use Rattle.std.specs.Prelude.{◌≡◌, None, IfOk};

use outside::{Failed, Source};
use std::alloc::Global;
use std::convert::AsStr;
use std::fs::File;
use std::io::{BufReader, Read};
use std::marker::Model;
use std::rt::Files;
use zbx_types::{OutOfMemory, Text};

/// How many bytes a source reads ahead. A script is read byte by byte, and this many bytes come with one call of the
/// system.
const AHEAD: usize = 65_536;

/// A source over a reader, as a file. It tells the bytes that are left where its reader does, which a file doesn't.
///
/// One whose file couldn't be opened fails at every call.
#[derive(Drop)]
pub struct FileSource<F: Read> {
    reader: Option<BufReader<F>>,
    faults: u64,
}

impl<F: Read> Model for FileSource<F> {
    ghost use Rattle.std.specs.Option.{option_and_then};
    ghost use Rattle.std.specs.Io.Buffered.{reader_remaining};
    ghost use Rattle.wire_mio.specs.Adapters.{Reading};

    ghost Value = { Reading };

    ghost view = { λ s. record { left = option_and_then (reader_remaining F.remaining) s.reader; faults = s.faults } };
}

impl<F: Read + Drop> FileSource<F> {
    /// A source over a reader. [`OutOfMemory`] where there is no room to read ahead; the reader is then gone.
    pub fn over(alloc: Global, reader: F) -> Result<FileSource<F>, OutOfMemory>
        ensures { IfOk result (λ s. s ≡ record { left = F.remaining reader; faults = 0 }) }
    {
        match BufReader::with_capacity(alloc, AHEAD, reader) {
            Ok(reader) => Ok(FileSource {
                reader: Some(reader),
                faults: 0,
            }),
            Err(_) => Err(OutOfMemory),
        }
    }
}

impl FileSource<File> {
    /// A source over the file at a path, which is opened for reading. [`OutOfMemory`] where there is no room to read
    /// ahead.
    pub fn at<R: Files<File = File>>(
        rt: &R,
        alloc: Global,
        path: &Text,
    ) -> Result<FileSource<File>, OutOfMemory>
        ensures { IfOk result (λ s. s ≡ record { left = None; faults = 0 }) }
    {
        match File::open(rt, path.as_str()) {
            Ok(file) => FileSource::over(alloc, file),
            Err(_) => Ok(FileSource {
                reader: None,
                faults: 0,
            }),
        }
    }
}

impl<F: Read> Source for FileSource<F> {
    ghost left = { λ s. s.left };

    ghost faults = { λ s. s.faults };

    fn faults(&self) -> u64 {
        self.faults
    }

    fn read(&mut self, into: &mut [u8]) -> Result<usize, Failed> {
        if let Some(reader) = &mut self.reader {
            if let Ok(count) = reader.read(into) {
                return Ok(count);
            }
        }
        self.faults = self.faults.saturating_add(1);
        Err(Failed)
    }
}
