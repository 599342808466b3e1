//! Files as a sink uses them.

ghost use Rattle.std.specs.Prelude.{◌≡◌, true, false, IfOk, OnOk};
ghost use Rattle.wire_mio.specs.Adapters.{is_own};

use crate::file_disk::sync_folder;
use crate::reread::Reread;
use std::fs::{File, OpenOptions};
use std::io;
use std::io::{Error, ErrorKind, Write};
use std::marker::Model;
use std::os::unix::fs::{FileExt, MetadataExt};
use std::rt::Files;

/// A file that is added to. It can be read again where it held bytes when it was opened, and this program may read it.
#[derive(Drop)]
pub struct SinkFile {
    file: File,
    reader: Option<File>,
    stays: bool,
    has_lock: bool,
}

impl Model for SinkFile {
    ghost use Rattle.wire_mio.specs.Adapters.{Added};

    ghost Value = { Added };

    ghost view = { λ f. record { stays = f.stays; has_lock = f.has_lock } };
}

impl SinkFile {
    /// A file that is open for adding at its end, and whose lock wasn't asked. Whether its bytes stay is told.
    fn new(file: File, stays: bool) -> SinkFile
        ensures { result ≡ record { stays = stays; has_lock = false } }
    {
        SinkFile {
            file,
            reader: None,
            stays,
            has_lock: false,
        }
    }

    /// Takes it for this program alone, as long as this lives, where its bytes stay. It fails where another program has it,
    /// and touches nothing.
    fn lock(&mut self) -> io::Result<()>
        ensures { OnOk result (is_own self.new ≡ true) }
    {
        if !self.stays {
            return Ok(());
        }
        let tried = self.file.try_lock().map_err(Error::from);
        self.has_lock = tried.is_ok();
        tried
    }

    /// Lets its bytes be read again, where it holds some that stay, and answers how many it holds.
    fn look<R: Files<File = File>>(&mut self, rt: &R, path: &str) -> io::Result<u64>
        ensures same { self.new ≡ self.old }
    {
        let held = self.file.metadata()?.len();
        if self.stays {
            keep_name(rt, path)?;
            if 0 < held {
                self.reader = reader_of(rt, path, &self.file)?;
            }
        }
        Ok(held)
    }
}

/// Whether this is the cause of a call that this program may not make, or that a file of this kind doesn't have.
fn is_unable(error: &Error) -> bool {
    matches!(
        error.kind(),
        ErrorKind::PermissionDenied | ErrorKind::InvalidInput
    )
}

/// Lets a file's name stay through a crash, where this program may sync the folder that it is in.
fn keep_name<R: Files<File = File>>(rt: &R, path: &str) -> io::Result<()> {
    match sync_folder(rt, path) {
        Err(error) if !is_unable(&error) => Err(error),
        _ => Ok(()),
    }
}

/// The file at a path, opened for reading, or none where this program may not read it. It fails where another file has
/// come there.
fn reader_of<R: Files<File = File>>(rt: &R, path: &str, file: &File) -> io::Result<Option<File>> {
    match File::open(rt, path) {
        Ok(reader) => same_file(reader, file),
        Err(error) if error.kind() == ErrorKind::PermissionDenied => Ok(None),
        Err(error) => Err(error),
    }
}

/// A file that was opened for reading, where it is the same as another.
fn same_file(reader: File, file: &File) -> io::Result<Option<File>> {
    let read = reader.metadata()?;
    let written = file.metadata()?;
    if read.dev() == written.dev() && read.ino() == written.ino() {
        Ok(Some(reader))
    } else {
        drop(reader);
        Err(Error::from(ErrorKind::NotFound))
    }
}

/// A file that is opened for adding at its end, and made where there is none, for this program alone where its bytes stay;
/// and how many it holds.
pub(crate) fn opened<R: Files<File = File>>(rt: &R, path: &str) -> io::Result<(SinkFile, u64)>
    ensures alone { IfOk result (λ found. is_own found.0 ≡ true) }
{
    let file = OpenOptions::new().append(true).create(true).open(rt, path)?;
    let stays = file.metadata()?.is_file();
    let mut file = SinkFile::new(file, stays);
    file.lock()?;
    let held = file.look(rt, path)?;
    Ok((file, held))
}

impl Write for SinkFile {
    fn write(&mut self, buf: &[u8]) -> io::Result<usize> {
        self.file.write(buf)
    }

    fn flush(&mut self) -> io::Result<()> {
        self.file.flush()
    }
}

impl Reread for SinkFile {
    ghost is_alone = { is_own };

    fn read_back(&mut self, into: &mut [u8], at: u64) -> io::Result<Option<usize>> {
        match &self.reader {
            Some(reader) => Ok(Some(reader.read_at(into, at)?)),
            None => Ok(None),
        }
    }

    /// A file that has become shorter than that isn't made longer.
    fn cut(&mut self, to: u64) -> io::Result<()> {
        if self.file.metadata()?.len() < to {
            return Err(Error::from(ErrorKind::UnexpectedEof));
        }
        self.file.set_len(to)
    }

    /// A pipe, or another file of which the system syncs nothing, has none to wait for.
    fn sync(&mut self) -> io::Result<()> {
        if self.stays {
            self.file.sync_data()
        } else {
            Ok(())
        }
    }
}
