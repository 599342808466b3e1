//! Files as a disk uses them.

ghost use Rattle.std.specs.Prelude.{◌≡◌, ◌≤◌, ℕ, Bool, true, false, length, IfOk, OnOk};
ghost use Rattle.wire_mio.specs.Adapters.{CountsFailed};

use outside::Tally;
use std::fs::File;
use std::io;
use std::marker::Model;
use std::os::unix::fs::FileExt;

/// Bytes that are read and written at places, as those of a file. Contracts count the calls that have failed.
pub trait Stored {
    /// How many calls have failed.
    ghost failed: { Self → ℕ };

    /// Whether they are this program's alone.
    ghost has_lock: { Self → Bool };

    /// Takes them for this program alone, as long as this lives. It fails where another program has them, and touches
    /// nothing.
    fn lock(&mut self) -> io::Result<()>
        ensures lock { OnOk result (has_lock self.new ≡ true) }
        ensures failed { CountsFailed (failed self.old) (failed self.new) result };

    /// How many bytes there are.
    fn len(&mut self) -> io::Result<u64>
        ensures { CountsFailed (failed self.old) (failed self.new) result };

    /// Reads from a place on into the front of a slice, and answers how many bytes it read. 0 for a slice that isn't empty
    /// is the end.
    fn read_at(&mut self, into: &mut [u8], at: u64) -> io::Result<usize>
        ensures bound { IfOk result (λ count. count ≤ length into.new) }
        ensures failed { CountsFailed (failed self.old) (failed self.new) result };

    /// Writes all of a piece at a place.
    fn write_all_at(&mut self, piece: &[u8], at: u64) -> io::Result<()>
        ensures { CountsFailed (failed self.old) (failed self.new) result };

    /// Waits until what was written stays through a crash.
    fn sync(&mut self) -> io::Result<()>
        ensures { CountsFailed (failed self.old) (failed self.new) result };
}

/// A file, with a count of its calls that failed, which contracts alone read.
#[derive(Drop)]
pub struct DiskFile {
    file: File,
    failed: Tally,
    has_lock: bool,
}

impl Model for DiskFile {
    ghost use Rattle.wire_mio.specs.Adapters.{Locked};

    ghost Value = { Locked };

    ghost view = { λ f. record { failed = f.failed; has_lock = f.has_lock } };
}

impl DiskFile {
    /// A file of which no call has failed yet, and whose lock wasn't asked.
    pub fn new(file: File) -> DiskFile
        ensures { result ≡ record { failed = 0; has_lock = false } }
    {
        DiskFile {
            file,
            failed: Tally::zero(),
            has_lock: false,
        }
    }

    /// Counts a call where it failed.
    fn counted<T>(&mut self, tried: io::Result<T>) -> io::Result<T>
        ensures answer { result ≡ tried }
        ensures failed { CountsFailed self.old.failed self.new.failed tried }
        ensures lock { self.new.has_lock ≡ self.old.has_lock }
    {
        if tried.is_err() {
            self.failed.rise();
        }
        tried
    }
}

impl Stored for DiskFile {
    ghost failed = { λ f. f.failed };

    ghost has_lock = { λ f. f.has_lock };

    fn lock(&mut self) -> io::Result<()> {
        let tried = self.file.try_lock().map_err(io::Error::from);
        self.has_lock = tried.is_ok();
        self.counted(tried)
    }

    fn len(&mut self) -> io::Result<u64> {
        let tried = self.file.metadata().map(|found| found.len());
        self.counted(tried)
    }

    fn read_at(&mut self, into: &mut [u8], at: u64) -> io::Result<usize> {
        let tried = self.file.read_at(into, at);
        self.counted(tried)
    }

    fn write_all_at(&mut self, piece: &[u8], at: u64) -> io::Result<()> {
        let tried = self.file.write_all_at(piece, at);
        self.counted(tried)
    }

    fn sync(&mut self) -> io::Result<()> {
        let tried = self.file.sync_data();
        self.counted(tried)
    }
}
