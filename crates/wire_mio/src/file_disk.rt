//! Disks over files.

ghost use Rattle.std.specs.Prelude.{◌≡◌, ◌≤◌, length, Some, None, false, IfOk};
ghost use Rattle.outside.specs.Causes.{HasCause};
ghost use Rattle.outside.specs.Disk.{silent, silent_lawful};
ghost use Rattle.wire_mio.specs.Adapters.{FailsAsFile, IsAlone, faults_behind};

use crate::stored::{DiskFile, Stored};
use outside::{Disk, Failed};
use std::convert::AsStr;
use std::fs::{File, OpenOptions};
use std::io;
use std::marker::Model;
use std::path::Path;
use std::rt::Files;
use zbx_types::Text;

/// A disk over a file. It tells neither its bytes nor what a crash leaves of them.
///
/// Each call is one call of the file, and fails where that does. One without a file, which couldn't be opened, fails at
/// every call.
#[derive(Drop)]
pub struct FileDisk<F: Stored> {
    file: Option<F>,
    faults: u64,
}

impl<F: Stored> Model for FileDisk<F> {
    ghost use Rattle.std.specs.Prelude.{false};
    ghost use Rattle.std.specs.Option.{option_map, option_map_or};
    ghost use Rattle.wire_mio.specs.Adapters.{Filed};

    ghost Value = { Filed };

    ghost view = { λ d. record { failed = option_map F.failed d.file; has_lock = option_map_or F.has_lock d.file false; faults = d.faults } };
}

impl<F: Stored> FileDisk<F> {
    /// A disk over this.
    pub fn over(file: F) -> FileDisk<F>
        ensures { result ≡ record { failed = Some (F.failed file); has_lock = F.has_lock file; faults = 0 } }
    {
        FileDisk {
            file: Some(file),
            faults: 0,
        }
    }

    /// A disk without a file, at which every call fails.
    pub fn without() -> FileDisk<F>
        ensures { result ≡ record { failed = None; has_lock = false; faults = 0 } }
    {
        FileDisk {
            file: None,
            faults: 0,
        }
    }
}

impl<F: Stored + Drop> FileDisk<F> {
    /// A disk over this where it can be taken for this program alone, and else one without a file.
    pub fn alone(file: F) -> FileDisk<F>
        ensures alone { IsAlone result }
        ensures faults { result.faults ≡ 0 }
    {
        let mut file = file;
        if file.lock().is_ok() {
            FileDisk::over(file)
        } else {
            drop(file);
            FileDisk::without()
        }
    }
}

impl FileDisk<DiskFile> {
    /// A disk over the file at a path, which is made where there is none. The folder that it stands in is synced, so that
    /// a crash leaves its name. It is this program's alone as long as the disk lives. Where it can't be opened or made, its
    /// folder can't be synced, or another program has it, every call fails, and nothing of it is touched.
    pub fn at<R: Files<File = File>>(rt: &R, path: &Text) -> FileDisk<DiskFile>
        ensures faults { result.faults ≡ 0 }
        ensures alone { IsAlone result }
    {
        match opened(rt, path.as_str()) {
            Ok(file) => FileDisk::alone(DiskFile::new(file)),
            Err(_) => FileDisk::without(),
        }
    }
}

/// A file opened for reading and writing, and made where there is none, in a folder that was synced then.
fn opened<R: Files<File = File>>(rt: &R, path: &str) -> io::Result<File> {
    let file = OpenOptions::new()
        .read(true)
        .write(true)
        .create(true)
        .open(rt, path)?;
    sync_folder(rt, path)?;
    Ok(file)
}

/// Syncs the folder that a path lies in, so that a crash leaves the path's name.
pub(crate) fn sync_folder<R: Files<File = File>>(rt: &R, path: &str) -> io::Result<()> {
    let folder = match Path::new(path).parent() {
        Some(folder) if !folder.as_str().is_empty() => folder.as_str(),
        _ => ".",
    };
    File::open(rt, folder)?.sync_all()
}

impl<F: Stored> Disk for FileDisk<F> {
    ghost tells = { λ d. silent d.faults };

    ghost lawful = { λ d. silent_lawful d.faults };

    fn faults(&self) -> u64 {
        self.faults
    }

    fn len(&mut self) -> Result<u64, Failed>
        ensures failed { FailsAsFile self.old.failed self.new.failed result }
        ensures faults { self.new.faults ≡ faults_behind self.old.faults result }
        ensures cause { HasCause self.old.faults self.new.faults result }
    {
        if let Some(file) = &mut self.file {
            if let Ok(length) = file.len() {
                return Ok(length);
            }
        }
        self.faults = self.faults.saturating_add(1);
        Err(Failed)
    }

    fn read(&mut self, at: u64, into: &mut [u8]) -> Result<usize, Failed>
        ensures bound { IfOk result (λ count. count ≤ length into.new) }
        ensures failed { FailsAsFile self.old.failed self.new.failed result }
        ensures faults { self.new.faults ≡ faults_behind self.old.faults result }
        ensures cause { HasCause self.old.faults self.new.faults result }
    {
        if let Some(file) = &mut self.file {
            if let Ok(count) = file.read_at(into, at) {
                return Ok(count);
            }
        }
        self.faults = self.faults.saturating_add(1);
        Err(Failed)
    }

    fn write_at(&mut self, at: u64, piece: &[u8]) -> Result<(), Failed>
        ensures failed { FailsAsFile self.old.failed self.new.failed result }
        ensures faults { self.new.faults ≡ faults_behind self.old.faults result }
        ensures cause { HasCause self.old.faults self.new.faults result }
    {
        if let Some(file) = &mut self.file {
            if file.write_all_at(piece, at).is_ok() {
                return Ok(());
            }
        }
        self.faults = self.faults.saturating_add(1);
        Err(Failed)
    }

    fn sync(&mut self) -> Result<(), Failed>
        ensures failed { FailsAsFile self.old.failed self.new.failed result }
        ensures faults { self.new.faults ≡ faults_behind self.old.faults result }
        ensures cause { HasCause self.old.faults self.new.faults result }
    {
        if let Some(file) = &mut self.file {
            if file.sync().is_ok() {
                return Ok(());
            }
        }
        self.faults = self.faults.saturating_add(1);
        Err(Failed)
    }
}
