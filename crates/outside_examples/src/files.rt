//! Sources, sinks and disks over files, readers and writers.

use crate::ports::{put_calls, put_number, put_reads};
use crate::rows::{Row, row_of};
use outside::Disk;
use std::convert::AsStr;
use std::io::{PipeReader, Read, pipe};
use std::os::fd::AsRawFd;
use std::test::Fail;
use std::{env, fs, io};
use wire_mio::{FileDisk, FileSink, FileSource, StdSink, WriterSink};
use zbx_types::{OutOfMemory, Text};

/// Gives one byte, then fails once, then ends.
#[derive(Drop)]
struct Flaky {
    calls: u8,
}

impl Read for Flaky {
    fn read(&mut self, buf: &mut [u8]) -> io::Result<usize> {
        self.calls = self.calls.saturating_add(1);
        match (self.calls, buf) {
            (1, [first, ..]) => {
                *first = b'a';
                Ok(1)
            }
            (2, _) => Err(io::Error::from(io::ErrorKind::Other)),
            _ => Ok(0),
        }
    }
}

/// Adds three reads of a source over a reader of three bytes.
fn put_reader(rt: &HostRuntime, told: &mut Text) -> Result<(), OutOfMemory> {
    let mut source = FileSource::over(rt.alloc(), b"abc".as_slice())?;
    let put = put_reads(told, &mut source, 3);
    drop(source);
    put
}

/// The same over a reader that fails at its second call.
fn put_flaky(rt: &HostRuntime, told: &mut Text) -> Result<(), OutOfMemory> {
    let mut source = FileSource::over(rt.alloc(), Flaky { calls: 0 })?;
    let put = put_reads(told, &mut source, 3);
    drop(source);
    put
}

/// Adds what calls of a sink over memory that grows answer.
fn put_writer(
    rt: &HostRuntime,
    told: &mut Text,
    held: u64,
    calls: &str,
) -> Result<(), OutOfMemory> {
    let mut sink = WriterSink::over(Vec::new(rt.alloc()), held);
    let put = put_calls(told, &mut sink, calls);
    drop(sink);
    put
}

/// The same over room for two bytes.
fn put_small(told: &mut Text, calls: &str) -> Result<(), OutOfMemory> {
    let mut room = [0; 2];
    let mut sink = WriterSink::over(room.as_mut_slice(), 0);
    put_calls(told, &mut sink, calls)
}

/// The same over standard output.
fn put_out(rt: &HostRuntime, told: &mut Text, calls: &str) -> Result<(), OutOfMemory> {
    let mut sink = StdSink::new(rt.stdout());
    let put = put_calls(told, &mut sink, calls);
    drop(sink);
    put
}

/// A path in the folder for temporary files.
fn path_of(rt: &HostRuntime, name: &str) -> io::Result<Text> {
    let folder = env::temp_dir(rt)?;
    let id = std::process::id(rt.process());
    Ok(Text::from(format!(in rt.alloc(); "{}/wire_mio_{name}_{id}", folder.as_str())?))
}

/// Adds what calls of a sink over the file at a path answer.
fn put_sink(
    rt: &HostRuntime,
    told: &mut Text,
    path: &Text,
    calls: &str,
) -> Result<(), OutOfMemory> {
    let mut sink = FileSink::at(rt, path);
    let put = put_calls(told, &mut sink, calls);
    drop(sink);
    put
}

/// Adds so many reads of the file at a path.
fn put_file(rt: &HostRuntime, told: &mut Text, path: &Text, calls: u64) -> Result<(), OutOfMemory> {
    let mut source = FileSource::at(rt, rt.alloc(), path)?;
    let put = put_reads(told, &mut source, calls);
    drop(source);
    put
}

/// Adds what comes of two pieces that are written to a new file, each by a sink of its own, and five reads of it.
fn add_to_file(rt: &HostRuntime, told: &mut Text, path: &Text) -> Result<(), OutOfMemory> {
    put_sink(rt, told, path, "one.")?;
    told.push_str("; ")?;
    put_sink(rt, told, path, "two.")?;
    told.push_str("; ")?;
    put_file(rt, told, path, 5)
}

/// Adds what comes of two pieces that are written to a new file, of calls of another sink over it, and five reads of it.
fn compare_file(rt: &HostRuntime, told: &mut Text, path: &Text) -> Result<(), OutOfMemory> {
    put_sink(rt, told, path, "one.two.,?0x")?;
    told.push_str("; ")?;
    put_sink(rt, told, path, "?0one.two.x,?4tWo,?8x,-5,!,ab,?4tab")?;
    told.push_str("; ")?;
    put_file(rt, told, path, 5)
}

/// Adds what comes of calls of a sink over a file that another sink has, and of such calls behind that.
fn put_taken(rt: &HostRuntime, told: &mut Text, path: &Text) -> Result<(), OutOfMemory> {
    let first = FileSink::at(rt, path);
    let put = put_sink(rt, told, path, "?0,a,-0,!");
    drop(first);
    put?;
    told.push_str("; ")?;
    put_sink(rt, told, path, "?0,a,-0,!")
}

/// Adds a read of a file that can't be opened, and what comes of calls for it.
fn open_nowhere(rt: &HostRuntime, told: &mut Text, path: &Text) -> Result<(), OutOfMemory> {
    put_file(rt, told, path, 1)?;
    told.push_str("; ")?;
    put_sink(rt, told, path, "?0,a")
}

/// Adds what comes of calls of a sink over a pipe, and a read of its other end.
fn put_through(
    rt: &HostRuntime,
    told: &mut Text,
    path: &Text,
    reader: PipeReader,
) -> Result<(), OutOfMemory> {
    put_sink(rt, told, path, "ab,?0xy,!,-0")?;
    told.push_str("; ")?;
    let mut source = FileSource::over(rt.alloc(), reader)?;
    let put = put_reads(told, &mut source, 1);
    drop(source);
    put
}

/// The same for a new pipe.
fn put_pipe(rt: &HostRuntime, told: &mut Text) -> Result<(), OutOfMemory> {
    let Ok((reader, writer)) = pipe(rt) else {
        return told.push_str("no pipe");
    };
    let path = Text::from(format!(in rt.alloc(); "/proc/self/fd/{}", writer.as_raw_fd())?);
    let put = put_through(rt, told, &path, reader);
    drop(path);
    drop(writer);
    put
}

/// Writes to a disk over a file that isn't there yet, and tells whether all went well.
fn is_written(rt: &HostRuntime, path: &Text) -> bool {
    let mut disk = FileDisk::at(rt, path);
    let is_well = disk.len() == Ok(0)
        && disk.write_at(0, b"abc").is_ok()
        && disk.write_at(5, b"fg").is_ok()
        && disk.write_at(1, b"BC").is_ok()
        && disk.sync().is_ok()
        && disk.len() == Ok(7);
    drop(disk);
    is_well
}

/// How many bytes a disk over a file gives from its beginning and from the place 7, and the eight bytes that were read.
fn read_disk(rt: &HostRuntime, path: &Text) -> (usize, usize, [u8; 8]) {
    let mut disk = FileDisk::at(rt, path);
    let mut into = [9; 8];
    let first = disk.read(0, &mut into).unwrap_or(99);
    let last = disk.read(7, &mut into).unwrap_or(99);
    drop(disk);
    (first, last, into)
}

/// Adds what comes of a disk over a new file that is written, and what another one reads of it.
fn keep_on_disk(rt: &HostRuntime, told: &mut Text, path: &Text) -> Result<(), OutOfMemory> {
    let is_written = is_written(rt, path);
    let kept = format!(in rt.alloc(); "{} {:?}", is_written, read_disk(rt, path))?;
    told.push_str(kept.as_str())
}

/// How many calls of a disk over the file at a path fail, of a read, a write and a sync.
fn failed_calls(rt: &HostRuntime, path: &Text) -> u64 {
    let mut disk = FileDisk::at(rt, path);
    let _ = disk.read(0, &mut [0; 1]);
    let _ = disk.write_at(0, b"a");
    let _ = disk.sync();
    let failed = disk.faults();
    drop(disk);
    failed
}

/// How many calls of a second disk over the file of another one fail, and how many of the first one.
fn locked_out(rt: &HostRuntime, path: &Text) -> (u64, u64) {
    let first = FileDisk::at(rt, path);
    let failed = failed_calls(rt, path);
    let faults = first.faults();
    drop(first);
    (failed, faults)
}

/// Adds how many calls of both fail.
fn put_locked(rt: &HostRuntime, told: &mut Text, path: &Text) -> Result<(), OutOfMemory> {
    let (second, first) = locked_out(rt, path);
    told.push_decimal(second)?;
    put_number(told, first)
}

/// Adds what comes of a file that is there.
fn put_at(rt: &HostRuntime, told: &mut Text, kind: &str, path: &Text) -> Result<(), OutOfMemory> {
    match kind {
        "file" => add_to_file(rt, told, path),
        "compared file" => compare_file(rt, told, path),
        "taken file" => put_taken(rt, told, path),
        "disk" => keep_on_disk(rt, told, path),
        "second disk" => put_locked(rt, told, path),
        "no file" => open_nowhere(rt, told, path),
        _ => told.push_decimal(failed_calls(rt, path)),
    }
}

/// The same of a new file, which is removed then.
fn put_new(rt: &HostRuntime, told: &mut Text, kind: &str) -> Result<(), OutOfMemory> {
    match path_of(rt, kind) {
        Ok(path) => {
            let put = put_at(rt, told, kind, &path);
            let is_removed = fs::remove_file(rt, path.as_str()).ok().is_some();
            drop(path);
            put?;
            told.push_str(if is_removed {
                ""
            } else {
                ", and is there still"
            })
        }
        Err(error) => {
            drop(error);
            told.push_str("no path")
        }
    }
}

/// The same of the file at a path.
fn put_named(rt: &HostRuntime, told: &mut Text, kind: &str, path: &str) -> Result<(), OutOfMemory> {
    let path = Text::of(rt.alloc(), path)?;
    let put = put_at(rt, told, kind, &path);
    drop(path);
    put
}

/// Adds what comes of a case.
fn put_case(rt: &HostRuntime, told: &mut Text, row: Row<'_>) -> Result<(), OutOfMemory> {
    match row.kind {
        "reader" => put_reader(rt, told),
        "flaky reader" => put_flaky(rt, told),
        "writer" => put_writer(rt, told, 0, row.input),
        "full count" => put_writer(rt, told, u64::MAX, row.input),
        "small writer" => put_small(told, row.input),
        "standard output" => put_out(rt, told, row.input),
        "pipe" => put_pipe(rt, told),
        "file" | "compared file" | "taken file" | "disk" | "second disk" => {
            put_new(rt, told, row.kind)
        }
        _ => put_named(rt, told, row.kind, row.input),
    }
}

/// What comes of a case.
fn answer(rt: &HostRuntime, row: Row<'_>) -> Result<Text, OutOfMemory> {
    let mut told = Text::new(rt.alloc());
    match put_case(rt, &mut told, row) {
        Ok(()) => Ok(told),
        Err(OutOfMemory) => {
            drop(told);
            Err(OutOfMemory)
        }
    }
}

fn cases() -> &'static str {
    "reader | ab,c,, 0\n\
    flaky reader | a,failed,, 1\n\
    writer | 3,0, 3 0 | abc,\n\
    writer | 3,2,same,ok,same,ok,ok, 1 0 | abc,?1bd,?0abcd,-1,?0ax,-1,!\n\
    small writer | 2,failed, 2 1 | abc,c\n\
    small writer | 2,same,failed,ok, 2 1 | ab,?0xy,-1,!\n\
    full count | failed, 18446744073709551615 1 | a\n\
    standard output | 0,same,ok,ok, 0 0 | ,?0x,-0,!\n\
    file | 4, 4 0; 4, 8 0; on,e.,tw,o.,, 0\n\
    compared file | 8,same, 8 0; same,5,same,ok,ok,2,same, 7 0; on,e.,ta,b,, 0\n\
    taken file | failed,failed,failed,failed, 0 4; same,1,ok,ok, 0 0\n\
    pipe | 2,same,ok,failed, 2 1; ab, 0\n\
    no file | failed, 1; failed,failed, 0 2 | /nowhere/at/all\n\
    disk | true (7, 0, [97, 66, 67, 0, 0, 102, 103, 9])\n\
    second disk | 3 0\n\
    failing calls | 3 | /nowhere/at/all\n\
    failing calls | 2 | /dev/full"
}

#[test]
fn ports_over_files_do_what_the_files_do(rt: HostRuntime) -> Result<(), Fail> {
    for line in cases().split('\n') {
        let row = row_of(line);
        let told = answer(&rt, row)?;
        assert_eq!(rt; told.as_str(), row.wanted, "{line}");
    }
    Ok(())
}
