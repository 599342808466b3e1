//! What a run finds that goes on behind another one: one that was stopped where its disk failed, or by a crash.

ghost use Rattle.std.specs.Prelude.{◌≡◌};
ghost use Rattle.outside.specs.Disk.{silent, silent_lawful};

use crate::rows::{Row, number, row_of};
use crate::runs::{
    Over, TestWire, beside, ports_of, run, setup_behind, setup_failing, setup_of, steps_lines,
    told_of,
};
use outside::{Disk, Failed, MemDisk, OpenGate};
use server_words::Status;
use std::alloc::Global;
use std::convert::AsStr;
use std::sync::Wait;
use std::test::Fail;
use std::thread::Threads;
use zbx_types::{Bytes, Entry, Many, Numbered, OutOfMemory, Text};

/// What a crash leaves of a piece that no sync followed.
#[derive(Clone, Copy)]
pub(crate) enum Torn {
    /// Nothing.
    Nothing,
    /// Its first half.
    Front,
    /// Its second half.
    Back,
    /// All of it.
    Whole,
    /// This byte in place of each of its own.
    Filled(u8),
}

/// A disk in memory that also keeps a file that a crash leaves of it: what it held at its last sync, with what is left of
/// each piece that it was to write since.
#[derive(Drop)]
pub(crate) struct CrashDisk {
    alloc: Global,
    disk: MemDisk,
    /// The file that a crash leaves.
    pub(crate) left: MemDisk,
    torn: Torn,
    faults: u64,
}

/// Writes a byte in place of each of so many.
fn fill(
    alloc: Global,
    disk: &mut MemDisk,
    at: u64,
    length: usize,
    byte: u8,
) -> Result<(), OutOfMemory> {
    let piece = Bytes::from(vec![in alloc; byte; length]?);
    disk.write_at(at, piece.as_slice()).map_err(|_| OutOfMemory)
}

impl CrashDisk {
    /// A disk of these bytes, which a crash leaves as they are until something is written.
    pub(crate) fn new(
        alloc: Global,
        bytes: Bytes,
        left: Bytes,
        fails: Many<u64>,
        torn: Torn,
    ) -> CrashDisk {
        CrashDisk {
            alloc,
            disk: MemDisk::new(alloc, bytes, fails),
            left: MemDisk::new(alloc, left, Many::new(alloc)),
            torn,
            faults: 0,
        }
    }

    /// Keeps what is left of a piece.
    fn tear(&mut self, at: u64, piece: &[u8]) -> Result<(), Failed>
        ensures { self.new.faults ≡ self.old.faults }
    {
        let half = piece.len() / 2;
        match self.torn {
            Torn::Nothing => Ok(()),
            Torn::Front => self.left.write_at(at, &piece[..half]),
            Torn::Back => self
                .left
                .write_at(at.saturating_add(half as u64), &piece[half..]),
            Torn::Whole => self.left.write_at(at, piece),
            Torn::Filled(byte) => {
                fill(self.alloc, &mut self.left, at, piece.len(), byte).map_err(|_| Failed)
            }
        }
    }

    /// Keeps what it holds.
    fn settle(&mut self) -> Result<(), OutOfMemory>
        ensures { self.new.faults ≡ self.old.faults }
    {
        let bytes = Bytes::of(self.alloc, self.disk.bytes().as_slice())?;
        self.left = MemDisk::new(self.alloc, bytes, Many::new(self.alloc));
        Ok(())
    }
}

impl Disk for CrashDisk {
    ghost tells = { λ d. silent d.faults };

    ghost lawful = { λ d. silent_lawful d.faults };

    fn faults(&self) -> u64 {
        self.faults
    }

    fn len(&mut self) -> Result<u64, Failed> {
        match self.disk.len() {
            Ok(length) => Ok(length),
            Err(Failed) => {
                self.faults = self.faults.saturating_add(1);
                Err(Failed)
            }
        }
    }

    fn read(&mut self, at: u64, into: &mut [u8]) -> Result<usize, Failed> {
        match self.disk.read(at, into) {
            Ok(count) => Ok(count),
            Err(Failed) => {
                self.faults = self.faults.saturating_add(1);
                Err(Failed)
            }
        }
    }

    fn write_at(&mut self, at: u64, piece: &[u8]) -> Result<(), Failed> {
        if self.tear(at, piece).is_ok() && self.disk.write_at(at, piece).is_ok() {
            return Ok(());
        }
        self.faults = self.faults.saturating_add(1);
        Err(Failed)
    }

    fn sync(&mut self) -> Result<(), Failed> {
        if self.disk.sync().is_ok() && self.settle().is_ok() {
            return Ok(());
        }
        self.faults = self.faults.saturating_add(1);
        Err(Failed)
    }
}

/// The lines of the first ones of these values.
fn lines(values: usize) -> &'static str {
    match values {
        0 => "",
        1 => "P|3-1|100.000000000|3|0|h|hot|hot\n",
        2 => "P|3-1|100.000000000|3|0|h|hot|hot\nR|3-1|4|100.000000000|e\n",
        _ => {
            "P|3-1|100.000000000|3|0|h|hot|hot\nR|3-1|4|100.000000000|e\nP|5-1|100.000000000|3|0|h|hot|hot\n"
        }
    }
}

/// Whether a value is the one of this place, counted from 0.
fn is_value(value: &Text, place: usize) -> bool {
    value.as_bytes()
        == match place {
            0 => "10".as_bytes(),
            1 => "1".as_bytes(),
            2 => "7".as_bytes(),
            _ => &[],
        }
}

/// How many values entries hold, where they are the first ones of those that came, in their order.
fn values_in(entries: &[Numbered]) -> Option<usize> {
    let mut count = 0usize;
    for entry in entries {
        if let Entry::Value { value, .. } = &entry.entry {
            if !is_value(value, count) {
                return None;
            }
            count = count.saturating_add(1);
        }
    }
    Some(count)
}

/// How many replies tell a value as processed.
pub(crate) fn answered(sent: &[(u64, Bytes)]) -> usize {
    sent.iter()
        .filter(|(_, reply)| {
            reply
                .as_slice()
                .windows(12)
                .any(|part| part == "processed: 1".as_bytes())
        })
        .count()
}

/// Whether a run has begun, and has so many values at least, with their lines.
fn has(over: &Over<TestWire, MemDisk>, least: usize) -> bool {
    match values_in(over.ended.entries.as_slice()) {
        Some(count) => {
            over.ended.began
                && least <= count
                && over.ended.outbox.bytes().as_slice() == lines(count).as_bytes()
        }
        None => false,
    }
}

/// How a run ended of which a call was to fail.
#[derive(Clone, Copy, PartialEq, Eq)]
pub(crate) enum Stop {
    /// With Ok: no call failed.
    None,
    /// With the fault of the object whose call failed.
    Fault,
    /// In another way.
    Other,
}

/// How a run ended with a status, where this is the fault of the object whose call was to fail.
pub(crate) fn stop_of(status: &Status, fault: &Status) -> Stop {
    if *status == Status::Ok {
        Stop::None
    } else if status == fault {
        Stop::Fault
    } else {
        Stop::Other
    }
}

/// How a run went of which a call was to fail.
#[derive(Clone, Copy, PartialEq, Eq)]
pub(crate) enum Went {
    /// No call failed, and a run behind it had all.
    Through,
    /// It ended with the fault of its object, and a run behind it had all that was to stay, and nothing that didn't come.
    Kept,
    /// One of both was otherwise.
    Lost,
}

/// How a run went that ended so, where the one behind it had what was to stay, or hadn't.
pub(crate) fn judged(has_all: bool, stop: Stop) -> Went {
    match (has_all, stop) {
        (true, Stop::None) => Went::Through,
        (true, Stop::Fault) => Went::Kept,
        _ => Went::Lost,
    }
}

/// Runs over three values, in the way that a line of parts says, up to the disk's call of this number, which fails.
fn run_up_to<R: Threads + Wait + Sync>(
    rt: &R,
    alloc: Global,
    parts: &str,
    torn: Torn,
    call: u64,
) -> Result<Over<TestWire, CrashDisk>, OutOfMemory> {
    let setup = setup_of(alloc, parts, call)?;
    let (ports, journal, fails) = ports_of(alloc, setup);
    let disk = CrashDisk::new(alloc, journal, Bytes::new(alloc), fails, torn);
    Ok(beside(rt, alloc, ports, disk, &OpenGate))
}

/// Runs up to a call of the disk, and then behind what a crash leaves there.
fn crashed_at<R: Threads + Wait + Sync>(
    rt: &R,
    alloc: Global,
    parts: &str,
    torn: Torn,
    call: u64,
) -> Result<Went, OutOfMemory> {
    let crashed = run_up_to(rt, alloc, parts, torn, call)?;
    let answered = answered(crashed.wire.wire.sent().as_slice());
    let stop = stop_of(&crashed.ended.status, &Status::DiskFault);
    let setup = setup_behind(
        alloc,
        "three",
        crashed.ended.disk.left.bytes().as_slice(),
        crashed.ended.outbox.bytes().as_slice(),
    );
    drop(crashed);
    let behind = run(alloc, setup?);
    let has_all = has(&behind, answered);
    drop(behind);
    Ok(judged(has_all, stop))
}

/// How many calls of the disk a run has, where each that fails ends it with DiskFault, and a crash there leaves all that was
/// answered.
fn calls_kept<R: Threads + Wait + Sync>(
    rt: &R,
    alloc: Global,
    parts: &str,
    torn: Torn,
) -> Result<Option<u64>, OutOfMemory> {
    for before in 0..100u64 {
        match crashed_at(rt, alloc, parts, torn, before + 1)? {
            Went::Through => return Ok(Some(before)),
            Went::Kept => {}
            Went::Lost => return Ok(None),
        }
    }
    Ok(None)
}

/// What a crash leaves, by a name.
pub(crate) fn torn_of(name: &str) -> Option<Torn> {
    match name {
        "nothing" => Some(Torn::Nothing),
        "front" => Some(Torn::Front),
        "back" => Some(Torn::Back),
        "whole" => Some(Torn::Whole),
        "filled with 1" => Some(Torn::Filled(1)),
        "filled with 2" => Some(Torn::Filled(2)),
        _ => None,
    }
}

/// Whether a run has as many calls of the disk as are wanted, and each crash at one of them left all that was answered.
fn is_kept<R: Threads + Wait + Sync>(
    rt: &R,
    alloc: Global,
    row: Row<'_>,
) -> Result<bool, OutOfMemory> {
    let Some(torn) = torn_of(row.kind) else {
        return Ok(false);
    };
    let calls = calls_kept(rt, alloc, row.input, torn)?;
    Ok(calls == Some(number(row.wanted)))
}

/// Each call of a disk fails in turn, until none does. Of what it held at its last sync nothing is lost, and of each piece that was to be written since there is nothing, its
/// front, its back, all, or another byte in place of each of its own. An append has four calls: one of the three values, or
/// one for each of them.
fn crashes() -> &'static str {
    "nothing | 18 | script=one syncers=0\n\
    front | 18 | script=one syncers=0\n\
    back | 18 | script=one syncers=0\n\
    whole | 18 | script=one syncers=0\n\
    filled with 1 | 18 | script=one syncers=0\n\
    filled with 2 | 18 | script=one syncers=0\n\
    nothing | 18 | script=three syncers=0 ready=yes\n\
    nothing | 26 | script=three syncers=0 ready=no\n\
    nothing | 18 | script=three syncers=4 ready=yes\n\
    nothing | 26 | script=three syncers=4 ready=no\n\
    front | 18 | script=three syncers=0 ready=yes\n\
    front | 26 | script=three syncers=0 ready=no\n\
    front | 18 | script=three syncers=4 ready=yes\n\
    front | 26 | script=three syncers=4 ready=no\n\
    back | 18 | script=three syncers=0 ready=yes\n\
    back | 26 | script=three syncers=0 ready=no\n\
    back | 18 | script=three syncers=4 ready=yes\n\
    back | 26 | script=three syncers=4 ready=no\n\
    whole | 18 | script=three syncers=0 ready=yes\n\
    whole | 26 | script=three syncers=0 ready=no\n\
    whole | 18 | script=three syncers=4 ready=yes\n\
    whole | 26 | script=three syncers=4 ready=no\n\
    filled with 1 | 18 | script=three syncers=0 ready=yes\n\
    filled with 1 | 26 | script=three syncers=0 ready=no\n\
    filled with 1 | 18 | script=three syncers=4 ready=yes\n\
    filled with 1 | 26 | script=three syncers=4 ready=no\n\
    filled with 2 | 18 | script=three syncers=0 ready=yes\n\
    filled with 2 | 26 | script=three syncers=0 ready=no\n\
    filled with 2 | 18 | script=three syncers=4 ready=yes\n\
    filled with 2 | 26 | script=three syncers=4 ready=no"
}

#[test]
fn each_file_that_a_crash_leaves_has_what_was_answered(rt: HostRuntime) -> Result<(), Fail> {
    for line in crashes().split('\n') {
        let is_kept = is_kept(&rt, rt.alloc(), row_of(line))?;
        assert!(rt; is_kept, "{line}");
    }
    Ok(())
}

/// The report of a restart behind all of the one frame.
fn whole_report() -> &'static str {
    "Ok begun C1T2V3\nP|3-1|100.000000000|3|0|h|hot|hot\nstatus: Ok; entries: 3; problems: 1; recoveries: 0; messages: 0; outbox bytes: 34\n"
}

/// That of a restart behind none of it.
fn tick_report() -> &'static str {
    "Ok begun C1T2\nstatus: Ok; entries: 2; problems: 0; recoveries: 0; messages: 0; outbox bytes: 0\n"
}

/// That of a restart whose outbox holds 10 bytes of the line, and another one.
fn differs_report() -> &'static str {
    "OutboxDiffers not.. C1T2V3\nP|3-1|100.xstatus: OutboxDiffers; at: 10\n"
}

/// What a restart finds of the one frame.
#[derive(Clone, Copy, PartialEq, Eq)]
enum Finds {
    /// All of it.
    Whole,
    /// None of it.
    Tick,
    /// An outbox that isn't its own.
    Differs,
    /// None of it, and an outbox that has more than its lines.
    Ahead,
    /// Something else.
    Other,
}

/// What a restart of this report finds of the one frame.
fn finds_of(report: &[u8]) -> Finds {
    if report == whole_report().as_bytes() {
        Finds::Whole
    } else if report == tick_report().as_bytes() {
        Finds::Tick
    } else if report == differs_report().as_bytes() {
        Finds::Differs
    } else {
        Finds::Other
    }
}

/// The bytes of an outbox up to so many, and others behind them.
fn spoilt(alloc: Global, bytes: &[u8], held: usize, behind: &[u8]) -> Result<Bytes, OutOfMemory> {
    let mut outbox = Bytes::of(alloc, bytes.get(..held).unwrap_or(bytes))?;
    outbox.extend(behind)?;
    Ok(outbox)
}

/// Runs over the one frame, where the disk's call of this number fails, and then behind what is left, the outbox cut to so
/// many bytes, with these behind them. Whether the first run answered its value, and what the second one finds of it.
fn run_twice(
    alloc: Global,
    disk: u64,
    held: usize,
    behind: &[u8],
) -> Result<(bool, Finds), OutOfMemory> {
    let setup = setup_of(alloc, "script=one", disk)?;
    let first = run(alloc, setup);
    let has_answered = 0 < answered(first.wire.wire.sent().as_slice());
    let outbox = spoilt(alloc, first.ended.outbox.bytes().as_slice(), held, behind);
    let setup = match outbox {
        Ok(outbox) => setup_behind(
            alloc,
            "one",
            first.ended.disk.bytes().as_slice(),
            outbox.as_slice(),
        ),
        Err(OutOfMemory) => Err(OutOfMemory),
    };
    drop(first);
    let told = told_of(alloc, setup?)?;
    Ok((has_answered, finds_of(told.as_slice())))
}

/// Whether a restart has the answered value, whichever call of the disk failed.
fn has_answered(alloc: Global) -> Result<bool, OutOfMemory> {
    for disk in 1..30u64 {
        match run_twice(alloc, disk, 1_000, b"")? {
            (_, Finds::Whole) | (false, Finds::Tick) => {}
            _ => return Ok(false),
        }
    }
    Ok(true)
}

/// The first bytes of the line of the one frame.
fn held_front() -> &'static str {
    "P|3-1|100."
}

/// Whether a run was refused since its outbox has more than the lines of its entries, of which there are none.
fn is_ahead(status: &Status) -> bool {
    *status == Status::OutboxAhead { held: 10, lines: 0 }
}

/// How a run over the one frame went whose disk's call of this number was to fail, or none where all were through; and
/// whether a run behind the crash there, whose outbox has the front of a line, is refused as ahead, where the entry isn't kept,
/// or else writes the rest.
fn ahead_at<R: Threads + Wait + Sync>(
    rt: &R,
    alloc: Global,
    torn: Torn,
    call: u64,
) -> Result<(Stop, Finds), OutOfMemory> {
    let crashed = run_up_to(rt, alloc, "script=one syncers=0", torn, call)?;
    let stop = stop_of(&crashed.ended.status, &Status::DiskFault);
    let setup = setup_behind(
        alloc,
        "one",
        crashed.ended.disk.left.bytes().as_slice(),
        held_front().as_bytes(),
    );
    drop(crashed);
    let behind = run(alloc, setup?);
    let finds = if is_ahead(&behind.ended.status) {
        Finds::Ahead
    } else if behind.ended.status == Status::Ok
        && behind.ended.outbox.bytes().as_slice() == lines(1).as_bytes()
    {
        Finds::Whole
    } else {
        Finds::Other
    };
    drop(behind);
    Ok((stop, finds))
}

/// At how many calls of the disk a crash leaves an outbox ahead, and at how many behind these it leaves the whole entry.
fn ahead<R: Threads + Wait + Sync>(
    rt: &R,
    alloc: Global,
    torn: Torn,
) -> Result<Option<(u64, u64)>, OutOfMemory> {
    let mut ahead = 0u64;
    let mut whole = 0u64;
    for call in 1..100u64 {
        match ahead_at(rt, alloc, torn, call)? {
            (Stop::None, Finds::Whole) => return Ok(Some((ahead, whole))),
            (Stop::Fault, Finds::Ahead) if whole == 0 => ahead = ahead.saturating_add(1),
            (Stop::Fault, Finds::Whole) => whole = whole.saturating_add(1),
            _ => return Ok(None),
        }
    }
    Ok(None)
}

/// Runs over the steps of an action, where one write to the outbox fails, or all from one on, and then behind what is left,
/// over the outbox that was left or over an empty one. How the first run ended, and the lines of the second one; none where
/// those of the first aren't the first of all.
fn completed_behind(
    alloc: Global,
    object: &str,
    call: u64,
    keeps: bool,
) -> Result<(Stop, Bytes), OutOfMemory> {
    let setup = setup_failing(alloc, "script=steps", object, call)?;
    let first = run(alloc, setup);
    let stop = stop_of(&first.ended.status, &Status::OutboxFault);
    let outbox = first.ended.outbox.bytes().as_slice();
    let is_front = steps_lines().as_bytes().starts_with(outbox);
    let journal = first.ended.disk.bytes().as_slice();
    let held = if keeps { outbox.len() } else { 0 };
    let left = outbox.get(..held).unwrap_or(outbox);
    let setup = setup_behind(alloc, "steps", journal, left);
    drop(first);
    let behind = run(alloc, setup?);
    let lines = if is_front && behind.ended.status == Status::Ok {
        Bytes::of(alloc, behind.ended.outbox.bytes().as_slice())
    } else {
        Ok(Bytes::new(alloc))
    };
    drop(behind);
    Ok((stop, lines?))
}

/// How a run went whose write to the outbox was to fail, or all from one on: behind it all lines are there, each once.
fn write_fails(alloc: Global, object: &str, call: u64) -> Result<Went, OutOfMemory> {
    let (stop, completed) = completed_behind(alloc, object, call, true)?;
    let anew = completed_behind(alloc, object, call, false);
    let has_all = match &anew {
        Ok((_, lines)) => {
            !lines.as_slice().is_empty() && lines.as_slice() == completed.as_slice()
        }
        Err(OutOfMemory) => false,
    };
    drop(completed);
    drop(anew);
    Ok(judged(has_all, stop))
}

/// How many writes to the outbox a run has behind its first look at it, where each that fails ends it with OutboxFault and lines
/// that a run behind it completes.
fn writes_completed(alloc: Global, object: &str) -> Result<Option<u64>, OutOfMemory> {
    for before in 0..100u64 {
        match write_fails(alloc, object, before + 2)? {
            Went::Through => return Ok(Some(before)),
            Went::Kept => {}
            Went::Lost => return Ok(None),
        }
    }
    Ok(None)
}

/// The report of a run that refused all values of its first commit.
fn refused_together_report() -> &'static str {
    "DiskFault begun C1T2 2:1 1:2\n2 {\"response\":\"success\",\"info\":\"processed: 0; failed: 0; total: 0; seconds spent: 0.000000\"}\n1 {\"response\":\"success\",\"info\":\"processed: 0; failed: 1; total: 1; seconds spent: 0.000000\"}\nstatus: DiskFault\n"
}

/// How many calls of the disk end a run that has begun where they fail, and how many of these refuse its first value.
fn refused(alloc: Global, parts: &str) -> Result<(u64, u64), OutOfMemory> {
    let mut all = 0u64;
    let mut first = 0u64;
    for disk in 1..41u64 {
        let setup = setup_of(alloc, parts, disk)?;
        let told = told_of(alloc, setup)?;
        if told.as_slice().starts_with(b"DiskFault begun") {
            all = all.saturating_add(1);
        }
        if told.as_slice() == refused_together_report().as_bytes() {
            first = first.saturating_add(1);
        }
    }
    Ok((all, first))
}

/// Whether a restart finds this where the outbox holds so many of its bytes, and these behind them.
fn restart_finds(
    alloc: Global,
    held: &str,
    behind: &[u8],
    wanted: Finds,
) -> Result<bool, OutOfMemory> {
    Ok(run_twice(alloc, 0, number(held) as usize, behind)? == (true, wanted))
}

/// Whether a case comes to what is wanted.
fn is_so<R: Threads + Wait + Sync>(
    rt: &R,
    alloc: Global,
    row: Row<'_>,
) -> Result<bool, OutOfMemory> {
    match row.kind {
        "writes" => { Ok(writes_completed(alloc, row.input)? == Some(number(row.wanted))) }
        "ahead" => match torn_of(row.input) {
            Some(torn) => {
                let (wanted_ahead, wanted_whole) = row.wanted.split_once(' ').unwrap_or(("", ""));
                let found = ahead(rt, alloc, torn)?;
                Ok(found == Some((number(wanted_ahead), number(wanted_whole))))
            }
            None => Ok(false),
        },
        "held" => restart_finds(alloc, row.input, b"", Finds::Whole),
        "zeros" => restart_finds(alloc, row.input, &[0; 24], Finds::Whole),
        "other" => restart_finds(alloc, row.input, b"x", Finds::Differs),
        "each call fails" => has_answered(alloc),
        "refused" => {
            let (all, first) = refused(alloc, row.input)?;
            let (wanted_all, wanted_first) = row.wanted.split_once(' ').unwrap_or(("", ""));
            Ok(all == number(wanted_all) && first == number(wanted_first))
        }
        _ => Ok(false),
    }
}

/// A restart writes the lines that an outbox lacks which held so many bytes, also where zero bytes stand behind them, and
/// leaves one alone that holds another byte. It has the answered value whichever call of the disk failed. Each write to an outbox
/// ends a run with OutboxFault where it fails, and a restart completes the lines. Of a crash at each call of the disk, on an
/// outbox with the front of the entry's line, comes OutboxAhead up to where the entry is kept.
///
/// Where events are committed together one append has four calls: that of the Tick, and that of all values, or one for each
/// value. At most 128 events are committed together: the first event brings the Tick, which ends its commit, and behind it
/// stand 127 events in one commit, or 128 and one more; the event that closes the wire journals nothing.
fn restarts() -> &'static str {
    "writes | 4 | outbox\n\
    writes | 4 | outbox from\n\
    ahead | 18 0 | nothing\n\
    ahead | 18 0 | front\n\
    ahead | 16 2 | back\n\
    ahead | 16 2 | whole\n\
    ahead | 16 2 | filled with 1\n\
    ahead | 18 0 | filled with 2\n\
    held | whole | 0\n\
    held | whole | 10\n\
    held | whole | 34\n\
    zeros | whole | 0\n\
    zeros | whole | 10\n\
    other | differs | 10\n\
    each call fails\n\
    refused | 8 4 | script=many ready=yes\n\
    refused | 20 4 | script=many ready=no\n\
    refused | 8 0 | values=64 ready=yes\n\
    refused | 12 0 | values=65 ready=yes"
}

#[test]
fn a_restart_has_what_was_answered(rt: HostRuntime) -> Result<(), Fail> {
    for line in restarts().split('\n') {
        let is_so = is_so(&rt, rt.alloc(), row_of(line))?;
        assert!(rt; is_so, "{line}");
    }
    Ok(())
}
