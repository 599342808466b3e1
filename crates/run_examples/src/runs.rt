//! Runs over scripts on one thread, and what each fault makes of them.

use crate::rows::{Row, number, row_of};
use outside::{
    Disk, Failed, Gate, MemDisk, MemSink, MemSource, ScriptWire, Trouble, Wire, WireEvent,
};
use server_run::{Ended, run_single, run_syncers};
use server_words::Status;
use std::alloc::Global;
use std::convert::AsStr;
use std::sync::Wait;
use std::test::Fail;
use std::thread::Threads;
use zbx_types::{Bytes, Entry, Many, Numbered, OutOfMemory, Text};

// Scripts and expected reports are functions, so that a test's proof doesn't carry their bytes.

/// The host `h` with the item `k`, whose trigger `hot` has a problem while the last value is above 5.
pub(crate) fn plain_config() -> &'static str {
    "{\"hosts\":[{\"name\":\"h\",\"groups\":[\"g\"],\"items\":[{\"key\":\"k\"}],\"triggers\":[{\"name\":\"hot\",\"expression\":\"last(/h/k)>5\",\"severity\":3}]}]}"
}

/// Another text of the same configuration: a space stands behind it.
fn spaced_config() -> &'static str {
    "{\"hosts\":[{\"name\":\"h\",\"groups\":[\"g\"],\"items\":[{\"key\":\"k\"}],\"triggers\":[{\"name\":\"hot\",\"expression\":\"last(/h/k)>5\",\"severity\":3}]}]} "
}

/// A wire of a script that says of each event that it stands ready, or of none.
#[derive(Drop)]
pub(crate) struct TestWire {
    pub(crate) wire: ScriptWire<MemSource>,
    ready: bool,
}

impl Wire for TestWire {
    ghost tells = { λ w. w.wire.tells };

    fn faults(&self) -> u64 {
        self.wire.faults()
    }

    fn unsent(&self) -> u64 {
        self.wire.unsent()
    }

    fn ready(&self) -> bool {
        self.ready
    }

    fn next(&mut self, alloc: Global) -> Result<WireEvent, Trouble> {
        self.wire.next(alloc)
    }

    fn send(&mut self, conn: u64, bytes: &[u8]) -> Result<(), Failed> {
        self.wire.send(conn, bytes)
    }

    fn close(&mut self, conn: u64) {
        self.wire.close(conn);
    }
}

/// What a run reads and writes beside its disk.
#[derive(Drop)]
pub(crate) struct Ports<W> {
    pub(crate) words: Many<Text>,
    pub(crate) config: MemSource,
    pub(crate) wire: W,
    pub(crate) outbox: MemSink,
    pub(crate) print: MemSink,
}

/// A run that has ended, with the wire and the printer that it had.
#[derive(Drop)]
pub(crate) struct Over<W, D> {
    pub(crate) ended: Ended<D, MemSink>,
    pub(crate) wire: W,
    pub(crate) print: MemSink,
}

/// Runs on one thread, over these ports, none of which is looked at before the end.
pub(crate) fn alone<W: Wire, D: Disk>(alloc: Global, ports: Ports<W>, disk: D) -> Over<W, D> {
    let Ports {
        words,
        mut config,
        mut wire,
        outbox,
        mut print,
    } = ports;
    let ended = run_single(
        alloc,
        words.as_slice(),
        &mut config,
        &mut wire,
        disk,
        outbox,
        &mut print,
    );
    Over { ended, wire, print }
}

/// Runs beside as many syncers as the words say.
pub(crate) fn beside<R: Threads + Wait + Sync, W: Wire, D: Disk, G: Gate + Sync>(
    rt: &R,
    alloc: Global,
    ports: Ports<W>,
    disk: D,
    gate: &G,
) -> Over<W, D> {
    let Ports {
        words,
        mut config,
        mut wire,
        outbox,
        mut print,
    } = ports;
    let ended = run_syncers(
        rt,
        alloc,
        words.as_slice(),
        &mut config,
        &mut wire,
        disk,
        outbox,
        &mut print,
        gate,
    );
    Over { ended, wire, print }
}

/// The numbers of the calls that fail, counted from 1.
#[derive(Drop)]
struct Fails {
    source: Many<u64>,
    wire: Many<u64>,
    disk: Many<u64>,
    outbox: Many<u64>,
    print: Many<u64>,
}

/// What a run over a script is to be given. Its parts are filled in place, so that no function holds the others over a way
/// out.
#[derive(Drop)]
pub(crate) struct Setup {
    words: Many<Text>,
    config: Bytes,
    script: Bytes,
    journal: Bytes,
    outbox: Bytes,
    fails: Fails,
    ready: bool,
}

/// Adds the words of a command, cut at blanks.
pub(crate) fn put_words(
    alloc: Global,
    made: &mut Many<Text>,
    words: &str,
) -> Result<(), OutOfMemory> {
    for word in words.split_whitespace() {
        let word = Text::of(alloc, word)?;
        made.push(word)?;
    }
    Ok(())
}

/// What stands behind the connection where it brings the value 1.
fn value_frame() -> &'static str {
    " {\"request\":\"sender data\",\"data\":[{\"host\":\"h\",\"key\":\"k\",\"value\":\"1\"}]}\n"
}

/// Adds the script of so many connections that open and bring a value, one after another.
fn put_values(script: &mut Bytes, count: u64) -> Result<(), OutOfMemory> {
    for conn in 0..count {
        script.extend(b"100.000000000 open ")?;
        script.push_decimal(conn)?;
        script.extend(b"\n100.000000000 frame ")?;
        script.push_decimal(conn)?;
        script.extend(value_frame().as_bytes())?;
    }
    script.extend(b"100.000000000 closed\n")
}

/// No call fails.
fn no_fails(alloc: Global) -> Fails {
    Fails {
        source: Many::new(alloc),
        wire: Many::new(alloc),
        disk: Many::new(alloc),
        outbox: Many::new(alloc),
        print: Many::new(alloc),
    }
}

impl Setup {
    /// Nothing is filled yet.
    fn new(alloc: Global) -> Setup {
        Setup {
            words: Many::new(alloc),
            config: Bytes::new(alloc),
            script: Bytes::new(alloc),
            journal: Bytes::new(alloc),
            outbox: Bytes::new(alloc),
            fails: no_fails(alloc),
            ready: false,
        }
    }

    /// Gives the words of a feed, and the configuration of a script.
    fn begin(&mut self, alloc: Global, script: &str) -> Result<(), OutOfMemory> {
        put_words(alloc, &mut self.words, "--mode feed --config c --script s")?;
        self.config.extend(config_of(script).as_bytes())
    }

    /// Sets one part: `script=many`, say, `values=64` for a script of so many values, or the number of a call that fails,
    /// `wire=2`. The script comes first.
    fn set(&mut self, alloc: Global, name: &str, value: &str) -> Result<(), OutOfMemory> {
        match name {
            "script" => {
                self.begin(alloc, value)?;
                self.script.extend(script_of(value).as_bytes())
            }
            "values" => {
                self.begin(alloc, value)?;
                put_values(&mut self.script, number(value))
            }
            "syncers" => {
                put_words(alloc, &mut self.words, "--syncers")?;
                put_words(alloc, &mut self.words, value)
            }
            "ready" => {
                self.ready = value == "yes";
                Ok(())
            }
            _ => self.fails.set(name, number(value)),
        }
    }

    /// Gives what a line of parts says, and the number of a call that fails of an object, where it isn't 0.
    fn fill(
        &mut self,
        alloc: Global,
        parts: &str,
        object: &str,
        call: u64,
    ) -> Result<(), OutOfMemory> {
        self.fails.set(object, call)?;
        for part in parts.split_whitespace() {
            let (name, value) = part.split_once('=').unwrap_or((part, ""));
            self.set(alloc, name, value)?;
        }
        Ok(())
    }

    /// Gives what an earlier run left, and a wire that is closed at once.
    fn fill_behind(
        &mut self,
        alloc: Global,
        script: &str,
        journal: &[u8],
        outbox: &[u8],
    ) -> Result<(), OutOfMemory> {
        self.begin(alloc, script)?;
        self.script.extend(b"100.000000000 closed\n")?;
        self.journal.extend(journal)?;
        self.outbox.extend(outbox)
    }

    /// Gives what a line of parts says, what an earlier run left, and the number of the disk's call that fails.
    fn fill_over(
        &mut self,
        alloc: Global,
        parts: &str,
        journal: &[u8],
        outbox: &[u8],
        call: u64,
    ) -> Result<(), OutOfMemory> {
        self.fill(alloc, parts, "disk", call)?;
        self.journal.extend(journal)?;
        self.outbox.extend(outbox)
    }

    /// What was filled, or nothing where memory was refused for it.
    fn filled(self, filled: Result<(), OutOfMemory>) -> Result<Setup, OutOfMemory> {
        match filled {
            Ok(()) => Ok(self),
            Err(OutOfMemory) => {
                drop(self);
                Err(OutOfMemory)
            }
        }
    }
}

/// Adds the numbers of a call and of the 30 behind it.
fn put_from(calls: &mut Many<u64>, first: u64) -> Result<(), OutOfMemory> {
    for number in first..first.saturating_add(31) {
        calls.push(number)?;
    }
    Ok(())
}

impl Fails {
    /// Has a call fail, or one and those behind it. There is none of the number 0.
    fn set(&mut self, name: &str, call: u64) -> Result<(), OutOfMemory> {
        match name {
            "source" => self.source.push(call)?,
            "wire" => self.wire.push(call)?,
            "disk" => self.disk.push(call)?,
            "outbox" => self.outbox.push(call)?,
            "outbox from" => put_from(&mut self.outbox, call)?,
            _ => self.print.push(call)?,
        }
        Ok(())
    }
}

/// What a run is given as a line of parts says, where an object's call of this number fails.
pub(crate) fn setup_failing(
    alloc: Global,
    parts: &str,
    object: &str,
    call: u64,
) -> Result<Setup, OutOfMemory> {
    let mut setup = Setup::new(alloc);
    let filled = setup.fill(alloc, parts, object, call);
    setup.filled(filled)
}

/// What a run is given as a line of parts says, where the disk's call of this number fails.
pub(crate) fn setup_of(alloc: Global, parts: &str, disk: u64) -> Result<Setup, OutOfMemory> {
    setup_failing(alloc, parts, "disk", disk)
}

/// What a run is given behind an earlier one of this script, which left these bytes of its journal and its outbox.
pub(crate) fn setup_behind(
    alloc: Global,
    script: &str,
    journal: &[u8],
    outbox: &[u8],
) -> Result<Setup, OutOfMemory> {
    let mut setup = Setup::new(alloc);
    let filled = setup.fill_behind(alloc, script, journal, outbox);
    setup.filled(filled)
}

/// What a run is given behind an earlier one, as a line of parts says, where the disk's call of this number fails.
pub(crate) fn setup_over(
    alloc: Global,
    parts: &str,
    journal: &[u8],
    outbox: &[u8],
    call: u64,
) -> Result<Setup, OutOfMemory> {
    let mut setup = Setup::new(alloc);
    let filled = setup.fill_over(alloc, parts, journal, outbox, call);
    setup.filled(filled)
}

/// The ports of a run, the bytes of its journal, and the numbers of the disk's calls that fail.
pub(crate) fn ports_of(alloc: Global, setup: Setup) -> (Ports<TestWire>, Bytes, Many<u64>) {
    let Setup {
        words,
        config,
        script,
        journal,
        outbox,
        fails,
        ready,
    } = setup;
    let Fails {
        source,
        wire,
        disk,
        outbox: outbox_fails,
        print,
    } = fails;
    let script = MemSource::new(script, Many::new(alloc));
    let wire = ScriptWire::new(alloc, script, wire);
    let ports = Ports {
        words,
        config: MemSource::new(config, source),
        wire: TestWire { wire, ready },
        outbox: MemSink::new(outbox, outbox_fails),
        print: MemSink::new(Bytes::new(alloc), print),
    };
    (ports, journal, disk)
}

/// Runs on one thread over a disk in memory.
pub(crate) fn run(alloc: Global, setup: Setup) -> Over<TestWire, MemDisk> {
    let (ports, journal, fails) = ports_of(alloc, setup);
    alone(alloc, ports, MemDisk::new(alloc, journal, fails))
}

/// Adds entries, each as its letter and its number.
fn put_entries(told: &mut Bytes, entries: &[Numbered]) -> Result<(), OutOfMemory> {
    for entry in entries {
        let kind = match &entry.entry {
            Entry::Config { .. } => "C",
            Entry::Tick { .. } => "T",
            Entry::Value { .. } => "V",
        };
        told.extend(kind.as_bytes())?;
        told.push_decimal(entry.number)?;
    }
    Ok(())
}

/// Adds what was sent behind its headers, each with its connection before it, in lines.
fn put_sent(told: &mut Bytes, sent: &[(u64, Bytes)]) -> Result<(), OutOfMemory> {
    for (conn, bytes) in sent {
        told.push_decimal(*conn)?;
        told.extend(b" ")?;
        told.extend(bytes.as_slice().get(13..).unwrap_or(&[]))?;
        told.extend(b"\n")?;
    }
    Ok(())
}

/// Adds the connections that were closed, each with how many replies stood before it, as `1:1`.
fn put_closed(told: &mut Bytes, closed: Option<&Many<(u64, u64)>>) -> Result<(), OutOfMemory> {
    if let Some(closed) = closed {
        for (conn, replies) in closed.as_slice() {
            told.extend(b" ")?;
            told.push_decimal(*conn)?;
            told.extend(b":")?;
            told.push_decimal(*replies)?;
        }
    }
    Ok(())
}

/// The name of a status.
pub(crate) fn status_name(status: &Status) -> &'static str {
    match status {
        Status::Ok => "Ok",
        Status::Usage => "Usage",
        Status::SourceFault => "SourceFault",
        Status::ConfigRefused { .. } => "ConfigRefused",
        Status::WireFault => "WireFault",
        Status::OutboxFault => "OutboxFault",
        Status::PrintFault => "PrintFault",
        Status::TurnLimit => "TurnLimit",
        Status::OutOfMemory => "OutOfMemory",
        Status::NotOurs => "NotOurs",
        Status::Unfinished => "Unfinished",
        Status::Damaged { .. } => "Damaged",
        Status::OutboxAhead { .. } => "OutboxAhead",
        Status::OutboxBehind { .. } => "OutboxBehind",
        Status::OutboxDiffers { .. } => "OutboxDiffers",
        Status::DiskFault => "DiskFault",
        Status::Full { .. } => "Full",
        _ => "another",
    }
}

/// Adds how a run ended, whether it began, and its entries.
fn put_end<D>(told: &mut Bytes, ended: &Ended<D, MemSink>) -> Result<(), OutOfMemory> {
    told.extend(status_name(&ended.status).as_bytes())?;
    told.extend(if ended.began { b" begun " } else { b" not.. " })?;
    put_entries(told, ended.entries.as_slice())
}

/// Adds what a run came to: status, whether it began, entries, closed connections; replies; the outbox; the printed line.
fn put_report(told: &mut Bytes, over: &Over<TestWire, MemDisk>) -> Result<(), OutOfMemory> {
    put_end(told, &over.ended)?;
    put_closed(told, over.wire.wire.closed())?;
    told.extend(b"\n")?;
    put_sent(told, over.wire.wire.sent().as_slice())?;
    told.extend(over.ended.outbox.bytes().as_slice())?;
    told.extend(over.print.bytes().as_slice())
}

/// The report of a run on one thread.
pub(crate) fn told_of(alloc: Global, setup: Setup) -> Result<Bytes, OutOfMemory> {
    let over = run(alloc, setup);
    let mut told = Bytes::new(alloc);
    let put = put_report(&mut told, &over);
    drop(over);
    put?;
    Ok(told)
}

/// One connection brings the value 10.
fn one_frame() -> &'static str {
    "100.000000000 open 1\n100.000000000 frame 1 {\"request\":\"sender data\",\"data\":[{\"host\":\"h\",\"key\":\"k\",\"value\":\"10\"}]}\n100.000000000 closed\n"
}

/// The report of a run over it.
fn one_frame_report() -> &'static str {
    "Ok begun C1T2V3 1:1\n1 {\"response\":\"success\",\"info\":\"processed: 1; failed: 0; total: 1; seconds spent: 0.000000\"}\nP|3-1|100.000000000|3|0|h|hot|hot\nstatus: Ok; entries: 3; problems: 1; recoveries: 0; messages: 0; outbox bytes: 34\n"
}

/// Connections take turns and bring no value, 10, 1, `x`, and last a value of an earlier time beside one that fails.
fn many_frames() -> &'static str {
    "100.000000000 open 1\n100.000000000 open 2\n100.000000000 frame 2 {\"request\":\"sender data\",\"data\":[]}\n100.000000000 frame 1 {\"request\":\"sender data\",\"data\":[{\"host\":\"h\",\"key\":\"k\",\"value\":\"10\"}]}\n100.000000000 open 3\n100.000000000 open 4\n100.000000000 frame 4 {\"request\":\"sender data\",\"data\":[{\"host\":\"h\",\"key\":\"k\",\"value\":\"1\"}]}\n100.000000000 frame 3 {\"request\":\"sender data\",\"data\":[{\"host\":\"h\",\"key\":\"k\",\"value\":\"x\"}]}\n100.000000000 open 5\n100.000000000 frame 5 {\"request\":\"sender data\",\"data\":[{\"host\":\"h\",\"key\":\"k\",\"value\":10,\"clock\":\"50\",\"ns\":\"7\"},{\"host\":\"h\",\"key\":\"k\",\"value\":1.5}]}\n100.000000000 closed\n"
}

/// The report of a run over them.
fn many_frames_report() -> &'static str {
    "Ok begun C1T2V3V4V5V6 2:1 1:2 4:3 3:4 5:5\n2 {\"response\":\"success\",\"info\":\"processed: 0; failed: 0; total: 0; seconds spent: 0.000000\"}\n1 {\"response\":\"success\",\"info\":\"processed: 1; failed: 0; total: 1; seconds spent: 0.000000\"}\n4 {\"response\":\"success\",\"info\":\"processed: 1; failed: 0; total: 1; seconds spent: 0.000000\"}\n3 {\"response\":\"success\",\"info\":\"processed: 1; failed: 0; total: 1; seconds spent: 0.000000\"}\n5 {\"response\":\"success\",\"info\":\"processed: 1; failed: 1; total: 2; seconds spent: 0.000000\"}\nP|3-1|100.000000000|3|0|h|hot|hot\nR|3-1|4|100.000000000|e\nF|5|h|k|value: not a number\nstatus: Ok; entries: 6; problems: 1; recoveries: 1; messages: 0; outbox bytes: 86\n"
}

/// A header with the flag of compression, a body that isn't JSON, one that asks for nothing, and a value.
fn bad_frames() -> &'static str {
    "100.000000000 open 1\n100.000000000 open 2\n100.000000000 open 3\n100.000000000 open 4\n100.000000000 piece 1 5a42584403\n100.000000000 frame 2 [1\n100.000000000 frame 3 {}\n100.000000000 frame 4 {\"request\":\"sender data\",\"data\":[{\"host\":\"h\",\"key\":\"k\",\"value\":\"1\"}]}\n100.000000000 closed\n"
}

/// The report of a run over these.
fn bad_frames_report() -> &'static str {
    "Ok begun C1T2V3 1:0 2:1 3:2 4:3\n2 {\"response\":\"failed\",\"info\":\"not JSON\"}\n3 {\"response\":\"failed\",\"info\":\"unsupported request\"}\n4 {\"response\":\"success\",\"info\":\"processed: 1; failed: 0; total: 1; seconds spent: 0.000000\"}\nstatus: Ok; entries: 3; problems: 0; recoveries: 0; messages: 0; outbox bytes: 0\n"
}

/// Three connections bring the values 10, 1 and 7.
fn three_frames() -> &'static str {
    "100.000000000 open 1\n100.000000000 open 2\n100.000000000 open 3\n100.000000000 frame 1 {\"request\":\"sender data\",\"data\":[{\"host\":\"h\",\"key\":\"k\",\"value\":\"10\"}]}\n100.000000000 frame 2 {\"request\":\"sender data\",\"data\":[{\"host\":\"h\",\"key\":\"k\",\"value\":\"1\"}]}\n100.000000000 frame 3 {\"request\":\"sender data\",\"data\":[{\"host\":\"h\",\"key\":\"k\",\"value\":\"7\"}]}\n100.000000000 closed\n"
}

/// A connection brings the front of the value 1, another one the value 10, and the first one the rest.
fn halves() -> &'static str {
    "100.000000000 open 1\n100.000000000 open 2\n100.000000000 piece 1 5a4258440145000000000000007b2272657175657374223a2273656e6465722064617461222c2264\n100.000000000 frame 2 {\"request\":\"sender data\",\"data\":[{\"host\":\"h\",\"key\":\"k\",\"value\":\"10\"}]}\n100.000000000 piece 1 617461223a5b7b22686f7374223a2268222c226b6579223a226b222c2276616c7565223a2231227d5d7d\n100.000000000 closed\n"
}

/// The report of a run over these.
fn halves_report() -> &'static str {
    "Ok begun C1T2V3V4 2:1 1:2\n2 {\"response\":\"success\",\"info\":\"processed: 1; failed: 0; total: 1; seconds spent: 0.000000\"}\n1 {\"response\":\"success\",\"info\":\"processed: 1; failed: 0; total: 1; seconds spent: 0.000000\"}\nP|3-1|100.000000000|3|0|h|hot|hot\nR|3-1|4|100.000000000|e\nstatus: Ok; entries: 4; problems: 1; recoveries: 1; messages: 0; outbox bytes: 58\n"
}

/// That of a run whose first reply wasn't sent.
fn first_unsent_report() -> &'static str {
    "Ok begun C1T2V3V4 2:1 1:2\n1 {\"response\":\"success\",\"info\":\"processed: 1; failed: 0; total: 1; seconds spent: 0.000000\"}\nP|3-1|100.000000000|3|0|h|hot|hot\nR|3-1|4|100.000000000|e\nstatus: Ok; entries: 4; problems: 1; recoveries: 1; messages: 0; outbox bytes: 58\n"
}

/// That of a run whose second reply wasn't sent.
fn second_unsent_report() -> &'static str {
    "Ok begun C1T2V3V4 2:1 1:2\n2 {\"response\":\"success\",\"info\":\"processed: 1; failed: 0; total: 1; seconds spent: 0.000000\"}\nP|3-1|100.000000000|3|0|h|hot|hot\nR|3-1|4|100.000000000|e\nstatus: Ok; entries: 4; problems: 1; recoveries: 1; messages: 0; outbox bytes: 58\n"
}

/// Connections bring the front of another magic in four pieces; three bytes of the right one; a header of ten bytes, nine bytes
/// and their end; 200 brackets; a byte that isn't UTF-8; data that is an object; and elements that are no objects.
fn hostile() -> &'static str {
    "100.000000000 open 1\n100.000000000 open 2\n100.000000000 open 3\n100.000000000 open 4\n100.000000000 open 5\n100.000000000 open 6\n100.000000000 open 7\n100.000000000 piece 1 5a\n100.000000000 piece 1 42\n100.000000000 piece 1 58\n100.000000000 piece 1 43\n100.000000000 piece 2 5a4258\n100.000000000 piece 3 5a425844010a000000000000005b5b5b5b5b5b5b5b5b\n100.000000000 end 3\n100.000000000 frame 4 [[[[[[[[[[[[[[[[[[[[[[[[[[[[[[[[[[[[[[[[[[[[[[[[[[[[[[[[[[[[[[[[[[[[[[[[[[[[[[[[[[[[[[[[[[[[[[[[[[[[[[[[[[[[[[[[[[[[[[[[[[[[[[[[[[[[[[[[[[[[[[[[[[[[[[[[[[[[[[[[[[[[[[[[[[[[[[[[[[[[[[[[[[[[[[[[[[[[[[[[\n100.000000000 piece 5 5a425844010100000000000000ff\n100.000000000 frame 6 {\"request\":\"sender data\",\"data\":{}}\n100.000000000 frame 7 {\"request\":\"sender data\",\"data\":[1,null]}\n100.000000000 closed\n"
}

/// The report of a run over these: the first is closed at its fourth byte, and the next two get no reply.
fn hostile_report() -> &'static str {
    "Ok begun C1T2 1:0 4:1 5:2 6:3 7:4\n4 {\"response\":\"failed\",\"info\":\"not JSON\"}\n5 {\"response\":\"failed\",\"info\":\"not JSON\"}\n6 {\"response\":\"failed\",\"info\":\"unsupported request\"}\n7 {\"response\":\"success\",\"info\":\"processed: 0; failed: 2; total: 2; seconds spent: 0.000000\"}\nstatus: Ok; entries: 2; problems: 0; recoveries: 0; messages: 0; outbox bytes: 0\n"
}

/// One connection brings the value 1.
fn back_frame() -> &'static str {
    "100.000000000 open 1\n100.000000000 frame 1 {\"request\":\"sender data\",\"data\":[{\"host\":\"h\",\"key\":\"k\",\"value\":\"1\"}]}\n100.000000000 closed\n"
}

/// The plain configuration with an action of three steps and a recovery, and a maintenance in which they wait.
fn steps_config() -> &'static str {
    "{\"hosts\":[{\"name\":\"h\",\"groups\":[\"g\"],\"items\":[{\"key\":\"k\"}],\"triggers\":[{\"name\":\"hot\",\"expression\":\"last(/h/k)>5\",\"severity\":3}]}],\"maintenances\":[{\"name\":\"night\",\"since\":0,\"till\":100000,\"hosts\":[\"h\"],\"periods\":[{\"kind\":\"once\",\"start\":235,\"length\":\"5m\"}]}],\"actions\":[{\"name\":\"act\",\"step_duration\":\"60s\",\"operations\":[{\"from\":1,\"to\":2,\"recipients\":[\"ops\"],\"subject\":\"{EVENT.NAME}\",\"body\":\"b1\"},{\"from\":3,\"to\":0,\"recipients\":[\"boss\"],\"subject\":\"{EVENT.NAME}\",\"body\":\"b2\"}],\"recovery\":[{\"recipients\":[\"ops\"],\"subject\":\"{EVENT.NAME}\",\"body\":\"ok\"}]}]}"
}

/// The value 10, moments that pass, and the value 1.
fn steps() -> &'static str {
    "120.000000000 open 1\n120.000000000 frame 1 {\"request\":\"sender data\",\"data\":[{\"host\":\"h\",\"key\":\"k\",\"value\":\"10\"}]}\n180.000000000 quiet\n240.000000000 quiet\n540.000000000 quiet\n550.000000000 open 2\n550.000000000 frame 2 {\"request\":\"sender data\",\"data\":[{\"host\":\"h\",\"key\":\"k\",\"value\":\"1\"}]}\n550.000000000 closed\n"
}

/// The lines of a run over these.
pub(crate) fn steps_lines() -> &'static str {
    "P|3-1|120.000000000|3|0|h|hot|hot\nS|3-1|act|1|120.000000000\nM|3-1|act|1|ops|hot|b1\nS|3-1|act|2|180.000000000\nM|3-1|act|2|ops|hot|b1\nS|3-1|act|3|540.000000000\nM|3-1|act|3|boss|hot|b2\nR|3-1|7|550.000000000|e\nM|3-1|act|0|ops|hot|ok\n"
}

/// The configuration for the script of a name.
fn config_of(script: &str) -> &'static str {
    match script {
        "steps" => steps_config(),
        "spaced" => spaced_config(),
        _ => plain_config(),
    }
}

/// The script of a name.
fn script_of(name: &str) -> &'static str {
    match name {
        "one" => one_frame(),
        "three" => three_frames(),
        "many" => many_frames(),
        "bad" => bad_frames(),
        "halves" => halves(),
        "hostile" => hostile(),
        "steps" => steps(),
        "spaced" => back_frame(),
        _ => "",
    }
}

/// The report of a run whose wire failed.
fn wire_report() -> &'static str {
    "WireFault begun C1T2\nstatus: WireFault\n"
}

/// The report of a run that sent nothing.
fn unsent_report() -> &'static str {
    "Ok begun C1T2V3 1:1\nP|3-1|100.000000000|3|0|h|hot|hot\nstatus: Ok; entries: 3; problems: 1; recoveries: 0; messages: 0; outbox bytes: 34\n"
}

/// The report of a run whose line wasn't printed: all else is as without that fault.
fn unprinted_report() -> &'static str {
    "PrintFault begun C1T2V3 1:1\n1 {\"response\":\"success\",\"info\":\"processed: 1; failed: 0; total: 1; seconds spent: 0.000000\"}\nP|3-1|100.000000000|3|0|h|hot|hot\n"
}

/// What is wanted of a report, by a name. A write to the outbox that was refused is there all the same, since the run tries
/// once more where it ends.
fn report_of(name: &str) -> &'static str {
    match name {
        "no source" => "SourceFault not.. \nstatus: SourceFault\n",
        "no outbox" => "OutboxFault not.. C1\nstatus: OutboxFault\n",
        "one frame" => one_frame_report(),
        "many frames" => many_frames_report(),
        "bad frames" => bad_frames_report(),
        "halves" => halves_report(),
        "first unsent" => first_unsent_report(),
        "second unsent" => second_unsent_report(),
        "hostile" => hostile_report(),
        "first write" => "0.000000\"}\nP|3-1|100.000000000|3|0|h|hot|hot\nstatus: OutboxFault\n",
        "second write" => "|hot\nR|3-1|4|100.000000000|e\nstatus: OutboxFault\n",
        "third write" => "|e\nF|5|h|k|value: not a number\nstatus: OutboxFault\n",
        "no wire" => wire_report(),
        "nothing sent" => unsent_report(),
        "nothing printed" => unprinted_report(),
        _ => "no such report",
    }
}

/// Whether a case comes to what is wanted: a report that is this one, or that ends so.
fn is_so(alloc: Global, row: Row<'_>) -> Result<bool, OutOfMemory> {
    let wanted = report_of(row.wanted).as_bytes();
    let setup = setup_of(alloc, row.input, 0)?;
    let told = told_of(alloc, setup)?;
    Ok(match row.kind {
        "is" => told.as_slice() == wanted,
        "ends" => told.as_slice().ends_with(wanted),
        _ => false,
    })
}

/// Each read of the configuration, each call of the outbox, of which the first looks whether it can be read, a call of the wire, a send and the printer fail once. Events
/// are answered alike where they stand ready, which has them committed together, and where they don't.
fn cases() -> &'static str {
    "is | no source | script=one source=1\n\
    is | no source | script=one source=2\n\
    is | one frame | script=one source=3\n\
    is | no outbox | script=one outbox=1\n\
    ends | first write | script=many outbox=2\n\
    ends | second write | script=many outbox=3\n\
    ends | third write | script=many outbox=4\n\
    ends | many frames | script=many outbox=5\n\
    is | no wire | script=one wire=2\n\
    is | nothing sent | script=one wire=3\n\
    is | nothing printed | script=one print=1\n\
    is | one frame | script=one ready=no\n\
    is | one frame | script=one ready=yes\n\
    is | many frames | script=many ready=no\n\
    is | many frames | script=many ready=yes\n\
    is | bad frames | script=bad ready=no\n\
    is | bad frames | script=bad ready=yes\n\
    is | halves | script=halves ready=no\n\
    is | halves | script=halves ready=yes\n\
    is | first unsent | script=halves wire=5\n\
    is | second unsent | script=halves wire=7\n\
    is | hostile | script=hostile ready=no\n\
    is | hostile | script=hostile ready=yes"
}

#[test]
fn each_fault_ends_the_run_in_its_way(rt: HostRuntime) -> Result<(), Fail> {
    for line in cases().split('\n') {
        let is_so = is_so(rt.alloc(), row_of(line))?;
        assert!(rt; is_so, "{line}");
    }
    Ok(())
}
