//! Sources, sinks, disks, wires and gates in memory.

use crate::ports::{put_answers, put_calls, put_number, put_reads};
use crate::rows::{Row, number, row_of};
use outside::{
    Disk, Failed, Gate, HoldGate, MemDisk, MemSink, MemSource, OpenGate, RamDisk, ScriptWire, Sink,
    Source, Trouble, Wire, WireEvent, WorkWire,
};
use std::alloc::Global;
use std::convert::AsStr;
use std::test::Fail;
use std::thread::{Threads, join};
use zbx_types::{Bytes, Many, OutOfMemory, Text};

fn only(alloc: Global, number: u64) -> Result<Many<u64>, OutOfMemory> {
    let mut numbers = Many::new(alloc);
    numbers.push(number)?;
    Ok(numbers)
}

/// A source of these bytes, none of whose calls fails.
fn source(alloc: Global, text: &[u8]) -> Result<MemSource, OutOfMemory> {
    Ok(MemSource::new(Bytes::of(alloc, text)?, Many::new(alloc)))
}

/// The wire of a script, none of whose calls fails.
fn wire_of(alloc: Global, script: &str) -> Result<ScriptWire<MemSource>, OutOfMemory> {
    let script = source(alloc, script.as_bytes())?;
    Ok(ScriptWire::new(alloc, script, Many::new(alloc)))
}

/// Adds four reads of a source whose second call fails.
fn put_source(alloc: Global, told: &mut Text, text: &str) -> Result<(), OutOfMemory> {
    let fails = only(alloc, 2)?;
    let bytes = Bytes::of(alloc, text.as_bytes())?;
    let mut source = MemSource::new(bytes, fails);
    let put = put_reads(told, &mut source, 4);
    drop(source);
    put
}

/// Adds bytes as numbers.
fn put_numbers(alloc: Global, told: &mut Text, bytes: &[u8]) -> Result<(), OutOfMemory> {
    let shown = format!(in alloc; "{bytes:?}")?;
    told.push_str(shown.as_str())
}

/// A sink of one byte whose second call fails.
fn sink_of_one(alloc: Global) -> Result<MemSink, OutOfMemory> {
    let fails = only(alloc, 2)?;
    let held = Bytes::of(alloc, b"a")?;
    Ok(MemSink::new(held, fails))
}

/// Adds what calls of a sink answer, and what it holds then.
fn put_held(
    alloc: Global,
    told: &mut Text,
    sink: &mut MemSink,
    calls: &str,
) -> Result<(), OutOfMemory> {
    put_calls(told, sink, calls)?;
    told.push_str(" ")?;
    put_numbers(alloc, told, sink.bytes().as_slice())
}

/// The same of a sink of one byte whose second call fails.
fn put_sink(alloc: Global, told: &mut Text, calls: &str) -> Result<(), OutOfMemory> {
    let mut sink = sink_of_one(alloc)?;
    let put = put_held(alloc, told, &mut sink, calls);
    drop(sink);
    put
}

fn script() -> &'static str {
    "100.000000000 open 7\n\n100.000000001 piece 7 00ff\n0100.000000002 frame 07 a b\n\
    101.000000000 end 7\n102.000000000 broke 8\n103.000000000 quiet\n104.000000000 closed"
}

fn events() -> &'static str {
    "Opened { conn: 7, at: Moment { sec: 100, ns: 0 } }\n\
    Piece { conn: 7, bytes: Bytes { bytes: [0, 255] }, at: Moment { sec: 100, ns: 1 } }\n\
    Piece { conn: 7, bytes: Bytes { bytes: [90, 66, 88, 68, 1, 3, 0, 0, 0, 0, 0, 0, 0, 97, 32, 98] }, \
    at: Moment { sec: 100, ns: 2 } }\n\
    Ended { conn: 7, at: Moment { sec: 101, ns: 0 } }\n\
    Broke { conn: 8, at: Moment { sec: 102, ns: 0 } }\n\
    Quiet { at: Moment { sec: 103, ns: 0 } }\n\
    Closed { at: Moment { sec: 104, ns: 0 } }\n\
    Closed { at: Moment { sec: 104, ns: 0 } }\n\
    Failed\n"
}

/// A script with the events of the workload of two values.
fn two_values() -> &'static str {
    "1000000.000000000 open 1\n\
    1000000.000000000 frame 1 {\"request\":\"sender data\",\"data\":[{\"host\":\"h28\",\"key\":\"k1\",\"value\":\"53\"},\
    {\"host\":\"h23\",\"key\":\"k5\",\"value\":\"19\"}]}\n"
}

/// A script with the last events of the workload of 251 values.
fn value_251() -> &'static str {
    "1000001.000000000 open 2\n\
    1000001.000000000 frame 2 {\"request\":\"sender data\",\"data\":[{\"host\":\"h15\",\"key\":\"k7\",\"value\":\"33\"}]}\n"
}

/// Adds one word for a text where it ends as wanted, and else the text.
fn put_ending(told: &mut Text, text: &str, wanted: &str) -> Result<(), OutOfMemory> {
    told.push_str(if text.ends_with(wanted) {
        "as wanted"
    } else {
        text
    })
}

/// Adds what calls of a wire's `next` answer, for the wire of a script.
fn put_script(alloc: Global, told: &mut Text, script: &str, calls: u64) -> Result<(), OutOfMemory> {
    let mut wire = wire_of(alloc, script)?;
    let put = put_answers(alloc, told, &mut wire, calls);
    drop(wire);
    put
}

/// The same for the wire of a workload of the number 7 and so many values.
fn put_work(alloc: Global, told: &mut Text, values: u64, calls: u64) -> Result<(), OutOfMemory> {
    let mut wire = WorkWire::new(alloc, 7, values.clamp(1, 1_000));
    let put = put_answers(alloc, told, &mut wire, calls);
    drop(wire);
    put
}

/// What is told of the script.
fn script_told(alloc: Global) -> Result<Text, OutOfMemory> {
    let mut told = Text::new(alloc);
    let put = put_script(alloc, &mut told, script(), 9);
    filled(told, put)
}

/// A text, or nothing where memory was refused for it.
fn filled(told: Text, put: Result<(), OutOfMemory>) -> Result<Text, OutOfMemory> {
    match put {
        Ok(()) => Ok(told),
        Err(OutOfMemory) => {
            drop(told);
            Err(OutOfMemory)
        }
    }
}

/// Adds whether the events of the script are told as they are written above, and no others.
fn tell_script(alloc: Global, told: &mut Text) -> Result<(), OutOfMemory> {
    let met = script_told(alloc)?;
    told.push_str(if met.as_str() == events() {
        "as wanted"
    } else {
        met.as_str()
    })
}

/// What is told of the last events of a workload of so many values, as a script has them.
fn last_told(alloc: Global, values: &str) -> Result<Text, OutOfMemory> {
    let mut told = Text::new(alloc);
    let script = if values == "2" {
        two_values()
    } else {
        value_251()
    };
    let put = put_script(alloc, &mut told, script, 4);
    filled(told, put)
}

/// What is told of such a workload.
fn work_told(alloc: Global, values: &str) -> Result<Text, OutOfMemory> {
    let mut told = Text::new(alloc);
    let calls = if values == "2" { 4 } else { 6 };
    let put = put_work(alloc, &mut told, number(values), calls);
    filled(told, put)
}

/// Adds whether a workload of so many values ends as a script does.
fn tell_work(alloc: Global, told: &mut Text, values: &str) -> Result<(), OutOfMemory> {
    let last = last_told(alloc, values)?;
    let met = work_told(alloc, values)?;
    put_ending(told, met.as_str(), last.as_str())
}

/// Whether a call of `next` gives an event of this second.
fn gives_at(alloc: Global, wire: &mut ScriptWire<MemSource>, sec: u32) -> bool {
    match wire.next(alloc).ok() {
        Some(event) => {
            let is_at = event.at().sec == sec;
            drop(event);
            is_at
        }
        None => false,
    }
}

/// Whether the next call of a wire fails, and the one behind it gives an event of the second 2; how often it failed.
fn passed(alloc: Global, wire: &mut ScriptWire<MemSource>) -> (bool, bool, u64) {
    let failed = wire.next(alloc).err() == Some(Trouble::Failed);
    let behind = gives_at(alloc, wire, 2);
    (failed, behind, wire.faults())
}

/// Adds the same for a script of this line and one behind it.
fn put_passed(alloc: Global, told: &mut Text, bad: &str) -> Result<(), OutOfMemory> {
    let script = format!(in alloc; "{bad}\n2.000000000 quiet")?;
    let mut wire = wire_of(alloc, script.as_str())?;
    drop(script);
    let passed = passed(alloc, &mut wire);
    drop(wire);
    let shown = format!(in alloc; "{passed:?}")?;
    told.push_str(shown.as_str())
}

/// Whether a wire has kept what was sent to connection 3 before its second call, and nothing else.
fn has_sent(wire: &ScriptWire<MemSource>) -> bool {
    match wire.sent().as_slice() {
        [(conn, bytes)] => *conn == 3 && bytes.as_slice() == b"xy".as_slice(),
        _ => false,
    }
}

/// Whether a wire has kept that connection 3 was closed behind two calls of `send`.
fn has_closed(wire: &ScriptWire<MemSource>) -> bool {
    match wire.closed() {
        Some(closed) => match closed.as_slice() {
            [(conn, calls)] => *conn == 3 && *calls == 2,
            _ => false,
        },
        None => false,
    }
}

/// Whether a wire whose second call fails answers so, and keeps what was sent before it and what was closed.
fn is_kept(alloc: Global, wire: &mut ScriptWire<MemSource>) -> [bool; 5] {
    let sent = wire.send(3, b"xy") == Ok(());
    let failed = wire.send(3, b"z") == Err(Failed) && wire.unsent() == 1;
    wire.close(3);
    let behind = gives_at(alloc, wire, 0);
    [sent, failed, behind, has_sent(wire), has_closed(wire)]
}

/// Adds the same for a wire of no script.
fn put_kept(alloc: Global, told: &mut Text) -> Result<(), OutOfMemory> {
    let fails = only(alloc, 2)?;
    let script = source(alloc, b"")?;
    let mut wire = ScriptWire::new(alloc, script, fails);
    let kept = is_kept(alloc, &mut wire);
    drop(wire);
    let shown = format!(in alloc; "{kept:?}")?;
    told.push_str(shown.as_str())
}

/// How many bytes there are in a large piece.
const LARGE: usize = 65_536;

/// Whether a sink takes so many bytes at once.
fn takes_large(alloc: Global, piece: &[u8]) -> bool {
    let mut sink = MemSink::new(Bytes::new(alloc), Many::new(alloc));
    let is_taken = sink.write(piece) == Ok(piece.len());
    drop(sink);
    is_taken
}

/// Whether a source gives so many bytes at once.
fn gives_large(alloc: Global, piece: &[u8]) -> Result<bool, OutOfMemory> {
    let mut source = source(alloc, piece)?;
    let mut into = [0; LARGE];
    let is_given = source.read(&mut into) == Ok(piece.len());
    drop(source);
    Ok(is_given)
}

/// The line of a frame of a piece.
fn frame_of(alloc: Global, piece: &[u8]) -> Result<Bytes, OutOfMemory> {
    let mut line = Bytes::of(alloc, b"1.000000000 frame 1 ")?;
    line.extend(piece)?;
    Ok(line)
}

/// How many bytes come at the next call.
fn next_length(alloc: Global, wire: &mut ScriptWire<MemSource>) -> usize {
    match wire.next(alloc).ok() {
        Some(event) => {
            let length = match &event {
                WireEvent::Piece { bytes, .. } => bytes.len(),
                _ => 0,
            };
            drop(event);
            length
        }
        None => 0,
    }
}

/// Whether a wire sends a piece at once, and gives as many bytes of a frame, its header before them.
fn sends_large(alloc: Global, piece: &[u8]) -> Result<bool, OutOfMemory> {
    let script = MemSource::new(frame_of(alloc, piece)?, Many::new(alloc));
    let mut wire = ScriptWire::new(alloc, script, Many::new(alloc));
    let is_sent = wire.send(1, piece) == Ok(());
    let length = next_length(alloc, &mut wire);
    drop(wire);
    Ok(is_sent && length == 65_549)
}

/// Adds whether all of these take and give a large piece at once.
fn put_large(alloc: Global, told: &mut Text) -> Result<(), OutOfMemory> {
    let piece = [b'a'; LARGE];
    let moves = takes_large(alloc, &piece) && gives_large(alloc, &piece)?;
    let sends = sends_large(alloc, &piece)?;
    told.push_str(if moves && sends {
        "at once"
    } else {
        "in parts"
    })
}

/// A disk of the bytes `abc` whose call with this number fails.
fn disk_of_abc(alloc: Global, failing: u64) -> Result<MemDisk, OutOfMemory> {
    let fails = only(alloc, failing)?;
    let bytes = Bytes::of(alloc, b"abc")?;
    Ok(MemDisk::new(alloc, bytes, fails))
}

/// Reads and writes a disk.
fn use_disk(disk: &mut MemDisk) {
    let _ = disk.len();
    let _ = disk.write_at(1, b"x");
    let _ = disk.sync();
    let _ = disk.write_at(5, b"yz");
}

/// Adds what such a disk holds after it was read and written, and how often it failed.
fn put_disk(alloc: Global, told: &mut Text, failing: u64) -> Result<(), OutOfMemory> {
    let mut disk = disk_of_abc(alloc, failing)?;
    use_disk(&mut disk);
    let put = put_numbers(alloc, told, disk.bytes().as_slice());
    let faults = disk.faults();
    drop(disk);
    put?;
    put_number(told, faults)
}

/// How many bytes a disk of the bytes `abc` says that it has, and what it gives from a place on.
fn read_of(disk: &mut MemDisk, at: u64) -> (u64, usize, [u8; 2]) {
    let mut into = [0; 2];
    let length = disk.len().unwrap_or(99);
    let count = disk.read(at, &mut into).unwrap_or(99);
    (length, count, into)
}

/// Adds the same of such a disk.
fn put_read(alloc: Global, told: &mut Text, at: u64) -> Result<(), OutOfMemory> {
    let mut disk = disk_of_abc(alloc, 100)?;
    let read = read_of(&mut disk, at);
    drop(disk);
    let shown = format!(in alloc; "{read:?}")?;
    told.push_str(shown.as_str())
}

/// What calls of a disk that keeps its bytes alone answer.
fn bare_answers(disk: &mut RamDisk) -> [bool; 4] {
    let mut into = [0; 4];
    [
        disk.write_at(2, b"yz") == Ok(()),
        disk.write_at(0, b"ab") == Ok(()) && disk.sync() == Ok(()),
        disk.len() == Ok(4),
        disk.read(3, &mut into) == Ok(1) && into[0] == b'z',
    ]
}

/// Adds the same, and what it holds then.
fn put_bare(alloc: Global, told: &mut Text) -> Result<(), OutOfMemory> {
    let mut disk = RamDisk::new(alloc);
    let answers = bare_answers(&mut disk);
    let shown = format!(in alloc; "{answers:?} {:?}", disk.bytes().as_slice());
    drop(disk);
    told.push_str(shown?.as_str())
}

/// Writes pieces of 65,536 bytes behind one another, so many of them.
fn grow<D: Disk>(disk: &mut D, pieces: u64) {
    let piece = [b'a'; 65_536];
    for number in 0..pieces.min(1_000) {
        let _ = disk.write_at(number * 65_536, &piece);
    }
}

/// How many bytes each disk holds then.
fn grown(alloc: Global, pieces: u64) -> (usize, usize) {
    let mut disk = MemDisk::new(alloc, Bytes::new(alloc), Many::new(alloc));
    grow(&mut disk, pieces);
    let held = disk.bytes().len();
    drop(disk);
    let mut ram = RamDisk::new(alloc);
    grow(&mut ram, pieces);
    let kept = ram.bytes().len();
    drop(ram);
    (held, kept)
}

/// Adds the same.
fn put_grown(alloc: Global, told: &mut Text, pieces: u64) -> Result<(), OutOfMemory> {
    let (held, kept) = grown(alloc, pieces);
    told.push_decimal(held as u64)?;
    put_number(told, kept as u64)
}

/// How many calls a gate counts, for how many turns one was held, and whether another syncer ended that. It lets calls up
/// to 5 pass; one holds for so many turns, and two syncers come behind it.
fn hold(turns: u64) -> (u64, u64, bool) {
    let gate = HoldGate::new(5, turns);
    OpenGate.reached(0, 6);
    gate.reached(0, 5);
    gate.reached(1, 6);
    gate.reached(0, 7);
    gate.reached(1, 8);
    (gate.calls(), gate.turns_waited(), gate.ended_by_other())
}

/// Adds the same.
fn put_hold(alloc: Global, told: &mut Text, turns: u64) -> Result<(), OutOfMemory> {
    let shown = format!(in alloc; "{:?}", hold(turns))?;
    told.push_str(shown.as_str())
}

/// Adds what comes of a case.
fn put_case(alloc: Global, told: &mut Text, row: Row<'_>) -> Result<(), OutOfMemory> {
    match row.kind {
        "source" => put_source(alloc, told, row.input),
        "sink" => put_sink(alloc, told, row.input),
        "script" => tell_script(alloc, told),
        "workload" => tell_work(alloc, told, row.input),
        "bad line" => put_passed(alloc, told, row.input),
        "sent and closed" => put_kept(alloc, told),
        "large pieces" => put_large(alloc, told),
        _ => put_disks(alloc, told, row),
    }
}

fn put_disks(alloc: Global, told: &mut Text, row: Row<'_>) -> Result<(), OutOfMemory> {
    match row.kind {
        "disk that fails" => put_disk(alloc, told, number(row.input)),
        "disk from" => put_read(alloc, told, number(row.input)),
        "bare disk" => put_bare(alloc, told),
        "pieces" => put_grown(alloc, told, number(row.input)),
        "hold" => put_hold(alloc, told, number(row.input)),
        _ => told.push_str("no such kind"),
    }
}

/// What comes of a case.
fn answer(alloc: Global, row: Row<'_>) -> Result<Text, OutOfMemory> {
    let mut told = Text::new(alloc);
    let put = put_case(alloc, &mut told, row);
    filled(told, put)
}

fn cases() -> &'static str {
    "source | ab,failed,c,, 1 | abc\n\
    sink | 2,failed,1, 4 1 [97, 98, 99, 101] | bc,d,e\n\
    sink | 2,failed,2,same,ok,same,ok, 2 1 [97, 98] | bc,?1bd,?1bd,?3x,-2,?0abx,!\n\
    sink | ok,failed,ok,0, 1 1 [97] | !,-0,-7,?0b\n\
    sink | 0,failed,ok,same, 0 1 [] | ?0b,!,-0,?0b\n\
    script | as wanted\n\
    workload | as wanted | 2\n\
    workload | as wanted | 251\n\
    bad line | (true, true, 1) | quiet\n\
    bad line | (true, true, 1) | 1.00000000 quiet\n\
    bad line | (true, true, 1) | .000000000 quiet\n\
    bad line | (true, true, 1) | 4294967296.000000000 quiet\n\
    bad line | (true, true, 1) | 1.000000000  quiet\n\
    bad line | (true, true, 1) | 1.000000000 quiet\r\n\
    bad line | (true, true, 1) | 1.000000000 open \n\
    bad line | (true, true, 1) | 1.000000000 open 18446744073709551616\n\
    bad line | (true, true, 1) | 1.000000000 piece 1\n\
    bad line | (true, true, 1) | 1.000000000 piece 1 0\n\
    bad line | (true, true, 1) | 1.000000000 piece 1 0A\n\
    bad line | (true, true, 1) | 1.000000000 frame 1\n\
    bad line | (true, true, 1) | 1.000000000 shut 1\n\
    sent and closed | [true, true, true, true, true]\n\
    large pieces | at once\n\
    disk that fails | [97, 120, 99, 0, 0, 121, 122] 0 | 100\n\
    disk that fails | [97, 98, 99, 0, 0, 121, 122] 1 | 2\n\
    disk that fails | [97, 120, 99] 1 | 4\n\
    disk from | (3, 2, [98, 99]) | 1\n\
    disk from | (3, 1, [99, 0]) | 2\n\
    disk from | (3, 0, [0, 0]) | 3\n\
    bare disk | [true, true, true, true] [97, 98, 121, 122]\n\
    pieces | 16777216 16777216 | 256\n\
    hold | (4, 3, false) | 3"
}

#[test]
fn ports_in_memory_do_what_they_are_told(rt: HostRuntime) -> Result<(), Fail> {
    for line in cases().split('\n') {
        let row = row_of(line);
        let told = answer(rt.alloc(), row)?;
        assert_eq!(rt; told.as_str(), row.wanted, "{line}");
    }
    Ok(())
}

/// How many calls a gate counts to which two syncers come at once, and whether the second one ended the hold of the first.
fn hold_one<R: Threads>(rt: &R) -> (u64, bool) {
    let gate = HoldGate::new(5, 100_000_000);
    join(rt, || gate.reached(0, 6), || gate.reached(1, 7));
    (gate.calls(), gate.ended_by_other())
}

#[test]
fn another_syncer_ends_the_hold(rt: HostRuntime) {
    assert_eq!(rt; hold_one(&rt), (2, true));
}
