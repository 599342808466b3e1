//! Runs beside history syncers, over workloads.

use crate::rows::number;
use crate::runs::{Over, Ports, alone, beside, ports_of, put_words, setup_of};
use outside::{HoldGate, MemSink, OpenGate, RamDisk, WorkWire, work_source};
use server_words::Status;
use std::alloc::Global;
use std::sync::Wait;
use std::test::Fail;
use std::thread::Threads;
use zbx_types::{Bytes, Many, OutOfMemory, Text};

/// How many values a small workload has.
const FEW: u64 = 2_000;

/// How many values a large workload has.
const MANY: u64 = 200_000;

/// A run over a workload of the number 7.
#[derive(Clone, Copy)]
struct Asked<'a> {
    values: u64,
    syncers: &'a str,
    /// A gate holds the first syncer that comes with an entry behind this one, for so many turns. Without turns it is open.
    after: u64,
    turns: u64,
    /// The calls of the outbox that fail.
    first: u64,
    last: u64,
}

impl<'a> Asked<'a> {
    /// Sets one part.
    fn set(&mut self, name: &str, value: &'a str) {
        match name {
            "syncers" => self.syncers = value,
            "after" => self.after = number(value),
            "turns" => self.turns = number(value),
            "first" => self.first = number(value),
            _ => self.last = number(value),
        }
    }
}

/// What a line of parts asks for, of a workload of so many values.
fn asked_by(values: u64, parts: &str) -> Asked<'_> {
    let mut asked = Asked {
        values,
        syncers: "0",
        after: 0,
        turns: 0,
        first: 0,
        last: 0,
    };
    for part in parts.split_whitespace() {
        let (name, value) = part.split_once('=').unwrap_or((part, ""));
        asked.set(name, value);
    }
    asked
}

/// The first words of a run.
fn first_words(values: u64) -> &'static str {
    if values == MANY {
        "--mode workload --number 7 --values 200000 --syncers"
    } else {
        "--mode workload --number 7 --values 2000 --syncers"
    }
}

/// Adds the words of a run, and the numbers of the outbox's calls that fail. There is no call of the number 0.
fn fill(
    alloc: Global,
    asked: Asked<'_>,
    words: &mut Many<Text>,
    fails: &mut Many<u64>,
) -> Result<(), OutOfMemory> {
    put_words(alloc, words, first_words(asked.values))?;
    put_words(alloc, words, asked.syncers)?;
    fails.push(asked.first)?;
    for number in asked.first..asked.last {
        fails.push(number + 1)?;
    }
    Ok(())
}

/// The ports of a run.
fn work_ports(alloc: Global, asked: Asked<'_>) -> Result<Ports<WorkWire>, OutOfMemory> {
    let values = asked.values.clamp(1, 1_000_000);
    let config = work_source(alloc, 7, values)?;
    let mut words = Many::new(alloc);
    let mut fails = Many::new(alloc);
    let filled = fill(alloc, asked, &mut words, &mut fails);
    let ports = Ports {
        words,
        config,
        wire: WorkWire::new(alloc, 7, values),
        outbox: MemSink::new(Bytes::new(alloc), fails),
        print: MemSink::new(Bytes::new(alloc), Many::new(alloc)),
    };
    match filled {
        Ok(()) => Ok(ports),
        Err(OutOfMemory) => {
            drop(ports);
            Err(OutOfMemory)
        }
    }
}

/// Runs on one thread.
fn work_alone(alloc: Global, values: u64) -> Result<Over<WorkWire, RamDisk>, OutOfMemory> {
    let ports = work_ports(alloc, asked_by(values, ""))?;
    Ok(alone(alloc, ports, RamDisk::new(alloc)))
}

/// Runs beside syncers, at a gate, or at an open one where it has no turns.
fn work_beside<R: Threads + Wait + Sync>(
    rt: &R,
    alloc: Global,
    ports: Ports<WorkWire>,
    gate: &HoldGate,
    is_open: bool,
) -> Over<WorkWire, RamDisk> {
    let disk = RamDisk::new(alloc);
    if is_open {
        beside(rt, alloc, ports, disk, &OpenGate)
    } else {
        beside(rt, alloc, ports, disk, gate)
    }
}

/// How a run beside syncers went, and how its lines stand to those of the run on one thread.
#[derive(Clone, Copy)]
struct Came {
    ok: bool,
    failed: bool,
    some: bool,
    same: bool,
    front: bool,
    printed: bool,
    entries: u64,
    orders: u64,
    other: bool,
}

/// How a run beside syncers went that has ended.
fn came_of(
    over: &Over<WorkWire, RamDisk>,
    alone: &Over<WorkWire, RamDisk>,
    gate: &HoldGate,
) -> Came {
    let outbox = over.ended.outbox.bytes().as_slice();
    let whole = alone.ended.outbox.bytes().as_slice();
    Came {
        ok: over.ended.status == Status::Ok,
        failed: over.ended.status == Status::OutboxFault,
        some: !outbox.is_empty(),
        same: outbox == whole,
        front: whole.starts_with(outbox),
        printed: over.print.bytes().as_slice() == alone.print.bytes().as_slice(),
        entries: over.ended.entries.as_slice().len() as u64,
        orders: gate.calls(),
        other: gate.ended_by_other(),
    }
}

impl Came {
    /// Whether one thing is so: the run ended well or the outbox failed, or one of both; its lines are some or none, all or
    /// the first ones; it printed the same line; it took so many entries, or fewer than so many, in so many orders at
    /// least; another syncer ended the hold.
    fn is(&self, name: &str, number: u64) -> bool {
        match name {
            "Ok" => self.ok,
            "failed" => self.failed,
            "ended" => self.failed || self.ok && self.same,
            "some" => self.some,
            "none" => !self.some,
            "same" => self.same,
            "front" => self.front,
            "printed" => self.printed,
            "entries" => self.entries == number,
            "below" => self.entries < number,
            "orders" => number <= self.orders,
            "other" => self.other,
            _ => false,
        }
    }

    /// Whether all of these are so.
    fn is_all(&self, wanted: &str) -> bool {
        for part in wanted.split_whitespace() {
            let (name, value) = part.split_once('=').unwrap_or((part, ""));
            if !self.is(name, number(value)) {
                return false;
            }
        }
        true
    }
}

/// How a run went that a line asks for.
fn run_asked<R: Threads + Wait + Sync>(
    rt: &R,
    alloc: Global,
    asked: Asked<'_>,
    alone: &Over<WorkWire, RamDisk>,
) -> Result<Came, OutOfMemory> {
    let ports = work_ports(alloc, asked)?;
    let gate = HoldGate::new(asked.after, asked.turns);
    let over = work_beside(rt, alloc, ports, &gate, asked.turns == 0);
    let came = came_of(&over, alone, &gate);
    drop(over);
    Ok(came)
}

/// The first line of cases that comes to something else, beside a run on one thread. It is empty where there is none.
fn first_other<'a, R: Threads + Wait + Sync>(
    rt: &R,
    alloc: Global,
    values: u64,
    cases: &'a str,
    alone: &Over<WorkWire, RamDisk>,
) -> Result<&'a str, OutOfMemory> {
    for line in cases.split('\n') {
        let (wanted, parts) = line.split_once(" | ").unwrap_or((line, ""));
        let came = run_asked(rt, alloc, asked_by(values, parts), alone)?;
        if !came.is_all(wanted) {
            return Ok(line);
        }
    }
    Ok("")
}

/// The same over a workload of so many values.
fn other_case<'a, R: Threads + Wait + Sync>(
    rt: &R,
    alloc: Global,
    values: u64,
    cases: &'a str,
) -> Result<&'a str, OutOfMemory> {
    let alone = work_alone(alloc, values)?;
    let other = first_other(rt, alloc, values, cases, &alone);
    drop(alone);
    other
}

/// Syncers write what one thread writes, also where one is held anywhere. Behind the Tick entries are worked out beside the
/// one that is held first: all but the first go out in orders of at most 64, and none is left to the end of the run. An
/// outbox that fails holds the first lines; one whose first call fails, which looks whether it can be read, ends the opening.
fn few_cases() -> &'static str {
    "Ok same printed some | syncers=0\n\
    Ok same printed some | syncers=1\n\
    Ok same printed some | syncers=4\n\
    Ok same printed some | syncers=8\n\
    Ok same entries=2002 orders=32 other | syncers=4 after=2 turns=100000000\n\
    Ok same printed | syncers=8 after=66 turns=100000\n\
    Ok same printed | syncers=8 after=1143 turns=100000\n\
    Ok same printed | syncers=8 after=1074 turns=100000\n\
    Ok same printed | syncers=8 after=967 turns=100000\n\
    Ok same printed | syncers=8 after=946 turns=100000\n\
    Ok same printed | syncers=8 after=1783 turns=100000\n\
    Ok same printed | syncers=8 after=994 turns=100000\n\
    Ok same printed | syncers=8 after=727 turns=100000\n\
    Ok same printed | syncers=8 after=226 turns=100000\n\
    Ok same printed | syncers=8 after=1623 turns=100000\n\
    Ok same printed | syncers=8 after=514 turns=100000\n\
    Ok same printed | syncers=8 after=1287 turns=100000\n\
    Ok same printed | syncers=8 after=1906 turns=100000\n\
    Ok same printed | syncers=8 after=663 turns=100000\n\
    Ok same printed | syncers=8 after=1634 turns=100000\n\
    Ok same printed | syncers=8 after=647 turns=100000\n\
    Ok same printed | syncers=8 after=1986 turns=100000\n\
    Ok same printed | syncers=8 after=903 turns=100000\n\
    Ok same printed | syncers=8 after=354 turns=100000\n\
    Ok same printed | syncers=8 after=807 turns=100000\n\
    failed none entries=1 | syncers=4 first=1 last=1\n\
    failed front | syncers=4 first=2 last=2\n\
    failed none | syncers=4 first=2 last=101\n\
    ended front some | syncers=4 first=3 last=3\n\
    ended front some | syncers=4 first=3 last=101\n\
    ended front some | syncers=4 first=4 last=4\n\
    ended front some | syncers=4 first=5 last=5\n\
    ended front some | syncers=4 first=5 last=101\n\
    ended front some | syncers=4 first=6 last=6\n\
    ended front some | syncers=4 first=7 last=7\n\
    ended front some | syncers=4 first=9 last=9"
}

#[test]
fn syncers_write_what_one_thread_writes(rt: HostRuntime) -> Result<(), Fail> {
    let other = other_case(&rt, rt.alloc(), FEW, few_cases())?;
    assert_eq!(rt; other, "");
    Ok(())
}

/// The same of many values; and no more entries are taken once the outbox failed.
fn many_cases() -> &'static str {
    "Ok same entries=200028 orders=3126 other | syncers=4 after=2 turns=100000000\n\
    failed none below=100000 | syncers=4 first=2 last=101"
}

#[test]
fn many_values_go_through_the_syncers(rt: HostRuntime) -> Result<(), Fail> {
    let other = other_case(&rt, rt.alloc(), MANY, many_cases())?;
    assert_eq!(rt; other, "");
    Ok(())
}

/// The turns of a hold that another syncer is to end.
const TURNS: u64 = 100_000_000;

/// Whether the two entries of one frame, which conflict, go out in one order or two, none beside another, and their line is
/// written.
fn conflict<R: Threads + Wait + Sync>(rt: &R, alloc: Global) -> Result<bool, OutOfMemory> {
    let setup = setup_of(alloc, "script=one syncers=4", 0)?;
    let (ports, journal, fails) = ports_of(alloc, setup);
    drop(journal);
    drop(fails);
    let gate = HoldGate::new(3, TURNS);
    let over = beside(rt, alloc, ports, RamDisk::new(alloc), &gate);
    let calls = gate.calls();
    let is_written = over.ended.outbox.bytes().as_slice()
        == b"P|3-1|100.000000000|3|0|h|hot|hot\n".as_slice();
    drop(over);
    Ok(is_written && 1 <= calls && calls <= 2 && !gate.ended_by_other())
}

#[test]
fn entries_that_conflict_go_out_one_after_the_other(rt: HostRuntime) -> Result<(), Fail> {
    let conflict = conflict(&rt, rt.alloc())?;
    assert!(rt; conflict);
    Ok(())
}
