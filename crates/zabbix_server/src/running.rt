//! From words to a run over files and standard output.

ghost use Rattle.std.specs.Prelude.{◌≡◌, ◌⊎◌, None, IfOk};
ghost use Rattle.server_words.specs.Words.{plan_of, IsWithin};
ghost use Rattle.server_words.specs.declared.status.Status.TheVariants as Status;
ghost use Rattle.zabbix_server.specs.Program.{IsStatusOf, IsRunStatus};

use outside::{
    Disk, MemSink, MemSource, OpenGate, RamDisk, ScriptWire, Sink, Source, Wire, WorkWire,
    work_source,
};
use server_run::{Ended, run_syncers};
use server_words::{Mode, Plan, PlanError, Status, plan};
use std::alloc::Global;
use std::convert::AsStr;
use std::mem::forget;
use std::sync::Wait;
use std::thread::Threads;
use wire_mio::{FileDisk, FileSink, FileSource, MioWire, StdSink};
use zbx_types::{Bytes, Many, OutOfMemory, Text};

/// Runs the server as the words ask, over files and standard output, and answers how the run ended. [`OutOfMemory`]
/// where there is no memory for what the words name; nothing was printed then.
pub(crate) fn run<R: Threads + Wait + Sync>(
    rt: &HostRuntime,
    threads: &R,
    alloc: Global,
    words: &[Text],
) -> Result<Status, OutOfMemory>
    ensures usage { IfOk result (λ status. status ≡ Status.Usage → plan_of words.now ≡ None) }
    ensures not_command { plan_of words.now ≡ None → IfOk result
        (λ status. (status ≡ Status.Usage) ⊎ (status ≡ Status.OutOfMemory)) }
    ensures ran { IfOk result (IsRunStatus words.now) }
{
    match plan(alloc, words) {
        Ok(plan) => {
            let ended = run_planned(rt, threads, alloc, words, &plan);
            drop(plan);
            ended
        }
        Err(PlanError::Usage) => Ok(run_nothing(rt, threads, alloc, words)),
        Err(PlanError::OutOfMemory) => Err(OutOfMemory),
    }
}

/// Runs the server as a plan says, over the wire of its mode.
fn run_planned<R: Threads + Wait + Sync>(
    rt: &HostRuntime,
    threads: &R,
    alloc: Global,
    words: &[Text],
    plan: &Plan,
) -> Result<Status, OutOfMemory>
    requires within { IsWithin plan.now }
    ensures ran { IfOk result (IsRunStatus words.now) }
{
    match plan.mode {
        Mode::Feed => run_feed(rt, threads, alloc, words, plan),
        Mode::Serve => run_serve(rt, threads, alloc, words, plan),
        Mode::Workload => run_workload(rt, threads, alloc, words, plan),
        Mode::Alerts | Mode::Checkpoint => Ok(run_nothing(rt, threads, alloc, words)),
    }
}

/// Runs the server over the script that a plan names. A path that it doesn't name is the empty one, at which no file
/// is.
fn run_feed<R: Threads + Wait + Sync>(
    rt: &HostRuntime,
    threads: &R,
    alloc: Global,
    words: &[Text],
    plan: &Plan,
) -> Result<Status, OutOfMemory>
    ensures ran { IfOk result (IsRunStatus words.now) }
{
    let nowhere = Text::new(alloc);
    let config = FileSource::at(rt, alloc, plan.config.as_ref().unwrap_or(&nowhere))?;
    let script = FileSource::at(rt, alloc, plan.script.as_ref().unwrap_or(&nowhere))?;
    let wire = ScriptWire::new(alloc, script, Many::new(alloc));
    Ok(run_over(rt, threads, alloc, words, plan, config, wire))
}

/// Runs the server over sockets, at the address that a plan names. At an address that it doesn't name no socket is.
fn run_serve<R: Threads + Wait + Sync>(
    rt: &HostRuntime,
    threads: &R,
    alloc: Global,
    words: &[Text],
    plan: &Plan,
) -> Result<Status, OutOfMemory>
    ensures ran { IfOk result (IsRunStatus words.now) }
{
    let nowhere = Text::new(alloc);
    let config = FileSource::at(rt, alloc, plan.config.as_ref().unwrap_or(&nowhere))?;
    let wire = MioWire::listen(rt, alloc, plan.listen.as_ref().unwrap_or(&nowhere))?;
    Ok(run_over(rt, threads, alloc, words, plan, config, wire))
}

/// Runs the server over the workload that a plan names.
fn run_workload<R: Threads + Wait + Sync>(
    rt: &HostRuntime,
    threads: &R,
    alloc: Global,
    words: &[Text],
    plan: &Plan,
) -> Result<Status, OutOfMemory>
    requires within { IsWithin plan.now }
    ensures ran { IfOk result (IsRunStatus words.now) }
{
    let config = work_source(alloc, plan.number, plan.values)?;
    let wire = WorkWire::new(alloc, plan.number, plan.values);
    Ok(run_over(rt, threads, alloc, words, plan, config, wire))
}

/// Runs the server over a configuration and a wire, and over the journal that a plan names, or one in memory that is
/// gone with the run.
fn run_over<S: Source + Drop, W: Wire + Drop, R: Threads + Wait + Sync>(
    rt: &HostRuntime,
    threads: &R,
    alloc: Global,
    words: &[Text],
    plan: &Plan,
    config: S,
    wire: W,
) -> Status
    ensures ran { IsRunStatus words.now result }
{
    match &plan.journal {
        Some(path) => run_on(
            rt,
            threads,
            alloc,
            words,
            plan,
            config,
            wire,
            FileDisk::at(rt, path),
        ),
        None => run_on(
            rt,
            threads,
            alloc,
            words,
            plan,
            config,
            wire,
            RamDisk::new(alloc),
        ),
    }
}

/// Runs the server over a configuration, a wire and a disk, and over the outbox that a plan names. A file that can't be
/// opened, or that another program has, is a sink at which every call fails.
fn run_on<S: Source + Drop, W: Wire + Drop, D: Disk + Drop, R: Threads + Wait + Sync>(
    rt: &HostRuntime,
    threads: &R,
    alloc: Global,
    words: &[Text],
    plan: &Plan,
    config: S,
    wire: W,
    disk: D,
) -> Status
    ensures ran { IsRunStatus words.now result }
{
    let printer = StdSink::new(rt.stdout());
    if plan.outbox.as_str() == "-" {
        let outbox = StdSink::new(rt.stdout());
        status_of(threads, alloc, words, config, wire, disk, outbox, printer)
    } else {
        let outbox = FileSink::at(rt, &plan.outbox);
        status_of(threads, alloc, words, config, wire, disk, outbox, printer)
    }
}

/// Runs the server over empty objects in memory, for words without a plan.
fn run_nothing<R: Threads + Wait + Sync>(
    rt: &HostRuntime,
    threads: &R,
    alloc: Global,
    words: &[Text],
) -> Status
    ensures ran { IsRunStatus words.now result }
{
    let config = MemSource::new(Bytes::new(alloc), Many::new(alloc));
    let script = MemSource::new(Bytes::new(alloc), Many::new(alloc));
    let wire = ScriptWire::new(alloc, script, Many::new(alloc));
    let outbox = MemSink::new(Bytes::new(alloc), Many::new(alloc));
    let printer = StdSink::new(rt.stdout());
    status_of(
        threads,
        alloc,
        words,
        config,
        wire,
        RamDisk::new(alloc),
        outbox,
        printer,
    )
}

/// How a run over these objects ended, beside as many syncers as the words say. At 0 this thread does all.
pub(crate) fn status_of<
    S: Source + Drop,
    W: Wire + Drop,
    D: Disk + Drop,
    O: Sink + Send + Drop,
    P: Sink + Drop,
    R: Threads + Wait + Sync,
>(
    threads: &R,
    alloc: Global,
    words: &[Text],
    config: S,
    wire: W,
    disk: D,
    outbox: O,
    printer: P,
) -> Status
    ensures { IsStatusOf words.now (record {
      source = S.left config;
      source_faults = S.faults config;
      wire = W.tells wire;
      file = (D.tells disk).bytes;
      disk_faults = (D.tells disk).faults;
      outbox = O.tells outbox;
    }) (P.tells printer) result }
{
    let mut config = config;
    let mut wire = wire;
    let mut printer = printer;
    let Ended {
        status,
        began: _,
        disk: _,
        outbox: _,
        entries,
    } = run_syncers(
        threads,
        alloc,
        words,
        &mut config,
        &mut wire,
        disk,
        outbox,
        &mut printer,
        &OpenGate,
    );
    // They hold nothing but memory, which the system takes back whole where the process ends.
    forget(entries);
    status
}
