//! The monitoring core of a Zabbix server, as a program.
//!
//! ```text
//! zabbix_server --mode feed --config CONFIG --script SCRIPT --journal JOURNAL --outbox OUTBOX
//! ```
//!
//! reads the configuration document in the file CONFIG, takes the events of the script in the file SCRIPT, keeps what
//! it took in the file JOURNAL, adds a line for each failure, problem, recovery, step and message to the file OUTBOX,
//! and writes one line with the status of the run and its counts to standard output. Started again it goes on behind
//! what the journal kept. Without a journal that is gone with the run, and without an outbox the lines go to standard
//! output. With `--mode serve --listen ADDRESS` the events come over sockets, and `--mode workload --number N
//! --values V` makes configuration and events from a number.
//!
//! In each mode `--syncers N` says how many history syncers, 0 to 16, work the entries out, each in a thread of its
//! own. Without it they are 4; with 0 of them the thread that takes the events does all. The same entries come to the
//! same lines whatever their number.
//!
//! With `--mode alerts --outbox OUTBOX --progress PROGRESS --command PROGRAM` it reads the file OUTBOX instead and runs the
//! PROGRAM for each message in it, and keeps in the file PROGRESS what became of each. With `--media MEDIA` the document in
//! the file MEDIA says of recipients by which program, how often and at which interval. That is
//! [`server_jobs::run_alerts`] over files, [`ChildSpawner`](child_spawner::ChildSpawner) and
//! [`SystemClock`](child_spawner::SystemClock). With `--sessions N`, where N is above 1, it is
//! [`server_jobs::run_sessions`] with as many of both, each session in a thread of its own.
//!
//! With `--mode checkpoint --journal JOURNAL --into COPY` it copies the file JOURNAL into the new file COPY, as the state that
//! its entries leave, in place of them. That is [`journal_copy::run_checkpoint`] over two files.
//!
//! It exits with the number of the status, 0 for Ok; `docs/FORMATS.md` has them all. Nothing goes to standard error.
//!
//! All that the run does is [`server_run::run_syncers`]. This crate hands it the files and standard output:
//! [`FileSource`](wire_mio::FileSource) reads a file, [`FileSink`](wire_mio::FileSink) adds to one,
//! [`FileDisk`](wire_mio::FileDisk) keeps one, and [`StdSink`](wire_mio::StdSink) writes to standard output.
//!
//! The one contract: the program exits with the number of its status, which is that of a run over its words, or of a
//! call for alerts or for a copy where they have a plan for that, and the clauses of that whole call are true of it. So it is Usage
//! exactly where the words have no plan, unless memory was refused.
#![tactic(auto)]

mod alerting;
mod arguments;
mod copying;
mod running;

ghost use Rattle.std.specs.Prelude.{◌≡◌, ℕ, List, IfOk};
ghost use Rattle.std.specs.Process.{exit_status};
ghost use Rattle.server_words.specs.Printed.{exit_of};
ghost use Rattle.zabbix_server.specs.Program.{status_in, IsOtherStatus, IsProgramStatus};

use server_words::{PlanError, Status, alerts_plan, checkpoint_plan};
use std::alloc::Global;
use std::process::ExitCode;
use std::sync::Wait;
use std::thread::Threads;
use zbx_types::{OutOfMemory, Text};

fn main(rt: HostRuntime) -> ExitCode {
    exit(status(&rt, &rt))
}

/// The program's exit: the number of the status of its run, or of OutOfMemory where there was no memory for its words
/// or for what they name.
fn exit(ended: Result<Status, OutOfMemory>) -> ExitCode
    ensures { exit_status result ≡ exit_of (status_in ended) }
{
    match ended {
        Ok(status) => ExitCode::from(status.exit()),
        Err(OutOfMemory) => ExitCode::from(Status::OutOfMemory.exit()),
    }
}

/// How the program ended: with the status of a run over its words, or of a call for alerts or for a copy where they have a
/// plan for that. [`OutOfMemory`] where there is no memory for its words or what they name; nothing was printed then.
fn status<R: Threads + Wait + Sync>(rt: &HostRuntime, threads: &R) -> Result<Status, OutOfMemory>
    ensures { IfOk result (λ status. (words : List (List ℕ)) × IsProgramStatus words status) }
{
    let words = arguments::words(rt, rt.alloc())?;
    status_over(rt, threads, rt.alloc(), words.as_slice())
}

/// How the call that the words ask for ended: that of alerts where they have a plan for it, else that of a copy or the
/// server's run.
fn status_over<R: Threads + Wait + Sync>(
    rt: &HostRuntime,
    threads: &R,
    alloc: Global,
    words: &[Text],
) -> Result<Status, OutOfMemory>
    ensures { IfOk result (IsProgramStatus words.now) }
{
    match alerts_plan(alloc, words) {
        Ok(plan) => {
            let ended = alerting::run(rt, threads, alloc, words, &plan);
            drop(plan);
            ended
        }
        Err(PlanError::Usage) => status_of_others(rt, threads, alloc, words),
        Err(PlanError::OutOfMemory) => Err(OutOfMemory),
    }
}

/// How a call ended whose words have no plan for alerts: that of a copy where they have a plan for it, else the server's
/// run.
fn status_of_others<R: Threads + Wait + Sync>(
    rt: &HostRuntime,
    threads: &R,
    alloc: Global,
    words: &[Text],
) -> Result<Status, OutOfMemory>
    ensures { IfOk result (IsOtherStatus words.now) }
{
    match checkpoint_plan(alloc, words) {
        Ok(plan) => {
            let status = copying::run(rt, alloc, words, &plan);
            drop(plan);
            Ok(status)
        }
        Err(PlanError::Usage) => running::run(rt, threads, alloc, words),
        Err(PlanError::OutOfMemory) => Err(OutOfMemory),
    }
}
