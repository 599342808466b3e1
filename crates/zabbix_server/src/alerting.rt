//! From words to a call for alerts over files and programs of the system.

ghost use Rattle.std.specs.Prelude.{◌≡◌, ◌<◌, length, map, IfOk};
ghost use Rattle.server_jobs.specs.Sessions.{WorkTogetherIfAny};
ghost use Rattle.server_jobs.specs.Working.{WorksIfAny};
ghost use Rattle.server_words.specs.Words.{IsWithin};
ghost use Rattle.zabbix_server.specs.Program.{IsAlertsOf, IsOneStatus, IsSessionsStatus, IsAlertsStatus};

use child_spawner::{ChildSpawner, SystemClock};
use outside::{Clock, Disk, MemSource, Sink, Source, Spawner};
use server_jobs::{Hand, run_alerts, run_sessions};
use server_words::{Plan, Status};
use std::alloc::Global;
use std::sync::Wait;
use std::thread::Threads;
use wire_mio::{DiskFile, FileDisk, FileSource, StdSink};
use zbx_types::{Bytes, Many, OutOfMemory, Text};

/// A document of media without entries.
const NO_ENTRIES: &str = r#"{"media":[]}"#;

/// A session over programs and the clock of the system.
type SystemHand<'r> = Hand<ChildSpawner<&'r HostRuntime>, SystemClock<&'r HostRuntime>>;

/// Runs scripts for the messages of the outbox that a plan names, by the document of media that it names, or by one
/// without entries, and answers how that ended. [`OutOfMemory`] where there is no memory for what it names; nothing was
/// printed then.
pub(crate) fn run<R: Threads + Wait + Sync>(
    rt: &HostRuntime,
    threads: &R,
    alloc: Global,
    words: &[Text],
    plan: &Plan,
) -> Result<Status, OutOfMemory>
    requires { IsWithin plan.now }
    ensures { IfOk result (IsAlertsStatus words.now plan.now) }
{
    match plan.media.as_ref() {
        Some(path) => {
            let media = FileSource::at(rt, alloc, path)?;
            run_with(rt, threads, alloc, words, plan, media)
        }
        None => {
            let document = Bytes::of(alloc, NO_ENTRIES.as_bytes())?;
            let media = MemSource::new(document, Many::new(alloc));
            run_with(rt, threads, alloc, words, plan, media)
        }
    }
}

/// Runs scripts for the messages of the outbox that a plan names, by these media, in one session or as many as it asks for,
/// and answers how that ended.
fn run_with<M: Source + Drop, R: Threads + Wait + Sync>(
    rt: &HostRuntime,
    threads: &R,
    alloc: Global,
    words: &[Text],
    plan: &Plan,
    media: M,
) -> Result<Status, OutOfMemory>
    requires { IsWithin plan.now }
    ensures { IfOk result (IsAlertsStatus words.now plan.now) }
{
    if plan.sessions > 1 {
        run_several(rt, threads, alloc, words, plan, media)
    } else {
        run_one(rt, alloc, words, plan, media)
    }
}

/// The disk of the progress that a plan names. A path that it doesn't name is the empty one, at which no file is.
fn progress_of(rt: &HostRuntime, alloc: Global, plan: &Plan) -> FileDisk<DiskFile> {
    let nowhere = Text::new(alloc);
    FileDisk::at(rt, plan.progress.as_ref().unwrap_or(&nowhere))
}

/// A session over programs and the clock of the system.
fn hand(rt: &HostRuntime, alloc: Global) -> SystemHand<'_> {
    Hand {
        spawner: ChildSpawner::new(rt, alloc),
        clock: SystemClock::new(rt),
    }
}

/// So many sessions.
fn hands(rt: &HostRuntime, alloc: Global, count: u32) -> Result<Vec<SystemHand<'_>>, OutOfMemory>
    ensures { IfOk result (λ hands. length hands.items ≡ count) }
{
    let mut hands = Vec::new(alloc);
    for _hand in 0..count {
        hands.push(hand(rt, alloc))?;
    }
    Ok(hands)
}

/// Runs scripts in one session.
fn run_one<M: Source + Drop>(
    rt: &HostRuntime,
    alloc: Global,
    words: &[Text],
    plan: &Plan,
    media: M,
) -> Result<Status, OutOfMemory>
    ensures { IfOk result (IsOneStatus words.now) }
{
    let lines = FileSource::at(rt, alloc, &plan.outbox)?;
    let progress = progress_of(rt, alloc, plan);
    let hand = hand(rt, alloc);
    let printer = StdSink::new(rt.stdout());
    Ok(status_of(alloc, words, lines, media, progress, hand, printer))
}

/// Runs scripts in as many sessions as a plan asks for.
fn run_several<M: Source + Drop, R: Threads + Wait + Sync>(
    rt: &HostRuntime,
    threads: &R,
    alloc: Global,
    words: &[Text],
    plan: &Plan,
    media: M,
) -> Result<Status, OutOfMemory>
    requires { 0 < plan.now.sessions }
    ensures { IfOk result (IsSessionsStatus words.now plan.now.sessions) }
{
    let lines = FileSource::at(rt, alloc, &plan.outbox)?;
    let progress = progress_of(rt, alloc, plan);
    let hands = hands(rt, alloc, plan.sessions)?;
    let printer = StdSink::new(rt.stdout());
    Ok(status_of_sessions(
        threads, alloc, words, lines, media, progress, hands, printer,
    ))
}

/// How a call for alerts over these objects ended.
pub(crate) fn status_of<
    S: Source + Drop,
    M: Source + Drop,
    D: Disk + Drop,
    W: Spawner + Drop,
    C: Clock + Drop,
    P: Sink + Drop,
>(
    alloc: Global,
    words: &[Text],
    lines: S,
    media: M,
    progress: D,
    hand: Hand<W, C>,
    printer: P,
) -> Status
    ensures { IsAlertsOf WorksIfAny words.now (record {
      lines = S.left lines;
      lines_faults = S.faults lines;
      document = M.left media;
      document_faults = M.faults media;
      file = (D.tells progress).bytes;
      disk_faults = (D.tells progress).faults;
      spawner = W.tells hand.spawner;
    }) (P.tells printer) result }
{
    let mut lines = lines;
    let mut media = media;
    let mut hand = hand;
    let mut printer = printer;
    run_alerts(
        alloc,
        words,
        &mut lines,
        &mut media,
        progress,
        &mut hand,
        &mut printer,
    )
    .status
}

/// How a call for alerts by several sessions over these objects ended.
pub(crate) fn status_of_sessions<S, M, D, W, C, P, R>(
    threads: &R,
    alloc: Global,
    words: &[Text],
    lines: S,
    media: M,
    progress: D,
    hands: Vec<Hand<W, C>>,
    printer: P,
) -> Status
where
    S: Source + Drop,
    M: Source + Drop,
    D: Disk + Send + Drop,
    W: Spawner + Send + Drop,
    C: Clock + Send + Drop,
    P: Sink + Drop,
    R: Threads + Wait + Sync,
    requires { 0 < length hands.items }
    ensures { IsAlertsOf WorkTogetherIfAny words.now (record {
      lines = S.left lines;
      lines_faults = S.faults lines;
      document = M.left media;
      document_faults = M.faults media;
      file = (D.tells progress).bytes;
      disk_faults = (D.tells progress).faults;
      spawner = map (λ h. W.tells h.spawner) hands.items;
    }) (P.tells printer) result }
{
    let mut lines = lines;
    let mut media = media;
    let mut hands = hands;
    let mut printer = printer;
    run_sessions(
        threads,
        alloc,
        words,
        &mut lines,
        &mut media,
        progress,
        &mut hands,
        &mut printer,
    )
    .status
}
