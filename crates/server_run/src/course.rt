//! The course of a run over its book, from its opening to its last line.

ghost use Rattle.std.specs.Prelude.{◌≡◌, ◌⊎◌, ◌<◌, ◌++◌, List, ℕ, map, IsTrue, true, false};
ghost use Rattle.zbx_types.specs.declared.entries.Numbered.{Numbered};
ghost use Rattle.outside.specs.Causes.{Rose};
ghost use Rattle.trigger_state.specs.Stages.{first_stage};
ghost use Rattle.entry_step.specs.Log.{log_of};
ghost use Rattle.entry_step.specs.Named.{AreDistinct};
ghost use Rattle.entry_laws.specs.InForce.{behind_all, texts_on};
ghost use Rattle.base_laws.specs.Grounds.{start_of};
ghost use Rattle.std.specs.Arc.{arc_value};
ghost use Rattle.journal_opening.specs.Replayed.{flat};
ghost use Rattle.book_opening.specs.Outgoing.{IsLeft, log_lines, log_tally};
ghost use Rattle.intake_front.specs.Batch.{IsIdle};
ghost use Rattle.server_run.specs.Going.{IsServing, TakesOn, IsEndedAt, IsSentAt, IsOpened, IsWorse, HasGone, book_status};
ghost use Rattle.server_run.specs.declared.serving.Taken.TheVariants as Taken;
ghost use Rattle.server_run.specs.Outbox.{LinesAre};
ghost use Rattle.server_run.specs.Statuses.{course_of, IsCourse};
ghost use Rattle.journal_opening.specs.Tally.{counts_with, counts_over};

use crate::crew::{Alone, serve_syncers};
use crate::serving::{Taken, serve};
use crate::shared::Prepared;
use book::{Book, FlushError, Ring, RingHead, RunName};
use book_opening::{BookError, StartName, Tally, new_cache};
use conf_index::Ready;
use intake_front::Front;
use outside::{Disk, Gate, Sink, Wire};
use server_words::{Counts, Status};
use std::alloc::Global;
use std::marker::Brand;
use std::mem::forget;
use std::sync::{Arc, Wait};
use std::thread::Threads;
use value_cache::Cache;
use zbx_types::{Many, Numbered, OutOfMemory};

/// How a run went, before it is printed.
#[derive(Drop)]
pub(crate) struct Course<D, O> {
    pub status: Status,
    pub began: bool,
    pub counts: Counts,
    pub disk: D,
    pub outbox: O,
    pub entries: Many<Numbered>,
}

/// No counts, for a run that didn't begin.
pub(crate) const NOTHING: Counts = Counts {
    entries: 0,
    problems: 0,
    recoveries: 0,
    messages: 0,
    bytes: 0,
};

/// The counts that are printed.
fn counts_of(tally: Tally, entries: u64) -> Counts
    ensures { result ≡ counts_with entries tally }
{
    Counts {
        entries,
        problems: tally.problems,
        recoveries: tally.recoveries,
        messages: tally.messages,
        bytes: tally.bytes,
    }
}

/// A run that was refused behind its intake.
pub(crate) fn held_back<D: Disk, O>(front: Front<D>, status: Status, outbox: O) -> Course<D, O>
    requires { IsIdle front }
    ensures began { result.began ≡ false }
    ensures status { result.status ≡ status }
    ensures disk { result.disk ≡ front.journal.disk }
    ensures entries { result.entries ≡ front.intake.entries }
    ensures outbox { result.outbox ≡ outbox }
{
    let (disk, entries) = front.end();
    Course {
        status,
        began: false,
        counts: NOTHING,
        disk,
        outbox,
        entries,
    }
}

/// What a run ends with whose outbox failed.
fn failed(status: Status) -> Status
    ensures worse { IsWorse status result }
    ensures either { (result ≡ Status.OutOfMemory) ⊎ (result ≡ Status.OutboxFault) }
{
    match status {
        Status::OutOfMemory => Status::OutOfMemory,
        _ => Status::OutboxFault,
    }
}

/// What a run ends with whose outbox may have failed.
fn failing(status: Status, has_failed: bool) -> Status
    ensures worse { IsWorse status result }
    ensures fault { result ≡ Status.OutboxFault → (status ≡ Status.OutboxFault) ⊎ IsTrue has_failed }
{
    if has_failed { failed(status) } else { status }
}

/// Takes events on one thread until one ends the run, at most `turns`, and answers why.
fn serve_alone<S: StartName, N: RunName, W: Wire, D: Disk, O: Sink>(
    alloc: Global,
    turns: u64,
    prepared: &Prepared<S>,
    wire: &mut W,
    front: &mut Front<D>,
    head: &mut RingHead<S, N>,
    alone: &mut Alone<S, N, O>,
) -> Status
    requires { IsServing S.flat S.base S.start.stage.conf S.kept front.old head.old }
    ensures takes { TakesOn D.tells S.base S.start.stage.conf front.old front.new (W.tells wire.old) (W.tells wire.new)
        turns (Taken.Ended result) }
    ensures ended { IsEndedAt S.kept front.new (W.tells wire.old) (W.tells wire.new) head.new result }
    ensures outbox { result ≡ Status.OutboxFault → Rose S.outbox.faults alone.new.book.sink.faults }
{
    match serve(alloc, turns, prepared, wire, front, head, alone) {
        Taken::Ended(status) => status,
        Taken::Going(_) => Status::OutboxFault,
    }
}

/// Whether a count of faults rose. At its last value it counts as risen.
fn has_risen(before: u64, now: u64) -> bool
    ensures { IsTrue result → Rose before now }
{
    now > before || now == u64::MAX
}

/// Takes events until one ends the run, at most `turns`: beside syncers, and where these ended, alone. Answers why it
/// ended.
fn serve_all<S, N, W, D, O, R, G>(
    rt: &R,
    alloc: Global,
    syncers: u32,
    turns: u64,
    before: u64,
    prepared: &Prepared<S>,
    wire: &mut W,
    front: &mut Front<D>,
    head: &mut RingHead<S, N>,
    book: Book<S, N, O>,
    gate: &G,
) -> (Book<S, N, O>, Status)
where
    S: StartName + Send + Sync,
    N: RunName + Send + Sync,
    W: Wire,
    D: Disk,
    O: Sink + Send,
    R: Threads + Wait + Sync,
    G: Gate + Sync,
    requires serving { IsServing S.flat S.base S.start.stage.conf S.kept front.old head.old }
    requires before { before ≡ S.outbox.faults }
    ensures takes { TakesOn D.tells S.base S.start.stage.conf front.old front.new (W.tells wire.old) (W.tells wire.new)
        turns (Taken.Ended result.1) }
    ensures ended { IsEndedAt S.kept front.new (W.tells wire.old) (W.tells wire.new) head.new result.1 }
    ensures outbox { result.1 ≡ Status.OutboxFault → Rose S.outbox.faults result.0.sink.faults }
{
    let (book, taken) = serve_syncers(
        rt, alloc, syncers, turns, prepared, wire, front, head, book, gate,
    );
    let has_failed = has_risen(before, book.faults());
    match taken {
        Taken::Ended(status) => {
            let status = failing(status, has_failed);
            (book, status)
        }
        Taken::Going(count) => {
            if has_failed {
                return (book, Status::OutboxFault);
            }
            let mut alone = Alone { book };
            let left = turns - count;
            let status = serve_alone(alloc, left, prepared, wire, front, head, &mut alone);
            let Alone { book } = alone;
            (book, status)
        }
    }
}

/// How a run ended, with what its records count and what its outbox has.
#[derive(Drop)]
struct Written<O> {
    status: Status,
    tally: Tally,
    outbox: O,
}

/// What a run ends with whose last lines weren't written.
fn worse(status: Status, error: FlushError) -> Status
    ensures worse { IsWorse status result }
    ensures either { (result ≡ Status.OutOfMemory) ⊎ (result ≡ Status.OutboxFault) }
    ensures fault { result ≡ Status.OutboxFault → error ≡ FlushError.OutboxFault }
{
    match error {
        FlushError::OutOfMemory => Status::OutOfMemory,
        FlushError::OutboxFault => failed(status),
    }
}

/// Works all entries out that are left, and writes all lines.
fn finish<S: StartName, N: RunName, O: Sink>(
    alloc: Global,
    prepared: &Prepared<S>,
    book: Book<S, N, O>,
    head: RingHead<S, N>,
    status: Status,
) -> Written<O>
    requires course { IsCourse status }
    requires fault { status ≡ Status.OutboxFault → Rose S.outbox.faults book.sink.faults }
    ensures status { IsWorse status result.status }
    ensures lines { (entries : List Numbered) → IsSentAt S.kept head.sent entries status
        → LinesAre (course_of result.status).out S.base.lines S.outbox (O.tells result.outbox)
        (log_lines S.flat S.base (log_of entries)) }
    ensures outbox { result.status ≡ Status.OutboxFault → Rose S.outbox.faults (O.tells result.outbox).faults }
    ensures counts { result.status ≡ Status.Ok → result.tally ≡ log_tally S.flat S.base
        (log_of (S.kept ++ head.sent)) }
{
    let _since = book.faults();
    match book.finish(alloc, prepared.ready(), head) {
        Ok(closed) => Written {
            status,
            tally: Tally {
                problems: closed.problems,
                recoveries: closed.recoveries,
                messages: closed.messages,
                bytes: closed.bytes,
            },
            outbox: closed.outbox,
        },
        Err((outbox, error)) => Written {
            status: worse(status, error),
            tally: Tally::behind(0),
            outbox,
        },
    }
}

/// What a run ends with that has no book.
fn refused(error: BookError) -> Status
    ensures { result ≡ book_status error }
{
    match error {
        BookError::OutboxBehind { held, base } => Status::OutboxBehind { held, base },
        BookError::OutboxAhead { held, lines } => Status::OutboxAhead { held, lines },
        BookError::OutboxDiffers { at } => Status::OutboxDiffers { at },
        BookError::OutboxFault => Status::OutboxFault,
        BookError::OutOfMemory => Status::OutOfMemory,
    }
}

/// What is left of a run over its book, once its last lines are written.
fn close<S: StartName, N: RunName, D: Disk, O: Sink>(
    alloc: Global,
    prepared: Prepared<S>,
    front: Front<D>,
    book: Book<S, N, O>,
    head: RingHead<S, N>,
    status: Status,
) -> Course<D, O>
    requires idle { IsIdle front }
    requires course { IsCourse status }
    requires sent { IsSentAt S.kept head.sent front.intake.entries status }
    requires fault { status ≡ Status.OutboxFault → Rose S.outbox.faults book.sink.faults }
    ensures began { result.began ≡ true }
    ensures disk { result.disk ≡ front.journal.disk }
    ensures entries { result.entries ≡ front.intake.entries }
    ensures status { IsWorse status result.status }
    ensures lines { LinesAre (course_of result.status).out S.base.lines S.outbox (O.tells result.outbox)
        (log_lines S.flat S.base (log_of front.intake.entries)) }
    ensures outbox { result.status ≡ Status.OutboxFault → Rose S.outbox.faults (O.tells result.outbox).faults }
    ensures counts { result.status ≡ Status.Ok → result.counts ≡ counts_over S.flat S.base front.intake.entries }
{
    let Written {
        status,
        tally,
        outbox,
    } = finish(alloc, &prepared, book, head, status);
    // It holds nothing but memory, and most of what the process holds, which the system takes back whole where that
    // ends.
    forget(prepared.into_ready());
    let (disk, entries) = front.end();
    let count = entries.as_slice().len() as u64;
    Course {
        status,
        began: true,
        counts: counts_of(tally, count),
        disk,
        outbox,
        entries,
    }
}

/// Runs on one thread over a book that is made of the kept entries and the end of a ring. The configurations are that of
/// the journal's base, where it has one, and those of the Configs among these, each made ready.
fn named<S: StartName, N: RunName, W: Wire, D: Disk, O: Sink>(
    alloc: Global,
    turns: u64,
    epochs: Vec<Ready>,
    wire: &mut W,
    front: Front<D>,
    cache: Arc<Cache>,
    ring: Ring<S>,
    outbox: O,
) -> Course<D, O>
    requires ring { ring.id ≡ N.ring }
    requires room { 0 < ring.capacity }
    requires texts { (text : List ℕ) → AreDistinct (S.flat text) }
    requires epochs { epochs.items ≡ map (λ text. first_stage (S.flat text)) (texts_on S.base.text S.kept) }
    requires opened { IsOpened D.tells S.flat S.base S.start.stage.conf S.kept front }
    requires cache { arc_value cache ≡ S.cache }
    requires outbox { O.tells outbox ≡ S.outbox }
    ensures gone { HasGone D.tells O.tells S.flat S.base S.kept S.outbox front turns (W.tells wire.old) (W.tells wire.new)
        result }
    ensures untouched { result.began ≡ false → (wire.new ≡ wire.old) × IsLeft (O.tells outbox) (O.tells result.outbox) }
{
    let (head, end) = ring.named::<N>();
    let (book, ready) = match Book::new(
        alloc,
        front.base(),
        epochs,
        front.entries(),
        cache,
        end,
        outbox,
    ) {
        Ok(made) => made,
        Err((outbox, error)) => {
            drop(head);
            return held_back(front, refused(error), outbox);
        }
    };
    let prepared = Prepared::<S>::new(ready);
    let mut front = front;
    let mut head = head;
    let mut alone = Alone { book };
    let status = serve_alone(
        alloc, turns, &prepared, wire, &mut front, &mut head, &mut alone,
    );
    let Alone { book } = alone;
    close(alloc, prepared, front, book, head, status)
}

/// How many entries a ring has room for.
const RING_CAPACITY: usize = 16_384;

/// Runs on one thread behind what the journal kept, with which and with what the outbox tells the run begins. The
/// configurations are that of the journal's base, where it has one, and those of the Configs among the kept entries, in
/// their order, each made ready: that of the run is the last one.
fn started<S: StartName, W: Wire, D: Disk, O: Sink>(
    alloc: Global,
    turns: u64,
    epochs: Vec<Ready>,
    wire: &mut W,
    front: Front<D>,
    cache: Arc<Cache>,
    outbox: O,
) -> Course<D, O>
    requires texts { (text : List ℕ) → AreDistinct (S.flat text) }
    requires epochs { epochs.items ≡ map (λ text. first_stage (S.flat text)) (texts_on S.base.text S.kept) }
    requires opened { IsOpened D.tells S.flat S.base S.start.stage.conf S.kept front }
    requires cache { arc_value cache ≡ S.cache }
    requires outbox { O.tells outbox ≡ S.outbox }
    ensures gone { HasGone D.tells O.tells S.flat S.base S.kept S.outbox front turns (W.tells wire.old) (W.tells wire.new)
        result }
    ensures untouched { result.began ≡ false → (wire.new ≡ wire.old) × IsLeft (O.tells outbox) (O.tells result.outbox) }
{
    match Ring::<S>::new(alloc, RING_CAPACITY) {
        Ok(ring) => {
            named::<S, Brand, W, D, O>(alloc, turns, epochs, wire, front, cache, ring, outbox)
        }
        Err(OutOfMemory) => held_back(front, Status::OutOfMemory, outbox),
    }
}

/// Runs beside syncers over a book that is made of the kept entries and the end of a ring. The configurations are that of
/// the journal's base, where it has one, and those of the Configs among these, each made ready.
fn named_beside<S, N, W, D, O, R, G>(
    rt: &R,
    alloc: Global,
    syncers: u32,
    turns: u64,
    epochs: Vec<Ready>,
    wire: &mut W,
    front: Front<D>,
    cache: Arc<Cache>,
    ring: Ring<S>,
    outbox: O,
    gate: &G,
) -> Course<D, O>
where
    S: StartName + Send + Sync,
    N: RunName + Send + Sync,
    W: Wire,
    D: Disk,
    O: Sink + Send,
    R: Threads + Wait + Sync,
    G: Gate + Sync,
    requires ring { ring.id ≡ N.ring }
    requires room { 0 < ring.capacity }
    requires texts { (text : List ℕ) → AreDistinct (S.flat text) }
    requires epochs { epochs.items ≡ map (λ text. first_stage (S.flat text)) (texts_on S.base.text S.kept) }
    requires opened { IsOpened D.tells S.flat S.base S.start.stage.conf S.kept front }
    requires cache { arc_value cache ≡ S.cache }
    requires outbox { O.tells outbox ≡ S.outbox }
    ensures gone { HasGone D.tells O.tells S.flat S.base S.kept S.outbox front turns (W.tells wire.old) (W.tells wire.new)
        result }
    ensures untouched { result.began ≡ false → (wire.new ≡ wire.old) × IsLeft (O.tells outbox) (O.tells result.outbox) }
{
    let before = outbox.faults();
    let (head, end) = ring.named::<N>();
    let (book, ready) = match Book::new(
        alloc,
        front.base(),
        epochs,
        front.entries(),
        cache,
        end,
        outbox,
    ) {
        Ok(made) => made,
        Err((outbox, error)) => {
            drop(head);
            return held_back(front, refused(error), outbox);
        }
    };
    let prepared = Prepared::<S>::new(ready);
    let mut front = front;
    let mut head = head;
    let (book, status) = serve_all(
        rt, alloc, syncers, turns, before, &prepared, wire, &mut front, &mut head, book, gate,
    );
    close(alloc, prepared, front, book, head, status)
}

/// Runs beside syncers behind what the journal kept, with which and with what the outbox tells the run begins. The
/// configurations are that of the journal's base, where it has one, and those of the Configs among the kept entries, in
/// their order, each made ready: that of the run is the last one.
fn started_beside<S, W, D, O, R, G>(
    rt: &R,
    alloc: Global,
    syncers: u32,
    turns: u64,
    epochs: Vec<Ready>,
    wire: &mut W,
    front: Front<D>,
    cache: Arc<Cache>,
    outbox: O,
    gate: &G,
) -> Course<D, O>
where
    S: StartName + Send + Sync,
    W: Wire,
    D: Disk,
    O: Sink + Send,
    R: Threads + Wait + Sync,
    G: Gate + Sync,
    requires texts { (text : List ℕ) → AreDistinct (S.flat text) }
    requires epochs { epochs.items ≡ map (λ text. first_stage (S.flat text)) (texts_on S.base.text S.kept) }
    requires opened { IsOpened D.tells S.flat S.base S.start.stage.conf S.kept front }
    requires cache { arc_value cache ≡ S.cache }
    requires outbox { O.tells outbox ≡ S.outbox }
    ensures gone { HasGone D.tells O.tells S.flat S.base S.kept S.outbox front turns (W.tells wire.old) (W.tells wire.new)
        result }
    ensures untouched { result.began ≡ false → (wire.new ≡ wire.old) × IsLeft (O.tells outbox) (O.tells result.outbox) }
{
    match Ring::<S>::new(alloc, RING_CAPACITY) {
        Ok(ring) => {
            named_beside::<S, Brand, W, D, O, R, G>(
                rt, alloc, syncers, turns, epochs, wire, front, cache, ring, outbox, gate,
            )
        }
        Err(OutOfMemory) => held_back(front, Status::OutOfMemory, outbox),
    }
}

/// Runs on one thread behind what the journal kept, as [`started`] does, over a cache of values that it makes.
pub(crate) fn run_alone<W: Wire, D: Disk, O: Sink>(
    alloc: Global,
    turns: u64,
    epochs: Vec<Ready>,
    wire: &mut W,
    front: Front<D>,
    outbox: O,
) -> Course<D, O>
    requires epochs { epochs.items ≡ map (λ text. first_stage (flat text)) (texts_on front.journal.base.text
        front.intake.entries) }
    requires opened { IsOpened D.tells flat front.journal.base (behind_all flat (start_of flat front.journal.base)
        (log_of front.intake.entries)).stage.conf front.intake.entries front }
    ensures gone { HasGone D.tells O.tells flat front.journal.base front.intake.entries (O.tells outbox) front turns
        (W.tells wire.old) (W.tells wire.new) result }
    ensures untouched { result.began ≡ false → (wire.new ≡ wire.old) × IsLeft (O.tells outbox) (O.tells result.outbox) }
{
    match new_cache(alloc) {
        Ok(cache) => started::<Brand, W, D, O>(alloc, turns, epochs, wire, front, cache, outbox),
        Err(OutOfMemory) => held_back(front, Status::OutOfMemory, outbox),
    }
}

/// Runs beside syncers behind what the journal kept, as [`started_beside`] does, over a cache of values that it makes.
pub(crate) fn run_beside<W, D, O, R, G>(
    rt: &R,
    alloc: Global,
    syncers: u32,
    turns: u64,
    epochs: Vec<Ready>,
    wire: &mut W,
    front: Front<D>,
    outbox: O,
    gate: &G,
) -> Course<D, O>
where
    W: Wire,
    D: Disk,
    O: Sink + Send,
    R: Threads + Wait + Sync,
    G: Gate + Sync,
    requires epochs { epochs.items ≡ map (λ text. first_stage (flat text)) (texts_on front.journal.base.text
        front.intake.entries) }
    requires opened { IsOpened D.tells flat front.journal.base (behind_all flat (start_of flat front.journal.base)
        (log_of front.intake.entries)).stage.conf front.intake.entries front }
    ensures gone { HasGone D.tells O.tells flat front.journal.base front.intake.entries (O.tells outbox) front turns
        (W.tells wire.old) (W.tells wire.new) result }
    ensures untouched { result.began ≡ false → (wire.new ≡ wire.old) × IsLeft (O.tells outbox) (O.tells result.outbox) }
{
    match new_cache(alloc) {
        Ok(cache) => {
            started_beside::<Brand, W, D, O, R, G>(
                rt, alloc, syncers, turns, epochs, wire, front, cache, outbox, gate,
            )
        }
        Err(OutOfMemory) => held_back(front, Status::OutOfMemory, outbox),
    }
}
