//! Who works entries out: one thread between the events, or syncers beside them.

ghost use Rattle.server_run.specs.Going.{IsServing, HasServed, IsJoined};

use crate::handing::Worker;
use crate::serving::{Taken, serve};
use crate::shared::{Prepared, Shared};
use crate::syncing::work;
use book::{Book, FlushError, RingHead, RunName};
use book_opening::StartName;
use conf_index::Ready;
use intake_front::Front;
use outside::{Disk, Gate, Sink, Wire};
use server_words::Status;
use std::alloc::Global;
use std::sync::Wait;
use std::thread;
use std::thread::{JoinHandle, Threads, join_mut};
use zbx_types::OutOfMemory;

/// One thread that has the book for itself.
#[derive(Drop)]
pub(crate) struct Alone<S: StartName, N: RunName, O: Sink> {
    pub book: Book<S, N, O>,
}

impl<S: StartName, N: RunName, O: Sink> Worker<S, N> for Alone<S, N, O> {
    ghost use Rattle.outside.specs.Causes.{Rose};

    ghost stops = { λ a. Rose S.outbox.faults a.book.sink.faults };

    fn make_room(&mut self, alloc: Global, head: &mut RingHead<S, N>) -> Result<(), OutOfMemory> {
        self.book.pull_beside(alloc, head)?;
        Ok(())
    }

    fn proceed(
        &mut self,
        alloc: Global,
        ready: &Ready,
        head: &mut RingHead<S, N>,
    ) -> Result<bool, OutOfMemory> {
        let _since = self.book.faults();
        self.book.pull_beside(alloc, head)?;
        self.book.work_all(alloc, ready)?;
        match self.book.flush(alloc) {
            Ok(()) => Ok(true),
            Err(FlushError::OutboxFault) => Ok(false),
            Err(FlushError::OutOfMemory) => Err(OutOfMemory),
        }
    }
}

/// The thread that takes events beside syncers.
#[derive(Drop)]
struct Beside<'a, S: StartName, N: RunName, O: Sink, R> {
    rt: &'a R,
    shared: &'a Shared<S, N, O>,
}

impl<'a, S: StartName, N: RunName, O: Sink, R: Wait> Worker<S, N> for Beside<'a, S, N, O, R> {
    ghost use Rattle.std.specs.Prelude.{⊤};

    ghost stops = { λ b. ⊤ };

    fn make_room(&mut self, alloc: Global, head: &mut RingHead<S, N>) -> Result<(), OutOfMemory> {
        self.shared.pull_beside(self.rt, alloc, head)
    }

    fn proceed(
        &mut self,
        _alloc: Global,
        _ready: &Ready,
        _head: &mut RingHead<S, N>,
    ) -> Result<bool, OutOfMemory> {
        Ok(self.shared.wake(self.rt))
    }
}

/// Waits for the threads. `OutOfMemory` where one of them was refused memory.
fn join_all<R: Threads>(
    rt: &R,
    threads: Vec<JoinHandle<Result<(), OutOfMemory>>>,
) -> Result<(), OutOfMemory> {
    let mut all = Ok(());
    for thread in threads {
        if thread.join(rt).is_err() {
            all = Err(OutOfMemory);
        }
    }
    all
}

/// Starts the syncers, numbered from 1, and waits for them. One that can't be started is no error.
fn work_all<S, N, O, R, G>(
    rt: &R,
    alloc: Global,
    prepared: &Prepared<S>,
    shared: &Shared<S, N, O>,
    gate: &G,
    syncers: u32,
) -> Result<(), OutOfMemory>
where
    S: StartName + Send + Sync,
    N: RunName + Send + Sync,
    O: Sink + Send,
    R: Threads + Wait + Sync,
    G: Gate + Sync,
{
    thread::scope(
        thread::scope_env(),
        rt,
        move |scope| -> Result<(), OutOfMemory> {
            let mut threads = Vec::new(alloc);
            for syncer in 0..syncers {
                let number = syncer + 1;
                if let Ok(thread) = scope.spawn(move || work(
                    rt, alloc, prepared, shared, gate, number,
                )) {
                    let _ = threads.push(thread);
                }
            }
            join_all(rt, threads)
        },
    )
}

/// What taking events came to, beside syncers of which one was refused memory or none.
fn joined(taken: Taken, syncers: Result<(), OutOfMemory>) -> Taken
    ensures { IsJoined taken result }
{
    match syncers {
        Ok(()) => taken,
        Err(OutOfMemory) => Taken::Ended(Status::OutOfMemory),
    }
}

/// Who takes events for syncers: the end of the ring that sends.
trait Taker<S: StartName, N: RunName> {
    ghost use Rattle.book.specs.Ends.{HeadView};
    ghost use Rattle.server_run.specs.Going.{IsServing, HasServed};

    /// What was sent, and what room there is.
    ghost head: { Self → HeadView };

    /// Takes events for syncers, and then has the run end.
    fn serve_shared<O: Sink, W: Wire, D: Disk, R: Wait>(
        &mut self,
        rt: &R,
        alloc: Global,
        turns: u64,
        prepared: &Prepared<S>,
        wire: &mut W,
        front: &mut Front<D>,
        shared: &Shared<S, N, O>,
    ) -> Taken
        requires { IsServing S.flat S.base S.start.stage.conf S.kept front.old (head self.old) }
        ensures { HasServed D.tells S.flat S.base S.start.stage.conf S.kept front.old front.new
            (W.tells wire.old) (W.tells wire.new) (head self.new) turns result };
}

impl<S: StartName, N: RunName> Taker<S, N> for RingHead<S, N> {
    ghost head = { λ h. h };

    fn serve_shared<O: Sink, W: Wire, D: Disk, R: Wait>(
        &mut self,
        rt: &R,
        alloc: Global,
        turns: u64,
        prepared: &Prepared<S>,
        wire: &mut W,
        front: &mut Front<D>,
        shared: &Shared<S, N, O>,
    ) -> Taken {
        let mut beside = Beside { rt, shared };
        let taken = serve(alloc, turns, prepared, wire, front, self, &mut beside);
        shared.end(rt);
        taken
    }
}

/// Takes events in this thread, while another one has the syncers.
fn serve_beside<S, N, O, W, D, R, G, T>(
    rt: &R,
    alloc: Global,
    syncers: u32,
    turns: u64,
    prepared: &Prepared<S>,
    wire: &mut W,
    front: &mut Front<D>,
    taker: &mut T,
    shared: &Shared<S, N, O>,
    gate: &G,
) -> Taken
where
    S: StartName + Send + Sync,
    N: RunName + Send + Sync,
    O: Sink + Send,
    W: Wire,
    D: Disk,
    R: Threads + Wait + Sync,
    G: Gate + Sync,
    T: Taker<S, N>,
    requires { IsServing S.flat S.base S.start.stage.conf S.kept front.old (T.head taker.old) }
    ensures { HasServed D.tells S.flat S.base S.start.stage.conf S.kept front.old front.new
        (W.tells wire.old) (W.tells wire.new) (T.head taker.new) turns result }
{
    let (worked, taken) = join_mut(
        rt,
        &mut || work_all(rt, alloc, prepared, shared, gate, syncers),
        &mut || -> Taken
            requires { IsServing S.flat S.base S.start.stage.conf S.kept front.now (T.head taker.now) }
            ensures { HasServed D.tells S.flat S.base S.start.stage.conf S.kept front.entry.now
                front.exit.now (W.tells wire.entry.now) (W.tells wire.exit.now) (T.head taker.exit.now) turns result }
        { taker.serve_shared(rt, alloc, turns, prepared, wire, front, shared) },
    );
    joined(taken, worked)
}

/// Takes events, at most `turns`, while syncers of this number work their entries out, up to one that ends the run,
/// or to where the syncers ended. None is taken where there are no syncers.
pub(crate) fn serve_syncers<S, N, O, W, D, R, G>(
    rt: &R,
    alloc: Global,
    syncers: u32,
    turns: u64,
    prepared: &Prepared<S>,
    wire: &mut W,
    front: &mut Front<D>,
    head: &mut RingHead<S, N>,
    book: Book<S, N, O>,
    gate: &G,
) -> (Book<S, N, O>, Taken)
where
    S: StartName + Send + Sync,
    N: RunName + Send + Sync,
    O: Sink + Send,
    W: Wire,
    D: Disk,
    R: Threads + Wait + Sync,
    G: Gate + Sync,
    requires { IsServing S.flat S.base S.start.stage.conf S.kept front.old head.old }
    ensures { HasServed D.tells S.flat S.base S.start.stage.conf S.kept front.old front.new
        (W.tells wire.old) (W.tells wire.new) head.new turns result.1 }
{
    if syncers == 0 {
        return (book, Taken::Going(0));
    }
    let shared = Shared::new(book, syncers);
    let taken = serve_beside(
        rt, alloc, syncers, turns, prepared, wire, front, head, &shared, gate,
    );
    (shared.into_book(), taken)
}
