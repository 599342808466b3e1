//! What the threads of a run share: the configuration, a book under a lock, and whether the run ends.

ghost use Rattle.std.specs.Prelude.{◌≡◌, ◌≤◌, OnOk};

use book::{Book, Done, FlushError, Order, RingHead, RunName};
use book_opening::StartName;
use conf_index::Ready;
use entry_step::Steps;
use outside::Sink;
use std::alloc::Global;
use std::marker::PhantomData;
use std::sync::ledger::Ledger;
use std::sync::{Condvar, Mutex, Wait};
use zbx_types::OutOfMemory;

/// A configuration that is the run's, which its type says.
#[derive(Drop)]
pub(crate) struct Prepared<S: StartName> {
    ready: Ready,
    of: PhantomData<S>,
    ghost conf: { ready ≡ S.start.stage },
}

impl<S: StartName> Prepared<S> {
    pub(crate) fn new(ready: Ready) -> Prepared<S>
        requires { ready ≡ S.start.stage }
    {
        Prepared {
            ready,
            of: PhantomData,
        }
    }

    pub(crate) fn ready(&self) -> &Ready
        ensures { result.now ≡ S.start.stage }
    {
        &self.ready
    }

    pub(crate) fn into_ready(self) -> Ready
        ensures { result ≡ S.start.stage }
    {
        self.ready
    }
}

/// What an order may have at least.
const LEAST_IN_ORDER: u32 = 64;

/// The most that it may have.
const MOST_IN_ORDER: u32 = 512;

/// How many pending entries are looked at for an order.
const LOOKS: u32 = 4000;

/// How many entries an order may have: a syncer's share of those that wait. An order keeps the items that its entries
/// touch from the others, so it has at most half as many as there are items for each syncer.
fn size_of_order(waiting: u32, items: u32, syncers: u32) -> u32
    ensures least { 64 ≤ result }
    ensures most { result ≤ 512 }
{
    let share = waiting.checked_div(syncers).unwrap_or(waiting);
    let spread = (items / 2).checked_div(syncers).unwrap_or(items);
    share.min(spread).max(LEAST_IN_ORDER).min(MOST_IN_ORDER)
}

/// How many items a configuration has.
fn count_of_items(ready: &Ready) -> u32 {
    u32::try_from(ready.conf().items.len()).unwrap_or(u32::MAX)
}

/// What lies under the lock.
#[derive(Drop)]
struct State<S: StartName, N: RunName, O: Sink> {
    book: Book<S, N, O>,
    syncers: u32,
    // How many entries wait for an order.
    waiting: u32,
    // How many orders are being worked out.
    open: u32,
    ending: bool,
}

impl<S: StartName, N: RunName, O: Sink> State<S, N, O> {
    /// Takes what the ring shows, and then an order, where there is one.
    fn next_order(
        &mut self,
        alloc: Global,
        prepared: &Prepared<S>,
    ) -> Result<Option<Order<S>>, OutOfMemory> {
        let count = self.book.pull(alloc)?;
        self.waiting = self.waiting.saturating_add(count);
        let ready = prepared.ready();
        let limit = size_of_order(self.waiting, count_of_items(ready), self.syncers);
        match self.book.claim(alloc, ready, LOOKS, limit) {
            Ok(Some(order)) => {
                self.open = self.open.saturating_add(1);
                self.waiting = self.waiting.saturating_sub(order.count());
                Ok(Some(order))
            }
            Ok(None) => Ok(None),
            Err(OutOfMemory) => Err(OutOfMemory),
        }
    }

    /// Takes all that is in the ring, for the thread that sends.
    fn pull_beside(&mut self, alloc: Global, head: &mut RingHead<S, N>) -> Result<(), OutOfMemory>
        ensures sent { head.new.sent ≡ head.old.sent }
        ensures capacity { head.new.capacity ≡ head.old.capacity }
        ensures free { OnOk result (head.new.free ≡ head.new.capacity) }
    {
        let count = self.book.pull_beside(alloc, head)?;
        self.waiting = self.waiting.saturating_add(count);
        Ok(())
    }

    /// Whether nothing will be there to take, where there is nothing now: an order that is being worked out may hold
    /// entries back, and more of them come until the run ends.
    fn is_over(&self) -> bool {
        self.ending && self.open == 0
    }

    /// Puts what an order came to in place, and hands out lines. Answers whether the outbox took them.
    fn settle<L: Ledger>(
        &mut self,
        alloc: Global,
        prepared: &Prepared<S>,
        done: Done<S>,
        steps: &mut Steps<L>,
    ) -> Result<bool, OutOfMemory> {
        self.open = self.open.saturating_sub(1);
        match self.book.apply(alloc, prepared.ready(), done, steps) {
            Ok(()) => {}
            Err((done, refused)) => {
                drop(done);
                return Err(refused);
            }
        }
        match self.book.flush(alloc) {
            Ok(()) => Ok(true),
            Err(FlushError::OutboxFault) => Ok(false),
            Err(FlushError::OutOfMemory) => Err(OutOfMemory),
        }
    }

    /// Gives an order back that wasn't worked out.
    fn give_back(&mut self, order: Order<S>) {
        self.open = self.open.saturating_sub(1);
        self.waiting = self.waiting.saturating_add(order.count());
        self.book.give_back(order);
    }
}

/// A book under a lock, whether the run ends, and who waits for either.
#[derive(Drop)]
pub(crate) struct Shared<S: StartName, N: RunName, O: Sink> {
    state: Mutex<State<S, N, O>>,
    woken: Condvar,
}

impl<S: StartName, N: RunName, O: Sink> Shared<S, N, O> {
    /// Shares a book among so many syncers. The run isn't ending.
    pub(crate) fn new(book: Book<S, N, O>, syncers: u32) -> Shared<S, N, O> {
        Shared {
            state: Mutex::new(State {
                book,
                syncers,
                waiting: 0,
                open: 0,
                ending: false,
            }),
            woken: Condvar::new(),
        }
    }

    /// Wakes a syncer that waits. Answers whether the run goes on.
    pub(crate) fn wake<R: Wait>(&self, rt: &R) -> bool {
        let ending = self.state.lock(rt).ending;
        self.woken.notify_one();
        !ending
    }

    /// Has the run end, and wakes the syncers that wait.
    pub(crate) fn end<R: Wait>(&self, rt: &R) {
        self.state.lock(rt).ending = true;
        self.woken.notify_all();
    }

    /// Takes all that is in the ring, whose slots are free then, and wakes a syncer that waits.
    pub(crate) fn pull_beside<R: Wait>(
        &self,
        rt: &R,
        alloc: Global,
        head: &mut RingHead<S, N>,
    ) -> Result<(), OutOfMemory>
        ensures sent { head.new.sent ≡ head.old.sent }
        ensures capacity { head.new.capacity ≡ head.old.capacity }
        ensures free { OnOk result (head.new.free ≡ head.new.capacity) }
    {
        self.state.lock(rt).pull_beside(alloc, head)?;
        self.woken.notify_one();
        Ok(())
    }

    /// Waits for an order, and takes it, and wakes another syncer, which looks for more; or none, where the run ends
    /// and there will be nothing to take.
    ///
    /// So whenever entries may be taken a syncer looks for them: the one that brought an order back, or that was
    /// woken for what was sent, or by one that took an order.
    pub(crate) fn next_order<R: Wait>(
        &self,
        rt: &R,
        alloc: Global,
        prepared: &Prepared<S>,
    ) -> Result<Option<Order<S>>, OutOfMemory> {
        for _ in rt.forever() {
            let mut state = self.state.lock(rt);
            let found = state.next_order(alloc, prepared);
            let is_over = state.is_over();
            match found {
                Err(OutOfMemory) => {
                    drop(state);
                    return Err(OutOfMemory);
                }
                Ok(Some(order)) => {
                    drop(state);
                    self.woken.notify_one();
                    return Ok(Some(order));
                }
                Ok(None) => {}
            }
            if is_over {
                drop(state);
                return Ok(None);
            }
            drop(self.woken.wait(rt, state));
        }
        unreachable!()
    }

    /// Puts what an order came to in place, and hands out lines. Answers whether the outbox took the lines.
    pub(crate) fn settle<R: Wait, L: Ledger>(
        &self,
        rt: &R,
        alloc: Global,
        prepared: &Prepared<S>,
        done: Done<S>,
        steps: &mut Steps<L>,
    ) -> Result<bool, OutOfMemory> {
        self.state.lock(rt).settle(alloc, prepared, done, steps)
    }

    /// Gives an order back that wasn't worked out.
    pub(crate) fn give_back<R: Wait>(&self, rt: &R, order: Order<S>) {
        self.state.lock(rt).give_back(order);
    }

    /// The book, once no thread shares it.
    pub(crate) fn into_book(self) -> Book<S, N, O> {
        let Shared { state, woken: _ } = self;
        let State {
            book,
            syncers: _,
            waiting: _,
            open: _,
            ending: _,
        } = state.into_inner();
        book
    }
}
