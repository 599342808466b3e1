//! What lies under the lock, and who waits for the end of a try.

ghost use Rattle.std.specs.Prelude.{◌≡◌, ◌≤◌, ◌<◌, ◌+◌, ℕ, length};
ghost use Rattle.alert_sessions.specs.Runs.{fails, succeeds};

use crate::counting::Mine;
use crate::names::CallName;
use crate::state::{Next, State};
use outside::Disk;
use std::alloc::Global;
use std::sync::ledger::Ledger;
use std::sync::{Condvar, Mutex, Wait};
use zbx_types::Moment;

/// A state that sessions share.
pub(crate) struct Shared<N: CallName, F: Ledger, S: Ledger, D: Disk> {
    pub(crate) alloc: Global,
    state: Mutex<State<N, F, S, D>>,
    woken: Condvar,
}

impl<N: CallName, F: Ledger, S: Ledger, D: Disk> Shared<N, F, S, D> {
    /// Shares a state.
    pub(crate) fn new(alloc: Global, state: State<N, F, S, D>) -> Shared<N, F, S, D> {
        Shared {
            alloc,
            state: Mutex::new(state),
            woken: Condvar::new(),
        }
    }

    /// Takes what is to be done now. Where that is to wait, it waits until a try has ended.
    pub(crate) fn next<R: Wait>(&self, rt: &R, now: Moment) -> Next
        ensures { (note : ℕ) → result ≡ Next.Try note → (1 ≤ note) × (note ≤ length N.start.homes) }
    {
        let mut state = self.state.lock(rt);
        let next = state.next(now);
        if next != Next::Wait {
            return next;
        }
        drop(self.woken.wait(rt, state));
        next
    }

    /// A try has ended. Wakes the sessions that wait for it.
    pub(crate) fn settle<R: Wait>(
        &self,
        rt: &R,
        note: u32,
        ok: bool,
        now: Moment,
        mine: &mut Mine<F, S>,
    )
        requires parts { (0 < mine.old.failures.parts) × (0 < mine.old.successes.parts) }
        ensures same { (mine.new.failures.parts ≡ mine.old.failures.parts) × (mine.new.successes.parts ≡ mine.old.successes.parts) }
        ensures failures { mine.new.failures.amount ≡ mine.old.failures.amount + fails ok }
        ensures successes { mine.new.successes.amount ≡ mine.old.successes.amount + succeeds ok }
    {
        self.state.lock(rt).settle(note, ok, now, mine);
        self.woken.notify_all();
    }

    /// A session ends for want of memory, and so do the others. Wakes those that wait.
    pub(crate) fn stop<R: Wait>(&self, rt: &R) {
        self.state.lock(rt).stop();
        self.woken.notify_all();
    }

    /// The state, once no session shares it.
    pub(crate) fn into_state(self) -> State<N, F, S, D> {
        let Shared {
            alloc: _,
            state,
            woken: _,
        } = self;
        state.into_inner()
    }
}
