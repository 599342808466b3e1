//! Gates that syncers come to, so that a test can hold one of them.

use std::sync::atomic::AtomicU64;
use std::sync::atomic::Ordering::SeqCst;
use std::thread::yield_now;

/// Where a syncer says what it is about to do.
pub trait Gate {
    /// A syncer has come with work whose first entry has this number. It goes on when the call returns.
    fn reached(&self, syncer: u32, first: u64);
}

/// A gate that holds nobody.
#[derive(Clone, Copy, Debug)]
pub struct OpenGate;

impl Gate for OpenGate {
    fn reached(&self, _syncer: u32, _first: u64) {}
}

/// Nobody has been held yet. Where a syncer is held, its number and 1 stand in place of this.
const NOBODY: u64 = 0;

/// Another syncer ended the hold.
const BY_OTHER: u64 = u64::MAX;

/// The turns of the hold are spent.
const SPENT: u64 = u64::MAX - 1;

/// A gate that holds one syncer once. It lets calls pass whose first number is at most `after`, and holds the first
/// later caller, whichever syncer it is, until another syncer calls or the turns are spent.
///
/// In a turn the syncer lets another thread run. Syncers may call it at once.
#[derive(Drop)]
pub struct HoldGate {
    after: u64,
    turns: u64,
    calls: AtomicU64,
    waited: AtomicU64,
    hold: AtomicU64,
}

impl HoldGate {
    /// A gate that nobody has come to.
    pub fn new(after: u64, turns: u64) -> HoldGate {
        HoldGate {
            after,
            turns,
            calls: AtomicU64::new(0),
            waited: AtomicU64::new(0),
            hold: AtomicU64::new(NOBODY),
        }
    }

    /// Whether somebody was held, and another syncer ended it.
    pub fn ended_by_other(&self) -> bool {
        self.hold.load(SeqCst) == BY_OTHER
    }

    /// How many calls of `reached` there were so far.
    pub fn calls(&self) -> u64 {
        self.calls.load(SeqCst)
    }

    /// How many turns the syncer that was held has waited so far.
    pub fn turns_waited(&self) -> u64 {
        self.waited.load(SeqCst)
    }

    /// Waits until another syncer ends the hold, or the turns are spent.
    fn wait(&self, held: u64) {
        for _ in 0..self.turns {
            if self.hold.load(SeqCst) != held {
                return;
            }
            yield_now();
            self.waited.fetch_add(1, SeqCst);
        }
        let _ = self.hold.compare_exchange(held, SPENT, SeqCst, SeqCst);
    }

    /// Ends the hold of another syncer, where there is one.
    fn end(&self, caller: u64) {
        let held = self.hold.load(SeqCst);
        if held != NOBODY && held != caller && held < SPENT {
            let _ = self.hold.compare_exchange(held, BY_OTHER, SeqCst, SeqCst);
        }
    }
}

impl Gate for HoldGate {
    fn reached(&self, syncer: u32, first: u64) {
        self.calls.fetch_add(1, SeqCst);
        let caller = u64::from(syncer) + 1;
        let begins = first > self.after
            && self
                .hold
                .compare_exchange(NOBODY, caller, SeqCst, SeqCst)
                .is_ok();
        if begins {
            self.wait(caller);
        } else {
            self.end(caller);
        }
    }
}
