//! Spawners that wait for each other.

use outside::{Failed, Spawner};
use std::sync::Arc;
use std::sync::atomic::AtomicBool;
use std::sync::atomic::Ordering::SeqCst;
use std::thread::yield_now;
use zbx_types::{Many, Text};

/// A spawner whose runs end well once another spawner has begun one. It waits so many turns for that, and fails then. In a
/// turn it lets another thread run. It doesn't tell its runs.
#[derive(Drop)]
pub(crate) struct MeetSpawner {
    turns: u64,
    faults: u64,
    mine: Arc<AtomicBool>,
    other: Arc<AtomicBool>,
}

impl MeetSpawner {
    /// One that has begun no run, and is to meet another.
    pub(crate) fn new(turns: u64, mine: Arc<AtomicBool>, other: Arc<AtomicBool>) -> MeetSpawner {
        MeetSpawner {
            turns,
            faults: 0,
            mine,
            other,
        }
    }

    /// Whether the other one begins a run before the turns are spent.
    fn meets(&self) -> bool {
        for _ in 0..self.turns {
            if self.other.load(SeqCst) {
                return true;
            }
            yield_now();
        }
        false
    }
}

impl Spawner for MeetSpawner {
    ghost use Rattle.std.specs.Prelude.{None};

    ghost tells = { λ s. record { runs = None; faults = s.faults } };

    fn faults(&self) -> u64 {
        self.faults
    }

    fn run(&mut self, _program: &Text, _args: &Many<Text>) -> Result<(), Failed> {
        self.mine.store(true, SeqCst);
        if self.meets() {
            return Ok(());
        }
        self.faults = self.faults.saturating_add(1);
        Err(Failed)
    }
}
