//! A spawner in memory.

ghost use Rattle.std.specs.Prelude.{◌≡◌, ◌++◌, ◌∷◌, [], Some, is_ok, is_err, OnOk, OnErr, option_copied};
ghost use Rattle.outside.specs.Calls.{no_calls, one_more, is_listed};
ghost use Rattle.outside.specs.Causes.{HasCause};
ghost use Rattle.outside.specs.Spawning.{AddsRun, ForgetsRuns};

use crate::calls::CallCount;
use crate::event::Failed;
use crate::spawner::{Run, Spawner};
use crate::tally::Tally;
use std::alloc::Global;
use std::marker::Model;
use zbx_types::{Many, OutOfMemory, Text, copy_texts};

/// A spawner that starts nothing, and keeps what it was to run. The runs with the numbers in `fails`, counted from 1,
/// fail, and no others. Once it finds no memory to keep a run it tells its runs no more.
#[derive(Drop)]
pub struct MemSpawner {
    alloc: Global,
    runs: Option<Many<Run>>,
    faults: u64,
    calls: CallCount,
    refused: Tally,
}

impl Model for MemSpawner {
    ghost use Rattle.outside.specs.Spawning.{Spawned};

    ghost Value = { Spawned };

    ghost view = { λ s. record { tells = record { runs = s.runs; faults = s.faults }; calls = s.calls; refused = s.refused } };
}

impl MemSpawner {
    /// A spawner that has run nothing. Takes no memory.
    pub fn new(alloc: Global, fails: Many<u64>) -> MemSpawner
        ensures { result ≡ record { tells = record { runs = Some []; faults = 0 }; calls = no_calls fails; refused = 0 } }
    {
        MemSpawner {
            alloc,
            runs: Some(Many::new(alloc)),
            faults: 0,
            calls: CallCount::new(fails),
            refused: Tally::zero(),
        }
    }

    /// The runs in order, failed ones included, or None once one found no memory to be kept.
    pub fn runs(&self) -> Option<&Many<Run>>
        ensures { option_copied result ≡ self.now.tells.runs }
    {
        self.runs.as_ref()
    }

    /// Keeps a run, or ceases to tell.
    fn keep(&mut self, program: &Text, args: &Many<Text>, ok: bool)
        ensures run { AddsRun self.old.tells.runs self.new.tells.runs (record { program = program.now; args = args.now; ok = ok }) }
        ensures forgets { ForgetsRuns self.old self.new }
        ensures faults { self.new.tells.faults ≡ self.old.tells.faults }
        ensures calls { self.new.calls ≡ self.old.calls }
    {
        let Some(runs) = &mut self.runs else {
            return;
        };
        if add(self.alloc, runs, program, args, ok).is_err() {
            self.refused.rise();
            self.runs = None;
        }
    }
}

fn add(
    alloc: Global,
    runs: &mut Many<Run>,
    program: &Text,
    args: &Many<Text>,
    ok: bool,
) -> Result<(), OutOfMemory>
    ensures ok { OnOk result (runs.new ≡ runs.old ++ record { program = program.now; args = args.now; ok = ok } ∷ []) }
    ensures err { OnErr result (runs.new ≡ runs.old) }
{
    let program = program.copy(alloc)?;
    let args = copy_texts(alloc, args)?;
    runs.push(Run { program, args, ok })?;
    Ok(())
}

impl Spawner for MemSpawner {
    ghost tells = { λ s. s.tells };

    fn faults(&self) -> u64 {
        self.faults
    }

    /// It fails exactly where its number is among those that are to fail.
    fn run(&mut self, program: &Text, args: &Many<Text>) -> Result<(), Failed>
        ensures calls { self.new.calls ≡ one_more self.old.calls }
        ensures fails { is_err result ≡ is_listed self.new.calls }
        ensures forgets { ForgetsRuns self.old self.new }
        ensures run { AddsRun self.old.tells.runs self.new.tells.runs (record { program = program.now; args = args.now; ok = is_ok result }) }
        ensures cause { HasCause self.old.tells.faults self.new.tells.faults result }
    {
        if self.calls.is_failing() {
            self.keep(program, args, false);
            self.faults = self.faults.saturating_add(1);
            return Err(Failed);
        }
        self.keep(program, args, true);
        Ok(())
    }
}
