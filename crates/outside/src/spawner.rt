//! The trait of what runs programs.

ghost use Rattle.std.specs.Prelude.{◌≡◌, is_ok};
ghost use Rattle.outside.specs.Causes.{HasCause};
ghost use Rattle.outside.specs.Spawning.{SpawnerTells, AddsRun};

use crate::event::Failed;
use zbx_types::{Many, Text};

/// A program that was run, and how it ended.
#[derive(Debug, Drop)]
pub struct Run {
    /// Its name, or the path of its file.
    pub program: Text,
    /// What it was given, in order.
    pub args: Many<Text>,
    /// It was started and ended with status 0.
    pub ok: bool,
}

/// Runs programs, as alert scripts.
pub trait Spawner {
    /// The programs that it ran, where it tells them, and how often it has failed.
    ghost tells: { Self → SpawnerTells };

    /// How often it has failed. The count stays at 2^64 - 1.
    fn faults(&self) -> u64
        ensures { result ≡ (tells self.now).faults };

    /// Runs a program with these arguments, and waits for its end. `Ok` says that it was started and ended with status
    /// 0.
    ///
    /// At `Err` it couldn't be started or waited for, or ended in another way, and the count of faults rises.
    fn run(&mut self, program: &Text, args: &Many<Text>) -> Result<(), Failed>
        ensures run { AddsRun (tells self.old).runs (tells self.new).runs (record { program = program.now; args = args.now; ok = is_ok result }) }
        ensures cause { HasCause (tells self.old).faults (tells self.new).faults result };
}
