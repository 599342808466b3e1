//! A spawner whose runs fail for one recipient.

use outside::{Failed, Spawner};
use std::convert::AsStr;
use zbx_types::{Many, Text};

/// A spawner whose runs fail for the recipient `boss`, and end well for others. It doesn't tell its runs.
#[derive(Drop)]
pub(crate) struct RefusingSpawner {
    faults: u64,
}

impl RefusingSpawner {
    /// One that has run nothing.
    pub(crate) fn new() -> RefusingSpawner {
        RefusingSpawner { faults: 0 }
    }
}

/// Whether the texts that a program is given are of a message to `boss`.
fn is_refused(args: &Many<Text>) -> bool {
    match args.as_slice().first() {
        Some(recipient) => recipient.as_str() == "boss",
        None => false,
    }
}

impl Spawner for RefusingSpawner {
    ghost use Rattle.std.specs.Prelude.{None};

    ghost tells = { λ s. record { runs = None; faults = s.faults } };

    fn faults(&self) -> u64 {
        self.faults
    }

    fn run(&mut self, _program: &Text, args: &Many<Text>) -> Result<(), Failed> {
        if is_refused(args) {
            self.faults = self.faults.saturating_add(1);
            return Err(Failed);
        }
        Ok(())
    }
}
