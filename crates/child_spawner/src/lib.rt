//! Programs of the system that are run to their end, as alert scripts, and the system's clock between them.
//!
//! [`ChildSpawner`] meets the trait of spawners: a run is Ok exactly where the program was started, waited for and ended with
//! status 0. It tells nothing of its runs, so what a program does with what it is given is outside of every contract.
//!
//! [`SystemClock`] meets the trait of clocks. Of its moments no contract says anything.
//!
//! ```text
//! let mut spawner = ChildSpawner::new(&rt, alloc);
//! spawner.run(&program, &texts)?;
//! let mut clock = SystemClock::new(&rt);
//! let then = clock.rest(until);
//! ```
#![tactic(auto)]

mod clock;

ghost use Rattle.std.specs.Prelude.{◌≡◌, None};

pub use clock::SystemClock;
use outside::{Failed, Spawner};
use std::alloc::Global;
use std::convert::AsStr;
use std::io;
use std::process::{Command, Processes, Stdio};
use zbx_types::{Many, Text};

/// Runs programs of the system. A name without a slash is sought where the system seeks programs. A program reads nothing,
/// what it writes to its output is thrown away, and what it writes about errors comes where this program's errors come.
#[derive(Drop)]
pub struct ChildSpawner<R> {
    rt: R,
    alloc: Global,
    faults: u64,
}

impl<R: Processes> ChildSpawner<R> {
    /// One that has run nothing. Takes no memory.
    pub fn new(rt: R, alloc: Global) -> ChildSpawner<R>
        ensures { result.faults ≡ 0 }
    {
        ChildSpawner {
            rt,
            alloc,
            faults: 0,
        }
    }

    /// Whether a program ended with status 0.
    fn succeeds(&self, program: &Text, args: &Many<Text>) -> io::Result<bool> {
        let mut command = Command::new(self.alloc, program.as_str())?;
        for arg in args.as_slice() {
            command.arg(arg.as_str())?;
        }
        command.stdin(Stdio::null());
        command.stdout(Stdio::null());
        Ok(command.status(&self.rt)?.success())
    }
}

impl<R: Processes> Spawner for ChildSpawner<R> {
    ghost tells = { λ s. record { runs = None; faults = s.faults } };

    fn faults(&self) -> u64 {
        self.faults
    }

    fn run(&mut self, program: &Text, args: &Many<Text>) -> Result<(), Failed> {
        match self.succeeds(program, args) {
            Ok(true) => Ok(()),
            Ok(false) | Err(_) => {
                self.faults = self.faults.saturating_add(1);
                Err(Failed)
            }
        }
    }
}

#[cfg(test)]
mod tests {
    use super::*;
    use std::test::Fail;
    use zbx_types::OutOfMemory;

    /// Whether a program with one text beside its name ends well.
    fn ends_well<R: Processes>(
        spawner: &mut ChildSpawner<R>,
        program: &str,
        text: &str,
    ) -> Result<bool, OutOfMemory> {
        let mut args = Many::new(spawner.alloc);
        args.push(Text::of(spawner.alloc, text)?)?;
        let program = Text::of(spawner.alloc, program)?;
        Ok(spawner.run(&program, &args).is_ok())
    }

    #[test]
    fn a_run_is_ok_where_the_program_ends_with_status_0(rt: HostRuntime) -> Result<(), Fail> {
        let mut spawner = ChildSpawner::new(&rt, rt.alloc());
        assert!(rt; ends_well(&mut spawner, "echo", "two words")?);
        assert!(rt; !ends_well(&mut spawner, "ls", "/there/is/no/such/file")?);
        assert!(rt; !ends_well(&mut spawner, "/there/is/no/such/program", "")?);
        assert!(rt; !ends_well(&mut spawner, "no_such_program_in_the_path", "")?);
        assert!(rt; !ends_well(&mut spawner, "echo", "nul \0 byte")?);
        assert_eq!(rt; spawner.faults(), 4);
        Ok(())
    }
}
