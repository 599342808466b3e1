//! The program's words.

ghost use Rattle.std.specs.Prelude.{◌≡◌, IfOk, map, string_bytes};
ghost use Rattle.std.specs.Vec.Iter.{into_iter_items};

use std::alloc::Global;
use std::env::FillError;
use std::rt::Env;
use std::{env, io};
use zbx_types::{Many, OutOfMemory, Text};

/// An environment without the program's path: its first argument is the one behind that.
#[derive(Drop)]
struct AfterPath<'a, R> {
    env: &'a R,
}

impl<'a, R: Env> Env for AfterPath<'a, R> {
    fn arg(&self, i: usize, buf: &mut [u8]) -> Result<usize, FillError> {
        match i.checked_add(1) {
            Some(place) => self.env.arg(place, buf),
            None => Err(FillError::NotPresent),
        }
    }

    fn var(&self, name: &str, buf: &mut [u8]) -> Result<usize, FillError> {
        self.env.var(name, buf)
    }

    fn var_at(&self, i: usize, buf: &mut [u8]) -> Result<usize, FillError> {
        self.env.var_at(i, buf)
    }
}

/// The program's words: all arguments behind its path, which may be any bytes. Where one of the arguments isn't UTF-8
/// there are no words at all, which is no command. [`OutOfMemory`] where there is no room for them.
pub(crate) fn words<R: Env>(env: &R, alloc: Global) -> Result<Many<Text>, OutOfMemory> {
    match env::args(&(AfterPath { env }, alloc)) {
        Ok(arguments) => texts(alloc, arguments),
        Err(error) if error.kind() == io::ErrorKind::OutOfMemory => Err(OutOfMemory),
        Err(_) => Ok(Many::new(alloc)),
    }
}

/// All of these arguments as texts, in their order.
fn texts(alloc: Global, arguments: env::Args) -> Result<Many<Text>, OutOfMemory>
    ensures { IfOk result (λ words. words ≡ map string_bytes (into_iter_items arguments)) }
{
    let mut words = Many::new(alloc);
    for argument in arguments {
        words.push(Text::from(argument))?;
    }
    Ok(words)
}
