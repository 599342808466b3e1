//! The fields of a line.

ghost use Rattle.std.specs.Prelude.{◌≡◌, true, Some, None, IfOk, if◌then◌else◌};
ghost use Rattle.alert_run.specs.Fields.{meant_by, taken, ended, fields_of};

use std::alloc::Global;
use std::mem::replace;
use zbx_types::{Bytes, Many, OutOfMemory};

/// A line on its way into fields.
#[derive(Drop)]
struct Split {
    done: Many<Bytes>,
    field: Bytes,
    escape: bool,
}

/// The byte that stands for this one behind a backslash.
fn meant_by(byte: u8) -> Option<u8>
    ensures { result ≡ meant_by byte }
{
    match byte {
        b'\\' | b'|' => Some(byte),
        b'n' => Some(b'\n'),
        b'r' => Some(b'\r'),
        _ => None,
    }
}

impl Split {
    /// Takes one byte more. False is a byte that can't stand behind a backslash.
    fn take(&mut self, alloc: Global, byte: u8) -> Result<bool, OutOfMemory>
        ensures { IfOk result (λ went. taken self.old byte ≡ (if went then Some self.new else None)) }
    {
        if self.escape {
            return self.take_escaped(byte);
        }
        match byte {
            b'|' => {
                let field = replace(&mut self.field, Bytes::new(alloc));
                self.done.push(field)?;
            }
            b'\\' => self.escape = true,
            _ => self.field.extend(&[byte])?,
        }
        Ok(true)
    }

    /// Takes the byte behind a backslash.
    fn take_escaped(&mut self, byte: u8) -> Result<bool, OutOfMemory>
        requires { self.old.escape ≡ true }
        ensures { IfOk result (λ went. taken self.old byte ≡ (if went then Some self.new else None)) }
    {
        let Some(meant) = meant_by(byte) else {
            return Ok(false);
        };
        self.field.extend(&[meant])?;
        self.escape = false;
        Ok(true)
    }

    /// The fields, where no backslash is left open.
    fn end(self) -> Result<Option<Many<Bytes>>, OutOfMemory>
        ensures { IfOk result (λ fields. fields ≡ ended self) }
    {
        if self.escape {
            return Ok(None);
        }
        let mut done = self.done;
        done.push(self.field)?;
        Ok(Some(done))
    }
}

/// The fields of a line, with their escapes read, or None where it has a backslash that none of `\`, `|`, `n` and `r` follows.
#[tactic(auto, using(crate::proofs::Splitting::fields_step, crate::proofs::Splitting::fields_bad, crate::proofs::Splitting::fields_end))]
pub(crate) fn fields_of(alloc: Global, line: &[u8]) -> Result<Option<Many<Bytes>>, OutOfMemory>
    ensures { IfOk result (λ fields. fields ≡ fields_of line.now) }
{
    let mut split = Split {
        done: Many::new(alloc),
        field: Bytes::new(alloc),
        escape: false,
    };
    for byte in line {
        if !split.take(alloc, *byte)? {
            return Ok(None);
        }
    }
    split.end()
}
