//! Reading of paths.

ghost use Rattle.std.specs.Prelude.{◌≡◌, ◌≤◌, ℕ, length, IfOk, IfErr};
ghost use Rattle.zbx_types.specs.Limits.{longest_value};
ghost use Rattle.byte_grammar.specs.Fault.{IsFault};
ghost use Rattle.json_path.specs.Grammar.{IsPath, IsPathText};

use crate::path::{Path, PathError};
use crate::places::{ended, started, stepped};
use std::alloc::Global;
use zbx_types::OutOfMemory;

/// The most bytes of a path's text (this project's own).
pub const LONGEST_PATH: u32 = zbx_types::LONGEST_VALUE as u32;

/// Reads a path (the Zabbix 6.0 manual, "JSONPath functionality"; the grammar is in the crate's page). The text has at
/// most [`LONGEST_PATH`] bytes.
///
/// The whole text is the path, and no text is two paths. [`PathError::At`] comes exactly where the text is no path: it
/// is the place of the first byte where no path goes on, counted from 0, or the length of the text where it ends before
/// that. [`PathError::OutOfMemory`] comes where there is no room for the path.
pub fn read(alloc: Global, text: &[u8]) -> Result<Path, PathError>
    requires { length text.now ≤ longest_value }
    ensures found { IfOk result (λ path. IsPath text.now path) }
    ensures only { IfOk result (λ path. (other : Path) → IsPath text.now other → other ≡ path) }
    ensures none { IfErr result (λ error. (at : ℕ) → error ≡ PathError.At at → IsPathText text.now → ⊥) }
    ensures place { IfErr result (λ error. (at : ℕ) → error ≡ PathError.At at → IsFault IsPathText text.now at) }
{
    let mut state = started(alloc);
    let mut count = 0;
    for byte in text {
        match stepped(alloc, state, *byte) {
            Ok(Some(now)) => state = now,
            Ok(None) => return Err(PathError::At(count)),
            Err(OutOfMemory) => return Err(PathError::OutOfMemory),
        }
        count += 1;
    }
    match ended(alloc, state) {
        Ok(Some(path)) => Ok(path),
        Ok(None) => Err(PathError::At(count)),
        Err(OutOfMemory) => Err(PathError::OutOfMemory),
    }
}
