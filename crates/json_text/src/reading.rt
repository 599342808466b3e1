//! Reading of JSON texts.

ghost use Rattle.std.specs.Prelude.{◌≡◌, ◌≤◌, ◌<◌, IfOk, IfErr, Some, ℕ, length};
ghost use Rattle.byte_grammar.specs.Fault.{IsFault};
ghost use Rattle.json_text.specs.Grammar.{IsJson, IsText};
ghost use Rattle.json_text.specs.Json.{Json};
ghost use Rattle.json_text.specs.Machine as machine;
ghost use Rattle.json_text.specs.declared.reading.ReadError.TheVariants.{At};
ghost use Rattle.json_text.specs.Trees.{json_of};

use crate::machine::State;
use crate::tree::Tree;
use std::alloc::Global;
use thiserror::Error;
use zbx_types::OutOfMemory;

/// Why a text was not read.
#[derive(Clone, Copy, Debug, PartialEq, Eq, Error)]
pub enum ReadError {
    /// It is no JSON text: this is the place of the first byte where none goes on, counted from 0, or the length of the
    /// text where that comes first.
    #[error("no JSON text goes on at byte {0}")]
    At(u64),
    /// No memory was to be had.
    #[error("out of memory")]
    OutOfMemory,
}

/// Takes the bytes of a text from its beginning for as long as a JSON text goes on with them, and answers how many.
fn front(alloc: Global, state: &mut State, bytes: &[u8]) -> Result<usize, OutOfMemory>
    requires { state.old ≡ machine.start }
    ensures within { IfOk result (λ n. n ≤ length bytes.now) }
    ensures whole { IfOk result (λ n. n ≡ length bytes.now → machine.after (Some machine.start) bytes.now ≡ Some state.new) }
    ensures none { IfOk result (λ n. n < length bytes.now → IsText bytes.now → ⊥) }
    ensures place { IfOk result (λ n. n < length bytes.now → IsFault IsText bytes.now n) }
{
    let mut count = 0;
    while count < bytes.len() {
        let taken = state.advance(alloc, &bytes[count..])?;
        if taken == 0 {
            return Ok(count);
        }
        count += taken;
    }
    Ok(count)
}

/// Reads a JSON text (RFC 8259), in a time that grows as its length does, and as n log n with the names of an object,
/// whichever they are.
///
/// `Ok` is the value that the text is, and no other is. At most 64 brackets are open at one place (this project's own);
/// the 65th has no place. Numbers keep their text, a surrogate escape stands only in a pair of a high and a low one,
/// and a repeated name puts the later value in the earlier place (this project's own).
///
/// [`ReadError::At`] comes exactly where the text is no value; [`ReadError::OutOfMemory`] where memory is refused.
pub fn read(alloc: Global, bytes: &[u8]) -> Result<Tree, ReadError>
    ensures found { IfOk result (λ tree. IsJson bytes.now (json_of tree)) }
    ensures only { IfOk result (λ tree. (j : Json) → IsJson bytes.now j → j ≡ json_of tree) }
    ensures none { IfErr result (λ e. (at : ℕ) → e ≡ At at → IsText bytes.now → ⊥) }
    ensures place { IfErr result (λ e. (at : ℕ) → e ≡ At at → IsFault IsText bytes.now at) }
{
    let mut state = State::start(alloc);
    match front(alloc, &mut state, bytes) {
        Ok(count) if count < bytes.len() => {
            drop(state);
            Err(ReadError::At(count as u64))
        }
        Ok(count) => match state.end() {
            Some(tree) => Ok(tree),
            None => Err(ReadError::At(count as u64)),
        },
        Err(OutOfMemory) => {
            drop(state);
            Err(ReadError::OutOfMemory)
        }
    }
}
