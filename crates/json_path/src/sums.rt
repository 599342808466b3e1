//! Numbers of values.

ghost use Rattle.std.specs.Prelude.{◌≡◌, IfOk};
ghost use Rattle.json_text.specs.Trees.{json_of};
ghost use Rattle.json_path.specs.Results.{number_of, numbers_of};
ghost use Rattle.json_path.specs.Seen.{seen};

use json_text::Tree;
use std::alloc::Global;
use zbx_types::{Fix, Many, OutOfMemory};

/// The number that a value is, if it is one.
fn number_of(tree: &Tree) -> Option<Fix>
    ensures { result ≡ number_of (json_of tree.now) }
{
    match tree {
        Tree::Number(text) => Fix::read(text.as_bytes()),
        Tree::Words(text) => Fix::read(text.as_bytes()),
        Tree::Null | Tree::Bool(_) | Tree::List(_) | Tree::Object(_) => None,
    }
}

/// The numbers that values are, or none where one isn't a number.
pub(crate) fn numbers_of(alloc: Global, values: &[&Tree]) -> Result<Option<Many<Fix>>, OutOfMemory>
    ensures { IfOk result (λ numbers. numbers ≡ numbers_of (seen values.now)) }
{
    let mut made = Many::new(alloc);
    for value in values {
        match number_of(value) {
            Some(number) => made.push(number)?,
            None => return Ok(None),
        }
    }
    Ok(Some(made))
}
