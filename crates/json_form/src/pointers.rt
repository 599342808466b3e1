//! JSON pointers (RFC 6901).

ghost use Rattle.std.specs.Prelude.{◌≡◌, ◌++◌, IfOk, OnOk, codes, string_bytes};
ghost use Rattle.std.specs.Fmt.{decimal};
ghost use Rattle.json_form.specs.Places.{escaped, escaped_char};

use std::alloc::Global;
use zbx_types::{OutOfMemory, Text};

fn put_escaped_char(c: char, pointer: &mut String) -> Result<(), OutOfMemory>
    ensures { OnOk result (string_bytes pointer.new ≡ string_bytes pointer.old ++ escaped_char c) }
{
    match c {
        '~' => pointer.push_str("~0")?,
        '/' => pointer.push_str("~1")?,
        c => pointer.push(c)?,
    }
    Ok(())
}

#[tactic(auto, unfolding(crate::specs::Places::escaped))]
fn put_escaped(name: &str, pointer: &mut String) -> Result<(), OutOfMemory>
    ensures { OnOk result (string_bytes pointer.new ≡ string_bytes pointer.old ++ escaped name.now) }
{
    for c in name.chars() {
        put_escaped_char(c, pointer)?;
    }
    Ok(())
}

/// The pointer to a member of the object at this pointer.
pub(crate) fn below(alloc: Global, path: &str, name: &str) -> Result<Text, OutOfMemory>
    ensures { IfOk result (λ t. t ≡ path.now ++ codes "/" ++ escaped name.now) }
{
    let mut pointer = String::from_str(alloc, path)?;
    pointer.push_str("/")?;
    put_escaped(name, &mut pointer)?;
    Ok(Text::from(pointer))
}

/// The pointer to an element of the list at this pointer, counted from 0.
pub fn element(alloc: Global, path: &str, index: usize) -> Result<Text, OutOfMemory>
    ensures { IfOk result (λ t. t ≡ path.now ++ codes "/" ++ decimal index) }
{
    Ok(Text::from(format!(in alloc; "{path}/{index}")?))
}
