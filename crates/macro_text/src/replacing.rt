//! Values for references.

ghost use Rattle.std.specs.Prelude.{◌≡◌, ◌++◌, ◌<◌, length, IfOk};
ghost use Rattle.macro_text.specs.Expanded.{value_of, expanded, OpensNoReference};

use crate::macros::Macro;
use crate::parts::front_of;
use std::alloc::Global;
use std::convert::AsStr;
use zbx_types::{Many, OutOfMemory, Text};

/// The value of a reference, or itself where no macro has its name.
fn value_of<'a>(name: &'a str, lookup: &'a Many<Macro>) -> &'a str
    ensures { result.now ≡ value_of lookup.now name.now }
{
    for found in lookup.as_slice() {
        if found.name.as_str() == name {
            return found.value.as_str();
        }
    }
    name
}

/// What stands for the front of a text, and the rest of the text behind that front.
fn replace_front<'a>(text: &'a str, lookup: &'a Many<Macro>) -> (&'a str, &'a str)
    requires { 0 < length text.now }
    ensures front { expanded lookup.now text.now ≡ result.0.now ++ expanded lookup.now result.1.now }
    ensures shorter { length result.1.now < length text.now }
{
    let front = front_of(text);
    if front.is_reference {
        (value_of(front.text, lookup), front.rest)
    } else {
        (front.text, front.rest)
    }
}

/// A text with each reference replaced by the value of the first macro of its name (the Zabbix 6.0 manual, "User
/// macros"; that it is done in any text is this project's own). A reference without a macro stays, and no value is
/// looked through again.
///
/// [`OutOfMemory`] where there is no room for the text that is made. The time grows with the text and with what is
/// made, and for each reference the list is looked through once.
pub fn expand(alloc: Global, text: &Text, lookup: &Many<Macro>) -> Result<Text, OutOfMemory>
    ensures value { IfOk result (λ made. made ≡ expanded lookup.now text.now) }
    ensures same { OpensNoReference text.now → IfOk result (λ made. made ≡ text.now) }
{
    let mut made = Text::new(alloc);
    let mut rest = text.as_str();
    while !rest.is_empty() {
        let (front, behind) = replace_front(rest, lookup);
        made.push_str(front)?;
        rest = behind;
    }
    Ok(made)
}
