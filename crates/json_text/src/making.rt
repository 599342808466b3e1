//! Texts, lists and places made of what was read.

ghost use Rattle.std.specs.Prelude.{◌≡◌, IfOk, IsUtf8};
ghost use Rattle.json_text.specs.Json.{add};
ghost use Rattle.json_text.specs.Machine as machine;
ghost use Rattle.json_text.specs.Moves as moves;

use crate::frame::Read;
use crate::naming::Fields;
use crate::place::{Mode, Use};
use crate::string::{InString, Spot};
use crate::tree::{Tree, Trees};
use std::alloc::Global;
use zbx_types::{Bytes, OutOfMemory, Text};

/// Behind the quote that opens a string.
#[inline(always)]
pub(crate) fn quoted(alloc: Global, string_use: Use) -> Mode
    ensures { result ≡ machine.quoted string_use }
{
    Mode::String(
        string_use,
        Spot {
            place: InString::Between,
            text: Bytes::new(alloc),
        },
    )
}

/// The items with one more.
pub(crate) fn with_item(items: Trees, value: Read) -> Result<Trees, OutOfMemory>
    ensures { IfOk result (λ r. r ≡ add items value) }
{
    let mut items = items;
    items.push(value.into_tree())?;
    Ok(items)
}

/// Bytes that are UTF-8 as a text.
pub(crate) fn text_of(bytes: Bytes) -> Text
    requires { IsUtf8 bytes }
    ensures { result ≡ bytes }
{
    match String::from_utf8(bytes.into_vec()) {
        Ok(text) => Text::from(text),
        Err(_) => unreachable!(),
    }
}

/// Whether the byte is the quote that ends the string.
pub(crate) fn is_end(place: InString, byte: u8) -> bool
    ensures { result ≡ machine.is_end place byte }
{
    match place {
        InString::Between => byte == b'"',
        _ => false,
    }
}

/// Whether a value or a name may begin here.
pub(crate) fn takes_string(mode: &Mode) -> bool
    ensures { result ≡ moves.takes_string mode.now }
{
    match mode {
        Mode::Value | Mode::FirstName | Mode::NextName(_) => true,
        _ => false,
    }
}

/// The place behind a string that began here.
#[inline(always)]
pub(crate) fn behind_string(alloc: Global, mode: Mode, text: Text) -> Mode
    ensures { result ≡ moves.behind_string mode text }
{
    match mode {
        Mode::Value => Mode::Done(Read::new(Tree::Words(text))),
        Mode::FirstName => Mode::Named(Fields::new(alloc), text),
        Mode::NextName(members) => Mode::Named(members, text),
        other => other,
    }
}
