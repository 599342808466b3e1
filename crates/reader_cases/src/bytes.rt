//! Characters in UTF-8 and keys of items, byte by byte.

use byte_grammar::Character;
use case_rows::bytes_of;
use item_key::Place;
use std::alloc::Global;
use zbx_types::OutOfMemory;

/// Whether bytes are a text, the beginning of one, or none goes on with one of them.
fn in_utf8(bytes: &[u8]) -> &'static str {
    let mut character = Character::Whole;
    for byte in bytes {
        match byte_grammar::next(character, *byte) {
            Some(now) => character = now,
            None => return "none",
        }
    }
    if byte_grammar::is_whole(character) {
        "text"
    } else {
        "begun"
    }
}

/// Whether bytes are a key, the beginning of one, or none goes on with one of them.
fn key(bytes: &[u8]) -> &'static str {
    let mut place = Place::Start;
    for byte in bytes {
        match item_key::next(place, *byte) {
            Some(now) => place = now,
            None => return "none",
        }
    }
    if item_key::may_end(place) {
        "key"
    } else {
        "begun"
    }
}

/// What the bytes of a row come to.
fn of_bytes(alloc: Global, input: &str, is_key: bool) -> Result<String, OutOfMemory> {
    let bytes = bytes_of(alloc, input)?;
    let bytes = bytes.as_slice();
    let told = if is_key { key(bytes) } else { in_utf8(bytes) };
    Ok(String::from_str(alloc, told)?)
}

/// What a case of single bytes comes to.
pub(crate) fn answer(
    alloc: Global,
    kind: &str,
    input: &str,
) -> Result<Option<String>, OutOfMemory> {
    match kind {
        "characters" => Ok(Some(of_bytes(alloc, input, false)?)),
        "bytes of a key" => Ok(Some(of_bytes(alloc, input, true)?)),
        _ => Ok(None),
    }
}
