//! Texts, bytes and lists.

use case_rows::bytes_of;
use std::alloc::Global;
use std::convert::AsStr;
use zbx_types::{Bytes, Many, OutOfMemory, Text, copy_texts, frame_header, unpadded};

/// Bytes as decimal numbers with blanks between.
fn decimals(alloc: Global, bytes: &[u8]) -> Result<String, OutOfMemory> {
    let mut out = String::new(alloc);
    for byte in bytes {
        if !out.is_empty() {
            out.push(' ')?;
        }
        let number = format!(in alloc; "{byte}")?;
        out.push_str(number.as_str())?;
    }
    Ok(out)
}

/// Bytes as the text that they are, or `none`.
fn as_text(alloc: Global, bytes: &[u8]) -> Result<String, OutOfMemory> {
    match Text::from_utf8(alloc, bytes)? {
        Some(text) => Ok(text.into_string()),
        None => Ok(String::from_str(alloc, "none")?),
    }
}

/// The two parts of an input between which a bar stands, the second empty where none does.
fn both(input: &str) -> (&str, &str) {
    input.split_once('|').unwrap_or((input, ""))
}

/// A text of pieces, the first of them a string's, with its length in front.
fn joined(alloc: Global, input: &str) -> Result<String, OutOfMemory> {
    let (first, rest) = both(input);
    let mut text = Text::from(String::from_str(alloc, first)?);
    for piece in rest.split('|') {
        text.push_str(piece)?;
    }
    Ok(format!(in alloc; "{} {}", text.len(), text.as_str())?)
}

/// How the first of two texts compares with the second.
fn compared(alloc: Global, input: &str) -> Result<String, OutOfMemory> {
    let (one, other) = both(input);
    let one = Text::of(alloc, one)?;
    let other = Text::of(alloc, other)?;
    let told = if one == other {
        "equal"
    } else if one < other {
        "less"
    } else {
        "greater"
    };
    Ok(String::from_str(alloc, told)?)
}

/// Bytes of three pieces, of which the last two are added together where there is room.
fn added(alloc: Global, input: &str) -> Result<String, OutOfMemory> {
    let (first, rest) = both(input);
    let (second, third) = both(rest);
    let mut bytes = Bytes::of(alloc, first.as_bytes())?;
    bytes.reserve(3)?;
    bytes.extend_both(second.as_bytes(), third.as_bytes())?;
    let text = as_text(alloc, bytes.as_slice())?;
    Ok(format!(in alloc; "{} {}", bytes.len(), text.as_str())?)
}

/// The bytes of the first part, cut to the length in the second.
fn cut(alloc: Global, input: &str) -> Result<String, OutOfMemory> {
    let (text, length) = both(input);
    let mut bytes = Bytes::new(alloc);
    bytes.extend(text.as_bytes())?;
    bytes.truncate(length.parse().unwrap_or(0));
    as_text(alloc, bytes.into_vec().as_slice())
}

/// The bytes of a vector, as numbers.
fn of_vector(alloc: Global, input: &str) -> Result<String, OutOfMemory> {
    let written = bytes_of(alloc, input)?;
    let taken = Bytes::from(Vec::from_slice(alloc, written.as_slice())?);
    decimals(alloc, taken.as_slice())
}

/// The numbers of a text, one after another.
fn numbers(alloc: Global, input: &str) -> Result<Many<u8>, OutOfMemory> {
    let mut made = Many::new(alloc);
    for number in input.split(' ') {
        made.push(number.parse().unwrap_or(0))?;
    }
    Ok(made)
}

/// A list of numbers with a copy of it behind, and its length.
fn doubled(alloc: Global, input: &str) -> Result<String, OutOfMemory> {
    let mut list = Many::from_vec(numbers(alloc, input)?.into_vec());
    let copy = list.copy(alloc)?;
    list.append(copy)?;
    let length = list.len();
    let told = decimals(alloc, list.into_vec().as_slice())?;
    Ok(format!(in alloc; "{length}: {}", told.as_str())?)
}

/// A list of texts, each copied.
fn copied(alloc: Global, input: &str) -> Result<String, OutOfMemory> {
    let mut texts = Many::new(alloc);
    for text in input.split('|') {
        texts.push(Text::of(alloc, text)?)?;
    }
    let copies = copy_texts(alloc, &texts)?;
    let is_same = copies.as_slice() == texts.as_slice();
    Ok(format!(in alloc; "{is_same}")?)
}

/// The bytes of an input without the blanks at both ends.
fn bare(alloc: Global, input: &str) -> Result<String, OutOfMemory> {
    let bytes = bytes_of(alloc, input)?;
    as_text(alloc, unpadded(bytes.as_slice()))
}

/// What a case of lists and bytes comes to.
fn of_lists(alloc: Global, kind: &str, input: &str) -> Result<Option<String>, OutOfMemory> {
    match kind {
        "bytes_added" => Ok(Some(added(alloc, input)?)),
        "bytes_cut" => Ok(Some(cut(alloc, input)?)),
        "bytes_of_vector" => Ok(Some(of_vector(alloc, input)?)),
        "list" => Ok(Some(decimals(alloc, numbers(alloc, input)?.as_slice())?)),
        "list_doubled" => Ok(Some(doubled(alloc, input)?)),
        "texts_copied" => Ok(Some(copied(alloc, input)?)),
        _ => Ok(None),
    }
}

/// What a case of texts, bytes and lists comes to.
pub(crate) fn answer(
    alloc: Global,
    kind: &str,
    input: &str,
) -> Result<Option<String>, OutOfMemory> {
    match kind {
        "text" => Ok(Some(joined(alloc, input)?)),
        "text_compared" => Ok(Some(compared(alloc, input)?)),
        "from_utf8" => Ok(Some(as_text(alloc, bytes_of(alloc, input)?.as_slice())?)),
        "unpadded" => Ok(Some(bare(alloc, input)?)),
        "frame_header" => Ok(Some(decimals(alloc, &frame_header(input.parse().unwrap_or(0)))?)),
        _ => of_lists(alloc, kind, input),
    }
}
