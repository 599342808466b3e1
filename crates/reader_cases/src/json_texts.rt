//! Texts of JSON: the place where one is refused, and what is written of one.

use case_rows::{bytes_of, long_text, shown};
use json_text::{Members, ReadError, Tree, Trees, read, write};
use std::alloc::Global;
use std::convert::AsStr;
use zbx_types::{Bytes, OutOfMemory, Text};

/// `read`, or the place where a text is refused.
fn place(alloc: Global, bytes: &[u8]) -> Result<String, OutOfMemory> {
    match read(alloc, bytes).err() {
        None => Ok(String::from_str(alloc, "read")?),
        Some(ReadError::At(at)) => Ok(format!(in alloc; "{at}")?),
        Some(ReadError::OutOfMemory) => Err(OutOfMemory),
    }
}

/// The same of a row's text.
fn of_row(alloc: Global, input: &str) -> Result<String, OutOfMemory> {
    let text = long_text(alloc, input)?;
    let bytes = bytes_of(alloc, text.as_str())?;
    place(alloc, bytes.as_slice())
}

/// What is written of a value, behind other bytes.
fn written(alloc: Global, tree: &Tree, before: &[u8]) -> Result<String, OutOfMemory> {
    let mut out = Bytes::of(alloc, before)?;
    write(tree, &mut out)?;
    shown(alloc, out.as_slice())
}

/// What is written of the value that a text is.
fn again(alloc: Global, input: &str) -> Result<String, OutOfMemory> {
    match read(alloc, input.as_bytes()).ok() {
        Some(tree) => {
            let made = written(alloc, &tree, b"");
            drop(tree);
            made
        }
        None => Ok(String::from_str(alloc, "not read")?),
    }
}

/// The names of an object, each with the number of items where its value is a list.
fn names(alloc: Global, members: &Members) -> Result<String, OutOfMemory> {
    let mut made = Text::new(alloc);
    for member in members.as_slice() {
        made.push_str(member.name.as_str())?;
        if let Tree::List(items) = &member.value {
            made.push_str(" of ")?;
            made.push_decimal(items.as_slice().len() as u64)?;
        }
    }
    Ok(made.into_string())
}

/// The same of the object that a text is.
fn parts(alloc: Global, input: &str) -> Result<String, OutOfMemory> {
    match read(alloc, input.as_bytes()).ok() {
        Some(Tree::Object(members)) => names(alloc, &members),
        other => {
            drop(other);
            Ok(String::from_str(alloc, "no object")?)
        }
    }
}

/// The value of a word.
fn leaf(word: &str) -> Tree {
    match word {
        "true" => Tree::Bool(true),
        "false" => Tree::Bool(false),
        _ => Tree::Null,
    }
}

/// The list of the values of words.
fn listed(alloc: Global, words: &str) -> Result<Trees, OutOfMemory> {
    let mut items = Trees::from_vec(Vec::new(alloc));
    for word in words.split(' ') {
        items.push(leaf(word))?;
    }
    Ok(items)
}

/// What is written of such a list, behind an `x`.
fn by_hand(alloc: Global, input: &str) -> Result<String, OutOfMemory> {
    let tree = Tree::List(listed(alloc, input)?);
    let made = written(alloc, &tree, b"x");
    drop(tree);
    made
}

/// What a case of JSON comes to.
pub(crate) fn answer(
    alloc: Global,
    kind: &str,
    input: &str,
) -> Result<Option<String>, OutOfMemory> {
    match kind {
        "JSON" => Ok(Some(of_row(alloc, input)?)),
        "JSON again" => Ok(Some(again(alloc, input)?)),
        "names of JSON" => Ok(Some(parts(alloc, input)?)),
        "JSON by hand" => Ok(Some(by_hand(alloc, input)?)),
        _ => Ok(None),
    }
}
