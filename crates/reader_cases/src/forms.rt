//! Members of a small document, each read by a reader of its own.

ghost use Rattle.json_form.specs.Places.{number_between};
ghost use Rattle.json_form.specs.Wording.{first_of_word};
ghost use Rattle.std.specs.Prelude.{codes, ◌∷◌, [], true, false};

use case_rows::long_text;
use json_form::{At, Following, Object, ReadError, Texts, Words, distinct, list, parse, sequence};
use serde_json::Value;
use std::alloc::Global;
use std::convert::AsStr;
use zbx_types::{Cause, Many, OutOfMemory, Text};

/// `yes`, `no`.
struct Answers;

impl Words for Answers {
    type Meaning = bool;

    ghost meaning = { first_of_word ((codes "yes", true) ∷ (codes "no", false) ∷ []) };

    fn named(text: &str) -> Option<bool> {
        match text {
            "yes" => Some(true),
            "no" => Some(false),
            _ => None,
        }
    }
}

/// Numbers up to 100, none of them less than the one before.
struct RisingNumbers;

impl Following for RisingNumbers {
    type Made = u32;

    type Past = u32;

    ghost after = { λ _ number. number };

    ghost reads = { λ least at. number_between least 100 at };

    fn read(alloc: Global, past: &mut u32, path: &str, value: &Value) -> Result<u32, ReadError> {
        let number = At::here(path, value).number(alloc, *past, 100)?;
        *past = number;
        Ok(number)
    }
}

fn told(alloc: Global, is_true: bool) -> Result<String, ReadError> {
    Ok(String::from_str(alloc, if is_true { "true" } else { "false" })?)
}

/// Texts, each in quotes.
fn quoted(alloc: Global, texts: &[Text]) -> Result<String, ReadError> {
    let mut made = String::new(alloc);
    for text in texts {
        made.push('"')?;
        made.push_str(text.as_str())?;
        made.push('"')?;
    }
    Ok(made)
}

/// Numbers, each behind a space.
fn spaced(alloc: Global, numbers: &[u32]) -> Result<String, ReadError> {
    let mut made = String::new(alloc);
    for number in numbers {
        made.push_str(format!(in alloc; " {number}")?.as_str())?;
    }
    Ok(made)
}

fn title(alloc: Global, object: &Object<'_, '_>) -> Result<String, ReadError> {
    Ok(object.member("title").text(alloc)?.into_string())
}

fn note(alloc: Global, object: &Object<'_, '_>) -> Result<String, ReadError> {
    Ok(object.member("a/note~").text_or(alloc, "-")?.into_string())
}

fn shift(alloc: Global, object: &Object<'_, '_>) -> Result<String, ReadError> {
    let shift = object.member("shift").whole_or(alloc, -1, -9, 9)?;
    Ok(format!(in alloc; "{shift}")?)
}

fn size(alloc: Global, object: &Object<'_, '_>) -> Result<String, ReadError> {
    let size = object.member("size").number_or(alloc, 1, 0, 9)?;
    Ok(format!(in alloc; "{size}")?)
}

fn open(alloc: Global, object: &Object<'_, '_>) -> Result<String, ReadError> {
    told(alloc, object.member("open").truth_or(alloc, true)?)
}

fn answered(alloc: Global, object: &Object<'_, '_>) -> Result<String, ReadError> {
    told(
        alloc,
        object.member("answer").word_or::<Answers>(alloc, true)?,
    )
}

fn texts(alloc: Global, object: &Object<'_, '_>) -> Result<String, ReadError> {
    let at = object.member("texts").at_most(alloc, 2, Cause::TooMany)?;
    let texts = list::<Texts>(alloc, &at)?;
    quoted(alloc, texts.as_slice())
}

fn names(alloc: Global, object: &Object<'_, '_>) -> Result<String, ReadError> {
    let at = object.member("names").not_empty(alloc)?;
    let names = distinct::<Texts>(alloc, &at)?;
    quoted(alloc, names.as_slice())
}

fn numbers(alloc: Global, object: &Object<'_, '_>) -> Result<String, ReadError> {
    let mut least = 0;
    let numbers = sequence::<RisingNumbers>(alloc, &mut least, &object.member("numbers"))?;
    spaced(alloc, numbers.as_slice())
}

/// What the reader of a member reads.
fn member(alloc: Global, name: &str, object: &Object<'_, '_>) -> Result<String, ReadError> {
    match name {
        "title" => title(alloc, object),
        "a/note~" => note(alloc, object),
        "shift" => shift(alloc, object),
        "size" => size(alloc, object),
        "open" => open(alloc, object),
        "answer" => answered(alloc, object),
        "texts" => texts(alloc, object),
        "names" => names(alloc, object),
        "numbers" => numbers(alloc, object),
        _ => Ok(String::from_str(alloc, "no such member")?),
    }
}

/// The same of a value.
fn of_value(alloc: Global, name: &str, value: &Value) -> Result<String, ReadError> {
    let object = Object::at(alloc, "", value)?;
    member(alloc, name, &object)
}

/// The same of a document, of 200 bytes at most.
fn of_document(alloc: Global, name: &str, text: &[u8]) -> Result<String, ReadError> {
    let value = parse(alloc, text, 200)?;
    let made = of_value(alloc, name, &value);
    drop(value);
    made
}

/// The same of a row, in which the document stands behind the name and a tab; or the pointer and the cause of a fault.
fn of_row(alloc: Global, input: &str) -> Result<String, OutOfMemory> {
    let (name, text) = input.split_once('\t').unwrap_or((input, ""));
    let text = long_text(alloc, text)?;
    match of_document(alloc, name, text.as_bytes()) {
        Ok(read) => Ok(read),
        Err(ReadError::Refused { path, cause }) => {
            Ok(format!(in alloc; "{path} {cause:?}", path = path.as_str())?)
        }
        Err(ReadError::OutOfMemory) => Err(OutOfMemory),
    }
}

/// What a case of members comes to.
pub(crate) fn answer(
    alloc: Global,
    kind: &str,
    input: &str,
) -> Result<Option<String>, OutOfMemory> {
    if kind != "member" {
        return Ok(None);
    }
    Ok(Some(of_row(alloc, input)?))
}
