//! What a path finds in the text of a value (the Zabbix 6.0 manual, "Preprocessing details").

ghost use Rattle.std.specs.Prelude.{◌≡◌, ◌≢◌, ℕ, List, IfOk, option_copied};
ghost use Rattle.json_text.specs.Trees.{json_of};
ghost use Rattle.json_path.specs.Results.{select_of};
ghost use Rattle.preprocess.specs.Readings.{json_in, path_in};
ghost use Rattle.preprocess.specs.JsonSteps.{found_of, found_in, selected, error_in, json_checked};
ghost use Rattle.preprocess.specs.Parsing.{IsParsed};

use json_path::{LONGEST_PATH, Path, PathError, SelectError};
use json_text::{ReadError, Tree};
use prep_steps::{Outcome, fail, pass, unless};
use std::alloc::Global;
use std::convert::AsStr;
use zbx_types::{Bytes, OutOfMemory, Text};

/// What a path finds in a text.
#[derive(Drop)]
pub(crate) enum Found {
    /// The text is no JSON.
    NotJson,
    /// Nothing is selected.
    NoValue,
    /// A function of numbers works on a value that is none.
    NotNumber,
    /// This text.
    Words(Text),
}

/// What is known of a text as JSON.
#[derive(Drop)]
pub(crate) enum Parsed {
    /// It hasn't been read.
    Unread,
    /// It is none.
    NotJson,
    /// It is this value.
    Json(Tree),
}

/// What a path finds, and what is known of the text then.
#[derive(Drop)]
pub(crate) struct Looked {
    pub(crate) found: Found,
    pub(crate) parsed: Parsed,
}

/// What a text is as JSON.
#[tactic(auto, using(crate::proofs::Reading::json_is, crate::proofs::Reading::no_json))]
fn parse(alloc: Global, text: &Text) -> Result<Parsed, OutOfMemory>
    ensures is { IfOk result (λ parsed. IsParsed text.now parsed) }
    ensures read { IfOk result (λ parsed. parsed ≢ Parsed.Unread) }
{
    match json_text::read(alloc, text.as_bytes()) {
        Ok(tree) => Ok(Parsed::Json(tree)),
        Err(ReadError::At(_)) => Ok(Parsed::NotJson),
        Err(ReadError::OutOfMemory) => Err(OutOfMemory),
    }
}

/// The path that a text is, or None where it is none. [`OutOfMemory`] where there is no room for the path.
#[tactic(auto, using(crate::proofs::Reading::path_is, crate::proofs::Reading::no_path, crate::proofs::Reading::long_path))]
pub(crate) fn path_of(alloc: Global, text: &str) -> Result<Option<Path>, OutOfMemory>
    ensures { IfOk result (λ path. path ≡ path_in text.now) }
{
    if text.len() > LONGEST_PATH as usize {
        return Ok(None);
    }
    match json_path::read(alloc, text.as_bytes()) {
        Ok(path) => Ok(Some(path)),
        Err(PathError::At(_)) => Ok(None),
        Err(PathError::OutOfMemory) => Err(OutOfMemory),
    }
}

/// Bytes of a selected value as a text. Selected values are UTF-8, so that no other answer than want of memory comes of
/// bytes that aren't.
fn words(alloc: Global, bytes: &Bytes) -> Result<Found, OutOfMemory>
    ensures { IfOk result (λ found. found ≡ Found.Words bytes.now) }
{
    match Text::from_utf8(alloc, bytes.as_slice())? {
        Some(text) => Ok(Found::Words(text)),
        None => Err(OutOfMemory),
    }
}

/// What a path selects of a value of JSON.
fn find(alloc: Global, tree: &Tree, path: &Path) -> Result<Found, OutOfMemory>
    ensures { IfOk result (λ found. found ≡ found_of (select_of (json_of tree.now) path.now)) }
{
    match json_path::select(alloc, tree, path) {
        Ok(bytes) => words(alloc, &bytes),
        Err(SelectError::NoMatch) => Ok(Found::NoValue),
        Err(SelectError::NotNumber) => Ok(Found::NotNumber),
        Err(SelectError::OutOfMemory) => Err(OutOfMemory),
    }
}

/// What a path finds in a text of which this is known; there may be no path.
fn find_in(alloc: Global, parsed: &Parsed, path: Option<&Path>) -> Result<Found, OutOfMemory>
    ensures { IfOk result (λ found. (text : List ℕ) → IsParsed text parsed.now → parsed.now ≢ Parsed.Unread → found ≡ found_in (json_in text) (option_copied path.entry)) }
{
    match parsed {
        Parsed::Unread | Parsed::NotJson => Ok(Found::NotJson),
        Parsed::Json(tree) => match path {
            None => Ok(Found::NoValue),
            Some(path) => find(alloc, tree, path),
        },
    }
}

/// What is known of a text once it has been read.
fn read(alloc: Global, text: &Text, parsed: Parsed) -> Result<Parsed, OutOfMemory>
    requires { IsParsed text.now parsed }
    ensures is { IfOk result (λ now. IsParsed text.now now) }
    ensures read { IfOk result (λ now. now ≢ Parsed.Unread) }
{
    match parsed {
        Parsed::Unread => parse(alloc, text),
        Parsed::NotJson => Ok(Parsed::NotJson),
        Parsed::Json(tree) => Ok(Parsed::Json(tree)),
    }
}

/// What a path finds in a text, which is read where it hasn't been; there may be no path.
pub(crate) fn look(
    alloc: Global,
    text: &Text,
    parsed: Parsed,
    path: Option<&Path>,
) -> Result<Looked, OutOfMemory>
    requires { IsParsed text.now parsed }
    ensures found { IfOk result (λ looked. looked.found ≡ found_in (json_in text.now) (option_copied path.entry)) }
    ensures parsed { IfOk result (λ looked. IsParsed text.now looked.parsed) }
{
    let parsed = read(alloc, text, parsed)?;
    let found = find_in(alloc, &parsed, path)?;
    Ok(Looked { found, parsed })
}

/// The outcome of a JSONPath step.
pub(crate) fn select(alloc: Global, found: Found) -> Result<Outcome, OutOfMemory>
    ensures { IfOk result (λ outcome. outcome ≡ selected found) }
{
    match found {
        Found::NotJson => fail(alloc, "not JSON"),
        Found::NoValue => fail(alloc, "no value at the path"),
        Found::NotNumber => fail(alloc, "not a number"),
        Found::Words(text) => pass(alloc, text),
    }
}

fn error_in(found: Found) -> Option<Text>
    ensures { result ≡ error_in found }
{
    match found {
        Found::NotJson | Found::NoValue | Found::NotNumber => None,
        Found::Words(text) => Some(text),
    }
}

/// The outcome of a check for an error in JSON.
pub(crate) fn check(alloc: Global, found: Found, value: &Text) -> Result<Outcome, OutOfMemory>
    ensures { IfOk result (λ outcome. outcome ≡ json_checked found value.now) }
{
    unless(alloc, error_in(found), value.as_str())
}

/// What is known of the next text, where this is known of the one before it.
pub(crate) fn kept_parsed(before: &Text, next: &Text, parsed: Parsed) -> Parsed
    requires { IsParsed before.now parsed }
    ensures { IsParsed next.now result }
{
    if next == before {
        parsed
    } else {
        Parsed::Unread
    }
}
