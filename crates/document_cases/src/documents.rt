//! What documents are read as, part by part.

use crate::{hosts, rules};
use config_read::{RawConf, ReadError, read};
use std::alloc::Global;
use std::convert::AsStr;
use zbx_types::{Many, OutOfMemory, Text};

/// Adds a space and a word.
pub(crate) fn put_word(out: &mut Text, word: &str) -> Result<(), OutOfMemory> {
    out.push_str(" ")?;
    out.push_str(word)
}

/// Adds a space and a number.
pub(crate) fn put_number(out: &mut Text, number: u32) -> Result<(), OutOfMemory> {
    out.push_str(" ")?;
    out.push_decimal(u64::from(number))
}

/// Adds a space and how many there are.
pub(crate) fn put_length(out: &mut Text, length: usize) -> Result<(), OutOfMemory> {
    out.push_str(" ")?;
    out.push_decimal(length as u64)
}

/// Adds a space and a text in quotes.
pub(crate) fn put_text(out: &mut Text, text: &Text) -> Result<(), OutOfMemory> {
    out.push_str(" \"")?;
    out.push_str(text.as_str())?;
    out.push_str("\"")
}

/// Adds a space and texts in brackets.
pub(crate) fn put_texts(out: &mut Text, texts: &Many<Text>) -> Result<(), OutOfMemory> {
    out.push_str(" [")?;
    for text in texts.as_slice() {
        put_text(out, text)?;
    }
    out.push_str(" ]")
}

/// Adds a space and `on` or `off`.
pub(crate) fn put_state(out: &mut Text, is_on: bool) -> Result<(), OutOfMemory> {
    put_word(out, if is_on { "on" } else { "off" })
}

/// Adds a name and how many there are.
fn put_count(out: &mut Text, name: &str, count: usize) -> Result<(), OutOfMemory> {
    put_word(out, name)?;
    put_length(out, count)
}

/// Adds the size of each list of a document.
fn put_counts(out: &mut Text, conf: &RawConf) -> Result<(), OutOfMemory> {
    put_count(out, "macros", conf.macros.len())?;
    put_count(out, "templates", conf.templates.len())?;
    put_count(out, "hosts", conf.hosts.len())?;
    put_count(out, "correlations", conf.correlations.len())?;
    put_count(out, "maintenances", conf.maintenances.len())?;
    put_count(out, "actions", conf.actions.len())
}

/// Adds the part of a document that has a name.
fn put_part(out: &mut Text, name: &str, conf: &RawConf) -> Result<(), OutOfMemory> {
    match name {
        "counts" => put_counts(out, conf),
        "macros" => hosts::put_macros(out, conf.macros.as_slice()),
        "templates" => hosts::put_hosts(out, conf.templates.as_slice()),
        "hosts" => hosts::put_hosts(out, conf.hosts.as_slice()),
        "items" => hosts::put_all_items(out, conf.hosts.as_slice()),
        "triggers" => hosts::put_all_triggers(out, conf.hosts.as_slice()),
        "correlations" => rules::put_correlations(out, conf.correlations.as_slice()),
        "maintenances" => rules::put_maintenances(out, conf.maintenances.as_slice()),
        "actions" => rules::put_actions(out, conf.actions.as_slice()),
        _ => out.push_str("no such part"),
    }
}

/// The difference to UTC of a document, and a part of it.
fn part(alloc: Global, name: &str, conf: &RawConf) -> Result<String, OutOfMemory> {
    let offset = format!(in alloc; "{offset}", offset = conf.utc_offset)?;
    let mut out = Text::of(alloc, offset.as_str())?;
    put_part(&mut out, name, conf)?;
    Ok(out.into_string())
}

/// The same of a text, or the pointer and the cause of its fault.
fn of_text(alloc: Global, name: &str, text: &str) -> Result<String, OutOfMemory> {
    match read(alloc, text.as_bytes()) {
        Ok(conf) => {
            let made = part(alloc, name, &conf);
            drop(conf);
            made
        }
        Err(ReadError::Refused { path, cause }) => {
            Ok(format!(in alloc; "{path} {cause:?}", path = path.as_str())?)
        }
        Err(ReadError::OutOfMemory) => Err(OutOfMemory),
    }
}

/// What a case of documents comes to.
pub(crate) fn answer(
    alloc: Global,
    kind: &str,
    input: &str,
) -> Result<Option<String>, OutOfMemory> {
    match kind.strip_prefix("document's ") {
        Some(name) => Ok(Some(of_text(alloc, name, input)?)),
        None => Ok(None),
    }
}
