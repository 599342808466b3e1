//! Cases of readers: what texts of each form are read as, where they go wrong, and what is written, as rows of text: what the contracts say of calls, shown on values that come from outside.
//!
//! A row that comes to something else than it says is printed with what it came to; at last the number of rows, and of
//! those that differ.
#![tactic(auto)]

mod bytes;
mod forms;
mod frames;
mod json_texts;
mod macros;
mod paths;
mod requests;
mod selections;

use case_rows::{Row, row_of};
use std::alloc::Global;
use std::io;
use zbx_types::OutOfMemory;

/// What a case of texts comes to; none where none of these kinds has this name.
fn of_texts(alloc: Global, kind: &str, input: &str) -> Result<Option<String>, OutOfMemory> {
    if let Some(came) = bytes::answer(alloc, kind, input)? {
        return Ok(Some(came));
    }
    if let Some(came) = json_texts::answer(alloc, kind, input)? {
        return Ok(Some(came));
    }
    if let Some(came) = paths::answer(alloc, kind, input)? {
        return Ok(Some(came));
    }
    selections::answer(alloc, kind, input)
}

/// What the case of a row comes to; none where no kind has this name.
fn answer(alloc: Global, kind: &str, input: &str) -> Result<Option<String>, OutOfMemory> {
    if let Some(came) = of_texts(alloc, kind, input)? {
        return Ok(Some(came));
    }
    if let Some(came) = frames::answer(alloc, kind, input)? {
        return Ok(Some(came));
    }
    if let Some(came) = requests::answer(alloc, kind, input)? {
        return Ok(Some(came));
    }
    if let Some(came) = macros::answer(alloc, kind, input)? {
        return Ok(Some(came));
    }
    forms::answer(alloc, kind, input)
}

/// What a row comes to, where that isn't what it says.
fn other(alloc: Global, row: &Row<'_>) -> Result<Option<String>, OutOfMemory> {
    match answer(alloc, row.kind, row.input)? {
        Some(came) if came.as_str() == row.wanted => Ok(None),
        Some(came) => Ok(Some(came)),
        None => Ok(Some(String::from_str(alloc, "no such kind")?)),
    }
}

fn main(rt: HostRuntime) -> io::Result<()> {
    let alloc = rt.alloc();
    let mut count: u64 = 0;
    let mut differ: u64 = 0;
    for line in rt.lines(alloc) {
        let line = line?;
        if let Some(row) = row_of(line.as_str()) {
            count = count.saturating_add(1);
            match other(alloc, &row) {
                Ok(None) => {}
                Ok(Some(came)) => {
                    differ = differ.saturating_add(1);
                    println!(rt; "{line}: {came}")?;
                }
                Err(OutOfMemory) => {
                    differ = differ.saturating_add(1);
                    println!(rt; "{line}: out of memory")?;
                }
            }
        }
    }
    println!(rt; "{count} rows, {differ} differ")
}
