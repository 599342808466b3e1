//! Cases of values: numbers, texts, moments, expressions, functions, patterns and the cells that hold items' values, as rows of text: what the contracts say of calls, shown on values that come from outside.
//!
//! A row that comes to something else than it says is printed with what it came to; at last the number of rows, and of
//! those that differ.
#![tactic(auto)]

mod cells;
mod expressions;
mod functions;
mod moments;
mod numbers;
mod patterns;
mod plain;
mod texts;

use case_rows::{Row, row_of};
use std::alloc::Global;
use std::io;
use zbx_types::OutOfMemory;

/// What a case of plain values comes to; none where none of these kinds has this name.
fn of_plain(alloc: Global, kind: &str, input: &str) -> Result<Option<String>, OutOfMemory> {
    if let Some(came) = numbers::answer(alloc, kind, input)? {
        return Ok(Some(came));
    }
    if let Some(came) = texts::answer(alloc, kind, input)? {
        return Ok(Some(came));
    }
    if let Some(came) = moments::answer(alloc, kind, input)? {
        return Ok(Some(came));
    }
    plain::answer(alloc, kind, input)
}

/// What a case of values over time comes to.
fn of_history(alloc: Global, kind: &str, input: &str) -> Result<Option<String>, OutOfMemory> {
    if let Some(came) = expressions::answer(alloc, kind, input)? {
        return Ok(Some(came));
    }
    if let Some(came) = cells::answer(alloc, kind, input)? {
        return Ok(Some(came));
    }
    if let Some(came) = patterns::answer(alloc, kind, input)? {
        return Ok(Some(came));
    }
    functions::answer(alloc, kind, input)
}

/// What the case of a row comes to; none where no kind has this name.
fn answer(alloc: Global, kind: &str, input: &str) -> Result<Option<String>, OutOfMemory> {
    if let Some(came) = of_plain(alloc, kind, input)? {
        return Ok(Some(came));
    }
    of_history(alloc, kind, input)
}

/// What a row comes to, where that isn't what it says.
fn other(alloc: Global, row: &Row<'_>) -> Result<Option<String>, OutOfMemory> {
    match answer(alloc, row.kind, row.input)? {
        Some(came) if came.as_str() == row.wanted => Ok(None),
        Some(came) => Ok(Some(came)),
        None => Ok(Some(String::from_str(alloc, "no such kind")?)),
    }
}

fn main(rt: HostRuntime) -> io::Result<()> {
    let alloc = rt.alloc();
    let mut count: u64 = 0;
    let mut differ: u64 = 0;
    for line in rt.lines(alloc) {
        let line = line?;
        if let Some(row) = row_of(line.as_str()) {
            count = count.saturating_add(1);
            match other(alloc, &row) {
                Ok(None) => {}
                Ok(Some(came)) => {
                    differ = differ.saturating_add(1);
                    println!(rt; "{line}: {came}")?;
                }
                Err(OutOfMemory) => {
                    differ = differ.saturating_add(1);
                    println!(rt; "{line}: out of memory")?;
                }
            }
        }
    }
    println!(rt; "{count} rows, {differ} differ")
}
