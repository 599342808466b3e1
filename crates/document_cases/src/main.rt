//! Cases of documents: what they are read as, part by part, and how their templates are laid out over hosts, as rows of text: what the contracts say of calls, shown on values that come from outside.
//!
//! A row that comes to something else than it says is printed with what it came to; at last the number of rows, and of
//! those that differ.
#![tactic(auto)]

mod documents;
mod hosts;
mod layouts;
mod rules;

use case_rows::{Row, row_of};
use std::alloc::Global;
use std::io;
use zbx_types::OutOfMemory;

/// What the case of a row comes to; none where no kind has this name.
fn answer(alloc: Global, kind: &str, input: &str) -> Result<Option<String>, OutOfMemory> {
    if let Some(came) = documents::answer(alloc, kind, input)? {
        return Ok(Some(came));
    }
    layouts::answer(alloc, kind, input)
}

/// What a row comes to, where that isn't what it says.
fn other(alloc: Global, row: &Row<'_>) -> Result<Option<String>, OutOfMemory> {
    match answer(alloc, row.kind, row.input)? {
        Some(came) if came.as_str() == row.wanted => Ok(None),
        Some(came) => Ok(Some(came)),
        None => Ok(Some(String::from_str(alloc, "no such kind")?)),
    }
}

fn main(rt: HostRuntime) -> io::Result<()> {
    let alloc = rt.alloc();
    let mut count: u64 = 0;
    let mut differ: u64 = 0;
    for line in rt.lines(alloc) {
        let line = line?;
        if let Some(row) = row_of(line.as_str()) {
            count = count.saturating_add(1);
            match other(alloc, &row) {
                Ok(None) => {}
                Ok(Some(came)) => {
                    differ = differ.saturating_add(1);
                    println!(rt; "{line}: {came}")?;
                }
                Err(OutOfMemory) => {
                    differ = differ.saturating_add(1);
                    println!(rt; "{line}: out of memory")?;
                }
            }
        }
    }
    println!(rt; "{count} rows, {differ} differ")
}
