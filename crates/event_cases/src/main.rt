//! Cases of events: verdicts, what a changed configuration leaves, escalations, maintenances, correlation, the order of work, connections and command lines, as rows of text: what the contracts say of calls, shown on values that come from outside.
//!
//! A row that comes to something else than it says is printed with what it came to; at last the number of rows, and of
//! those that differ.
#![tactic(auto)]

mod carrying;
mod claims;
mod closings;
mod connections;
mod escalation_steps;
mod footprints;
mod links;
mod parts;
mod suppression;
mod verdicts;
mod words;

use crate::parts::{Came, told};
use case_rows::{Row, row_of};
use std::alloc::Global;
use std::io;
use zbx_types::OutOfMemory;

/// What a case of the order of work comes to; none where none of these kinds has this name.
fn of_work(alloc: Global, kind: &str, input: &str) -> Option<Came> {
    match kind {
        "claims" => Some(claims::claimed(alloc, input)),
        "conflicts" => Some(footprints::conflicts(alloc, input)),
        "links" => Some(links::found_in(alloc, input)),
        "connections" => Some(connections::turns(alloc, input)),
        _ => None,
    }
}

/// What the case of a row comes to; none where no kind has this name. At most one of these answers.
fn answer(alloc: Global, kind: &str, input: &str) -> Option<Came> {
    verdicts::answer(alloc, kind, input)
        .or(carrying::answer(alloc, kind, input))
        .or(closings::answer(alloc, kind, input))
        .or(escalation_steps::answer(alloc, kind, input))
        .or(suppression::answer(alloc, kind, input))
        .or(of_work(alloc, kind, input))
        .or(words::answer(alloc, kind, input))
}

/// What a row comes to.
fn came(alloc: Global, row: &Row<'_>) -> Result<String, OutOfMemory> {
    match answer(alloc, row.kind, row.input) {
        Some(came) => came,
        None => told(alloc, "no such kind"),
    }
}

/// What a row comes to, where that isn't what it says.
fn other(alloc: Global, row: &Row<'_>) -> Result<Option<String>, OutOfMemory> {
    let came = came(alloc, row)?;
    let is_same = came.as_str() == row.wanted;
    Ok((!is_same).then_some(came))
}

fn main(rt: HostRuntime) -> io::Result<()> {
    let alloc = rt.alloc();
    let mut count: u64 = 0;
    let mut differ: u64 = 0;
    for line in rt.lines(alloc) {
        let line = line?;
        if let Some(row) = row_of(line.as_str()) {
            count = count.saturating_add(1);
            let came = other(alloc, &row);
            let shown = match &came {
                Ok(None) => None,
                Ok(Some(came)) => Some(came.as_str()),
                Err(OutOfMemory) => Some("out of memory"),
            };
            if let Some(shown) = shown {
                differ = differ.saturating_add(1);
                println!(rt; "{line}: {shown}")?;
            }
            drop(came);
        }
    }
    println!(rt; "{count} rows, {differ} differ")
}
