//! The words of the command line, and the statuses of a run.

use crate::parts::{Came, Piece, pieces, split, told};
use server_words::{
    Counts, Mode, Plan, PlanError, Status, checkpoint_plan, plan, printed, printed_copy,
};
use std::alloc::Global;
use std::convert::AsStr;
use zbx_types::{Cause, OutOfMemory, Text};

/// The reader of the words of a line.
struct WordReader;

impl Piece for WordReader {
    type Made = Text;

    fn read(alloc: Global, _place: u32, word: &str) -> Result<Text, OutOfMemory> {
        Text::of(alloc, word)
    }
}

/// What a line of words with blanks between asks of the server's run.
fn asked(alloc: Global, line: &str) -> Result<String, OutOfMemory> {
    let words = pieces::<WordReader>(alloc, line, ' ')?;
    planned(alloc, plan(alloc, words.as_slice()))
}

/// What it asks of a copy of a journal.
fn copy_asked(alloc: Global, line: &str) -> Result<String, OutOfMemory> {
    let words = pieces::<WordReader>(alloc, line, ' ')?;
    planned(alloc, checkpoint_plan(alloc, words.as_slice()))
}

/// What a plan says, or that there is none.
fn planned(alloc: Global, came: Result<Plan, PlanError>) -> Result<String, OutOfMemory> {
    match came {
        Ok(plan) => {
            let made = plan_line(alloc, &plan);
            drop(plan);
            made
        }
        Err(PlanError::Usage) => told(alloc, "Usage"),
        Err(PlanError::OutOfMemory) => Err(OutOfMemory),
    }
}

fn mode_of(plan: &Plan) -> &'static str {
    match plan.mode {
        Mode::Feed => "feed",
        Mode::Serve => "serve",
        Mode::Workload => "workload",
        Mode::Alerts => "alerts",
        Mode::Checkpoint => "checkpoint",
    }
}

fn shown(text: &Option<Text>) -> &str {
    match text {
        Some(text) => text.as_str(),
        None => "(none)",
    }
}

/// The mode of a plan, and what it may name: of a copy two paths, of a run paths, outbox and numbers.
fn plan_line(alloc: Global, plan: &Plan) -> Result<String, OutOfMemory> {
    if plan.mode == Mode::Checkpoint {
        return copy_line(alloc, plan);
    }
    Ok(format!(in alloc;
        "{} config {} script {} listen {} journal {} outbox {} {} {} {} {} {}",
        mode_of(plan),
        shown(&plan.config),
        shown(&plan.script),
        shown(&plan.listen),
        shown(&plan.journal),
        plan.outbox.as_str(),
        plan.syncers,
        plan.turns,
        plan.max_entries,
        plan.number,
        plan.values
    )?)
}

fn copy_line(alloc: Global, plan: &Plan) -> Result<String, OutOfMemory> {
    Ok(format!(in alloc;
        "{} journal {} into {}",
        mode_of(plan),
        shown(&plan.journal),
        shown(&plan.into)
    )?)
}

/// The status with an exit number, and 103 for a refusal without a place.
fn status_of(alloc: Global, number: u32) -> Result<Status, OutOfMemory> {
    Ok(match number {
        0 => Status::Ok,
        2 => Status::Usage,
        3 => Status::ConfigRefused {
            path: Text::of(alloc, "/hosts/0/items/0/key")?,
            cause: Cause::BadKey { at: 5 },
        },
        4 => Status::PatternRefused {
            path: Text::of(alloc, "/a")?,
        },
        26 => Status::PatternTooLarge {
            path: Text::of(alloc, "/a")?,
        },
        5 => Status::SourceFault,
        6 => Status::NotOurs,
        7 => Status::Damaged { at: 9 },
        9 => Status::OutboxAhead {
            held: 35,
            lines: 34,
        },
        10 => Status::DiskFault,
        11 => Status::OutboxFault,
        12 => Status::PrintFault,
        13 => Status::WireFault,
        14 => Status::Full {
            entries: 4_000_001,
            bytes: 18_446_744_073_709_551_615,
        },
        15 => Status::TurnLimit,
        16 => Status::OutOfMemory,
        18 => Status::OutboxBehind { held: 33, base: 34 },
        19 => Status::Unfinished,
        20 => Status::NotEmpty { bytes: 1 },
        21 => Status::NoEntries,
        22 => Status::BadLine { at: 34 },
        23 => Status::MarksAhead {
            marks: 2,
            messages: 1,
        },
        24 => Status::LinesTooLong,
        25 => Status::MediaRefused {
            path: Text::of(alloc, "/media/1/recipient")?,
        },
        27 => Status::OutboxDiffers { at: 35 },
        _ => Status::ConfigRefused {
            path: Text::of(alloc, "/hosts/0/items/0/key")?,
            cause: Cause::Duplicate,
        },
    })
}

/// A line without its line feed, and `$` where it has one.
fn marked(line: &Text) -> (&str, &str) {
    match line.as_str().strip_suffix('\n') {
        Some(front) => (front, "$"),
        None => (line.as_str(), ""),
    }
}

/// The exit number of a status and its printed line, over some counts, its line feed as `$`.
fn said(alloc: Global, number: u32) -> Result<String, OutOfMemory> {
    let status = status_of(alloc, number)?;
    let counts = Counts {
        entries: 3,
        problems: 1,
        recoveries: 0,
        messages: 0,
        bytes: 34,
    };
    let exit = status.exit();
    let line = printed(alloc, &status, &counts);
    drop(status);
    let line = line?;
    let (front, end) = marked(&line);
    Ok(format!(in alloc; "{exit} {front}{end}")?)
}

/// The printed line of a journal that was copied: the number of its last entry, and how many bytes its lines have.
fn copied(alloc: Global, input: &str) -> Result<String, OutOfMemory> {
    let (number, lines) = split(input, ' ');
    let line = printed_copy(
        alloc,
        number.parse().unwrap_or(0),
        lines.parse().unwrap_or(0),
    )?;
    let (front, end) = marked(&line);
    Ok(format!(in alloc; "{front}{end}")?)
}

/// What a case of words, of statuses or of copies comes to.
pub(crate) fn answer(alloc: Global, kind: &str, input: &str) -> Option<Came> {
    match kind {
        "words" => Some(asked(alloc, input)),
        "words of a copy" => Some(copy_asked(alloc, input)),
        "copied" => Some(copied(alloc, input)),
        "status" => Some(said(alloc, input.parse().unwrap_or(103))),
        _ => None,
    }
}
