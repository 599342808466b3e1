//! The line that a call for a copy prints.

ghost use Rattle.std.specs.Prelude.{◌≡◌, ◌≢◌, IfOk};
ghost use Rattle.outside.specs.Causes.{Rose};
ghost use Rattle.server_words.specs.declared.status.Status.TheVariants as Status;
ghost use Rattle.journal_copy.specs.Copies.{line_of, cut_short, MayEnd, Prints};

use outside::{Failed, Sink};
use server_words::{Counts, Status, printed, printed_copy};
use std::alloc::Global;
use std::convert::AsStr;
use whole_texts::write_all;
use zbx_types::{OutOfMemory, Text};

/// The line of a status.
fn line_of(alloc: Global, status: &Status, number: u64, lines: u64) -> Result<Text, OutOfMemory>
    ensures { IfOk result (λ line. line ≡ line_of number lines status.now) }
{
    if *status == Status::Ok {
        return printed_copy(alloc, number, lines);
    }
    let nothing = Counts {
        entries: 0,
        problems: 0,
        recoveries: 0,
        messages: 0,
        bytes: 0,
    };
    printed(alloc, status, &nothing)
}

/// What a status is whose line couldn't be printed whole: that of a call that ended well is one of the printer then.
fn cut_short(status: Status) -> Status
    ensures { result ≡ cut_short status }
{
    match status {
        Status::Ok => Status::PrintFault,
        other => other,
    }
}

/// Prints the line of a status, and answers what it is then.
#[tactic(auto, using(crate::proofs::Copies::prints_cut))]
pub(crate) fn report<P: Sink>(
    alloc: Global,
    status: Status,
    number: u64,
    lines: u64,
    print: &mut P,
) -> Status
    requires { status ≢ Status.PrintFault }
    ensures ends { MayEnd status result }
    ensures cause { result ≡ Status.PrintFault → Rose (P.tells print.old).faults (P.tells print.new).faults }
    ensures prints { Prints number lines (P.tells print.old) (P.tells print.new) result }
{
    let Ok(line) = line_of(alloc, &status, number, lines) else {
        return Status::OutOfMemory;
    };
    match write_all(print, line.as_str().as_bytes()) {
        Ok(()) => status,
        Err(Failed) => cut_short(status),
    }
}
