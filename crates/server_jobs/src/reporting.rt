//! The line that a call for alerts prints.

ghost use Rattle.std.specs.Prelude.{◌≡◌, ◌≢◌, IfOk};
ghost use Rattle.outside.specs.Causes.{Rose};
ghost use Rattle.server_words.specs.declared.status.Status.TheVariants as Status;
ghost use Rattle.server_jobs.specs.Reports.{is_done, is_failed, count_done, count_failed, line_of, cut_short, EndsPrinted, Prints};

use alert_queue::{Mark, NoteMark};
use outside::{Failed, Sink};
use server_words::{Counts, Status, printed, printed_alerts};
use std::alloc::Global;
use std::convert::AsStr;
use whole_texts::write_all;
use zbx_types::{OutOfMemory, Text};

/// Whether a mark says that a note was sent.
fn is_done(mark: Mark) -> bool
    ensures { result ≡ is_done mark }
{
    match mark {
        Mark::Done => true,
        Mark::Failed => false,
    }
}

/// Whether it says that the note failed.
fn is_failed(mark: Mark) -> bool
    ensures { result ≡ is_failed mark }
{
    match mark {
        Mark::Done => false,
        Mark::Failed => true,
    }
}

/// How many marks say that a note was sent.
fn count_done(marks: &[NoteMark]) -> usize
    ensures { result ≡ count_done marks.now }
{
    marks.iter().filter(|mark| is_done(mark.mark)).count()
}

/// How many say that it failed.
fn count_failed(marks: &[NoteMark]) -> usize
    ensures { result ≡ count_failed marks.now }
{
    marks.iter().filter(|mark| is_failed(mark.mark)).count()
}

/// The line of a status.
fn line_of(alloc: Global, status: &Status, marks: &[NoteMark]) -> Result<Text, OutOfMemory>
    ensures { IfOk result (λ line. line ≡ line_of status.now marks.now) }
{
    if *status == Status::Ok {
        let messages = marks.len() as u64;
        let done = count_done(marks) as u64;
        let failed = count_failed(marks) as u64;
        return printed_alerts(alloc, messages, done, failed);
    }
    let nothing = Counts {
        entries: 0,
        problems: 0,
        recoveries: 0,
        messages: 0,
        bytes: 0,
    };
    printed(alloc, status, &nothing)
}

/// What a status is whose line couldn't be printed whole: that of a call that ended well is one of the printer then.
fn cut_short(status: Status) -> Status
    ensures { result ≡ cut_short status }
{
    match status {
        Status::Ok => Status::PrintFault,
        other => other,
    }
}

/// Prints the line of a status, and answers what it is then.
pub(crate) fn report<P: Sink>(
    alloc: Global,
    status: Status,
    marks: &[NoteMark],
    print: &mut P,
) -> Status
    requires { status ≢ Status.PrintFault }
    ensures ends { EndsPrinted status result }
    ensures cause { result ≡ Status.PrintFault → Rose (P.tells print.old).faults (P.tells print.new).faults }
    ensures printed { Prints result marks.now (P.tells print.old) (P.tells print.new) }
{
    let Ok(line) = line_of(alloc, &status, marks) else {
        return Status::OutOfMemory;
    };
    match write_all(print, line.as_str().as_bytes()) {
        Ok(()) => status,
        Err(Failed) => cut_short(status),
    }
}
