//! The line that a run prints.

ghost use Rattle.std.specs.Prelude.{◌≡◌, ◌++◌, OnOk, IfOk, codes};
ghost use Rattle.server_words.specs.Printed.{printed_text, alerts_text, copy_text, ok_text, refused_text, reason_text, cause_text, count_text, path_text, first_counts, last_counts};

use crate::status::{Counts, Status};
use std::alloc::Global;
use std::convert::AsStr;
use zbx_types::{Cause, OutOfMemory, Text};

#[tactic(auto, unfolding(crate::specs::Printed::count_text))]
fn put_count(line: &mut Text, name: &str, count: u64) -> Result<(), OutOfMemory>
    ensures { OnOk result (line.new ≡ line.old ++ count_text name.now count) }
{
    line.push_str(name)?;
    line.push_decimal(count)
}

fn put_end(line: &mut Text) -> Result<(), OutOfMemory>
    ensures { OnOk result (line.new ≡ line.old ++ codes "\n") }
{
    line.push_str("\n")
}

fn put_first(line: &mut Text, counts: &Counts) -> Result<(), OutOfMemory>
    ensures { OnOk result (line.new ≡ line.old ++ first_counts counts.now) }
{
    put_count(line, "status: Ok; entries: ", counts.entries)?;
    put_count(line, "; problems: ", counts.problems)?;
    put_count(line, "; recoveries: ", counts.recoveries)
}

fn put_last(line: &mut Text, counts: &Counts) -> Result<(), OutOfMemory>
    ensures { OnOk result (line.new ≡ line.old ++ last_counts counts.now) }
{
    put_count(line, "; messages: ", counts.messages)?;
    put_count(line, "; outbox bytes: ", counts.bytes)?;
    put_end(line)
}

fn ok_line(alloc: Global, counts: &Counts) -> Result<Text, OutOfMemory>
    ensures { IfOk result (λ line. line ≡ ok_text counts.now) }
{
    let mut line = Text::new(alloc);
    put_first(&mut line, counts)?;
    put_last(&mut line, counts)?;
    Ok(line)
}

fn put_cause(line: &mut Text, cause: Cause) -> Result<(), OutOfMemory>
    ensures { OnOk result (line.new ≡ line.old ++ cause_text cause) }
{
    match cause {
        Cause::TooLong => line.push_str("TooLong"),
        Cause::NotJson => line.push_str("NotJson"),
        Cause::BadMember => line.push_str("BadMember"),
        Cause::Duplicate => line.push_str("Duplicate"),
        Cause::TooMany => line.push_str("TooMany"),
        Cause::UnknownName => line.push_str("UnknownName"),
        Cause::Cycle => line.push_str("Cycle"),
        Cause::BadKey { at } => put_count(line, "BadKey at ", u64::from(at)),
        Cause::TooDeep => line.push_str("TooDeep"),
        Cause::BadPath { at } => put_count(line, "BadPath at ", u64::from(at)),
        Cause::BadExpression { at } => put_count(line, "BadExpression at ", u64::from(at)),
        Cause::WrongValueType => line.push_str("WrongValueType"),
    }
}

fn put_reason(line: &mut Text, cause: Cause) -> Result<(), OutOfMemory>
    ensures { OnOk result (line.new ≡ line.old ++ reason_text cause) }
{
    line.push_str("; cause: ")?;
    put_cause(line, cause)?;
    put_end(line)
}

#[tactic(auto, using(std::proofs::lemmas::List::append_assoc))]
fn refused_line(alloc: Global, path: &Text, cause: Cause) -> Result<Text, OutOfMemory>
    ensures { IfOk result (λ line. line ≡ refused_text path.now cause) }
{
    let mut line = Text::of(alloc, "status: ConfigRefused; path: ")?;
    line.push_str(path.as_str())?;
    put_reason(&mut line, cause)?;
    Ok(line)
}

/// The line of a pattern that can't be used, or of media that are refused, from the text before the path on.
fn path_line(alloc: Global, name: &str, path: &Text) -> Result<Text, OutOfMemory>
    ensures { IfOk result (λ line. line ≡ path_text name.now path.now) }
{
    let mut line = Text::of(alloc, name)?;
    line.push_str(path.as_str())?;
    put_end(&mut line)?;
    Ok(line)
}

/// A line that ends with one number, from the text before it on.
fn count_line(alloc: Global, name: &str, count: u64) -> Result<Text, OutOfMemory>
    ensures { IfOk result (λ line. line ≡ count_text name.now count ++ codes "\n") }
{
    let mut line = Text::new(alloc);
    put_count(&mut line, name, count)?;
    put_end(&mut line)?;
    Ok(line)
}

/// A line that ends with two numbers, from the text before the first one on.
fn two_counts_line(
    alloc: Global,
    name: &str,
    count: u64,
    next: &str,
    last: u64,
) -> Result<Text, OutOfMemory>
    ensures { IfOk result (λ line. line ≡ count_text name.now count ++ count_text next.now last ++ codes "\n") }
{
    let mut line = Text::new(alloc);
    put_count(&mut line, name, count)?;
    put_count(&mut line, next, last)?;
    put_end(&mut line)?;
    Ok(line)
}

/// The line that a run prints last, with its line feed: `status: ` and the status, for Ok the counts, for ConfigRefused
/// the path and the cause, with ` at ` and its place where it has one, and for another status that has fields each of
/// these behind its name. It is empty for PrintFault. [`OutOfMemory`] where there is no room for it.
pub fn printed(alloc: Global, status: &Status, counts: &Counts) -> Result<Text, OutOfMemory>
    ensures { IfOk result (λ line. line ≡ printed_text status.now counts.now) }
{
    match status {
        Status::Ok => ok_line(alloc, counts),
        Status::Usage => Text::of(alloc, "status: Usage\n"),
        Status::ConfigRefused { path, cause } => refused_line(alloc, path, *cause),
        Status::PatternRefused { path } => path_line(alloc, "status: PatternRefused; path: ", path),
        Status::PatternTooLarge { path } => path_line(
            alloc,
            "status: PatternTooLarge; path: ",
            path,
        ),
        Status::SourceFault => Text::of(alloc, "status: SourceFault\n"),
        Status::NotOurs => Text::of(alloc, "status: NotOurs\n"),
        Status::Unfinished => Text::of(alloc, "status: Unfinished\n"),
        Status::Damaged { at } => count_line(alloc, "status: Damaged; at: ", *at),
        Status::OutboxAhead { held, lines } => two_counts_line(
            alloc,
            "status: OutboxAhead; held: ",
            *held,
            "; lines: ",
            *lines,
        ),
        Status::OutboxBehind { held, base } => two_counts_line(
            alloc,
            "status: OutboxBehind; held: ",
            *held,
            "; base: ",
            *base,
        ),
        Status::OutboxDiffers { at } => count_line(alloc, "status: OutboxDiffers; at: ", *at),
        Status::DiskFault => Text::of(alloc, "status: DiskFault\n"),
        Status::Full { entries, bytes } => two_counts_line(
            alloc,
            "status: Full; entries: ",
            *entries,
            "; bytes: ",
            *bytes,
        ),
        Status::WireFault => Text::of(alloc, "status: WireFault\n"),
        Status::OutboxFault => Text::of(alloc, "status: OutboxFault\n"),
        Status::PrintFault => Ok(Text::new(alloc)),
        Status::TurnLimit => Text::of(alloc, "status: TurnLimit\n"),
        Status::OutOfMemory => Text::of(alloc, "status: OutOfMemory\n"),
        Status::BadLine { at } => count_line(alloc, "status: BadLine; at: ", *at),
        Status::MarksAhead { marks, messages } => two_counts_line(
            alloc,
            "status: MarksAhead; marks: ",
            *marks,
            "; messages: ",
            *messages,
        ),
        Status::LinesTooLong => Text::of(alloc, "status: LinesTooLong\n"),
        Status::MediaRefused { path } => path_line(alloc, "status: MediaRefused; path: ", path),
        Status::NotEmpty { bytes } => count_line(alloc, "status: NotEmpty; bytes: ", *bytes),
        Status::NoEntries => Text::of(alloc, "status: NoEntries\n"),
    }
}

/// The line of a journal that was copied: the number of its last entry, and how many bytes all its lines have. Any other
/// status of a copy has the line that [`printed`] gives.
pub fn printed_copy(alloc: Global, number: u64, lines: u64) -> Result<Text, OutOfMemory>
    ensures { IfOk result (λ line. line ≡ copy_text number lines) }
{
    two_counts_line(alloc, "status: Ok; number: ", number, "; lines: ", lines)
}

fn put_marks(line: &mut Text, messages: u64, done: u64, failed: u64) -> Result<(), OutOfMemory>
    ensures { OnOk result (line.new ≡ line.old ++ (count_text (codes "status: Ok; messages: ") messages ++ count_text (codes "; done: ") done ++ count_text (codes "; failed: ") failed)) }
{
    put_count(line, "status: Ok; messages: ", messages)?;
    put_count(line, "; done: ", done)?;
    put_count(line, "; failed: ", failed)
}

/// The line of alerts that ended well: how many messages there are, how many were sent, and how many failed.
#[tactic(auto, using(std::proofs::lemmas::List::append_assoc))]
pub fn printed_alerts(
    alloc: Global,
    messages: u64,
    done: u64,
    failed: u64,
) -> Result<Text, OutOfMemory>
    ensures { IfOk result (λ line. line ≡ alerts_text messages done failed) }
{
    let mut line = Text::new(alloc);
    put_marks(&mut line, messages, done, failed)?;
    put_end(&mut line)?;
    Ok(line)
}
