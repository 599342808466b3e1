//! Messages about problems and their recovery.

ghost use Rattle.std.specs.Prelude.{◌≡◌, ◌++◌, ◌∷◌, ◌≤◌, [], IfOk, OnOk, length};
ghost use Rattle.std.specs.List.{flat_map};
ghost use Rattle.std.specs.Option.{option_map_or};
ghost use Rattle.zbx_types.specs.Records.{host_of};
ghost use Rattle.event_text.specs.Lines.{event_text_of};
ghost use Rattle.event_text.specs.Messages.{is_problem, event_name, severity_of, began_at, severity_name, tag_text, further_tag};
ghost use Rattle.event_text.specs.Messages.{tags_text, date_of, time_of, shown_at, word_text, resolved, message_of};

use crate::braces::split_at;
use crate::clocks::{put_date, put_time, shown_at};
use crate::words::{Word, told_at};
use std::alloc::Global;
use std::convert::AsStr;
use zbx_types::{Conf, EventId, Moment, OutOfMemory, Rec, Tag, Text};

/// Whether a record is a problem.
fn is_problem(rec: &Rec) -> bool
    ensures { result ≡ is_problem rec.now }
{
    match rec {
        Rec::Problem { .. } => true,
        Rec::Failure { .. } | Rec::Recovery { .. } | Rec::Step { .. } | Rec::Message { .. } => {
            false
        }
    }
}

/// The name of a problem's event.
fn event_name(problem: &Rec) -> &str
    ensures { result.now ≡ event_name problem.now }
{
    match problem {
        Rec::Problem { name, .. } => name.as_str(),
        Rec::Failure { .. } | Rec::Recovery { .. } | Rec::Step { .. } | Rec::Message { .. } => "",
    }
}

/// The name of a problem's host.
fn host_of(problem: &Rec) -> &str
    ensures { result.now ≡ host_of problem.now }
{
    match problem {
        Rec::Problem { host, .. } => host.as_str(),
        Rec::Failure { .. } | Rec::Recovery { .. } | Rec::Step { .. } | Rec::Message { .. } => "",
    }
}

/// A problem's severity.
fn severity_of(problem: &Rec) -> u8
    ensures { result ≡ severity_of problem.now }
{
    match problem {
        Rec::Problem { severity, .. } => *severity,
        Rec::Failure { .. } | Rec::Recovery { .. } | Rec::Step { .. } | Rec::Message { .. } => 0,
    }
}

/// When a problem began.
fn began_at(problem: &Rec) -> Moment
    ensures { result ≡ began_at problem.now }
{
    match problem {
        Rec::Problem { now, .. } => *now,
        Rec::Failure { .. } | Rec::Recovery { .. } | Rec::Step { .. } | Rec::Message { .. } => {
            Moment::zero()
        }
    }
}

/// The name of a severity.
fn severity_name(severity: u8) -> &'static str
    ensures { result.now ≡ severity_name severity }
{
    match severity {
        0 => "Not classified",
        1 => "Information",
        2 => "Warning",
        3 => "Average",
        4 => "High",
        _ => "Disaster",
    }
}

/// Adds an event.
fn put_event(event: EventId, made: &mut Text) -> Result<(), OutOfMemory>
    ensures { OnOk result (made.new ≡ made.old ++ event_text_of event) }
{
    made.push_decimal(event.number)?;
    made.push_str("-")?;
    made.push_decimal(u64::from(event.trigger))
}

/// Adds a tag.
fn put_tag(tag: &Tag, made: &mut Text) -> Result<(), OutOfMemory>
    ensures { OnOk result (made.new ≡ made.old ++ tag_text tag.now) }
{
    made.push_str(tag.tag.as_str())?;
    if tag.value.len() == 0 {
        return Ok(());
    }
    made.push_str(":")?;
    made.push_str(tag.value.as_str())
}

/// Adds a tag behind others.
fn put_further_tag(tag: &Tag, made: &mut Text) -> Result<(), OutOfMemory>
    ensures { OnOk result (made.new ≡ made.old ++ further_tag tag.now) }
{
    made.push_str(", ")?;
    put_tag(tag, made)
}

/// Adds tags behind others.
fn put_further_tags(tags: &[Tag], made: &mut Text) -> Result<(), OutOfMemory>
    ensures { OnOk result (made.new ≡ made.old ++ flat_map further_tag tags.now) }
{
    for tag in tags {
        put_further_tag(tag, made)?;
    }
    Ok(())
}

/// Adds tags.
fn put_tags(tags: &[Tag], made: &mut Text) -> Result<(), OutOfMemory>
    ensures { OnOk result (made.new ≡ made.old ++ tags_text tags.now) }
{
    match tags {
        [] => Ok(()),
        [first, more @ ..] => {
            put_tag(first, made)?;
            put_further_tags(more, made)
        }
    }
}

/// Adds the date of the recovery, where there is one.
fn put_recovery_date(
    conf: &Conf,
    recovered: &Option<Moment>,
    made: &mut Text,
) -> Result<(), OutOfMemory>
    ensures { OnOk result (made.new ≡ made.old ++ option_map_or (λ moment. date_of (shown_at conf.now moment)) recovered.now []) }
{
    match recovered {
        Some(moment) => put_date(shown_at(conf, *moment), made),
        None => Ok(()),
    }
}

/// Adds the time of the recovery, where there is one.
fn put_recovery_time(
    conf: &Conf,
    recovered: &Option<Moment>,
    made: &mut Text,
) -> Result<(), OutOfMemory>
    ensures { OnOk result (made.new ≡ made.old ++ option_map_or (λ moment. time_of (shown_at conf.now moment)) recovered.now []) }
{
    match recovered {
        Some(moment) => put_time(shown_at(conf, *moment), made),
        None => Ok(()),
    }
}

/// Adds what a macro stands for.
#[tactic(auto, unfolding(crate::specs::Messages::word_text))]
fn put_word(
    conf: &Conf,
    problem: &Rec,
    recovered: &Option<Moment>,
    word: Word,
    made: &mut Text,
) -> Result<(), OutOfMemory>
    ensures { OnOk result (made.new ≡ made.old ++ word_text conf.now problem.now recovered.now word) }
{
    match word {
        Word::Id => put_event(problem.event(), made),
        Word::Name | Word::Trigger => made.push_str(event_name(problem)),
        Word::Severity => made.push_str(severity_name(severity_of(problem))),
        Word::Tags => put_tags(problem.tags(), made),
        Word::Host => made.push_str(host_of(problem)),
        Word::Date => put_date(shown_at(conf, began_at(problem)), made),
        Word::Time => put_time(shown_at(conf, began_at(problem)), made),
        Word::RecoveryDate => put_recovery_date(conf, recovered, made),
        Word::RecoveryTime => put_recovery_time(conf, recovered, made),
    }
}

/// Adds what stands for a brace and what stands behind it, up to the end of the macro there. Answers the rest.
fn put_brace<'a>(
    conf: &Conf,
    problem: &Rec,
    recovered: &Option<Moment>,
    behind: &'a str,
    made: &mut Text,
) -> Result<&'a str, OutOfMemory>
    ensures value { IfOk result (λ rest. made.new ++ resolved conf.now problem.now recovered.now rest.now ≡ made.old ++ resolved conf.now problem.now recovered.now (123 ∷ behind.now)) }
    ensures shorter { IfOk result (λ rest. length rest.now ≤ length behind.now) }
{
    match told_at(recovered, behind) {
        Some((word, rest)) => {
            put_word(conf, problem, recovered, word, made)?;
            Ok(rest)
        }
        None => {
            made.push_str("{")?;
            Ok(behind)
        }
    }
}

/// A text with its macros replaced.
fn resolve(
    alloc: Global,
    conf: &Conf,
    problem: &Rec,
    recovered: &Option<Moment>,
    text: &Text,
) -> Result<Text, OutOfMemory>
    ensures { IfOk result (λ made. made ≡ resolved conf.now problem.now recovered.now text.now) }
{
    let mut made = Text::new(alloc);
    let mut rest = text.as_str();
    while let Some((plain, behind)) = split_at(rest, '{') {
        made.push_str(plain)?;
        rest = put_brace(conf, problem, recovered, behind, &mut made)?;
    }
    made.push_str(rest)?;
    Ok(made)
}

/// The subject or body of a message about a problem, or about its recovery at a moment: the text of an operation with its
/// macros replaced (the Zabbix 6.0 manual, "Supported macros"). Of a record that is no problem it is the text as it is.
///
/// `{EVENT.ID}` stands for the event as lines have it, `{EVENT.NAME}` and `{TRIGGER.NAME}` for the event's name,
/// `{EVENT.SEVERITY}` for the severity's name, `{EVENT.TAGS}` for the tags as `tag:value`, or `tag` where the value is
/// empty, with a comma and a blank between them, `{HOST.NAME}` for the problem's host. `{EVENT.DATE}` and `{EVENT.TIME}`
/// stand for the day and the time at which it began, as `YYYY.MM.DD` and `HH:MM:SS` of the local clock, and
/// `{EVENT.RECOVERY.DATE}` and `{EVENT.RECOVERY.TIME}` for those of the recovery, where there is one. Whatever else the
/// text holds stays, and what a macro stands for isn't looked through again.
///
/// [`OutOfMemory`] where there is no room for the message.
#[tactic(auto, unfolding(crate::specs::Messages::message_of))]
pub fn message(
    alloc: Global,
    conf: &Conf,
    problem: &Rec,
    text: &Text,
    recovered: Option<Moment>,
) -> Result<Text, OutOfMemory>
    ensures { IfOk result (λ made. made ≡ message_of conf.now problem.now text.now recovered) }
{
    if !is_problem(problem) {
        return text.copy(alloc);
    }
    resolve(alloc, conf, problem, &recovered, text)
}
