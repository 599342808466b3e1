//! Lines of records.

ghost use Rattle.std.specs.Prelude.{◌≡◌, ◌++◌, ◌∷◌, [], OnOk, OnErr};
ghost use Rattle.std.specs.List.{flat_map};
ghost use Rattle.std.specs.Fmt.{decimal};
ghost use Rattle.event_text.specs.Lines.{escaped, suppressed_text, cause_text, tag_fields, barred, joined, fields_of, line_of, lines_of};

use crate::fields::{add_event, add_moment, add_number, add_text};
use crate::page::Page;
use std::alloc::Global;
use std::mem;
use zbx_types::{Bytes, Cause2, EventId, Moment, OutOfMemory, Rec, Tag, Text};

fn suppressed_text(suppressed: bool) -> &'static [u8]
    ensures { result.now ≡ suppressed_text suppressed }
{
    if suppressed { b"1" } else { b"0" }
}

fn cause_text(cause: Cause2) -> &'static [u8]
    ensures { result.now ≡ cause_text cause }
{
    match cause {
        Cause2::Expression => b"e",
        Cause2::Correlation => b"c",
        Cause2::Removed => b"r",
    }
}

fn put_failure(
    number: u64,
    host: &Text,
    key: &Text,
    why: &Text,
    out: &mut Page,
) -> Result<(), OutOfMemory>
    ensures ok { OnOk result (out.new.back ≡ out.old.back ++ joined (fields_of (Rec.Failure number host.now key.now why.now))) }
    ensures front { out.new.front ≡ out.old.front }
{
    out.extend(b"F")?;
    add_number(number, out)?;
    add_text(host, out)?;
    add_text(key, out)?;
    add_text(why, out)
}

/// Adds how severe a problem is, and whether it is suppressed.
fn add_kind(severity: u8, suppressed: bool, out: &mut Page) -> Result<(), OutOfMemory>
    ensures ok { OnOk result (out.new.back ≡ out.old.back ++ flat_map barred (decimal severity ∷ suppressed_text suppressed ∷ [])) }
    ensures front { out.new.front ≡ out.old.front }
{
    add_number(u64::from(severity), out)?;
    out.extend(b"|")?;
    out.extend(suppressed_text(suppressed))
}

fn add_names(host: &Text, trigger: &Text, name: &Text, out: &mut Page) -> Result<(), OutOfMemory>
    ensures ok { OnOk result (out.new.back ≡ out.old.back ++ flat_map barred (escaped host.now ∷ escaped trigger.now ∷ escaped name.now ∷ [])) }
    ensures front { out.new.front ≡ out.old.front }
{
    add_text(host, out)?;
    add_text(trigger, out)?;
    add_text(name, out)
}

fn add_tag(tag: &Tag, out: &mut Page) -> Result<(), OutOfMemory>
    ensures ok { OnOk result (out.new.back ≡ out.old.back ++ flat_map barred (tag_fields tag.now)) }
    ensures front { out.new.front ≡ out.old.front }
{
    add_text(&tag.tag, out)?;
    add_text(&tag.value, out)
}

fn add_tags(tags: &[Tag], out: &mut Page) -> Result<(), OutOfMemory>
    ensures ok { OnOk result (out.new.back ≡ out.old.back ++ flat_map barred (flat_map tag_fields tags.now)) }
    ensures front { out.new.front ≡ out.old.front }
{
    for tag in tags {
        add_tag(tag, out)?;
    }
    Ok(())
}

fn put_recovery(
    event: EventId,
    by: u64,
    now: Moment,
    cause: Cause2,
    out: &mut Page,
) -> Result<(), OutOfMemory>
    ensures ok { OnOk result (out.new.back ≡ out.old.back ++ joined (fields_of (Rec.Recovery event by now cause))) }
    ensures front { out.new.front ≡ out.old.front }
{
    out.extend(b"R")?;
    add_event(event, out)?;
    add_number(by, out)?;
    add_moment(now, out)?;
    out.extend(b"|")?;
    out.extend(cause_text(cause))
}

fn put_step(
    event: EventId,
    action: &Text,
    step: u32,
    now: Moment,
    out: &mut Page,
) -> Result<(), OutOfMemory>
    ensures ok { OnOk result (out.new.back ≡ out.old.back ++ joined (fields_of (Rec.Step event action.now step now))) }
    ensures front { out.new.front ≡ out.old.front }
{
    out.extend(b"S")?;
    add_event(event, out)?;
    add_text(action, out)?;
    add_number(u64::from(step), out)?;
    add_moment(now, out)
}

fn put_problem(
    event: EventId,
    now: Moment,
    severity: u8,
    suppressed: bool,
    host: &Text,
    trigger: &Text,
    name: &Text,
    tags: &[Tag],
    out: &mut Page,
) -> Result<(), OutOfMemory>
    ensures ok { OnOk result (out.new.back ≡ out.old.back ++ joined (fields_of (Rec.Problem event now severity suppressed host.now trigger.now name.now tags.now))) }
    ensures front { out.new.front ≡ out.old.front }
{
    out.extend(b"P")?;
    add_event(event, out)?;
    add_moment(now, out)?;
    add_kind(severity, suppressed, out)?;
    add_names(host, trigger, name, out)?;
    add_tags(tags, out)
}

fn put_message(
    event: EventId,
    action: &Text,
    step: u32,
    recipient: &Text,
    subject: &Text,
    body: &Text,
    out: &mut Page,
) -> Result<(), OutOfMemory>
    ensures ok { OnOk result (out.new.back ≡ out.old.back ++ joined (fields_of (Rec.Message event action.now step recipient.now subject.now body.now))) }
    ensures front { out.new.front ≡ out.old.front }
{
    out.extend(b"M")?;
    add_event(event, out)?;
    add_text(action, out)?;
    add_number(u64::from(step), out)?;
    add_names(recipient, subject, body, out)
}

fn put_fields(rec: &Rec, out: &mut Page) -> Result<(), OutOfMemory>
    ensures ok { OnOk result (out.new.back ≡ out.old.back ++ joined (fields_of rec.now)) }
    ensures front { out.new.front ≡ out.old.front }
{
    match rec {
        Rec::Failure {
            number,
            host,
            key,
            why,
        } => put_failure(*number, host, key, why, out),
        Rec::Problem {
            event,
            now,
            severity,
            suppressed,
            host,
            trigger,
            name,
            tags,
        } => put_problem(
            *event,
            *now,
            *severity,
            *suppressed,
            host,
            trigger,
            name,
            tags.as_slice(),
            out,
        ),
        Rec::Recovery {
            event,
            by,
            now,
            cause,
        } => put_recovery(*event, *by, *now, *cause, out),
        Rec::Step {
            event,
            action,
            step,
            now,
        } => put_step(*event, action, *step, *now, out),
        Rec::Message {
            event,
            action,
            step,
            recipient,
            subject,
            body,
        } => put_message(*event, action, *step, recipient, subject, body, out),
    }
}

fn put_line(rec: &Rec, out: &mut Page) -> Result<(), OutOfMemory>
    ensures ok { OnOk result (out.new.back ≡ out.old.back ++ line_of rec.now) }
    ensures front { out.new.front ≡ out.old.front }
{
    put_fields(rec, out)?;
    out.extend(b"\n")
}

fn put_lines(records: &[Rec], out: &mut Page) -> Result<(), OutOfMemory>
    ensures ok { OnOk result (out.new.back ≡ out.old.back ++ lines_of records.now) }
    ensures front { out.new.front ≡ out.old.front }
{
    for rec in records {
        put_line(rec, out)?;
    }
    Ok(())
}

/// Keeps what was added behind the front of a page, or leaves the front alone where memory was wanting.
fn ended(page: Page, put: Result<(), OutOfMemory>, out: &mut Bytes) -> Result<(), OutOfMemory>
    ensures same { result ≡ put }
    ensures ok { OnOk put (out.new ≡ page.front ++ page.back) }
    ensures err { OnErr put (out.new ≡ page.front) }
{
    match put {
        Ok(()) => {
            *out = page.whole();
            Ok(())
        }
        Err(OutOfMemory) => {
            *out = page.front();
            Err(OutOfMemory)
        }
    }
}

/// Adds the line of a record at the end of `out`, in the format that the crate's comment tells (this project's own).
///
/// The one error is want of memory, and `out` is then as before.
pub fn line(alloc: Global, rec: &Rec, out: &mut Bytes) -> Result<(), OutOfMemory>
    ensures ok { OnOk result (out.new ≡ out.old ++ line_of rec.now) }
    ensures err { OnErr result (out.new ≡ out.old) }
{
    let mut page = Page::of(mem::replace(out, Bytes::new(alloc)));
    let put = put_line(rec, &mut page);
    ended(page, put, out)
}

/// Adds the lines of records at the end of `out`, in their order, with nothing between them (this project's own).
///
/// The one error is want of memory, and `out` is then as before: no line was added.
pub fn lines(alloc: Global, records: &[Rec], out: &mut Bytes) -> Result<(), OutOfMemory>
    ensures ok { OnOk result (out.new ≡ out.old ++ lines_of records.now) }
    ensures err { OnErr result (out.new ≡ out.old) }
{
    let mut page = Page::of(mem::replace(out, Bytes::new(alloc)));
    let put = put_lines(records, &mut page);
    ended(page, put, out)
}
