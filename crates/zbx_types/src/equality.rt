//! Whether two entries, tags or records are equal: whether contracts see one value.

ghost use Rattle.std.specs.Prelude.{◌≡◌, ◌↔◌, IsTrue};
ghost use Rattle.zbx_types.specs.declared.entries.Rec.TheVariants as Rec;

use crate::entries::{Cause2, Entry, EventId, Rec, Tag};
use crate::moment::Moment;
use crate::text::Text;

/// Whether two entries are equal.
pub fn same_entry(one: &Entry, other: &Entry) -> bool
    ensures { IsTrue result ↔ (one.now ≡ other.now) }
{
    match one {
        Entry::Config { now, text } => match other {
            Entry::Config { now: m, text: t } => *now == *m && *text == *t,
            Entry::Value { .. } | Entry::Tick { .. } => false,
        },
        Entry::Value {
            now,
            item,
            time,
            value,
        } => match other {
            Entry::Value {
                now: m,
                item: i,
                time: t,
                value: v,
            } => *now == *m && *item == *i && *time == *t && *value == *v,
            Entry::Config { .. } | Entry::Tick { .. } => false,
        },
        Entry::Tick { now } => match other {
            Entry::Tick { now: m } => *now == *m,
            Entry::Config { .. } | Entry::Value { .. } => false,
        },
    }
}

/// Whether two tags are equal.
fn same_tag(one: &Tag, other: &Tag) -> bool
    ensures { IsTrue result ↔ (one.now ≡ other.now) }
{
    one.tag == other.tag && one.value == other.value
}

/// Whether two lists have the same tags, in the same order.
pub fn same_tags(ones: &[Tag], others: &[Tag]) -> bool
    ensures { IsTrue result ↔ (ones.now ≡ others.now) }
{
    if ones.len() != others.len() {
        return false;
    }
    for index in 0..ones.len() {
        if !same_tag(&ones[index], &others[index]) {
            return false;
        }
    }
    true
}

/// Whether a record is the failure of these parts.
fn is_failure(rec: &Rec, number: u64, host: &Text, key: &Text, why: &Text) -> bool
    ensures { IsTrue result ↔ (rec.now ≡ Rec.Failure number host.now key.now why.now) }
{
    match rec {
        Rec::Failure {
            number: n,
            host: h,
            key: k,
            why: w,
        } => number == *n && *host == *h && *key == *k && *why == *w,
        _ => false,
    }
}

/// Whether a record is the recovery of these parts.
fn is_recovery(rec: &Rec, event: EventId, by: u64, now: Moment, cause: Cause2) -> bool
    ensures { IsTrue result ↔ (rec.now ≡ Rec.Recovery event by now cause) }
{
    match rec {
        Rec::Recovery {
            event: e,
            by: b,
            now: m,
            cause: c,
        } => event == *e && by == *b && now == *m && cause == *c,
        _ => false,
    }
}

/// Whether a record is the step of these parts.
fn is_step(rec: &Rec, event: EventId, action: &Text, step: u32, now: Moment) -> bool
    ensures { IsTrue result ↔ (rec.now ≡ Rec.Step event action.now step now) }
{
    match rec {
        Rec::Step {
            event: e,
            action: a,
            step: s,
            now: m,
        } => event == *e && *action == *a && step == *s && now == *m,
        _ => false,
    }
}

/// Whether two records are equal.
pub fn same_record(one: &Rec, other: &Rec) -> bool
    ensures { IsTrue result ↔ (one.now ≡ other.now) }
{
    match one {
        Rec::Failure {
            number,
            host,
            key,
            why,
        } => is_failure(other, *number, host, key, why),
        Rec::Problem {
            event,
            now,
            severity,
            suppressed,
            host,
            trigger,
            name,
            tags,
        } => match other {
            Rec::Problem {
                event: e,
                now: m,
                severity: s,
                suppressed: p,
                host: h,
                trigger: t,
                name: n,
                tags: g,
            } => {
                *event == *e
                    && *now == *m
                    && *severity == *s
                    && *suppressed == *p
                    && *host == *h
                    && *trigger == *t
                    && *name == *n
                    && same_tags(tags.as_slice(), g.as_slice())
            }
            _ => false,
        },
        Rec::Recovery {
            event,
            by,
            now,
            cause,
        } => is_recovery(other, *event, *by, *now, *cause),
        Rec::Step {
            event,
            action,
            step,
            now,
        } => is_step(other, *event, action, *step, *now),
        Rec::Message {
            event,
            action,
            step,
            recipient,
            subject,
            body,
        } => match other {
            Rec::Message {
                event: e,
                action: a,
                step: s,
                recipient: r,
                subject: j,
                body: b,
            } => {
                *event == *e
                    && *action == *a
                    && *step == *s
                    && *recipient == *r
                    && *subject == *j
                    && *body == *b
            }
            _ => false,
        },
    }
}

/// Whether two lists have the same records, in the same order.
pub fn same_records(ones: &[Rec], others: &[Rec]) -> bool
    ensures { IsTrue result ↔ (ones.now ≡ others.now) }
{
    if ones.len() != others.len() {
        return false;
    }
    for index in 0..ones.len() {
        if !same_record(&ones[index], &others[index]) {
            return false;
        }
    }
    true
}
