//! Journal entries, the records that they make, and the values that items keep.

ghost use Rattle.std.specs.Prelude.{◌≡◌, IfOk};
ghost use Rattle.zbx_types.specs.Entries.{moment_of};
ghost use Rattle.zbx_types.specs.Records.{event_of, tags_of, host_of, trigger_name_of};

use crate::fix::Fix;
use crate::many::Many;
use crate::memory::OutOfMemory;
use crate::moment::Moment;
use crate::text::Text;
use std::alloc::Global;

/// An entry of the journal (this project's own): what came from outside, in the order in which it was taken. Entries are
/// numbered from 1, their moments don't fall, and all records follow from them.
#[derive(Drop)]
pub enum Entry {
    /// The configuration that holds from here on. The first entry is one.
    Config {
        /// When it was taken.
        now: Moment,
        /// The configuration document, as it was read.
        text: Text,
    },
    /// A value for an item.
    Value {
        /// When it was taken.
        now: Moment,
        /// The item's id.
        item: u32,
        /// The moment that the value is of, as its sender says. It isn't after `now`.
        time: Moment,
        /// The value as it came, before preprocessing.
        value: Text,
    },
    /// Another half minute began: functions of time are evaluated, and escalation steps that are due run.
    Tick {
        /// When it was taken.
        now: Moment,
    },
}

/// An entry with its number.
#[derive(Drop)]
pub struct Numbered {
    /// Its number. The first entry of a journal has 1, the next one 2, and so on.
    pub number: u64,
    /// The entry.
    pub entry: Entry,
}

/// The name of a problem event (this project's own): no two problems have the same.
#[derive(Clone, Copy, Debug, PartialEq, Eq, PartialOrd, Ord)]
pub struct EventId {
    /// The number of the entry that opened the problem.
    pub number: u64,
    /// The id of the trigger that is in it.
    pub trigger: u32,
}

/// A tag of a trigger or of a problem (the Zabbix 6.0 manual, "Tagging").
#[derive(Drop)]
pub struct Tag {
    /// Its name.
    pub tag: Text,
    /// Its value, which may be empty.
    pub value: Text,
}

/// Why a problem closed.
#[derive(Clone, Copy, Debug, PartialEq, Eq)]
pub enum Cause2 {
    /// Its trigger's recovery: the expression, or the recovery expression, says so.
    Expression,
    /// A rule of global correlation (the Zabbix 6.0 manual, "Global event correlation").
    Correlation,
    /// No trigger of a changed configuration is that of the problem (this project's own).
    Removed,
}

/// A record: something that an entry made (this project's own). Each record becomes one line of the outbox.
#[derive(Drop)]
pub enum Rec {
    /// A value that an item couldn't take, as its preprocessing failed.
    Failure {
        /// The number of the entry that brought the value.
        number: u64,
        /// The item's host, by name.
        host: Text,
        /// The item's key.
        key: Text,
        /// What failed.
        why: Text,
    },
    /// A problem that opened.
    Problem {
        /// Its event.
        event: EventId,
        /// When it opened: the moment of its entry.
        now: Moment,
        /// The trigger's severity, from 0 (Not classified) to 5 (Disaster).
        severity: u8,
        /// Whether a maintenance suppresses it.
        suppressed: bool,
        /// The trigger's host, by name.
        host: Text,
        /// The trigger's name.
        trigger: Text,
        /// The name of the event: the trigger's title with its macros resolved.
        name: Text,
        /// Its tags, in the trigger's order.
        tags: Many<Tag>,
    },
    /// A problem that closed.
    Recovery {
        /// The problem's event.
        event: EventId,
        /// The number of the entry that closed it.
        by: u64,
        /// When it closed: the moment of that entry.
        now: Moment,
        /// Why it closed.
        cause: Cause2,
    },
    /// An escalation step that ran.
    Step {
        /// The problem's event.
        event: EventId,
        /// The action, by name.
        action: Text,
        /// The step's number, counted from 1.
        step: u32,
        /// When it ran.
        now: Moment,
    },
    /// A message to one recipient.
    Message {
        /// The problem's event.
        event: EventId,
        /// The action that sends it, by name.
        action: Text,
        /// The number of the escalation step that sends it, counted from 1, or 0 where the problem's recovery does.
        step: u32,
        /// To whom it goes.
        recipient: Text,
        /// Its subject, with macros resolved.
        subject: Text,
        /// Its body, with macros resolved.
        body: Text,
    },
}

/// A value that an item keeps.
#[derive(Drop)]
pub enum Held {
    /// That of a number item.
    Number(Fix),
    /// That of a text item.
    Words(Text),
}

/// A value in the history of an item.
#[derive(Drop)]
pub struct Stored {
    /// The moment that the value is of.
    pub time: Moment,
    /// The number of the entry that stored it. Of values with one time the greater number is the later one.
    pub number: u64,
    /// The value.
    pub value: Held,
}

impl Held {
    /// A copy. [`OutOfMemory`] where there is no room for it.
    pub fn copy(&self, alloc: Global) -> Result<Held, OutOfMemory>
        ensures { IfOk result (λ made. made ≡ self.now) }
    {
        match self {
            Held::Number(number) => Ok(Held::Number(*number)),
            Held::Words(text) => Ok(Held::Words(text.copy(alloc)?)),
        }
    }
}

impl Stored {
    /// A copy. [`OutOfMemory`] where there is no room for it.
    pub fn copy(&self, alloc: Global) -> Result<Stored, OutOfMemory>
        ensures { IfOk result (λ made. made ≡ self.now) }
    {
        Ok(Stored {
            time: self.time,
            number: self.number,
            value: self.value.copy(alloc)?,
        })
    }
}

impl Tag {
    /// A copy. [`OutOfMemory`] where there is no room for it.
    pub fn copy(&self, alloc: Global) -> Result<Tag, OutOfMemory>
        ensures { IfOk result (λ made. made ≡ self.now) }
    {
        Ok(Tag {
            tag: self.tag.copy(alloc)?,
            value: self.value.copy(alloc)?,
        })
    }
}

/// A copy of a list of tags. [`OutOfMemory`] where there is no room for all of them.
pub fn copy_tags(alloc: Global, tags: &Many<Tag>) -> Result<Many<Tag>, OutOfMemory>
    ensures { IfOk result (λ made. made ≡ tags.now) }
{
    let mut made = Many::new(alloc);
    for tag in tags.as_slice() {
        made.push(tag.copy(alloc)?)?;
    }
    Ok(made)
}

impl Entry {
    /// The moment at which it was taken.
    pub fn moment(&self) -> Moment
        ensures { result ≡ moment_of self.now }
    {
        match self {
            Entry::Config { now, .. } | Entry::Value { now, .. } | Entry::Tick { now } => *now,
        }
    }

    /// A copy. [`OutOfMemory`] where there is no room for it.
    pub fn copy(&self, alloc: Global) -> Result<Entry, OutOfMemory>
        ensures { IfOk result (λ made. made ≡ self.now) }
    {
        match self {
            Entry::Config { now, text } => Ok(Entry::Config {
                now: *now,
                text: text.copy(alloc)?,
            }),
            Entry::Value {
                now,
                item,
                time,
                value,
            } => Ok(Entry::Value {
                now: *now,
                item: *item,
                time: *time,
                value: value.copy(alloc)?,
            }),
            Entry::Tick { now } => Ok(Entry::Tick { now: *now }),
        }
    }
}

impl Numbered {
    /// A copy. [`OutOfMemory`] where there is no room for it.
    pub fn copy(&self, alloc: Global) -> Result<Numbered, OutOfMemory>
        ensures { IfOk result (λ made. made ≡ self.now) }
    {
        Ok(Numbered {
            number: self.number,
            entry: self.entry.copy(alloc)?,
        })
    }
}

impl Rec {
    /// The event that it is about; of a failure its entry's number and trigger 0.
    pub fn event(&self) -> EventId
        ensures { result ≡ event_of self.now }
    {
        match self {
            Rec::Failure { number, .. } => EventId {
                number: *number,
                trigger: 0,
            },
            Rec::Problem { event, .. }
            | Rec::Recovery { event, .. }
            | Rec::Step { event, .. }
            | Rec::Message { event, .. } => *event,
        }
    }

    /// The tags of a problem; none of any other record.
    pub fn tags(&self) -> &[Tag]
        ensures { result.now ≡ tags_of self.now }
    {
        match self {
            Rec::Problem { tags, .. } => tags.as_slice(),
            Rec::Failure { .. } | Rec::Recovery { .. } | Rec::Step { .. } | Rec::Message { .. } =>
                &[],
        }
    }

    /// The name of a problem's host; nothing for any other record.
    pub fn host(&self) -> &[u8]
        ensures { result.now ≡ host_of self.now }
    {
        match self {
            Rec::Problem { host, .. } => host.as_bytes(),
            Rec::Failure { .. } | Rec::Recovery { .. } | Rec::Step { .. } | Rec::Message { .. } =>
                &[],
        }
    }

    /// The name of a problem's trigger; nothing for any other record.
    pub fn trigger_name(&self) -> &[u8]
        ensures { result.now ≡ trigger_name_of self.now }
    {
        match self {
            Rec::Problem { trigger, .. } => trigger.as_bytes(),
            Rec::Failure { .. } | Rec::Recovery { .. } | Rec::Step { .. } | Rec::Message { .. } =>
                &[],
        }
    }

    /// A copy. [`OutOfMemory`] where there is no room for it.
    pub fn copy(&self, alloc: Global) -> Result<Rec, OutOfMemory>
        ensures { IfOk result (λ made. made ≡ self.now) }
    {
        match self {
            Rec::Failure {
                number,
                host,
                key,
                why,
            } => {
                let (host, key, why) = copy_three(alloc, host, key, why)?;
                Ok(Rec::Failure {
                    number: *number,
                    host,
                    key,
                    why,
                })
            }
            Rec::Problem {
                event,
                now,
                severity,
                suppressed,
                host,
                trigger,
                name,
                tags,
            } => {
                let tags = copy_tags(alloc, tags)?;
                let (host, trigger, name) = copy_three(alloc, host, trigger, name)?;
                Ok(Rec::Problem {
                    event: *event,
                    now: *now,
                    severity: *severity,
                    suppressed: *suppressed,
                    host,
                    trigger,
                    name,
                    tags,
                })
            }
            Rec::Recovery {
                event,
                by,
                now,
                cause,
            } => Ok(Rec::Recovery {
                event: *event,
                by: *by,
                now: *now,
                cause: *cause,
            }),
            Rec::Step {
                event,
                action,
                step,
                now,
            } => Ok(Rec::Step {
                event: *event,
                action: action.copy(alloc)?,
                step: *step,
                now: *now,
            }),
            Rec::Message {
                event,
                action,
                step,
                recipient,
                subject,
                body,
            } => {
                let action = action.copy(alloc)?;
                let (recipient, subject, body) = copy_three(alloc, recipient, subject, body)?;
                Ok(Rec::Message {
                    event: *event,
                    action,
                    step: *step,
                    recipient,
                    subject,
                    body,
                })
            }
        }
    }
}

/// Copies of three texts. [`OutOfMemory`] where there is no room for all of them.
fn copy_three(
    alloc: Global,
    one: &Text,
    two: &Text,
    three: &Text,
) -> Result<(Text, Text, Text), OutOfMemory>
    ensures { IfOk result (λ made. (made.0 ≡ one.now) × ((made.1 ≡ two.now) × (made.2 ≡ three.now))) }
{
    let one = one.copy(alloc)?;
    let two = two.copy(alloc)?;
    let three = three.copy(alloc)?;
    Ok((one, two, three))
}

/// A copy of a list of records. [`OutOfMemory`] where there is no room for all of them.
pub fn copy_records(alloc: Global, records: &[Rec]) -> Result<Many<Rec>, OutOfMemory>
    ensures { IfOk result (λ made. made ≡ records.now) }
{
    let mut made = Many::new(alloc);
    for rec in records {
        made.push(rec.copy(alloc)?)?;
    }
    Ok(made)
}
