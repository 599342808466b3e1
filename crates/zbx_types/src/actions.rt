//! Actions and what they send.

use crate::many::Many;
use crate::tag_tests::{Matching, TagTest};
use crate::text::Text;

/// An action: what is done about problems that match (the Zabbix 6.0 manual, "Actions").
#[derive(Drop)]
pub struct Action {
    /// Its name.
    pub name: Text,
    /// How its conditions are joined.
    pub matching: Matching,
    /// Its conditions, up to 16. Where there are none it matches each problem.
    pub conditions: Many<ActionCond>,
    /// How long a step of the escalation lasts, in seconds, from 60 to 7 days.
    pub step_duration: u32,
    /// Whether the escalation pauses while the problem is suppressed.
    pub pause_suppressed: bool,
    /// The operations of its escalation.
    pub operations: Many<Operation>,
    /// What is sent when a problem closes ("Recovery operations").
    pub recovery: Many<Sending>,
}

/// A condition of an action, on a problem (the Zabbix 6.0 manual, "Conditions").
#[derive(Drop)]
pub enum ActionCond {
    /// The severity compares so with the value.
    Severity { op: SeverityOp, value: u32 },
    /// The problem is of this host, by name.
    Host { host: Text },
    /// Its host is in this host group, by name.
    Group { group: Text },
    /// The event's name contains the text.
    TriggerName { text: Text },
    /// It has the tag.
    Tag { tag: Text },
    /// The test holds of its tags.
    TagValue(TagTest),
    /// It is suppressed.
    Suppressed,
    /// It isn't suppressed.
    NotSuppressed,
}

/// How a severity is compared.
#[derive(Clone, Copy, Debug, PartialEq, Eq)]
pub enum SeverityOp {
    /// It is at least the value.
    Ge,
    /// It is at most the value.
    Le,
    /// It is the value.
    Eq,
}

/// An operation of an escalation: messages that its steps send (the Zabbix 6.0 manual, "Escalations").
#[derive(Drop)]
pub struct Operation {
    /// The first step that it belongs to, 1 to 1,000,000.
    pub from: u32,
    /// The last step that it belongs to, or 0 where there is no last one.
    pub to: u32,
    /// How long these steps last, in seconds, or 0 where the action says so.
    pub duration: u32,
    /// To whom a message goes, 1 to 16.
    pub recipients: Many<Text>,
    /// The messages' subject, macros of events unresolved.
    pub subject: Text,
    /// The messages' body, macros of events unresolved.
    pub body: Text,
}

/// A recovery operation: messages that are sent when a problem closes (the Zabbix 6.0 manual, "Recovery operations").
#[derive(Drop)]
pub struct Sending {
    /// To whom a message goes.
    pub recipients: Many<Text>,
    /// The messages' subject, macros of events unresolved.
    pub subject: Text,
    /// The messages' body, macros of events unresolved.
    pub body: Text,
}
