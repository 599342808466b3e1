//! What a trigger does.

use zbx_types::{EventId, Many};

/// What a trigger does where it is evaluated (the Zabbix 6.0 manual, "Configuring a trigger").
#[derive(Drop)]
pub enum Verdict {
    /// Nothing changes.
    Nothing,
    /// It makes a problem.
    New,
    /// The problems with these events close, in this order. There is at least one.
    Close(Many<EventId>),
}
