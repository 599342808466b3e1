//! What rules of global correlation close.

use zbx_types::{EventId, Many};

/// What closes when a problem opens (the Zabbix 6.0 manual, "Global event correlation"). The old ones close first, in
/// this order, and the new one last (this project's own).
#[derive(Drop)]
pub struct Closes {
    /// The events of the old problems that close, each problem once.
    pub old: Many<EventId>,
    /// Whether the new problem closes.
    pub new: bool,
}
