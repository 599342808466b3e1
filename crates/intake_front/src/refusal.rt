//! Why a value is counted as failed.

/// Why an asked value is refused: the first cause that holds, in this order (the Zabbix 6.0 manual, "Trapper items" and
/// "Zabbix agent"; list and order are this project's own). `NotTrapper` holds of values of senders alone, `NotActive`
/// and `Unsupported` of those of agents.
#[derive(Clone, Copy, Debug, PartialEq, Eq)]
pub enum ValueRefusal {
    /// The element is no object, or `host` is no text, or no host has this name.
    UnknownHost,
    /// `key` is no text, or the host has no item with this key.
    UnknownKey,
    /// The host or the item isn't enabled.
    Disabled,
    /// The item takes no values from senders: it is dependent or active.
    NotTrapper,
    /// The item takes no values from agents: it isn't active.
    NotActive,
    /// A maintenance without data collection is in force, and is of the host.
    InMaintenance,
    /// `value` is no text and no whole number, or is longer than 65,535 bytes.
    BadValue,
    /// `clock` or `ns` is there and isn't of its form.
    BadClock,
    /// The agent says that it doesn't support the item: `state` is the number 1.
    Unsupported,
}
