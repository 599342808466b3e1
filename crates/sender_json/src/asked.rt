//! Asked values.

use zbx_types::{Moment, Text};

/// What an asked value says of its moment, by its members `clock` (seconds) and `ns` (nanoseconds), each a number or
/// a text of decimal digits (the Zabbix 6.0 manual, section "Zabbix sender protocol"; the texts are this project's own).
#[derive(Clone, Copy, Debug, PartialEq, Eq)]
pub enum Clock {
    /// There is no `clock`, whatever `ns` is.
    Absent,
    /// A `clock` that is no whole number from 0 to 4,294,967,295, or an `ns` that is none from 0 to 999,999,999.
    Bad,
    /// The moment; its nanoseconds are 0 where there is no `ns`.
    At(Moment),
}

/// An asked value. A part that isn't of its form is `None`.
#[derive(Debug, Drop)]
pub struct Asked {
    /// The host's name, where it is a text.
    pub host: Option<Text>,
    /// The item's key, where it is a text.
    pub key: Option<Text>,
    /// The value, where it is a text or a whole number from -2^63 to 2^64 - 1, which stands as its decimal digits.
    pub value: Option<Text>,
    /// What it says of its moment.
    pub clock: Clock,
}
