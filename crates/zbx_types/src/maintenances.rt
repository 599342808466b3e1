//! Maintenances and their periods.

use crate::many::Many;
use crate::tag_tests::{Matching, TagTest};
use crate::text::Text;

/// A maintenance (the Zabbix 6.0 manual, "Maintenance").
#[derive(Drop)]
pub struct Maintenance {
    /// Its name.
    pub name: Text,
    /// From when it is active, in seconds since moment 0.
    pub since: u32,
    /// Till when it is active, in seconds since moment 0; above `since`.
    pub till: u32,
    /// Whether values are still taken ("with data collection").
    pub collect: bool,
    /// The hosts that it is of, by name.
    pub hosts: Many<Text>,
    /// The host groups that it is of, by name.
    pub groups: Many<Text>,
    /// How its tests of tags are joined.
    pub matching: Matching,
    /// The tests that the tags of a problem must pass for it to be suppressed. Where there are none, each problem is.
    pub tags: Many<TagTest>,
    /// When it is in force between `since` and `till`, 1 to 16 periods.
    pub periods: Many<Period>,
}

/// When a maintenance is in force, in local time (the Zabbix 6.0 manual, "Maintenance periods").
#[derive(Drop)]
pub enum Period {
    /// Once.
    Once {
        /// When it begins, in seconds since moment 0.
        start: u32,
        /// How long it lasts, in seconds, from 300 to 31 days.
        length: u32,
    },
    /// Every day or every few days.
    Daily {
        /// Every how many days, 1 to 365.
        every: u32,
        /// When it begins, in seconds since midnight.
        at: u32,
        /// How long it lasts, in seconds, from 300 to 31 days.
        length: u32,
    },
    /// On days of every week or of every few weeks.
    Weekly {
        /// Every how many weeks, 1 to 52.
        every: u32,
        /// The days of the week, 1 for Monday to 7.
        days: Many<u32>,
        /// When it begins, in seconds since midnight.
        at: u32,
        /// How long it lasts, in seconds, from 300 to 31 days.
        length: u32,
    },
    /// On a day of months.
    Monthly {
        /// The months, 1 for January to 12.
        months: Many<u32>,
        /// The day of the month, 1 to 31.
        day: u32,
        /// When it begins, in seconds since midnight.
        at: u32,
        /// How long it lasts, in seconds, from 300 to 31 days.
        length: u32,
    },
}
