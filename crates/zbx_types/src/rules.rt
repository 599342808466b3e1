//! Rules of global correlation.

use crate::many::Many;
use crate::tag_tests::{Matching, TagTest};
use crate::text::Text;

/// A rule of global correlation (the Zabbix 6.0 manual, "Global event correlation").
#[derive(Drop)]
pub struct Rule {
    /// Its name.
    pub name: Text,
    /// How its conditions are joined.
    pub matching: Matching,
    /// Its conditions, 1 to 16.
    pub conditions: Many<RuleCond>,
    /// Whether old problems that match close.
    pub close_old: bool,
    /// Whether the new problem closes.
    pub close_new: bool,
}

/// A condition of a correlation rule, on an old and a new problem.
#[derive(Drop)]
pub enum RuleCond {
    /// The old problem has the tag.
    OldTag { tag: Text },
    /// The new problem has the tag.
    NewTag { tag: Text },
    /// The test holds of the old problem.
    OldTagValue(TagTest),
    /// The test holds of the new problem.
    NewTagValue(TagTest),
    /// Some value of the old problem's tag equals some value of the new one's tag.
    TagPair { old_tag: Text, new_tag: Text },
    /// The host of the new problem's trigger is in the host group.
    NewGroup { group: Text },
}
