//! Conditions of rules.

ghost use Rattle.std.specs.Prelude.{◌≡◌};
ghost use Rattle.event_correlation.specs.Conditions.{holds};

use zbx_types::{RuleCond, Tag, Text, has_tag, share_value};

/// Whether a condition holds of the tags of an old problem, and of the tags of a new one and the groups of its host.
pub(crate) fn holds(groups: &[Text], new: &[Tag], old: &[Tag], condition: &RuleCond) -> bool
    ensures { result ≡ holds groups.now new.now old.now condition.now }
{
    match condition {
        RuleCond::OldTag { tag } => has_tag(old, tag),
        RuleCond::NewTag { tag } => has_tag(new, tag),
        RuleCond::OldTagValue(test) => test.passes(old),
        RuleCond::NewTagValue(test) => test.passes(new),
        RuleCond::TagPair { old_tag, new_tag } => share_value(old, old_tag, new, new_tag),
        RuleCond::NewGroup { group } => groups.contains(group),
    }
}
