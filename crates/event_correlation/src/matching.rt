//! Which rules match, and which close.

ghost use Rattle.std.specs.Prelude.{◌≡◌, map};
ghost use Rattle.std.specs.List.{list_any, position_from};
ghost use Rattle.zbx_types.specs.Tags.{joined};
ghost use Rattle.event_correlation.specs.Conditions.{holds, fits};
ghost use Rattle.event_correlation.specs.Closings.{closes_old, closes_new};

use crate::conditions::holds;
use zbx_types::{Matching, Rec, Rule, RuleCond, Tag, Text};

fn all_hold(conditions: &[RuleCond], groups: &[Text], new: &[Tag], old: &[Tag]) -> bool
    ensures { result ≡ joined Matching.And (holds groups.now new.now old.now) conditions.now }
{
    conditions
        .iter()
        .all(|condition| holds(groups, new, old, condition))
}

fn some_holds(conditions: &[RuleCond], groups: &[Text], new: &[Tag], old: &[Tag]) -> bool
    ensures { result ≡ joined Matching.Or (holds groups.now new.now old.now) conditions.now }
{
    for condition in conditions {
        if holds(groups, new, old, condition) {
            return true;
        }
    }
    false
}

/// Whether a rule matches an old problem and a new one with these tags, whose host is in these groups.
fn fits(groups: &[Text], new: &[Tag], rule: &Rule, old: &Rec) -> bool
    ensures { result ≡ fits groups.now new.now rule.now old.now }
{
    let conditions = rule.conditions.as_slice();
    match rule.matching {
        Matching::And => all_hold(conditions, groups, new, old.tags()),
        Matching::Or => some_holds(conditions, groups, new, old.tags()),
    }
}

fn fits_some(groups: &[Text], new: &[Tag], rule: &Rule, old: &[&Rec]) -> bool
    ensures { result ≡ list_any (fits groups.now new.now rule.now) (map (λ problem. problem.now) old.now) }
{
    for problem in old {
        if fits(groups, new, rule, problem) {
            return true;
        }
    }
    false
}

/// The place of the first rule that closes an old problem, counted from 0.
pub(crate) fn first_closing(
    groups: &[Text],
    new: &[Tag],
    rules: &[Rule],
    old: &Rec,
) -> Option<usize>
    ensures { result ≡ position_from (closes_old (fits groups.now new.now) old.now) 0 rules.now }
{
    for (place, rule) in rules.iter().enumerate() {
        if rule.close_old && fits(groups, new, rule, old) {
            return Some(place);
        }
    }
    None
}

/// Whether some rule closes the new problem.
pub(crate) fn closes_new(groups: &[Text], new: &[Tag], rules: &[Rule], old: &[&Rec]) -> bool
    ensures { result ≡ closes_new (fits groups.now new.now) (map (λ problem. problem.now) old.now) rules.now }
{
    for rule in rules {
        if rule.close_new && fits_some(groups, new, rule, old) {
            return true;
        }
    }
    false
}
