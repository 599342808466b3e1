//! Conditions of actions.

ghost use Rattle.std.specs.Prelude.{◌≡◌};
ghost use Rattle.zbx_types.specs.Groups.{groups_of};
ghost use Rattle.zbx_types.specs.Tags.{joined};
ghost use Rattle.escalations.specs.Conditions.{compares, holds, fits, is_matched};

use zbx_types::{
    Action, ActionCond, Conf, Matching, Moment, Rec, SeverityOp, Text, has_tag, is_same,
};

/// A problem at a moment.
#[derive(Clone, Copy)]
pub(crate) struct Case<'a> {
    /// The configuration.
    pub(crate) conf: &'a Conf,
    /// The problem.
    pub(crate) problem: &'a Rec,
    /// The groups of its host.
    pub(crate) groups: &'a [Text],
    /// The moment.
    pub(crate) moment: Moment,
}

/// Whether a severity compares so with a value.
fn compares(op: SeverityOp, severity: u32, value: u32) -> bool
    ensures { result ≡ compares op severity value }
{
    match op {
        SeverityOp::Ge => value <= severity,
        SeverityOp::Le => severity <= value,
        SeverityOp::Eq => severity == value,
    }
}

/// Whether a condition holds of a problem, whose host is in these groups.
fn holds(groups: &[Text], problem: &Rec, condition: &ActionCond) -> bool
    ensures { result ≡ holds groups.now problem.now condition.now }
{
    match problem {
        Rec::Problem {
            severity,
            suppressed,
            host,
            name,
            tags,
            ..
        } => match condition {
            ActionCond::Severity { op, value } => compares(*op, u32::from(*severity), *value),
            ActionCond::Host { host: asked } => is_same(host, asked),
            ActionCond::Group { group } => groups.contains(group),
            ActionCond::TriggerName { text } => name.contains(text),
            ActionCond::Tag { tag } => has_tag(tags.as_slice(), tag),
            ActionCond::TagValue(test) => test.passes(tags.as_slice()),
            ActionCond::Suppressed => *suppressed,
            ActionCond::NotSuppressed => !*suppressed,
        },
        Rec::Failure { .. } | Rec::Recovery { .. } | Rec::Step { .. } | Rec::Message { .. } =>
            false,
    }
}

fn all_hold(conditions: &[ActionCond], groups: &[Text], problem: &Rec) -> bool
    ensures { result ≡ joined Matching.And (holds groups.now problem.now) conditions.now }
{
    conditions
        .iter()
        .all(|condition| holds(groups, problem, condition))
}

fn some_holds(conditions: &[ActionCond], groups: &[Text], problem: &Rec) -> bool
    ensures { result ≡ joined Matching.Or (holds groups.now problem.now) conditions.now }
{
    for condition in conditions {
        if holds(groups, problem, condition) {
            return true;
        }
    }
    false
}

/// Whether conditions hold, as they are joined.
fn hold(matching: Matching, conditions: &[ActionCond], groups: &[Text], problem: &Rec) -> bool
    ensures { result ≡ joined matching (holds groups.now problem.now) conditions.now }
{
    match matching {
        Matching::And => all_hold(conditions, groups, problem),
        Matching::Or => some_holds(conditions, groups, problem),
    }
}

/// Whether an action matches a problem, whose host is in these groups.
pub(crate) fn fits(groups: &[Text], problem: &Rec, action: &Action) -> bool
    ensures { result ≡ fits groups.now problem.now action.now }
{
    let conditions = action.conditions.as_slice();
    conditions.len() == 0 || hold(action.matching, conditions, groups, problem)
}

/// Whether an action matches the problem.
#[tactic(auto, unfolding(crate::specs::Conditions::is_matched))]
pub(crate) fn is_matched(case: &Case, action: &Action) -> bool
    requires { case.now.groups.now ≡ groups_of case.now.conf.now case.now.problem.now }
    ensures { result ≡ is_matched case.now.conf.now action.now case.now.problem.now }
{
    fits(case.groups, case.problem, action)
}
