//! The triggers of problems, and whether they are suppressed.

ghost use Rattle.std.specs.Prelude.{◌≡◌, ◌&&◌, IfOk, option_copied};
ghost use Rattle.std.specs.List.{position_from};
ghost use Rattle.zbx_types.specs.Groups.{groups_of};
ghost use Rattle.zbx_types.specs.Records.{tags_of};
ghost use Rattle.maintenance.specs.Suppression.{is_suppressed};
ghost use Rattle.escalations.specs.Triggers.{is_named, is_trigger_of, trigger_of, some_pauses};

use crate::conditions::{Case, is_matched};
use maintenance::suppressed;
use zbx_types::{Action, Conf, Host, OutOfMemory, Rec, Trigger, by_id, id_of};

/// Whether a host is there and has this name.
fn is_named(name: &[u8], host: Option<&Host>) -> bool
    ensures { result ≡ is_named name.now (option_copied host.entry) }
{
    match host {
        Some(host) => host.name.as_bytes() == name,
        None => false,
    }
}

/// Whether a trigger has the names of the problem's trigger and host.
fn is_trigger_of(conf: &Conf, problem: &Rec, trigger: &Trigger) -> bool
    ensures { result ≡ is_trigger_of conf.now problem.now trigger.now }
{
    trigger.name.as_bytes() == problem.trigger_name()
        && is_named(problem.host(), by_id(conf.hosts.as_slice(), trigger.host))
}

/// The place of a problem's trigger.
fn trigger_place(conf: &Conf, problem: &Rec, triggers: &[Trigger]) -> Option<usize>
    ensures { result ≡ position_from (is_trigger_of conf.now problem.now) 0 triggers.now }
{
    for (place, trigger) in triggers.iter().enumerate() {
        if is_trigger_of(conf, problem, trigger) {
            return Some(place);
        }
    }
    None
}

/// The id of a problem's trigger, or 0 where there is none. [`OutOfMemory`] where it has no id in 32 bits.
pub(crate) fn trigger_of(conf: &Conf, problem: &Rec) -> Result<u32, OutOfMemory>
    ensures { IfOk result (λ id. id ≡ trigger_of conf.now problem.now) }
{
    match trigger_place(conf, problem, conf.triggers.as_slice()) {
        Some(place) => id_of(place),
        None => Ok(0),
    }
}

/// Whether some of the actions matches the problem, and pauses where it is suppressed.
fn some_pauses(case: &Case, actions: &[Action]) -> bool
    requires { case.now.groups.now ≡ groups_of case.now.conf.now case.now.problem.now }
    ensures { result ≡ some_pauses case.now.conf.now case.now.problem.now actions.now }
{
    for action in actions {
        if action.pause_suppressed && is_matched(case, action) {
            return true;
        }
    }
    false
}

/// Whether the problem's trigger, which has this id, is suppressed at the moment, and some action pauses for this: else it
/// isn't asked.
pub(crate) fn is_quiet(case: &Case, trigger: u32) -> bool
    requires { case.now.groups.now ≡ groups_of case.now.conf.now case.now.problem.now }
    ensures { result ≡ (some_pauses case.now.conf.now case.now.problem.now case.now.conf.now.actions && is_suppressed case.now.conf.now trigger (tags_of case.now.problem.now) case.now.moment) }
{
    some_pauses(case, case.conf.actions.as_slice())
        && suppressed(case.conf, trigger, case.problem.tags(), case.moment)
}
