//! What actions do about a problem.

ghost use Rattle.std.specs.Prelude.{◌≡◌, ◌++◌, flat_map, IfOk, OnOk};
ghost use Rattle.zbx_types.specs.Groups.{groups_of};
ghost use Rattle.escalations.specs.Escalations.{next_step, next_records, due_records_of, due_records, first_records_of, first_records, recovery_records, recovered_records};

use crate::conditions::{Case, is_matched};
use crate::messages::{push_sendings, push_step};
use crate::steps::{last_step, step_due};
use crate::triggers::{is_quiet, trigger_of};
use std::alloc::Global;
use zbx_types::{Action, Conf, Many, Moment, OutOfMemory, Rec, groups_of};

/// The step of an action that runs next, where these steps ran.
#[tactic(auto, unfolding(crate::specs::Escalations::next_step))]
fn next_step(case: &Case, quiet: bool, steps_run: &[Rec], action: &Action) -> Option<u32>
    requires { case.now.groups.now ≡ groups_of case.now.conf.now case.now.problem.now }
    ensures { result ≡ next_step case.now.conf.now quiet steps_run.now case.now.problem.now action.now case.now.moment }
{
    if is_matched(case, action) && !(action.pause_suppressed && quiet) {
        let last = last_step(steps_run, case.problem.event(), &action.name);
        step_due(action, case.moment, last)
    } else {
        None
    }
}

/// Adds what the next step of an action makes.
#[tactic(auto, unfolding(crate::specs::Escalations::next_records))]
fn push_next(
    alloc: Global,
    case: &Case,
    quiet: bool,
    steps_run: &[Rec],
    action: &Action,
    out: &mut Many<Rec>,
) -> Result<(), OutOfMemory>
    requires { case.now.groups.now ≡ groups_of case.now.conf.now case.now.problem.now }
    ensures { OnOk result (out.new ≡ out.old ++ next_records case.now.conf.now quiet case.now.problem.now steps_run.now case.now.moment action.now) }
{
    let (conf, problem) = (case.conf, case.problem);
    match next_step(case, quiet, steps_run, action) {
        Some(step) => push_step(alloc, conf, problem, case.moment, action, step, out),
        None => Ok(()),
    }
}

/// What the next steps of actions make.
fn next_records(
    alloc: Global,
    case: &Case,
    quiet: bool,
    steps_run: &[Rec],
    actions: &[Action],
) -> Result<Many<Rec>, OutOfMemory>
    requires { case.now.groups.now ≡ groups_of case.now.conf.now case.now.problem.now }
    ensures { IfOk result (λ made. made ≡ flat_map (next_records case.now.conf.now quiet case.now.problem.now steps_run.now case.now.moment) actions.now) }
{
    let mut out = Many::new(alloc);
    for action in actions {
        push_next(alloc, case, quiet, steps_run, action, &mut out)?;
    }
    Ok(out)
}

/// Adds what the recovery operations of an action send, where it ran a step.
fn push_recovery(
    alloc: Global,
    conf: &Conf,
    problem: &Rec,
    steps_run: &[Rec],
    now: Moment,
    action: &Action,
    out: &mut Many<Rec>,
) -> Result<(), OutOfMemory>
    ensures { OnOk result (out.new ≡ out.old ++ recovery_records conf.now problem.now steps_run.now now action.now) }
{
    if last_step(steps_run, problem.event(), &action.name).is_none() {
        return Ok(());
    }
    push_sendings(
        alloc,
        conf,
        problem,
        now,
        &action.name,
        action.recovery.as_slice(),
        out,
    )
}

/// What the recovery operations of actions send.
fn recovery_of(
    alloc: Global,
    conf: &Conf,
    problem: &Rec,
    steps_run: &[Rec],
    now: Moment,
    actions: &[Action],
) -> Result<Many<Rec>, OutOfMemory>
    ensures { IfOk result (λ made. made ≡ flat_map (recovery_records conf.now problem.now steps_run.now now) actions.now) }
{
    let mut out = Many::new(alloc);
    for action in actions {
        push_recovery(alloc, conf, problem, steps_run, now, action, &mut out)?;
    }
    Ok(out)
}

/// What actions do at the moment at which a problem opens (the Zabbix 6.0 manual, "Escalations"): for each action that
/// matches it, in file order, the records of step 1, where the action has this step and isn't paused. A step's records
/// are its Step record, then a Message record for each of its operations and recipients, in file order.
///
/// An action that pauses does so while the problem's trigger, which is the one of its host's and trigger's names, is
/// suppressed at the moment for the problem's tags. The conditions on suppression ask the record instead.
///
/// [`OutOfMemory`] where there is no room for the records.
pub fn first(
    alloc: Global,
    conf: &Conf,
    problem: &Rec,
    now: Moment,
) -> Result<Many<Rec>, OutOfMemory>
    ensures { IfOk result (λ made. made ≡ first_records conf.now problem.now now) }
{
    first_of(alloc, conf, trigger_of(conf, problem)?, problem, now)
}

/// The same as [`first`] for a problem of the trigger with this id: an action that pauses does so while this trigger is
/// suppressed. It is quicker, since no trigger is looked for by its name.
pub fn first_of(
    alloc: Global,
    conf: &Conf,
    trigger: u32,
    problem: &Rec,
    now: Moment,
) -> Result<Many<Rec>, OutOfMemory>
    ensures { IfOk result (λ made. made ≡ first_records_of conf.now trigger problem.now now) }
{
    due_of(alloc, conf, trigger, problem, &[], now)
}

/// What actions do about an open problem at a later moment (the Zabbix 6.0 manual, "Escalations"): for each action that
/// matches it, in file order, the records of its next step, as [`first`] tells them, where the action has this step, it
/// is due and the action isn't paused. At most one step of an action runs.
///
/// `steps_run` holds the Step records of the steps that ran: of this problem all, or the last one of each action, and any
/// others besides. The next step is step 1, which is due at once, or the one behind the greatest, which is due as many
/// seconds after it as it lasts. The moment at which a step runs is this project's own rule.
///
/// [`OutOfMemory`] where there is no room for the records.
pub fn due(
    alloc: Global,
    conf: &Conf,
    problem: &Rec,
    steps_run: &[Rec],
    now: Moment,
) -> Result<Many<Rec>, OutOfMemory>
    ensures { IfOk result (λ made. made ≡ due_records conf.now problem.now steps_run.now now) }
{
    due_of(
        alloc,
        conf,
        trigger_of(conf, problem)?,
        problem,
        steps_run,
        now,
    )
}

/// The same as [`due`] for a problem of the trigger with this id, as [`first_of`].
#[tactic(auto, using(crate::proofs::Asking::asked_once), unfolding(crate::specs::Escalations::due_records_of))]
pub fn due_of(
    alloc: Global,
    conf: &Conf,
    trigger: u32,
    problem: &Rec,
    steps_run: &[Rec],
    now: Moment,
) -> Result<Many<Rec>, OutOfMemory>
    ensures { IfOk result (λ made. made ≡ due_records_of conf.now trigger problem.now steps_run.now now) }
{
    let case = Case {
        conf,
        problem,
        groups: groups_of(conf, problem),
        moment: now,
    };
    let quiet = is_quiet(&case, trigger);
    next_records(alloc, &case, quiet, steps_run, conf.actions.as_slice())
}

/// What actions do at the moment at which a problem closes (the Zabbix 6.0 manual, "Recovery operations"): for each action
/// of which `steps_run` has a Step record for the problem, in file order, a Message record with step 0 for each of its
/// recovery operations and recipients. Suppression delays none, and whether the action matches isn't asked again. That an
/// action which ran no step sends nothing is this project's own rule.
///
/// [`OutOfMemory`] where there is no room for the records.
pub fn recovered(
    alloc: Global,
    conf: &Conf,
    problem: &Rec,
    steps_run: &[Rec],
    now: Moment,
) -> Result<Many<Rec>, OutOfMemory>
    ensures { IfOk result (λ made. made ≡ recovered_records conf.now problem.now steps_run.now now) }
{
    recovery_of(
        alloc,
        conf,
        problem,
        steps_run,
        now,
        conf.actions.as_slice(),
    )
}
