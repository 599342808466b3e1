//! Whether the open problems of a base fit a configuration.

ghost use Rattle.std.specs.Prelude.{◌≡◌, ◌↔◌, ◌==◌, [], map, if◌then◌else◌, IsTrue, IfOk};
ghost use Rattle.entry_step.specs.Each.{Each, EachPair};
ghost use Rattle.base_state.specs.Fitting.{RunsBefore, HasRun, FitsAlone, IsOfEarlier, event_key, Differ, opened, HasTrigger, FitProblems};

use std::alloc::Global;
use std::collections::HashSet;
use trigger_state::{Open, Opens, carry_over};
use zbx_types::{BaseProblem, Conf, Many, Moment, OutOfMemory, Ran, Rec};

/// Whether each of the steps that ran is of no later moment, and has a number.
fn have_run(now: Moment, ran: &[Ran]) -> bool
    ensures { IsTrue result ↔ Each (HasRun now) ran.now }
{
    for one in ran {
        if one.step == 0 || one.now.nanoseconds() > now.nanoseconds() {
            return false;
        }
    }
    true
}

/// Whether an action comes before another one in the order of the bytes of their names.
fn runs_before(one: &Ran, other: &Ran) -> bool
    ensures { IsTrue result ↔ RunsBefore one.entry.now other.entry.now }
{
    one.action.as_bytes().cmp(other.action.as_bytes()).is_lt()
}

/// Whether actions stand in the order of the bytes of their names, none twice.
fn run_in_order(ran: &[Ran]) -> bool
    ensures { IsTrue result ↔ EachPair RunsBefore ran.now }
{
    for place in 1..ran.len() {
        let before = &ran[place - 1];
        let next = &ran[place];
        if !runs_before(before, next) {
            return false;
        }
    }
    true
}

/// Whether an open problem fits a base of this number and moment, whatever trigger it is of.
fn fits_alone(number: u64, now: Moment, one: &BaseProblem) -> bool
    ensures { IsTrue result ↔ FitsAlone number now one.now }
{
    match &one.problem {
        Rec::Problem {
            event,
            now: moment,
            severity,
            ..
        } => {
            event.number <= number
                && moment.nanoseconds() <= now.nanoseconds()
                && *severity <= 5
                && run_in_order(one.ran.as_slice())
                && have_run(now, one.ran.as_slice())
        }
        Rec::Failure { .. } | Rec::Recovery { .. } | Rec::Step { .. } | Rec::Message { .. } =>
            false,
    }
}

/// Whether each open problem does.
fn fit_alone(number: u64, now: Moment, problems: &[BaseProblem]) -> bool
    ensures { IsTrue result ↔ Each (FitsAlone number now) problems.now }
{
    for one in problems {
        if !fits_alone(number, now, one) {
            return false;
        }
    }
    true
}

/// Whether no problem is of a later entry than one behind it.
fn rise(problems: &[BaseProblem]) -> bool
    ensures { IsTrue result ↔ EachPair IsOfEarlier problems.now }
{
    for place in 1..problems.len() {
        let before = &problems[place - 1];
        let next = &problems[place];
        if before.problem.event().number > next.problem.event().number {
            return false;
        }
    }
    true
}

/// The number and the trigger in the event of a problem.
fn key_of(one: &BaseProblem) -> (u64, u32)
    ensures { result ≡ event_key one.now }
{
    let event = one.problem.event();
    (event.number, event.trigger)
}

/// Whether no two problems have the same event.
fn differ(alloc: Global, problems: &[BaseProblem]) -> Result<bool, OutOfMemory>
    ensures { IfOk result (λ differ. IsTrue differ ↔ EachPair Differ problems.now) }
{
    let events: HashSet<(u64, u32)> = problems.iter().map(|one| key_of(one)).collect(alloc)?;
    Ok(events.len() == problems.len())
}

/// Open problems that are those of no trigger yet.
#[derive(Clone, Copy)]
struct Unhoused<'p> {
    /// These.
    problems: &'p [Open],
}

impl Opens for Unhoused<'_> {
    ghost problems = { λ all id. if id == 0 then all.problems.now else [] };

    fn open(&self, trigger: u32) -> &[Open] {
        if trigger == 0 { self.problems } else { &[] }
    }
}

/// Problems as open ones.
fn opened(alloc: Global, problems: &[BaseProblem]) -> Result<Many<Open>, OutOfMemory>
    ensures { IfOk result (λ made. made ≡ map opened problems.now) }
{
    let mut made = Many::new(alloc);
    for one in problems {
        made.push(Open {
            problem: one.problem.copy(alloc)?,
            steps: Many::new(alloc),
            rank: 0,
        })?;
    }
    Ok(made)
}

/// Whether each problem has a trigger of its names, with the names of its tags: a configuration that follows itself leaves
/// all of them.
fn have_triggers(alloc: Global, conf: &Conf, problems: &[BaseProblem]) -> Result<bool, OutOfMemory>
    ensures { IfOk result (λ have. IsTrue have ↔ Each (HasTrigger conf.now) problems.now) }
{
    let all = opened(alloc, problems)?;
    let opens = Unhoused {
        problems: all.as_slice(),
    };
    let carried = carry_over(alloc, conf, conf, &opens, &[0])?;
    Ok(carried.gone.len() == 0)
}

/// Whether open problems fit a configuration, for a base of this number and moment.
pub(crate) fn problems_fit(
    alloc: Global,
    conf: &Conf,
    number: u64,
    now: Moment,
    problems: &[BaseProblem],
) -> Result<bool, OutOfMemory>
    ensures { IfOk result (λ fits. IsTrue fits ↔ FitProblems conf.now number now problems.now) }
{
    let alone = fit_alone(number, now, problems);
    if !alone {
        return Ok(false);
    }
    let risen = rise(problems);
    if !risen {
        return Ok(false);
    }
    let others = differ(alloc, problems)?;
    if !others {
        return Ok(false);
    }
    have_triggers(alloc, conf, problems)
}
