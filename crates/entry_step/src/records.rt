//! The records that an entry makes.

ghost use Rattle.std.specs.Prelude.{◌≡◌, ◌++◌, ◌==◌, ◌||◌, [], ℕ, List, filter, flat_map, length, true, Some, IfOk, OnOk};
ghost use Rattle.escalations.specs.Escalations.{recovered_records};
ghost use Rattle.zbx_types.specs.declared.conf.Conf.{Conf};
ghost use Rattle.zbx_types.specs.Ids.{at_id};
ghost use Rattle.zbx_types.specs.Records.{same_event};
ghost use Rattle.zbx_types.specs.declared.entries.EventId.{EventId};
ghost use Rattle.event_correlation.specs.Laws.{HasTagsOf};
ghost use Rattle.trigger_state.specs.Stages.{OwnsEvents, home};
ghost use Rattle.trigger_state.specs.Problems.{event_in, absorbed_all};
ghost use Rattle.entry_step.specs.Records.{problem_of, recovery_of, ruled, begun_with, begun_records, closed_records, ruled_records, last_records, verdict_records};
ghost use Rattle.entry_step.specs.Each.{Each};
ghost use Rattle.entry_step.specs.Represents.{problems_at};
ghost use Rattle.zbx_types.specs.declared.triggers.Trigger.{Trigger};
ghost use Rattle.entry_step.specs.Changes.{IsAbsorbed, has_fresh, Leaves, Lands, outcome_records, outcome_rows, EachClosed, judged, Serve, AreTidy, Absorbed};
ghost use Rattle.event_text.specs.Titles.{event_tags};
ghost use Rattle.zbx_types.specs.declared.entries.Stored.{Stored};
ghost use Rattle.entry_step.specs.Calls.{Shown, AreCached, sight_of};
ghost use Rattle.entry_step.specs.Seen.{shown_values};
ghost use Rattle.conf_index.specs.Plans.{plan_of, recovery_plan_of};

use crate::calls::Calls;
use crate::changes::{Change, Fresh, TriggerOutcome};
use crate::opens::{absorbed_row, problems_at};
use crate::ruling::{others_of, ruled};
use crate::seen::shown_values;
use conf_index::{Node, Ready, plan_value, recovery_value};
use escalations::{first_of, recovered};
use event_correlation::Closes;
use maintenance::suppressed;
use std::alloc::Global;
use trigger_state::{InForce, Open, Verdict, verdict_over};
use zbx_types::{
    Cause2, Conf, EventId, Fix, Held, Many, Moment, OutOfMemory, Rec, Tag, Text, Trigger,
};

/// The Problem record of a trigger at an entry.
#[tactic(auto, unfolding(crate::specs::Records::problem_of))]
fn problem_of(
    alloc: Global,
    ready: &Ready,
    number: u64,
    now: Moment,
    values: &[Option<Held>],
    id: u32,
    trigger: &Trigger,
) -> Result<Rec, OutOfMemory>
    ensures { IfOk result (λ made. made ≡ problem_of ready.now.conf number now values.now id trigger.now) }
{
    let conf = ready.conf();
    let tags = ready.tags_of(alloc, id, values)?;
    let suppressed = suppressed(conf, id, tags.as_slice(), now);
    Ok(Rec::Problem {
        event: EventId {
            number,
            trigger: id,
        },
        now,
        severity: trigger.severity,
        suppressed,
        host: Text::of(alloc, conf.host_name(trigger.host))?,
        trigger: trigger.name.copy(alloc)?,
        name: ready.name_of(alloc, id, values)?,
        tags,
    })
}

/// Whether an open problem is of an event.
fn is_of(one: &Open, event: EventId) -> bool
    ensures { result ≡ same_event (event_in one.now) event }
{
    let own = one.problem.event();
    own.number == event.number && own.trigger == event.trigger
}

/// Adds what is sent as the open problem of an event closes: the recovery messages of the actions that ran a step for
/// it.
fn push_sent(
    alloc: Global,
    conf: &Conf,
    now: Moment,
    opens: &[Open],
    event: EventId,
    out: &mut Many<Rec>,
) -> Result<(), OutOfMemory>
    ensures { OnOk result (out.new ≡ out.old ++ flat_map (λ o. recovered_records conf.now o.problem o.steps now)
        (filter (λ o. same_event (event_in o) event) opens.now)) }
{
    for one in opens {
        if is_of(one, event) {
            let sent = recovered(alloc, conf, &one.problem, one.steps.as_slice(), now)?;
            out.append(sent)?;
        }
    }
    Ok(())
}

/// The Recovery record of an event at an entry.
fn recovery_of(number: u64, now: Moment, cause: Cause2, event: EventId) -> Rec
    ensures { result ≡ recovery_of number now cause event }
{
    Rec::Recovery {
        event,
        by: number,
        now,
        cause,
    }
}

/// Adds what the end of a problem makes: its Recovery, then the recovery messages.
fn push_closed(
    alloc: Global,
    conf: &Conf,
    number: u64,
    now: Moment,
    cause: Cause2,
    opens: &[Open],
    event: EventId,
    out: &mut Many<Rec>,
) -> Result<(), OutOfMemory>
    ensures { OnOk result (out.new ≡ out.old ++ closed_records conf.now number now cause opens.now event) }
{
    out.push(recovery_of(number, now, cause, event))?;
    push_sent(alloc, conf, now, opens, event, out)
}

/// What the ends of the problems of a trigger with these events make.
fn closings(
    alloc: Global,
    conf: &Conf,
    number: u64,
    now: Moment,
    opens: &[Open],
    events: &[EventId],
) -> Result<Many<Rec>, OutOfMemory>
    ensures { IfOk result (λ made. made ≡ flat_map (closed_records conf.now number now Cause2.Expression opens.now)
        events.now) }
{
    let cause = Cause2::Expression;
    let mut made = Many::new(alloc);
    for event in events {
        push_closed(alloc, conf, number, now, cause, opens, *event, &mut made)?;
    }
    Ok(made)
}

/// Adds what the ends of the problems that rules close make, each of its own trigger.
fn push_ruled(
    alloc: Global,
    stage: &InForce,
    number: u64,
    now: Moment,
    problems: &[Many<Open>],
    events: &[EventId],
    out: &mut Many<Rec>,
) -> Result<(), OutOfMemory>
    ensures { OnOk result (out.new ≡ out.old ++ ruled_records stage.now number now (problems_at problems.now)
        events.now) }
{
    let conf = stage.conf();
    let cause = Cause2::Correlation;
    for event in events {
        let opens = problems_at(problems, stage.home(*event));
        push_closed(alloc, conf, number, now, cause, opens, *event, out)?;
    }
    Ok(())
}

/// Adds what comes last as a problem of the trigger with an id begins: its own Recovery where a rule closes it, else
/// step 1 of each action.
fn push_last(
    alloc: Global,
    conf: &Conf,
    number: u64,
    now: Moment,
    id: u32,
    problem: &Rec,
    is_closed: bool,
    out: &mut Many<Rec>,
) -> Result<(), OutOfMemory>
    ensures { OnOk result (out.new ≡ out.old ++ last_records conf.now number now id problem.now is_closed) }
{
    if is_closed {
        out.push(recovery_of(number, now, Cause2::Correlation, problem.event()))?;
        return Ok(());
    }
    let first = first_of(alloc, conf, id, problem, now)?;
    out.append(first)?;
    Ok(())
}

/// What a new problem of the trigger with an id makes, as rules close these: its record, the ends of the old ones,
/// and what comes last.
fn begun(
    alloc: Global,
    stage: &InForce,
    number: u64,
    now: Moment,
    problems: &[Many<Open>],
    id: u32,
    problem: &Rec,
    closes: &Closes,
) -> Result<Many<Rec>, OutOfMemory>
    ensures { IfOk result (λ made. made ≡ begun_with stage.now number now (problems_at problems.now) id problem.now
        closes.now) }
{
    let old = closes.old.as_slice();
    let mut made = Many::new(alloc);
    made.push(problem.copy(alloc)?)?;
    push_ruled(alloc, stage, number, now, problems, old, &mut made)?;
    push_last(
        alloc,
        stage.conf(),
        number,
        now,
        id,
        problem,
        closes.new,
        &mut made,
    )?;
    Ok(made)
}

/// What a new problem of the trigger with an id makes, and what rules close for it.
#[derive(Drop)]
struct Beginning {
    records: Many<Rec>,
    closes: Closes,
}

/// What a new problem of the trigger with an id makes, and what rules close for it.
fn begun_by(
    alloc: Global,
    ready: &Ready,
    number: u64,
    now: Moment,
    problems: &[Many<Open>],
    id: u32,
    problem: &Rec,
) -> Result<Beginning, OutOfMemory>
    ensures records { IfOk result (λ made. made.records ≡ begun_with ready.now number now (problems_at problems.now) id
        problem.now made.closes) }
    ensures closes { IfOk result (λ made. (trigger : Trigger) → at_id ready.now.conf.triggers id ≡ Some trigger
        → HasTagsOf trigger problem.now → made.closes ≡ ruled ready.now problem.now (problems_at problems.now)) }
{
    let closes = ruled(alloc, ready, id, problem, problems)?;
    let records = begun(
        alloc,
        ready.stage(),
        number,
        now,
        problems,
        id,
        problem,
        &closes,
    )?;
    Ok(Beginning { records, closes })
}

/// The open problems of a trigger behind some records, and those of other triggers.
#[derive(Drop)]
struct Left {
    all: Many<Open>,
    others: Many<Fresh>,
}

/// The open problems of the trigger with an id behind some records, and those of the triggers of these events.
fn left_by(
    alloc: Global,
    stage: &InForce,
    id: u32,
    problems: &[Many<Open>],
    events: &[EventId],
    records: &[Rec],
) -> Result<Left, OutOfMemory>
    ensures all { IfOk result (λ left. left.all ≡ absorbed_all stage.now id (problems_at problems.now id) records.now) }
    ensures others { IfOk result (λ left. Each (IsAbsorbed stage.now problems.now records.now) left.others) }
    ensures whole { IfOk result (λ left. Each (λ (e : EventId). ((id == home stage.now e) || has_fresh left.others
        (home stage.now e)) ≡ true) events.now) }
{
    let all = absorbed_row(alloc, stage, id, problems_at(problems, id), records)?;
    match others_of(alloc, stage, id, problems, events, records) {
        Ok(others) => Ok(Left { all, others }),
        Err(OutOfMemory) => {
            drop(all);
            Err(OutOfMemory)
        }
    }
}

/// The outcome of a trigger that adds some records: its open problems behind them, and those of the triggers of these
/// events.
#[tactic(auto, using(crate::proofs::Started::leaves_with))]
fn outcome_with(
    alloc: Global,
    stage: &InForce,
    id: u32,
    problems: &[Many<Open>],
    events: &[EventId],
    records: Many<Rec>,
) -> Result<TriggerOutcome, OutOfMemory>
    ensures { IfOk result (λ made. Leaves stage.now problems.now id events.now records made) }
{
    match left_by(alloc, stage, id, problems, events, records.as_slice()) {
        Ok(Left { all, others }) => Ok(TriggerOutcome {
            records,
            change: Change::Leave(all),
            others,
        }),
        Err(OutOfMemory) => {
            drop(records);
            Err(OutOfMemory)
        }
    }
}

/// The outcome of a trigger with a new problem, whose event has this rank, that makes this. Where no rule and no action does
/// anything about it, the open problems stay where they are.
fn landed(
    alloc: Global,
    stage: &InForce,
    id: u32,
    rank: u32,
    problems: &[Many<Open>],
    problem: Rec,
    made: Beginning,
) -> Result<TriggerOutcome, OutOfMemory>
    ensures { IfOk result (λ o. Lands stage.now problems.now id (record { problem = problem; steps = []; rank = rank })
        made.closes.old made.records o) }
{
    let Beginning { records, closes } = made;
    if records.len() == 1 {
        return Ok(TriggerOutcome {
            records,
            change: Change::Add(Open {
                problem,
                steps: Many::new(alloc),
                rank,
            }),
            others: Many::new(alloc),
        });
    }
    drop(problem);
    let old = closes.old.as_slice();
    outcome_with(alloc, stage, id, problems, old, records)
}

/// A new problem of a trigger, behind those that are open.
fn begin(
    alloc: Global,
    ready: &Ready,
    number: u64,
    now: Moment,
    values: &[Option<Held>],
    id: u32,
    trigger: &Trigger,
    problems: &[Many<Open>],
) -> Result<TriggerOutcome, OutOfMemory>
    requires { at_id ready.now.conf.triggers id ≡ Some trigger.now }
    ensures records { IfOk result (λ made. made.records ≡ begun_records ready.now number now
        (problems_at problems.now) id (problem_of ready.now.conf number now values.now id trigger.now)) }
    ensures rows { IfOk result (λ made. OwnsEvents ready.now number → length problems.now ≡ length ready.now.conf.triggers
        → Absorbed ready.now problems.now made.records (outcome_rows problems.now id (Some made))) }
{
    let stage = ready.stage();
    let event = EventId {
        number,
        trigger: id,
    };
    let problem = problem_of(alloc, ready, number, now, values, id, trigger)?;
    match begun_by(alloc, ready, number, now, problems, id, &problem) {
        Ok(made) => landed(alloc, stage, id, stage.rank(event), problems, problem, made),
        Err(OutOfMemory) => {
            drop(problem);
            Err(OutOfMemory)
        }
    }
}

/// The end of the open problems of a trigger with these events.
fn end(
    alloc: Global,
    stage: &InForce,
    number: u64,
    now: Moment,
    id: u32,
    problems: &[Many<Open>],
    events: &[EventId],
) -> Result<TriggerOutcome, OutOfMemory>
    ensures records { IfOk result (λ made. made.records ≡ flat_map
        (closed_records stage.now.conf number now Cause2.Expression (problems_at problems.now id)) events.now) }
    ensures rows { IfOk result (λ made. Each (λ e. home stage.now e ≡ id) events.now
        → length problems.now ≡ length stage.now.conf.triggers
        → Absorbed stage.now problems.now made.records (outcome_rows problems.now id (Some made))) }
{
    let opens = problems_at(problems, id);
    let records = closings(alloc, stage.conf(), number, now, opens, events)?;
    let all = absorbed_row(alloc, stage, id, opens, records.as_slice())?;
    Ok(TriggerOutcome {
        records,
        change: Change::Leave(all),
        others: Many::new(alloc),
    })
}

/// What a verdict on a trigger adds. None: nothing changes.
#[tactic(auto, unfolding(crate::specs::Records::verdict_records))]
fn settled(
    alloc: Global,
    calls: &Calls,
    problems: &[Many<Open>],
    verdict: &Verdict,
) -> Result<Option<TriggerOutcome>, OutOfMemory>
    requires cached { AreCached calls.now }
    requires trigger { at_id calls.now.ready.now.conf.triggers calls.now.id ≡ Some calls.now.trigger.now }
    ensures records { IfOk result (λ made. (items : ℕ → List Stored) → Shown calls.now items
        → outcome_records made ≡ verdict_records calls.now.ready.now calls.now.occasion.number calls.now.occasion.now
        (shown_values items calls.now.occasion.now calls.now.trigger.now) calls.now.id calls.now.trigger.now
        (problems_at problems.now) verdict.now) }
    ensures rows { IfOk result (λ made. OwnsEvents calls.now.ready.now calls.now.occasion.number
        → EachClosed (λ e. home calls.now.ready.now e ≡ calls.now.id) verdict.now
        → length problems.now ≡ length calls.now.ready.now.conf.triggers
        → Absorbed calls.now.ready.now problems.now (outcome_records made)
        (outcome_rows problems.now calls.now.id made)) }
{
    let ready = calls.ready;
    let id = calls.id;
    let number = calls.occasion.number;
    let now = calls.occasion.now;
    match verdict {
        Verdict::Nothing => Ok(None),
        Verdict::New => {
            let values = shown_values(alloc, calls)?;
            Ok(Some(begin(
                alloc,
                ready,
                number,
                now,
                values.as_slice(),
                id,
                calls.trigger,
                problems,
            )?))
        }
        Verdict::Close(events) => {
            let stage = ready.stage();
            let events = events.as_slice();
            Ok(Some(end(alloc, stage, number, now, id, problems, events)?))
        }
    }
}

/// The tags that a trigger has now, as far as its verdict needs them: only open problems that close by a tag do.
#[tactic(auto, using(crate::proofs::Sight::serve_same, crate::proofs::Sight::serve_untagged, crate::proofs::Sight::serve_none))]
fn closing_tags(alloc: Global, calls: &Calls, opens: &[Open]) -> Result<Many<Tag>, OutOfMemory>
    requires cached { AreCached calls.now }
    requires trigger { at_id calls.now.ready.now.conf.triggers calls.now.id ≡ Some calls.now.trigger.now }
    ensures { IfOk result (λ made. (items : ℕ → List Stored) → Shown calls.now items
        → Serve calls.now.trigger.now opens.now made (event_tags calls.now.ready.now.conf calls.now.id
        (shown_values items calls.now.occasion.now calls.now.trigger.now))) }
{
    if calls.trigger.close_tag.len() == 0 {
        return Ok(Many::new(alloc));
    }
    if opens.len() == 0 {
        return Ok(Many::new(alloc));
    }
    let values = shown_values(alloc, calls)?;
    calls.ready.tags_of(alloc, calls.id, values.as_slice())
}

/// What a trigger adds where it is evaluated, whose calls have these values, and is held or not. None: nothing changes.
pub(crate) fn judge(
    alloc: Global,
    calls: &Calls,
    values: &[Option<Fix>],
    plan: &[Node],
    recovery: &[Node],
    held: bool,
    problems: &[Many<Open>],
) -> Result<Option<TriggerOutcome>, OutOfMemory>
    requires cached { AreCached calls.now }
    requires there { at_id calls.now.ready.now.conf.triggers calls.now.id ≡ Some calls.now.trigger.now }
    requires plan { plan.now ≡ plan_of calls.now.trigger.now }
    requires recovery { recovery.now ≡ recovery_plan_of calls.now.trigger.now }
    ensures records { IfOk result (λ made. (items : ℕ → List Stored) → Shown calls.now items
        → outcome_records made ≡ judged calls.now.ready.now calls.now.occasion (sight_of calls.now values.now items)
        calls.now.id calls.now.trigger.now held (problems_at problems.now)) }
    ensures rows { IfOk result (λ made. AreTidy calls.now.ready.now calls.now.occasion.number problems.now
        → Absorbed calls.now.ready.now problems.now (outcome_records made)
        (outcome_rows problems.now calls.now.id made)) }
{
    let trigger = calls.trigger;
    let opens = problems_at(problems, calls.id);
    let tags = closing_tags(alloc, calls, opens)?;
    let p = plan_value(values, trigger, plan);
    let r = recovery_value(values, trigger, recovery);
    let is_value = calls.occasion.is_value;
    let verdict = verdict_over(alloc, trigger, held, opens, p, r, tags.as_slice(), is_value)?;
    settled(alloc, calls, problems, &verdict)
}
