//! The open problems of a base, put into the rows of their triggers.

ghost use Rattle.std.specs.Prelude.{◌≡◌, ◌<◌, ◌∷◌, [], length, map, flat_map, replicate, slice_set, slice_index_or, OnOk, IfOk};
ghost use Rattle.zbx_types.specs.Records.{event_of};
ghost use Rattle.trigger_state.specs.Problems.{absorbed};
ghost use Rattle.base_laws.specs.Bases.{read_ran, read_problem, start_records, told_origin, told_origins};
ghost use Rattle.entry_step.specs.Changes.{Absorbed};
ghost use Rattle.base_laws.specs.Restoring.{IsHoused, AreHoused};

use std::alloc::Global;
use trigger_state::{InForce, Open, Origin, absorb_into};
use zbx_types::{Base, BaseProblem, Many, OutOfMemory, Ran, Rec, Text, id_of};

/// Where the event of a problem comes from, which has a place among others.
fn origin_of(alloc: Global, place: u32, one: &BaseProblem) -> Result<Origin, OutOfMemory>
    ensures { IfOk result (λ made. made ≡ told_origin place one.now) }
{
    let (host, trigger) = match &one.problem {
        Rec::Problem { host, trigger, .. } => (host.copy(alloc)?, trigger.copy(alloc)?),
        Rec::Failure { .. } | Rec::Recovery { .. } | Rec::Step { .. } | Rec::Message { .. } => (
            Text::new(alloc),
            Text::new(alloc),
        ),
    };
    Ok(Origin {
        event: one.problem.event(),
        host,
        trigger,
        rank: place,
    })
}

/// Where the events of problems come from, each with its place as its rank.
pub(crate) fn origins_of(
    alloc: Global,
    problems: &[BaseProblem],
) -> Result<Vec<Origin>, OutOfMemory>
    ensures { IfOk result (λ made. made.items ≡ told_origins 0 problems.now) }
{
    let mut made = Vec::new(alloc);
    for (place, one) in problems.iter().enumerate() {
        made.push(origin_of(alloc, id_of(place)? - 1, one)?)?;
    }
    Ok(made)
}

/// Brings the row of a trigger up to one more record.
fn take_at(
    alloc: Global,
    stage: &InForce,
    rows: &mut Vec<Many<Open>>,
    index: usize,
    id: u32,
    rec: &Rec,
) -> Result<(), OutOfMemory>
    requires { index < length rows.old.items }
    ensures { OnOk result (rows.new.items
        ≡ slice_set rows.old.items index (absorbed stage.now id (slice_index_or rows.old.items index []) rec.now)) }
{
    absorb_into(alloc, stage, id, &mut rows[index], rec)
}

/// Brings the rows of the triggers up to one more record, if its trigger has a row.
#[tactic(auto, using(crate::proofs::Housing::taken_in, crate::proofs::Housing::none_housed, crate::proofs::Housing::past_housed))]
fn take(
    alloc: Global,
    stage: &InForce,
    rows: &mut Vec<Many<Open>>,
    rec: &Rec,
) -> Result<(), OutOfMemory>
    ensures { OnOk result (IsHoused stage.now rows.old.items (event_of rec.now) → Absorbed stage.now rows.old.items
        (rec.now ∷ []) rows.new.items) }
{
    let id = stage.home(rec.event());
    if id == 0 {
        return Ok(());
    }
    let index = id as usize - 1;
    if index >= rows.len() {
        return Ok(());
    }
    take_at(alloc, stage, rows, index, id, rec)
}

/// A step that ran, as its record.
fn step_of(alloc: Global, problem: &Rec, ran: &Ran) -> Result<Rec, OutOfMemory>
    ensures { IfOk result (λ rec. rec ≡ read_ran (event_of problem.now) ran.entry.now) }
{
    Ok(Rec::Step {
        event: problem.event(),
        action: ran.action.copy(alloc)?,
        step: ran.step,
        now: ran.now,
    })
}

/// Brings the rows up to the steps that ran for a problem.
fn take_steps(
    alloc: Global,
    stage: &InForce,
    rows: &mut Vec<Many<Open>>,
    problem: &Rec,
    ran: &[Ran],
) -> Result<(), OutOfMemory>
    ensures { OnOk result (IsHoused stage.now rows.old.items (event_of problem.now) → Absorbed stage.now rows.old.items
        (map (read_ran (event_of problem.now)) ran.now) rows.new.items) }
{
    for one in ran {
        let step = step_of(alloc, problem, one)?;
        let taken = take(alloc, stage, rows, &step);
        drop(step);
        taken?;
    }
    Ok(())
}

/// Brings the rows up to an open problem.
#[tactic(auto, using(crate::proofs::Housing::taken_both))]
fn take_problem(
    alloc: Global,
    stage: &InForce,
    rows: &mut Vec<Many<Open>>,
    problem: &BaseProblem,
) -> Result<(), OutOfMemory>
    ensures { OnOk result (IsHoused stage.now rows.old.items (event_of problem.now.problem) → Absorbed stage.now
        rows.old.items (read_problem problem.now) rows.new.items) }
{
    take(alloc, stage, rows, &problem.problem)?;
    take_steps(alloc, stage, rows, &problem.problem, problem.ran.as_slice())
}

/// Brings the rows up to all open problems.
fn take_problems(
    alloc: Global,
    stage: &InForce,
    rows: &mut Vec<Many<Open>>,
    problems: &[BaseProblem],
) -> Result<(), OutOfMemory>
    ensures { OnOk result (AreHoused stage.now rows.old.items problems.now → Absorbed stage.now rows.old.items
        (flat_map read_problem problems.now) rows.new.items) }
{
    for problem in problems {
        take_problem(alloc, stage, rows, problem)?;
    }
    Ok(())
}

/// So many rows with nothing open.
fn no_rows(alloc: Global, count: usize) -> Result<Vec<Many<Open>>, OutOfMemory>
    ensures { IfOk result (λ rows. rows.items ≡ replicate count []) }
{
    let mut rows = Vec::new(alloc);
    for _row in 0..count {
        rows.push(Many::new(alloc))?;
    }
    Ok(rows)
}

/// The open problems of each trigger of a configuration, those of a base, in the order of ids.
pub(crate) fn rows_of(
    alloc: Global,
    stage: &InForce,
    base: &Base,
) -> Result<Vec<Many<Open>>, OutOfMemory>
    ensures { IfOk result (λ rows. AreHoused stage.now (replicate (length stage.now.conf.triggers) []) base.entry.now.problems
        → Absorbed stage.now (replicate (length stage.now.conf.triggers) []) (start_records base.entry.now) rows.items) }
{
    let mut rows = no_rows(alloc, stage.conf().triggers.len())?;
    take_problems(alloc, stage, &mut rows, base.problems.as_slice())?;
    Ok(rows)
}
