//! How a record changes the open problems of its trigger.

ghost use Rattle.std.specs.Prelude.{◌≡◌, ◌<◌, ◌==◌, ◌++◌, ◌∷◌, [], ℕ, not, map, filter, length, if◌then◌else◌, OnOk, OnErr};
ghost use Rattle.zbx_types.specs.Records.{same_event, event_of};
ghost use Rattle.trigger_state.specs.Cells.{row_at};
ghost use Rattle.trigger_state.specs.Problems.{event_in, opened, stepped, absorbed};
ghost use Rattle.trigger_state.specs.Stages.{home};

use crate::problems::{Open, is_of};
use crate::stage::InForce;
use crate::steps::step_all;
use std::alloc::Global;
use std::mem::replace;
use zbx_types::{EventId, Many, OutOfMemory, Rec};

/// Adds rows with nothing open until there is one at an id.
fn reach(alloc: Global, rows: &mut Vec<Many<Open>>, id: u32) -> Result<(), OutOfMemory>
    ensures within { OnOk result (id < length rows.new.items) }
    ensures same { (place : ℕ) → row_at rows.new.items place ≡ row_at rows.old.items place }
{
    for _row in rows.len()..id as usize + 1 {
        rows.push(Many::new(alloc))?;
    }
    Ok(())
}

/// Adds a problem to the row of its trigger. At [`OutOfMemory`] what is open is as before.
pub(crate) fn add(
    alloc: Global,
    stage: &InForce,
    rows: &mut Vec<Many<Open>>,
    event: EventId,
    problem: &Rec,
) -> Result<(), OutOfMemory>
    requires { event_of problem.now ≡ event }
    ensures ok { OnOk result ((id : ℕ) → row_at rows.new.items id ≡ (if home stage.now event == id then row_at rows.old.items id ++ opened stage.now problem.now [] ∷ [] else row_at rows.old.items id)) }
    ensures err { OnErr result ((id : ℕ) → row_at rows.new.items id ≡ row_at rows.old.items id) }
{
    let home = stage.home(event);
    let place = home as usize;
    reach(alloc, rows, home)?;
    rows[place].push(Open {
        problem: problem.copy(alloc)?,
        steps: Many::new(alloc),
        rank: stage.rank(event),
    })?;
    Ok(())
}

/// Open problems without those of an event.
fn without(row: Many<Open>, event: EventId) -> Many<Open>
    ensures { result ≡ filter (λ o. not (same_event (event_in o) event)) row }
{
    let mut kept = row.into_vec();
    kept.retain(|one| !is_of(one, event));
    Many::from_vec(kept)
}

/// Closes a problem of the trigger with an id.
pub(crate) fn close(alloc: Global, rows: &mut Vec<Many<Open>>, home: u32, event: EventId)
    ensures { (id : ℕ) → row_at rows.new.items id ≡ (if home == id then filter (λ o. not (same_event (event_in o) event)) (row_at rows.old.items id) else row_at rows.old.items id) }
{
    let place = home as usize;
    if place < rows.len() {
        let row = replace(&mut rows[place], Many::new(alloc));
        rows[place] = without(row, event);
    }
}

/// The same as [`step_all`], over a vector.
fn step_row(alloc: Global, row: &mut Vec<Open>, step: &Rec) -> Result<(), OutOfMemory>
    ensures ok { OnOk result (row.new.items ≡ map (stepped step.now) row.old.items) }
    ensures err { OnErr result (row.new.items ≡ row.old.items) }
{
    match step_all(alloc, row.as_mut_slice(), step) {
        Ok(()) => Ok(()),
        Err(OutOfMemory) => Err(OutOfMemory),
    }
}

/// Gives a step to the open problem of its event, which is of the trigger with an id. At [`OutOfMemory`] what is open
/// is as before.
pub(crate) fn run(
    alloc: Global,
    rows: &mut Vec<Many<Open>>,
    home: u32,
    step: &Rec,
) -> Result<(), OutOfMemory>
    ensures ok { OnOk result ((id : ℕ) → row_at rows.new.items id ≡ (if home == id then map (stepped step.now) (row_at rows.old.items id) else row_at rows.old.items id)) }
    ensures err { OnErr result ((id : ℕ) → row_at rows.new.items id ≡ row_at rows.old.items id) }
{
    let place = home as usize;
    if place >= rows.len() {
        return Ok(());
    }
    let mut row = replace(&mut rows[place], Many::new(alloc)).into_vec();
    match step_row(alloc, &mut row, step) {
        Ok(()) => {
            rows[place] = Many::from_vec(row);
            Ok(())
        }
        Err(OutOfMemory) => {
            rows[place] = Many::from_vec(row);
            Err(OutOfMemory)
        }
    }
}

/// Adds a problem behind the open ones of its trigger. At [`OutOfMemory`] they are as before.
fn push_opened(
    alloc: Global,
    stage: &InForce,
    opens: &mut Many<Open>,
    event: EventId,
    problem: &Rec,
) -> Result<(), OutOfMemory>
    requires { event_of problem.now ≡ event }
    ensures ok { OnOk result (opens.new ≡ opens.old ++ opened stage.now problem.now [] ∷ []) }
    ensures err { OnErr result (opens.new ≡ opens.old) }
{
    opens.push(Open {
        problem: problem.copy(alloc)?,
        steps: Many::new(alloc),
        rank: stage.rank(event),
    })?;
    Ok(())
}

/// The same as [`step_all`], over open problems that may grow.
fn step_many(alloc: Global, opens: &mut Many<Open>, step: &Rec) -> Result<(), OutOfMemory>
    ensures ok { OnOk result (opens.new ≡ map (stepped step.now) opens.old) }
    ensures err { OnErr result (opens.new ≡ opens.old) }
{
    let mut row = replace(opens, Many::new(alloc)).into_vec();
    let done = step_row(alloc, &mut row, step);
    *opens = Many::from_vec(row);
    done
}

/// Closes a problem among the open ones of its trigger.
fn close_in(alloc: Global, opens: &mut Many<Open>, event: EventId)
    ensures { opens.new ≡ filter (λ o. not (same_event (event_in o) event)) opens.old }
{
    let row = replace(opens, Many::new(alloc));
    *opens = without(row, event);
}

/// Brings the open problems of the trigger with an id up to one more record, as [`TriggerCells::absorb`] does with those of
/// all triggers: one of another trigger changes nothing. [`OutOfMemory`] where there is no room for the copy that is
/// kept; they are then as before.
///
/// [`TriggerCells::absorb`]: crate::TriggerCells::absorb
#[tactic(auto, unfolding(crate::specs::Problems::absorbed))]
pub fn absorb_into(
    alloc: Global,
    stage: &InForce,
    id: u32,
    opens: &mut Many<Open>,
    rec: &Rec,
) -> Result<(), OutOfMemory>
    ensures ok { OnOk result (opens.new ≡ absorbed stage.now id opens.old rec.now) }
    ensures err { OnErr result (opens.new ≡ opens.old) }
{
    match rec {
        Rec::Problem { event, .. } => {
            if stage.home(*event) == id {
                push_opened(alloc, stage, opens, *event, rec)
            } else {
                Ok(())
            }
        }
        Rec::Recovery { event, .. } => {
            if stage.home(*event) == id {
                close_in(alloc, opens, *event);
            }
            Ok(())
        }
        Rec::Step { event, .. } => {
            if stage.home(*event) == id {
                step_many(alloc, opens, rec)
            } else {
                Ok(())
            }
        }
        Rec::Failure { .. } | Rec::Message { .. } => Ok(()),
    }
}
