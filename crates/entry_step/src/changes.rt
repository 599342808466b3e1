//! What a step changes, and how that is put back.

ghost use Rattle.std.specs.Prelude.{◌≡◌, ◌++◌, ◌∷◌, [], OnOk, OnErr};
ghost use Rattle.entry_step.specs.Represents.{problems_at};
ghost use Rattle.entry_step.specs.Changes.{with_row, with_all, changed, restored, put_back, outcome_records, outcome_rows};

use std::alloc::Global;
use std::mem::replace;
use trigger_state::Open;
use zbx_types::{Many, OutOfMemory, Rec};

/// How the open problems of a trigger change.
#[derive(Drop)]
pub(crate) enum Change {
    /// One more.
    Add(Open),
    /// These in place of all.
    Leave(Many<Open>),
}

/// Open problems in place of those of the trigger with an id.
#[derive(Drop)]
pub(crate) struct Fresh {
    pub(crate) id: u32,
    pub(crate) opens: Many<Open>,
}

/// What a trigger adds, how its open problems change with that, and what other triggers have then.
#[derive(Drop)]
pub(crate) struct TriggerOutcome {
    pub(crate) records: Many<Rec>,
    pub(crate) change: Change,
    pub(crate) others: Many<Fresh>,
}

/// What the open problems of a trigger were before.
#[derive(Drop)]
pub(crate) enum Before {
    /// The first of those that are open now, so many.
    First(usize),
    /// These.
    All(Many<Open>),
}

/// What the open problems of a trigger were before. The trigger goes by its place, counted from 0.
#[derive(Drop)]
pub(crate) struct Row {
    pub(crate) index: usize,
    pub(crate) before: Before,
}

/// What the triggers over an item have made so far, and what they had before, in the order in which it was taken out.
#[derive(Drop)]
pub(crate) struct Draft {
    pub(crate) records: Many<Rec>,
    pub(crate) taken: Many<Row>,
}

/// Makes the open problems of a trigger what they were before. Takes no memory.
fn restore(alloc: Global, opens: &mut Many<Open>, before: Before)
    ensures { opens.new ≡ restored opens.old before }
{
    match before {
        Before::All(all) => drop(replace(opens, all)),
        Before::First(count) => {
            let mut items = replace(opens, Many::new(alloc)).into_vec();
            items.truncate(count);
            *opens = Many::from_vec(items);
        }
    }
}

/// Puts other open problems into the row of the trigger with an id, and keeps what it had. At `Err` the row is as
/// before.
#[tactic(auto, using(crate::proofs::Writes::row_none, crate::proofs::Writes::row_past, crate::proofs::Writes::row_in, crate::proofs::Writes::back_more, crate::proofs::Writes::back_same))]
fn exchange(
    alloc: Global,
    problems: &mut Vec<Many<Open>>,
    taken: &mut Many<Row>,
    id: u32,
    opens: Many<Open>,
) -> Result<(), OutOfMemory>
    ensures rows { OnOk result (problems.new.items ≡ with_row problems.old.items id opens) }
    ensures same { put_back problems.new.items taken.new ≡ put_back problems.old.items taken.old }
{
    if id == 0 {
        return Ok(());
    }
    let index = id as usize - 1;
    if index >= problems.len() {
        return Ok(());
    }
    let before = replace(&mut problems[index], opens);
    match taken.push(Row {
        index,
        before: Before::All(before),
    }) {
        Ok(()) => Ok(()),
        Err(failed) => {
            restore(alloc, &mut problems[index], failed.value.before);
            Err(OutOfMemory)
        }
    }
}

/// Adds an open problem to some.
fn push_open(opens: &mut Many<Open>, one: Open) -> Result<(), OutOfMemory>
    ensures ok { OnOk result (opens.new ≡ opens.old ++ one ∷ []) }
    ensures err { OnErr result (opens.new ≡ opens.old) }
{
    match opens.push(one) {
        Ok(()) => Ok(()),
        Err(failed) => {
            drop(failed);
            Err(OutOfMemory)
        }
    }
}

/// Keeps how many open problems a row had.
fn keep_count(taken: &mut Many<Row>, index: usize, count: usize) -> Result<(), OutOfMemory>
    ensures ok { OnOk result (taken.new ≡ taken.old ++ (record { index = index; before = Before.First count }) ∷ []) }
    ensures err { OnErr result (taken.new ≡ taken.old) }
{
    match taken.push(Row {
        index,
        before: Before::First(count),
    }) {
        Ok(()) => Ok(()),
        Err(failed) => {
            drop(failed);
            Err(OutOfMemory)
        }
    }
}

/// Adds an open problem to the row of the trigger with an id, and keeps how many it had. At `Err` the row is as before.
#[tactic(auto, using(crate::proofs::Writes::row_none, crate::proofs::Writes::row_past, crate::proofs::Writes::row_more, crate::proofs::Writes::back_first, crate::proofs::Writes::back_refused))]
fn add(
    problems: &mut Vec<Many<Open>>,
    taken: &mut Many<Row>,
    id: u32,
    one: Open,
) -> Result<(), OutOfMemory>
    ensures rows { OnOk result (problems.new.items ≡ with_row problems.old.items id
        (problems_at problems.old.items id ++ one ∷ [])) }
    ensures same { put_back problems.new.items taken.new ≡ put_back problems.old.items taken.old }
{
    if id == 0 {
        drop(one);
        return Ok(());
    }
    let index = id as usize - 1;
    if index >= problems.len() {
        drop(one);
        return Ok(());
    }
    match keep_count(taken, index, problems[index].len()) {
        Ok(()) => push_open(&mut problems[index], one),
        Err(OutOfMemory) => {
            drop(one);
            Err(OutOfMemory)
        }
    }
}

/// Puts other open problems into the rows of some triggers, and keeps what they had, also at `Err`.
#[tactic(auto, using(crate::proofs::Writes::all_push))]
fn exchange_all(
    alloc: Global,
    problems: &mut Vec<Many<Open>>,
    taken: &mut Many<Row>,
    others: Many<Fresh>,
) -> Result<(), OutOfMemory>
    ensures rows { OnOk result (problems.new.items ≡ with_all problems.old.items others) }
    ensures same { put_back problems.new.items taken.new ≡ put_back problems.old.items taken.old }
{
    for one in others.into_vec() {
        exchange(alloc, problems, taken, one.id, one.opens)?;
    }
    Ok(())
}

impl Draft {
    /// Changes the open problems of the trigger with an id.
    fn change(
        &mut self,
        alloc: Global,
        problems: &mut Vec<Many<Open>>,
        id: u32,
        change: Change,
    ) -> Result<(), OutOfMemory>
        ensures rows { OnOk result (problems.new.items ≡ with_row problems.old.items id
            (changed (problems_at problems.old.items id) change)) }
        ensures same { put_back problems.new.items self.new.taken ≡ put_back problems.old.items self.old.taken }
        ensures records { self.new.records ≡ self.old.records }
    {
        match change {
            Change::Add(one) => add(problems, &mut self.taken, id, one),
            Change::Leave(all) => exchange(alloc, problems, &mut self.taken, id, all),
        }
    }

    /// Changes the open problems of the trigger with an id, and those of others.
    fn change_all(
        &mut self,
        alloc: Global,
        problems: &mut Vec<Many<Open>>,
        id: u32,
        change: Change,
        others: Many<Fresh>,
    ) -> Result<(), OutOfMemory>
        ensures rows { OnOk result (problems.new.items ≡ with_all (with_row problems.old.items id
            (changed (problems_at problems.old.items id) change)) others) }
        ensures same { put_back problems.new.items self.new.taken ≡ put_back problems.old.items self.old.taken }
        ensures records { self.new.records ≡ self.old.records }
    {
        match self.change(alloc, problems, id, change) {
            Ok(()) => exchange_all(alloc, problems, &mut self.taken, others),
            Err(OutOfMemory) => {
                drop(others);
                Err(OutOfMemory)
            }
        }
    }

    /// Adds the outcome of the trigger with an id, whose open problems change with it, and those of others.
    pub(crate) fn take(
        &mut self,
        alloc: Global,
        problems: &mut Vec<Many<Open>>,
        id: u32,
        outcome: Option<TriggerOutcome>,
    ) -> Result<(), OutOfMemory>
        ensures records { OnOk result (self.new.records ≡ self.old.records ++ outcome_records outcome) }
        ensures rows { OnOk result (problems.new.items ≡ outcome_rows problems.old.items id outcome) }
        ensures same { put_back problems.new.items self.new.taken ≡ put_back problems.old.items self.old.taken }
    {
        let Some(outcome) = outcome else {
            return Ok(());
        };
        let TriggerOutcome {
            records,
            change,
            others,
        } = outcome;
        match self.records.append(records) {
            Ok(()) => self.change_all(alloc, problems, id, change, others),
            Err(OutOfMemory) => {
                drop(change);
                drop(others);
                Err(OutOfMemory)
            }
        }
    }
}

/// Puts back what was taken out, the last first. Takes no memory.
#[tactic(auto, using(crate::proofs::Writes::rows_push, crate::proofs::Writes::rows_past), unfolding(crate::specs::Changes::put_back))]
pub(crate) fn put_back(alloc: Global, problems: &mut Vec<Many<Open>>, taken: Many<Row>)
    ensures { problems.new.items ≡ put_back problems.old.items taken }
{
    let mut rows = taken.into_vec();
    rows.reverse();
    for row in rows {
        if row.index < problems.len() {
            restore(alloc, &mut problems[row.index], row.before);
        }
    }
}
