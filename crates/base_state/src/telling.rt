//! The base of what a run keeps.

ghost use Rattle.std.specs.Prelude.{◌≡◌, ◌++◌, List, map, flat_map, IfOk, OnOk};
ghost use Rattle.prep_steps.specs.declared.memory.StepMemory.{StepMemory};
ghost use Rattle.zbx_types.specs.Records.{event_of};
ghost use Rattle.zbx_types.specs.declared.base.BaseProblem.{BaseProblem};
ghost use Rattle.event_text.specs.Titles.{held_text};
ghost use Rattle.value_cache.specs.Cells.{IsIn};
ghost use Rattle.value_cache.specs.Tokens.{AreOf, values_of};
ghost use Rattle.preprocess.specs.Chains.{listed};
ghost use Rattle.preprocess.specs.Draft.{AreIn};
ghost use Rattle.base_laws.specs.Bases.{told_value, told_step, told_ran, told_problem};
ghost use Rattle.entry_step.specs.Order.{by_event};
ghost use Rattle.entry_step.specs.Represents.{problems_at};
ghost use Rattle.base_state.specs.Telling.{cell_item, cell_items, row_problems, IsBaseOf};

use crate::place::Place;
use conf_index::Ready;
use entry_step::Cells;
use prep_steps::StepMemory;
use std::alloc::Global;
use trigger_state::{InForce, Open};
use value_cache::{Cache, ItemCell, Token};
use zbx_types::{
    Base, BaseItem, BaseProblem, BaseStep, BaseValue, Held, Many, Moment, OutOfMemory, Ran, Rec,
    Stored, Text, by_id, id_of,
};

/// A value as it is written.
fn text_of(alloc: Global, held: &Held) -> Result<Text, OutOfMemory>
    ensures { IfOk result (λ text. text ≡ held_text held.now) }
{
    match held {
        Held::Number(number) => {
            let mut text = Text::new(alloc);
            number.write(&mut text)?;
            Ok(text)
        }
        Held::Words(text) => text.copy(alloc),
    }
}

/// A value that an item keeps.
fn value_of(alloc: Global, stored: &Stored) -> Result<BaseValue, OutOfMemory>
    ensures { IfOk result (λ value. value ≡ told_value stored.now) }
{
    Ok(BaseValue {
        time: stored.time,
        number: stored.number,
        value: text_of(alloc, &stored.value)?,
    })
}

/// Values that an item keeps, by their tokens.
fn values_of(alloc: Global, cache: &Cache, tokens: &[Token]) -> Result<Many<BaseValue>, OutOfMemory>
    requires { AreOf cache.now tokens.now }
    ensures { IfOk result (λ made. made ≡ map told_value (values_of tokens.now)) }
{
    let mut made = Many::new(alloc);
    for token in tokens {
        made.push(value_of(alloc, cache.value(token))?)?;
    }
    Ok(made)
}

/// What a step remembers.
fn step_of(alloc: Global, memory: &StepMemory) -> Result<BaseStep, OutOfMemory>
    ensures { IfOk result (λ step. step ≡ told_step memory.now) }
{
    Ok(BaseStep {
        there: memory.there,
        time: memory.time,
        value: memory.value.copy(alloc)?,
    })
}

/// What the steps of an item remember.
fn steps_of(alloc: Global, marks: &[StepMemory]) -> Result<Many<BaseStep>, OutOfMemory>
    ensures { IfOk result (λ made. made ≡ map told_step marks.now) }
{
    let mut made = Many::new(alloc);
    for memory in marks {
        made.push(step_of(alloc, memory)?)?;
    }
    Ok(made)
}

/// What a cell keeps at a moment, the values the oldest first.
fn kept_values(
    alloc: Global,
    cache: &Cache,
    now: Moment,
    cell: &ItemCell,
) -> Result<Many<BaseValue>, OutOfMemory>
    requires { IsIn cache.now cell.now }
    ensures { IfOk result (λ made. (marks : List StepMemory) → made ≡ (cell_item now cell.now marks).values) }
{
    let kept = cell.copy(alloc)?.with_keep(cell.keep(), now);
    values_of(alloc, cache, kept.tokens())
}

/// What a cell keeps at a moment, and what the steps of its item remember.
fn item_of(
    alloc: Global,
    cache: &Cache,
    now: Moment,
    cell: &ItemCell,
    marks: &[StepMemory],
) -> Result<BaseItem, OutOfMemory>
    requires { IsIn cache.now cell.now }
    ensures { IfOk result (λ made. made ≡ cell_item now cell.now marks.now) }
{
    let steps = steps_of(alloc, marks)?;
    let values = kept_values(alloc, cache, now, cell)?;
    Ok(BaseItem { values, steps })
}

/// What the steps of the item with an id remember.
fn marks_at(memories: &[Many<StepMemory>], id: u32) -> &[StepMemory]
    ensures { result.now ≡ listed memories.now id }
{
    match by_id(memories, id) {
        None => &[],
        Some(marks) => marks.as_slice(),
    }
}

/// What is kept of each item at a moment.
fn items_of(
    alloc: Global,
    cache: &Cache,
    now: Moment,
    cells: &[ItemCell],
    memories: &[Many<StepMemory>],
) -> Result<Many<BaseItem>, OutOfMemory>
    requires { AreIn cache.now cells.now }
    ensures { IfOk result (λ made. made ≡ cell_items now memories.now 1 cells.now) }
{
    let mut made = Many::new(alloc);
    for (place, cell) in cells.iter().enumerate() {
        let marks = marks_at(memories, id_of(place)?);
        made.push(item_of(alloc, cache, now, cell, marks)?)?;
    }
    Ok(made)
}

/// A step that ran, without its event.
fn ran_of(alloc: Global, step: &Rec) -> Result<Ran, OutOfMemory>
    ensures { IfOk result (λ ran. ran ≡ told_ran step.now) }
{
    match step {
        Rec::Step {
            action,
            step,
            now,
            ..
        } => Ok(Ran {
            action: action.copy(alloc)?,
            step: *step,
            now: *now,
        }),
        Rec::Failure { .. } | Rec::Problem { .. } | Rec::Recovery { .. } | Rec::Message { .. } => {
            Ok(Ran {
                action: Text::new(alloc),
                step: 0,
                now: Moment::zero(),
            })
        }
    }
}

/// Steps that ran.
fn rans_of(alloc: Global, steps: &[Rec]) -> Result<Many<Ran>, OutOfMemory>
    ensures { IfOk result (λ made. made ≡ map told_ran steps.now) }
{
    let mut made = Many::new(alloc);
    for step in steps {
        made.push(ran_of(alloc, step)?)?;
    }
    Ok(made)
}

/// An open problem, with the last step of each action.
fn problem_of(alloc: Global, one: &Open) -> Result<BaseProblem, OutOfMemory>
    ensures { IfOk result (λ made. made ≡ told_problem one.now) }
{
    let ran = rans_of(alloc, one.steps.as_slice())?;
    Ok(BaseProblem {
        problem: one.problem.copy(alloc)?,
        ran,
    })
}

/// Adds open problems to others.
fn push_problems(
    alloc: Global,
    opens: &[Open],
    made: &mut Vec<BaseProblem>,
) -> Result<(), OutOfMemory>
    ensures { OnOk result (made.new.items ≡ made.old.items ++ map told_problem opens.now) }
{
    for one in opens {
        made.push(problem_of(alloc, one)?)?;
    }
    Ok(())
}

/// The open problems of the trigger with an id.
#[tactic(auto, unfolding(entry_step::specs::Represents::problems_at))]
fn problems_at(rows: &[Many<Open>], id: u32) -> &[Open]
    ensures { result.now ≡ problems_at rows.now id }
{
    match by_id(rows, id) {
        None => &[],
        Some(opens) => opens.as_slice(),
    }
}

/// The open problems of the triggers with these ids, one trigger after another.
fn problems_of(
    alloc: Global,
    rows: &[Many<Open>],
    ids: &[u32],
) -> Result<Vec<BaseProblem>, OutOfMemory>
    ensures { IfOk result (λ made. made.items ≡ flat_map (λ id. map told_problem (problems_at rows.now id)) ids.now) }
{
    let mut made = Vec::new(alloc);
    for id in ids {
        push_problems(alloc, problems_at(rows, *id), &mut made)?;
    }
    Ok(made)
}

/// Problems in the order in which they were made.
fn in_order(stage: &InForce, problems: Vec<BaseProblem>) -> Result<Vec<BaseProblem>, OutOfMemory>
    ensures { IfOk result (λ made. made.items ≡ by_event stage.now (λ (p : BaseProblem). event_of p.problem)
        problems.items) }
{
    let mut made = problems;
    made.sort_by_key(|one| one.problem.event().trigger)?;
    made.sort_by_key(|one| stage.rank(one.problem.event()))?;
    made.sort_by_key(|one| one.problem.event().number)?;
    Ok(made)
}

/// The open problems of all triggers, in the order of making.
#[tactic(auto, using(crate::proofs::Told::told_in_order))]
fn all_problems(
    alloc: Global,
    ready: &Ready,
    rows: &[Many<Open>],
) -> Result<Many<BaseProblem>, OutOfMemory>
    ensures { IfOk result (λ made. made ≡ row_problems ready.now rows.now) }
{
    let told = problems_of(alloc, rows, ready.order())?;
    let made = in_order(ready.stage(), told)?;
    Ok(Many::from_vec(made))
}

/// The base of what a run keeps behind a log that ends at a place: what the log leaves, in place of its entries.
///
/// [`OutOfMemory`] where there is no room for it. It takes time by the number of items, triggers, values and open problems,
/// and the lengths of their texts.
#[tactic(auto, using(crate::proofs::Told::base_is))]
pub fn base_of(alloc: Global, ready: &Ready, cells: &Cells, at: Place) -> Result<Base, OutOfMemory>
    ensures { IfOk result (IsBaseOf ready.now cells.now at) }
{
    let problems = all_problems(alloc, ready, cells.problems())?;
    let kept = cells.items();
    let items = items_of(alloc, cells.cache(), at.now, kept.cells(), kept.memories())?;
    Ok(Base {
        number: at.number,
        now: at.now,
        first_tick: at.first_tick,
        last_tick: at.last_tick,
        lines: at.lines,
        text: ready.conf().text.copy(alloc)?,
        items,
        problems,
    })
}
