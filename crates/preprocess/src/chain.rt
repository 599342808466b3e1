//! One item's chain over one value.

ghost use Rattle.std.specs.Prelude.{◌≡◌, ◌+◌, ◌++◌, ◌∷◌, [], IfOk, OnOk, Ok, drop, map, slice_index_or};
ghost use Rattle.preprocess.specs.Chain.{chain_of, comes_of, marks_of, settled, step_done, unreached};
ghost use Rattle.preprocess.specs.Parsing.{IsParsed};
ghost use Rattle.preprocess.specs.Ways.{way_for, memory_at, HasPattern, HavePatterns};

use crate::ended::{Ended, end};
use crate::json::{Parsed, kept_parsed};
use crate::step::{Stepped, settle, step_done};
use crate::ways::Way;
use pattern_set::Patterns;
use prep_steps::{Outcome, StepMemory};
use std::alloc::Global;
use zbx_types::{Item, Many, Moment, OutOfMemory, StepSpec, Text};

/// What a chain makes of a value.
#[derive(Drop)]
pub struct Chained {
    /// What comes of the value.
    pub end: Ended,
    /// What each step remembers from then on, in their order.
    pub marks: Many<StepMemory>,
}

/// What comes of a value at the end of its steps, and what each of them remembers.
#[derive(Drop)]
struct Passed {
    outcome: Outcome,
    marks: Many<StepMemory>,
}

/// The memory at a place, or one without a mark.
fn memory_at<'a>(
    memories: &'a [StepMemory],
    index: usize,
    unmarked: &'a StepMemory,
) -> &'a StepMemory
    ensures { result.now ≡ slice_index_or memories.now index unmarked.now }
{
    match memories.get(index) {
        Some(memory) => memory,
        None => unmarked,
    }
}

/// The memories of steps, with those from a place on, which a value doesn't reach, behind them.
fn with_unreached(
    alloc: Global,
    mut marks: Many<StepMemory>,
    steps: &[StepSpec],
    memories: &[StepMemory],
    from: usize,
) -> Result<Many<StepMemory>, OutOfMemory>
    ensures { IfOk result (λ all. all ≡ marks ++ unreached (drop from steps.now) (from + 1) (memory_at memories.now)) }
{
    let unmarked = StepMemory::new(alloc);
    for index in from..steps.len() {
        marks.push(memory_at(memories, index, &unmarked).copy(alloc)?)?;
    }
    Ok(marks)
}

/// What comes of a value at a step, and what is known of the text that came to it.
#[derive(Drop)]
struct Went {
    outcome: Outcome,
    parsed: Parsed,
}

/// A value at the step with a number, counted from 1: adds what the step remembers from then on.
fn pass_step(
    alloc: Global,
    step: &StepSpec,
    number: u64,
    way: &Way,
    patterns: &Patterns,
    memory: &StepMemory,
    text: &Text,
    parsed: Parsed,
    time: Moment,
    marks: &mut Many<StepMemory>,
) -> Result<Went, OutOfMemory>
    requires way { way.now ≡ way_for patterns.now step.now }
    requires pattern { HasPattern patterns.now step.now }
    requires parsed { IsParsed text.now parsed }
    ensures outcome { IfOk result (λ went. went.outcome ≡ settled step.now number (step_done step.now memory.now text.now time).outcome) }
    ensures parsed { IfOk result (λ went. IsParsed text.now went.parsed) }
    ensures marks { OnOk result (marks.new ≡ marks.old ++ (step_done step.now memory.now text.now time).memory ∷ []) }
{
    let Stepped {
        outcome,
        memory: mark,
        parsed,
    } = step_done(alloc, step, way, patterns, memory, text, parsed, time)?;
    match marks.push(mark) {
        Ok(()) => with_known(settle(alloc, step, number, outcome), parsed),
        Err(refused) => {
            drop(refused);
            drop(outcome);
            drop(parsed);
            Err(OutOfMemory)
        }
    }
}

/// What came of a value, with what is known of the text before it.
fn with_known(outcome: Result<Outcome, OutOfMemory>, parsed: Parsed) -> Result<Went, OutOfMemory>
    ensures outcome { IfOk result (λ went. outcome ≡ Ok went.outcome) }
    ensures parsed { IfOk result (λ went. went.parsed ≡ parsed) }
{
    match outcome {
        Ok(outcome) => Ok(Went { outcome, parsed }),
        Err(OutOfMemory) => {
            drop(parsed);
            Err(OutOfMemory)
        }
    }
}

/// What comes of a value that a step lets go no further, and what the steps behind that one remember.
fn stopped(
    alloc: Global,
    outcome: Outcome,
    marks: Many<StepMemory>,
    steps: &[StepSpec],
    memories: &[StepMemory],
    from: usize,
) -> Result<Passed, OutOfMemory>
    ensures outcome { IfOk result (λ passed. passed.outcome ≡ outcome) }
    ensures marks { IfOk result (λ passed. passed.marks ≡ marks ++ unreached (drop from steps.now) (from + 1) (memory_at memories.now)) }
{
    match with_unreached(alloc, marks, steps, memories, from) {
        Ok(marks) => Ok(Passed { outcome, marks }),
        Err(OutOfMemory) => {
            drop(outcome);
            Err(OutOfMemory)
        }
    }
}

/// A value at all steps, one after the other.
#[tactic(auto, unfolding(crate::specs::Chain::comes_of, crate::specs::Chain::marks_of))]
fn pass_steps(
    alloc: Global,
    steps: &[StepSpec],
    ways: &[Way],
    patterns: &Patterns,
    memories: &[StepMemory],
    value: &Text,
    time: Moment,
) -> Result<Passed, OutOfMemory>
    requires ways { ways.now ≡ map (way_for patterns.now) steps.now }
    requires patterns { HavePatterns patterns.now steps.now }
    ensures outcome { IfOk result (λ passed. passed.outcome ≡ comes_of steps.now 1 (memory_at memories.now) value.now time) }
    ensures marks { IfOk result (λ passed. passed.marks ≡ marks_of steps.now 1 (memory_at memories.now) value.now time) }
{
    let unmarked = StepMemory::new(alloc);
    let mut marks = Many::new(alloc);
    let mut text = value.copy(alloc)?;
    let mut parsed = Parsed::Unread;
    for (index, step) in steps.iter().enumerate() {
        let memory = memory_at(memories, index, &unmarked);
        let way = &ways[index];
        let number = index as u64 + 1;
        let Went {
            outcome,
            parsed: known,
        } = pass_step(
            alloc, step, number, way, patterns, memory, &text, parsed, time, &mut marks,
        )?;
        match outcome {
            Outcome::Value(next) => {
                parsed = kept_parsed(&text, &next, known);
                text = next;
            }
            ended => {
                drop(known);
                return stopped(alloc, ended, marks, steps, memories, index + 1);
            }
        }
    }
    drop(parsed);
    Ok(Passed {
        outcome: Outcome::Value(text),
        marks,
    })
}

/// What an item's chain makes of a value that came at a moment (the Zabbix 6.0 manual, "Item value preprocessing";
/// texts of failures, the limit of 65,535 bytes and the last reading of a number are this project's own).
///
/// `memories` is what the steps remember of the item's values so far, in the order of the steps; `ways` are those of
/// the steps, as [`crate::ways_of`] gives them. A step that discards or fails ends the chain, unless its `on_fail` sets
/// a value, with which the chain goes on behind it. A step's memory changes as the step says, also where a later step
/// discards the value or fails. [`OutOfMemory`] where there is no room for the results.
#[tactic(auto, unfolding(crate::specs::Chain::chain_of))]
pub fn run_chain(
    alloc: Global,
    item: &Item,
    ways: &[Way],
    patterns: &Patterns,
    memories: &[StepMemory],
    value: &Text,
    time: Moment,
) -> Result<Chained, OutOfMemory>
    requires ways { ways.now ≡ map (way_for patterns.now) item.now.steps }
    requires patterns { HavePatterns patterns.now item.now.steps }
    ensures { IfOk result (λ made. made ≡ chain_of item.now (memory_at memories.now) value.now time) }
{
    let steps = item.steps.as_slice();
    let passed = pass_steps(alloc, steps, ways, patterns, memories, value, time)?;
    Ok(Chained {
        end: end(alloc, item.value_type, passed.outcome)?,
        marks: passed.marks,
    })
}
