//! What the steps of a configuration that follows another one remember. A step goes on with what its old one remembers
//! while it and those before it are equal to the old ones.

ghost use Rattle.std.specs.Prelude.{◌≡◌, ◌≤◌, ◌++◌, length, map, take, drop, IfOk, OnOk};
ghost use Rattle.std.specs.Option.{option_map_or};
ghost use Rattle.std.specs.Cmp.Lexicographic.{pointwise};
ghost use Rattle.std.specs.Str.{bytes_eq};
ghost use Rattle.prep_steps.specs.Outcomes.{unmarked};
ghost use Rattle.preprocess.specs.Carry.{kind_number, fail_number, same_step, carried_along, steps_of};
ghost use Rattle.preprocess.specs.Carry.{old_item, carried_for};
ghost use Rattle.preprocess.specs.Cells.{no_marks};
ghost use Rattle.preprocess.specs.Chains.{listed};

use crate::cells::no_marks;
use prep_steps::StepMemory;
use std::alloc::Global;
use zbx_types::{Conf, Item, Many, OnFail, OutOfMemory, StepKind, StepSpec, Text, by_id, is_same};

/// The number of a kind of step, in the order of the kinds.
fn kind_number(kind: StepKind) -> u32
    ensures { result ≡ kind_number kind }
{
    match kind {
        StepKind::Regex => 0,
        StepKind::Replace => 1,
        StepKind::Trim => 2,
        StepKind::LTrim => 3,
        StepKind::RTrim => 4,
        StepKind::JsonPath => 5,
        StepKind::Multiplier => 6,
        StepKind::SimpleChange => 7,
        StepKind::ChangePerSecond => 8,
        StepKind::BoolToDecimal => 9,
        StepKind::OctalToDecimal => 10,
        StepKind::HexToDecimal => 11,
        StepKind::InRange => 12,
        StepKind::Matches => 13,
        StepKind::NotMatches => 14,
        StepKind::JsonError => 15,
        StepKind::RegexError => 16,
        StepKind::Throttle => 17,
        StepKind::ThrottleHeartbeat => 18,
    }
}

/// The number of what comes of a value at which a step fails, in the order of the choices.
fn fail_number(on_fail: OnFail) -> u32
    ensures { result ≡ fail_number on_fail }
{
    match on_fail {
        OnFail::Empty => 0,
        OnFail::Discard => 1,
        OnFail::Value => 2,
        OnFail::Error => 3,
    }
}

/// Whether two steps have the same parameters.
fn same_params(one: &[Text], other: &[Text]) -> bool
    ensures { result ≡ pointwise bytes_eq one.now other.now }
{
    if one.len() != other.len() {
        return false;
    }
    for place in 0..one.len() {
        if !is_same(&one[place], &other[place]) {
            return false;
        }
    }
    true
}

/// Whether two steps are equal in kind, parameters, on-fail and text.
fn same_step(one: &StepSpec, other: &StepSpec) -> bool
    ensures { result ≡ same_step one.now other.now }
{
    kind_number(one.kind) == kind_number(other.kind)
        && same_params(one.params.as_slice(), other.params.as_slice())
        && fail_number(one.on_fail) == fail_number(other.on_fail)
        && is_same(&one.text, &other.text)
}

/// How many of the first steps go on with what the old ones remember.
fn same_count(olds: &[StepSpec], marks: &[StepMemory], steps: &[StepSpec]) -> usize
    ensures marks { result ≤ length marks.now }
    ensures steps { result ≤ length steps.now }
    ensures along { carried_along olds.now marks.now steps.now ≡ take result marks.now ++ map (λ s. unmarked) (drop result steps.now) }
{
    let least = olds.len().min(marks.len()).min(steps.len());
    for place in 0..least {
        if !same_step(&olds[place], &steps[place]) {
            return place;
        }
    }
    least
}

/// Adds copies of memories at the end.
fn push_copies(
    alloc: Global,
    made: &mut Many<StepMemory>,
    marks: &[StepMemory],
) -> Result<(), OutOfMemory>
    ensures { OnOk result (made.new ≡ made.old ++ marks.now) }
{
    for mark in marks {
        made.push(mark.copy(alloc)?)?;
    }
    Ok(())
}

/// Adds for each step the memory of one that no value has marked.
fn push_unmarked(
    alloc: Global,
    made: &mut Many<StepMemory>,
    steps: &[StepSpec],
) -> Result<(), OutOfMemory>
    ensures { OnOk result (made.new ≡ made.old ++ map (λ s. unmarked) steps.now) }
{
    for _step in steps {
        made.push(StepMemory::new(alloc))?;
    }
    Ok(())
}

/// What steps remember where these old ones remember this.
fn carried_along(
    alloc: Global,
    olds: &[StepSpec],
    marks: &[StepMemory],
    steps: &[StepSpec],
) -> Result<Many<StepMemory>, OutOfMemory>
    ensures { IfOk result (λ made. made ≡ carried_along olds.now marks.now steps.now) }
{
    let count = same_count(olds, marks, steps);
    let mut made = Many::new(alloc);
    push_copies(alloc, &mut made, &marks[..count])?;
    push_unmarked(alloc, &mut made, &steps[count..])?;
    Ok(made)
}

/// The steps of the item with an id, none where there is no such item.
fn steps_of(conf: &Conf, id: u32) -> &[StepSpec]
    ensures { result.now ≡ steps_of conf.now id }
{
    match by_id(conf.items.as_slice(), id) {
        None => &[],
        Some(item) => item.steps.as_slice(),
    }
}

/// What the steps of the item with an id remember.
fn marks_at(memories: &[Many<StepMemory>], id: u32) -> &[StepMemory]
    ensures { result.now ≡ listed memories.now id }
{
    match by_id(memories, id) {
        None => &[],
        Some(marks) => marks.as_slice(),
    }
}

/// What the steps of an item remember where this is the id of its old one.
fn marks_for(
    alloc: Global,
    old: &Conf,
    id: Option<u32>,
    memories: &[Many<StepMemory>],
    item: &Item,
) -> Result<Many<StepMemory>, OutOfMemory>
    ensures { IfOk result (λ made. made ≡ option_map_or (λ before. carried_along (steps_of old.now before) (listed memories.now before) item.now.steps) id (no_marks item.now)) }
{
    match id {
        None => no_marks(alloc, item),
        Some(before) => carried_along(
            alloc,
            steps_of(old, before),
            marks_at(memories, before),
            item.steps.as_slice(),
        ),
    }
}

/// What the steps of each item of the new configuration remember, where these are the ids of the old ones.
pub(crate) fn memories_for(
    alloc: Global,
    old: &Conf,
    new: &Conf,
    olds: &[Option<u32>],
    memories: &[Many<StepMemory>],
) -> Result<Vec<Many<StepMemory>>, OutOfMemory>
    requires { olds.now ≡ map (old_item old.now new.now) new.now.items }
    ensures { IfOk result (λ made. made.items ≡ map (carried_for old.now new.now (listed memories.now)) new.now.items) }
{
    let mut made = Vec::new(alloc);
    for (place, item) in new.items.as_slice().iter().enumerate() {
        made.push(marks_for(alloc, old, olds[place], memories, item)?)?;
    }
    Ok(made)
}
