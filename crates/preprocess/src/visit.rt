//! The way of a value through an item and the items that depend on it.

ghost use Rattle.std.specs.Prelude.{◌≡◌, ◌++◌, [], ℕ, true, OnOk, IfOk};
ghost use Rattle.preprocess.specs.Chain.{chain_of, read_as};
ghost use Rattle.prep_steps.specs.declared.memory.StepMemory.{StepMemory};
ghost use Rattle.preprocess.specs.Chains.{AreChainsOf, listed};
ghost use Rattle.value_cache.specs.Tokens.{AreOf};
ghost use Rattle.preprocess.specs.Cached.{visits_shown, tokens_shown};
ghost use Rattle.preprocess.specs.Visits.{ended_text, outcome_of, visit_of, memory_in, visits_of, ArePatternsOf};
ghost use Rattle.preprocess.specs.Walks.{walk, walk_below, takes};

use crate::cached::{CachedVisit, add_visit};
use crate::chain::{Chained, run_chain};
use crate::chains::Chains;
use crate::ended::Ended;
use pattern_set::Patterns;
use prep_steps::StepMemory;
use std::alloc::Global;
use value_cache::Cache;
use zbx_types::{
    Conf, Fix, Held, Item, Many, Moment, OutOfMemory, Stored, Text, ValueType, by_id, unpadded,
};

/// What an entry's value left at an item. Contracts speak of it.
#[derive(Drop)]
pub enum ItemOutcome {
    /// The item stores this.
    Stored(Stored),
    /// Nothing is stored, without an error.
    Discarded,
    /// It failed with this text.
    Failed(Text),
}

/// What an entry's value did at an item to which it came. Contracts see a draft as such visits.
#[derive(Drop)]
pub struct Visit {
    pub(crate) item: u32,
    pub(crate) outcome: ItemOutcome,
    /// What the steps to which it came remember from then on.
    pub(crate) marks: Many<StepMemory>,
}

/// A visit, and the text that goes to the dependents.
#[derive(Drop)]
struct Visited {
    visit: Visit,
    text: Option<Text>,
}

/// What a chain leaves at an item, of a value of a time and of the entry with a number.
fn left_by(time: Moment, number: u64, id: u32, chained: Chained) -> Visited
    ensures visit { result.visit ≡ visit_of time number id chained }
    ensures text { result.text ≡ ended_text chained.end }
{
    let Chained { end, marks } = chained;
    match end {
        Ended::Stored { held, text } => Visited {
            visit: Visit {
                item: id,
                outcome: ItemOutcome::Stored(Stored {
                    time,
                    number,
                    value: held,
                }),
                marks,
            },
            text: Some(text),
        },
        Ended::Discarded => Visited {
            visit: Visit {
                item: id,
                outcome: ItemOutcome::Discarded,
                marks,
            },
            text: None,
        },
        Ended::Failed(why) => Visited {
            visit: Visit {
                item: id,
                outcome: ItemOutcome::Failed(why),
                marks,
            },
            text: None,
        },
    }
}

/// What a value leaves at an item of a type, read as it stands.
#[tactic(auto, unfolding(prep_steps::specs::Numbering::number_of))]
fn read_plainly(
    alloc: Global,
    time: Moment,
    number: u64,
    value_type: ValueType,
    value: &Text,
) -> Result<ItemOutcome, OutOfMemory>
    ensures { IfOk result (λ outcome. outcome ≡ outcome_of time number (read_as value_type value.now)) }
{
    let held = match value_type {
        ValueType::Number => match Fix::read(unpadded(value.as_bytes())) {
            Some(read) => Held::Number(read),
            None => return Ok(ItemOutcome::Failed(Text::of(alloc, "value: not a number")?)),
        },
        ValueType::Words => Held::Words(value.copy(alloc)?),
    };
    Ok(ItemOutcome::Stored(Stored {
        time,
        number,
        value: held,
    }))
}

/// What a value leaves at an item without steps: nothing is copied but what is stored.
fn left_plainly(
    alloc: Global,
    time: Moment,
    number: u64,
    id: u32,
    item: &Item,
    value: &Text,
) -> Result<Visit, OutOfMemory>
    requires { item.now.steps ≡ [] }
    ensures { IfOk result (λ visit. (memory : ℕ → StepMemory) → visit ≡ visit_of time number id (chain_of item.now memory value.now time)) }
{
    let outcome = read_plainly(alloc, time, number, item.value_type, value)?;
    Ok(Visit {
        item: id,
        outcome,
        marks: Many::new(alloc),
    })
}

/// Whether an item has no steps, and gives its values to none of these.
fn is_alone(item: &Item, below: &[u32]) -> bool
    ensures steps { result ≡ true → item.now.steps ≡ [] }
    ensures below { result ≡ true → below.now ≡ [] }
{
    match (item.steps.as_slice(), below) {
        ([], []) => true,
        _ => false,
    }
}

/// The memories of an item's steps.
fn memories_of(memories: &[Many<StepMemory>], id: u32) -> &[StepMemory]
    ensures { result.now ≡ listed memories.now id }
{
    match by_id(memories, id) {
        Some(own) => own.as_slice(),
        None => &[],
    }
}

/// A value at an item, and at those below it, so many levels down. What is stored goes into the cache.
#[cycle(visiting)]
#[tactic(auto, using(crate::proofs::Walking::walk_none, crate::proofs::Walking::walk_is))]
pub(crate) fn go_through(
    alloc: Global,
    conf: &Conf,
    patterns: &Patterns,
    chains: &Chains,
    cache: &Cache,
    memories: &[Many<StepMemory>],
    time: Moment,
    number: u64,
    visits: &mut Many<CachedVisit>,
    id: u32,
    value: &Text,
    down: usize,
) -> Result<(), OutOfMemory>
    requires chains { AreChainsOf conf.now patterns.now chains.now }
    requires patterns { ArePatternsOf conf.now patterns.now }
    ensures shown { OnOk result (visits_shown visits.new ≡ visits_shown visits.old ++ walk conf.now (memory_in memories.now) time number down id value.now) }
    ensures of { OnOk result (AreOf cache.now (tokens_shown visits.old) → AreOf cache.now (tokens_shown visits.new)) }
{
    let Some(item) = by_id(conf.items.as_slice(), id) else {
        return Ok(());
    };
    if is_alone(item, chains.below(id)) {
        add_visit(
            cache,
            visits,
            left_plainly(alloc, time, number, id, item, value)?,
        )?;
        return Ok(());
    }
    let own = memories_of(memories, id);
    let chained = run_chain(alloc, item, chains.ways(id), patterns, own, value, time)?;
    let Visited { visit, text } = left_by(time, number, id, chained);
    add_visit(cache, visits, visit)?;
    match text {
        None => Ok(()),
        Some(text) => {
            let below = chains.below(id);
            visit_below(
                alloc, conf, patterns, chains, cache, memories, time, number, visits, below, &text,
                down,
            )
        }
    }
}

/// A value at some items, one level down.
#[cycle(visiting)]
#[tactic(auto, using(crate::proofs::Walking::below_none, crate::proofs::Walking::below_some))]
fn visit_below(
    alloc: Global,
    conf: &Conf,
    patterns: &Patterns,
    chains: &Chains,
    cache: &Cache,
    memories: &[Many<StepMemory>],
    time: Moment,
    number: u64,
    visits: &mut Many<CachedVisit>,
    ids: &[u32],
    value: &Text,
    down: usize,
) -> Result<(), OutOfMemory>
    requires chains { AreChainsOf conf.now patterns.now chains.now }
    requires patterns { ArePatternsOf conf.now patterns.now }
    ensures shown { OnOk result (visits_shown visits.new ≡ visits_shown visits.old ++ walk_below conf.now (memory_in memories.now) time number down ids.now value.now) }
    ensures of { OnOk result (AreOf cache.now (tokens_shown visits.old) → AreOf cache.now (tokens_shown visits.new)) }
{
    if down == 0 {
        return Ok(());
    }
    for id in ids {
        go_through(
            alloc,
            conf,
            patterns,
            chains,
            cache,
            memories,
            time,
            number,
            visits,
            *id,
            value,
            down - 1,
        )?;
    }
    Ok(())
}

/// Whether an item takes the values of entries.
fn takes(conf: &Conf, item: u32) -> bool
    ensures { result ≡ takes conf.now item }
{
    match by_id(conf.items.as_slice(), item) {
        Some(item) => item.kind.is_received(),
        None => false,
    }
}

/// The visits of an entry's value.
#[tactic(auto, using(crate::proofs::Visiting::first_taken, crate::proofs::Visiting::first_refused))]
pub(crate) fn visits(
    alloc: Global,
    conf: &Conf,
    patterns: &Patterns,
    chains: &Chains,
    cache: &Cache,
    memories: &[Many<StepMemory>],
    item: u32,
    value: &Text,
    time: Moment,
    number: u64,
) -> Result<Many<CachedVisit>, OutOfMemory>
    requires chains { AreChainsOf conf.now patterns.now chains.now }
    requires patterns { ArePatternsOf conf.now patterns.now }
    ensures shown { IfOk result (λ visits. visits_shown visits ≡ visits_of conf.now (memory_in memories.now) (record { item = item; time = time; number = number; value = value.now })) }
    ensures of { IfOk result (λ visits. AreOf cache.now (tokens_shown visits)) }
{
    let mut visits = Many::new(alloc);
    if !takes(conf, item) {
        return Ok(visits);
    }
    go_through(
        alloc,
        conf,
        patterns,
        chains,
        cache,
        memories,
        time,
        number,
        &mut visits,
        item,
        value,
        conf.items.len().saturating_sub(1),
    )?;
    Ok(visits)
}
