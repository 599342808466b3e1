//! What is found of a configuration's items once, at the opening.

ghost use Rattle.std.specs.Prelude.{◌≡◌, ◌≤◌, [], ℕ, length, replicate, map, IfOk, OnOk};
ghost use Rattle.preprocess.specs.Chains.{is_dependent, dependents_of, listed, AreChainsOf};
ghost use Rattle.preprocess.specs.Rows.{with_id, noted};
ghost use Rattle.preprocess.specs.Ways.{ways_for};

use crate::ways::{Way, ways_of};
use pattern_set::Patterns;
use std::alloc::Global;
use zbx_types::{Conf, Item, Many, OutOfMemory, by_id, id_of};

/// What is found of a configuration's items once, so that no value has to seek or read it: the enabled dependents of
/// each item, and the ways of its steps.
#[derive(Drop)]
pub struct Chains {
    below: Vec<Many<u32>>,
    ways: Vec<Many<Way>>,
}

/// Adds an id to the list of an item; where there is no such item it is left out.
#[tactic(auto, using(crate::proofs::Rows::entered, crate::proofs::Rows::entered_none, crate::proofs::Rows::entered_past))]
fn enter(below: &mut Vec<Many<u32>>, item: u32, id: u32) -> Result<(), OutOfMemory>
    ensures { OnOk result (below.new.items ≡ with_id below.old.items item id) }
{
    if item == 0 {
        return Ok(());
    }
    let index = item as usize - 1;
    if index < below.len() {
        below[index].push(id)?;
    }
    Ok(())
}

fn is_dependent(item: &Item) -> bool
    ensures { result ≡ is_dependent item.now }
{
    !item.kind.is_received() && item.enabled
}

/// Adds the id of an item to the list of the item that it depends on.
fn note(below: &mut Vec<Many<u32>>, item: &Item, id: u32) -> Result<(), OutOfMemory>
    ensures { OnOk result (below.new.items ≡ noted below.old.items item.now id) }
{
    if is_dependent(item) {
        enter(below, item.master, id)?;
    }
    Ok(())
}

/// Lists of items that have none.
fn no_dependents(alloc: Global, count: usize) -> Result<Vec<Many<u32>>, OutOfMemory>
    ensures { IfOk result (λ below. below.items ≡ replicate count []) }
{
    let mut below = Vec::new(alloc);
    for _item in 0..count {
        below.push(Many::new(alloc))?;
    }
    Ok(below)
}

/// The enabled dependents of each item.
#[tactic(auto, unfolding(crate::specs::Chains::dependents_of))]
fn below_of(alloc: Global, conf: &Conf) -> Result<Vec<Many<u32>>, OutOfMemory>
    ensures { IfOk result (λ below. (q : ℕ) → 1 ≤ q → q ≤ length conf.now.items → listed below.items q ≡ dependents_of conf.now q) }
{
    let items = conf.items.as_slice();
    let mut below = no_dependents(alloc, items.len())?;
    for (index, item) in items.iter().enumerate() {
        note(&mut below, item, id_of(index)?)?;
    }
    Ok(below)
}

/// The ways of the steps of each item.
fn all_ways(alloc: Global, conf: &Conf, patterns: &Patterns) -> Result<Vec<Many<Way>>, OutOfMemory>
    ensures { IfOk result (λ ways. ways.items ≡ map (ways_for patterns.now) conf.now.items) }
{
    let mut ways = Vec::new(alloc);
    for item in conf.items.as_slice() {
        ways.push(ways_of(alloc, item, patterns)?)?;
    }
    Ok(ways)
}

impl Chains {
    /// Finds it, once for all values: the places of patterns are those among `patterns`, to which it then belongs.
    /// [`OutOfMemory`] where there is no room for it.
    pub fn build(alloc: Global, conf: &Conf, patterns: &Patterns) -> Result<Chains, OutOfMemory>
        ensures { IfOk result (λ chains. AreChainsOf conf.now patterns.now chains) }
    {
        Ok(Chains {
            below: below_of(alloc, conf)?,
            ways: all_ways(alloc, conf, patterns)?,
        })
    }

    /// The ids of an item's enabled dependents, in the order of items. Takes no memory.
    pub(crate) fn below(&self, id: u32) -> &[u32]
        ensures { result.now ≡ listed self.now.below.items id }
    {
        match by_id(self.below.as_slice(), id) {
            Some(ids) => ids.as_slice(),
            None => &[],
        }
    }

    /// The ways of the steps of an item.
    pub(crate) fn ways(&self, id: u32) -> &[Way]
        ensures { result.now ≡ listed self.now.ways.items id }
    {
        match by_id(self.ways.as_slice(), id) {
            Some(ways) => ways.as_slice(),
            None => &[],
        }
    }
}
