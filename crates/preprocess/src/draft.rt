//! What an entry's value is to leave: prepared, and then put in place.

ghost use Rattle.std.specs.Prelude.{◌≡◌, IfOk, OnOk, IfSome, map, option_copied, option_map};
ghost use Rattle.value_cache.specs.Tokens.{CacheId, IsOf, AreOf};
ghost use Rattle.preprocess.specs.Cached.{outcome_in, visit_in, visits_shown, tokens_shown};
ghost use Rattle.preprocess.specs.Cells.{AreSame, Becomes, IsPrepared};
ghost use Rattle.preprocess.specs.Chains.{AreChainsOf};
ghost use Rattle.preprocess.specs.Draft.{AreApart, AreIn, HaveRoom, roomless, failure_of, failures_of, stored_at};
ghost use Rattle.preprocess.specs.Visits.{ArePatternsOf};

use crate::cached::{CachedOutcome, CachedVisit};
use crate::cells::{Cells, reserve_at};
use crate::chains::Chains;
use crate::putting::put;
use crate::visit::visits;
use pattern_set::Patterns;
use std::alloc::Global;
use std::marker::Model;
use value_cache::{Cache, ItemCell, Token};
use zbx_types::{Conf, Many, Moment, OutOfMemory, Rec, Stored, Text, by_id};

/// What an entry's value is to leave in the cells: it has all memory that it takes to put it in place, and what is to be
/// stored stands in the cache. Contracts see the visits of the value, and the tokens of what they store.
#[derive(Drop)]
pub struct Draft {
    visits: Many<CachedVisit>,
}

impl Model for Draft {
    ghost use Rattle.preprocess.specs.Cached.{DraftView, visits_shown, tokens_shown};

    ghost Value = { DraftView };

    ghost view = { λ d. record { visits = visits_shown d.visits; tokens = tokens_shown d.visits } };
}

/// What an entry's value is to leave.
#[derive(Drop)]
pub struct Prepared {
    /// What it is to leave in the cells.
    pub draft: Draft,
    /// The Failure records, in the order of visiting.
    pub failures: Many<Rec>,
}

/// The token of the value that the item with an id is to store, if it is to store one.
#[tactic(auto, using(crate::proofs::Caching::token_shows))]
fn token_at(visits: &[CachedVisit], id: u32) -> Option<&Token>
    ensures value { option_map (λ t. t.value) (option_copied result) ≡ stored_at (visits_shown visits.now) id }
    ensures of { (cache : CacheId) → AreOf cache (tokens_shown visits.now) → IfSome result (λ t. IsOf cache t.now) }
{
    for visit in visits {
        if visit.item == id {
            return visit.token();
        }
    }
    None
}

impl Draft {
    /// The token of the value that the item with an id is to store, if it is to store one. Takes no memory.
    pub fn token(&self, id: u32) -> Option<&Token>
        ensures value { option_map (λ t. t.value) (option_copied result) ≡ stored_at self.now.visits id }
        ensures of { (cache : CacheId) → AreOf cache self.now.tokens → IfSome result (λ t. IsOf cache t.now) }
    {
        token_at(self.visits.as_slice(), id)
    }

    /// The value that the item with an id is to store, if it is to store one. Takes no memory.
    pub fn stored<'a>(&self, cache: &'a Cache, id: u32) -> Option<&'a Stored>
        requires { AreOf cache.now self.now.tokens }
        ensures { option_copied result ≡ stored_at self.now.visits id }
    {
        match self.token(id) {
            None => None,
            Some(token) => Some(cache.value(token)),
        }
    }
}

/// The Failure record of a visit that failed.
fn failure_of(
    alloc: Global,
    conf: &Conf,
    number: u64,
    visit: &CachedVisit,
) -> Result<Option<Rec>, OutOfMemory>
    ensures { IfOk result (λ failure. failure ≡ failure_of conf.now number (visit_in visit.now) (outcome_in visit.now.outcome)) }
{
    let CachedOutcome::Failed(why) = &visit.outcome else {
        return Ok(None);
    };
    let Some(item) = by_id(conf.items.as_slice(), visit.item) else {
        return Ok(None);
    };
    Ok(Some(Rec::Failure {
        number,
        host: Text::of(alloc, conf.host_name(item.host))?,
        key: item.key.copy(alloc)?,
        why: why.copy(alloc)?,
    }))
}

/// The Failure records.
fn failures_of(
    alloc: Global,
    conf: &Conf,
    number: u64,
    visits: &[CachedVisit],
) -> Result<Many<Rec>, OutOfMemory>
    ensures { IfOk result (λ failures. failures ≡ failures_of conf.now number (visits_shown visits.now)) }
{
    let mut failures = Many::new(alloc);
    for visit in visits {
        if let Some(failure) = failure_of(alloc, conf, number, visit)? {
            failures.push(failure)?;
        }
    }
    Ok(failures)
}

/// Makes room for a value at each visit.
fn reserve_all(cells: &mut Vec<ItemCell>, visits: &[CachedVisit]) -> Result<(), OutOfMemory>
    ensures same { map roomless cells.new.items ≡ map roomless cells.old.items }
    ensures room { OnOk result (HaveRoom cells.new.items (visits_shown visits.now)) }
{
    for visit in visits {
        reserve_at(cells, visit.item)?;
    }
    Ok(())
}

/// Finds what an entry's value is to leave, and takes all memory for it; what the cells keep stays as it is. What is to be
/// stored goes into the cache, where it stays, whether it is put in place or not.
///
/// The value of the entry with a number comes to an item, and what an item stores comes to its enabled dependents, each
/// with its own before the next one, with the same time (the Zabbix 6.0 manual, "Dependent items"). A value that an
/// item discards, or at which it fails, gives its dependents nothing. An item that isn't a trapper item takes no value.
/// [`OutOfMemory`] where there is no room.
#[tactic(auto, using(crate::proofs::Apart::visits_apart))]
pub fn prepare(
    alloc: Global,
    conf: &Conf,
    patterns: &Patterns,
    chains: &Chains,
    cache: &Cache,
    cells: &mut Cells,
    item: u32,
    value: &Text,
    time: Moment,
    number: u64,
) -> Result<Prepared, OutOfMemory>
    requires chains { AreChainsOf conf.now patterns.now chains.now }
    requires patterns { ArePatternsOf conf.now patterns.now }
    ensures prepared { IfOk result (IsPrepared conf.now cells.old (record { item = item; time = time; number = number; value = value.now })) }
    ensures tokens { IfOk result (λ prepared. AreOf cache.now prepared.draft.tokens) }
    ensures apart { IfOk result (λ prepared. AreApart prepared.draft.visits) }
    ensures room { IfOk result (λ prepared. HaveRoom cells.new.cells.items prepared.draft.visits) }
    ensures same { AreSame cells.new cells.old }
    ensures of { (other : CacheId) → AreIn other cells.old.cells.items → AreIn other cells.new.cells.items }
{
    let memories = cells.memories.as_slice();
    let visits = visits(
        alloc, conf, patterns, chains, cache, memories, item, value, time, number,
    )?;
    let failures = failures_of(alloc, conf, number, visits.as_slice())?;
    reserve_all(&mut cells.cells, visits.as_slice())?;
    Ok(Prepared {
        draft: Draft { visits },
        failures,
    })
}

/// Puts in place what was prepared last, over cells that have its room and still keep the same, at a moment that isn't
/// before that of an earlier value. Takes no memory.
pub fn commit(cells: &mut Cells, draft: Draft, now: Moment)
    requires apart { AreApart draft.visits }
    requires room { HaveRoom cells.old.cells.items draft.visits }
    ensures becomes { Becomes now draft.visits cells.old cells.new }
    ensures of { (cache : CacheId) → AreOf cache draft.tokens → AreIn cache cells.old.cells.items → AreIn cache cells.new.cells.items }
{
    for visit in draft.visits.into_vec() {
        put(cells, visit, now);
    }
}
