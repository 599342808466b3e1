//! The indexes of a configuration, in groups, so that little has to be given back where memory is refused for one.

ghost use Rattle.std.specs.Prelude.{◌≡◌, ℕ, List, [], map, slice_index_or, IfOk, OnOk};
ghost use Rattle.std.specs.HashMap.{get_by_text};
ghost use Rattle.zbx_types.specs.Masters.{masters_of, has_id};
ghost use Rattle.jiff_core.specs.Calendar.{IsWithin};
ghost use Rattle.footprint.specs.Feet.{feet_of, is_reached, told_by};
ghost use Rattle.preprocess.specs.Chains.{AreChainsOf};
ghost use Rattle.preprocess.specs.Visits.{ArePatternsOf};
ghost use Rattle.conf_index.specs.Asked.{places_of, ArePlaced};
ghost use Rattle.conf_index.specs.Index.{IsIndex, id_at, some_reaches, triggers_under};
ghost use Rattle.conf_index.specs.Names.{host_named, item_keyed};
ghost use Rattle.conf_index.specs.Order.{order};
ghost use Rattle.conf_index.specs.Packed.{row_at};
ghost use Rattle.conf_index.specs.Plans.{plan_of, recovery_plan_of};
ghost use Rattle.conf_index.specs.Timed.{timed_triggers};
ghost use Rattle.conf_index.specs.Patterned.{ArePatterned};

use crate::asked::{near, places_of_all};
use crate::lists::lists_of;
use crate::masters::masters_of_all;
use crate::names::{hosts_of, keys_of};
use crate::order::order;
use crate::packed::Packed;
use crate::patterned::{patterned, stepped};
use crate::plans::{Node, plans_of, recovery_plans_of};
use crate::reached::{feet_of_all, reached, reaches_of_all};
use crate::timed::timed_triggers;
use footprint::Feet;
use pattern_set::Patterns;
use preprocess::Chains;
use std::alloc::Global;
use std::collections::HashMap;
use zbx_types::{Conf, Many, OutOfMemory};

/// What is found of hosts and items.
#[derive(Drop)]
pub(crate) struct ItemIndex {
    pub(crate) hosts: HashMap<String, u32>,
    pub(crate) keys: Vec<HashMap<String, u32>>,
    pub(crate) chains: Chains,
    pub(crate) feet: Feet,
}

/// The nodes of the expressions of triggers, and the places of their calls' patterns.
#[derive(Drop)]
pub(crate) struct Expressions {
    pub(crate) plans: Packed<Node>,
    pub(crate) recoveries: Packed<Node>,
    pub(crate) places: Packed<u32>,
}

/// Which triggers are evaluated, in which order, and which hold others.
#[derive(Drop)]
pub(crate) struct Turns {
    pub(crate) over: Packed<u32>,
    pub(crate) masters: Packed<u32>,
    pub(crate) timed: Many<u32>,
    pub(crate) all: Many<u32>,
}

/// Which triggers the reaches of rules of global correlation hold.
#[derive(Drop)]
pub(crate) struct Reaches {
    pub(crate) reached: Many<bool>,
    pub(crate) reaches: Packed<u32>,
}

/// What is found of triggers.
#[derive(Drop)]
pub(crate) struct TriggerIndex {
    pub(crate) expressions: Expressions,
    pub(crate) turns: Turns,
    pub(crate) rules: Reaches,
}

/// The indexes of a configuration.
#[derive(Drop)]
pub(crate) struct Indexes {
    pub(crate) items: ItemIndex,
    pub(crate) triggers: TriggerIndex,
}

/// What is found of hosts and items.
fn items_of(alloc: Global, conf: &Conf, patterns: &Patterns) -> Result<ItemIndex, OutOfMemory>
    ensures by_name { IfOk result (λ made. (name : List ℕ) → get_by_text made.hosts name ≡ host_named conf.now name) }
    ensures by_key { IfOk result (λ made. (host : ℕ) (key : List ℕ)
        → id_at made.keys.items host key ≡ item_keyed conf.now host key) }
    ensures by_chain { IfOk result (λ made. AreChainsOf conf.now patterns.now made.chains) }
    ensures by_foot { IfOk result (λ made. told_by made.feet ≡ feet_of conf.now) }
{
    let hosts = hosts_of(alloc, conf)?;
    let keys = keys_of(alloc, conf)?;
    let chains = Chains::build(alloc, conf, patterns)?;
    let feet = feet_of_all(alloc, conf)?;
    Ok(ItemIndex {
        hosts,
        keys,
        chains,
        feet,
    })
}

/// The nodes of the expressions of triggers, and the places of their calls' patterns.
fn expressions_of(
    alloc: Global,
    conf: &Conf,
    patterns: &Patterns,
) -> Result<Expressions, OutOfMemory>
    ensures by_trigger { IfOk result (λ made. (number : ℕ) → row_at made.plans.starts made.plans.items
        number ≡ slice_index_or (map plan_of conf.now.triggers) number []) }
    ensures by_recovery { IfOk result (λ made. (number : ℕ) → row_at made.recoveries.starts made.recoveries.items
        number ≡ slice_index_or (map recovery_plan_of conf.now.triggers) number []) }
    ensures by_call { IfOk result (λ made. (number : ℕ) → row_at made.places.starts made.places.items
        number ≡ slice_index_or (map (places_of patterns.now) conf.now.triggers) number []) }
    ensures asked { OnOk result (ArePlaced patterns.now conf.now) }
{
    let places = places_of_all(alloc, conf, patterns)?;
    let plans = plans_of(alloc, conf.triggers.as_slice())?;
    let recoveries = recovery_plans_of(alloc, conf.triggers.as_slice())?;
    Ok(Expressions {
        plans,
        recoveries,
        places,
    })
}

/// Which triggers are evaluated, in which order, and which hold others.
fn turns_of(alloc: Global, conf: &Conf) -> Result<Turns, OutOfMemory>
    ensures by_item { IfOk result (λ made. (item : ℕ) → row_at made.over.starts made.over.items
        item ≡ triggers_under conf.now item) }
    ensures by_dependent { IfOk result (λ made. (id : ℕ) → row_at made.masters.starts made.masters.items
        id ≡ masters_of conf.now id) }
    ensures timed { IfOk result (λ made. made.timed ≡ timed_triggers conf.now) }
    ensures all { IfOk result (λ made. made.all ≡ order conf.now) }
{
    let timed = timed_triggers(alloc, conf)?;
    let all = order(alloc, conf)?;
    let over = lists_of(alloc, conf)?;
    let masters = masters_of_all(alloc, conf)?;
    Ok(Turns {
        over,
        masters,
        timed,
        all,
    })
}

/// Which triggers the reaches of rules of global correlation hold.
fn rules_of(alloc: Global, conf: &Conf) -> Result<Reaches, OutOfMemory>
    ensures by_reach { IfOk result (λ made. made.reached ≡ map (some_reaches conf.now.correlations)
        conf.now.triggers) }
    ensures by_rule { IfOk result (λ made. (rule id : ℕ) → has_id (row_at made.reaches.starts made.reaches.items rule)
        id ≡ is_reached conf.now rule id) }
{
    let reached = reached(alloc, conf)?;
    let reaches = reaches_of_all(alloc, conf)?;
    Ok(Reaches { reached, reaches })
}

/// What is found of triggers.
fn triggers_of(alloc: Global, conf: &Conf, patterns: &Patterns) -> Result<TriggerIndex, OutOfMemory>
    ensures by_trigger { IfOk result (λ made. (number : ℕ) → row_at made.expressions.plans.starts
        made.expressions.plans.items number ≡ slice_index_or (map plan_of conf.now.triggers) number []) }
    ensures by_recovery { IfOk result (λ made. (number : ℕ) → row_at made.expressions.recoveries.starts
        made.expressions.recoveries.items number ≡ slice_index_or (map recovery_plan_of conf.now.triggers)
        number []) }
    ensures by_call { IfOk result (λ made. (number : ℕ) → row_at made.expressions.places.starts
        made.expressions.places.items number ≡ slice_index_or (map (places_of patterns.now) conf.now.triggers)
        number []) }
    ensures asked { OnOk result (ArePlaced patterns.now conf.now) }
    ensures by_item { IfOk result (λ made. (item : ℕ) → row_at made.turns.over.starts made.turns.over.items
        item ≡ triggers_under conf.now item) }
    ensures by_dependent { IfOk result (λ made. (id : ℕ) → row_at made.turns.masters.starts made.turns.masters.items
        id ≡ masters_of conf.now id) }
    ensures timed { IfOk result (λ made. made.turns.timed ≡ timed_triggers conf.now) }
    ensures all { IfOk result (λ made. made.turns.all ≡ order conf.now) }
    ensures by_reach { IfOk result (λ made. made.rules.reached ≡ map (some_reaches conf.now.correlations)
        conf.now.triggers) }
    ensures by_rule { IfOk result (λ made. (rule id : ℕ) → has_id (row_at made.rules.reaches.starts
        made.rules.reaches.items rule) id ≡ is_reached conf.now rule id) }
{
    let rules = rules_of(alloc, conf)?;
    let expressions = expressions_of(alloc, conf, patterns)?;
    match turns_of(alloc, conf) {
        Ok(turns) => Ok(TriggerIndex {
            expressions,
            turns,
            rules,
        }),
        Err(OutOfMemory) => {
            drop(rules);
            drop(expressions);
            Err(OutOfMemory)
        }
    }
}

/// Makes the indexes of a configuration, over its patterns. Where it can't be evaluated, there is no room for them.
pub(crate) fn indexes_of(
    alloc: Global,
    conf: &Conf,
    patterns: &Patterns,
) -> Result<Indexes, OutOfMemory>
    requires { patterns.now ≡ conf.now.patterns }
    ensures { IfOk result (λ made. IsIndex conf.now made.items.hosts made.items.keys.items made.triggers.turns.over
        made.triggers.expressions.plans made.triggers.expressions.recoveries made.triggers.turns.masters patterns.now
        made.triggers.expressions.places made.triggers.turns.timed made.triggers.turns.all made.triggers.rules.reached
        made.items.chains made.items.feet made.triggers.rules.reaches) }
{
    near(conf)?;
    patterned(alloc, conf)?;
    stepped(conf)?;
    let items = items_of(alloc, conf, patterns)?;
    match triggers_of(alloc, conf, patterns) {
        Ok(triggers) => Ok(Indexes { items, triggers }),
        Err(OutOfMemory) => {
            drop(items);
            Err(OutOfMemory)
        }
    }
}
