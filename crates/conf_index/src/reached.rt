//! The triggers that rules of global correlation can be about, and the feet of items.

ghost use Rattle.std.specs.Prelude.{◌≡◌, ◌∷◌, [], ℕ, map, IfOk};
ghost use Rattle.zbx_types.specs.Masters.{has_id};
ghost use Rattle.footprint.specs.Feet.{feet_of, is_reached, told_by};
ghost use Rattle.conf_index.specs.Index.{some_reaches, reach_from};
ghost use Rattle.conf_index.specs.Packed.{row_at};

use crate::packed::{Packed, pack};
use footprint::{Feet, in_reach};
use std::alloc::Global;
use zbx_types::{Conf, Many, OutOfMemory, Rule, Trigger, depths_fall, id_of};

/// Whether the reach of some rule holds a trigger.
fn some_reaches(rules: &[Rule], trigger: &Trigger) -> bool
    ensures { result ≡ some_reaches rules.now trigger.now }
{
    for rule in rules {
        if in_reach(rule, trigger) {
            return true;
        }
    }
    false
}

/// Of each trigger, whether the reach of some rule holds it.
pub(crate) fn reached(alloc: Global, conf: &Conf) -> Result<Many<bool>, OutOfMemory>
    ensures { IfOk result (λ made. made ≡ map (some_reaches conf.now.correlations) conf.now.triggers) }
{
    let rules = conf.correlations.as_slice();
    let triggers = conf.triggers.as_slice();
    let mut made = Many::new(alloc);
    for trigger in triggers {
        made.push(some_reaches(rules, trigger))?;
    }
    Ok(made)
}

/// The ids of the triggers that the reach of a rule holds.
fn reach_of(alloc: Global, rule: &Rule, triggers: &[Trigger]) -> Result<Many<u32>, OutOfMemory>
    ensures { IfOk result (λ row. row ≡ reach_from rule.now 1 triggers.now) }
{
    let mut row = Many::new(alloc);
    for (place, trigger) in triggers.iter().enumerate() {
        if in_reach(rule, trigger) {
            row.push(id_of(place)?)?;
        }
    }
    Ok(row)
}

/// Those of each rule, by ids of rules: an empty row for 0, and one for each rule.
fn reach_rows(alloc: Global, conf: &Conf) -> Result<Vec<Many<u32>>, OutOfMemory>
    ensures { IfOk result (λ rows. rows.items ≡ [] ∷ map (λ rule. reach_from rule 1 conf.now.triggers)
        conf.now.correlations) }
{
    let rules = conf.correlations.as_slice();
    let triggers = conf.triggers.as_slice();
    let mut rows = Vec::new(alloc);
    rows.push(Many::new(alloc))?;
    for rule in rules {
        rows.push(reach_of(alloc, rule, triggers)?)?;
    }
    Ok(rows)
}

/// The ids of the triggers that the reach of each rule holds, one list behind another, by ids of rules.
#[tactic(auto, using(crate::proofs::Reaches::reach_has))]
pub(crate) fn reaches_of_all(alloc: Global, conf: &Conf) -> Result<Packed<u32>, OutOfMemory>
    ensures { IfOk result (λ made. (rule id : ℕ) → has_id (row_at made.starts made.items rule) id ≡ is_reached
        conf.now rule id) }
{
    let rows = reach_rows(alloc, conf)?;
    pack(alloc, rows.as_slice())
}

/// The feet of the items. Where depths don't fall along dependencies, there is no room for them.
pub(crate) fn feet_of_all(alloc: Global, conf: &Conf) -> Result<Feet, OutOfMemory>
    ensures { IfOk result (λ feet. told_by feet ≡ feet_of conf.now) }
{
    if !depths_fall(conf) {
        return Err(OutOfMemory);
    }
    Feet::build(alloc, conf)
}
