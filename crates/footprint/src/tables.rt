//! Tables of a configuration: for each item what its values touch.

ghost use Rattle.std.specs.Prelude.{◌≡◌, [], ◌∷◌, length, map, is_some, IfOk};
ghost use Rattle.zbx_types.specs.Ids.{at_id};
ghost use Rattle.zbx_types.specs.Masters.{DepthsFall, masters_of};
ghost use Rattle.footprint.specs.Rows.{those, table_of, IsTable};
ghost use Rattle.footprint.specs.Feet.{master_by, chain, calls_by, under_of, over_of, foot_has_item, foot_triggers};
ghost use Rattle.footprint.specs.Feet.{foot_marks, foot_meets_mark};
ghost use Rattle.footprint.specs.Reaches.{reached_from};

use crate::reach::reaching;
use crate::rows::{gathered_all, inverse, united_all};
use std::alloc::Global;
use zbx_types::{Conf, Many, OutOfMemory, Rule, Trigger, by_id, id_of, masters};

/// Whether there is an item with this id.
fn is_there(conf: &Conf, id: u32) -> bool
    ensures { result ≡ is_some (at_id conf.now.items id) }
{
    by_id(conf.items.as_slice(), id).is_some()
}

/// The master item of the item with this id, or 0.
fn master_of(conf: &Conf, id: u32) -> u32
    ensures { result ≡ master_by (at_id conf.now.items id) }
{
    match by_id(conf.items.as_slice(), id) {
        None => 0,
        Some(item) => item.master,
    }
}

/// The ids of an item, of its master item, of that one's, and so on. [`OutOfMemory`] where there is no room for them.
pub fn chain(alloc: Global, conf: &Conf, item: u32) -> Result<Many<u32>, OutOfMemory>
    ensures { IfOk result (λ row. row ≡ chain conf.now (length conf.now.items) item) }
{
    let mut row = Many::new(alloc);
    let mut at = item;
    for _step in 0..conf.items.len() {
        if is_there(conf, at) {
            row.push(at)?;
            at = master_of(conf, at);
        } else {
            return Ok(row);
        }
    }
    Ok(row)
}

/// For each item its chain.
fn chains(alloc: Global, conf: &Conf) -> Result<Vec<Many<u32>>, OutOfMemory>
    ensures { IfOk result (λ made. made.items ≡ table_of conf.now.items (chain conf.now (length conf.now.items))) }
{
    let mut made = Vec::new(alloc);
    made.push(Many::new(alloc))?;
    for place in 0..conf.items.len() {
        made.push(chain(alloc, conf, id_of(place)?)?)?;
    }
    Ok(made)
}

/// For each trigger the items of its calls.
fn called(alloc: Global, triggers: &[Trigger]) -> Result<Vec<Many<u32>>, OutOfMemory>
    ensures { IfOk result (λ made. made.items ≡ [] ∷ map (λ trigger. trigger.call_items) triggers.now) }
{
    let mut made = Vec::new(alloc);
    made.push(Many::new(alloc))?;
    for trigger in triggers {
        made.push(trigger.call_items.copy(alloc)?)?;
    }
    Ok(made)
}

/// A trigger and its masters.
fn family(alloc: Global, conf: &Conf, trigger: u32) -> Result<Many<u32>, OutOfMemory>
    requires { DepthsFall conf.now }
    ensures { IfOk result (λ row. row ≡ trigger ∷ masters_of conf.now trigger) }
{
    let mut row = Many::new(alloc);
    row.push(trigger)?;
    row.append(masters(alloc, conf, trigger)?)?;
    Ok(row)
}

/// For each trigger itself and its masters.
fn families(alloc: Global, conf: &Conf) -> Result<Vec<Many<u32>>, OutOfMemory>
    requires { DepthsFall conf.now }
    ensures { IfOk result (λ made. made.items ≡ table_of conf.now.triggers (λ t. t ∷ masters_of conf.now t)) }
{
    let mut made = Vec::new(alloc);
    made.push(Many::new(alloc))?;
    for place in 0..conf.triggers.len() {
        made.push(family(alloc, conf, id_of(place)?)?)?;
    }
    Ok(made)
}

/// For each trigger the rules whose reach holds it.
fn reached(
    alloc: Global,
    rules: &[Rule],
    triggers: &[Trigger],
) -> Result<Vec<Many<u32>>, OutOfMemory>
    ensures { IfOk result (λ made. made.items ≡ [] ∷ map (λ trigger. reached_from trigger 1 rules.now) triggers.now) }
{
    let mut made = Vec::new(alloc);
    made.push(Many::new(alloc))?;
    for trigger in triggers {
        made.push(reaching(alloc, rules, trigger)?)?;
    }
    Ok(made)
}

/// What hangs on each item.
#[derive(Drop)]
pub(crate) struct Hanging {
    /// For each trigger the items of its calls.
    called: Vec<Many<u32>>,
    /// For each item itself and its dependents.
    under: Vec<Many<u32>>,
    /// For each item the triggers over these.
    pub(crate) over: Vec<Many<u32>>,
}

/// What hangs on each item.
pub(crate) fn what_hangs(alloc: Global, conf: &Conf) -> Result<Hanging, OutOfMemory>
    ensures called { IfOk result (λ made. IsTable made.called.items (λ t. calls_by (at_id conf.now.triggers t))) }
    ensures under { IfOk result (λ made. IsTable made.under.items (under_of conf.now)) }
    ensures over { IfOk result (λ made. IsTable made.over.items (over_of conf.now)) }
    ensures size { IfOk result (λ made. length made.over.items ≡ length made.under.items) }
{
    let items = conf.items.as_slice();
    let triggers = conf.triggers.as_slice();
    let chains = chains(alloc, conf)?;
    let under = inverse(alloc, chains.as_slice(), items, items)?;
    let called = called(alloc, triggers)?;
    let calls = inverse(alloc, called.as_slice(), items, triggers)?;
    let over = gathered_all(alloc, calls.as_slice(), under.as_slice(), triggers)?;
    Ok(Hanging {
        called,
        under,
        over,
    })
}

/// For each item the items of its foot.
pub(crate) fn foot_items(
    alloc: Global,
    conf: &Conf,
    hanging: &Hanging,
) -> Result<Vec<Many<u32>>, OutOfMemory>
    requires called { IsTable hanging.now.called.items (λ t. calls_by (at_id conf.now.triggers t)) }
    requires under { IsTable hanging.now.under.items (under_of conf.now) }
    requires over { IsTable hanging.now.over.items (over_of conf.now) }
    requires size { length hanging.now.over.items ≡ length hanging.now.under.items }
    ensures { IfOk result (λ made. IsTable made.items (λ item. those conf.now.items (foot_has_item conf.now item))) }
{
    let items = conf.items.as_slice();
    let others = gathered_all(
        alloc,
        hanging.called.as_slice(),
        hanging.over.as_slice(),
        items,
    )?;
    let made = united_all(alloc, hanging.under.as_slice(), others.as_slice(), items)?;
    Ok(made)
}

/// For each item the triggers of its foot.
pub(crate) fn foot_triggers(
    alloc: Global,
    conf: &Conf,
    over: &[Many<u32>],
) -> Result<Vec<Many<u32>>, OutOfMemory>
    requires falls { DepthsFall conf.now }
    requires over { IsTable over.now (over_of conf.now) }
    ensures { IfOk result (λ made. IsTable made.items (foot_triggers conf.now)) }
{
    let families = families(alloc, conf)?;
    let made = gathered_all(alloc, families.as_slice(), over, conf.triggers.as_slice())?;
    Ok(made)
}

/// The rules of each item's foot.
#[derive(Drop)]
pub(crate) struct Marks {
    /// Those whose marks are in it.
    pub(crate) own: Vec<Many<u32>>,
    /// Those that share a trigger with one of these.
    pub(crate) met: Vec<Many<u32>>,
}

/// For each item the rules of its foot, where these are its triggers.
pub(crate) fn foot_marks(
    alloc: Global,
    conf: &Conf,
    triggers: &[Many<u32>],
) -> Result<Marks, OutOfMemory>
    requires { IsTable triggers.now (foot_triggers conf.now) }
    ensures own { IfOk result (λ made. IsTable made.own.items (foot_marks conf.now)) }
    ensures met { IfOk result (λ made. IsTable made.met.items (λ item. those conf.now.correlations (foot_meets_mark conf.now item))) }
{
    let rules = conf.correlations.as_slice();
    let all = conf.triggers.as_slice();
    let reached = reached(alloc, rules, all)?;
    let own = gathered_all(alloc, reached.as_slice(), triggers, rules)?;
    let members = inverse(alloc, reached.as_slice(), rules, all)?;
    let shares = gathered_all(alloc, reached.as_slice(), members.as_slice(), rules)?;
    let met = gathered_all(alloc, shares.as_slice(), own.as_slice(), rules)?;
    Ok(Marks { own, met })
}
