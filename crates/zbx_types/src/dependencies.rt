//! Masters of a trigger: the triggers that it depends on, directly or through others.

ghost use Rattle.std.specs.Prelude.{◌≡◌, length, slice_get, Decides, IfOk, OnOk};
ghost use Rattle.std.specs.List.Sorted.{IsStrictlySortedBy};
ghost use Rattle.std.specs.Ordering.{nat_cmp};
ghost use Rattle.zbx_types.specs.Masters.{depends_of, depth_of, DepthsFall, are_below, depths_fall, masters_of, MastersByChains, noted, entered, HasKeys, Finds};

use crate::conf::Conf;
use crate::ids::by_id;
use crate::many::Many;
use crate::memory::OutOfMemory;
use std::alloc::Global;
use std::collections::BTreeSet;

/// What a walk along dependencies has found.
#[derive(Drop)]
struct Walk {
    /// The ids of the triggers that are found.
    ids: BTreeSet<u32>,
    /// The same in the order in which they are found, each once.
    found: Vec<u32>,
}

/// The triggers that one depends on directly.
fn depends_of(conf: &Conf, id: u32) -> &[u32]
    ensures { result.now ≡ depends_of conf.now id }
{
    match by_id(conf.triggers.as_slice(), id) {
        None => &[],
        Some(trigger) => trigger.depends.as_slice(),
    }
}

/// The depth of the trigger with this id: the length of the longest chain of triggers that it depends on. 0 where
/// there is no such trigger.
pub fn depth_of(conf: &Conf, id: u32) -> u32
    ensures { result ≡ depth_of conf.now id }
{
    match by_id(conf.triggers.as_slice(), id) {
        None => 0,
        Some(trigger) => trigger.depth,
    }
}

/// Whether the depths of these triggers are below one.
fn are_below(conf: &Conf, depth: u32, ids: &[u32]) -> bool
    ensures { result ≡ are_below conf.now depth ids.now }
{
    ids.iter().all(|id| depth_of(conf, *id) < depth)
}

/// Whether each trigger is deeper than those that it depends on.
fn all_fall(conf: &Conf) -> bool
    ensures { result ≡ depths_fall conf.now }
{
    conf.triggers.as_slice().iter().all(|trigger| are_below(
        conf,
        trigger.depth,
        trigger.depends.as_slice(),
    ))
}

/// Whether each trigger that one depends on has a smaller depth. That is so in a configuration without cycles, where
/// the depth is the length of the longest chain; [`masters`] asks for it.
pub fn depths_fall(conf: &Conf) -> bool
    ensures { Decides result (DepthsFall conf.now) }
{
    all_fall(conf)
}

impl Walk {
    /// Notes the trigger with an id, of so many triggers, where there is one and it isn't found yet.
    fn note(&mut self, count: usize, id: u32) -> Result<(), OutOfMemory>
        requires { HasKeys count self.old.ids.keys self.old.found.items }
        ensures keys { OnOk result (HasKeys count self.new.ids.keys self.new.found.items) }
        ensures found { OnOk result (self.new.found.items ≡ noted count self.old.found.items id) }
    {
        if id == 0 {
            return Ok(());
        }
        if id as usize > count {
            return Ok(());
        }
        if self.ids.contains(&id) {
            return Ok(());
        }
        self.found.push(id)?;
        self.ids.insert(id)?;
        Ok(())
    }

    /// The id that was found at a place, counted from 0.
    fn at(&self, place: usize) -> Option<u32>
        ensures { result ≡ slice_get self.now.found.items place }
    {
        self.found.get(place).copied()
    }

    /// Notes the triggers with these ids.
    fn enter(&mut self, count: usize, ids: &[u32]) -> Result<(), OutOfMemory>
        requires { HasKeys count self.old.ids.keys self.old.found.items }
        ensures keys { OnOk result (HasKeys count self.new.ids.keys self.new.found.items) }
        ensures found { OnOk result (self.new.found.items ≡ entered count self.old.found.items ids.now) }
    {
        for id in ids {
            self.note(count, *id)?;
        }
        Ok(())
    }
}

/// Finds the masters of a trigger: goes on from each that it finds.
fn walk_from(alloc: Global, conf: &Conf, id: u32) -> Result<Walk, OutOfMemory>
    requires { DepthsFall conf.now }
    ensures keys { IfOk result (λ walk. HasKeys (length conf.now.triggers) walk.ids.keys walk.found.items) }
    ensures finds { IfOk result (λ walk. Finds conf.now id walk.found.items) }
{
    let count = conf.triggers.len();
    let mut walk = Walk {
        ids: BTreeSet::new(alloc),
        found: Vec::new(alloc),
    };
    walk.enter(count, depends_of(conf, id))?;
    for place in 0..usize::MAX {
        let Some(id) = walk.at(place) else {
            return Ok(walk);
        };
        walk.enter(count, depends_of(conf, id))?;
    }
    Ok(walk)
}

/// The ids of a set, in their order.
fn rising(alloc: Global, ids: &BTreeSet<u32>) -> Result<Many<u32>, OutOfMemory>
    ensures made { IfOk result (λ made. made ≡ ids.now.keys) }
    ensures ordered { IsStrictlySortedBy nat_cmp ids.now.keys }
{
    let mut made = Many::new(alloc);
    for id in ids.iter() {
        made.push(*id)?;
    }
    Ok(made)
}

/// The masters of a trigger: the ids of the triggers that it depends on, directly or through others, each once and
/// rising (the Zabbix 6.0 manual, "Trigger dependencies"). None where there is no such trigger, or where it depends on
/// none; that takes no memory. [`OutOfMemory`] where there is no room for the walk or the answer.
///
/// Each trigger that one depends on must have a smaller depth, as a configuration without cycles has it.
///
/// The time it takes grows with the masters and their dependencies, not with the triggers that it doesn't come to.
pub fn masters(alloc: Global, conf: &Conf, trigger: u32) -> Result<Many<u32>, OutOfMemory>
    requires { DepthsFall conf.now }
    ensures { IfOk result (λ ids. ids ≡ masters_of conf.now trigger) }
{
    if depends_of(conf, trigger).is_empty() {
        return Ok(Many::new(alloc));
    }
    let walk = walk_from(alloc, conf, trigger)?;
    rising(alloc, &walk.ids)
}

/// Where depths fall, the masters of a trigger are exactly what one or more dependencies lead to. The function does
/// nothing: it stands for its clause.
pub fn masters_by_chains()
    ensures { MastersByChains }
{}
