//! The triggers that triggers depend on.

ghost use Rattle.std.specs.Prelude.{◌≡◌, ℕ, List, get_or, ◌+◌, ◌++◌, ◌∷◌, [], ◌<◌, length, map, Some, None, slice_get, All, IfOk, IfErr, OnOk, codes};
ghost use Rattle.dependency_graph.specs.Depths.{depths_of};
ghost use Rattle.host_layout.specs.Answers.{Gives, GivesAs, Tells};
ghost use Rattle.config_templates.specs.Depends.{host_depended, trigger_placed, depend_of, depends_of, depending_of, dependings_from, dependings_of};
ghost use Rattle.config_templates.specs.Depends.{links_of, depend_path, cyclic, linked, linked_from, all_linked, depending, written_triggers};
ghost use Rattle.config_templates.specs.Dependings.{dependings_now, placed_depend, IsKnown};
ghost use Rattle.host_layout.specs.Elements.{element_path, IsRefusal, placed_trigger, placed_host, own_triggers};
ghost use Rattle.host_layout.specs.Inherited.{Inherits};
ghost use Rattle.host_layout.specs.Links.{placed_hosts, sources_of};
ghost use Rattle.host_layout.specs.Names.{named_triggers};
ghost use Rattle.host_layout.specs.Owners.{KnowsHosts};
ghost use Rattle.host_layout.specs.Places.{each};
ghost use Rattle.host_layout.specs.Sources.{placed_of};
ghost use Rattle.config_templates.specs.Triggers.{placed_triggers};

use config_read::{RawConf, RawDepend, RawHost, RawTrigger};
use dependency_graph::{depths, first_on_cycle};
use host_layout::{
    FirstPlaces, FlatError, Inheritance, OwnedNames, Source, beside, element_pointer, sources,
};
use json_form::element;
use std::alloc::Global;
use std::convert::AsStr;
use std::mem::replace;
use zbx_types::{Cause, Many, OutOfMemory, Text, Trigger, id_of};

/// The triggers of all hosts, and their names.
#[derive(Drop)]
pub(crate) struct NamedTriggers {
    pub triggers: Many<Trigger>,
    pub names: OwnedNames,
}

/// What the names in dependencies are looked up in.
#[derive(Clone, Copy)]
pub(crate) struct Known<'r, 'l> {
    /// The document.
    pub raw: &'r RawConf,
    /// The places of the hosts' names.
    pub hosts: &'l FirstPlaces,
    /// The triggers of all hosts.
    pub list: &'l NamedTriggers,
}

/// A trigger that depends on others: where it is written, and the places of those among the triggers of all hosts.
#[derive(Drop)]
pub(crate) struct Dependencies<'r> {
    pub source: Source<'r>,
    pub index: usize,
    pub ends: Many<usize>,
}

/// The pointer to a member of a dependency of the trigger at an index of a source. The member is named with its `/`.
fn depend_pointer(
    alloc: Global,
    source: &Source<'_>,
    index: usize,
    at: usize,
    member: &str,
) -> Result<Text, OutOfMemory>
    ensures { IfOk result (λ t. t ≡ depend_path (element_path source.now (codes "/triggers") index) at ++ member.now) }
{
    let mut list = element_pointer(alloc, source, "/triggers", index)?;
    list.push_str("/depends")?;
    let mut path = element(alloc, list.as_str(), at)?;
    path.push_str(member)?;
    Ok(path)
}

/// The refusal of a member of a dependency.
fn refused_depend(
    alloc: Global,
    source: &Source<'_>,
    index: usize,
    at: usize,
    member: &str,
    cause: Cause,
) -> FlatError
    ensures { IsRefusal (depend_path (element_path source.now (codes "/triggers") index) at ++ member.now) cause result }
{
    match depend_pointer(alloc, source, index, at, member) {
        Ok(path) => FlatError::Refused { path, cause },
        Err(OutOfMemory) => FlatError::OutOfMemory,
    }
}

/// The id of the host that a dependency of a trigger of a host names.
fn host_of(known: &Known<'_, '_>, own: u32, name: &Text) -> Result<Option<u32>, OutOfMemory>
    requires { IsKnown known.now }
    ensures { IfOk result (λ host. host ≡ host_depended known.now.raw.now.hosts own name.now) }
{
    if name.as_bytes().len() == 0 {
        return Ok(Some(own));
    }
    match known.hosts.place(name.as_bytes()) {
        None => Ok(None),
        Some(place) => Ok(Some(id_of(place)?)),
    }
}

/// The place of the trigger of a host with a name.
#[tactic(auto, using(crate::proofs::Linked::placed_named))]
fn trigger_of(
    alloc: Global,
    known: &Known<'_, '_>,
    host: u32,
    name: &Text,
) -> Result<Option<usize>, OutOfMemory>
    requires { IsKnown known.now }
    ensures { IfOk result (λ place. place ≡ trigger_placed known.now.list.now.triggers host name.now) }
{
    known.list.names.place(alloc, host, name.as_str())
}

/// The place of the trigger that a dependency names.
#[tactic(auto, using(host_layout::proofs::Failing::refusal, crate::proofs::Linked::placed_within), unfolding(crate::specs::Depends::depend_of))]
fn depend(
    alloc: Global,
    known: &Known<'_, '_>,
    own: u32,
    source: &Source<'_>,
    index: usize,
    at: usize,
    raw: &RawDepend,
) -> Result<usize, FlatError>
    requires { IsKnown known.now }
    ensures gives { (before : List ℕ) → Gives result (depend_of known.now.raw.now.hosts known.now.list.now.triggers own before (placed_depend source.now index at raw.now)) }
    ensures within { IfOk result (λ place. place < length known.now.list.now.triggers) }
{
    let Some(host) = host_of(known, own, &raw.host)? else {
        return Err(refused_depend(alloc, source, index, at, "/host", Cause::UnknownName));
    };
    match trigger_of(alloc, known, host, &raw.trigger)? {
        None => Err(refused_depend(alloc, source, index, at, "/trigger", Cause::UnknownName)),
        Some(place) => Ok(place),
    }
}

/// Adds the place of the trigger that a dependency names.
fn add_depend(
    alloc: Global,
    known: &Known<'_, '_>,
    own: u32,
    ends: &mut Many<usize>,
    source: &Source<'_>,
    index: usize,
    at: usize,
    raw: &RawDepend,
) -> Result<(), FlatError>
    requires known { IsKnown known.now }
    requires within { All (λ t. t < length known.now.list.now.triggers) ends.old }
    ensures gives { GivesAs (λ _. ends.new) result (each (depend_of known.now.raw.now.hosts known.now.list.now.triggers own) ends.old (placed_depend source.now index at raw.now ∷ [])) }
    ensures within { OnOk result (All (λ t. t < length known.now.list.now.triggers) ends.new) }
{
    ends.push(depend(alloc, known, own, source, index, at, raw)?)?;
    Ok(())
}

/// The places of all that a trigger depends on.
#[tactic(auto, unfolding(crate::specs::Depends::depends_of))]
fn depends(
    alloc: Global,
    known: &Known<'_, '_>,
    own: u32,
    source: &Source<'_>,
    index: usize,
    raw: &RawTrigger,
) -> Result<Many<usize>, FlatError>
    requires { IsKnown known.now }
    ensures gives { Gives result (depends_of known.now.raw.now.hosts known.now.list.now.triggers own (placed_trigger source.now index raw.now)) }
    ensures within { IfOk result (λ ends. All (λ t. t < length known.now.list.now.triggers) ends) }
{
    let mut ends = Many::new(alloc);
    for (at, one) in raw.depends.as_slice().iter().enumerate() {
        add_depend(alloc, known, own, &mut ends, source, index, at, one)?;
    }
    Ok(ends)
}

/// Adds a trigger of a host.
#[tactic(auto, unfolding(crate::specs::Depends::depending_of))]
fn add_trigger<'r>(
    alloc: Global,
    known: &Known<'r, '_>,
    own: u32,
    made: &mut Many<Dependencies<'r>>,
    source: &Source<'r>,
    index: usize,
    raw: &RawTrigger,
) -> Result<(), FlatError>
    requires known { IsKnown known.now }
    requires within { All (λ ends. All (λ t. t < length known.now.list.now.triggers) ends) (links_of (dependings_now made.old)) }
    ensures gives { GivesAs (λ _. dependings_now made.new) result (each (depending_of known.now.raw.now.hosts known.now.list.now.triggers own) (dependings_now made.old) (placed_trigger source.now index raw.now ∷ [])) }
    ensures within { OnOk result (All (λ ends. All (λ t. t < length known.now.list.now.triggers) ends) (links_of (dependings_now made.new))) }
{
    let ends = depends(alloc, known, own, source, index, raw)?;
    made.push(Dependencies {
        source: *source,
        index,
        ends,
    })?;
    Ok(())
}

/// Adds the triggers of a source.
fn add_triggers<'r>(
    alloc: Global,
    known: &Known<'r, '_>,
    own: u32,
    made: &mut Many<Dependencies<'r>>,
    source: &Source<'r>,
) -> Result<(), FlatError>
    requires known { IsKnown known.now }
    requires within { All (λ ends. All (λ t. t < length known.now.list.now.triggers) ends) (links_of (dependings_now made.old)) }
    ensures gives { GivesAs (λ _. dependings_now made.new) result (each (depending_of known.now.raw.now.hosts known.now.list.now.triggers own) (dependings_now made.old) (own_triggers source.now)) }
    ensures within { OnOk result (All (λ ends. All (λ t. t < length known.now.list.now.triggers) ends) (links_of (dependings_now made.new))) }
{
    for (index, raw) in source.body.triggers.as_slice().iter().enumerate() {
        add_trigger(alloc, known, own, made, source, index, raw)?;
    }
    Ok(())
}

/// Adds the triggers of some sources.
#[tactic(auto, using(host_layout::proofs::Steps::source_then, host_layout::proofs::Steps::source_fails))]
fn add_sources<'r>(
    alloc: Global,
    known: &Known<'r, '_>,
    own: u32,
    made: &mut Many<Dependencies<'r>>,
    sources: &[Source<'r>],
) -> Result<(), FlatError>
    requires known { IsKnown known.now }
    requires within { All (λ ends. All (λ t. t < length known.now.list.now.triggers) ends) (links_of (dependings_now made.old)) }
    ensures gives { GivesAs (λ _. dependings_now made.new) result (each (depending_of known.now.raw.now.hosts known.now.list.now.triggers own) (dependings_now made.old) (placed_triggers (map placed_of sources.now))) }
    ensures within { OnOk result (All (λ ends. All (λ t. t < length known.now.list.now.triggers) ends) (links_of (dependings_now made.new))) }
{
    for source in sources {
        add_triggers(alloc, known, own, made, source)?;
    }
    Ok(())
}

/// Adds the triggers of the host that stands at this place.
#[tactic(auto, unfolding(crate::specs::Depends::dependings_from))]
fn add_host<'r>(
    alloc: Global,
    known: &Known<'r, '_>,
    inheritance: &Inheritance<'r>,
    place: usize,
    host: &'r RawHost,
    made: &mut Many<Dependencies<'r>>,
) -> Result<(), FlatError>
    requires known { IsKnown known.now }
    requires place { place < length known.now.raw.now.hosts }
    requires there { slice_get (placed_hosts known.now.raw.now) place ≡ Some (placed_host place host.now) }
    requires inheritance { Inherits known.now.raw.now inheritance.now }
    requires within { All (λ ends. All (λ t. t < length known.now.list.now.triggers) ends) (links_of (dependings_now made.old)) }
    ensures gives { GivesAs (λ _. dependings_now made.new) result (dependings_from known.now.raw.now known.now.list.now.triggers (place + 1) (sources_of known.now.raw.now (placed_host place host.now)) (dependings_now made.old)) }
    ensures within { OnOk result (All (λ ends. All (λ t. t < length known.now.list.now.triggers) ends) (links_of (dependings_now made.new))) }
{
    let own = id_of(place)?;
    let sources = sources(alloc, known.raw, &inheritance.links, place)?;
    add_sources(alloc, known, own, made, sources.as_slice())
}

/// What the triggers of all hosts depend on.
#[tactic(auto, unfolding(crate::specs::Depends::dependings_of))]
fn dependings<'r>(
    alloc: Global,
    known: &Known<'r, '_>,
    inheritance: &Inheritance<'r>,
) -> Result<Many<Dependencies<'r>>, FlatError>
    requires known { IsKnown known.now }
    requires inheritance { Inherits known.now.raw.now inheritance.now }
    ensures gives { GivesAs (λ ds. dependings_now ds) result (dependings_of known.now.raw.now known.now.list.now.triggers) }
    ensures within { IfOk result (λ ds. All (λ ends. All (λ t. t < length known.now.list.now.triggers) ends) (links_of (dependings_now ds))) }
{
    let mut made = Many::new(alloc);
    for (place, host) in known.raw.hosts.as_slice().iter().enumerate() {
        add_host(alloc, known, inheritance, place, host, &mut made)?;
    }
    Ok(made)
}

/// For each trigger the places of those that it depends on.
fn links(alloc: Global, dependings: &[Dependencies<'_>]) -> Result<Vec<Many<usize>>, OutOfMemory>
    ensures { IfOk result (λ links. links.items ≡ links_of (dependings_now dependings.now)) }
{
    let mut made = Vec::new(alloc);
    for depending in dependings {
        made.push(depending.ends.copy(alloc)?)?;
    }
    Ok(made)
}

/// Refuses the first dependency that lies on a cycle.
#[tactic(auto, using(crate::proofs::Linked::held_at), unfolding(crate::specs::Depends::cyclic))]
fn acyclic(
    alloc: Global,
    dependings: &[Dependencies<'_>],
    links: &[Many<usize>],
) -> Result<(), FlatError>
    requires links { links.now ≡ links_of (dependings_now dependings.now) }
    requires closed { All (λ ends. All (λ t. t < length links.now) ends) links.now }
    ensures none { OnOk result (cyclic (dependings_now dependings.now) ≡ None) }
    ensures refused { IfErr result (λ e. Tells e (cyclic (dependings_now dependings.now))) }
{
    let Some(link) = first_on_cycle(alloc, links)? else {
        return Ok(());
    };
    match dependings.get(link.from) {
        None => Ok(()),
        Some(one) => {
            let at = link.at;
            Err(refused_depend(alloc, &one.source, one.index, at, "/trigger", Cause::Cycle))
        }
    }
}

/// The ids of what stands at some places.
fn ids(alloc: Global, places: &[usize]) -> Result<Many<u32>, OutOfMemory>
    ensures { IfOk result (λ ids. ids ≡ map (λ place. place + 1) places.now) }
{
    let mut ids = Many::new(alloc);
    for place in places {
        ids.push(id_of(*place)?)?;
    }
    Ok(ids)
}

/// A trigger with the ids of those that it depends on, and its depth.
fn linked(
    alloc: Global,
    trigger: Trigger,
    ends: &[usize],
    depth: u32,
) -> Result<Trigger, OutOfMemory>
    ensures { IfOk result (λ made. made ≡ linked trigger ends.now depth) }
{
    let (depends, mut trigger) = beside(ids(alloc, ends), trigger)?;
    drop(replace(&mut trigger.depends, depends));
    trigger.depth = depth;
    Ok(trigger)
}

/// The links of what stands at a place.
fn ends_at(links: &[Many<usize>], place: usize) -> &[usize]
    ensures { result.now ≡ get_or links.now place [] }
{
    match links.get(place) {
        None => &[],
        Some(ends) => ends.as_slice(),
    }
}

/// The depth of what stands at a place.
fn depth_at(depths: &[u32], place: usize) -> u32
    ensures { result ≡ get_or depths.now place 0 }
{
    match depths.get(place) {
        None => 0,
        Some(depth) => *depth,
    }
}

/// The triggers with what they depend on.
fn all_linked(
    alloc: Global,
    triggers: Many<Trigger>,
    links: &[Many<usize>],
    depths: &[u32],
) -> Result<Many<Trigger>, OutOfMemory>
    ensures { IfOk result (λ made. made ≡ linked_from links.now depths.now 0 triggers) }
{
    let mut made = Many::new(alloc);
    for trigger in triggers.into_vec() {
        let place = made.len();
        made.push(linked(
            alloc,
            trigger,
            ends_at(links, place),
            depth_at(depths, place),
        )?)?;
    }
    Ok(made)
}

/// For each trigger the places of those that it depends on, and its depth.
#[derive(Drop)]
struct Chains {
    pub links: Vec<Many<usize>>,
    pub depths: Many<u32>,
}

/// The chains of these dependencies, each of which leads to one of as many triggers.
///
/// # Errors
///
/// `Cycle` at the first dependency that lies on a cycle.
fn found_chains(alloc: Global, dependings: &[Dependencies<'_>]) -> Result<Chains, FlatError>
    requires { All (λ ends. All (λ t. t < length (links_of (dependings_now dependings.now))) ends) (links_of (dependings_now dependings.now)) }
    ensures links { IfOk result (λ chains. chains.links.items ≡ links_of (dependings_now dependings.now)) }
    ensures depths { IfOk result (λ chains. chains.depths ≡ depths_of (links_of (dependings_now dependings.now))) }
    ensures none { OnOk result (cyclic (dependings_now dependings.now) ≡ None) }
    ensures refused { IfErr result (λ e. Tells e (cyclic (dependings_now dependings.now))) }
{
    let links = links(alloc, dependings)?;
    acyclic(alloc, dependings, &links)?;
    let depths = depths(alloc, &links)?;
    Ok(Chains { links, depths })
}

/// The chains of the dependencies of all triggers.
///
/// # Errors
///
/// Those of [`depending`].
#[tactic(auto, using(crate::proofs::Linked::given, crate::proofs::Linked::found_fails, crate::proofs::Linked::cycle_fails))]
fn all_chains<'r>(
    alloc: Global,
    known: &Known<'r, '_>,
    inheritance: &Inheritance<'r>,
) -> Result<Chains, FlatError>
    requires known { IsKnown known.now }
    requires inheritance { Inherits known.now.raw.now inheritance.now }
    requires written { length known.now.list.now.triggers ≡ length (written_triggers known.now.raw.now) }
    ensures { GivesAs (λ chains. linked_from chains.links.items chains.depths 0 known.now.list.now.triggers) result (depending known.now.raw.now known.now.list.now.triggers) }
{
    let found = dependings(alloc, known, inheritance)?;
    let chains = found_chains(alloc, found.as_slice())?;
    Ok(chains)
}

/// The triggers of all hosts with what they depend on: the ids of those, and how long the longest chain is.
///
/// # Errors
///
/// `UnknownName` at the first dependency, host by host, on a host or a trigger that isn't there; else `Cycle` at the first
/// that lies on a cycle.
pub(crate) fn depending<'r>(
    alloc: Global,
    raw: &'r RawConf,
    hosts: &FirstPlaces,
    inheritance: &Inheritance<'r>,
    list: NamedTriggers,
) -> Result<Many<Trigger>, FlatError>
    requires hosts { KnowsHosts hosts.now raw.now.hosts }
    requires inheritance { Inherits raw.now inheritance.now }
    requires names { list.names ≡ named_triggers list.triggers }
    requires written { length list.triggers ≡ length (written_triggers raw.now) }
    ensures { Gives result (depending raw.now list.triggers) }
{
    let known = Known {
        raw,
        hosts,
        list: &list,
    };
    let (chains, list) = beside(all_chains(alloc, &known, inheritance), list)?;
    let NamedTriggers { triggers, names } = list;
    drop(names);
    Ok(all_linked(alloc, triggers, &chains.links, chains.depths.as_slice())?)
}
