//! What is in force.

ghost use Rattle.std.specs.Prelude.{◌≡◌, [], if◌then◌else◌, IfOk, OnOk};
ghost use Rattle.std.specs.Option.{option_map};
ghost use Rattle.zbx_types.specs.Records.{same_event};
ghost use Rattle.zbx_types.specs.declared.conf.Conf.{Conf};
ghost use Rattle.zbx_types.specs.declared.entries.EventId.{EventId};
ghost use Rattle.trigger_state.specs.Naming.{noted, FindsFirst};
ghost use Rattle.trigger_state.specs.Origins.{place_of, place_in, FindsPlaces, FindsTold, origins_told};
ghost use Rattle.trigger_state.specs.Stages.{home, rank_of, origin_of, trigger_named, first_stage};

use crate::naming::{id_at, ids_of};
use std::alloc::Global;
use std::collections::HashMap;
use std::marker::Model;
use zbx_types::{Conf, EventId, OutOfMemory, Text, depth_of};

/// What is known of an event of another configuration than the one in force (this project's own): the names by which
/// its trigger is found again, and its rank among the events of its entry.
#[derive(Drop)]
pub struct Origin {
    /// The event.
    pub event: EventId,
    /// The name of its trigger's host.
    pub host: Text,
    /// The name of its trigger.
    pub trigger: Text,
    /// The rank of the event: the depth that its trigger had when the problem opened.
    pub rank: u32,
}

/// What is looked up of an origin.
#[derive(Clone, Copy)]
struct Place {
    /// The id that the trigger with its names has in the configuration in force, 0 where there is none.
    home: u32,
    /// Its rank.
    rank: u32,
}

/// Origins, of which there is one at least, with a table of their places by the numbers and triggers of their events.
#[derive(Drop)]
pub struct Told {
    /// The origins.
    origins: Vec<Origin>,
    /// The place of the first origin of each event.
    places: HashMap<(u64, u32), Place>,
}

/// A configuration that is in force, with whose problems events are and where they stand among those of their entry
/// (this project's own). It knows where the events of other configurations come from.
#[derive(Drop)]
pub struct InForce {
    conf: Conf,
    told: Option<Told>,
}

impl Model for InForce {
    ghost use Rattle.std.specs.Coded.{codes};
    ghost use Rattle.zbx_types.specs.Tree.{tree_code};
    ghost use Rattle.trigger_state.specs.Stages.{Stage};
    ghost use Rattle.trigger_state.specs.Origins.{FindsTold, origins_told};

    ghost Value = { Stage };

    ghost coded = { Prim.hlevel (codes, tree_code) };

    ghost view = { λ s. record { conf = s.conf; origins = origins_told s.told } };

    ghost invariant = { λ s. FindsTold s.conf s.told };
}

/// The id of the trigger with the names of an origin in a configuration whose triggers are found by their names, 0
/// where there is none.
#[tactic(auto, unfolding(crate::specs::Stages::trigger_named))]
fn trigger_named(ids: &HashMap<(&[u8], &[u8]), u32>, origin: &Origin) -> u32
    ensures { (conf : Conf) → FindsFirst ids.now conf → result ≡ trigger_named conf origin.now }
{
    match id_at(ids, origin.host.as_bytes(), origin.trigger.as_bytes()) {
        None => 0,
        Some(id) => id,
    }
}

/// Notes the place of an origin, unless its event has one.
fn note(
    places: &mut HashMap<(u64, u32), Place>,
    event: EventId,
    place: Place,
) -> Result<(), OutOfMemory>
    ensures { OnOk result ((e : EventId) → place_in places.new e ≡ noted (place_in places.old e) (same_event event e) place) }
{
    let key = (event.number, event.trigger);
    if !places.contains_key(&key) {
        places.insert(key, place)?;
    }
    Ok(())
}

/// The places of origins by the numbers and triggers of their events: of the same event the first. Made in time that
/// grows with the lengths of the names.
fn places_of(
    alloc: Global,
    conf: &Conf,
    origins: &[Origin],
) -> Result<HashMap<(u64, u32), Place>, OutOfMemory>
    ensures { IfOk result (λ places. FindsPlaces places conf.now origins.now) }
{
    let ids = ids_of(alloc, conf)?;
    let mut places = HashMap::new(alloc);
    for origin in origins {
        let place = Place {
            home: trigger_named(&ids, origin),
            rank: origin.rank,
        };
        note(&mut places, origin.event, place)?;
    }
    Ok(places)
}

/// Origins with the table of their places; nothing where there are no origins.
fn told_of(alloc: Global, conf: &Conf, origins: Vec<Origin>) -> Result<Option<Told>, OutOfMemory>
    ensures origins { IfOk result (λ told. origins_told told ≡ origins.items) }
    ensures places { IfOk result (λ told. FindsTold conf.now told) }
{
    if origins.is_empty() {
        return Ok(None);
    }
    let places = places_of(alloc, conf, origins.as_slice())?;
    Ok(Some(Told { origins, places }))
}

/// The place of the first origin with an event, where there is one.
fn place_at(told: &Option<Told>, event: EventId) -> Option<Place>
    ensures { (conf : Conf) → FindsTold conf told.now → result ≡ option_map (place_of conf) (origin_of (origins_told told.now) event) }
{
    match told {
        None => None,
        Some(told) => told.places.get(&(event.number, event.trigger)).copied(),
    }
}

impl InForce {
    /// A configuration before which there was none.
    pub fn first(conf: Conf) -> InForce
        ensures { result ≡ first_stage conf }
    {
        InForce { conf, told: None }
    }

    /// Makes the table of the places of these origins, for [`InForce::know`], in time that grows with the lengths of the
    /// names. [`OutOfMemory`] where there is no room for it.
    pub fn known(&self, alloc: Global, origins: Vec<Origin>) -> Result<Option<Told>, OutOfMemory>
        ensures origins { IfOk result (λ told. origins_told told ≡ origins.items) }
        ensures places { IfOk result (λ told. FindsTold self.now.conf told) }
    {
        told_of(alloc, &self.conf, origins)
    }

    /// Goes on with the problems of another configuration, whose events have these origins: of the same event the first
    /// one counts. The origins that were there before are gone. Takes no memory.
    pub fn know(&mut self, told: Option<Told>)
        requires { FindsTold self.old.conf told }
        ensures { self.new ≡ record { conf = self.old.conf; origins = origins_told told } }
    {
        self.told = told;
    }

    /// The configuration.
    pub fn conf(&self) -> &Conf
        ensures { result.now ≡ self.now.conf }
    {
        &self.conf
    }

    /// The id that the trigger of an event has in the configuration: the one in the event, unless it is of another
    /// configuration, whose events have origins. Then it is that of the trigger with the names of its origin, 0 where
    /// there is none.
    pub fn home(&self, event: EventId) -> u32
        ensures { result ≡ home self.now event }
    {
        match place_at(&self.told, event) {
            None => event.trigger,
            Some(place) => place.home,
        }
    }

    /// The rank of an event: that of its origin where it has one, else the depth of its trigger, and 0 where it isn't
    /// there.
    pub fn rank(&self, event: EventId) -> u32
        ensures { result ≡ rank_of self.now event }
    {
        match place_at(&self.told, event) {
            None => depth_of(&self.conf, event.trigger),
            Some(place) => place.rank,
        }
    }
}
