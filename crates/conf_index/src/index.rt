//! A configuration made ready for a run: indexes by which its hosts, items and triggers are found.

ghost use Rattle.std.specs.Prelude.{◌≡◌, ◌-◌, ◌+◌, ◌≤◌, slice_get, ℕ, List, All, Contains, Some, Err, IfOk, take};
ghost use Rattle.zbx_types.specs.Ids.{at_id};
ghost use Rattle.zbx_types.specs.declared.triggers.Trigger.{Trigger};
ghost use Rattle.zbx_types.specs.Masters.{masters_of};
ghost use Rattle.event_text.specs.Titles.{name_of, event_tags};
ghost use Rattle.conf_index.specs.Plans.{plan_of, recovery_plan_of};
ghost use Rattle.pattern_set.specs.Patterns.{IsPattern, IsNoPattern};
ghost use Rattle.conf_index.specs.Index.{some_reaches};
ghost use Rattle.conf_index.specs.Names.{host_named, item_keyed};
ghost use Rattle.zbx_types.specs.Operators.{call_pattern};
ghost use Rattle.zbx_types.specs.declared.calls.Call.{Call};
ghost use Rattle.jiff_core.specs.Calendar.{IsWithin};
ghost use Rattle.value_cache.specs.Keeps.{seconds_in, most_seconds};
ghost use Rattle.conf_index.specs.Order.{order};
ghost use Rattle.footprint.specs.Feet.{feet_of, is_reached, told_by};
ghost use Rattle.zbx_types.specs.Masters.{has_id};
ghost use Rattle.value_cache.specs.Tokens.{CacheId, AreOf};
ghost use Rattle.preprocess.specs.Cells.{AreSame, IsPrepared};
ghost use Rattle.preprocess.specs.Draft.{AreApart, AreIn, HaveRoom};
ghost use Rattle.conf_index.specs.Index.{triggers_under};
ghost use Rattle.conf_index.specs.Timed.{timed_triggers};
ghost use Rattle.trigger_state.specs.Origins.{FindsTold, origins_told};
ghost use Rattle.trigger_state.specs.Stages.{first_stage};

use crate::asked::place_in;
use crate::fault::BuildError;
use crate::indexes::{Indexes, indexes_of};
use crate::packed::row;
use crate::plans::Node;
use event_text::{name, tags};
use footprint::Feet;
use pattern_set::Patterns;
use preprocess::{Prepared, prepare};
use std::alloc::Global;
use std::convert::AsStr;
use std::marker::Model;
use trigger_state::{InForce, Origin, Told};
use value_cache::Cache;
use zbx_types::{Conf, Held, Many, Moment, OutOfMemory, Tag, Text, by_id};

/// The patterns of these texts, built.
fn patterns_of(alloc: Global, texts: &Many<Text>) -> Result<Patterns, BuildError>
    ensures ok { IfOk result (λ patterns. (patterns ≡ texts.now) × All IsPattern texts.now) }
    ensures refused { (place : ℕ) → result ≡ Err (BuildError.Refused place) → (text : List ℕ)
        × (at_id texts.now place ≡ Some text) × IsNoPattern text }
    ensures first { (place : ℕ) → result ≡ Err (BuildError.Refused place) → All IsPattern (take (place - 1) texts.now) }
    ensures large { (place : ℕ) → result ≡ Err (BuildError.TooLarge place) → (text : List ℕ)
        × (at_id texts.now place ≡ Some text) × IsPattern text × Contains text 123 }
    ensures first_large { (place : ℕ) → result ≡ Err (BuildError.TooLarge place)
        → All IsPattern (take (place - 1) texts.now) }
{
    if texts.len() > u32::MAX as usize {
        return Err(BuildError::OutOfMemory);
    }
    match Patterns::build(alloc, texts) {
        Ok(patterns) => Ok(patterns),
        Err(pattern_set::BuildError::Refused { place }) => Err(BuildError::Refused { place }),
        Err(pattern_set::BuildError::TooLarge { place }) => Err(BuildError::TooLarge { place }),
        Err(pattern_set::BuildError::OutOfMemory) => Err(BuildError::OutOfMemory),
    }
}

/// A configuration with its indexes, which are made once (this project's own). Contracts see what is in force alone: the
/// configuration, and where events come from.
///
/// No look-up walks over the configuration.
#[derive(Drop)]
pub struct Ready {
    stage: InForce,
    patterns: Patterns,
    indexes: Indexes,
}

impl Model for Ready {
    ghost use Rattle.std.specs.Coded.{codes};
    ghost use Rattle.zbx_types.specs.Tree.{tree_code};
    ghost use Rattle.trigger_state.specs.Stages.{Stage};
    ghost use Rattle.conf_index.specs.Index.{IsIndex};

    ghost Value = { Stage };

    ghost coded = { Prim.hlevel (codes, tree_code) };

    ghost view = { λ r. r.stage };

    ghost invariant = { λ r. IsIndex r.stage.conf r.indexes.items.hosts r.indexes.items.keys.items r.indexes.triggers.turns.over r.indexes.triggers.expressions.plans r.indexes.triggers.expressions.recoveries r.indexes.triggers.turns.masters r.patterns r.indexes.triggers.expressions.places r.indexes.triggers.turns.timed r.indexes.triggers.turns.all r.indexes.triggers.rules.reached r.indexes.items.chains r.indexes.items.feet r.indexes.triggers.rules.reaches };
}

impl Ready {
    /// Makes the indexes of a configuration, in time that grows with its length and with the masters of its triggers.
    ///
    /// # Errors
    ///
    /// `Refused` where a pattern isn't read by the grammar or nests too deeply, and `TooLarge` where one is too large
    /// when it is built, each with the pattern's place.
    ///
    /// `OutOfMemory` where memory was refused, which a configuration whose hosts, items or triggers can't be counted
    /// in 32 bits stands for too, and one with a trigger whose depth isn't greater than that of each trigger that it
    /// depends on, one whose local time differs from UTC by more than 14 hours, and one with a call or with an event
    /// name or a tag or a preprocessing step whose pattern isn't among the configuration's, or with a call whose
    /// shift and period together are 2^32 seconds or more. There is room for each id of a host or an item that is
    /// named and for each depth, up to the greatest of them, whether it is in the configuration or not.
    pub fn build(alloc: Global, conf: Conf) -> Result<Ready, BuildError>
        ensures ok { IfOk result (λ ready. ready ≡ first_stage conf) }
        ensures patterns { IfOk result (λ _. All IsPattern conf.patterns) }
        ensures refused { (place : ℕ) → result ≡ Err (BuildError.Refused place) → (text : List ℕ)
            × (at_id conf.patterns place ≡ Some text) × IsNoPattern text }
        ensures first { (place : ℕ) → result ≡ Err (BuildError.Refused place)
            → All IsPattern (take (place - 1) conf.patterns) }
        ensures large { (place : ℕ) → result ≡ Err (BuildError.TooLarge place) → (text : List ℕ)
            × (at_id conf.patterns place ≡ Some text) × IsPattern text × Contains text 123 }
        ensures first_large { (place : ℕ) → result ≡ Err (BuildError.TooLarge place)
            → All IsPattern (take (place - 1) conf.patterns) }
    {
        match patterns_of(alloc, &conf.patterns) {
            Ok(patterns) => Ok(Ready::indexed(alloc, conf, patterns)?),
            Err(error) => {
                drop(conf);
                Err(error)
            }
        }
    }

    /// A configuration with its patterns and its indexes.
    fn indexed(alloc: Global, conf: Conf, patterns: Patterns) -> Result<Ready, OutOfMemory>
        requires { patterns ≡ conf.patterns }
        ensures { IfOk result (λ ready. ready ≡ first_stage conf) }
    {
        match indexes_of(alloc, &conf, &patterns) {
            Ok(indexes) => Ok(Ready {
                stage: InForce::first(conf),
                patterns,
                indexes,
            }),
            Err(OutOfMemory) => {
                drop(conf);
                drop(patterns);
                Err(OutOfMemory)
            }
        }
    }

    /// The configuration.
    pub fn conf(&self) -> &Conf
        ensures { result.now ≡ self.now.conf }
    {
        self.stage.conf()
    }

    /// What is in force: the configuration, and where events come from.
    pub fn stage(&self) -> &InForce
        ensures { result.now ≡ self.now }
    {
        &self.stage
    }

    /// Makes the table of where these events of another configuration come from, for `know`.
    pub fn known(&self, alloc: Global, origins: Vec<Origin>) -> Result<Option<Told>, OutOfMemory>
        ensures origins { IfOk result (λ told. origins_told told ≡ origins.items) }
        ensures places { IfOk result (λ told. FindsTold self.now.conf told) }
    {
        self.stage.known(alloc, origins)
    }

    /// Goes on with the problems of another configuration, whose events come from there. Takes no memory.
    pub fn know(&mut self, told: Option<Told>)
        requires { FindsTold self.old.conf told }
        ensures { self.new ≡ record { conf = self.old.conf; origins = origins_told told } }
    {
        self.stage.know(told);
    }

    /// The id of the first host with a name. Ids count from 1, in the order of the configuration.
    pub fn host_named(&self, name: &Text) -> Option<u32>
        ensures { result ≡ host_named self.now.conf name.now }
    {
        self.indexes.items.hosts.get(name.as_str()).copied()
    }

    /// The id of a host's first item with a key. Ids count from 1, in the order of the configuration.
    pub fn item_keyed(&self, host: u32, key: &Text) -> Option<u32>
        ensures { result ≡ item_keyed self.now.conf host key.now }
    {
        match self.indexes.items.keys.get(host as usize) {
            None => None,
            Some(ids) => ids.get(key.as_str()).copied(),
        }
    }

    /// The ids of the triggers over an item or over one that depends on it, in the order of evaluation.
    pub fn over(&self, item: u32) -> &[u32]
        ensures { result.now ≡ triggers_under self.now.conf item }
    {
        row(&self.indexes.triggers.turns.over, item)
    }

    /// Finds what a value of an item is to leave in the cells, and takes all memory for it. They keep what they do. What is
    /// to be stored goes into the cache.
    pub fn prepare(
        &self,
        alloc: Global,
        cache: &Cache,
        cells: &mut preprocess::Cells,
        item: u32,
        value: &Text,
        time: Moment,
        number: u64,
    ) -> Result<Prepared, OutOfMemory>
        ensures prepared { IfOk result (IsPrepared self.now.conf cells.old
            (record { item = item; time = time; number = number; value = value.now })) }
        ensures tokens { IfOk result (λ prepared. AreOf cache.now prepared.draft.tokens) }
        ensures apart { IfOk result (λ prepared. AreApart prepared.draft.visits) }
        ensures room { IfOk result (λ prepared. HaveRoom cells.new.cells.items prepared.draft.visits) }
        ensures same { AreSame cells.new cells.old }
        ensures of { (other : CacheId) → AreIn other cells.old.cells.items → AreIn other cells.new.cells.items }
    {
        prepare(
            alloc,
            self.stage.conf(),
            &self.patterns,
            &self.indexes.items.chains,
            cache,
            cells,
            item,
            value,
            time,
            number,
        )
    }

    /// The nodes of the expression of the trigger with an id.
    pub fn plan(&self, id: u32) -> &[Node]
        ensures { (trigger : Trigger) → at_id self.now.conf.triggers id ≡ Some trigger → result.now ≡ plan_of trigger }
    {
        row(
            &self.indexes.triggers.expressions.plans,
            id.saturating_sub(1),
        )
    }

    /// The nodes of the recovery expression of the trigger with an id, none where it has none.
    pub fn recovery_plan(&self, id: u32) -> &[Node]
        ensures { (trigger : Trigger) → at_id self.now.conf.triggers id ≡ Some trigger
            → result.now ≡ recovery_plan_of trigger }
    {
        row(
            &self.indexes.triggers.expressions.recoveries,
            id.saturating_sub(1),
        )
    }

    /// The ids of the triggers that a Tick evaluates, in the order of evaluation.
    pub fn timed(&self) -> &[u32]
        ensures { result.now ≡ timed_triggers self.now.conf }
    {
        self.indexes.triggers.turns.timed.as_slice()
    }

    /// The ids of all triggers, in the order of evaluation.
    pub fn order(&self) -> &[u32]
        ensures { result.now ≡ order self.now.conf }
    {
        self.indexes.triggers.turns.all.as_slice()
    }

    /// Whether the reach of some rule of global correlation holds the trigger with an id.
    pub fn is_reached(&self, id: u32) -> bool
        ensures { (trigger : Trigger) → at_id self.now.conf.triggers id ≡ Some trigger
            → result ≡ some_reaches self.now.conf.correlations trigger }
    {
        match by_id(self.indexes.triggers.rules.reached.as_slice(), id) {
            None => false,
            Some(reached) => *reached,
        }
    }

    /// Local time less UTC, in seconds.
    pub fn offset(&self) -> i32
        ensures value { result ≡ self.now.conf.utc_offset }
        ensures within { IsWithin 50400 result }
    {
        self.stage.conf().utc_offset
    }

    /// The place of the pattern of a call of the trigger with an id, 0 where it has none. Calls go by places from 0 on.
    pub fn place_of(&self, id: u32, place: usize) -> u32
        ensures { (trigger : Trigger) (call : Call) → at_id self.now.conf.triggers id ≡ Some trigger
            → slice_get trigger.calls place ≡ Some call → (at_id self.now.conf.patterns result ≡ call_pattern call)
            × (call.shift + seconds_in call.range ≤ most_seconds) }
    {
        place_in(
            row(
                &self.indexes.triggers.expressions.places,
                id.saturating_sub(1),
            ),
            place,
        )
    }

    /// The patterns of the configuration.
    pub fn patterns(&self) -> &Patterns
        ensures { result.now ≡ self.now.conf.patterns }
    {
        &self.patterns
    }

    /// The name of the events of the trigger with an id, where its items have these values.
    #[tactic(auto, using(crate::proofs::Sight::title_patterns))]
    pub fn name_of(
        &self,
        alloc: Global,
        id: u32,
        values: &[Option<Held>],
    ) -> Result<Text, OutOfMemory>
        ensures { IfOk result (λ made. made ≡ name_of self.now.conf id values.now) }
    {
        name(alloc, self.stage.conf(), id, values, &self.patterns)
    }

    /// The tags of the problems of the trigger with an id, where its items have these values.
    #[tactic(auto, using(crate::proofs::Sight::tag_patterns))]
    pub fn tags_of(
        &self,
        alloc: Global,
        id: u32,
        values: &[Option<Held>],
    ) -> Result<Many<Tag>, OutOfMemory>
        ensures { IfOk result (λ made. made ≡ event_tags self.now.conf id values.now) }
    {
        tags(alloc, self.stage.conf(), id, values, &self.patterns)
    }

    /// The masters of the trigger with an id, in the order of ids.
    pub fn masters(&self, id: u32) -> &[u32]
        ensures { result.now ≡ masters_of self.now.conf id }
    {
        row(&self.indexes.triggers.turns.masters, id)
    }

    /// The feet of the items: what the work on one of their values may read or change.
    pub fn feet(&self) -> &Feet
        ensures { told_by result.now ≡ feet_of self.now.conf }
    {
        &self.indexes.items.feet
    }

    /// The ids of the triggers that the reach of the rule with an id holds.
    pub fn reach(&self, rule: u32) -> &[u32]
        ensures { (id : ℕ) → has_id result.now id ≡ is_reached self.now.conf rule id }
    {
        row(&self.indexes.triggers.rules.reaches, rule)
    }
}
