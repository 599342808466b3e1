//! From a text to the flat configuration.

ghost use Rattle.std.specs.Prelude.{◌≡◌, ℕ, List, Ok, map, IfOk, IsErrOf, IsUtf8};
ghost use Rattle.config_read.specs.Document.{conf_of};
ghost use Rattle.host_layout.specs.Answers.{Gives, GivesAs};
ghost use Rattle.config_templates.specs.Flat.{host_made, conf_made, read_of, laid_out, flat_of};
ghost use Rattle.config_templates.specs.Laid.{copies_of, conf_with, behind_items, behind_links};
ghost use Rattle.host_layout.specs.Inherited.{Inherits};
ghost use Rattle.host_layout.specs.Owners.{KnowsHosts};
ghost use Rattle.config_templates.specs.Scopes.{IsScope};
ghost use Rattle.host_layout.specs.Places.{refuse};
ghost use Rattle.zbx_types.specs.declared.causes.Cause.{Cause};

use crate::depends::{NamedTriggers, depending};
use crate::hosts::known_hosts;
use crate::meanings::Scope;
use crate::triggers::{Found, TriggerList, triggers};
use config_read::{RawConf, RawHost, ReadError, read};
use host_layout::{
    FirstPlaces, FlatError, Inheritance, ItemList, PatternList, beside, host_names, items,
    mastered, prepared, step_patterns,
};
use std::alloc::Global;
use zbx_types::{Conf, Host, Item, Many, OutOfMemory, Text, Trigger, copy_texts};

/// The document of a text.
fn document(alloc: Global, text: &[u8]) -> Result<RawConf, FlatError>
    ensures { Gives result (read_of (conf_of text.now)) }
{
    match read(alloc, text) {
        Ok(raw) => Ok(raw),
        Err(ReadError::Refused { path, cause }) => Err(FlatError::Refused { path, cause }),
        Err(ReadError::OutOfMemory) => Err(FlatError::OutOfMemory),
    }
}

/// A copy of the text of a document.
fn text_of(alloc: Global, text: &[u8]) -> Result<Text, OutOfMemory>
    requires { IsUtf8 text.now }
    ensures { IfOk result (λ made. made ≡ text.now) }
{
    match Text::from_utf8(alloc, text)? {
        Some(text) => Ok(text),
        None => unreachable!(),
    }
}

fn host(alloc: Global, raw: &RawHost) -> Result<Host, OutOfMemory>
    ensures { IfOk result (λ made. made ≡ host_made raw.now) }
{
    let name = raw.name.copy(alloc)?;
    let groups = copy_texts(alloc, &raw.groups)?;
    Ok(Host {
        name,
        groups,
        enabled: raw.enabled,
    })
}

fn hosts(alloc: Global, raws: &Many<RawHost>) -> Result<Many<Host>, OutOfMemory>
    ensures { IfOk result (λ made. made ≡ map host_made raws.now) }
{
    let mut made = Many::new(alloc);
    for raw in raws.as_slice() {
        made.push(host(alloc, raw)?)?;
    }
    Ok(made)
}

/// What a document is laid out to.
#[derive(Drop)]
struct Layout {
    pub items: Many<Item>,
    pub triggers: Many<Trigger>,
    pub patterns: PatternList,
}

/// What a configuration has copies of.
#[derive(Drop)]
struct Copies {
    pub text: Text,
    pub hosts: Many<Host>,
    pub patterns: Many<Text>,
    pub pattern_paths: Many<Text>,
}

/// The copies of the configuration of a document with these patterns.
fn copied(
    alloc: Global,
    text: &[u8],
    raw: &RawConf,
    patterns: &PatternList,
) -> Result<Copies, OutOfMemory>
    requires { IsUtf8 text.now }
    ensures { IfOk result (λ made. made ≡ copies_of text.now raw.now patterns.now) }
{
    let text = text_of(alloc, text)?;
    let hosts = hosts(alloc, &raw.hosts)?;
    let pattern_paths = patterns.paths(alloc)?;
    let patterns = patterns.texts(alloc)?;
    Ok(Copies {
        text,
        hosts,
        patterns,
        pattern_paths,
    })
}

/// The configuration of a document that is laid out to these lists. Takes no memory.
fn conf(raw: RawConf, lists: Layout, copies: Copies) -> Conf
    ensures { result ≡ conf_with raw lists.items lists.triggers copies }
{
    Conf {
        text: copies.text,
        utc_offset: raw.utc_offset,
        hosts: copies.hosts,
        items: lists.items,
        triggers: lists.triggers,
        correlations: raw.correlations,
        maintenances: raw.maintenances,
        actions: raw.actions,
        patterns: copies.patterns,
        pattern_paths: copies.pattern_paths,
    }
}

/// The triggers of a document over these items, with what they depend on, and all patterns, the items' patterns being these.
/// Refuses a host that a maintenance or an action names and that isn't there.
#[tactic(auto, using(crate::proofs::LaidOut::dependings_fail, crate::proofs::LaidOut::hosts_fail))]
fn found_behind<'r>(
    alloc: Global,
    scope: &Scope<'r>,
    inheritance: &Inheritance<'r>,
    patterns: PatternList,
) -> Result<Found, FlatError>
    requires scope { IsScope scope.now }
    requires inheritance { Inherits scope.now.raw.now inheritance.now }
    ensures { (text : List ℕ) → GivesAs (λ f. conf_made text scope.now.raw.now scope.now.items.now.items f.triggers f.patterns) result (behind_items text scope.now.raw.now scope.now.items.now.items patterns) }
{
    let TriggerList { found, names } = triggers(alloc, scope, inheritance, patterns)?;
    let Found { triggers, patterns } = found;
    let list = NamedTriggers { triggers, names };
    let made = depending(alloc, scope.raw, scope.hosts, inheritance, list);
    let (triggers, patterns) = beside(made, patterns)?;
    let known = known_hosts(alloc, scope.raw, scope.hosts);
    let (_known, found) = beside(known, Found { triggers, patterns })?;
    Ok(found)
}

/// What a document whose links are right is laid out to.
fn lists<'r>(
    alloc: Global,
    raw: &'r RawConf,
    hosts: &FirstPlaces,
    inheritance: &Inheritance<'r>,
) -> Result<Layout, FlatError>
    requires hosts { KnowsHosts hosts.now raw.now.hosts }
    requires inheritance { Inherits raw.now inheritance.now }
    ensures { (text : List ℕ) → GivesAs (λ l. conf_made text raw.now l.items l.triggers l.patterns) result (behind_links text raw.now) }
{
    let keyed = items(alloc, raw, inheritance)?;
    let ItemList { items, names } = mastered(alloc, raw, inheritance, keyed)?;
    let (items, names) = beside(prepared(alloc, raw, inheritance, items), names)?;
    let list = ItemList { items, names };
    let (patterns, list) = beside(step_patterns(alloc, raw, inheritance), list)?;
    let scope = Scope {
        raw,
        hosts,
        items: &list,
    };
    let found = found_behind(alloc, &scope, inheritance, patterns);
    let (found, list) = beside(found, list)?;
    Ok(Layout {
        items: list.items,
        triggers: found.triggers,
        patterns: found.patterns,
    })
}

/// What a document is laid out to.
#[tactic(auto, using(crate::proofs::LaidOut::links_fail))]
fn laid_lists(alloc: Global, raw: &RawConf) -> Result<Layout, FlatError>
    ensures { (text : List ℕ) → GivesAs (λ l. conf_made text raw.now l.items l.triggers l.patterns) result (laid_out text raw.now) }
{
    let inheritance = Inheritance::of(alloc, raw)?;
    let (hosts, inheritance) = beside(host_names(alloc, &raw.hosts), inheritance)?;
    lists(alloc, raw, &hosts, &inheritance)
}

/// The flat configuration of a document.
fn flattened(alloc: Global, text: &[u8], raw: RawConf) -> Result<Conf, FlatError>
    requires { IsUtf8 text.now }
    ensures { Gives result (laid_out text.now raw) }
{
    let lists = laid_lists(alloc, &raw);
    let (lists, raw) = beside(lists, raw)?;
    let copies = copied(alloc, text, &raw, &lists.patterns);
    let (copies, (raw, lists)) = beside(copies, (raw, lists))?;
    Ok(conf(raw, lists, copies))
}

/// The flat configuration of a configuration document, a JSON text of at most 16,777,216 bytes.
///
/// `Refused` comes with the document's first fault and its path: what the reading of the document refuses, then links, the
/// keys of the items of the hosts in their order, their masters, the parameters and texts of their steps and the patterns
/// of these, the triggers of the hosts in their order, what triggers depend on, and the hosts that maintenances and actions
/// name. `OutOfMemory` may come on any text, and says nothing of it.
///
/// The form of the document is this project's own. How hosts inherit is from the Zabbix 6.0 manual, "Linking/unlinking",
/// and "User macros".
#[tactic(auto, using(crate::proofs::TextsRead::is_text), unfolding(crate::specs::Flat::flat_of))]
pub fn flat(alloc: Global, text: &[u8]) -> Result<Conf, FlatError>
    ensures gives { Gives result (flat_of text.now) }
    ensures ok { IfOk result (λ conf. flat_of text.now ≡ Ok conf) }
    ensures refused { (path : List ℕ) (cause : Cause) → IsErrOf result (FlatError.Refused path cause) → flat_of text.now ≡ refuse path cause }
{
    let raw = document(alloc, text)?;
    flattened(alloc, text, raw)
}
