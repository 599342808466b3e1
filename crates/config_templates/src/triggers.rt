//! The triggers of the flat configuration.

ghost use Rattle.std.specs.Prelude.{◌≡◌, ◌++◌, ◌∷◌, [], ◌<◌, List, length, Some, slice_get, IfOk, OnOk};
ghost use Rattle.host_layout.specs.Answers.{GivesAs};
ghost use Rattle.host_layout.specs.Elements.{placed_trigger, placed_host, own_triggers};
ghost use Rattle.host_layout.specs.Inherited.{Inherits};
ghost use Rattle.host_layout.specs.Links.{placed_hosts};
ghost use Rattle.config_templates.specs.Meanings.{meant_now};
ghost use Rattle.host_layout.specs.Names.{named, named_trigger, named_triggers};
ghost use Rattle.host_layout.specs.Hosts.{owner_of};
ghost use Rattle.host_layout.specs.Owners.{owner_now, sources_now, KnowsSources};
ghost use Rattle.config_templates.specs.Scopes.{IsScope};
ghost use Rattle.config_templates.specs.Depends.{written_triggers};
ghost use Rattle.host_layout.specs.Places.{each_list};
ghost use Rattle.config_templates.specs.Triggers.{users_of, trigger_of, placed_triggers, triggers_from, triggers_of};
ghost use Rattle.config_templates.specs.Members.{users_now};
ghost use Rattle.config_templates.specs.Written.{written, texts_of, trigger_with, free_trigger, more_found};
ghost use Rattle.zbx_types.specs.declared.triggers.Trigger.{Trigger};

use crate::meanings::Scope;
use crate::resolving::{Meaning, meaning_of};
use crate::titles::{tags, title};
use crate::uses::{Users, join_trigger};
use config_read::{RawHost, RawTrigger};
use host_layout::{
    FlatError, Inheritance, OwnedNames, Owner, PatternList, Source, beside, owner_at,
    refused_element, refused_member,
};
use macro_text::Macros;
use std::alloc::Global;
use std::convert::AsStr;
use zbx_types::{Call, Cause, Many, OutOfMemory, Tag, Text, Trigger};

/// The most triggers of all hosts (this project's own).
const MOST_TRIGGERS: usize = 50_000;

/// Triggers, and the patterns that the items and they use.
#[derive(Drop)]
pub(crate) struct Found {
    pub triggers: Many<Trigger>,
    pub patterns: PatternList,
}

/// Triggers with the patterns, and their names.
#[derive(Drop)]
pub(crate) struct TriggerList {
    pub found: Found,
    pub names: OwnedNames,
}

/// What a trigger takes over as it is written.
#[derive(Drop)]
struct Written {
    pub name: Text,
    pub close_tag: Text,
}

/// The texts of a trigger.
#[derive(Drop)]
struct Texts {
    pub written: Written,
    pub title: Text,
    pub tags: Many<Tag>,
}

fn write(alloc: Global, raw: &RawTrigger) -> Result<Written, OutOfMemory>
    ensures { IfOk result (λ made. made ≡ written raw.now) }
{
    let name = raw.name.copy(alloc)?;
    let close_tag = raw.close_tag.copy(alloc)?;
    Ok(Written { name, close_tag })
}

/// The texts of a trigger of a host with these macros.
fn texts_of(alloc: Global, raw: &RawTrigger, macros: &Macros<'_, '_>) -> Result<Texts, OutOfMemory>
    ensures { IfOk result (λ made. made ≡ texts_of macros.now raw.now) }
{
    let title = title(alloc, raw, macros)?;
    let (tags, title) = beside(tags(alloc, raw, macros), title)?;
    let (written, (title, tags)) = beside(write(alloc, raw), (title, tags))?;
    Ok(Texts {
        written,
        title,
        tags,
    })
}

/// The calls of an expression, and behind them those of a recovery expression.
fn all_calls(calls: Many<Call>, recovery_calls: Many<Call>) -> Result<Many<Call>, OutOfMemory>
    ensures { IfOk result (λ all. all ≡ calls ++ recovery_calls) }
{
    let mut all = calls;
    all.append(recovery_calls)?;
    Ok(all)
}

fn make(
    alloc: Global,
    host: u32,
    texts: Texts,
    raw: &RawTrigger,
    meaning: Meaning,
) -> Result<Trigger, OutOfMemory>
    ensures { IfOk result (λ made. made ≡ trigger_with host texts raw.now (meant_now meaning)) }
{
    let Meaning {
        expr,
        recovery_expr,
        calls,
        recovery_calls,
        call_items,
    } = meaning;
    let held = (texts, expr, recovery_expr, call_items);
    let (calls, held) = beside(all_calls(calls, recovery_calls), held)?;
    let (texts, expr, recovery_expr, call_items) = held;
    let Texts {
        written,
        title,
        tags,
    } = texts;
    let Written { name, close_tag } = written;
    Ok(Trigger {
        host,
        name,
        title,
        expr,
        recovery: raw.recovery,
        recovery_expr,
        calls,
        call_items,
        multiple: raw.multiple,
        close_tag,
        severity: raw.severity,
        tags,
        depends: Many::new(alloc),
        enabled: raw.enabled,
        depth: 0,
    })
}

/// What a trigger with these texts uses patterns in.
fn users_of<'t>(texts: &'t Texts, meaning: &'t Meaning) -> Users<'t>
    ensures { users_now result ≡ users_of texts.now.title texts.now.tags (meant_now meaning.now) }
{
    Users {
        title: &texts.title,
        calls: meaning.calls.as_slice(),
        recovery_calls: meaning.recovery_calls.as_slice(),
        tags: &texts.tags,
    }
}

/// The trigger of a host, its name and the number of triggers before it being right. Joins its patterns.
fn free_trigger(
    alloc: Global,
    scope: &Scope<'_>,
    owner: &Owner<'_, '_>,
    patterns: &mut PatternList,
    source: &Source<'_>,
    index: usize,
    raw: &RawTrigger,
) -> Result<Trigger, FlatError>
    requires scope { IsScope scope.now }
    requires sources { KnowsSources owner.now.names (sources_now owner.now) }
    ensures gives { (before : List Trigger) → GivesAs (more_found before patterns.new) result (free_trigger scope.now.raw.now scope.now.items.now.items (owner_now owner.now) owner.now.macros (record { triggers = before; patterns = patterns.old }) (placed_trigger source.now index raw.now)) }
    ensures named { IfOk result (λ t. named_trigger t ≡ named owner.now.id raw.now.name) }
{
    let meaning = meaning_of(alloc, scope, owner, source, index, raw)?;
    let (texts, meaning) = beside(texts_of(alloc, raw, &owner.macros), meaning)?;
    let users = users_of(&texts, &meaning);
    let joined = join_trigger(alloc, patterns, source, index, users);
    let (_joined, (texts, meaning)) = beside(joined, (texts, meaning))?;
    Ok(make(alloc, owner.id, texts, raw, meaning)?)
}

/// The trigger of a host, behind those before it. Joins its patterns.
#[tactic(auto, using(host_layout::proofs::Failing::refusal, crate::proofs::Free::has_trigger_named), unfolding(crate::specs::Triggers::trigger_of))]
fn trigger(
    alloc: Global,
    scope: &Scope<'_>,
    owner: &Owner<'_, '_>,
    list: &mut TriggerList,
    source: &Source<'_>,
    index: usize,
    raw: &RawTrigger,
) -> Result<Trigger, FlatError>
    requires scope { IsScope scope.now }
    requires sources { KnowsSources owner.now.names (sources_now owner.now) }
    requires names { list.old.names ≡ named_triggers list.old.found.triggers }
    ensures gives { GivesAs (more_found list.old.found.triggers list.new.found.patterns) result (trigger_of scope.now.raw.now scope.now.items.now.items (owner_now owner.now) owner.now.macros list.old.found (placed_trigger source.now index raw.now)) }
    ensures triggers { IfOk result (λ t. list.new.found.triggers ≡ list.old.found.triggers) }
    ensures names { IfOk result (λ t. list.new.names ≡ list.old.names ++ named_trigger t ∷ []) }
{
    if !list.names.take(alloc, owner.id, raw.name.as_str())? {
        let cause = Cause::Duplicate;
        return Err(refused_member(alloc, source, "/triggers", index, "/name", cause));
    }
    if MOST_TRIGGERS <= list.found.triggers.len() {
        return Err(refused_element(alloc, source, "/triggers", index, Cause::TooMany));
    }
    let patterns = &mut list.found.patterns;
    free_trigger(alloc, scope, owner, patterns, source, index, raw)
}

/// Adds a trigger of a host.
fn add_trigger(
    alloc: Global,
    scope: &Scope<'_>,
    owner: &Owner<'_, '_>,
    list: &mut TriggerList,
    source: &Source<'_>,
    index: usize,
    raw: &RawTrigger,
) -> Result<(), FlatError>
    requires scope { IsScope scope.now }
    requires sources { KnowsSources owner.now.names (sources_now owner.now) }
    requires names { list.old.names ≡ named_triggers list.old.found.triggers }
    ensures gives { GivesAs (λ _. list.new.found) result (each_list (trigger_of scope.now.raw.now scope.now.items.now.items (owner_now owner.now) owner.now.macros) list.old.found (placed_trigger source.now index raw.now ∷ [])) }
    ensures names { OnOk result (list.new.names ≡ named_triggers list.new.found.triggers) }
{
    let trigger = trigger(alloc, scope, owner, list, source, index, raw)?;
    list.found.triggers.push(trigger)?;
    Ok(())
}

/// Adds the triggers of a source.
fn add_triggers(
    alloc: Global,
    scope: &Scope<'_>,
    owner: &Owner<'_, '_>,
    list: &mut TriggerList,
    source: &Source<'_>,
) -> Result<(), FlatError>
    requires scope { IsScope scope.now }
    requires sources { KnowsSources owner.now.names (sources_now owner.now) }
    requires names { list.old.names ≡ named_triggers list.old.found.triggers }
    ensures gives { GivesAs (λ _. list.new.found) result (each_list (trigger_of scope.now.raw.now scope.now.items.now.items (owner_now owner.now) owner.now.macros) list.old.found (own_triggers source.now)) }
    ensures names { OnOk result (list.new.names ≡ named_triggers list.new.found.triggers) }
{
    for (index, raw) in source.body.triggers.as_slice().iter().enumerate() {
        add_trigger(alloc, scope, owner, list, source, index, raw)?;
    }
    Ok(())
}

/// Adds the triggers of all sources of a host.
#[tactic(auto, using(host_layout::proofs::PassLemmas::source_then, host_layout::proofs::PassLemmas::source_fails))]
fn add_owned(
    alloc: Global,
    scope: &Scope<'_>,
    owner: &Owner<'_, '_>,
    list: &mut TriggerList,
) -> Result<(), FlatError>
    requires scope { IsScope scope.now }
    requires sources { KnowsSources owner.now.names (sources_now owner.now) }
    requires names { list.old.names ≡ named_triggers list.old.found.triggers }
    ensures gives { GivesAs (λ _. list.new.found) result (each_list (trigger_of scope.now.raw.now scope.now.items.now.items (owner_now owner.now) owner.now.macros) list.old.found (placed_triggers (sources_now owner.now))) }
    ensures names { OnOk result (list.new.names ≡ named_triggers list.new.found.triggers) }
{
    for source in owner.sources.as_slice() {
        add_triggers(alloc, scope, owner, list, source)?;
    }
    Ok(())
}

/// Adds the triggers of the host that stands at this place.
#[tactic(auto, unfolding(crate::specs::Triggers::triggers_from))]
fn add_host<'r>(
    alloc: Global,
    scope: &Scope<'r>,
    inheritance: &Inheritance<'r>,
    place: usize,
    host: &'r RawHost,
    list: &mut TriggerList,
) -> Result<(), FlatError>
    requires scope { IsScope scope.now }
    requires place { place < length scope.now.raw.now.hosts }
    requires there { slice_get (placed_hosts scope.now.raw.now) place ≡ Some (placed_host place host.now) }
    requires inheritance { Inherits scope.now.raw.now inheritance.now }
    requires names { list.old.names ≡ named_triggers list.old.found.triggers }
    ensures gives { GivesAs (λ _. list.new.found) result (triggers_from scope.now.raw.now scope.now.items.now.items (owner_of scope.now.raw.now (placed_host place host.now)) list.old.found) }
    ensures names { OnOk result (list.new.names ≡ named_triggers list.new.found.triggers) }
{
    let owner = owner_at(alloc, scope.raw, inheritance, place, host)?;
    add_owned(alloc, scope, &owner, list)
}

/// The triggers of all hosts, in the order of the hosts, over the items of all hosts, and the patterns that they use behind
/// those of the items.
#[tactic(auto, unfolding(crate::specs::Triggers::triggers_of))]
pub(crate) fn triggers<'r>(
    alloc: Global,
    scope: &Scope<'r>,
    inheritance: &Inheritance<'r>,
    patterns: PatternList,
) -> Result<TriggerList, FlatError>
    requires scope { IsScope scope.now }
    requires inheritance { Inherits scope.now.raw.now inheritance.now }
    ensures gives { GivesAs (λ l. l.found) result (triggers_of scope.now.raw.now scope.now.items.now.items patterns) }
    ensures names { IfOk result (λ l. l.names ≡ named_triggers l.found.triggers) }
    ensures written { IfOk result (λ l. length l.found.triggers ≡ length (written_triggers scope.now.raw.now)) }
{
    let mut list = TriggerList {
        found: Found {
            triggers: Many::new(alloc),
            patterns,
        },
        names: OwnedNames::new(alloc),
    };
    for (place, host) in scope.raw.hosts.as_slice().iter().enumerate() {
        add_host(alloc, scope, inheritance, place, host, &mut list)?;
    }
    Ok(list)
}
