//! The items of the flat configuration.

ghost use Rattle.std.specs.Prelude.{◌≡◌, ◌+◌, ◌++◌, ◌∷◌, [], ◌<◌, List, length, codes, Some, slice_get, IfOk, IfErr, OnOk};
ghost use Rattle.host_layout.specs.Answers.{Fails, Gives, GivesAs};
ghost use Rattle.host_layout.specs.Elements.{element_path, placed_item, placed_host, own_items, IsRefusal};
ghost use Rattle.host_layout.specs.Items.{key_length, item_made, item_keyed_of, item_of, placed_items, items_from, items_of};
ghost use Rattle.host_layout.specs.Inherited.{Inherits};
ghost use Rattle.host_layout.specs.Links.{placed_hosts, sources_of};
ghost use Rattle.host_layout.specs.Names.{named_item, named_items};
ghost use Rattle.host_layout.specs.Owners.{sources_now};
ghost use Rattle.host_layout.specs.Places.{each};
ghost use Rattle.macro_text.specs.Expanded.{expanded};
ghost use Rattle.zbx_types.specs.declared.causes.Cause.TheVariants.{BadKey};
ghost use Rattle.zbx_types.specs.declared.items.Item.{Item};

use crate::fault::FlatError;
use crate::inheritance::Inheritance;
use crate::keys::{is_key, key_length};
use crate::owned_names::OwnedNames;
use crate::owners::{Owner, owner_at};
use crate::refusals::{refused_element, refused_member};
use crate::templates::sources::Source;
use config_read::{RawConf, RawHost, RawItem};
use macro_text::{Expansion, expand_within};
use std::alloc::Global;
use std::convert::AsStr;
use zbx_types::{Cause, Item, LONGEST_KEY, Many, Text};

/// The most items of all hosts (this project's own).
const MOST_ITEMS: usize = 100_000;

/// Items, and their names.
#[derive(Drop)]
pub struct ItemList {
    pub items: Many<Item>,
    pub names: OwnedNames,
}

/// An item, without its master and its steps. Takes no memory.
fn make(alloc: Global, host: u32, key: Text, raw: &RawItem) -> Item
    ensures { result ≡ item_made host key raw.now }
{
    Item {
        host,
        key,
        kind: raw.kind,
        master: 0,
        value_type: raw.value_type,
        enabled: raw.enabled,
        steps: Many::new(alloc),
        delay: raw.delay,
    }
}

/// The refusal of a key.
fn bad_key(alloc: Global, source: &Source<'_>, index: usize, key: &[u8]) -> FlatError
    ensures { IsRefusal (element_path source.now (codes "/items") index ++ codes "/key") (BadKey (key_length key.now)) result }
{
    let cause = Cause::BadKey {
        at: key_length(key),
    };
    refused_member(alloc, source, "/items", index, "/key", cause)
}

/// The item of a host with this key, behind those before it.
#[tactic(auto, using(crate::proofs::Failing::refusal, crate::proofs::Taken::has_item_named), unfolding(crate::specs::Items::item_keyed_of))]
fn keyed_item(
    alloc: Global,
    host: u32,
    key: Text,
    list: &mut ItemList,
    source: &Source<'_>,
    index: usize,
    raw: &RawItem,
) -> Result<Item, FlatError>
    requires { list.old.names ≡ named_items list.old.items }
    ensures gives { Gives result (item_keyed_of host key list.old.items (placed_item source.now index raw.now)) }
    ensures items { IfOk result (λ item. list.new.items ≡ list.old.items) }
    ensures names { IfOk result (λ item. list.new.names ≡ list.old.names ++ named_item item ∷ []) }
{
    if !is_key(key.as_bytes()) {
        return Err(bad_key(alloc, source, index, key.as_bytes()));
    }
    if !list.names.take(alloc, host, key.as_str())? {
        let cause = Cause::Duplicate;
        return Err(refused_member(alloc, source, "/items", index, "/key", cause));
    }
    if MOST_ITEMS <= list.items.len() {
        return Err(refused_element(alloc, source, "/items", index, Cause::TooMany));
    }
    Ok(make(alloc, host, key, raw))
}

/// The key of an item of a host, its macros having their values. Refused where it is longer than a key.
fn expanded_key(
    alloc: Global,
    owner: &Owner<'_, '_>,
    source: &Source<'_>,
    index: usize,
    raw: &RawItem,
) -> Result<Text, FlatError>
    ensures key { IfOk result (λ key. key ≡ expanded owner.now.macros raw.now.key) }
    ensures refused { IfErr result (λ e. (before : List Item) → Fails e (item_of owner.now.id owner.now.macros before (placed_item source.now index raw.now))) }
{
    match expand_within(alloc, &raw.key, &owner.macros, LONGEST_KEY)? {
        Expansion::Whole(key) => Ok(key),
        Expansion::Longer(front) => Err(bad_key(alloc, source, index, front.as_slice())),
    }
}

/// Adds an item of a host.
#[tactic(auto, unfolding(crate::specs::Items::item_of))]
fn add_item(
    alloc: Global,
    owner: &Owner<'_, '_>,
    list: &mut ItemList,
    source: &Source<'_>,
    index: usize,
    raw: &RawItem,
) -> Result<(), FlatError>
    requires { list.old.names ≡ named_items list.old.items }
    ensures gives { GivesAs (λ _. list.new.items) result (each (item_of owner.now.id owner.now.macros) list.old.items (placed_item source.now index raw.now ∷ [])) }
    ensures names { OnOk result (list.new.names ≡ named_items list.new.items) }
{
    let key = expanded_key(alloc, owner, source, index, raw)?;
    let item = keyed_item(alloc, owner.id, key, list, source, index, raw)?;
    list.items.push(item)?;
    Ok(())
}

/// Adds the items of a source.
fn add_items(
    alloc: Global,
    owner: &Owner<'_, '_>,
    list: &mut ItemList,
    source: &Source<'_>,
) -> Result<(), FlatError>
    requires { list.old.names ≡ named_items list.old.items }
    ensures gives { GivesAs (λ _. list.new.items) result (each (item_of owner.now.id owner.now.macros) list.old.items (own_items source.now)) }
    ensures names { OnOk result (list.new.names ≡ named_items list.new.items) }
{
    for (index, raw) in source.body.items.as_slice().iter().enumerate() {
        add_item(alloc, owner, list, source, index, raw)?;
    }
    Ok(())
}

/// Adds the items of all sources of a host.
#[tactic(auto, using(crate::proofs::Steps::source_then, crate::proofs::Steps::source_fails))]
fn add_owned(alloc: Global, owner: &Owner<'_, '_>, list: &mut ItemList) -> Result<(), FlatError>
    requires { list.old.names ≡ named_items list.old.items }
    ensures gives { GivesAs (λ _. list.new.items) result (each (item_of owner.now.id owner.now.macros) list.old.items (placed_items (sources_now owner.now))) }
    ensures names { OnOk result (list.new.names ≡ named_items list.new.items) }
{
    for source in owner.sources.as_slice() {
        add_items(alloc, owner, list, source)?;
    }
    Ok(())
}

/// Adds the items of the host that stands at this place.
#[tactic(auto, unfolding(crate::specs::Items::items_from))]
fn add_host<'r>(
    alloc: Global,
    raw: &'r RawConf,
    inheritance: &Inheritance<'r>,
    place: usize,
    host: &'r RawHost,
    list: &mut ItemList,
) -> Result<(), FlatError>
    requires place { place < length raw.now.hosts }
    requires there { slice_get (placed_hosts raw.now) place ≡ Some (placed_host place host.now) }
    requires inheritance { Inherits raw.now inheritance.now }
    requires names { list.old.names ≡ named_items list.old.items }
    ensures gives { GivesAs (λ _. list.new.items) result (items_from raw.now (place + 1) (sources_of raw.now (placed_host place host.now)) list.old.items) }
    ensures names { OnOk result (list.new.names ≡ named_items list.new.items) }
{
    let owner = owner_at(alloc, raw, inheritance, place, host)?;
    add_owned(alloc, &owner, list)
}

/// The items of all hosts, in the order of the hosts, without their masters and their steps.
///
/// # Errors
///
/// At the first item with which something is wrong: `BadKey` where its key, user macros having their values, is none or has
/// more than 2,048 bytes, `Duplicate` where its host has the key already, `TooMany` where it is the 100,001st.
#[tactic(auto, unfolding(crate::specs::Items::items_of))]
pub fn items<'r>(
    alloc: Global,
    raw: &'r RawConf,
    inheritance: &Inheritance<'r>,
) -> Result<ItemList, FlatError>
    requires { Inherits raw.now inheritance.now }
    ensures gives { GivesAs (λ l. l.items) result (items_of raw.now) }
    ensures names { IfOk result (λ l. l.names ≡ named_items l.items) }
{
    let mut list = ItemList {
        items: Many::new(alloc),
        names: OwnedNames::new(alloc),
    };
    for (place, host) in raw.hosts.as_slice().iter().enumerate() {
        add_host(alloc, raw, inheritance, place, host, &mut list)?;
    }
    Ok(list)
}
