//! What the expressions of triggers name.

ghost use Rattle.std.specs.Prelude.{◌≡◌, position, option_map, IfOk};
ghost use Rattle.config_templates.specs.Meanings.{host_now, item_now, looked_maybe};
ghost use Rattle.host_layout.specs.Names.{named_items, is_keyed};
ghost use Rattle.host_layout.specs.Owners.{owner_now, sources_now, KnowsHosts, KnowsSources};
ghost use Rattle.config_templates.specs.Scopes.{IsScope};
ghost use Rattle.config_templates.specs.Referenced.{host_named, referenced, item_named, looked_at};

use config_read::RawConf;
use host_layout::{FirstPlaces, ItemList, Owner};
use std::alloc::Global;
use std::convert::AsStr;
use zbx_types::{Call, OutOfMemory, Text, ValueType, id_of};

/// What expressions are read against.
#[derive(Clone, Copy)]
pub(crate) struct Scope<'s> {
    /// The document.
    pub raw: &'s RawConf,
    /// Where the names of its hosts stand.
    pub hosts: &'s FirstPlaces,
    /// The items of all hosts.
    pub items: &'s ItemList,
}

/// A host that an expression names.
#[derive(Drop)]
pub(crate) struct HostReferenced {
    pub id: u32,
    pub name: Text,
}

/// An item that an expression names.
#[derive(Drop)]
pub(crate) struct ItemFound {
    pub id: u32,
    pub value_type: ValueType,
}

/// The item that a call looks at, with its host's name.
#[derive(Drop)]
pub(crate) struct LookedAt {
    pub host: Text,
    pub id: u32,
    pub value_type: ValueType,
}

/// The host with a name.
fn host_named(
    alloc: Global,
    raw: &RawConf,
    hosts: &FirstPlaces,
    name: &[u8],
) -> Result<Option<HostReferenced>, OutOfMemory>
    requires { KnowsHosts hosts.now raw.now.hosts }
    ensures { IfOk result (λ found. option_map host_now found ≡ host_named raw.now.hosts name.now) }
{
    let Some(place) = hosts.place(name) else {
        return Ok(None);
    };
    let Some(host) = raw.hosts.as_slice().get(place) else {
        return Ok(None);
    };
    let id = id_of(place)?;
    let name = host.name.copy(alloc)?;
    Ok(Some(HostReferenced { id, name }))
}

/// The host that a name in an expression means.
#[tactic(auto, using(crate::proofs::Meant::own_name), unfolding(crate::specs::Referenced::referenced))]
fn referenced(
    alloc: Global,
    scope: &Scope<'_>,
    owner: &Owner<'_, '_>,
    name: &[u8],
) -> Result<Option<HostReferenced>, OutOfMemory>
    requires scope { IsScope scope.now }
    requires sources { KnowsSources owner.now.names (sources_now owner.now) }
    ensures { IfOk result (λ found. option_map host_now found ≡ referenced scope.now.raw.now (owner_now owner.now) name.now) }
{
    if owner.names.place(name).is_none() {
        return host_named(alloc, scope.raw, scope.hosts, name);
    }
    let name = owner.name.copy(alloc)?;
    Ok(Some(HostReferenced { id: owner.id, name }))
}

/// The place of the item of a host with a key, counted from 0.
#[tactic(auto, using(crate::proofs::Meant::stands_at))]
fn item_place(
    alloc: Global,
    items: &ItemList,
    host: u32,
    key: &str,
) -> Result<Option<usize>, OutOfMemory>
    requires { items.now.names ≡ named_items items.now.items }
    ensures { IfOk result (λ place. place ≡ position (is_keyed host key.now) items.now.items) }
{
    items.names.place(alloc, host, key)
}

/// The item of a host with a key.
#[tactic(auto, unfolding(crate::specs::Referenced::item_named))]
fn item_named(
    alloc: Global,
    items: &ItemList,
    host: u32,
    key: &str,
) -> Result<Option<ItemFound>, OutOfMemory>
    requires { items.now.names ≡ named_items items.now.items }
    ensures { IfOk result (λ found. option_map item_now found ≡ item_named items.now.items host key.now) }
{
    let Some(place) = item_place(alloc, items, host, key)? else {
        return Ok(None);
    };
    let Some(item) = items.items.as_slice().get(place) else {
        return Ok(None);
    };
    let id = id_of(place)?;
    Ok(Some(ItemFound {
        id,
        value_type: item.value_type,
    }))
}

/// The item that a call looks at, where there is one. A function of date or time looks at none.
#[tactic(auto, unfolding(crate::specs::Referenced::looked_at))]
pub(crate) fn looked_at(
    alloc: Global,
    scope: &Scope<'_>,
    owner: &Owner<'_, '_>,
    call: &Call,
) -> Result<Option<LookedAt>, OutOfMemory>
    requires scope { IsScope scope.now }
    requires sources { KnowsSources owner.now.names (sources_now owner.now) }
    ensures { IfOk result (λ l. looked_maybe l ≡ looked_at scope.now.raw.now scope.now.items.now.items (owner_now owner.now) call.now) }
{
    if call.fun.is_dated() {
        return Ok(None);
    }
    let Some(host) = referenced(alloc, scope, owner, call.host.as_bytes())? else {
        return Ok(None);
    };
    let Some(item) = item_named(alloc, scope.items, host.id, call.key.as_str())? else {
        return Ok(None);
    };
    Ok(Some(LookedAt {
        host: host.name,
        id: item.id,
        value_type: item.value_type,
    }))
}
