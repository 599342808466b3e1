//! What becomes of asked values.

ghost use Rattle.std.specs.Prelude.{◌≡◌, ◌&&◌, not, false, IfOk, option_and_then, option_copied};
ghost use Rattle.maintenance.specs.Force.{is_in_force};
ghost use Rattle.maintenance.specs.Suppression.{is_collected};
ghost use Rattle.conf_index.specs.Names.{host_named, item_keyed};
ghost use Rattle.zbx_types.specs.Items.{is_trapper_item};
ghost use Rattle.agent_json.specs.Checks.{is_active_kind};
ghost use Rattle.sender_json.specs.declared.asked.Asked.{Asked};
ghost use Rattle.intake_front.specs.Taking.{is_enabled_host, is_enabled_item, is_active_item, comes_from, not_from, is_unsupported, AllCollected, clocked, valued, keyed, taken_for, hosted, supported, taken_of, agent_taken_of};

use crate::origin::Origin;
use crate::refusal::ValueRefusal;
use agent_json::AgentAsked;
use conf_index::Ready;
use maintenance::{collects, in_force};
use sender_json::{Asked, Clock};
use zbx_types::{
    Conf, Entry, Host, Item, ItemKind, LONGEST_VALUE, Maintenance, Moment, OutOfMemory, Text,
    by_id, id_of,
};

pub(crate) fn asked_host(ready: &Ready, name: &Option<Text>) -> Option<u32>
    ensures { result ≡ option_and_then (host_named ready.now.conf) name.now }
{
    match name {
        Some(name) => ready.host_named(name),
        None => None,
    }
}

fn asked_item(ready: &Ready, host: u32, key: &Option<Text>) -> Option<u32>
    ensures { result ≡ option_and_then (item_keyed ready.now.conf host) key.now }
{
    match key {
        Some(key) => ready.item_keyed(host, key),
        None => None,
    }
}

pub(crate) fn is_enabled_host(host: Option<&Host>) -> bool
    ensures { result ≡ is_enabled_host (option_copied host.entry) }
{
    match host {
        Some(host) => host.enabled,
        None => false,
    }
}

fn is_enabled_item(item: Option<&Item>) -> bool
    ensures { result ≡ is_enabled_item (option_copied item.entry) }
{
    match item {
        Some(item) => item.enabled,
        None => false,
    }
}

/// Whether agents may bring values of a kind of item.
fn is_active_kind(kind: ItemKind) -> bool
    ensures { result ≡ is_active_kind kind }
{
    match kind {
        ItemKind::Active => true,
        ItemKind::Trapper | ItemKind::Dependent => false,
    }
}

fn is_trapper_item(item: Option<&Item>) -> bool
    ensures { result ≡ is_trapper_item (option_copied item.entry) }
{
    match item {
        Some(item) => item.kind.is_trapper(),
        None => false,
    }
}

fn is_active_item(item: Option<&Item>) -> bool
    ensures { result ≡ is_active_item (option_copied item.entry) }
{
    match item {
        Some(item) => is_active_kind(item.kind),
        None => false,
    }
}

/// Whether an item's values may come from there.
fn comes_from(origin: Origin, item: Option<&Item>) -> bool
    ensures { result ≡ comes_from origin (option_copied item.entry) }
{
    match origin {
        Origin::Sender => is_trapper_item(item),
        Origin::Agent { .. } => is_active_item(item),
    }
}

/// Why a value is refused whose item takes none from there.
fn not_from(origin: Origin) -> ValueRefusal
    ensures { result ≡ not_from origin }
{
    match origin {
        Origin::Sender => ValueRefusal::NotTrapper,
        Origin::Agent { .. } => ValueRefusal::NotActive,
    }
}

/// Whether an agent says that it doesn't support the item.
fn is_unsupported(origin: Origin) -> bool
    ensures { result ≡ is_unsupported origin }
{
    match origin {
        Origin::Sender => false,
        Origin::Agent { unsupported } => unsupported,
    }
}

/// Whether a maintenance, which has this id, is in force and keeps values out.
fn keeps_out(conf: &Conf, now: Moment, id: u32, maintenance: &Maintenance) -> bool
    ensures { result ≡ (not maintenance.now.collect && is_in_force conf.now id now) }
{
    !maintenance.collect && in_force(conf, id, now)
}

/// Whether some maintenance keeps values out at a moment. Where none does, no value need ask for its host.
pub(crate) fn some_keeps_out(conf: &Conf, now: Moment) -> Result<bool, OutOfMemory>
    ensures { IfOk result (λ some. some ≡ false → AllCollected conf.now now) }
{
    for (place, maintenance) in conf.maintenances.as_slice().iter().enumerate() {
        if keeps_out(conf, now, id_of(place)?, maintenance) {
            return Ok(true);
        }
    }
    Ok(false)
}

/// Whether a host's values are taken. The maintenances are asked only where some keeps values out.
fn is_collected(conf: &Conf, now: Moment, some_out: bool, host: u32) -> bool
    requires { some_out ≡ false → AllCollected conf.now now }
    ensures { result ≡ is_collected conf.now host now }
{
    !some_out || collects(conf, host, now)
}

#[tactic(auto, unfolding(crate::specs::Taking::clocked))]
fn clocked(now: Moment, item: u32, value: Text, clock: Clock) -> Result<Entry, ValueRefusal>
    ensures { result ≡ clocked now item value clock }
{
    match clock {
        Clock::Absent => Ok(Entry::Value {
            now,
            item,
            time: now,
            value,
        }),
        Clock::Bad => Err(ValueRefusal::BadClock),
        Clock::At(time) => Ok(Entry::Value {
            now,
            item,
            time: time.earlier(now),
            value,
        }),
    }
}

#[tactic(auto, unfolding(crate::specs::Taking::valued))]
fn valued(now: Moment, item: u32, clock: Clock, value: Option<Text>) -> Result<Entry, ValueRefusal>
    ensures { result ≡ valued now item clock value }
{
    match value {
        None => Err(ValueRefusal::BadValue),
        Some(value) => {
            if value.len() <= LONGEST_VALUE {
                clocked(now, item, value, clock)
            } else {
                Err(ValueRefusal::BadValue)
            }
        }
    }
}

/// The item that a key names, if it takes a value of this host from there at this moment, or why it takes none.
#[tactic(auto, unfolding(crate::specs::Taking::keyed))]
fn open_item(
    ready: &Ready,
    now: Moment,
    some_out: bool,
    origin: Origin,
    key: &Option<Text>,
    host: u32,
) -> Result<u32, ValueRefusal>
    requires { some_out ≡ false → AllCollected ready.now.conf now }
    ensures { (asked : Asked) → keyed ready.now.conf now origin asked host (option_and_then (item_keyed ready.now.conf host) key.now)
        ≡ taken_for now asked result }
{
    let Some(item) = asked_item(ready, host, key) else {
        return Err(ValueRefusal::UnknownKey);
    };
    let conf = ready.conf();
    let found = by_id(conf.items.as_slice(), item);
    if !(is_enabled_host(by_id(conf.hosts.as_slice(), host)) && is_enabled_item(found)) {
        return Err(ValueRefusal::Disabled);
    }
    if !comes_from(origin, found) {
        return Err(not_from(origin));
    }
    if !is_collected(conf, now, some_out, host) {
        return Err(ValueRefusal::InMaintenance);
    }
    Ok(item)
}

fn keyed(
    ready: &Ready,
    now: Moment,
    some_out: bool,
    origin: Origin,
    asked: Asked,
    host: u32,
) -> Result<Entry, ValueRefusal>
    requires { some_out ≡ false → AllCollected ready.now.conf now }
    ensures { result ≡ keyed ready.now.conf now origin asked host (option_and_then (item_keyed ready.now.conf host) asked.key) }
{
    let Asked {
        host: name,
        key,
        value,
        clock,
    } = asked;
    drop(name);
    let open = open_item(ready, now, some_out, origin, &key, host);
    drop(key);
    match open {
        Ok(item) => valued(now, item, clock, value),
        Err(cause) => {
            drop(value);
            Err(cause)
        }
    }
}

#[tactic(auto, unfolding(crate::specs::Taking::hosted))]
fn hosted(
    ready: &Ready,
    now: Moment,
    some_out: bool,
    origin: Origin,
    asked: Asked,
) -> Result<Entry, ValueRefusal>
    requires { some_out ≡ false → AllCollected ready.now.conf now }
    ensures { result ≡ hosted ready.now.conf now origin asked (option_and_then (host_named ready.now.conf) asked.host) }
{
    match asked_host(ready, &asked.host) {
        Some(host) => keyed(ready, now, some_out, origin, asked, host),
        None => {
            drop(asked);
            Err(ValueRefusal::UnknownHost)
        }
    }
}

fn supported(unsupported: bool, taken: Result<Entry, ValueRefusal>) -> Result<Entry, ValueRefusal>
    ensures { result ≡ supported unsupported taken }
{
    match taken {
        Ok(entry) => {
            if unsupported {
                drop(entry);
                Err(ValueRefusal::Unsupported)
            } else {
                Ok(entry)
            }
        }
        Err(cause) => Err(cause),
    }
}

/// The entry that an asked value becomes, or the cause for which it is refused.
#[tactic(auto, unfolding(crate::specs::Taking::taken_of))]
pub(crate) fn taken(
    ready: &Ready,
    now: Moment,
    some_out: bool,
    origin: Origin,
    asked: Asked,
) -> Result<Entry, ValueRefusal>
    requires { some_out ≡ false → AllCollected ready.now.conf now }
    ensures { result ≡ taken_of ready.now.conf now origin asked }
{
    supported(
        is_unsupported(origin),
        hosted(ready, now, some_out, origin, asked),
    )
}

/// The entry that an element of agent data becomes, or the cause for which it is refused.
pub(crate) fn agent_taken(
    ready: &Ready,
    now: Moment,
    some_out: bool,
    one: AgentAsked,
) -> Result<Entry, ValueRefusal>
    requires { some_out ≡ false → AllCollected ready.now.conf now }
    ensures { result ≡ agent_taken_of ready.now.conf now one }
{
    let AgentAsked { asked, unsupported } = one;
    taken(ready, now, some_out, Origin::Agent { unsupported }, asked)
}
