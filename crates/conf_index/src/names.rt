//! Ids by names: of hosts by their names, and of a host's items by their keys.

ghost use Rattle.std.specs.Prelude.{◌≡◌, ◌<◌, ◌&&◌, ◌==◌, ℕ, List, length, IfOk, OnOk};
ghost use Rattle.std.specs.HashMap.{get_by_text};
ghost use Rattle.std.specs.Str.{bytes_eq};
ghost use Rattle.conf_index.specs.Names.{host_named, item_keyed};
ghost use Rattle.conf_index.specs.Index.{id_at, noted};

use std::alloc::Global;
use std::collections::HashMap;
use std::convert::AsStr;
use zbx_types::{Conf, OutOfMemory, Text, id_of};

/// Notes the id of a name, unless the name has one.
fn note(
    alloc: Global,
    ids: &mut HashMap<String, u32>,
    name: &Text,
    id: u32,
) -> Result<(), OutOfMemory>
    ensures { OnOk result ((q : List ℕ) → get_by_text ids.new q ≡ noted (get_by_text ids.old q) (bytes_eq name.now q)
        id) }
{
    if ids.get(name.as_str()).is_none() {
        ids.insert(String::from_str(alloc, name.as_str())?, id)?;
    }
    Ok(())
}

/// The ids of hosts by their names: of each name the first.
pub(crate) fn hosts_of(alloc: Global, conf: &Conf) -> Result<HashMap<String, u32>, OutOfMemory>
    ensures { IfOk result (λ ids. (name : List ℕ) → get_by_text ids name ≡ host_named conf.now name) }
{
    let mut ids = HashMap::new(alloc);
    for (place, host) in conf.hosts.as_slice().iter().enumerate() {
        note(alloc, &mut ids, &host.name, id_of(place)?)?;
    }
    Ok(ids)
}

/// Makes room for the map of a host's keys.
fn reach(alloc: Global, keys: &mut Vec<HashMap<String, u32>>, host: u32) -> Result<(), OutOfMemory>
    ensures room { OnOk result (host < length keys.new.items) }
    ensures same { OnOk result ((h : ℕ) (q : List ℕ) → id_at keys.new.items h q ≡ id_at keys.old.items h q) }
{
    let size = host as usize + 1;
    for _host in keys.len()..size {
        keys.push(HashMap::new(alloc))?;
    }
    Ok(())
}

/// Notes the id of a host's key, unless the key has one.
fn note_key(
    alloc: Global,
    keys: &mut Vec<HashMap<String, u32>>,
    host: u32,
    key: &Text,
    id: u32,
) -> Result<(), OutOfMemory>
    ensures { OnOk result ((h : ℕ) (q : List ℕ) → id_at keys.new.items h q ≡ noted (id_at keys.old.items h q)
        ((host == h) && bytes_eq key.now q) id) }
{
    reach(alloc, keys, host)?;
    note(alloc, &mut keys[host as usize], key, id)
}

/// The ids of items by their hosts and keys: of each key of a host the first.
pub(crate) fn keys_of(alloc: Global, conf: &Conf) -> Result<Vec<HashMap<String, u32>>, OutOfMemory>
    ensures { IfOk result (λ keys. (host : ℕ) (key : List ℕ)
        → id_at keys.items host key ≡ item_keyed conf.now host key) }
{
    let mut keys = Vec::new(alloc);
    for (place, item) in conf.items.as_slice().iter().enumerate() {
        note_key(alloc, &mut keys, item.host, &item.key, id_of(place)?)?;
    }
    Ok(keys)
}
