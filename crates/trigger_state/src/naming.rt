//! Triggers by the names of their hosts and their own.

ghost use Rattle.std.specs.Prelude.{◌≡◌, ◌&&◌, ℕ, List, IfOk, OnOk};
ghost use Rattle.std.specs.Str.{bytes_eq};
ghost use Rattle.trigger_state.specs.Naming.{id_in, noted, FindsFirst};

use std::alloc::Global;
use std::collections::HashMap;
use zbx_types::{Conf, OutOfMemory, id_of};

/// Notes the id of names, unless they have one.
fn note<'c>(
    ids: &mut HashMap<(&'c [u8], &'c [u8]), u32>,
    host: &'c [u8],
    name: &'c [u8],
    id: u32,
) -> Result<(), OutOfMemory>
    ensures { OnOk result ((h q : List ℕ) → id_in ids.new h q ≡ noted (id_in ids.old h q) (bytes_eq host.now h && bytes_eq name.now q) id) }
{
    if !ids.contains_key(&(host, name)) {
        ids.insert((host, name), id)?;
    }
    Ok(())
}

/// The ids of triggers by the names of their hosts and their own: of the same names the first. Made in time that grows
/// with the length of the names.
pub(crate) fn ids_of<'c>(
    alloc: Global,
    conf: &'c Conf,
) -> Result<HashMap<(&'c [u8], &'c [u8]), u32>, OutOfMemory>
    ensures { IfOk result (λ ids. FindsFirst ids conf.now) }
{
    let mut ids = HashMap::new(alloc);
    for (place, trigger) in conf.triggers.as_slice().iter().enumerate() {
        let host = conf.host_name(trigger.host).as_bytes();
        note(&mut ids, host, trigger.name.as_bytes(), id_of(place)?)?;
    }
    Ok(ids)
}

/// The id of the first trigger with these names, where there is one.
pub(crate) fn id_at(ids: &HashMap<(&[u8], &[u8]), u32>, host: &[u8], name: &[u8]) -> Option<u32>
    ensures { result ≡ id_in ids.now host.now name.now }
{
    ids.get(&(host, name)).copied()
}
