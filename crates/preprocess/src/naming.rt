//! Items by the names of their hosts and their keys.

ghost use Rattle.std.specs.Prelude.{◌≡◌, ◌&&◌, ℕ, List, IfOk, OnOk, map};
ghost use Rattle.std.specs.Str.{bytes_eq};
ghost use Rattle.zbx_types.specs.declared.items.ValueType.TheVariants.{Number, Words};
ghost use Rattle.preprocess.specs.Carry.{same_type, old_item};
ghost use Rattle.preprocess.specs.Naming.{id_in, first_of, is_named, FindsFirst};

use std::alloc::Global;
use std::collections::HashMap;
use zbx_types::{Conf, Item, OutOfMemory, ValueType, id_of};

/// Whether two value types are the same.
fn same_type(one: ValueType, other: ValueType) -> bool
    ensures { result ≡ same_type one other }
{
    match (one, other) {
        (ValueType::Number, ValueType::Number) | (ValueType::Words, ValueType::Words) => true,
        _ => false,
    }
}

/// Notes the id of names, unless they have one.
fn note<'c>(
    ids: &mut HashMap<(&'c [u8], &'c [u8]), u32>,
    host: &'c [u8],
    key: &'c [u8],
    id: u32,
) -> Result<(), OutOfMemory>
    ensures { OnOk result ((h q : List ℕ) → id_in ids.new h q ≡ first_of (id_in ids.old h q) (bytes_eq host.now h && bytes_eq key.now q) id) }
{
    if !ids.contains_key(&(host, key)) {
        ids.insert((host, key), id)?;
    }
    Ok(())
}

/// Notes the id of an item under its names, if it is of a value type and they have none.
#[tactic(auto, using(crate::proofs::Named::of_type, crate::proofs::Named::of_other))]
fn note_item<'c>(
    ids: &mut HashMap<(&'c [u8], &'c [u8]), u32>,
    conf: &'c Conf,
    item: &'c Item,
    value_type: ValueType,
    id: u32,
) -> Result<(), OutOfMemory>
    ensures { OnOk result ((h q : List ℕ) → id_in ids.new h q ≡ first_of (id_in ids.old h q) (is_named conf.now h q value_type item.now) id) }
{
    if !same_type(item.value_type, value_type) {
        return Ok(());
    }
    let host = conf.host_name(item.host).as_bytes();
    note(ids, host, item.key.as_bytes(), id)
}

/// The ids of the items of a value type by the names of their hosts and their keys: of the same names the first. Made in
/// time that grows with the length of the names.
fn ids_of<'c>(
    alloc: Global,
    conf: &'c Conf,
    value_type: ValueType,
) -> Result<HashMap<(&'c [u8], &'c [u8]), u32>, OutOfMemory>
    ensures { IfOk result (λ ids. FindsFirst ids conf.now value_type) }
{
    let mut ids = HashMap::new(alloc);
    for (place, item) in conf.items.as_slice().iter().enumerate() {
        note_item(&mut ids, conf, item, value_type, id_of(place)?)?;
    }
    Ok(ids)
}

/// The id of the first item under these names, where there is one.
fn id_at(ids: &HashMap<(&[u8], &[u8]), u32>, host: &[u8], key: &[u8]) -> Option<u32>
    ensures { result ≡ id_in ids.now host.now key.now }
{
    ids.get(&(host, key)).copied()
}

/// The id of the item of the old configuration that goes on as an item of the new one, where the old one's are found by
/// their names: those of numbers, and those of texts.
fn old_item(
    numbers: &HashMap<(&[u8], &[u8]), u32>,
    words: &HashMap<(&[u8], &[u8]), u32>,
    old: &Conf,
    new: &Conf,
    item: &Item,
) -> Option<u32>
    requires numbers { FindsFirst numbers.now old.now Number }
    requires words { FindsFirst words.now old.now Words }
    ensures { result ≡ old_item old.now new.now item.now }
{
    let host = new.host_name(item.host).as_bytes();
    match item.value_type {
        ValueType::Number => id_at(numbers, host, item.key.as_bytes()),
        ValueType::Words => id_at(words, host, item.key.as_bytes()),
    }
}

/// For each item of the new configuration the id of the old one's that goes on as it, where there is one. Items are found
/// by an index of their names, so that it takes time by the length of the names.
pub(crate) fn old_items(
    alloc: Global,
    old: &Conf,
    new: &Conf,
) -> Result<Vec<Option<u32>>, OutOfMemory>
    ensures { IfOk result (λ ids. ids.items ≡ map (old_item old.now new.now) new.now.items) }
{
    let numbers = ids_of(alloc, old, ValueType::Number)?;
    let words = ids_of(alloc, old, ValueType::Words)?;
    let mut ids = Vec::new(alloc);
    for item in new.items.as_slice() {
        ids.push(old_item(&numbers, &words, old, new, item))?;
    }
    Ok(ids)
}
