//! Masters of dependent items (the Zabbix 6.0 manual, "Dependent items").

ghost use Rattle.std.specs.Prelude.{◌≡◌, ◌+◌, ◌==◌, [], List, ℕ, false, find, IfOk, option_and_then, if◌then◌else◌};
ghost use Rattle.macro_text.specs.Expanded.{expanded};
ghost use Rattle.host_layout.specs.Answers.{Gives, GivesAs};
ghost use Rattle.host_layout.specs.Elements.{placed_item};
ghost use Rattle.host_layout.specs.Inherited.{Inherits};
ghost use Rattle.host_layout.specs.Masters.{key_place, master_of, with_master, master_fault, master_at, is_too_deep, is_crowded, place_of, master_links, first_cycle, ordered, mastered};
ghost use Rattle.host_layout.specs.Counting.{refusing, count_in, is_full_at};
ghost use Rattle.host_layout.specs.Names.{named_items};
ghost use Rattle.host_layout.specs.OwnedItems.{owned, owned_items, adding, with_each};
ghost use Rattle.host_layout.specs.Places.{unless, each_list};
ghost use Rattle.zbx_types.specs.Ids.{ids_from};

use crate::fault::FlatError;
use crate::held::beside;
use crate::inheritance::Inheritance;
use crate::item_list::ItemList;
use crate::owned_names::OwnedNames;
use crate::owners::Owner;
use crate::passes::{ItemPass, visit_items};
use crate::refusals::refused_member;
use crate::templates::sources::Source;
use config_read::{RawConf, RawItem};
use dependency_graph::first_on_cycle;
use indexmap::IndexMap;
use macro_text::{Expansion, expand_within};
use std::alloc::Global;
use std::convert::AsStr;
use zbx_types::{Cause, Item, LONGEST_KEY, Many, OutOfMemory, by_id, id_of};

/// The most dependent items of one master (this project's own).
const MOST_DEPENDENTS: usize = 1000;

/// The place of the item that a dependent item names as its master, among the names of all items.
fn named_master(
    alloc: Global,
    names: &OwnedNames,
    owner: &Owner<'_, '_>,
    raw: &RawItem,
) -> Result<Option<usize>, OutOfMemory>
    ensures { IfOk result (λ place. place ≡ key_place names.now owner.now.id (expanded owner.now.macros raw.now.master)) }
{
    match expand_within(alloc, &raw.master, &owner.macros, LONGEST_KEY)? {
        Expansion::Whole(key) => names.place(alloc, owner.id, key.as_str()),
        Expansion::Longer(_) => Ok(None),
    }
}

/// The id of an item's master, by the names of all items; 0 of an item whose values are received.
#[tactic(auto, using(crate::proofs::Failing::refusal), unfolding(crate::specs::Masters::master_of))]
fn master(
    alloc: Global,
    names: &OwnedNames,
    owner: &Owner<'_, '_>,
    source: &Source<'_>,
    index: usize,
    raw: &RawItem,
) -> Result<u32, FlatError>
    ensures { Gives result (master_of names.now (owned owner.now.id owner.now.macros (placed_item source.now index raw.now))) }
{
    if raw.kind.is_received() {
        return Ok(0);
    }
    match named_master(alloc, names, owner, raw)? {
        Some(place) => Ok(id_of(place)?),
        None => {
            let cause = Cause::UnknownName;
            Err(refused_member(alloc, source, "/items", index, "/master", cause))
        }
    }
}

/// The pass that finds the masters of items.
#[derive(Clone, Copy)]
struct MasterPass<'n> {
    names: &'n OwnedNames,
}

impl ItemPass for MasterPass<'_> {
    type Past = Many<u32>;

    ghost visits = { λ pass. adding (master_of pass.names.now) };

    fn visit(
        &self,
        alloc: Global,
        past: &mut Many<u32>,
        owner: &Owner<'_, '_>,
        source: &Source<'_>,
        index: usize,
        raw: &RawItem,
    ) -> Result<(), FlatError> {
        let master = master(alloc, self.names, owner, source, index, raw)?;
        past.push(master)?;
        Ok(())
    }
}

/// The pass that refuses one item at its master. What it goes on with is how many items stand before that one.
#[derive(Clone, Copy)]
struct RefusingPass {
    cause: Cause,
}

impl ItemPass for RefusingPass {
    type Past = usize;

    ghost visits = { λ pass. refusing pass.cause };

    #[tactic(auto, using(crate::proofs::Failing::refusal))]
    fn visit(
        &self,
        alloc: Global,
        past: &mut usize,
        owner: &Owner<'_, '_>,
        source: &Source<'_>,
        index: usize,
        raw: &RawItem,
    ) -> Result<(), FlatError> {
        let (_owner, _raw) = (owner, raw);
        if *past == 0 {
            return Err(refused_member(alloc, source, "/items", index, "/master", self.cause));
        }
        *past -= 1;
        Ok(())
    }
}

/// Refuses the item that stands at a place, counted from 0, at its master.
#[tactic(auto, using(crate::proofs::Refusing::none_there, crate::proofs::Refusing::refused_there))]
fn refuse_master(
    alloc: Global,
    raw: &RawConf,
    inheritance: &Inheritance<'_>,
    place: usize,
    cause: Cause,
) -> Result<(), FlatError>
    requires { Inherits raw.now inheritance.now }
    ensures { (items : List Item) → GivesAs (λ _. items) result (unless items (master_fault raw.now cause (place + 1))) }
{
    let pass = RefusingPass { cause };
    let mut left = place;
    visit_items(alloc, raw, inheritance, &pass, &mut left)
}

/// Refuses the item with an id at its master.
fn refuse_id(
    alloc: Global,
    raw: &RawConf,
    inheritance: &Inheritance<'_>,
    id: u32,
    cause: Cause,
) -> Result<(), FlatError>
    requires { Inherits raw.now inheritance.now }
    ensures { (items : List Item) → GivesAs (λ _. items) result (unless items (master_fault raw.now cause id)) }
{
    if id == 0 {
        return Ok(());
    }
    refuse_master(alloc, raw, inheritance, id as usize - 1, cause)
}

/// The id of an item's master; 0 where it has none.
fn master_at(items: &[Item], id: u32) -> u32
    ensures { result ≡ master_at items.now id }
{
    match by_id(items, id) {
        Some(item) => item.master,
        None => 0,
    }
}

/// Whether the item is more than 3 levels under a trapper item (this project's own).
fn is_too_deep(items: &[Item], id: u32) -> bool
    ensures { result ≡ is_too_deep items.now id }
{
    let first = master_at(items, id);
    let second = master_at(items, first);
    let third = master_at(items, second);
    master_at(items, third) != 0
}

/// The id of the first item that is too deep.
fn first_too_deep(items: &[Item]) -> Result<Option<u32>, OutOfMemory>
    ensures { IfOk result (λ id. id ≡ find (is_too_deep items.now) (ids_from 1 items.now)) }
{
    for place in 0..items.len() {
        let id = id_of(place)?;
        if is_too_deep(items, id) {
            return Ok(Some(id));
        }
    }
    Ok(None)
}

/// How many dependent items each master has so far.
#[derive(Drop)]
struct Dependents {
    counts: IndexMap<u32, usize>,
}

impl Dependents {
    /// None of any master. Takes no memory.
    fn new(alloc: Global) -> Dependents
        ensures { (master : ℕ) → count_in result master ≡ 0 }
    {
        Dependents {
            counts: IndexMap::new(alloc),
        }
    }

    /// How many a master has.
    fn of(&self, master: u32) -> usize
        ensures { result ≡ count_in self.now master }
    {
        match self.counts.get(&master) {
            Some(count) => *count,
            None => 0,
        }
    }

    /// Counts one more of a master, where there is one, and says whether it was full already.
    fn add(&mut self, master: u32) -> Result<bool, OutOfMemory>
        ensures full { IfOk result (λ full. full ≡ is_full_at master (count_in self.old master)) }
        ensures counted { IfOk result (λ full. full ≡ false → (other : ℕ) → (other == 0) ≡ false → count_in self.new other ≡ count_in self.old other + (if master == other then 1 else 0)) }
    {
        if master == 0 {
            return Ok(false);
        }
        let count = self.of(master);
        if MOST_DEPENDENTS <= count {
            return Ok(true);
        }
        self.counts.insert(master, count + 1)?;
        Ok(false)
    }
}

/// The id of the first item whose master has as many dependent items before it as one may have.
fn first_crowded(alloc: Global, items: &[Item]) -> Result<Option<u32>, OutOfMemory>
    ensures { IfOk result (λ id. id ≡ find (is_crowded items.now) (ids_from 1 items.now)) }
{
    let mut dependents = Dependents::new(alloc);
    for (place, item) in items.iter().enumerate() {
        if dependents.add(item.master)? {
            return Ok(Some(id_of(place)?));
        }
    }
    Ok(None)
}

/// The place of the item with an id, of so many items.
fn place_of(alloc: Global, size: usize, id: u32) -> Result<Many<usize>, OutOfMemory>
    ensures { IfOk result (λ made. made ≡ place_of size id) }
{
    let mut made = Many::new(alloc);
    if 1 <= id && id as usize <= size {
        made.push(id as usize - 1)?;
    }
    Ok(made)
}

/// For each item the place of its master.
fn master_links(alloc: Global, items: &[Item]) -> Result<Vec<Many<usize>>, OutOfMemory>
    ensures { IfOk result (λ links. links.items ≡ master_links items.now) }
{
    let mut links = Vec::new(alloc);
    for item in items {
        links.push(place_of(alloc, items.len(), item.master)?)?;
    }
    Ok(links)
}

/// Refuses the first item that lies on a cycle.
#[tactic(auto, using(crate::proofs::Fellows::closed))]
fn no_cycle(
    alloc: Global,
    raw: &RawConf,
    inheritance: &Inheritance<'_>,
    items: &Many<Item>,
) -> Result<(), FlatError>
    requires { Inherits raw.now inheritance.now }
    ensures { GivesAs (λ _. items.now) result (unless items.now (first_cycle raw.now items.now)) }
{
    let links = master_links(alloc, items.as_slice())?;
    match first_on_cycle(alloc, &links)? {
        Some(link) => refuse_master(alloc, raw, inheritance, link.from, Cause::Cycle),
        None => Ok(()),
    }
}

/// Refuses the item with an id, where there is one, at its master.
fn refuse_found(
    alloc: Global,
    raw: &RawConf,
    inheritance: &Inheritance<'_>,
    found: Option<u32>,
    cause: Cause,
) -> Result<(), FlatError>
    requires inheritance { Inherits raw.now inheritance.now }
    ensures { (items : List Item) → GivesAs (λ _. items) result (unless items (option_and_then (master_fault raw.now cause) found)) }
{
    match found {
        None => Ok(()),
        Some(id) => refuse_id(alloc, raw, inheritance, id, cause),
    }
}

/// Refuses items whose masters aren't in order.
fn in_order(
    alloc: Global,
    raw: &RawConf,
    inheritance: &Inheritance<'_>,
    items: &Many<Item>,
) -> Result<(), FlatError>
    requires { Inherits raw.now inheritance.now }
    ensures { GivesAs (λ _. items.now) result (ordered raw.now items.now) }
{
    no_cycle(alloc, raw, inheritance, items)?;
    let deep = first_too_deep(items.as_slice())?;
    refuse_found(alloc, raw, inheritance, deep, Cause::TooDeep)?;
    let crowded = first_crowded(alloc, items.as_slice())?;
    refuse_found(alloc, raw, inheritance, crowded, Cause::TooMany)
}

/// The items with these masters. Takes no memory.
#[tactic(auto, using(crate::proofs::Putting::put_one, crate::proofs::Putting::put_past, crate::proofs::Putting::put_all, crate::proofs::Fellows::same_names))]
fn with_masters(items: Many<Item>, masters: &[u32]) -> Many<Item>
    ensures items { result ≡ with_each with_master items masters.now }
    ensures names { named_items result ≡ named_items items }
{
    let mut items = items.into_vec();
    for (place, master) in masters.iter().enumerate() {
        if place < items.len() {
            items[place].master = *master;
        }
    }
    Many::from_vec(items)
}

/// The masters of all items.
fn masters(
    alloc: Global,
    raw: &RawConf,
    inheritance: &Inheritance<'_>,
    names: &OwnedNames,
) -> Result<Many<u32>, FlatError>
    requires { Inherits raw.now inheritance.now }
    ensures { Gives result (each_list (adding (master_of names.now)) [] (owned_items raw.now)) }
{
    let pass = MasterPass { names };
    let mut masters = Many::new(alloc);
    visit_items(alloc, raw, inheritance, &pass, &mut masters)?;
    Ok(masters)
}

/// The items of all hosts with their masters: a dependent item's is the item of its own host whose key it names.
///
/// # Errors
///
/// Over all items `UnknownName` at the first master that isn't there, then `Cycle` at that of the first item that lies on
/// a cycle, then `TooDeep` at that of the first item more than 3 levels under a trapper item, then `TooMany` at that of the
/// first item before which 1,000 have the same master.
#[tactic(auto, unfolding(crate::specs::Masters::mastered))]
pub fn mastered(
    alloc: Global,
    raw: &RawConf,
    inheritance: &Inheritance<'_>,
    list: ItemList,
) -> Result<ItemList, FlatError>
    requires inheritance { Inherits raw.now inheritance.now }
    requires names { list.names ≡ named_items list.items }
    ensures gives { GivesAs (λ l. l.items) result (mastered raw.now list.items) }
    ensures names { IfOk result (λ l. l.names ≡ named_items l.items) }
{
    let masters = masters(alloc, raw, inheritance, &list.names);
    let (masters, list) = beside(masters, list)?;
    let items = with_masters(list.items, masters.as_slice());
    drop(masters);
    let list = ItemList {
        items,
        names: list.names,
    };
    let ordered = in_order(alloc, raw, inheritance, &list.items);
    let (_ordered, list) = beside(ordered, list)?;
    Ok(list)
}
