//! What segments select.

ghost use Rattle.std.specs.Prelude.{◌≡◌, ◌++◌, ◌∷◌, [], OnOk, IfOk, flat_map, filter, option_map};
ghost use Rattle.std.specs.Option.{option_to_list};
ghost use Rattle.json_text.specs.Trees.{json_of, items_of};
ghost use Rattle.json_text.specs.Json.{item_list};
ghost use Rattle.json_path.specs.Contents.{contents_of, elements_of};
ghost use Rattle.json_path.specs.Comparing.{member_named, condition_holds};
ghost use Rattle.json_path.specs.Selecting.{from_front, elements_between, element_from_front, element_at, begins_at};
ghost use Rattle.json_path.specs.Selecting.{ends_at, slice_of, taken_by, reached_by, selected_by, selected_from};
ghost use Rattle.json_path.specs.Seen.{seen};

use crate::comparing::{condition_holds, member_named};
use crate::contents::{add_contents, add_within};
use crate::path::{Condition, Segment, Selector};
use json_text::Tree;
use std::alloc::Global;
use zbx_types::{OutOfMemory, Text};

/// Adds the members of some names, in the order of the names.
fn add_named<'t>(
    names: &[Text],
    tree: &'t Tree,
    found: &mut Vec<&'t Tree>,
) -> Result<(), OutOfMemory>
    ensures { OnOk result (seen found.new.items ≡ seen found.old.items ++ flat_map (λ name. option_to_list (member_named name (json_of tree.now))) names.now) }
{
    for name in names {
        if let Some(value) = member_named(name, tree) {
            found.push(value)?;
        }
    }
    Ok(())
}

/// The elements of an array, none of any other value.
pub(crate) fn elements_of<'t>(tree: &'t Tree) -> &'t [Tree]
    ensures { item_list (items_of result.now) ≡ elements_of (json_of tree.now) }
{
    match tree {
        Tree::List(items) => items.as_slice(),
        Tree::Null | Tree::Bool(_) | Tree::Number(_) | Tree::Words(_) | Tree::Object(_) => &[],
    }
}

/// A place among so many elements, counted from 0.
fn from_front(count: usize, place: i64) -> i128
    ensures { result ≡ from_front count place }
{
    if place < 0 {
        count as i128 + place as i128
    } else {
        place as i128
    }
}

/// The element at a place that counts from 0.
fn element_from_front<'t>(elements: &'t [Tree], place: i128) -> Option<&'t Tree>
    ensures { option_map (λ t. json_of t.now) result ≡ element_from_front (item_list (items_of elements.now)) place }
{
    let count = elements.len();
    match usize::try_from(place) {
        Ok(place) => {
            if place < count {
                Some(&elements[place])
            } else {
                None
            }
        }
        Err(_) => None,
    }
}

/// The element at a place.
fn element_at<'t>(elements: &'t [Tree], place: i64) -> Option<&'t Tree>
    ensures { option_map (λ t. json_of t.now) result ≡ element_at (item_list (items_of elements.now)) place }
{
    element_from_front(elements, from_front(elements.len(), place))
}

/// Adds the elements at some places, in the order of the places.
fn add_indexed<'t>(
    places: &[i64],
    elements: &'t [Tree],
    found: &mut Vec<&'t Tree>,
) -> Result<(), OutOfMemory>
    ensures { OnOk result (seen found.new.items ≡ seen found.old.items ++ flat_map (λ place. option_to_list (element_at (item_list (items_of elements.now)) place)) places.now) }
{
    for place in places {
        if let Some(value) = element_at(elements, *place) {
            found.push(value)?;
        }
    }
    Ok(())
}

/// Adds the elements from a place on up to but not with another.
fn add_between<'t>(
    from: i128,
    to: i128,
    elements: &'t [Tree],
    found: &mut Vec<&'t Tree>,
) -> Result<(), OutOfMemory>
    ensures { OnOk result (seen found.new.items ≡ seen found.old.items ++ elements_between from to 0 (item_list (items_of elements.now))) }
{
    let mut place: i128 = 0;
    for element in elements {
        if from <= place && place < to {
            found.push(element)?;
        }
        place += 1;
    }
    Ok(())
}

fn begins_at(count: usize, place: Option<i64>) -> i128
    ensures { result ≡ begins_at count place }
{
    match place {
        None => 0,
        Some(place) => from_front(count, place),
    }
}

fn ends_at(count: usize, place: Option<i64>) -> i128
    ensures { result ≡ ends_at count place }
{
    match place {
        None => count as i128,
        Some(place) => from_front(count, place),
    }
}

/// Adds the elements of a slice, in order.
#[tactic(auto, unfolding(crate::specs::Selecting::slice_of))]
fn add_slice<'t>(
    from: Option<i64>,
    to: Option<i64>,
    elements: &'t [Tree],
    found: &mut Vec<&'t Tree>,
) -> Result<(), OutOfMemory>
    ensures { OnOk result (seen found.new.items ≡ seen found.old.items ++ slice_of from to (item_list (items_of elements.now))) }
{
    let begin = begins_at(elements.len(), from);
    let end = ends_at(elements.len(), to);
    add_between(begin, end, elements, found)
}

/// Adds those values for which a condition holds.
fn add_holding<'t>(
    condition: &Condition,
    values: &[&'t Tree],
    found: &mut Vec<&'t Tree>,
) -> Result<(), OutOfMemory>
    ensures { OnOk result (seen found.new.items ≡ seen found.old.items ++ filter (condition_holds condition.now) (seen values.now)) }
{
    for value in values {
        let value: &'t Tree = value;
        if condition_holds(condition, value) {
            found.push(value)?;
        }
    }
    Ok(())
}

/// Adds the members or elements of a value for which a condition holds.
fn add_where<'t>(
    alloc: Global,
    condition: &Condition,
    tree: &'t Tree,
    found: &mut Vec<&'t Tree>,
) -> Result<(), OutOfMemory>
    ensures { OnOk result (seen found.new.items ≡ seen found.old.items ++ filter (condition_holds condition.now) (contents_of (json_of tree.now))) }
{
    let mut contents = Vec::new(alloc);
    add_contents(tree, &mut contents)?;
    add_holding(condition, contents.as_slice(), found)
}

/// Adds what a selector takes from a value.
#[tactic(auto, unfolding(crate::specs::Selecting::taken_by))]
fn add_taken<'t>(
    alloc: Global,
    selector: &Selector,
    tree: &'t Tree,
    found: &mut Vec<&'t Tree>,
) -> Result<(), OutOfMemory>
    ensures { OnOk result (seen found.new.items ≡ seen found.old.items ++ taken_by selector.now (json_of tree.now)) }
{
    match selector {
        Selector::Names(names) => add_named(names.as_slice(), tree, found),
        Selector::Indexes(places) => add_indexed(places.as_slice(), elements_of(tree), found),
        Selector::Slice { from, to } => add_slice(*from, *to, elements_of(tree), found),
        Selector::All => add_contents(tree, found),
        Selector::Where(condition) => add_where(alloc, condition, tree, found),
    }
}

/// Adds what a selector takes from each of some values, in order.
fn add_taken_from<'t>(
    alloc: Global,
    selector: &Selector,
    values: &[&'t Tree],
    found: &mut Vec<&'t Tree>,
) -> Result<(), OutOfMemory>
    ensures { OnOk result (seen found.new.items ≡ seen found.old.items ++ flat_map (taken_by selector.now) (seen values.now)) }
{
    for value in values {
        let value: &'t Tree = value;
        add_taken(alloc, selector, value, found)?;
    }
    Ok(())
}

/// A value, or behind `..` a value and all inside it.
fn reached<'t>(alloc: Global, deep: bool, tree: &'t Tree) -> Result<Vec<&'t Tree>, OutOfMemory>
    ensures { IfOk result (λ found. seen found.items ≡ reached_by deep (json_of tree.now)) }
{
    let mut found = Vec::new(alloc);
    if deep {
        add_within(tree, &mut found)?;
    } else {
        found.push(tree)?;
    }
    Ok(found)
}

/// Adds what a segment selects from a value.
#[tactic(auto, unfolding(crate::specs::Selecting::selected_by))]
fn add_selected<'t>(
    alloc: Global,
    segment: &Segment,
    tree: &'t Tree,
    found: &mut Vec<&'t Tree>,
) -> Result<(), OutOfMemory>
    ensures { OnOk result (seen found.new.items ≡ seen found.old.items ++ selected_by segment.now (json_of tree.now)) }
{
    let reached = reached(alloc, segment.deep, tree)?;
    add_taken_from(alloc, &segment.selector, reached.as_slice(), found)
}

/// What a segment selects from each of some values, in order.
fn selected_of<'t>(
    alloc: Global,
    segment: &Segment,
    values: &[&'t Tree],
) -> Result<Vec<&'t Tree>, OutOfMemory>
    ensures { IfOk result (λ found. seen found.items ≡ flat_map (selected_by segment.now) (seen values.now)) }
{
    let mut found = Vec::new(alloc);
    for value in values {
        let value: &'t Tree = value;
        add_selected(alloc, segment, value, &mut found)?;
    }
    Ok(found)
}

/// What segments, one after the other, select from a value, in order.
pub(crate) fn selected<'t>(
    alloc: Global,
    segments: &[Segment],
    tree: &'t Tree,
) -> Result<Vec<&'t Tree>, OutOfMemory>
    ensures { IfOk result (λ found. seen found.items ≡ selected_from segments.now (json_of tree.now ∷ [])) }
{
    let mut values = Vec::new(alloc);
    values.push(tree)?;
    for segment in segments {
        values = selected_of(alloc, segment, values.as_slice())?;
    }
    Ok(values)
}
