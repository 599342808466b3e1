//! What stands inside values.

ghost use Rattle.std.specs.Prelude.{◌≡◌, ◌++◌, OnOk};
ghost use Rattle.json_text.specs.Trees.{json_of, items_of, members_of as tree_members_of};
ghost use Rattle.json_text.specs.Json.{item_list, member_list};
ghost use Rattle.json_path.specs.Contents.{contents_of, member_values, all_within, within_items, within_members};
ghost use Rattle.json_path.specs.Seen.{seen};

use json_text::{Member, Members, Tree, Trees};
use zbx_types::OutOfMemory;

/// Adds the elements of an array, in order.
pub(crate) fn add_items<'t>(items: &'t [Tree], found: &mut Vec<&'t Tree>) -> Result<(), OutOfMemory>
    ensures { OnOk result (seen found.new.items ≡ seen found.old.items ++ item_list (items_of items.now)) }
{
    for item in items {
        found.push(item)?;
    }
    Ok(())
}

/// Adds the values of an object's members, in order.
fn add_members<'t>(members: &'t [Member], found: &mut Vec<&'t Tree>) -> Result<(), OutOfMemory>
    ensures { OnOk result (seen found.new.items ≡ seen found.old.items ++ member_values (member_list (tree_members_of members.now))) }
{
    for member in members {
        found.push(&member.value)?;
    }
    Ok(())
}

/// Adds the elements of an array, or the values of an object's members, in order.
pub(crate) fn add_contents<'t>(tree: &'t Tree, found: &mut Vec<&'t Tree>) -> Result<(), OutOfMemory>
    ensures { OnOk result (seen found.new.items ≡ seen found.old.items ++ contents_of (json_of tree.now)) }
{
    match tree {
        Tree::List(items) => add_items(items.as_slice(), found),
        Tree::Object(members) => add_members(members.as_slice(), found),
        Tree::Null | Tree::Bool(_) | Tree::Number(_) | Tree::Words(_) => Ok(()),
    }
}

/// Adds a value and all values inside it, each before its contents.
#[cycle(within)]
pub(crate) fn add_within<'t>(tree: &'t Tree, found: &mut Vec<&'t Tree>) -> Result<(), OutOfMemory>
    ensures { OnOk result (seen found.new.items ≡ seen found.old.items ++ all_within (json_of tree.now)) }
{
    found.push(tree)?;
    match tree {
        Tree::List(items) => add_within_items(items, found),
        Tree::Object(members) => add_within_members(members, found),
        Tree::Null | Tree::Bool(_) | Tree::Number(_) | Tree::Words(_) => Ok(()),
    }
}

/// The same of the items of an array.
#[cycle(within)]
fn add_within_items<'t>(items: &'t Trees, found: &mut Vec<&'t Tree>) -> Result<(), OutOfMemory>
    ensures { OnOk result (seen found.new.items ≡ seen found.old.items ++ within_items items.now) }
{
    for item in items.as_slice() {
        add_within(item, found)?;
    }
    Ok(())
}

/// The same of the members of an object.
#[cycle(within)]
fn add_within_members<'t>(
    members: &'t Members,
    found: &mut Vec<&'t Tree>,
) -> Result<(), OutOfMemory>
    ensures { OnOk result (seen found.new.items ≡ seen found.old.items ++ within_members members.now) }
{
    for member in members.as_slice() {
        add_within(&member.value, found)?;
    }
    Ok(())
}
