//! The members of an object, and their names.

ghost use Rattle.std.specs.Prelude.{◌≡◌, IfOk, OnOk, IsTrue, Some};
ghost use Rattle.std.specs.BTreeMap.{Updates};
ghost use Rattle.std.specs.Cmp.Lexicographic.{slice_cmp};
ghost use Rattle.std.specs.List.{list_any};
ghost use Rattle.std.specs.Ordering.{nat_cmp};
ghost use Rattle.std.specs.Str.{bytes_eq};
ghost use Rattle.json_text.specs.Json.{no_members, put};
ghost use Rattle.json_text.specs.Naming.{Finds, put_all};
ghost use Rattle.json_text.specs.Trees.{json_of, members_of};

use crate::frame::Read;
use crate::tree::{Member, Members};
use std::alloc::Global;
use std::collections::BTreeMap;
use std::marker::Model;
use std::mem::replace;
use zbx_types::{OutOfMemory, Text};

/// The most members whose names are compared with each other.
const FEW: usize = 16;

/// The members of an object so far, as they came. Contracts see what they make: a repeated name has the later value in
/// the earlier place.
#[derive(Drop)]
pub(crate) struct Fields {
    pairs: Vec<Member>,
}

impl Model for Fields {
    ghost use Rattle.json_text.specs.Json.{Members, no_members};
    ghost use Rattle.json_text.specs.JsonCode.{members_code};

    ghost Value = { Members };

    ghost coded = { members_code };

    ghost use Rattle.json_text.specs.Naming.{put_all};

    ghost view = { λ f. put_all no_members f.pairs.items };
}

/// Whether a member has this name.
fn has(members: &[Member], name: &Text) -> bool
    ensures { result ≡ list_any (λ m. bytes_eq name.now m.name) members.now }
{
    members.iter().any(|member| *name == member.name)
}

/// Whether each name comes once.
fn are_distinct(pairs: &[Member]) -> bool
    ensures { IsTrue result → put_all no_members pairs.now ≡ members_of pairs.now }
{
    let mut count = 0;
    for pair in pairs {
        if has(&pairs[..count], &pair.name) {
            return false;
        }
        count += 1;
    }
    true
}

/// Notes the place of a name.
fn note(
    alloc: Global,
    places: &mut BTreeMap<Text, usize>,
    name: &Text,
    place: usize,
) -> Result<(), OutOfMemory>
    ensures { OnOk result (Updates (slice_cmp nat_cmp) places.old places.new name.now (Some place)) }
{
    places.insert(name.copy(alloc)?, place)?;
    Ok(())
}

/// Puts a member among others, whose places are known by their names.
fn put_member(
    alloc: Global,
    members: &mut Vec<Member>,
    places: &mut BTreeMap<Text, usize>,
    pair: Member,
) -> Result<(), OutOfMemory>
    requires { Finds places.old members.old.items }
    ensures puts { OnOk result (members_of members.new.items
        ≡ put pair.name (json_of pair.value) (members_of members.old.items)) }
    ensures finds { OnOk result (Finds places.new members.new.items) }
{
    let found = places.get(&pair.name).copied();
    match found {
        Some(place) => {
            drop(replace(&mut members[place].value, pair.value));
            Ok(())
        }
        None => match note(alloc, places, &pair.name, members.len()) {
            Ok(()) => {
                members.push(pair)?;
                Ok(())
            }
            Err(OutOfMemory) => {
                drop(pair);
                Err(OutOfMemory)
            }
        },
    }
}

/// The members that these make, in order.
fn merged(alloc: Global, pairs: Vec<Member>) -> Result<Members, OutOfMemory>
    ensures { IfOk result (λ members. members ≡ put_all no_members pairs.items) }
{
    let mut members = Vec::with_capacity(alloc, pairs.len())?;
    let mut places = BTreeMap::new(alloc);
    for pair in pairs {
        put_member(alloc, &mut members, &mut places, pair)?;
    }
    Ok(Members::from_vec(members))
}

impl Fields {
    pub(crate) fn new(alloc: Global) -> Fields
        ensures { result ≡ no_members }
    {
        Fields {
            pairs: Vec::new(alloc),
        }
    }

    /// The members with one more, in the place of the first of its name if there is one.
    #[inline(always)]
    pub(crate) fn put(self, name: Text, value: Read) -> Result<Fields, OutOfMemory>
        ensures { IfOk result (λ fields. fields ≡ put name value self) }
    {
        let mut pairs = self.pairs;
        pairs.push(Member {
            name,
            value: value.into_tree(),
        })?;
        Ok(Fields { pairs })
    }

    /// The members, in order, in a time that grows as n log n with their number.
    pub(crate) fn into_members(self, alloc: Global) -> Result<Members, OutOfMemory>
        ensures { IfOk result (λ members. members ≡ self) }
    {
        if self.pairs.len() <= FEW && are_distinct(self.pairs.as_slice()) {
            Ok(Members::from_vec(self.pairs))
        } else {
            merged(alloc, self.pairs)
        }
    }
}
