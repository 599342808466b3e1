//! Refusals of elements and of their members.

ghost use Rattle.std.specs.Prelude.{◌≡◌, ◌++◌, IfOk};
ghost use Rattle.host_layout.specs.Elements.{element_path, IsRefusal};

use crate::fault::FlatError;
use crate::pointers::list_pointer;
use crate::templates::sources::Source;
use json_form::element;
use std::alloc::Global;
use std::convert::AsStr;
use zbx_types::{Cause, OutOfMemory, Text};

/// The pointer to an element of a list of a host or a template, by its place, counted from 0. The list is named with its `/`.
pub fn element_pointer(
    alloc: Global,
    source: &Source<'_>,
    list: &str,
    index: usize,
) -> Result<Text, OutOfMemory>
    ensures { IfOk result (λ t. t ≡ element_path source.now list.now index) }
{
    let mut path = element(alloc, list_pointer(source.origin), source.place)?;
    path.push_str(list)?;
    element(alloc, path.as_str(), index)
}

/// The pointer to a member of such an element. The member is named with its `/`.
pub fn member_pointer(
    alloc: Global,
    source: &Source<'_>,
    list: &str,
    index: usize,
    member: &str,
) -> Result<Text, OutOfMemory>
    ensures { IfOk result (λ t. t ≡ element_path source.now list.now index ++ member.now) }
{
    let mut path = element_pointer(alloc, source, list, index)?;
    path.push_str(member)?;
    Ok(path)
}

/// The refusal of an element.
pub fn refused_element(
    alloc: Global,
    source: &Source<'_>,
    list: &str,
    index: usize,
    cause: Cause,
) -> FlatError
    ensures { IsRefusal (element_path source.now list.now index) cause result }
{
    match element_pointer(alloc, source, list, index) {
        Ok(path) => FlatError::Refused { path, cause },
        Err(OutOfMemory) => FlatError::OutOfMemory,
    }
}

/// The refusal of a member of an element.
pub fn refused_member(
    alloc: Global,
    source: &Source<'_>,
    list: &str,
    index: usize,
    member: &str,
    cause: Cause,
) -> FlatError
    ensures { IsRefusal (element_path source.now list.now index ++ member.now) cause result }
{
    match member_pointer(alloc, source, list, index, member) {
        Ok(path) => FlatError::Refused { path, cause },
        Err(OutOfMemory) => FlatError::OutOfMemory,
    }
}
