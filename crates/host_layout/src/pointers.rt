//! JSON pointers (RFC 6901). They are made on a refusal, and not before.

ghost use Rattle.std.specs.Prelude.{◌≡◌, ◌++◌, IfOk, codes};
ghost use Rattle.std.specs.Fmt.{decimal};
ghost use Rattle.host_layout.specs.Sources.{list_path};

use crate::templates::sources::Origin;
use json_form::element;
use std::alloc::Global;
use std::convert::AsStr;
use zbx_types::{OutOfMemory, Text};

/// The pointer to the list of hosts, or to that of templates.
pub(crate) fn list_pointer(origin: Origin) -> &'static str
    ensures { result.now ≡ list_path origin }
{
    match origin {
        Origin::Host => "/hosts",
        Origin::Template => "/templates",
    }
}

/// The pointer to the name of a template, by its place among those of the host or template at a place.
pub(crate) fn link_pointer(
    alloc: Global,
    origin: Origin,
    place: usize,
    at: usize,
) -> Result<Text, OutOfMemory>
    ensures { IfOk result (λ t. t ≡ list_path origin ++ codes "/" ++ decimal place ++ codes "/templates" ++ codes "/" ++ decimal at) }
{
    let mut list = element(alloc, list_pointer(origin), place)?;
    list.push_str("/templates")?;
    element(alloc, list.as_str(), at)
}
