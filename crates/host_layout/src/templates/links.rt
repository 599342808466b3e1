//! The links between templates, and from hosts to templates.

ghost use Rattle.std.specs.Prelude.{◌≡◌, ◌∷◌, [], Some, None, map, length, ◌<◌, slice_get, IfOk, IfErr, IfSome, OnOk};
ghost use Rattle.host_layout.specs.Answers.{Tells};
ghost use Rattle.host_layout.specs.Places.{placed, first_fault};
ghost use Rattle.host_layout.specs.Links.{templates_named, unknown_link, placed_links, unknown_links, cycles, placed_hosts, sources_of};
ghost use Rattle.host_layout.specs.Sources.{list_path, placed_of, link_fault};
ghost use Rattle.host_layout.specs.Linked.{HasLinks, link_faults};

use crate::fault::FlatError;
use crate::pointers::link_pointer;
use crate::templates::cycles::acyclic;
use crate::templates::names::Names;
use crate::templates::sources::{Origin, Source};
use config_read::{RawConf, RawHost};
use dependency_graph::walk;
use std::alloc::Global;
use zbx_types::{Cause, Many, OutOfMemory};

/// The links of a document: for each template, and for each host, the places of its templates.
#[derive(Drop)]
pub struct Links {
    pub templates: Vec<Many<usize>>,
    pub hosts: Vec<Many<usize>>,
}

/// What is wrong with the link at a place among those of a source.
pub(crate) fn refused(alloc: Global, source: Source<'_>, at: usize, cause: Cause) -> FlatError
    ensures { Tells result (Some (link_fault source.entry at cause)) }
{
    match link_pointer(alloc, source.origin, source.place, at) {
        Ok(path) => FlatError::Refused { path, cause },
        Err(_) => FlatError::OutOfMemory,
    }
}

/// The places of a source's templates, or the first that isn't known.
fn linked(alloc: Global, names: &Names<'_>, source: Source<'_>) -> Result<Many<usize>, FlatError>
    ensures made { IfOk result (λ made. made ≡ templates_named names.now.templates.now source.entry.body.now.templates) }
    ensures known { OnOk result (first_fault (unknown_link names.now.templates.now) (placed_links (placed_of source.entry ∷ [])) ≡ None) }
    ensures refused { IfErr result (λ e. Tells e (first_fault (unknown_link names.now.templates.now) (placed_links (placed_of source.entry ∷ [])))) }
{
    let mut made = Many::new(alloc);
    for (at, name) in source.body.templates.as_slice().iter().enumerate() {
        match names.place(name) {
            Some(place) => made.push(place)?,
            None => return Err(refused(alloc, source, at, Cause::UnknownName)),
        }
    }
    Ok(made)
}

/// The places of the templates of each of some hosts or templates, or the first that isn't known.
fn all_linked(
    alloc: Global,
    names: &Names<'_>,
    origin: Origin,
    bodies: &[RawHost],
) -> Result<Vec<Many<usize>>, FlatError>
    ensures made { IfOk result (λ made. made.items ≡ map (λ b. templates_named names.now.templates.now b.templates) bodies.now) }
    ensures known { OnOk result (first_fault (unknown_link names.now.templates.now) (placed_links (placed (list_path origin) bodies.now)) ≡ None) }
    ensures refused { IfErr result (λ e. Tells e (first_fault (unknown_link names.now.templates.now) (placed_links (placed (list_path origin) bodies.now)))) }
{
    let mut made = Vec::new(alloc);
    for (place, body) in bodies.iter().enumerate() {
        let places = linked(
            alloc,
            names,
            Source {
                origin,
                place,
                body,
            },
        )?;
        made.push(places)?;
    }
    Ok(made)
}

impl Links {
    /// The links of a document, in time that grows with its length.
    ///
    /// # Errors
    ///
    /// `UnknownName` at the first link to a template that isn't there, those of templates before those of hosts; else
    /// `Cycle` at the first link of a template that leads back to it.
    pub(crate) fn of(alloc: Global, raw: &RawConf) -> Result<Links, FlatError>
        ensures made { IfOk result (λ made. HasLinks raw.now made) }
        ensures known { OnOk result (unknown_links raw.now ≡ None) }
        ensures acyclic { OnOk result (cycles raw.now ≡ None) }
        ensures refused { IfErr result (λ e. Tells e (link_faults raw.now)) }
    {
        let names = Names::of(alloc, raw.templates.as_slice())?;
        let templates = all_linked(alloc, &names, Origin::Template, raw.templates.as_slice())?;
        let hosts = all_linked(alloc, &names, Origin::Host, raw.hosts.as_slice())?;
        acyclic(alloc, &names, &templates)?;
        Ok(Links { templates, hosts })
    }
}

/// A host and the templates of its walk, in their order: where its items, triggers and macros come from.
pub fn sources<'r>(
    alloc: Global,
    raw: &'r RawConf,
    links: &Links,
    host: usize,
) -> Result<Many<Source<'r>>, OutOfMemory>
    requires host { host < length raw.now.hosts }
    requires links { HasLinks raw.now links.now }
    ensures { IfOk result (λ made. IfSome (slice_get (placed_hosts raw.now) host) (λ placed. map placed_of made ≡ sources_of raw.now placed)) }
{
    let mut made = Many::new(alloc);
    made.push(Source {
        origin: Origin::Host,
        place: host,
        body: &raw.hosts.as_slice()[host],
    })?;
    let templates = walk(alloc, &links.templates, links.hosts[host].as_slice())?;
    for place in templates.as_slice() {
        made.push(Source {
            origin: Origin::Template,
            place: *place,
            body: &raw.templates.as_slice()[*place],
        })?;
    }
    Ok(made)
}
