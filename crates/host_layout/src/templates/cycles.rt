//! Links of templates that lead back to them.

ghost use Rattle.std.specs.Prelude.{◌≡◌, ◌∷◌, [], nat_eq, Some, None, IfOk, IfErr, OnOk, codes};
ghost use Rattle.std.specs.List.{list_any};
ghost use Rattle.host_layout.specs.Answers.{Tells};
ghost use Rattle.host_layout.specs.Places.{placed, first_fault};
ghost use Rattle.host_layout.specs.Links.{links_of, templates_named, cycle_link, placed_links};
ghost use Rattle.host_layout.specs.Sources.{placed_of};
ghost use Rattle.dependency_graph.specs.Walks.{walk};

use crate::fault::FlatError;
use crate::templates::links::refused;
use crate::templates::names::Names;
use crate::templates::ranks::{falls, ranks_of};
use crate::templates::sources::{Origin, Source};
use dependency_graph::walk;
use std::alloc::Global;
use zbx_types::{Cause, Many, OutOfMemory, Text};

/// Whether the template with a name leads to the template at a place.
fn leads_to(
    alloc: Global,
    names: &Names<'_>,
    links: &[Many<usize>],
    name: &Text,
    place: usize,
) -> Result<bool, OutOfMemory>
    requires { links.now ≡ links_of names.now.templates.now }
    ensures { IfOk result (λ leads. leads ≡ list_any (nat_eq place) (walk (links_of names.now.templates.now) (templates_named names.now.templates.now (name.now ∷ [])))) }
{
    match names.place(name) {
        None => Ok(false),
        Some(first) => Ok(walk(alloc, links, &[first])?.as_slice().contains(&place)),
    }
}

/// Refuses the first link of a template that leads back to it.
fn leads_on(
    alloc: Global,
    names: &Names<'_>,
    links: &[Many<usize>],
    source: Source<'_>,
) -> Result<(), FlatError>
    requires { links.now ≡ links_of names.now.templates.now }
    ensures none { OnOk result (first_fault (cycle_link names.now.templates.now) (placed_links (placed_of source.entry ∷ [])) ≡ None) }
    ensures refused { IfErr result (λ e. Tells e (first_fault (cycle_link names.now.templates.now) (placed_links (placed_of source.entry ∷ [])))) }
{
    for (at, name) in source.body.templates.as_slice().iter().enumerate() {
        if leads_to(alloc, names, links, name, source.place)? {
            return Err(refused(alloc, source, at, Cause::Cycle));
        }
    }
    Ok(())
}

/// Refuses the first link of the templates that lies on a cycle, by a walk from each link.
fn first_on_cycle(alloc: Global, names: &Names<'_>, links: &[Many<usize>]) -> Result<(), FlatError>
    requires { links.now ≡ links_of names.now.templates.now }
    ensures none { OnOk result (first_fault (cycle_link names.now.templates.now) (placed_links (placed (codes "/templates") names.now.templates.now)) ≡ None) }
    ensures refused { IfErr result (λ e. Tells e (first_fault (cycle_link names.now.templates.now) (placed_links (placed (codes "/templates") names.now.templates.now)))) }
{
    for (place, body) in names.templates.iter().enumerate() {
        let source = Source {
            origin: Origin::Template,
            place,
            body,
        };
        leads_on(alloc, names, links, source)?;
    }
    Ok(())
}

/// Refuses the first link of the templates that lies on a cycle. Where none does, this takes one pass over the links.
pub(crate) fn acyclic(
    alloc: Global,
    names: &Names<'_>,
    links: &[Many<usize>],
) -> Result<(), FlatError>
    requires { links.now ≡ links_of names.now.templates.now }
    ensures none { OnOk result (first_fault (cycle_link names.now.templates.now) (placed_links (placed (codes "/templates") names.now.templates.now)) ≡ None) }
    ensures refused { IfErr result (λ e. Tells e (first_fault (cycle_link names.now.templates.now) (placed_links (placed (codes "/templates") names.now.templates.now)))) }
{
    let ranks = ranks_of(alloc, links)?;
    if falls(links, &ranks) {
        return Ok(());
    }
    first_on_cycle(alloc, names, links)
}
