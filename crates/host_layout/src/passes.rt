//! Passes over the items of all hosts, as the document has them.

ghost use Rattle.std.specs.Prelude.{◌≡◌, ◌<◌, length, map, Some, slice_get, Result};
ghost use Rattle.host_layout.specs.Answers.{GivesAs};
ghost use Rattle.host_layout.specs.Elements.{placed_item, placed_host, own_items};
ghost use Rattle.host_layout.specs.Inherited.{Inherits};
ghost use Rattle.host_layout.specs.Links.{placed_hosts};
ghost use Rattle.host_layout.specs.OwnedItems.{OwnedItem, owned, owned_by, host_items, owned_items};
ghost use Rattle.host_layout.specs.Owners.{sources_now};
ghost use Rattle.host_layout.specs.Places.{Flaw, each_list};

use crate::fault::FlatError;
use crate::inheritance::Inheritance;
use crate::owners::{Owner, owner_at};
use crate::templates::sources::Source;
use config_read::{RawConf, RawHost, RawItem};
use std::alloc::Global;

/// A pass over items, each of which is looked at with what those before it left.
pub(crate) trait ItemPass {
    /// What an item leaves.
    type Past;

    /// What an item comes to, with what those before it left.
    ghost visits: { Self → Self.Past → OwnedItem → Result Self.Past Flaw };

    /// Looks at an item, or refuses it. `past` is then what it leaves.
    fn visit(
        &self,
        alloc: Global,
        past: &mut Self::Past,
        owner: &Owner<'_, '_>,
        source: &Source<'_>,
        index: usize,
        raw: &RawItem,
    ) -> Result<(), FlatError>
        ensures { GivesAs (λ _. past.new) result (visits self.now past.old (owned owner.now.id owner.now.macros (placed_item source.now index raw.now))) };
}

/// Looks at the items of a source.
fn visit_source<P: ItemPass>(
    alloc: Global,
    pass: &P,
    past: &mut P::Past,
    owner: &Owner<'_, '_>,
    source: &Source<'_>,
) -> Result<(), FlatError>
    ensures { GivesAs (λ _. past.new) result (each_list (P.visits pass.now) past.old (map (owned owner.now.id owner.now.macros) (own_items source.now))) }
{
    for (index, raw) in source.body.items.as_slice().iter().enumerate() {
        pass.visit(alloc, past, owner, source, index, raw)?;
    }
    Ok(())
}

/// Looks at the items of all sources of a host.
#[tactic(auto, using(crate::proofs::PassLemmas::source_then, crate::proofs::PassLemmas::source_fails))]
fn visit_owned<P: ItemPass>(
    alloc: Global,
    pass: &P,
    past: &mut P::Past,
    owner: &Owner<'_, '_>,
) -> Result<(), FlatError>
    ensures { GivesAs (λ _. past.new) result (each_list (P.visits pass.now) past.old (owned_by owner.now.id owner.now.macros (sources_now owner.now))) }
{
    for source in owner.sources.as_slice() {
        visit_source(alloc, pass, past, owner, source)?;
    }
    Ok(())
}

/// Looks at the items of the host that stands at this place.
fn visit_host<'r, P: ItemPass>(
    alloc: Global,
    raw: &'r RawConf,
    inheritance: &Inheritance<'r>,
    pass: &P,
    past: &mut P::Past,
    place: usize,
    host: &'r RawHost,
) -> Result<(), FlatError>
    requires place { place < length raw.now.hosts }
    requires there { slice_get (placed_hosts raw.now) place ≡ Some (placed_host place host.now) }
    requires inheritance { Inherits raw.now inheritance.now }
    ensures { GivesAs (λ _. past.new) result (each_list (P.visits pass.now) past.old (host_items raw.now (placed_host place host.now))) }
{
    let owner = owner_at(alloc, raw, inheritance, place, host)?;
    visit_owned(alloc, pass, past, &owner)
}

/// Looks at the items of all hosts, in the order of their ids, the first with `past`. Nothing is said of `past` after an
/// error.
#[tactic(auto, using(crate::proofs::PassLemmas::element_then, crate::proofs::PassLemmas::element_fails), unfolding(crate::specs::OwnedItems::owned_items))]
pub(crate) fn visit_items<'r, P: ItemPass>(
    alloc: Global,
    raw: &'r RawConf,
    inheritance: &Inheritance<'r>,
    pass: &P,
    past: &mut P::Past,
) -> Result<(), FlatError>
    requires { Inherits raw.now inheritance.now }
    ensures { GivesAs (λ _. past.new) result (each_list (P.visits pass.now) past.old (owned_items raw.now)) }
{
    for (place, host) in raw.hosts.as_slice().iter().enumerate() {
        visit_host(alloc, raw, inheritance, pass, past, place, host)?;
    }
    Ok(())
}
