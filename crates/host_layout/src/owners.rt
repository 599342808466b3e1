//! Hosts with all that they inherit from.

ghost use Rattle.std.specs.Prelude.{◌≡◌, ◌<◌, map, Some, slice_get, IfOk, length};
ghost use Rattle.host_layout.specs.Elements.{placed_host};
ghost use Rattle.host_layout.specs.Hosts.{owner_of};
ghost use Rattle.host_layout.specs.Inherited.{Inherits};
ghost use Rattle.host_layout.specs.Links.{placed_hosts};
ghost use Rattle.host_layout.specs.Macros.{macros_of};
ghost use Rattle.host_layout.specs.Owners.{sources_now, owner_now, KnowsHosts, KnowsSources};
ghost use Rattle.host_layout.specs.Sources.{placed_of};

use crate::firsts::FirstPlaces;
use crate::held::beside;
use crate::inheritance::Inheritance;
use crate::macros::macros;
use crate::templates::links::sources;
use crate::templates::sources::Source;
use config_read::{RawConf, RawHost};
use macro_text::Macros;
use std::alloc::Global;
use zbx_types::{Many, OutOfMemory, Text, id_of};

/// A host whose items or triggers are read.
#[derive(Drop)]
pub struct Owner<'r, 'g> {
    /// Its id.
    pub id: u32,
    /// Its name.
    pub name: &'r Text,
    /// The host and the templates of its walk.
    pub sources: Many<Source<'r>>,
    /// Their macros, and the global ones.
    pub macros: Macros<'r, 'g>,
    /// Where their names stand.
    pub names: FirstPlaces,
}

/// The places of the hosts' names.
pub fn host_names(alloc: Global, hosts: &Many<RawHost>) -> Result<FirstPlaces, OutOfMemory>
    ensures { IfOk result (λ names. KnowsHosts names hosts.now) }
{
    let mut names = FirstPlaces::new(alloc);
    for (place, host) in hosts.as_slice().iter().enumerate() {
        names.add(alloc, host.name.as_bytes(), place)?;
    }
    Ok(names)
}

fn source_names(alloc: Global, sources: &Many<Source<'_>>) -> Result<FirstPlaces, OutOfMemory>
    ensures { IfOk result (λ names. KnowsSources names (map placed_of sources.now)) }
{
    let mut names = FirstPlaces::new(alloc);
    for (place, source) in sources.as_slice().iter().enumerate() {
        names.add(alloc, source.body.name.as_bytes(), place)?;
    }
    Ok(names)
}

/// The host that stands at this place, counted from 0, with its sources and their macros.
pub fn owner_at<'r, 'g>(
    alloc: Global,
    raw: &'r RawConf,
    inheritance: &'g Inheritance<'r>,
    place: usize,
    host: &'r RawHost,
) -> Result<Owner<'r, 'g>, OutOfMemory>
    requires place { place < length raw.now.hosts }
    requires there { slice_get (placed_hosts raw.now) place ≡ Some (placed_host place host.now) }
    requires inheritance { Inherits raw.now inheritance.now }
    ensures owner { IfOk result (λ o. owner_now o ≡ owner_of raw.now (placed_host place host.now)) }
    ensures macros { IfOk result (λ o. o.macros ≡ macros_of raw.now (sources_now o)) }
    ensures names { IfOk result (λ o. KnowsSources o.names (sources_now o)) }
{
    let id = id_of(place)?;
    let sources = sources(alloc, raw, &inheritance.links, place)?;
    let macros = macros(alloc, &inheritance.macros, &sources);
    let (macros, sources) = beside(macros, sources)?;
    let names = source_names(alloc, &sources);
    let (names, (sources, macros)) = beside(names, (sources, macros))?;
    Ok(Owner {
        id,
        name: &host.name,
        sources,
        macros,
        names,
    })
}
