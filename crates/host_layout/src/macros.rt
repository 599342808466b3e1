//! User macros of a host.

ghost use Rattle.std.specs.Prelude.{◌≡◌, ◌++◌, flat_map, map, OnOk, IfOk};
ghost use Rattle.host_layout.specs.Macros.{macros_in};
ghost use Rattle.host_layout.specs.Sources.{placed_of};
ghost use Rattle.macro_text.specs.Index.{macro_now};

use crate::templates::sources::Source;
use config_read::{RawConf, RawMacro};
use macro_text::{MacroIndex, MacroRef, Macros};
use std::alloc::Global;
use zbx_types::{Many, OutOfMemory};

fn add<'r>(macros: &'r [RawMacro], made: &mut Many<MacroRef<'r>>) -> Result<(), OutOfMemory>
    ensures { OnOk result (map macro_now made.new ≡ map macro_now made.old ++ macros_in macros.now) }
{
    for raw in macros {
        made.push(MacroRef {
            name: &raw.name,
            value: &raw.value,
        })?;
    }
    Ok(())
}

/// The global macros of a document.
pub(crate) fn global_macros(alloc: Global, raw: &RawConf) -> Result<MacroIndex<'_>, OutOfMemory>
    ensures { IfOk result (λ made. made ≡ macros_in raw.now.macros) }
{
    let mut made = Many::new(alloc);
    add(raw.macros.as_slice(), &mut made)?;
    MacroIndex::of(alloc, made)
}

/// The macros of a host's sources, in their order.
fn source_macros<'r>(
    alloc: Global,
    sources: &Many<Source<'r>>,
) -> Result<MacroIndex<'r>, OutOfMemory>
    ensures { IfOk result (λ made. made ≡ flat_map (λ s. macros_in s.body.macros) (map placed_of sources.now)) }
{
    let mut made = Many::new(alloc);
    for source in sources.as_slice() {
        add(source.body.macros.as_slice(), &mut made)?;
    }
    MacroIndex::of(alloc, made)
}

/// The macros of a host's sources in their order, and behind them the global ones.
pub(crate) fn macros<'r, 'g>(
    alloc: Global,
    global: &'g MacroIndex<'r>,
    sources: &Many<Source<'r>>,
) -> Result<Macros<'r, 'g>, OutOfMemory>
    ensures { IfOk result (λ made. made ≡ flat_map (λ s. macros_in s.body.macros) (map placed_of sources.now) ++ global.now) }
{
    let near = source_macros(alloc, sources)?;
    Ok(Macros::new(near, global))
}
