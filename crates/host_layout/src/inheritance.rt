//! What hosts inherit by.

ghost use Rattle.std.specs.Prelude.{◌≡◌, None, IfOk, IfErr, OnOk};
ghost use Rattle.host_layout.specs.Answers.{Tells};
ghost use Rattle.host_layout.specs.Inherited.{Inherits};
ghost use Rattle.host_layout.specs.Links.{unknown_links, cycles};
ghost use Rattle.host_layout.specs.Linked.{link_faults};

use crate::fault::FlatError;
use crate::macros::global_macros;
use crate::templates::links::Links;
use config_read::RawConf;
use macro_text::MacroIndex;
use std::alloc::Global;

/// The links of a document, and the macros that count for all of its hosts. Both are made once.
#[derive(Drop)]
pub struct Inheritance<'r> {
    pub links: Links,
    pub macros: MacroIndex<'r>,
}

impl<'r> Inheritance<'r> {
    /// What the hosts of a document inherit by.
    ///
    /// # Errors
    ///
    /// Those of [`Links::of`].
    pub fn of(alloc: Global, raw: &'r RawConf) -> Result<Inheritance<'r>, FlatError>
        ensures made { IfOk result (λ made. Inherits raw.now made) }
        ensures known { OnOk result (unknown_links raw.now ≡ None) }
        ensures acyclic { OnOk result (cycles raw.now ≡ None) }
        ensures refused { IfErr result (λ e. Tells e (link_faults raw.now)) }
    {
        let links = Links::of(alloc, raw)?;
        let macros = global_macros(alloc, raw)?;
        Ok(Inheritance { links, macros })
    }
}
