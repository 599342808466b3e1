//! Members of triggers.

ghost use Rattle.host_layout.specs.Elements.{IsRefusal};
ghost use Rattle.config_templates.specs.Meanings.{member_path};

use host_layout::{FlatError, Source, refused_member};
use std::alloc::Global;
use zbx_types::Cause;

/// A member of a trigger of a host or a template. It is named with its `/`.
#[derive(Clone, Copy)]
pub(crate) struct Member<'s, 'r> {
    pub source: &'s Source<'r>,
    pub index: usize,
    pub name: &'s str,
}

impl Member<'_, '_> {
    /// Its refusal.
    pub(crate) fn refused(&self, alloc: Global, cause: Cause) -> FlatError
        ensures { IsRefusal (member_path self.now) cause result }
    {
        refused_member(
            alloc,
            self.source,
            "/triggers",
            self.index,
            self.name,
            cause,
        )
    }
}
