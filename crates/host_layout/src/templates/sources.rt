//! Where the items, triggers and macros of a host come from.

use config_read::RawHost;

/// Whether a source is the host itself or a template of its walk.
#[derive(Clone, Copy, Debug, PartialEq, Eq)]
pub enum Origin {
    /// It is the host.
    Host,
    /// It is a template.
    Template,
}

/// A host or a template of the document: in which list it stands, at which place, counted from 0, and what it is.
#[derive(Clone, Copy)]
pub struct Source<'r> {
    pub origin: Origin,
    pub place: usize,
    pub body: &'r RawHost,
}
