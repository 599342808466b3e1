//! Templates: their names, the links to them, and what of them a host has.

pub(crate) mod cycles;
pub(crate) mod links;
pub(crate) mod names;
pub(crate) mod ranks;
pub(crate) mod sources;
