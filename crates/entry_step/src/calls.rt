//! The calls of a trigger.

use crate::occasions::Occasion;
use conf_index::Ready;
use preprocess::Draft;
use value_cache::{Cache, ItemCell};
use zbx_types::Trigger;

/// What triggers are evaluated over on an occasion: the cells of the items, the cache in which their values stand, and
/// maybe the values that are still to come.
#[derive(Clone, Copy)]
pub(crate) struct Scene<'a> {
    pub(crate) ready: &'a Ready,
    pub(crate) cache: &'a Cache,
    pub(crate) items: &'a [ItemCell],
    pub(crate) coming: &'a Option<Draft>,
    pub(crate) occasion: Occasion,
}

/// The calls of a trigger, over the same.
#[derive(Clone, Copy)]
pub(crate) struct Calls<'a> {
    pub(crate) ready: &'a Ready,
    pub(crate) cache: &'a Cache,
    pub(crate) items: &'a [ItemCell],
    pub(crate) coming: &'a Option<Draft>,
    pub(crate) occasion: Occasion,
    pub(crate) id: u32,
    pub(crate) trigger: &'a Trigger,
}
