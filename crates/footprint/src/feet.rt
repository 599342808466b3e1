//! Feet, and which entries conflict.

ghost use Rattle.std.specs.Prelude.{◌≡◌, true, IfOk};
ghost use Rattle.zbx_types.specs.Masters.{DepthsFall};
ghost use Rattle.footprint.specs.Feet.{feet_of, told_by};
ghost use Rattle.footprint.specs.Rows.{rises};
ghost use Rattle.footprint.specs.Conflict.{feet_meet, conflict_by};

use crate::meeting::meet;
use crate::rows::row_at;
use crate::tables::{foot_items, foot_marks, foot_triggers, what_hangs};
use std::alloc::Global;
use std::marker::Model;
use zbx_types::{Conf, Entry, Many, OutOfMemory};

/// The feet of a configuration's items: for each item what the work on one of its values may read or change. Contracts
/// see its tables, and read them by `told_by`: four functions from ids of items to rising ids.
#[derive(Drop)]
pub struct Feet {
    items: Vec<Many<u32>>,
    triggers: Vec<Many<u32>>,
    marks: Vec<Many<u32>>,
    met_marks: Vec<Many<u32>>,
}

impl Model for Feet {
    ghost use Rattle.footprint.specs.Feet.{FootTables};
    ghost use Rattle.footprint.specs.Rows.{RowsRise};

    ghost Value = { FootTables };

    ghost view = { λ f. record { items = f.items.items; triggers = f.triggers.items; marks = f.marks.items; met_marks = f.met_marks.items } };

    ghost invariant = { λ f. RowsRise f.items.items × RowsRise f.triggers.items × RowsRise f.marks.items × RowsRise f.met_marks.items };
}

impl Feet {
    /// The feet of a configuration's items. [`OutOfMemory`] where there is no room for them.
    ///
    /// Each trigger that one depends on must have a smaller depth, as a configuration without cycles has it. It takes
    /// time nearly linear in the sum of the feet, and for each trigger with dependencies linear in the triggers.
    pub fn build(alloc: Global, conf: &Conf) -> Result<Feet, OutOfMemory>
        requires { DepthsFall conf.now }
        ensures { IfOk result (λ feet. told_by feet ≡ feet_of conf.now) }
    {
        let hanging = what_hangs(alloc, conf)?;
        let items = foot_items(alloc, conf, &hanging)?;
        let triggers = foot_triggers(alloc, conf, hanging.over.as_slice())?;
        let marks = foot_marks(alloc, conf, triggers.as_slice())?;
        Ok(Feet {
            items,
            triggers,
            marks: marks.own,
            met_marks: marks.met,
        })
    }

    /// The items of an item's foot, rising: the item, its dependents, and the items of the triggers over these. None
    /// where there is no such item.
    pub fn items(&self, item: u32) -> &[u32]
        ensures row { result.now ≡ (told_by self.now).items item }
        ensures rising { rises result.now ≡ true }
    {
        row_at(self.items.as_slice(), item)
    }

    /// The triggers of an item's foot, rising: those over the item and its dependents, and all masters of those.
    pub fn triggers(&self, item: u32) -> &[u32]
        ensures row { result.now ≡ (told_by self.now).triggers item }
        ensures rising { rises result.now ≡ true }
    {
        row_at(self.triggers.as_slice(), item)
    }

    /// The marks of an item's foot, rising: the rules whose reach holds one of its triggers, counted from 1.
    pub fn marks(&self, item: u32) -> &[u32]
        ensures row { result.now ≡ (told_by self.now).marks item }
        ensures rising { rises result.now ≡ true }
    {
        row_at(self.marks.as_slice(), item)
    }

    /// The rules whose marks an item's foot meets, rising: those that share a trigger with one of its marks.
    pub fn met_marks(&self, item: u32) -> &[u32]
        ensures row { result.now ≡ (told_by self.now).met_marks item }
        ensures rising { rises result.now ≡ true }
    {
        row_at(self.met_marks.as_slice(), item)
    }

    /// Whether the feet of values of two items meet: the items are the same, or an item, a trigger or a mark of the one
    /// is one that the other's foot has or meets. Takes no memory; the time of a walk over both feet.
    pub fn meet(&self, a: u32, b: u32) -> bool
        ensures { result ≡ feet_meet (told_by self.now) a b }
    {
        a == b
            || meet(self.items(a), self.items(b))
            || meet(self.triggers(a), self.triggers(b))
            || meet(self.marks(a), self.met_marks(b))
    }

    /// Whether two entries conflict: their feet meet. A Config and a Tick touch everything. Takes no memory.
    pub fn conflicts(&self, a: &Entry, b: &Entry) -> bool
        ensures { result ≡ conflict_by (told_by self.now) a.now b.now }
    {
        match (a, b) {
            (Entry::Value { item, .. }, Entry::Value { item: other, .. }) => self.meet(
                *item, *other,
            ),
            _ => true,
        }
    }
}
