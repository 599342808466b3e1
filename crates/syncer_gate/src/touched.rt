//! What open and skipped entries touch.

ghost use Rattle.std.specs.Prelude.{◌≡◌, ◌==◌, ◌||◌, ◌&&◌, ℕ, not, false, OnOk};
ghost use Rattle.zbx_types.specs.Masters.{has_id};
ghost use Rattle.zbx_types.specs.declared.entries.Entry.{Entry};
ghost use Rattle.footprint.specs.Feet.{Footing, told_by};

use crate::stamps::Stamps;
use footprint::Feet;
use std::alloc::Global;
use zbx_types::{Entry, OutOfMemory};

/// What some entries touch.
#[derive(Drop)]
pub(crate) struct Touched {
    /// Whether there is such an entry.
    any: bool,
    /// Whether one of them is no value, and so touches everything.
    all: bool,
    /// Those of their items that aren't in their own foot, as they aren't there.
    lone: Vec<u32>,
    /// The items of their feet.
    items: Stamps,
    /// The triggers of their feet.
    triggers: Stamps,
    /// The rules whose marks are in their feet.
    marks: Stamps,
}

/// Adds an item to some where its own foot hasn't got it.
fn note_lone(lone: &mut Vec<u32>, foot: &[u32], item: u32) -> Result<(), OutOfMemory>
    ensures { OnOk result ((x : ℕ) → has_id lone.new.items x ≡ (has_id lone.old.items x || ((item == x) && not (has_id foot.now item)))) }
{
    if !foot.contains(&item) {
        lone.push(item)?;
    }
    Ok(())
}

impl Touched {
    ghost use Rattle.syncer_gate.specs.Stamped.{meets_value, meets, TouchesValue, Touches};

    /// What no entry touches.
    pub(crate) fn new(alloc: Global) -> Touched
        ensures { (feet : Footing) (e : Entry) → meets feet result e ≡ false }
    {
        Touched {
            any: false,
            all: false,
            lone: Vec::new(alloc),
            items: Stamps::new(alloc),
            triggers: Stamps::new(alloc),
            marks: Stamps::new(alloc),
        }
    }

    /// Forgets what was touched.
    pub(crate) fn clear(&mut self)
        ensures { (feet : Footing) (e : Entry) → meets feet self.new e ≡ false }
    {
        self.any = false;
        self.all = false;
        self.lone.clear();
        self.items.clear();
        self.triggers.clear();
        self.marks.clear();
    }

    /// Whether a value of an item touches something of it.
    fn meets_value(&self, feet: &Feet, item: u32) -> bool
        ensures { result ≡ meets_value (told_by feet.now) self.now item }
    {
        self.all
            || self.lone.contains(&item)
            || self.items.has_any(feet.items(item))
            || self.triggers.has_any(feet.triggers(item))
            || self.marks.has_any(feet.met_marks(item))
    }

    /// Whether an entry touches something of it.
    pub(crate) fn meets(&self, feet: &Feet, entry: &Entry) -> bool
        ensures { result ≡ meets (told_by feet.now) self.now entry.now }
    {
        match entry {
            Entry::Value { item, .. } => self.meets_value(feet, *item),
            Entry::Config { .. } | Entry::Tick { .. } => self.any,
        }
    }

    /// Adds what a value of an item touches.
    fn touch_value(&mut self, feet: &Feet, item: u32) -> Result<(), OutOfMemory>
        ensures { OnOk result (TouchesValue (told_by feet.now) self.old item self.new) }
    {
        self.any = true;
        note_lone(&mut self.lone, feet.items(item), item)?;
        self.items.set_all(feet.items(item))?;
        self.triggers.set_all(feet.triggers(item))?;
        self.marks.set_all(feet.marks(item))?;
        Ok(())
    }

    /// Adds what an entry touches.
    pub(crate) fn touch(&mut self, feet: &Feet, entry: &Entry) -> Result<(), OutOfMemory>
        ensures { OnOk result (Touches (told_by feet.now) self.old entry.now self.new) }
    {
        match entry {
            Entry::Value { item, .. } => self.touch_value(feet, *item),
            Entry::Config { .. } | Entry::Tick { .. } => {
                self.any = true;
                self.all = true;
                Ok(())
            }
        }
    }
}
