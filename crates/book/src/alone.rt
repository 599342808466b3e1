//! All entries are worked out by one thread, whose steps nobody reads.

ghost use Rattle.std.specs.Prelude.{◌≡◌, ◌<◌, length, OnOk};
ghost use Rattle.book.specs.Book.{AreApplied, StayApplied};

use crate::progress::Progress;
use book_opening::StartName;
use conf_index::Ready;
use entry_step::Steps;
use std::alloc::Global;
use std::marker::Brand;
use std::sync::ledger::{Blank, Ledger};
use zbx_types::OutOfMemory;

/// Works all entries out, and counts the steps in a ledger of their own.
fn work_uncounted<S: StartName, L: Ledger>(
    alloc: Global,
    ready: &Ready,
    progress: &mut Progress<S>,
    blank: Blank,
) -> Result<(), OutOfMemory>
    requires conf { ready.now ≡ S.start.stage }
    requires name { blank.name ≡ L.name }
    requires parts { blank.parts ≡ L.parts }
    requires some { 0 < L.parts }
    ensures entries { progress.new.entries ≡ progress.old.entries }
    ensures all { OnOk result (AreApplied progress.new.gate.marks (length progress.new.entries)) }
    ensures keeps { StayApplied progress.old.gate.marks progress.new.gate.marks }
{
    let mut steps = Steps::<L>::new(blank);
    progress.work_all(alloc, ready, &mut steps)
}

/// Ends all open batches, and works all entries out. At `Err` some of them are worked out.
pub(crate) fn work_all<S: StartName>(
    alloc: Global,
    ready: &Ready,
    progress: &mut Progress<S>,
) -> Result<(), OutOfMemory>
    requires conf { ready.now ≡ S.start.stage }
    ensures entries { progress.new.entries ≡ progress.old.entries }
    ensures all { OnOk result (AreApplied progress.new.gate.marks (length progress.new.entries)) }
    ensures keeps { StayApplied progress.old.gate.marks progress.new.gate.marks }
{
    work_uncounted::<S, Brand>(alloc, ready, progress, Blank::new(1))
}
