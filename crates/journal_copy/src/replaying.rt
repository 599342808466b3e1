//! From what a journal keeps to its state.

ghost use Rattle.std.specs.Prelude.{◌≡◌, IfOk};
ghost use Rattle.base_laws.specs.Grounds.{start_of};
ghost use Rattle.book_opening.specs.Opening.{IsReached, run_epochs};
ghost use Rattle.entry_laws.specs.InForce.{HasBegun};
ghost use Rattle.entry_step.specs.Log.{log_of};
ghost use Rattle.journal_opening.specs.Replayed.{flat};
ghost use Rattle.journal_copy.specs.State.{AreKept, counted, state_of};

use crate::placing::place_of;
use base_state::base_of;
use book_opening::{Reached, replay_kept};
use conf_index::Ready;
use std::alloc::Global;
use std::marker::Brand;
use zbx_types::{Base, Numbered, OutOfMemory};

/// The base of what entries on a base have left.
#[tactic(auto, using(crate::proofs::States::state_is))]
fn told(
    alloc: Global,
    base: &Base,
    entries: &[Numbered],
    reached: &Reached,
) -> Result<Base, OutOfMemory>
    requires kept { AreKept base.now entries.now }
    requires reached { IsReached flat base.now (log_of entries.now) reached.now }
    ensures { IfOk result (λ made. made ≡ counted (state_of base.entry.now entries.now)) }
{
    let first_tick = reached.present.cells.first_tick();
    let at = place_of(base, entries, first_tick, reached.tally.bytes);
    base_of(alloc, &reached.present.ready, &reached.present.cells, at)
}

/// The state that entries leave on a base: they are replayed, with their lines only counted. The configurations are that of
/// the base, where it has one, and those of the Configs among the entries.
pub(crate) fn state_of(
    alloc: Global,
    base: &Base,
    epochs: Vec<Ready>,
    entries: &[Numbered],
) -> Result<Base, OutOfMemory>
    requires kept { AreKept base.now entries.now }
    requires begun { HasBegun (start_of flat base.now) (log_of entries.now) }
    requires epochs { epochs.items ≡ run_epochs flat base.now entries.now }
    ensures { IfOk result (λ made. made ≡ counted (state_of base.entry.now entries.now)) }
{
    match replay_kept::<Brand>(alloc, base, epochs, entries) {
        Ok(reached) => {
            let made = told(alloc, base, entries, &reached);
            drop(reached);
            made
        }
        Err(OutOfMemory) => Err(OutOfMemory),
    }
}
