//! A journal is read for a call that adds nothing to it.

ghost use Rattle.std.specs.Prelude.{◌≡◌, map, IfOk, IfErr};
ghost use Rattle.entry_laws.specs.InForce.{texts_on};
ghost use Rattle.book_opening.specs.Opening.{run_epochs};
ghost use Rattle.journal_opening.specs.Recovered.{GoesOn};
ghost use Rattle.journal_opening.specs.Replayed.{flat};
ghost use Rattle.journal_opening.specs.Resumed.{IsTakenUp};
ghost use Rattle.journal_opening.specs.Unkept.{IsUnkept};

use crate::epochs::ready_all;
use crate::resuming::{Refused, accepted};
use conf_index::Ready;
use intake_journal::Journal;
use outside::Disk;
use server_words::Status;
use std::alloc::Global;
use zbx_types::{Many, Numbered};

/// A journal that was read to its end, whose entries are those of a run (this project's own).
#[derive(Drop)]
pub struct Kept<D: Disk> {
    /// The journal, ready for more.
    pub journal: Journal<D>,
    /// Its entries behind its base, in the order of their numbers.
    pub entries: Many<Numbered>,
    /// The configurations of the base, where it has one, and of the Configs among the entries, in their order, each made
    /// ready.
    pub epochs: Vec<Ready>,
}

/// Opens the journal on a disk, which is to have at most so many entries behind its base, and reads what it kept, with all
/// its configurations made ready. A file of at most 9 bytes is made anew, as a journal of no base and no group; nothing else
/// is added.
///
/// # Errors
///
/// The disk comes back with one of these statuses: `NotOurs`, `Unfinished` and `Damaged` as with
/// [`resume`](crate::resume); `PatternRefused` or `PatternTooLarge` where a pattern of a kept configuration isn't taken, with
/// its path; `DiskFault` where the disk failed; `OutOfMemory` where memory was refused.
#[tactic(auto, using(crate::proofs::ReadJournals::taken_texts, crate::proofs::ReadJournals::kept_epochs, crate::proofs::ReadJournals::unkept_pattern))]
pub fn read_kept<D: Disk>(alloc: Global, disk: D, max_entries: u64) -> Result<Kept<D>, (D, Status)>
    ensures ok { IfOk result (λ made. IsTakenUp D.tells max_entries disk made.journal made.entries
        (map flat (texts_on made.journal.base.text made.entries))) }
    ensures epochs { IfOk result (λ made. made.epochs.items ≡ run_epochs flat made.journal.base made.entries) }
    ensures back { IfErr result (λ why. GoesOn (D.tells disk) (D.tells why.0)) }
    ensures why { IfErr result (λ why. IsUnkept (D.tells disk) (D.tells why.0) why.1) }
{
    let (journal, entries, confs) = match accepted(alloc, disk, max_entries) {
        Ok(taken) => taken,
        Err(refused) => {
            let Refused {
                status,
                disk,
                entries: _,
            } = refused;
            return Err((disk, status));
        }
    };
    match ready_all(alloc, confs) {
        Ok(epochs) => Ok(Kept {
            journal,
            entries,
            epochs,
        }),
        Err(status) => Err((journal.end(), status)),
    }
}
