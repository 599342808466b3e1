//! A journal is opened, and all its groups are read, of which one at a time is held.

ghost use Rattle.std.specs.Prelude.{◌≡◌, ◌≤◌, ◌⊎◌, [], IfOk, IfErr};
ghost use Rattle.zbx_types.specs.Bases.{empty_base};
ghost use Rattle.intake_journal.specs.Kept.{longest_journal};
ghost use Rattle.gated_file.specs.Moments.{IsAsBefore};
ghost use Rattle.intake_journal.specs.declared.state.State.TheVariants.{Reading};
ghost use Rattle.journal_opening.specs.Recovered.{IsRecovered, IsUnread, IsNumbered, IsReadThrough, StopsReading, IsBadFor, IsGoodFor, GoesOn, status_for};
ghost use Rattle.journal_opening.specs.Replayed.{IsGoodBase};

use crate::numbering::Numbering;
use intake_journal::{FIRST_GATE, Journal, JournalError, LONGEST_JOURNAL};
use outside::Disk;
use server_words::Status;
use std::alloc::Global;
use zbx_types::OutOfMemory;

/// What a run ends with whose journal couldn't be read.
fn status_of(error: JournalError) -> Status
    ensures { result ≡ status_for error }
{
    match error {
        JournalError::NotOurs => Status::NotOurs,
        JournalError::Unfinished => Status::Unfinished,
        JournalError::Damaged { at } => Status::Damaged { at },
        JournalError::DiskFault => Status::DiskFault,
        JournalError::OutOfMemory => Status::OutOfMemory,
    }
}

/// Reads all groups of a journal that was opened, none of which was read before, numbers their entries behind its base,
/// with which a run can begin, and judges them by the configurations that are among them. It is ready then.
fn read_all<D: Disk>(
    alloc: Global,
    journal: &mut Journal<D>,
    numbering: Numbering,
) -> Result<Numbering, Status>
    requires reading { journal.old.state ≡ Reading }
    requires first { journal.old.at ≡ journal.old.first }
    requires none { journal.old.entries ≡ 0 }
    requires numbered { IsNumbered journal.old.base [] numbering }
    ensures read { IfOk result (IsReadThrough D.tells journal.old journal.new) }
    ensures before { IsAsBefore (D.tells journal.old.disk) (D.tells journal.new.disk) }
    ensures later { (D.tells journal.old.disk).faults ≤ (D.tells journal.new.disk).faults }
    ensures why { IfErr result (StopsReading journal.old.first (D.tells journal.old.disk).bytes
        (D.tells journal.old.disk).faults (D.tells journal.new.disk).faults) }
{
    let mut numbering = numbering;
    for _ in 0..u64::MAX {
        match journal.read_next(alloc) {
            Ok(Some(group)) => match numbering.add(alloc, group) {
                Ok(()) => {}
                Err(OutOfMemory) => return Err(Status::OutOfMemory),
            },
            Ok(None) => return Ok(numbering),
            Err(error) => return Err(status_of(error)),
        }
    }
    Err(Status::OutOfMemory)
}

/// The same, where no run may be able to begin with the base.
#[tactic(auto, using(crate::proofs::JournalReads::still_good))]
fn read_behind<D: Disk>(alloc: Global, journal: &mut Journal<D>) -> Result<Numbering, Status>
    requires reading { journal.old.state ≡ Reading }
    requires first { journal.old.at ≡ journal.old.first }
    requires none { journal.old.entries ≡ 0 }
    requires formed { journal.old.base.text ≡ [] → journal.old.base ≡ empty_base }
    ensures read { IfOk result (IsReadThrough D.tells journal.old journal.new) }
    ensures good { IfOk result (λ _. IsGoodBase journal.old.base) }
    ensures before { IsAsBefore (D.tells journal.old.disk) (D.tells journal.new.disk) }
    ensures later { (D.tells journal.old.disk).faults ≤ (D.tells journal.new.disk).faults }
    ensures why { IfErr result (λ s. IsBadFor journal.old.base s
        ⊎ (StopsReading journal.old.first (D.tells journal.old.disk).bytes (D.tells journal.old.disk).faults
        (D.tells journal.new.disk).faults s × IsGoodFor journal.old.base s)) }
{
    match Numbering::on(alloc, journal.base()) {
        Ok(Some(numbering)) => read_all(alloc, journal, numbering),
        Ok(None) => Err(Status::Damaged { at: FIRST_GATE }),
        Err(OutOfMemory) => Err(Status::OutOfMemory),
    }
}

/// Opens the journal on a disk, which is to have at most so many entries behind its base, reads all its groups, numbers
/// their entries, and judges them by the configurations that are among them. The disk comes back with the status that ends
/// the run where that can't be done, or where no run can begin with the base.
pub(crate) fn recover<D: Disk>(
    alloc: Global,
    disk: D,
    max_entries: u64,
) -> Result<(Journal<D>, Numbering), (D, Status)>
    ensures recovered { IfOk result (λ made. IsRecovered D.tells disk made.0 made.1) }
    ensures limits { IfOk result (λ made. (made.0.max_entries ≡ max_entries) × (made.0.max_bytes ≡ longest_journal)) }
    ensures goes_on { IfOk result (λ made. GoesOn (D.tells disk) (D.tells made.0.disk)) }
    ensures gives_back { IfErr result (λ why. GoesOn (D.tells disk) (D.tells why.0)) }
    ensures why { IfErr result (λ why. IsUnread (D.tells disk).bytes (D.tells disk).faults
        (D.tells why.0).faults why.1) }
{
    let mut journal = match Journal::recover(alloc, disk, max_entries, LONGEST_JOURNAL) {
        Ok(journal) => journal,
        Err((disk, error)) => return Err((disk, status_of(error))),
    };
    match read_behind(alloc, &mut journal) {
        Ok(numbering) => Ok((journal, numbering)),
        Err(status) => Err((journal.end(), status)),
    }
}
