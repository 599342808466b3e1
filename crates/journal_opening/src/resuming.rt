//! What a run's journal kept is gone on with.

ghost use Rattle.std.specs.Prelude.{◌≡◌, ◌≤◌, ◌+◌, ◌<◌, ◌++◌, ◌∷◌, [], length, ℕ, List, Ok, None, map, IfOk, IfErr};
ghost use Rattle.outside.specs.Tells.{SinkTells};
ghost use Rattle.zbx_types.specs.declared.conf.Conf.{Conf};
ghost use Rattle.config_templates.specs.Flat.{flat_of};
ghost use Rattle.trigger_state.specs.Stages.{Stage, first_stage};
ghost use Rattle.intake_journal.specs.Based.{most_counted};
ghost use Rattle.intake_journal.specs.declared.state.State.TheVariants as state;
ghost use Rattle.intake_front.specs.Fronted.{HasJournaled};
ghost use Rattle.intake_front.specs.Intake.{start};
ghost use Rattle.entry_laws.specs.InForce.{texts_on};
ghost use Rattle.journal_opening.specs.Recovered.{Found, GoesOn, IsNumbered};
ghost use Rattle.journal_opening.specs.Replayed.{flat, IsGoodBase};
ghost use Rattle.journal_opening.specs.Opening.{IsJudged};
ghost use Rattle.journal_opening.specs.Unkept.{IsUnaccepted};
ghost use Rattle.journal_opening.specs.Resumed.{status_for, IsTakenUp, HasBegun, TurnedAway};

use crate::epochs::epochs_of;
use crate::numbering::Numbering;
use crate::recovering::recover;
use conf_index::Ready;
use intake_front::{Front, FrontError};
use intake_journal::Journal;
use outside::Disk;
use server_words::Status;
use std::alloc::Global;
use zbx_types::{Conf, Many, Numbered};

/// What is left of a run that was refused at its opening (this project's own).
#[derive(Drop)]
pub struct Refused<D> {
    /// Why it was refused.
    pub status: Status,
    /// The disk that was handed in.
    pub disk: D,
    /// The entries that were found: those that the journal kept, or these with the run's configuration behind them, or
    /// none.
    pub entries: Many<Numbered>,
}

/// Why the groups of a journal aren't those of a run, or None where they are.
fn judged(numbering: &Numbering) -> Option<Status>
    ensures judged { (found : Found) → IsGoodBase found.base → IsNumbered found.base found.groups numbering.now
        → IsJudged found result }
    ensures taken { result ≡ None → numbering.now.refused ≡ None }
{
    match numbering.refused {
        Some(at) => Some(Status::Damaged { at }),
        None => match numbering.misfit {
            Some(at) => Some(Status::Damaged { at }),
            None => None,
        },
    }
}

/// Opens the journal on a disk, which is to have at most so many entries behind its base, and reads the entries that it
/// kept, with the configurations of the base and those that are among them, where they are those of a run.
pub(crate) fn accepted<D: Disk>(
    alloc: Global,
    disk: D,
    max_entries: u64,
) -> Result<(Journal<D>, Many<Numbered>, Vec<Conf>), Refused<D>>
    ensures ok { IfOk result (λ made. IsTakenUp D.tells max_entries disk made.0 made.1 made.2.items) }
    ensures back { IfErr result (λ r. GoesOn (D.tells disk) (D.tells r.disk)) }
    ensures why { IfErr result (λ r. IsUnaccepted (D.tells disk) (D.tells r.disk) r.status) }
    ensures err { IfErr result (λ r. (conf : Conf) (outbox outbox' : SinkTells) → TurnedAway conf max_entries
        (D.tells disk) (D.tells r.disk) outbox outbox' r.entries r.status) }
{
    let (journal, numbering) = match recover(alloc, disk, max_entries) {
        Ok(recovered) => recovered,
        Err((disk, status)) => {
            return Err(Refused {
                status,
                disk,
                entries: Many::new(alloc),
            });
        }
    };
    match judged(&numbering) {
        None => Ok((journal, numbering.entries, numbering.confs)),
        Some(status) => Err(Refused {
            status,
            disk: journal.end(),
            entries: numbering.entries,
        }),
    }
}

/// What a run ends with for which no intake was made.
fn status_of(error: FrontError) -> Status
    ensures { result ≡ status_for error }
{
    match error {
        FrontError::Full { entries, bytes } => Status::Full { entries, bytes },
        FrontError::DiskFault => Status::DiskFault,
        FrontError::OutOfMemory => Status::OutOfMemory,
    }
}

/// The intake of a run behind what its journal kept. Its configuration is journaled where that has none, or the last one
/// has another text.
fn begin<D: Disk>(
    alloc: Global,
    ready: &Ready,
    journal: Journal<D>,
    kept: Many<Numbered>,
) -> Result<Front<D>, Refused<D>>
    requires read { journal.state ≡ state.Ready }
    requires counted { journal.base.number ≤ most_counted }
    requires journaled { HasJournaled D.tells journal kept (journal.at + 1) }
    ensures made { IfOk result (λ f. f.intake ≡ start journal.base ready.now.conf.text kept (journal.at + 1)) }
    ensures base { IfOk result (λ f. f.journal.base ≡ journal.base) }
    ensures ok { IfOk result (λ f. (most : ℕ) (old : D) (confs : List Conf)
        → flat_of ready.now.conf.text ≡ Ok ready.now.conf → IsTakenUp D.tells most old journal kept confs
        → HasBegun D.tells ready.now.conf most old f) }
    ensures err { IfErr result (λ r. (most : ℕ) (old : D) (confs : List Conf) (outbox outbox' : SinkTells)
        → IsTakenUp D.tells most old journal kept confs
        → TurnedAway ready.now.conf most (D.tells old) (D.tells r.disk) outbox outbox' r.entries
        r.status) }
{
    match Front::new(alloc, ready, journal, kept) {
        Ok(front) => Ok(front),
        Err(unmade) => Err(Refused {
            status: status_of(unmade.error),
            disk: unmade.disk,
            entries: unmade.kept,
        }),
    }
}

/// The last of some configurations that are ready.
fn last_of(epochs: &[Ready]) -> &Ready
    requires { 0 < length epochs.now }
    ensures { (front : List Stage) (last : Stage) → epochs.now ≡ front ++ last ∷ [] → result.now ≡ last }
{
    &epochs[epochs.len() - 1]
}

/// Goes on behind what the journal on a disk kept, which is to have at most so many entries behind its base. With the
/// intake come the configurations of the base, where it has one, and of the Configs among its entries, in their order, each
/// made ready.
///
/// # Errors
///
/// A `Refused` with one of these statuses: `NotOurs` where the disk holds no journal, and `Unfinished` where it holds one
/// that wasn't made to its end; `Damaged` where its bytes, its base, a text of a configuration or an entry isn't one that a
/// run leaves, with the place of the group, or 8 where it is the base; `PatternRefused` or
/// `PatternTooLarge` where a pattern of a kept configuration isn't taken, with its path; `Full` where the run's
/// configuration doesn't fit behind the kept entries; `DiskFault` where the disk failed; `OutOfMemory` where memory was
/// refused.
pub fn resume<D: Disk>(
    alloc: Global,
    ready: Ready,
    disk: D,
    max_entries: u64,
) -> Result<(Vec<Ready>, Front<D>), Refused<D>>
    requires first { ready ≡ first_stage ready.conf }
    requires conf { flat_of ready.conf.text ≡ Ok ready.conf }
    ensures epochs { IfOk result (λ made. made.0.items
        ≡ map (λ text. first_stage (flat text)) (texts_on made.1.journal.base.text made.1.intake.entries)) }
    ensures ok { IfOk result (λ made. HasBegun D.tells ready.conf max_entries disk made.1) }
    ensures err { IfErr result (λ r. (outbox outbox' : SinkTells) → TurnedAway ready.conf max_entries
        (D.tells disk) (D.tells r.disk) outbox outbox' r.entries r.status) }
{
    let (journal, kept, confs) = match accepted(alloc, disk, max_entries) {
        Ok(taken) => taken,
        Err(refused) => {
            drop(ready);
            return Err(refused);
        }
    };
    let epochs = match epochs_of(alloc, confs, ready) {
        Ok(epochs) => epochs,
        Err(status) => {
            return Err(Refused {
                status,
                disk: journal.end(),
                entries: Many::new(alloc),
            });
        }
    };
    match begin(alloc, last_of(epochs.as_slice()), journal, kept) {
        Ok(front) => Ok((epochs, front)),
        Err(refused) => Err(refused),
    }
}
