//! The opening of a run: its words, its configuration, its journal, and what its outbox lacks.

ghost use Rattle.std.specs.Prelude.{◌≡◌, ◌≤◌, map, Ok, Some, None, IfOk, IfErr};
ghost use Rattle.std.specs.Coded.{codes, Coded-set};
ghost use Rattle.std.specs.Result.{result_ok};
ghost use Rattle.zbx_types.specs.Tree.{tree_code};
ghost use Rattle.outside.specs.Tells.{SinkTells, WireTells};
ghost use Rattle.config_templates.specs.Flat.{flat_of};
ghost use Rattle.entry_laws.specs.InForce.{texts_on};
ghost use Rattle.server_words.specs.Words.{plan_of};
ghost use Rattle.server_run.specs.Ports.{ReadsUpTo};
ghost use Rattle.journal_opening.specs.Reasons.{IsUntaken, Unconfigured};
ghost use Rattle.journal_opening.specs.Resumed.{HasBegun, TurnedAway};
ghost use Rattle.trigger_state.specs.Stages.{first_stage};
ghost use Rattle.journal_opening.specs.Replayed.{flat};
ghost use Rattle.server_run.specs.Runs.{IsConfigured, Opened, Unbegun};

use crate::reading::{ReadError, read_all};
use conf_index::Ready;
use config_templates::{FlatError, flat};
use intake_front::Front;
use journal_opening::{Refused, ready_of, resume};
use outside::{Disk, Source};
use server_words::{PlanError, Status, plan};
use std::alloc::Global;
use zbx_types::{Conf, LONGEST_TEXT, Many, Text};

/// What a run has begun with. The configurations are that of its journal's base, where it has one, and those of the Configs
/// among its entries, in their order, each made ready: that of the run is the last one.
#[derive(Drop)]
pub(crate) struct Begun<D: Disk> {
    pub turns: u64,
    pub syncers: u32,
    pub epochs: Vec<Ready>,
    pub front: Front<D>,
    ghost epochs_are: { epochs.items ≡ map (λ text. first_stage (flat text)) (texts_on front.journal.base.text front.intake.entries) },
}

/// What the words and the configuration of a run ask for.
#[derive(Drop)]
struct Setup {
    turns: u64,
    syncers: u32,
    max_entries: u64,
    ready: Ready,
    ghost first: { ready ≡ first_stage ready.conf },
    ghost conf_is: { result_ok (flat_of ready.conf.text) ≡ Some ready.conf } by { Coded-set (Prim.hlevel (codes, tree_code)) (result_ok (flat_of ready.conf.text)) (Some ready.conf) },
}

/// The flat configuration of these bytes.
fn configure(alloc: Global, bytes: &[u8]) -> Result<Conf, Status>
    ensures ok { IfOk result (λ conf. flat_of bytes.now ≡ Ok conf) }
    ensures err { IfErr result (IsUntaken bytes.now) }
{
    match flat(alloc, bytes) {
        Ok(conf) => Ok(conf),
        Err(FlatError::Refused { path, cause }) => Err(Status::ConfigRefused { path, cause }),
        Err(FlatError::OutOfMemory) => Err(Status::OutOfMemory),
    }
}

/// Makes the configuration of these bytes ready.
fn prepare(alloc: Global, bytes: &[u8]) -> Result<Ready, Status>
    ensures ok { IfOk result (λ ready. (flat_of bytes.now ≡ Ok ready.conf) × (ready ≡ first_stage ready.conf)) }
    ensures err { IfErr result (IsUntaken bytes.now) }
{
    match configure(alloc, bytes) {
        Ok(conf) => ready_of(alloc, conf),
        Err(status) => Err(status),
    }
}

/// Reads the words and the configuration of a run.
#[tactic(auto, using(crate::proofs::Runs::reads_none))]
fn set_up<S: Source>(alloc: Global, words: &[Text], config: &mut S) -> Result<Setup, Status>
    ensures later { S.faults config.old ≤ S.faults config.new }
    ensures unread { plan_of words.now ≡ None → config.new ≡ config.old }
    ensures taken { ReadsUpTo 16777216 (S.left config.old) (S.left config.new) }
    ensures ok { IfOk result (λ c. IsConfigured words.now (S.left config.old) (S.left config.new) c.turns
        c.max_entries c.ready.conf) }
    ensures err { IfErr result (Unconfigured words.now (S.left config.old) (S.faults config.old)
        (S.faults config.new)) }
{
    let plan = match plan(alloc, words) {
        Ok(plan) => plan,
        Err(PlanError::Usage) => return Err(Status::Usage),
        Err(PlanError::OutOfMemory) => return Err(Status::OutOfMemory),
    };
    let (turns, syncers, max_entries) = (plan.turns, plan.syncers, plan.max_entries);
    drop(plan);
    let bytes = match read_all(alloc, LONGEST_TEXT as u32, config) {
        Ok(bytes) => bytes,
        Err(ReadError::Failed) => return Err(Status::SourceFault),
        Err(ReadError::OutOfMemory) => return Err(Status::OutOfMemory),
    };
    match prepare(alloc, bytes.as_slice()) {
        Ok(ready) => Ok(Setup {
            turns,
            syncers,
            max_entries,
            ready,
        }),
        Err(status) => Err(status),
    }
}

/// Goes on with a run that was configured, behind what its journal kept.
fn resume_setup<D: Disk>(alloc: Global, setup: Setup, disk: D) -> Result<Begun<D>, Refused<D>>
    ensures ok { IfOk result (λ b. (b.turns ≡ setup.turns)
        × HasBegun D.tells setup.ready.conf setup.max_entries disk b.front) }
    ensures err { IfErr result (λ r. (outbox outbox' : SinkTells) → TurnedAway setup.ready.conf setup.max_entries
        (D.tells disk) (D.tells r.disk) outbox outbox' r.entries r.status) }
{
    match resume(alloc, setup.ready, disk, setup.max_entries) {
        Ok((epochs, front)) => Ok(Begun {
            turns: setup.turns,
            syncers: setup.syncers,
            epochs,
            front,
        }),
        Err(refused) => Err(refused),
    }
}

/// Opens a run over a disk. Takes no event.
pub(crate) fn open<S: Source, D: Disk>(
    alloc: Global,
    words: &[Text],
    config: &mut S,
    disk: D,
) -> Result<Begun<D>, Refused<D>>
    ensures later { S.faults config.old ≤ S.faults config.new }
    ensures unread { plan_of words.now ≡ None → config.new ≡ config.old }
    ensures taken { ReadsUpTo 16777216 (S.left config.old) (S.left config.new) }
    ensures ok { IfOk result (λ b. Opened D.tells words.now
        (S.left config.old) (S.left config.new) disk b.turns b.front) }
    ensures err { IfErr result (λ r. (wire wire' : WireTells) (outbox outbox' : SinkTells) → Unbegun words.now
        (record {
          source = S.left config.old;
          source_faults = S.faults config.old;
          wire = wire;
          disk = D.tells disk;
          outbox = outbox;
        }) (record {
          source = S.left config.new;
          source_faults = S.faults config.new;
          wire = wire';
          disk = D.tells r.disk;
          outbox = outbox';
        }) r.entries r.status) }
{
    match set_up(alloc, words, config) {
        Ok(setup) => resume_setup(alloc, setup, disk),
        Err(status) => Err(Refused {
            status,
            disk,
            entries: Many::new(alloc),
        }),
    }
}
