//! The intake of a run that begins or goes on.

ghost use Rattle.std.specs.Prelude.{◌≡◌, ◌≢◌, ◌≤◌, ◌<◌, ℕ, ◌+◌, [], ◌∷◌, All, false, Some, None, is_some, IsTrue, IfSome, IfOk, IfErr, OnOk, OnErr};
ghost use Rattle.outside.specs.Causes.{Rose};
ghost use Rattle.outside.specs.Disk.{LeavesOnly};
ghost use Rattle.entry_step.specs.Log.{log_of};
ghost use Rattle.intake_journal.specs.Based.{most_counted};
ghost use Rattle.intake_journal.specs.Block.{entries_with_all, bytes_with_all, passes_with_all};
ghost use Rattle.intake_journal.specs.declared.state.State.TheVariants as state;
ghost use Rattle.intake_journal.specs.Bytes.{HasShortValue};
ghost use Rattle.intake_front.specs.Intake.{start, opening_group, config_behind, is_text, is_text_with, last_text, with_group, bytes_with};
ghost use Rattle.entry_laws.specs.InForce.{text_in};
ghost use Rattle.intake_front.specs.Fronted.{HasJournaled, KeepsEither, IsReady};
ghost use Rattle.intake_front.specs.declared.answer.FrontError.TheVariants as error;

use crate::answer::{FrontError, Stop};
use crate::held::{Held, last_moment};
use crate::settling::enter;
use crate::staging::{stage, write};
use conf_index::Ready;
use intake_journal::{Block, Journal};
use outside::Disk;
use std::alloc::Global;
use zbx_types::{Entry, Many, Moment, Numbered, OutOfMemory, Text, is_same};

/// Whether the last configuration has this text, with one more entry.
fn is_text_with(before: bool, text: &Text, entry: &Entry) -> bool
    ensures { result ≡ is_text_with before text.now entry.now }
{
    match entry {
        Entry::Config { text: found, .. } => is_same(found, text),
        Entry::Value { .. } | Entry::Tick { .. } => before,
    }
}

/// Whether a base has a text, and it is this one.
#[tactic(auto, using(crate::proofs::Openings::no_text, crate::proofs::Openings::text_there))]
fn is_text_in(before: &Text, text: &Text) -> bool
    ensures { result ≡ is_text text.now (text_in before.now) }
{
    if before.as_bytes().is_empty() {
        return false;
    }
    is_same(before, text)
}

/// Whether the last configuration of entries on a base of this text has that one.
#[tactic(auto, using(crate::proofs::Openings::text_more))]
fn is_last_text(before: &Text, text: &Text, kept: &[Numbered]) -> bool
    ensures { result ≡ is_text text.now (last_text before.now (log_of kept.now)) }
{
    let mut is_last = is_text_in(before, text);
    for numbered in kept {
        is_last = is_text_with(is_last, text, &numbered.entry);
    }
    is_last
}

/// The configuration as a group behind entries, before which this moment was reached.
fn config_behind(
    alloc: Global,
    ready: &Ready,
    before: Moment,
    kept: &[Numbered],
) -> Result<Many<Entry>, OutOfMemory>
    ensures made { IfOk result (λ made. made ≡ config_behind before ready.now.conf.text kept.now) }
    ensures short { IfOk result (λ made. All HasShortValue made) }
{
    let mut made = Many::new(alloc);
    made.push(Entry::Config {
        now: last_moment(before, kept),
        text: ready.conf().text.copy(alloc)?,
    })?;
    Ok(made)
}

/// Stages the configuration's group, which is handed out then.
fn staged_config<D: Disk>(
    alloc: Global,
    ready: &Ready,
    journal: &Journal<D>,
    block: &mut Block,
    kept: &[Numbered],
) -> Result<Many<Entry>, FrontError>
    requires { block.old ≡ [] }
    ensures made { IfOk result (λ made. made ≡ config_behind journal.now.base.now ready.now.conf.text kept.now) }
    ensures staged { OnOk result (block.new ≡ config_behind journal.now.base.now ready.now.conf.text kept.now ∷ []) }
    ensures room { OnOk result
        (passes_with_all journal.now (config_behind journal.now.base.now ready.now.conf.text kept.now ∷ []) ≡ false) }
    ensures full { IfErr result (λ e. (entries bytes : ℕ) → e ≡ error.Full entries bytes
        → IsTrue (passes_with_all journal.now (config_behind journal.now.base.now ready.now.conf.text kept.now ∷ []))
        × (entries ≡ entries_with_all journal.now (config_behind journal.now.base.now ready.now.conf.text kept.now ∷ []))
        × (bytes ≡ bytes_with_all journal.now (config_behind journal.now.base.now ready.now.conf.text kept.now ∷ []))) }
    ensures no_fault { IfErr result (λ e. e ≢ error.DiskFault) }
{
    let group = config_behind(alloc, ready, journal.base().now, kept)?;
    match stage(journal, block, group.as_slice())? {
        None => Ok(group),
        Some(Stop::Full { entries, bytes }) => Err(FrontError::Full { entries, bytes }),
        Some(Stop::Closed) | Some(Stop::DiskFault) => Err(FrontError::OutOfMemory),
    }
}

/// Journals the configuration behind kept entries, among which it stands then.
fn enter_config<D: Disk>(
    alloc: Global,
    ready: &Ready,
    journal: &mut Journal<D>,
    kept: &mut Vec<Numbered>,
) -> Result<(), FrontError>
    requires read { journal.old.state ≡ state.Ready }
    requires counted { journal.old.base.number ≤ most_counted }
    requires journaled { HasJournaled D.tells journal.old kept.old.items (journal.old.at + 1) }
    ensures made { OnOk result (kept.new.items
        ≡ with_group journal.old.base.number kept.old.items (config_behind journal.old.base.now ready.now.conf.text kept.old.items)) }
    ensures journaled { OnOk result (HasJournaled D.tells journal.new kept.new.items
        (bytes_with (journal.old.at + 1) (config_behind journal.old.base.now ready.now.conf.text kept.old.items))) }
    ensures state { OnOk result (IsReady journal.old journal.new) }
    ensures base { journal.new.base ≡ journal.old.base }
    ensures back { OnErr result (kept.new.items ≡ kept.old.items) }
    ensures full { IsTrue (passes_with_all journal.old (config_behind journal.old.base.now ready.now.conf.text kept.old.items ∷ []))
        → IfOk result (λ _. ⊥) × IfErr result (λ e. e ≢ error.DiskFault) }
    ensures only_full { IfErr result (λ e. (entries bytes : ℕ) → e ≡ error.Full entries bytes
        → IsTrue (passes_with_all journal.old (config_behind journal.old.base.now ready.now.conf.text kept.old.items ∷ []))
        × (entries ≡ entries_with_all journal.old (config_behind journal.old.base.now ready.now.conf.text kept.old.items ∷ []))
        × (bytes ≡ bytes_with_all journal.old (config_behind journal.old.base.now ready.now.conf.text kept.old.items ∷ []))) }
    ensures fault { IfErr result (λ e. e ≡ error.DiskFault
        → Rose (D.tells journal.old.disk).faults (D.tells journal.new.disk).faults) }
    ensures same { IfErr result (λ e. e ≢ error.DiskFault → journal.new ≡ journal.old) }
    ensures later { (D.tells journal.old.disk).faults ≤ (D.tells journal.new.disk).faults }
    ensures told { is_some (D.tells journal.new.disk).bytes ≡ is_some (D.tells journal.old.disk).bytes }
    ensures any_moment { IfSome (D.tells journal.old.disk).bytes
        (λ _. LeavesOnly (D.tells journal.old.disk) (D.tells journal.new.disk) (KeepsEither journal.old.base kept.old.items
        (with_group journal.old.base.number kept.old.items (config_behind journal.old.base.now ready.now.conf.text kept.old.items)))) }
{
    let mut block = Block::new(alloc)?;
    let group = staged_config(alloc, ready, journal, &mut block, kept.as_slice())?;
    if kept.reserve(group.as_slice().len()).is_err() {
        return Err(FrontError::OutOfMemory);
    }
    if !write(journal, &block) {
        return Err(FrontError::DiskFault);
    }
    enter(journal.base().number, kept, group);
    Ok(())
}

/// The intake behind the kept entries, behind which the configuration is journaled unless the last one has its very text.
pub(crate) fn open<D: Disk>(
    alloc: Global,
    ready: &Ready,
    journal: &mut Journal<D>,
    kept: Many<Numbered>,
) -> Result<Held, (Many<Numbered>, FrontError)>
    requires read { journal.old.state ≡ state.Ready }
    requires counted { journal.old.base.number ≤ most_counted }
    requires journaled { HasJournaled D.tells journal.old kept (journal.old.at + 1) }
    ensures made { IfOk result (λ h. h ≡ start journal.old.base ready.now.conf.text kept (journal.old.at + 1)) }
    ensures journaled { IfOk result (λ h. HasJournaled D.tells journal.new h.entries h.bytes) }
    ensures number { IfOk result (λ h. h.before ≡ journal.new.base.number) }
    ensures state { IfOk result (λ h. IsReady journal.old journal.new) }
    ensures base { journal.new.base ≡ journal.old.base }
    ensures back { IfErr result (λ u. u.0 ≡ kept) }
    ensures full { opening_group journal.old.base ready.now.conf.text kept ≢ []
        → IsTrue (passes_with_all journal.old (opening_group journal.old.base ready.now.conf.text kept ∷ []))
        → IfOk result (λ _. ⊥) × IfErr result (λ u. u.1 ≢ error.DiskFault) }
    ensures only_full { IfErr result (λ u. (entries bytes : ℕ) → u.1 ≡ error.Full entries bytes
        → (opening_group journal.old.base ready.now.conf.text kept ≢ [])
        × IsTrue (passes_with_all journal.old (opening_group journal.old.base ready.now.conf.text kept ∷ []))
        × (entries ≡ entries_with_all journal.old (opening_group journal.old.base ready.now.conf.text kept ∷ []))
        × (bytes ≡ bytes_with_all journal.old (opening_group journal.old.base ready.now.conf.text kept ∷ []))) }
    ensures fault { IfErr result (λ u. u.1 ≡ error.DiskFault → (opening_group journal.old.base ready.now.conf.text kept ≢ [])
        × Rose (D.tells journal.old.disk).faults (D.tells journal.new.disk).faults) }
    ensures same { IfErr result (λ u. u.1 ≢ error.DiskFault → journal.new ≡ journal.old) }
    ensures later { (D.tells journal.old.disk).faults ≤ (D.tells journal.new.disk).faults }
    ensures told { is_some (D.tells journal.new.disk).bytes ≡ is_some (D.tells journal.old.disk).bytes }
    ensures any_moment { IfSome (D.tells journal.old.disk).bytes
        (λ _. LeavesOnly (D.tells journal.old.disk) (D.tells journal.new.disk)
        (KeepsEither journal.old.base kept (start journal.old.base ready.now.conf.text kept (journal.old.at + 1)).entries)) }
{
    if is_last_text(&journal.base().text, &ready.conf().text, kept.as_slice()) {
        let bytes = journal.bytes();
        return Ok(Held::resumed(alloc, journal.base(), kept, bytes));
    }
    let mut kept = kept.into_vec();
    match enter_config(alloc, ready, journal, &mut kept) {
        Ok(()) => {
            let bytes = journal.bytes();
            Ok(Held::resumed(alloc, journal.base(), Many::from_vec(kept), bytes))
        }
        Err(error) => Err((Many::from_vec(kept), error)),
    }
}
