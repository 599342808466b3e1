//! Groups offered to the journal: staged behind those that wait, and written.

ghost use Rattle.std.specs.Prelude.{◌≡◌, ◌≢◌, ◌⊎◌, ◌≤◌, ◌<◌, ℕ, List, ◌+◌, false, [], length, All, Some, None, is_some, IsTrue, IfSome, IfOk, OnOk, OnErr};
ghost use Rattle.zbx_types.specs.declared.entries.Numbered.{Numbered};
ghost use Rattle.outside.specs.Causes.{Rose};
ghost use Rattle.outside.specs.Disk.{LeavesOnly};
ghost use Rattle.intake_journal.specs.Bytes.{HasShortValue};
ghost use Rattle.intake_journal.specs.Block.{opened_bytes};
ghost use Rattle.intake_journal.specs.declared.state.State.TheVariants.{Ready, Broken};
ghost use Rattle.intake_front.specs.Intake.{with_group};
ghost use Rattle.intake_front.specs.Fronted.{HasJournaled, KeepsEither, HasRoom, IsReady, all_of, staged_with};
ghost use Rattle.intake_front.specs.Staging.{refused_by, IsStagedAs};

use crate::answer::Stop;
use intake_journal::{AppendError, Block, Journal};
use outside::Disk;
use std::alloc::Global;
use zbx_types::{Entry, OutOfMemory};

/// What of an event's Tick and its values was staged.
pub(crate) enum Staged {
    /// Both, as far as there are any.
    Both,
    /// The Tick, if there is one. The journal hasn't room for the values behind it.
    OnlyTick(Stop),
    /// The journal hasn't room for the Tick.
    Neither(Stop),
}

/// Stages a group, unless it is empty, or answers why the journal hasn't room for it.
pub(crate) fn stage<D: Disk>(
    journal: &Journal<D>,
    block: &mut Block,
    group: &[Entry],
) -> Result<Option<Stop>, OutOfMemory>
    requires short { All HasShortValue group.now }
    ensures refused { IfOk result (λ s. s ≡ refused_by journal.now block.old group.now) }
    ensures staged { IfOk result (λ s. s ≡ None → block.new ≡ staged_with block.old group.now) }
    ensures same { IfOk result (λ s. s ≢ None → block.new ≡ block.old) }
    ensures room { IfOk result (λ s. HasRoom journal.now block.old → HasRoom journal.now block.new) }
    ensures err { OnErr result ((block.new ≡ block.old) × (0 < length group.now)) }
{
    if group.is_empty() {
        return Ok(None);
    }
    match journal.stage(block, group) {
        Ok(()) => Ok(None),
        Err(AppendError::Full { entries, bytes }) => Ok(Some(Stop::Full { entries, bytes })),
        Err(AppendError::DiskFault) | Err(AppendError::OutOfMemory) => Err(OutOfMemory),
    }
}

/// Stages an event's Tick and then its values. Where memory is refused for the values, the Tick stays staged.
fn stage_in_turn<D: Disk>(
    journal: &Journal<D>,
    block: &mut Block,
    ticks: &[Entry],
    group: &[Entry],
) -> Result<Staged, OutOfMemory>
    requires short_ticks { All HasShortValue ticks.now }
    requires short_values { All HasShortValue group.now }
    ensures staged { IfOk result (λ s. IsStagedAs journal.now block.old ticks.now group.now block.new s) }
    ensures room { OnOk result (HasRoom journal.now block.old → HasRoom journal.now block.new) }
    ensures err { OnErr result ((ticks.now ≡ []) ⊎ (group.now ≡ []) → block.new ≡ block.old) }
{
    if let Some(full) = stage(journal, block, ticks)? {
        return Ok(Staged::Neither(full));
    }
    match stage(journal, block, group)? {
        None => Ok(Staged::Both),
        Some(full) => Ok(Staged::OnlyTick(full)),
    }
}

/// Stages an event's Tick and its values. Where memory is refused the block is as before: two groups are staged in a
/// copy of it.
pub(crate) fn stage_both<D: Disk>(
    alloc: Global,
    journal: &Journal<D>,
    block: &mut Block,
    ticks: &[Entry],
    group: &[Entry],
) -> Result<Staged, OutOfMemory>
    requires short_ticks { All HasShortValue ticks.now }
    requires short_values { All HasShortValue group.now }
    ensures staged { IfOk result (λ s. IsStagedAs journal.now block.old ticks.now group.now block.new s) }
    ensures room { OnOk result (HasRoom journal.now block.old → HasRoom journal.now block.new) }
    ensures err { OnErr result (block.new ≡ block.old) }
{
    if ticks.is_empty() || group.is_empty() {
        return stage_in_turn(journal, block, ticks, group);
    }
    let mut both = block.copy(alloc)?;
    let staged = stage_in_turn(journal, &mut both, ticks, group)?;
    *block = both;
    Ok(staged)
}
/// Writes the groups of a block, unless it has none: they are kept, or the disk failed. Takes no memory.
pub(crate) fn write<D: Disk>(journal: &mut Journal<D>, block: &Block) -> bool
    requires ready { journal.old.state ≡ Ready }
    requires room { HasRoom journal.old block.now }
    ensures kept { IsTrue result → (entries : List Numbered) (size : ℕ)
        → HasJournaled D.tells journal.old entries size
        → HasJournaled D.tells journal.new (with_group journal.old.base.number entries (all_of block.now))
        (size + length (opened_bytes block.now)) }
    ensures any_moment { (entries : List Numbered) (size : ℕ) → HasJournaled D.tells journal.old entries size
        → IfSome (D.tells journal.old.disk).bytes (λ _. LeavesOnly (D.tells journal.old.disk)
        (D.tells journal.new.disk) (KeepsEither journal.old.base entries (with_group journal.old.base.number entries (all_of block.now)))) }
    ensures ready { IsTrue result → IsReady journal.old journal.new }
    ensures base { journal.new.base ≡ journal.old.base }
    ensures broken { result ≡ false → journal.new.state ≡ Broken }
    ensures fault { result ≡ false → (0 < length block.now)
        × Rose (D.tells journal.old.disk).faults (D.tells journal.new.disk).faults }
    ensures later { (D.tells journal.old.disk).faults ≤ (D.tells journal.new.disk).faults }
    ensures told { is_some (D.tells journal.new.disk).bytes ≡ is_some (D.tells journal.old.disk).bytes }
{
    if block.is_empty() {
        return true;
    }
    match journal.append(block) {
        Ok(()) => true,
        Err(_) => false,
    }
}
