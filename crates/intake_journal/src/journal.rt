//! A journal on a disk: opened, and added to.

ghost use Rattle.std.specs.Prelude.{◌≡◌, ◌≢◌, ◌⊎◌, ℕ, false, not, Err, IsTrue, ◌+◌, ◌<◌, ◌≤◌, ◌-◌, [], ◌∷◌, ◌++◌, length, All, is_some, IfSome, IfOk, OnOk, OnErr, IfErr};
ghost use Rattle.outside.specs.Causes.{Rose, HasCause};
ghost use Rattle.outside.specs.Disk.{Only, LeavesOnly};
ghost use Rattle.intake_journal.specs.Bytes.{entries_bytes, HasShortValue};
ghost use Rattle.intake_journal.specs.Kept.{first_gate, longest_journal, kept, base_in, first_gate_in, groups_of};
ghost use Rattle.intake_journal.specs.Kept.Kept.{NotOurs, Unfinished, Damaged};
ghost use Rattle.zbx_types.specs.Bases.{empty_base};
ghost use Rattle.intake_journal.specs.Opened.{IsOpened, disk_of};
ghost use Rattle.intake_journal.specs.Settled.{KeepsAsOneOf};
ghost use Rattle.intake_journal.specs.Block.{opened_bytes, added_all, KeepsNoneOrAll, entries_with_all, bytes_with_all, passes_with_all};
ghost use Rattle.intake_journal.specs.declared.state.State.TheVariants.{Reading, Ready, Broken};
ghost use Rattle.intake_journal.specs.declared.state.AppendError.TheVariants as error;
ghost use Rattle.intake_journal.specs.declared.state.JournalError.TheVariants as cause;

use crate::ahead::Ahead;
use crate::block::Block;
use crate::encoding::size;
use crate::format::Beginning;
use crate::opening::{FIRST_GATE, prepare};
use crate::state::{AppendError, JournalError, State};
use gated_file::keep;
use outside::{Disk, Failed, Trouble};
use std::alloc::Global;
use std::marker::Model;
use zbx_types::{Base, Entry, OutOfMemory};

/// A journal on a disk. Contracts see its disk, its base, the place of its first gate and that of the gate behind what was read or
/// added, how many entries stand before that one, its limits and its state.
#[derive(Drop)]
pub struct Journal<D: Disk> {
    pub(crate) disk: D,
    pub(crate) base: Base,
    pub(crate) first: u64,
    pub(crate) at: u64,
    pub(crate) entries: u64,
    pub(crate) max_entries: u64,
    pub(crate) max_bytes: u64,
    pub(crate) state: State,
    pub(crate) ahead: Ahead,
}

impl<D: Disk> Model for Journal<D> {
    ghost use Rattle.intake_journal.specs.Ahead.{IsReadAhead};
    ghost use Rattle.intake_journal.specs.Settled.{Journaled, IsSettled, IsWithin};

    ghost Value = { Journaled D };

    ghost view = { λ j. record { disk = j.disk; base = j.base; first = j.first; at = j.at; entries = j.entries; max_entries = j.max_entries; max_bytes = j.max_bytes; state = j.state } };

    ghost invariant = { λ j. IsWithin j.at j.entries j.max_bytes × IsSettled j.state (D.tells j.disk) j.first j.at j.entries × IsReadAhead j.state j.ahead (D.tells j.disk).bytes };
}

impl<D: Disk> Journal<D> {
    /// Opens the file on a disk, to be read by [`Journal::read_next`] up to its `None`. It begins with a sync; a file of at
    /// most 9 bytes is made anew, as a journal of no base and no group. Takes memory for a base alone.
    ///
    /// The journal is to have at most so many entries behind its base, and at most so many bytes up to and with the last
    /// gate, which are 1,073,741,824 at most. Where the file has more than 9 bytes, `NotOurs` comes where it doesn't begin as
    /// a journal, `Unfinished` where it begins as one with a base whose gate isn't open, and `Damaged` at 8 where that gate is
    /// open and no base stands behind it, and a gate behind that. `DiskFault` comes where the disk failed. The disk comes
    /// back with the error.
    #[tactic(auto, using(crate::proofs::Openings::begun_told, crate::proofs::Openings::base_told, crate::proofs::Openings::place_told, crate::proofs::Openings::not_ours_told, crate::proofs::Openings::unfinished_told, crate::proofs::Openings::damaged_told, crate::proofs::Openings::no_base_told, crate::proofs::Openings::opened_durable))]
    pub fn recover(
        alloc: Global,
        disk: D,
        max_entries: u64,
        max_bytes: u64,
    ) -> Result<Journal<D>, (D, JournalError)>
        requires { max_bytes ≤ longest_journal }

        // What is left to read is what the file kept, all of it durable.
        ensures begins { IfOk result (λ j. (j.at ≡ j.first) × (j.entries ≡ 0) × (j.max_entries ≡ max_entries) × (j.max_bytes ≡ max_bytes) × (j.state ≡ Reading)) }
        ensures opened { IfOk result (λ j. IfSome (D.tells disk).bytes (λ b. IfSome (D.tells j.disk).bytes (λ c. IsOpened (D.tells j.disk) j.first b c))) }
        ensures base { IfOk result (λ j. IfSome (D.tells disk).bytes (λ b. j.base ≡ base_in b)) }
        ensures place { IfOk result (λ j. IfSome (D.tells disk).bytes (λ b. j.first ≡ first_gate_in b)) }
        ensures plain { IfOk result (λ j. j.base ≡ empty_base → j.first ≡ first_gate) }
        ensures formed { IfOk result (λ j. j.base.text ≡ [] → j.base ≡ empty_base) }

        ensures ours { IfOk result (λ _. IfSome (D.tells disk).bytes (λ b. (kept b ≢ NotOurs) × (kept b ≢ Unfinished))) }
        ensures not_ours { IfErr result (λ e. e.1 ≡ cause.NotOurs → IfSome (D.tells disk).bytes (λ b. kept b ≡ NotOurs)) }
        ensures unfinished { IfErr result (λ e. e.1 ≡ cause.Unfinished → IfSome (D.tells disk).bytes (λ b. kept b ≡ Unfinished)) }
        ensures damaged { (at : ℕ) → IfErr result (λ e. e.1 ≡ cause.Damaged at → IfSome (D.tells disk).bytes (λ b. kept b ≡ Damaged at)) }
        ensures no_base { (at : ℕ) → IfErr result (λ e. e.1 ≡ cause.Damaged at → IfSome (D.tells disk).bytes (λ b. base_in b ≡ empty_base)) }
        ensures fault { IfErr result (λ e. e.1 ≡ cause.DiskFault → Rose (D.tells disk).faults (D.tells e.0).faults) }

        ensures told { is_some (D.tells (disk_of result)).bytes ≡ is_some (D.tells disk).bytes }
        ensures later { (D.tells disk).faults ≤ (D.tells (disk_of result)).faults }

        // A crash at any moment of the call leaves a file that keeps what one did that a crash before it might have left.
        ensures any_moment { IfSome (D.tells disk).bytes (λ _. LeavesOnly (D.tells disk) (D.tells (disk_of result)) (KeepsAsOneOf (D.tells disk))) }
    {
        let mut disk = disk;
        match prepare(alloc, &mut disk) {
            Ok(Beginning::Begun { first, base }) => Ok(Journal {
                disk,
                base,
                first,
                at: first,
                entries: 0,
                max_entries,
                max_bytes,
                state: State::Reading,
                ahead: Ahead::new(alloc),
            }),
            Ok(Beginning::NotOurs) => Err((disk, JournalError::NotOurs)),
            Ok(Beginning::Unfinished) => Err((disk, JournalError::Unfinished)),
            Ok(Beginning::Damaged) => Err((disk, JournalError::Damaged { at: FIRST_GATE })),
            Err(Trouble::Failed) => Err((disk, JournalError::DiskFault)),
            Err(Trouble::OutOfMemory) => Err((disk, JournalError::OutOfMemory)),
        }
    }

    /// The base that its entries stand on, which is the empty one where it has none.
    pub fn base(&self) -> &Base
        ensures { result.now ≡ self.now.base }
    {
        &self.base
    }

    /// How many entries it has.
    pub fn entries(&self) -> u64
        ensures { result ≡ self.now.entries }
    {
        self.entries
    }

    /// How many bytes it has, up to and with the gate behind its last group.
    pub fn bytes(&self) -> u64
        ensures { result ≡ self.now.at + 1 }
    {
        self.at + 1
    }

    /// How many bytes it would have with the groups of a block, up to and with the gate behind the last of them.
    pub fn bytes_with(&self, block: &Block) -> u64
        ensures { result ≡ self.now.at + length (opened_bytes block.now) + 1 }
    {
        self.at + block.size()
    }

    /// How many entries and bytes the journal would have with the groups of a block.
    fn with_block(&self, block: &Block) -> (u64, u64)
        ensures entries { result.0 ≡ entries_with_all self.now block.now }
        ensures bytes { result.1 ≡ bytes_with_all self.now block.now }
    {
        let entries = self.entries + block.entries();
        let bytes = self.at + block.size();
        (entries, bytes)
    }

    /// How many entries and bytes the journal would have with the groups of a block and one more.
    fn with_group(&self, block: &Block, group: &[Entry]) -> (u64, u64)
        ensures entries { result.0 ≡ entries_with_all self.now (block.now ++ group.now ∷ []) }
        ensures bytes { result.1 ≡ bytes_with_all self.now (block.now ++ group.now ∷ []) }
        ensures long { result.1 ≤ longest_journal → length (opened_bytes block.now) + length (entries_bytes group.now) + 10 ≤ longest_journal }
        ensures most { self.now.max_bytes ≤ longest_journal }
    {
        let entries = self.entries + block.entries() + group.len() as u64;
        let bytes = size(group).saturating_add(self.at + block.size() + 9);
        (entries, bytes)
    }

    /// How many entries and bytes the journal would have with one group.
    fn with_one(&self, group: &[Entry]) -> (u64, u64)
        ensures entries { result.0 ≡ entries_with_all self.now (group.now ∷ []) }
        ensures bytes { result.1 ≡ bytes_with_all self.now (group.now ∷ []) }
        ensures long { result.1 ≤ longest_journal → length (entries_bytes group.now) + 10 ≤ longest_journal }
        ensures most { self.now.max_bytes ≤ longest_journal }
    {
        let entries = self.entries + group.len() as u64;
        let bytes = size(group).saturating_add(self.at + 10);
        (entries, bytes)
    }

    /// Whether the groups of a block and one more fit into the journal: exactly then [`Journal::stage`] doesn't answer
    /// `Full`. Takes no memory.
    pub fn has_room(&self, block: &Block, group: &[Entry]) -> bool
        ensures { result ≡ not (passes_with_all self.now (block.now ++ group.now ∷ [])) }
    {
        let (entries, bytes) = self.with_group(block, group);
        !(entries > self.max_entries || bytes > self.max_bytes)
    }

    /// Adds a group to a block that is to be appended. `Full` comes where the journal would pass a limit with the groups of
    /// the block and this one; it and [`OutOfMemory`] leave the block as before, and no other error comes.
    ///
    /// The group is of one entry at least, and its values have at most 65,535 bytes each.
    pub fn stage(&self, block: &mut Block, group: &[Entry]) -> Result<(), AppendError>
        requires some { 0 < length group.now }
        requires short { All HasShortValue group.now }

        ensures ok { OnOk result (block.new ≡ block.old ++ group.now ∷ []) }
        ensures room { OnOk result (passes_with_all self.now (block.old ++ group.now ∷ []) ≡ false) }
        ensures full { IsTrue (passes_with_all self.now (block.old ++ group.now ∷ [])) → result ≡ Err (error.Full (entries_with_all self.now (block.old ++ group.now ∷ [])) (bytes_with_all self.now (block.old ++ group.now ∷ []))) }
        ensures only_full { (entries bytes : ℕ) → result ≡ Err (error.Full entries bytes) → IsTrue (passes_with_all self.now (block.old ++ group.now ∷ []))
            × (entries ≡ entries_with_all self.now (block.old ++ group.now ∷ [])) × (bytes ≡ bytes_with_all self.now (block.old ++ group.now ∷ [])) }
        ensures same { OnErr result (block.new ≡ block.old) }
        ensures no_fault { result ≢ Err error.DiskFault }
    {
        let (entries, bytes) = self.with_group(block, group);
        if entries > self.max_entries || bytes > self.max_bytes {
            return Err(AppendError::Full { entries, bytes });
        }
        block.stage(group)?;
        Ok(())
    }

    /// Writes the groups of a block for which there is room. At [`Failed`] the journal is broken.
    fn put_block(&mut self, block: &Block) -> Result<(), Failed>
        requires read { self.old.state ≢ Reading }
        requires going { self.old.state ≢ Broken }
        requires some { 0 < length block.now }
        requires room { passes_with_all self.old block.now ≡ false }
        ensures place { OnOk result ((self.new.at ≡ self.old.at + length (opened_bytes block.now)) × (self.new.entries ≡ entries_with_all self.old block.now)) }
        ensures kept { OnOk result (IfSome (D.tells self.old.disk).bytes (λ b. IfSome (D.tells self.new.disk).bytes (λ c. groups_of (kept c) ≡ added_all self.old.at block.now (groups_of (kept b))))) }
        ensures same_base { OnOk result (IfSome (D.tells self.old.disk).bytes (λ b. IfSome (D.tells self.new.disk).bytes (λ c. base_in c ≡ base_in b))) }
        ensures durable { OnOk result (IfSome (D.tells self.new.disk).bytes (λ c. Only c (D.tells self.new.disk))) }
        ensures told { is_some (D.tells self.new.disk).bytes ≡ is_some (D.tells self.old.disk).bytes }
        ensures any_moment { IfSome (D.tells self.old.disk).bytes (λ b.
            LeavesOnly (D.tells self.old.disk) (D.tells self.new.disk) (KeepsNoneOrAll (groups_of (kept b)) self.old.at block.now)) }
        ensures base_at_any_moment { IfSome (D.tells self.old.disk).bytes (λ b. LeavesOnly (D.tells self.old.disk) (D.tells self.new.disk) (λ c. base_in c ≡ base_in b)) }
        ensures cause { HasCause (D.tells self.old.disk).faults (D.tells self.new.disk).faults result }
        ensures state { OnOk result (self.new.state ≡ Ready) }
        ensures state_broken { OnErr result (self.new.state ≡ Broken) }
        ensures first { (self.new.first ≡ self.old.first) × (self.new.base ≡ self.old.base) }
        ensures limits { (self.new.max_entries ≡ self.old.max_entries) × (self.new.max_bytes ≡ self.old.max_bytes) }
    {
        match keep(&mut self.disk, self.at, block.behind_gate()) {
            Ok(()) => {
                self.at += block.size() - 1;
                self.entries += block.entries();
                Ok(())
            }
            Err(Failed) => {
                self.state = State::Broken;
                Err(Failed)
            }
        }
    }

    /// Adds the groups of a block, all or none, by four calls of the disk whatever their number. At `Ok` they are
    /// acknowledged: from then on each crash leaves a file that keeps them. Takes no memory.
    ///
    /// The block has one group at least; [`Block::clear`] takes its groups out for the next. `Full` comes where the journal
    /// would pass a limit with them, and changes nothing. `DiskFault` comes where the disk failed; the journal is broken
    /// then, and answers it at each later call and leaves the disk alone. What its file keeps is then what it kept before,
    /// or that and all of the groups: open it again. `OutOfMemory` doesn't come.
    pub fn append(&mut self, block: &Block) -> Result<(), AppendError>
        requires read { self.old.state ≢ Reading }
        requires some { 0 < length block.now }

        ensures place { OnOk result ((self.new.at ≡ self.old.at + length (opened_bytes block.now)) × (self.new.entries ≡ entries_with_all self.old block.now)) }
        ensures kept { OnOk result (IfSome (D.tells self.old.disk).bytes (λ b. IfSome (D.tells self.new.disk).bytes (λ c. groups_of (kept c) ≡ added_all self.old.at block.now (groups_of (kept b))))) }
        ensures same_base { OnOk result (IfSome (D.tells self.old.disk).bytes (λ b. IfSome (D.tells self.new.disk).bytes (λ c. base_in c ≡ base_in b))) }
        ensures durable { OnOk result (IfSome (D.tells self.new.disk).bytes (λ c. Only c (D.tells self.new.disk))) }

        ensures told { is_some (D.tells self.new.disk).bytes ≡ is_some (D.tells self.old.disk).bytes }

        // A crash at any moment of the call leaves the groups from before it, with all of the new ones or none.
        ensures any_moment { self.old.state ≡ Ready → IfSome (D.tells self.old.disk).bytes (λ b.
            LeavesOnly (D.tells self.old.disk) (D.tells self.new.disk) (KeepsNoneOrAll (groups_of (kept b)) self.old.at block.now)) }
        ensures base_at_any_moment { self.old.state ≡ Ready → IfSome (D.tells self.old.disk).bytes (λ b. LeavesOnly (D.tells self.old.disk) (D.tells self.new.disk) (λ c. base_in c ≡ base_in b)) }

        ensures full { self.old.state ≡ Ready → IsTrue (passes_with_all self.old block.now) → result ≡ Err (error.Full (entries_with_all self.old block.now) (bytes_with_all self.old block.now)) }
        ensures only_full { (entries bytes : ℕ) → result ≡ Err (error.Full entries bytes) → IsTrue (passes_with_all self.old block.now) × (entries ≡ entries_with_all self.old block.now) × (bytes ≡ bytes_with_all self.old block.now) }
        ensures same { (OnOk result ⊥) → result ≢ Err error.DiskFault → self.new ≡ self.old }
        ensures fault { result ≡ Err error.DiskFault → (self.old.state ≡ Broken) ⊎ Rose (D.tells self.old.disk).faults (D.tells self.new.disk).faults }
        ensures later { (D.tells self.old.disk).faults ≤ (D.tells self.new.disk).faults }
        ensures broken { self.old.state ≡ Broken → (result ≡ Err error.DiskFault) × (self.new ≡ self.old) }
        ensures state { result ≢ Err error.DiskFault → self.new.state ≡ Ready }
        ensures state_broken { result ≡ Err error.DiskFault → self.new.state ≡ Broken }
        ensures first { (self.new.first ≡ self.old.first) × (self.new.base ≡ self.old.base) }
        ensures limits { (self.new.max_entries ≡ self.old.max_entries) × (self.new.max_bytes ≡ self.old.max_bytes) }
        ensures no_memory { result ≢ Err error.OutOfMemory }
    {
        if self.state == State::Broken {
            return Err(AppendError::DiskFault);
        }
        let (entries, bytes) = self.with_block(block);
        if entries > self.max_entries || bytes > self.max_bytes {
            return Err(AppendError::Full { entries, bytes });
        }
        match self.put_block(block) {
            Ok(()) => Ok(()),
            Err(Failed) => Err(AppendError::DiskFault),
        }
    }

    /// Adds one group: it is staged in a block of its own, and that is appended.
    ///
    /// It answers as [`Journal::append`], and [`OutOfMemory`] besides, which changes nothing. The group is of one entry at
    /// least, and its values have at most 65,535 bytes each.
    pub fn append_group(&mut self, alloc: Global, group: &[Entry]) -> Result<(), AppendError>
        requires read { self.old.state ≢ Reading }
        requires some { 0 < length group.now }
        requires short { All HasShortValue group.now }

        ensures place { OnOk result ((self.new.at ≡ self.old.at + length (entries_bytes group.now) + 9) × (self.new.entries ≡ self.old.entries + length group.now)) }
        ensures kept { OnOk result (IfSome (D.tells self.old.disk).bytes (λ b. IfSome (D.tells self.new.disk).bytes (λ c. groups_of (kept c) ≡ added_all self.old.at (group.now ∷ []) (groups_of (kept b))))) }
        ensures same_base { OnOk result (IfSome (D.tells self.old.disk).bytes (λ b. IfSome (D.tells self.new.disk).bytes (λ c. base_in c ≡ base_in b))) }
        ensures durable { OnOk result (IfSome (D.tells self.new.disk).bytes (λ c. Only c (D.tells self.new.disk))) }

        ensures told { is_some (D.tells self.new.disk).bytes ≡ is_some (D.tells self.old.disk).bytes }

        // A crash at any moment of the call leaves the groups from before it, with the new one or without.
        ensures any_moment { self.old.state ≡ Ready → IfSome (D.tells self.old.disk).bytes (λ b.
            LeavesOnly (D.tells self.old.disk) (D.tells self.new.disk) (KeepsNoneOrAll (groups_of (kept b)) self.old.at (group.now ∷ []))) }
        ensures base_at_any_moment { self.old.state ≡ Ready → IfSome (D.tells self.old.disk).bytes (λ b. LeavesOnly (D.tells self.old.disk) (D.tells self.new.disk) (λ c. base_in c ≡ base_in b)) }

        ensures full { self.old.state ≡ Ready → IsTrue (passes_with_all self.old (group.now ∷ [])) → result ≡ Err (error.Full (entries_with_all self.old (group.now ∷ [])) (bytes_with_all self.old (group.now ∷ []))) }
        ensures only_full { (entries bytes : ℕ) → result ≡ Err (error.Full entries bytes) → IsTrue (passes_with_all self.old (group.now ∷ [])) × (entries ≡ entries_with_all self.old (group.now ∷ [])) × (bytes ≡ bytes_with_all self.old (group.now ∷ [])) }
        ensures same { (OnOk result ⊥) → result ≢ Err error.DiskFault → self.new ≡ self.old }
        ensures fault { result ≡ Err error.DiskFault → (self.old.state ≡ Broken) ⊎ Rose (D.tells self.old.disk).faults (D.tells self.new.disk).faults }
        ensures later { (D.tells self.old.disk).faults ≤ (D.tells self.new.disk).faults }
        ensures broken { self.old.state ≡ Broken → (result ≡ Err error.DiskFault) × (self.new ≡ self.old) }
        ensures state { result ≢ Err error.DiskFault → self.new.state ≡ Ready }
        ensures state_broken { result ≡ Err error.DiskFault → self.new.state ≡ Broken }
        ensures first { (self.new.first ≡ self.old.first) × (self.new.base ≡ self.old.base) }
        ensures limits { (self.new.max_entries ≡ self.old.max_entries) × (self.new.max_bytes ≡ self.old.max_bytes) }
    {
        if self.state == State::Broken {
            return Err(AppendError::DiskFault);
        }
        let (entries, bytes) = self.with_one(group);
        if entries > self.max_entries || bytes > self.max_bytes {
            return Err(AppendError::Full { entries, bytes });
        }
        match Block::of(alloc, group) {
            Ok(block) => self.append(&block),
            Err(OutOfMemory) => Err(AppendError::OutOfMemory),
        }
    }

    /// The disk.
    pub fn end(self) -> D
        ensures { result ≡ self.disk }
    {
        self.disk
    }
}
