//! The intake of a run over its journal.

ghost use Rattle.outside.specs.declared.event.WireEvent.{WireEvent};
ghost use Rattle.zbx_types.specs.declared.conf.Conf.{Conf};
ghost use Rattle.intake_front.specs.Intake.{Intake};
ghost use Rattle.std.specs.Prelude.{List, ◌⊎◌, ◌≡◌, ◌≢◌, ◌≤◌, ◌<◌, ℕ, ◌++◌, ◌+◌, [], ◌∷◌, length, Some, None, Err, is_some, IsTrue, IfSome, IfOk, IfErr, OnOk, OnErr};
ghost use Rattle.outside.specs.Causes.{Rose};
ghost use Rattle.outside.specs.Disk.{LeavesOnly};
ghost use Rattle.entry_laws.specs.InForce.{FitsLog, IsFull};
ghost use Rattle.entry_step.specs.Log.{log_of};
ghost use Rattle.entry_step.specs.Start.{Start};
ghost use Rattle.intake_journal.specs.Based.{most_counted};
ghost use Rattle.intake_journal.specs.Block.{entries_with_all, bytes_with_all, passes_with_all};
ghost use Rattle.intake_journal.specs.declared.state.State.TheVariants as state;
ghost use Rattle.intake_front.specs.Intake.{start, handled, opening_group, IsSound};
ghost use Rattle.intake_front.specs.Fronted.{HasJournaled, KeepsEither, IsKept, IsReady, limits_of, refused_group, disk_of};
ghost use Rattle.intake_front.specs.Standing.{StandsFor};
ghost use Rattle.intake_front.specs.Batch.{answered, IsIdle, HasTaken, goes_on};
ghost use Rattle.intake_front.specs.declared.answer.Stop.TheVariants as stop;
ghost use Rattle.intake_front.specs.declared.answer.FrontError.TheVariants as error;

use crate::answer::{Answer, FrontError, Stop, Unmade};
use crate::batch::{Batch, commit};
use crate::collection::Collection;
use crate::held::Held;
use crate::offering::{receive, receive_alone};
use crate::opening::open;
use conf_index::Ready;
use intake_journal::{Block, Journal};
use outside::{Disk, WireEvent};
use std::alloc::Global;
use std::marker::Model;
use zbx_types::{Base, Many, Numbered, OutOfMemory};

/// The intake of a run over its journal. Contracts see the journal, and the intake behind all events that were taken:
/// its moment in nanoseconds, the half minute of the last Tick, the connections that are there, the number of its
/// journal's base, the entries in the order of their numbers, the journal's bytes up to and with the gate behind its last group, and how many groups
/// this run added. Of events that wait for a commit they see which entries the journal keeps, the groups that wait,
/// and what the events are answered with: where these groups are kept, and where the disk refuses them.
#[derive(Drop)]
pub struct Front<D: Disk> {
    inside: Inside<D>,
}

/// A journal, the intake behind it, and what waits for a commit.
#[derive(Drop)]
struct Inside<D: Disk> {
    journal: Journal<D>,
    held: Held,
    batch: Batch,
}

impl<D: Disk> Model for Front<D> {
    ghost use Rattle.intake_front.specs.Fronted.{Fronted};
    ghost use Rattle.intake_front.specs.Waiting.{front_of, IsWaiting};

    ghost Value = { Fronted D };

    ghost view = { λ f. front_of f.inside.journal f.inside.held f.inside.batch };

    ghost invariant = { λ f. IsWaiting D.tells f.inside.journal f.inside.held f.inside.batch };
}

impl<D: Disk> Front<D> {
    /// The intake of a run over a journal of which all groups were read, and whose kept entries these are; they stand on
    /// its base. The configuration of `ready` is the one in force from here on: unless the last configuration, that of
    /// the last Config of the kept entries or of the base, has its very text, this is journaled behind them, a group of
    /// its own, at the moment of the last entry, or of the base where there is none, which is moment 0 for the empty one.
    /// No connection is there. All memory is taken before the write.
    ///
    /// # Errors
    ///
    /// The disk and the kept entries come back with the error. `Full` where the journal would pass a limit with the
    /// configuration, `DiskFault` where the disk failed at its append, `OutOfMemory` where memory was refused.
    pub fn new(
        alloc: Global,
        ready: &Ready,
        journal: Journal<D>,
        kept: Many<Numbered>,
    ) -> Result<Front<D>, Unmade<D>>
        requires read { journal.state ≡ state.Ready }
        requires counted { journal.base.number ≤ most_counted }
        requires journaled { HasJournaled D.tells journal kept (journal.at + 1) }

        ensures made { IfOk result (λ f. f.intake ≡ start journal.base ready.now.conf.text kept (journal.at + 1)) }
        ensures sound { IfOk result (λ f. (flat : List ℕ → Conf) (before : Start)
            → flat ready.now.conf.text ≡ ready.now.conf → StandsFor flat journal.base before
            → IsFull before (log_of kept) → FitsLog flat before (log_of kept)
            → IsSound flat before ready.now.conf f.intake) }
        ensures durable { IfOk result (λ f. IsKept (D.tells f.journal.disk) journal.base f.intake.entries) }
        ensures state { IfOk result (λ f. IsReady journal f.journal) }
        ensures base { IfOk result (λ f. f.journal.base ≡ journal.base) }
        ensures idle { IfOk result (λ f. IsIdle f) }

        ensures back { IfErr result (λ u. u.kept ≡ kept) }
        ensures full { opening_group journal.base ready.now.conf.text kept ≢ []
            → IsTrue (passes_with_all journal (opening_group journal.base ready.now.conf.text kept ∷ []))
            → IfOk result (λ _. ⊥) × IfErr result (λ u. u.error ≢ error.DiskFault) }
        ensures only_full { IfErr result (λ u. (entries bytes : ℕ) → u.error ≡ error.Full entries bytes
            → (opening_group journal.base ready.now.conf.text kept ≢ [])
            × IsTrue (passes_with_all journal (opening_group journal.base ready.now.conf.text kept ∷ []))
            × (entries ≡ entries_with_all journal (opening_group journal.base ready.now.conf.text kept ∷ []))
            × (bytes ≡ bytes_with_all journal (opening_group journal.base ready.now.conf.text kept ∷ []))) }
        ensures fault { IfErr result (λ u. u.error ≡ error.DiskFault → (opening_group journal.base ready.now.conf.text kept ≢ [])
            × Rose (D.tells journal.disk).faults (D.tells u.disk).faults) }
        ensures same { IfErr result (λ u. u.error ≢ error.DiskFault → u.disk ≡ journal.disk) }
        ensures later { (D.tells journal.disk).faults ≤ (D.tells (disk_of result)).faults }
        ensures told { is_some (D.tells (disk_of result)).bytes ≡ is_some (D.tells journal.disk).bytes }

        // A crash at any moment of the call leaves the entries that were kept, or these with the configuration behind
        // them.
        ensures any_moment { IfSome (D.tells journal.disk).bytes
            (λ _. LeavesOnly (D.tells journal.disk) (D.tells (disk_of result))
            (KeepsEither journal.base kept (start journal.base ready.now.conf.text kept (journal.at + 1)).entries)) }
    {
        let mut journal = journal;
        let block = match Block::new(alloc) {
            Ok(block) => block,
            Err(OutOfMemory) => {
                return Err(Unmade {
                    disk: journal.end(),
                    kept,
                    error: FrontError::OutOfMemory,
                });
            }
        };
        match open(alloc, ready, &mut journal, kept) {
            Ok(held) => {
                let batch = Batch::new(alloc, block, &held);
                Ok(Front {
                    inside: Inside {
                        journal,
                        held,
                        batch,
                    },
                })
            }
            Err((kept, error)) => Err(Unmade {
                disk: journal.end(),
                kept,
                error,
            }),
        }
    }

    /// The base on which the entries of the journal stand, which is the empty one where it has none.
    pub fn base(&self) -> &Base
        ensures { result.now ≡ self.entry.now.journal.base }
    {
        self.inside.journal.base()
    }

    /// All entries that were numbered, in the order of their numbers, which count on from that of the base.
    pub fn entries(&self) -> &[Numbered]
        ensures { result.now ≡ self.entry.now.intake.entries }
    {
        self.inside.held.entries.as_slice()
    }

    /// The disk, and all entries that the journal keeps, where no further event is taken.
    pub fn end(self) -> (D, Many<Numbered>)
        ensures disk { result.0 ≡ self.journal.disk }
        ensures entries { result.1 ≡ self.kept }
    {
        let mut inside = self.inside;
        inside.held.entries.truncate(inside.batch.mark.kept);
        (inside.journal.end(), Many::from_vec(inside.held.entries))
    }

    /// Takes an event of the wire, by `handled`: the moment, the Tick that is due, and what the event means for its
    /// connection. The Tick and the values are two groups, which one append keeps or refuses. Only then they are
    /// answered, with the reply to send, the connection to close behind it, the entries that were added, and why the
    /// event was the last one.
    ///
    /// Where the journal has no room for a group, or its disk failed, that group isn't kept and no event follows: a
    /// reply to its values counts all of them as failed, and behind a Tick that isn't kept the event isn't handled.
    ///
    /// Entries that fit stay so where the configuration of `ready` is the one in force behind them: each event is to
    /// be given the one with which the front was made. No value is looked up by a walk over the configuration or the
    /// entries. All memory is taken before the append.
    ///
    /// # Errors
    ///
    /// `OutOfMemory` where memory was refused. No entry was added, and no further event is to be given.
    pub fn on_event(
        &mut self,
        alloc: Global,
        ready: &Ready,
        event: &WireEvent,
    ) -> Result<Answer, OutOfMemory>
        requires going { self.old.journal.state ≡ state.Ready }
        requires idle { IsIdle self.old }

        ensures answer { IfOk result (λ a. a ≡ (handled
            (limits_of self.old.journal (refused_group self.old.intake a.stop)) ready.now.conf self.old.intake
            event.now).answer) }
        ensures after { IfOk result (λ a. self.new.intake ≡ (handled
            (limits_of self.old.journal (refused_group self.old.intake a.stop)) ready.now.conf self.old.intake
            event.now).intake) }
        ensures keeps { OnOk result ((flat : List ℕ → Conf) (before : Start)
            → IsSound flat before ready.now.conf self.old.intake
            → IsSound flat before ready.now.conf self.new.intake) }
        ensures err { OnErr result ((self.new.intake.entries ≡ self.old.intake.entries)
            × (self.new.journal ≡ self.old.journal)) }

        // An answer is given once each crash leaves all entries, unless the disk failed: a reply counts no value as
        // processed then.
        ensures durable { IfOk result (λ a. a.stop ≢ Some stop.DiskFault
            → IsKept (D.tells self.new.journal.disk) self.old.journal.base self.new.intake.entries) }

        // A crash at any moment of the call leaves the entries from before it, or these with all that the event adds.
        ensures any_moment { IfSome (D.tells self.old.journal.disk).bytes
            (λ _. LeavesOnly (D.tells self.old.journal.disk) (D.tells self.new.journal.disk)
            (KeepsEither self.old.journal.base self.old.intake.entries (handled (limits_of self.old.journal 0) ready.now.conf self.old.intake
            event.now).intake.entries)) }

        ensures fault { IfOk result (λ a. a.stop ≡ Some stop.DiskFault
            → Rose (D.tells self.old.journal.disk).faults (D.tells self.new.journal.disk).faults) }
        ensures later { (D.tells self.old.journal.disk).faults ≤ (D.tells self.new.journal.disk).faults }
        ensures told { is_some (D.tells self.new.journal.disk).bytes ≡ is_some (D.tells self.old.journal.disk).bytes }
        ensures state { IfOk result (λ a. a.stop ≢ Some stop.DiskFault → IsReady self.old.journal self.new.journal) }
        ensures broken { IfOk result (λ a. a.stop ≡ Some stop.DiskFault → self.new.journal.state ≡ state.Broken) }
        ensures base { self.new.journal.base ≡ self.old.journal.base }
        ensures idle { IsIdle self.new }
    {
        let inside = &mut self.inside;
        receive_alone(
            alloc,
            &mut inside.journal,
            &mut inside.held,
            &mut inside.batch,
            ready,
            event,
        )
    }

    /// Takes an event of the wire as [`Front::on_event`] does, but for the append: its entries are numbered, its
    /// groups wait for [`Front::commit`], and what it is answered with is held back. Answers why no event is to be
    /// taken after it.
    ///
    /// # Errors
    ///
    /// `OutOfMemory` where memory was refused. No entry was added, and no further event is to be given; what waited
    /// still does, and can be committed.
    pub fn take(
        &mut self,
        alloc: Global,
        collection: &mut Collection<'_>,
        event: &WireEvent,
    ) -> Result<Option<Stop>, OutOfMemory>
        requires going { self.old.journal.state ≡ state.Ready }

        ensures stop { IfOk result (λ s. s ≡ (handled (limits_of self.old.journal 0) collection.old self.old.intake
            event.now).answer.stop) }
        ensures after { OnOk result (self.new.intake ≡ (handled (limits_of self.old.journal 0) collection.old
            self.old.intake event.now).intake) }
        ensures taken { OnOk result ((begun : Intake) → (events : List WireEvent)
            → self.old.intake ≡ (answered (limits_of self.old.journal 0) collection.old begun events).intake
            → (answered (limits_of self.old.journal 0) collection.old begun events).stop ≡ None
            → HasTaken collection.old begun events self.old
            → HasTaken collection.old begun (events ++ event.now ∷ []) self.new) }
        ensures keeps { OnOk result ((flat : List ℕ → Conf) (before : Start)
            → IsSound flat before collection.old self.old.intake
            → IsSound flat before collection.old self.new.intake) }
        ensures same { collection.new ≡ collection.old }
        ensures journal { self.new.journal ≡ self.old.journal }
        ensures kept { self.new.kept ≡ self.old.kept }
        ensures err { OnErr result ((self.new.intake.entries ≡ self.old.intake.entries)
            × (self.new.block ≡ self.old.block) × (self.new.answers ≡ self.old.answers)
            × (self.new.failing ≡ self.old.failing)) }
    {
        let inside = &mut self.inside;
        receive(
            alloc,
            &inside.journal,
            &mut inside.held,
            &mut inside.batch,
            collection,
            event,
        )
    }

    /// Whether one more event may be taken before the commit: what waits has less than 1 MiB, no Tick is among it, and the
    /// last reply that waits tells no agent its items: many of these together would take much memory.
    pub fn goes_on(&self) -> bool
        ensures { result ≡ goes_on self.now.block self.now.answers }
    {
        self.inside.batch.goes_on()
    }

    /// Journals all groups that wait, by one append, and hands out what their events are answered with, in the order
    /// of the events. Takes no memory.
    ///
    /// Where the disk failed none of them is kept and no event follows: the reply to the values of the first group
    /// counts all of them as failed, and the events behind it aren't answered.
    pub fn commit(&mut self, alloc: Global) -> Many<Answer>
        requires going { self.old.journal.state ≡ state.Ready }

        ensures state { (self.new.journal.state ≡ state.Ready) ⊎ (self.new.journal.state ≡ state.Broken) }
        ensures done { self.new.journal.state ≡ state.Ready → (result ≡ self.old.answers)
            × (self.new.intake ≡ self.old.intake) × IsReady self.old.journal self.new.journal }
        ensures failed { self.new.journal.state ≡ state.Broken → (result ≡ self.old.failing)
            × (self.new.intake.entries ≡ self.old.kept) × (0 < length self.old.block)
            × Rose (D.tells self.old.journal.disk).faults (D.tells self.new.journal.disk).faults }
        ensures idle { IsIdle self.new }
        ensures base { self.new.journal.base ≡ self.old.journal.base }

        // Answers are given once each crash leaves all entries, unless the disk failed.
        ensures durable { self.new.journal.state ≡ state.Ready
            → IsKept (D.tells self.new.journal.disk) self.old.journal.base self.new.intake.entries }

        // A crash at any moment of the call leaves the entries that were kept before it, or these with all that waited.
        ensures any_moment { IfSome (D.tells self.old.journal.disk).bytes
            (λ _. LeavesOnly (D.tells self.old.journal.disk) (D.tells self.new.journal.disk)
            (KeepsEither self.old.journal.base self.old.kept self.old.intake.entries)) }

        ensures later { (D.tells self.old.journal.disk).faults ≤ (D.tells self.new.journal.disk).faults }
        ensures told { is_some (D.tells self.new.journal.disk).bytes ≡ is_some (D.tells self.old.journal.disk).bytes }
    {
        let inside = &mut self.inside;
        commit(
            alloc,
            &mut inside.journal,
            &mut inside.held,
            &mut inside.batch,
        )
    }
}
