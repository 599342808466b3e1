//! Events that were taken and wait for their commit.

ghost use Rattle.std.specs.Prelude.{◌≡◌, ◌⊎◌, ◌≤◌, ◌<◌, ◌++◌, ◌+◌, ◌-◌, [], ◌∷◌, length, take, reverse, slice_set, Option, None, false};
ghost use Rattle.outside.specs.Causes.{Rose};
ghost use Rattle.intake_journal.specs.Based.{most_counted};
ghost use Rattle.intake_journal.specs.declared.state.State.TheVariants as state;
ghost use Rattle.intake_front.specs.Fronted.{IsReady, all_of};
ghost use Rattle.intake_front.specs.Batch.{has_list, begins_with_list, goes_on};
ghost use Rattle.intake_front.specs.Staging.{IsWritten};
ghost use Rattle.intake_front.specs.Waiting.{failing_of, first_with, mark_of, back_to, has_tick, IsBatch, IsWaiting};

use crate::answer::{Answer, Reply};
use crate::held::Held;
use crate::staging::write;
use agent_json::tells_items;
use intake_journal::{Block, Journal};
use outside::Disk;
use std::alloc::Global;
use std::mem::replace;
use zbx_types::{Many, Reserved};

/// So many bytes of groups, with the gate behind the last, are enough for a commit: 1 MiB and a gate.
const LONGEST_WAIT: u64 = 1_048_577;

/// The event of the first group that waits.
#[derive(Drop)]
pub(crate) struct First {
    /// How many answers stand before its own.
    pub(crate) at: usize,
    /// What it is answered with where the disk refuses that group.
    pub(crate) answer: Answer,
}

/// Where an intake stood.
#[derive(Clone, Copy)]
pub(crate) struct Mark {
    /// How many entries it had.
    pub(crate) kept: usize,
    /// The half minute of its last Tick.
    pub(crate) tick: Option<u32>,
    /// The journal's bytes.
    pub(crate) bytes: u64,
    /// How many groups were kept in the run.
    pub(crate) groups: u64,
}

/// What waits for a commit.
#[derive(Drop)]
pub(crate) struct Batch {
    /// The groups.
    pub(crate) block: Block,
    /// What the events are answered with.
    pub(crate) answers: Reserved<Answer>,
    /// The event of the first group, if there is one.
    pub(crate) first: Option<First>,
    /// Whether a Tick is among the groups.
    pub(crate) is_ticked: bool,
    /// Where the intake stood at the last commit.
    pub(crate) mark: Mark,
}

impl Mark {
    /// Where an intake stands.
    pub(crate) fn of(held: &Held) -> Mark
        ensures value { result ≡ mark_of held.entry.now }
        ensures few { held.entry.now.groups ≤ length held.entry.now.entries }
        ensures counted { held.entry.now.before ≤ most_counted }
    {
        Mark {
            kept: held.entries.len(),
            tick: held.tick,
            bytes: held.bytes,
            groups: held.groups,
        }
    }
}

/// Takes the intake back to where it stood. Takes no memory.
fn back_to(held: &mut Held, mark: Mark)
    requires few { mark.groups ≤ mark.kept }
    requires within { mark.kept ≤ length held.old.entries }
    ensures { held.new ≡ back_to held.old mark }
{
    held.entries.truncate(mark.kept);
    held.tick = mark.tick;
    held.bytes = mark.bytes;
    held.groups = mark.groups;
}

/// Puts an answer in the place of another.
fn put_at(answers: &mut [Answer], at: usize, answer: Answer)
    requires { at < length answers.old }
    ensures { answers.new ≡ slice_set answers.old at answer }
{
    answers[at] = answer;
}

/// What events are answered with where the disk refuses the first group that waits. Takes no memory.
#[tactic(auto, using(crate::proofs::Batches::cut_at))]
fn failing(answers: Many<Answer>, first: First) -> Many<Answer>
    requires { first.at < length answers }
    ensures { result ≡ take first.at answers ++ first.answer ∷ [] }
{
    let mut items = answers.into_vec();
    put_at(items.as_mut_slice(), first.at, first.answer);
    items.truncate(first.at + 1);
    Many::from_vec(items)
}

/// The event of the first group that waits, with one more whose answer stands at a place.
fn first_with(first: Option<First>, at: usize, fault: Option<Answer>) -> Option<First>
    ensures { result ≡ first_with first at fault }
{
    match first {
        Some(first) => Some(first),
        None => match fault {
            Some(answer) => Some(First { at, answer }),
            None => None,
        },
    }
}

/// Whether a reply tells an agent its items.
fn has_list(reply: &Option<Reply>) -> bool
    ensures { result ≡ has_list reply.now }
{
    match reply {
        Some(reply) => tells_items(reply.bytes.as_slice()),
        None => false,
    }
}

/// Whether the last of these answers tells an agent its items.
fn ends_with_list(answers: &[Answer]) -> bool
    ensures { result ≡ begins_with_list (reverse answers.now) }
{
    match answers.last() {
        Some(answer) => has_list(&answer.reply),
        None => false,
    }
}

impl Batch {
    /// Nothing waits, over a block without groups.
    pub(crate) fn new(alloc: Global, block: Block, held: &Held) -> Batch
        requires { block ≡ [] }
        ensures block { result.block ≡ [] }
        ensures answers { result.answers.items ≡ [] }
        ensures first { result.first ≡ None }
        ensures ticked { result.is_ticked ≡ false }
        ensures mark { result.mark ≡ mark_of held.entry.now }
        ensures batch { IsBatch held.entry.now result }
    {
        Batch {
            block,
            answers: Reserved::new(alloc),
            first: None,
            is_ticked: false,
            mark: Mark::of(held),
        }
    }

    /// Whether one more event may be taken before the commit.
    pub(crate) fn goes_on(&self) -> bool
        requires { self.now.is_ticked ≡ has_tick (all_of self.now.block) }
        ensures { result ≡ goes_on self.now.block self.now.answers.items }
    {
        self.block.size() < LONGEST_WAIT
            && !self.is_ticked
            && !ends_with_list(self.answers.as_slice())
    }

    /// Adds what an event is answered with, and with what where the disk refuses its first group.
    pub(crate) fn push(&mut self, now: Answer, fault: Option<Answer>)
        requires { 0 < self.old.answers.room }
        ensures answers { self.new.answers.items ≡ self.old.answers.items ++ now ∷ [] }
        ensures first { self.new.first ≡ first_with self.old.first (length self.old.answers.items) fault }
        ensures block { self.new.block ≡ self.old.block }
        ensures ticked { self.new.is_ticked ≡ self.old.is_ticked }
        ensures mark { self.new.mark ≡ self.old.mark }
    {
        let first = replace(&mut self.first, None);
        self.first = first_with(first, self.answers.as_slice().len(), fault);
        self.answers.push(now);
    }
}

/// Writes what waits, and gives what the events are answered with. Where the disk failed the intake is that of the last
/// commit again, but for its moment and its connections. Takes no memory.
pub(crate) fn commit<D: Disk>(
    alloc: Global,
    journal: &mut Journal<D>,
    held: &mut Held,
    batch: &mut Batch,
) -> Many<Answer>
    requires ready { journal.old.state ≡ state.Ready }
    requires waiting { IsWaiting D.tells journal.old held.old batch.old }
    ensures state { (journal.new.state ≡ state.Ready) ⊎ (journal.new.state ≡ state.Broken) }
    ensures done { journal.new.state ≡ state.Ready → (result ≡ batch.old.answers.items) × (held.new ≡ held.old)
        × IsReady journal.old journal.new }
    ensures failed { journal.new.state ≡ state.Broken → (result ≡ failing_of batch.old.answers.items batch.old.first)
        × (held.new ≡ back_to held.old batch.old.mark)
        × (0 < length batch.old.block) × Rose (D.tells journal.old.disk).faults (D.tells journal.new.disk).faults }
    ensures base { journal.new.base ≡ journal.old.base }
    ensures written { IsWritten (D.tells journal.old.disk) (D.tells journal.new.disk) journal.old.base
        (take batch.old.mark.kept held.old.entries) held.old.entries }
    ensures waiting { IsWaiting D.tells journal.new held.new batch.new }
    ensures block { batch.new.block ≡ [] }
    ensures answers { batch.new.answers.items ≡ [] }
    ensures first { batch.new.first ≡ None }
{
    let answers = replace(&mut batch.answers, Reserved::new(alloc)).into_many();
    let first = replace(&mut batch.first, None);
    let is_kept = write(journal, &batch.block);
    batch.block.clear();
    batch.is_ticked = false;
    if is_kept {
        batch.mark = Mark::of(held);
        return answers;
    }
    back_to(held, batch.mark);
    match first {
        Some(first) => failing(answers, first),
        None => answers,
    }
}
