//! Whether the entries that a journal kept fit the configurations in force.

ghost use Rattle.std.specs.Prelude.{◌≡◌, ◌≤◌, ◌+◌, ◌++◌, [], length, map, IsTrue, ◌↔◌, MatchBool, List, ℕ, Some};
ghost use Rattle.entry_laws.specs.InForce.{FitsLog, texts_of, texts_on};
ghost use Rattle.entry_step.specs.Log.{log_of, IsFitting, is_config, is_taking};
ghost use Rattle.entry_step.specs.Start.{Start};
ghost use Rattle.zbx_types.specs.Entries.{moment_of};
ghost use Rattle.zbx_types.specs.Ids.{at_id};
ghost use Rattle.zbx_types.specs.declared.conf.Conf.{Conf};
ghost use Rattle.zbx_types.specs.declared.entries.Numbered.{Numbered};
ghost use Rattle.intake_front.specs.Fronted.{numbered_of};
ghost use Rattle.intake_front.specs.Misfit.{IsFirstMisfit, FitsAfter, HasReached, in_force, log_with};
ghost use Rattle.intake_front.specs.Standing.{StandsFor};

use intake_journal::Group;
use std::marker::Model;
use zbx_types::{Base, Conf, Entry, Moment, by_id};

/// How much of a journal's entries was judged.
#[derive(Clone, Copy)]
struct Judged {
    /// The moment that they have reached, or None where nothing stands before the first of them.
    last: Option<Moment>,
    /// How many configurations there were: that of the base, where it has one, and those of their Configs.
    configs: usize,
}

/// That of no entries on a base.
#[tactic(auto, using(crate::proofs::Misfits::none_reached, crate::proofs::Misfits::base_reached))]
fn judged_on(base: &Base) -> Judged
    ensures { (flat : List ℕ → Conf) (start : Start) → StandsFor flat base.entry.now start
        → HasReached flat start [] result }
{
    if base.text.as_bytes().is_empty() {
        return Judged {
            last: None,
            configs: 0,
        };
    }
    Judged {
        last: Some(base.now),
        configs: 1,
    }
}

/// What judges the groups of a journal one after the other. Contracts see how much was judged: the moment that was
/// reached before the next group, or None where neither a base nor an entry stands before it, and how many
/// configurations there were.
#[derive(Drop)]
pub struct Judge {
    judged: Judged,
}

impl Model for Judge {
    ghost use Rattle.intake_front.specs.declared.fitting.Judged.{Judged};

    ghost Value = { Judged };

    ghost view = { λ j. j.judged };
}

impl Judge {
    /// The judge of a journal's first group, which stands on this base.
    pub fn on(base: &Base) -> Judge
        ensures { (flat : List ℕ → Conf) (start : Start) → StandsFor flat base.entry.now start
            → HasReached flat start [] result }
    {
        Judge {
            judged: judged_on(base),
        }
    }

    /// Whether the entries of a group fit behind those of the groups before, all of which fit. `confs` has that of the
    /// base, where it has one, and the configurations of all Configs up to and with this group's, in their order: a value
    /// is judged beside the configuration in force where it stands. Where the entries fit, the judge goes on behind them.
    /// Takes no memory.
    pub fn judge(&mut self, confs: &[Conf], group: &Group) -> bool
        ensures { (flat : List ℕ → Conf) (start : Start) (before : ℕ) (log : List Numbered)
            → HasReached flat start log self.old
            → confs.now ≡ map flat (texts_on start.stage.conf.text (log_of (log_with before log group.now.entries)))
            → MatchBool result (HasReached flat start (log_with before log group.now.entries) self.new)
            (¬ (FitsLog flat start (log_with before log group.now.entries))) }
    {
        group_fits(confs, &mut self.judged, group)
    }
}

/// The place of the first group of a journal on this base whose entries don't fit, or None where all fit: no moment falls,
/// from the base's on, and each value is of an enabled trapper item of the configuration in force, and no later than its
/// moment; on an empty base the first entry is a Config of moment 0. Whether the item's host is enabled doesn't matter.
/// `confs` has that of the base, where it has one, and the configurations of all Configs, in their order. The place is
/// that of the group's gate, in bytes from the file's beginning. Takes no memory.
pub fn first_misfit(base: &Base, confs: &[Conf], kept: &[Group]) -> Option<u64>
    ensures { (flat : List ℕ → Conf) (start : Start) → StandsFor flat base.entry.now start
        → confs.now ≡ map flat (texts_on start.stage.conf.text (numbered_of start.number kept.now))
        → IsFirstMisfit flat start kept.now result }
{
    let mut judged = judged_on(base);
    for group in kept {
        if !group_fits(confs, &mut judged, group) {
            return Some(group.at);
        }
    }
    None
}

/// Whether the entries of a group fit behind those that were judged, with which they are judged then.
fn group_fits(confs: &[Conf], judged: &mut Judged, group: &Group) -> bool
    ensures { (flat : List ℕ → Conf) (start : Start) (before : ℕ) (log : List Numbered) (rest : List Conf)
        → HasReached flat start log judged.old
        → confs.now ≡ map flat (texts_on start.stage.conf.text (log_of (log_with before log group.now.entries))) ++ rest
        → MatchBool result (HasReached flat start (log_with before log group.now.entries) judged.new)
        (¬ (FitsLog flat start (log_with before log group.now.entries))) }
{
    entries_fit(confs, judged, group.entries.as_slice())
}

/// Whether entries fit behind those that were judged, with which they are judged then. The configurations of their
/// Configs stand behind those of the Configs before, and more may follow.
fn entries_fit(confs: &[Conf], judged: &mut Judged, entries: &[Entry]) -> bool
    ensures { (flat : List ℕ → Conf) (start : Start) (before : ℕ) (log : List Numbered) (rest : List Conf)
        → HasReached flat start log judged.old
        → confs.now ≡ map flat (texts_on start.stage.conf.text (log_of (log_with before log entries.now))) ++ rest
        → MatchBool result (HasReached flat start (log_with before log entries.now) judged.new)
        (¬ (FitsLog flat start (log_with before log entries.now))) }
{
    for entry in entries {
        if !entry_fits(confs, judged, entry) {
            return false;
        }
        *judged = judged_with(judged, entry);
    }
    true
}

fn is_config(entry: &Entry) -> bool
    ensures { result ≡ is_config entry.now }
{
    match entry {
        Entry::Config { .. } => true,
        Entry::Value { .. } | Entry::Tick { .. } => false,
    }
}

/// What was judged with one more entry.
fn judged_with(judged: &Judged, entry: &Entry) -> Judged
    ensures last { result.last ≡ Some (moment_of entry.now) }
    ensures configs { judged.now.configs + length (texts_of entry.now) ≤ usize.MAX
        → result.configs ≡ judged.now.configs + length (texts_of entry.now) }
{
    let configs = match entry {
        Entry::Config { .. } => judged.configs.saturating_add(1),
        Entry::Value { .. } | Entry::Tick { .. } => judged.configs,
    };
    Judged {
        last: Some(entry.moment()),
        configs,
    }
}

/// Whether an entry may bring a value for an item of a configuration.
fn is_taking(conf: &Conf, item: u32) -> bool
    ensures { result ≡ is_taking (at_id conf.now.items item) }
{
    match by_id(conf.items.as_slice(), item) {
        Some(item) => item.takes_values(),
        None => false,
    }
}

/// The same in the configuration in force after so many Configs.
fn is_taking_after(confs: &[Conf], configs: usize, item: u32) -> bool
    ensures { result ≡ is_taking (at_id (in_force confs.now configs).items item) }
{
    match confs.get(configs.saturating_sub(1)) {
        Some(conf) => is_taking(conf, item),
        None => false,
    }
}

/// Whether an entry fits the configuration in force after so many Configs.
fn is_fitting(confs: &[Conf], configs: usize, entry: &Entry) -> bool
    ensures { IsTrue result ↔ IsFitting (in_force confs.now configs) entry.now }
{
    match entry {
        Entry::Config { .. } | Entry::Tick { .. } => true,
        Entry::Value {
            now,
            item,
            time,
            ..
        } => is_taking_after(confs, configs, *item) && *time <= *now,
    }
}

/// Whether an entry fits behind those that were judged.
fn entry_fits(confs: &[Conf], judged: &Judged, entry: &Entry) -> bool
    ensures { IsTrue result
        ↔ FitsAfter (in_force confs.now judged.now.configs) judged.now.last entry.now }
{
    match judged.last {
        None => is_config(entry) && entry.moment() == Moment::zero(),
        Some(last) => last <= entry.moment() && is_fitting(confs, judged.configs, entry),
    }
}
