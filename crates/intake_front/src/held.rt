//! The intake of a run, without its journal.

ghost use Rattle.std.specs.Prelude.{◌≡◌, ◌≤◌, ◌<◌, length};
ghost use Rattle.std.specs.Option.{option_map};
ghost use Rattle.intake_journal.specs.Based.{most_counted};
ghost use Rattle.intake_front.specs.Intake.{resumed, half_minute, half_with, last_tick};
ghost use Rattle.entry_step.specs.Log.{log_of, moment_from};

use std::alloc::Global;
use std::marker::Model;
use wire_core::Table;
use zbx_types::{Base, Entry, Many, Moment, Numbered, OutOfMemory};

/// What a run holds between two events. Contracts see it as an `Intake`.
#[derive(Drop)]
pub(crate) struct Held {
    pub(crate) now: Moment,
    pub(crate) tick: Option<u32>,
    pub(crate) table: Table,
    pub(crate) before: u64,
    pub(crate) entries: Vec<Numbered>,
    pub(crate) bytes: u64,
    pub(crate) groups: u64,
}

impl Model for Held {
    ghost use Rattle.intake_front.specs.Intake.{Intake};
    ghost use Rattle.intake_journal.specs.Based.{most_counted};
    ghost use Rattle.std.specs.Prelude.{◌≤◌, length};

    ghost Value = { Intake };

    ghost view = { λ h. record { now = h.now; tick = h.tick; peers = h.table; before = h.before; entries = h.entries.items; bytes = h.bytes; groups = h.groups } };

    ghost invariant = { λ h. (h.before ≤ most_counted) × (h.groups ≤ length h.entries.items) };
}

/// The moment of the last entry, or this one where there is none.
pub(crate) fn last_moment(before: Moment, entries: &[Numbered]) -> Moment
    ensures { result ≡ moment_from before (log_of entries.now) }
{
    match entries.last() {
        Some(last) => last.entry.moment(),
        None => before,
    }
}

/// The half minute of the last Tick, with one entry more.
fn half_with(last: Option<u32>, entry: &Entry) -> Option<u32>
    ensures { result ≡ half_with last entry.now }
{
    match entry {
        Entry::Tick { now } => Some(now.half_minutes()),
        Entry::Config { .. } | Entry::Value { .. } => last,
    }
}

/// The half minute of a Tick.
fn half_of(tick: Option<Moment>) -> Option<u32>
    ensures { result ≡ option_map half_minute tick }
{
    match tick {
        Some(now) => Some(now.half_minutes()),
        None => None,
    }
}

/// The half minute of the last Tick, where this is the last one before the entries.
#[tactic(auto, using(crate::proofs::Ticks::last_more))]
fn last_half(before: Option<Moment>, entries: &[Numbered]) -> Option<u32>
    ensures { result ≡ option_map half_minute (last_tick before (log_of entries.now)) }
{
    let mut last = half_of(before);
    for numbered in entries {
        last = half_with(last, &numbered.entry);
    }
    last
}

impl Held {
    /// The intake of a run that goes on behind entries that stand on a base, in a journal of so many bytes.
    pub(crate) fn resumed(alloc: Global, base: &Base, entries: Many<Numbered>, bytes: u64) -> Held
        requires { base.now.number ≤ most_counted }
        ensures { result ≡ resumed base.entry.now entries bytes }
    {
        let now = last_moment(base.now, entries.as_slice());
        let tick = last_half(base.last_tick, entries.as_slice());
        Held {
            now,
            tick,
            table: Table::new(alloc),
            before: base.number,
            entries: entries.into_vec(),
            bytes,
            groups: 0,
        }
    }
}
