//! Where the entries of a journal end.

ghost use Rattle.std.specs.Prelude.{◌≡◌};
ghost use Rattle.base_laws.specs.Bases.{last_tick};
ghost use Rattle.entry_step.specs.Log.{log_of, moment_from, tick_of};
ghost use Rattle.journal_copy.specs.Places.{number_from, place_of};

use base_state::Place;
use zbx_types::{Base, Entry, Moment, Numbered};

/// The moment of a Tick.
fn tick_of(entry: &Entry) -> Option<Moment>
    ensures { result ≡ tick_of entry.now }
{
    match entry {
        Entry::Tick { now } => Some(*now),
        Entry::Config { .. } | Entry::Value { .. } => None,
    }
}

/// The last Tick among entries, or that before them.
#[tactic(auto, using(crate::proofs::Places::next_tick, crate::proofs::Places::all_ticks))]
fn last_tick(before: Option<Moment>, entries: &[Numbered]) -> Option<Moment>
    ensures { result ≡ last_tick before (log_of entries.now) }
{
    let mut last = before;
    for numbered in entries {
        last = tick_of(&numbered.entry).or(last);
    }
    last
}

/// The number of the last entry, or that before them.
#[tactic(auto, using(crate::proofs::Places::number_last, crate::proofs::Places::number_none))]
fn last_number(before: u64, entries: &[Numbered]) -> u64
    ensures { result ≡ number_from before (log_of entries.now) }
{
    match entries.last() {
        Some(last) => last.number,
        None => before,
    }
}

/// The moment of the last entry, or that before them.
#[tactic(auto, using(crate::proofs::Places::moment_last, crate::proofs::Places::moment_none))]
fn last_moment(before: Moment, entries: &[Numbered]) -> Moment
    ensures { result ≡ moment_from before (log_of entries.now) }
{
    match entries.last() {
        Some(last) => last.entry.moment(),
        None => before,
    }
}

/// The place where entries on a base end, with this first Tick and so many bytes of all lines.
pub(crate) fn place_of(
    base: &Base,
    entries: &[Numbered],
    first_tick: Option<Moment>,
    lines: u64,
) -> Place
    ensures { result ≡ place_of base.entry.now entries.now first_tick lines }
{
    Place {
        number: last_number(base.number, entries),
        now: last_moment(base.now, entries),
        first_tick,
        last_tick: last_tick(base.last_tick, entries),
        lines,
    }
}
