//! The occasions on which triggers are evaluated.

ghost use Rattle.std.specs.Prelude.{◌≡◌};
ghost use Rattle.entry_step.specs.Log.{tick_with};
ghost use Rattle.entry_step.specs.Occasions.{is_value, occasion_of};

use zbx_types::{Entry, Moment, Numbered};

/// The entry at which triggers are evaluated.
#[derive(Clone, Copy)]
pub(crate) struct Occasion {
    /// Its number.
    pub(crate) number: u64,
    /// Its moment.
    pub(crate) now: Moment,
    /// Whether it is a Value.
    pub(crate) is_value: bool,
    /// The moment of the first Tick up to and with it.
    pub(crate) tick: Option<Moment>,
}

fn is_value(entry: &Entry) -> bool
    ensures { result ≡ is_value entry.now }
{
    match entry {
        Entry::Value { .. } => true,
        Entry::Config { .. } | Entry::Tick { .. } => false,
    }
}

/// The moment of the first Tick, with one more entry.
fn tick_with(first: Option<Moment>, entry: &Entry) -> Option<Moment>
    ensures { result ≡ tick_with first entry.now }
{
    match (first, entry) {
        (Some(tick), _) => Some(tick),
        (None, Entry::Tick { now }) => Some(*now),
        (None, _) => None,
    }
}

/// The occasion of an entry, where this was the first Tick before it.
pub(crate) fn occasion_of(first: Option<Moment>, entry: &Numbered) -> Occasion
    ensures { result ≡ occasion_of first entry.now.number entry.now.entry }
{
    Occasion {
        number: entry.number,
        now: entry.entry.moment(),
        is_value: is_value(&entry.entry),
        tick: tick_with(first, &entry.entry),
    }
}
