//! Groups of entries, and what files begin with.

use zbx_types::{Base, Entry, Many};

/// A group of entries that a journal keeps.
#[derive(Drop)]
pub struct Group {
    /// The place of its gate, counted in bytes from the file's beginning.
    pub at: u64,
    /// Its entries, at least one.
    pub entries: Many<Entry>,
}

/// What a file begins with.
#[derive(Drop)]
pub(crate) enum Beginning {
    /// Something else than a journal does.
    NotOurs,
    /// A journal whose base isn't complete.
    Unfinished,
    /// A journal that is said to have a base, and hasn't.
    Damaged,
    /// A journal with its first gate at this place, and this base, which is the empty one where it has none.
    Begun { first: u64, base: Base },
}
