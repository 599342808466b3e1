//! Where a log ends.

use zbx_types::Moment;

/// Where a log ends: what a base has that no cell keeps (this project's own).
#[derive(Clone, Copy)]
pub struct Place {
    /// The number of the last entry.
    pub number: u64,
    /// When it was taken.
    pub now: Moment,
    /// When the first Tick was taken, if there was one.
    pub first_tick: Option<Moment>,
    /// When the last Tick was taken, if there was one.
    pub last_tick: Option<Moment>,
    /// How many bytes the lines of all records have.
    pub lines: u64,
}
