//! What one session works with.

/// A spawner and a clock, of one session.
#[derive(Drop)]
pub struct Hand<W, C> {
    /// Runs the programs.
    pub spawner: W,
    /// Tells the moments, and rests.
    pub clock: C,
}
