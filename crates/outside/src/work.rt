//! What is left of a workload.

ghost use Rattle.std.specs.Prelude.{◌≤◌, ◌+◌};

/// What comes next of a workload.
#[derive(Clone, Copy)]
pub(crate) enum Stage {
    /// The next connection opens, or the wire closes.
    Opening,
    /// The connection that opened last brings its frame.
    Bringing,
    /// Nothing.
    Ended,
}

/// What is left of a workload.
#[derive(Clone, Copy)]
pub(crate) struct Work {
    /// What comes next.
    pub(crate) stage: Stage,
    /// How many connections are still to open.
    pub(crate) frames: u32,
    /// How many have opened.
    pub(crate) opened: u32,
    /// The state of the draws.
    pub(crate) state: u64,
    /// How many values no frame has held yet.
    pub(crate) left: u64,
    pub(crate) ghost bounded: { opened + frames ≤ 4000 },
}
