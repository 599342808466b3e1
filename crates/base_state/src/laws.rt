//! What the base of what a run holds comes to. The function does nothing: it stands for its clause.

ghost use Rattle.base_state.specs.Telling.{WholeBases};

/// The base that [`base_of`](crate::base_of) gives is that of each whole log that the cells stand for and that fits the start
/// that it stands on: what [`restore`](crate::restore) makes of it goes on as if it had read these entries.
pub fn whole_bases()
    ensures { WholeBases }
{}
