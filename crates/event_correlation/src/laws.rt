//! What follows from the definition of what closes. The function does nothing: it stands for its clause.

ghost use Rattle.event_correlation.specs.Laws.{WithinReach};

/// Old problems whose triggers share no rule's reach with the new one's may be left out: where the tags of each problem
/// have, in order, the names of its trigger's tags, the same closes.
pub fn within_reach()
    ensures { WithinReach }
{}
