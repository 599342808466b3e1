//! Laws of queues: what holds whatever they are asked, by any number of sessions.

ghost use Rattle.alert_queue.specs.Law.{KeepsAnswers, KeepsLimits, KeepsOneOpen};

/// For each list of calls whose outcomes are those of a table: the marks made for a recipient are a beginning of what one
/// session makes of its notes, no note has more tries than its limit, and no recipient has two open tries.
pub fn every_schedule()
    ensures answers { KeepsAnswers }
    ensures limits { KeepsLimits }
    ensures one_open { KeepsOneOpen }
{}
