//! What sessions count: their tries that failed and those that succeeded.

ghost use Rattle.std.specs.Prelude.{◌≡◌, ◌<◌, ◌+◌};
ghost use Rattle.alert_sessions.specs.Runs.{fails, succeeds};

use std::sync::ledger::{Book, Ledger, Share};

/// What a session has counted: its tries that failed and those that succeeded.
pub(crate) struct Mine<F: Ledger, S: Ledger> {
    pub(crate) failures: Share<F>,
    pub(crate) successes: Share<S>,
}

/// Counts a try, in the books of all sessions and in one's own.
pub(crate) fn count<F: Ledger, S: Ledger>(
    failures: &mut Book<F>,
    successes: &mut Book<S>,
    mine: &mut Mine<F, S>,
    ok: bool,
)
    requires parts { (0 < mine.old.failures.parts) × (0 < mine.old.successes.parts) }
    ensures same { (mine.new.failures.parts ≡ mine.old.failures.parts) × (mine.new.successes.parts ≡ mine.old.successes.parts) }
    ensures failures { mine.new.failures.amount ≡ mine.old.failures.amount + fails ok }
    ensures successes { mine.new.successes.amount ≡ mine.old.successes.amount + succeeds ok }
    ensures book { failures.new.total ≡ failures.old.total + fails ok }
    ensures other { successes.new.total ≡ successes.old.total + succeeds ok }
{
    if ok {
        successes.add(&mut mine.successes, 1);
    } else {
        failures.add(&mut mine.failures, 1);
    }
}
