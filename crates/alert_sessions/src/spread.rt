//! Work that is spread over threads, with tokens that count what each does.
//!
//! Each type behind a `&mut` is one parameter here: a struct with two parameters of its own isn't taken by a recursion
//! through closures of `join_mut`.

ghost use Rattle.std.specs.Prelude.{◌≡◌, ◌≤◌, ◌<◌, ◌+◌, length, map};
ghost use Rattle.std.specs.Thread.{IsSync};
ghost use Rattle.alert_sessions.specs.Runs.{Counts, CountTogether};

use crate::counting::Mine;
use crate::hands::Hand;
use crate::names::CallName;
use crate::orders::Orders;
use crate::session::session;
use crate::shared::Shared;
use outside::{Clock, Disk, Spawner};
use std::sync::Wait;
use std::sync::ledger::Ledger;
use std::thread::{Threads, join_mut};

/// What a thread counts with.
pub(crate) trait Tokens {
    ghost use Rattle.std.specs.Prelude.{◌≡◌, ◌<◌, ◌+◌, ℕ};

    ghost failed_parts: { Self → ℕ };

    ghost good_parts: { Self → ℕ };

    ghost failures: { Self → ℕ };

    ghost successes: { Self → ℕ };

    /// Gives so many parts away, that have counted nothing.
    fn split_off(&mut self, parts: u64) -> Self
        requires { (parts < failed_parts self.old) × (parts < good_parts self.old) }
        ensures given { (failed_parts result ≡ parts) × (good_parts result ≡ parts) × (failures result ≡ 0) × (successes result ≡ 0) }
        ensures left { (failed_parts self.new + parts ≡ failed_parts self.old) × (good_parts self.new + parts ≡ good_parts self.old) × (failures self.new ≡ failures self.old) × (successes self.new ≡ successes self.old) };

    /// Takes other parts back, with what they have counted.
    fn merge(&mut self, other: Self)
        ensures parts { (failed_parts self.new ≡ failed_parts self.old + failed_parts other) × (good_parts self.new ≡ good_parts self.old + good_parts other) }
        ensures amounts { (failures self.new ≡ failures self.old + failures other) × (successes self.new ≡ successes self.old + successes other) };
}

/// What is counted.
pub(crate) trait Counted {
    ghost use Rattle.outside.specs.Spawning.{SpawnerTells};

    ghost tells: { Self → SpawnerTells };
}

/// What a thread does.
pub(crate) trait Work<T: Tokens, H: Counted, R: Wait> {
    ghost use Rattle.std.specs.Prelude.{◌≡◌, ◌<◌, ℕ, List};
    ghost use Rattle.alert_sessions.specs.Runs.{Counts};

    /// The recipients of the notes that it works at.
    ghost homes: { List ℕ };

    /// Works with one hand.
    fn work(&self, rt: &R, orders: &Orders, mine: &mut T, hand: &mut H)
        requires homes { orders.now.homes.items ≡ homes }
        requires parts { (0 < T.failed_parts mine.old) × (0 < T.good_parts mine.old) }
        ensures same { (T.failed_parts mine.new ≡ T.failed_parts mine.old) × (T.good_parts mine.new ≡ T.good_parts mine.old) }
        ensures counts { Counts orders.now (T.failures mine.old) (T.failures mine.new) (T.successes mine.old) (T.successes mine.new) (H.tells hand.old) (H.tells hand.new) };
}

impl<F: Ledger, S: Ledger> Tokens for Mine<F, S> {
    ghost failed_parts = { λ m. m.failures.parts };

    ghost good_parts = { λ m. m.successes.parts };

    ghost failures = { λ m. m.failures.amount };

    ghost successes = { λ m. m.successes.amount };

    fn split_off(&mut self, parts: u64) -> Mine<F, S> {
        let failures = self.failures.split_off(parts, 0);
        let successes = self.successes.split_off(parts, 0);
        Mine {
            failures,
            successes,
        }
    }

    fn merge(&mut self, other: Mine<F, S>) {
        let Mine {
            failures,
            successes,
        } = other;
        self.failures.merge(failures);
        self.successes.merge(successes);
    }
}

impl<W: Spawner, C: Clock> Counted for Hand<W, C> {
    ghost tells = { λ h. W.tells h.spawner };
}

impl<N, F, S, D, W, C, R> Work<Mine<F, S>, Hand<W, C>, R> for Shared<N, F, S, D>
where
    N: CallName,
    F: Ledger,
    S: Ledger,
    D: Disk,
    W: Spawner,
    C: Clock,
    R: Wait,
{
    ghost homes = { N.start.homes };

    fn work(&self, rt: &R, orders: &Orders, mine: &mut Mine<F, S>, hand: &mut Hand<W, C>) {
        session(rt, self, orders, mine, hand);
    }
}

/// One thread's work, where there is one hand.
fn lone<R, Q, T, H>(rt: &R, shared: &Q, orders: &Orders, mine: &mut T, hands: &mut [H])
where
    R: Wait,
    Q: Work<T, H, R>,
    T: Tokens,
    H: Counted,
    requires one { length hands.old ≡ 1 }
    requires homes { orders.now.homes.items ≡ Q.homes }
    requires parts { (0 < T.failed_parts mine.old) × (0 < T.good_parts mine.old) }
    ensures same { (T.failed_parts mine.new ≡ T.failed_parts mine.old) × (T.good_parts mine.new ≡ T.good_parts mine.old) }
    ensures counts { CountTogether orders.now (T.failures mine.old) (T.failures mine.new) (T.successes mine.old) (T.successes mine.new) (map H.tells hands.old) (map H.tells hands.new) }
{
    let first = &mut hands[0];
    shared.work(rt, orders, mine, first);
}

/// Work with each hand, each but one in a thread of its own.
pub(crate) fn spread<R, Q, T, H>(rt: &R, shared: &Q, orders: &Orders, mine: &mut T, hands: &mut [H])
where
    R: Threads + Wait + Sync,
    Q: Work<T, H, R> + Sync,
    T: Tokens + Send,
    H: Counted + Send,
    requires some { 0 < length hands.old }
    requires homes { orders.now.homes.items ≡ Q.homes }
    requires parts { (length hands.old ≤ T.failed_parts mine.old) × (length hands.old ≤ T.good_parts mine.old) }
    ensures same { (T.failed_parts mine.new ≡ T.failed_parts mine.old) × (T.good_parts mine.new ≡ T.good_parts mine.old) }
    ensures counts { CountTogether orders.now (T.failures mine.old) (T.failures mine.new) (T.successes mine.old) (T.successes mine.new) (map H.tells hands.old) (map H.tells hands.new) }
{
    if hands.len() < 2 {
        lone(rt, shared, orders, mine, hands);
        return;
    }
    let half = hands.len() / 2;
    let mut given = mine.split_off(half as u64);
    {
        let (front, back) = hands.split_at_mut(half);
        let theirs = &mut given;
        let own = &mut *mine;
        join_mut(
            rt,
            &mut ||
                requires { IsSync R.row × IsSync Q.row × (orders.now.homes.items ≡ Q.homes) × (0 < length front.now) × (length front.now ≤ T.failed_parts theirs.now) × (length front.now ≤ T.good_parts theirs.now) }
                ensures same { (T.failed_parts theirs.exit.now ≡ T.failed_parts theirs.entry.now) × (T.good_parts theirs.exit.now ≡ T.good_parts theirs.entry.now) }
                ensures counts { CountTogether orders.entry.now (T.failures theirs.entry.now) (T.failures theirs.exit.now) (T.successes theirs.entry.now) (T.successes theirs.exit.now) (map H.tells front.entry.now) (map H.tells front.exit.now) }
            { spread(rt, shared, orders, theirs, front) },
            &mut ||
                requires { IsSync R.row × IsSync Q.row × (orders.now.homes.items ≡ Q.homes) × (0 < length back.now) × (length back.now ≤ T.failed_parts own.now) × (length back.now ≤ T.good_parts own.now) }
                ensures same { (T.failed_parts own.exit.now ≡ T.failed_parts own.entry.now) × (T.good_parts own.exit.now ≡ T.good_parts own.entry.now) }
                ensures counts { CountTogether orders.entry.now (T.failures own.entry.now) (T.failures own.exit.now) (T.successes own.entry.now) (T.successes own.exit.now) (map H.tells back.entry.now) (map H.tells back.exit.now) }
            { spread(rt, shared, orders, own, back) },
        );
    }
    mine.merge(given);
}
