//! The work of one session.

ghost use Rattle.std.specs.Prelude.{◌≡◌, ◌≤◌, ◌<◌, ◌⊎◌, true, is_some, length};
ghost use Rattle.alert_queue.specs.Queues.{IsOver};
ghost use Rattle.alert_sessions.specs.Runs.{Counts};

use crate::counting::Mine;
use crate::hands::Hand;
use crate::names::CallName;
use crate::orders::Orders;
use crate::running::run_note;
use crate::shared::Shared;
use crate::state::{Next, State};
use outside::{Clock, Disk, Spawner};
use std::alloc::Global;
use std::sync::Wait;
use std::sync::ledger::Ledger;
use zbx_types::{Moment, OutOfMemory};

/// Tries a note, and says how it ended.
fn try_note<N, F, S, D, W, C, R>(
    rt: &R,
    shared: &Shared<N, F, S, D>,
    orders: &Orders,
    mine: &mut Mine<F, S>,
    hand: &mut Hand<W, C>,
    note: u32,
)
where
    N: CallName,
    F: Ledger,
    S: Ledger,
    D: Disk,
    W: Spawner,
    C: Clock,
    R: Wait,
    requires note { (1 ≤ note) × (note ≤ length orders.now.homes.items) }
    requires parts { (0 < mine.old.failures.parts) × (0 < mine.old.successes.parts) }
    ensures same { (mine.new.failures.parts ≡ mine.old.failures.parts) × (mine.new.successes.parts ≡ mine.old.successes.parts) }
    ensures counts { Counts orders.now mine.old.failures.amount mine.new.failures.amount mine.old.successes.amount mine.new.successes.amount (W.tells hand.old.spawner) (W.tells hand.new.spawner) }
{
    match run_note(shared.alloc, orders, &mut hand.spawner, note) {
        Ok(ok) => {
            let now = hand.clock.now();
            shared.settle(rt, note, ok, now, mine);
        }
        Err(OutOfMemory) => shared.stop(rt),
    }
}

/// What a session does next: it tries a note, rests, or waits. Answers until when it has rested, or None where it ends.
#[tactic(auto, using(crate::proofs::Sums::counts_none))]
fn turn<N, F, S, D, W, C, R>(
    rt: &R,
    shared: &Shared<N, F, S, D>,
    orders: &Orders,
    mine: &mut Mine<F, S>,
    hand: &mut Hand<W, C>,
    rested: Moment,
) -> Option<Moment>
where
    N: CallName,
    F: Ledger,
    S: Ledger,
    D: Disk,
    W: Spawner,
    C: Clock,
    R: Wait,
    requires homes { orders.now.homes.items ≡ N.start.homes }
    requires parts { (0 < mine.old.failures.parts) × (0 < mine.old.successes.parts) }
    ensures same { (mine.new.failures.parts ≡ mine.old.failures.parts) × (mine.new.successes.parts ≡ mine.old.successes.parts) }
    ensures counts { Counts orders.now mine.old.failures.amount mine.new.failures.amount mine.old.successes.amount mine.new.successes.amount (W.tells hand.old.spawner) (W.tells hand.new.spawner) }
{
    let now = hand.clock.now().later(rested);
    match shared.next(rt, now) {
        Next::Try(note) => {
            try_note(rt, shared, orders, mine, hand, note);
            Some(now)
        }
        Next::Rest(until) => {
            hand.clock.rest(until);
            Some(until)
        }
        Next::Wait => Some(now),
        Next::End => None,
    }
}

/// One session: tries what the queue hands out, until that is nothing or the call is stopped.
#[tactic(auto, using(crate::proofs::Sums::counts_none, crate::proofs::Sums::counts_on))]
pub(crate) fn session<N, F, S, D, W, C, R>(
    rt: &R,
    shared: &Shared<N, F, S, D>,
    orders: &Orders,
    mine: &mut Mine<F, S>,
    hand: &mut Hand<W, C>,
)
where
    N: CallName,
    F: Ledger,
    S: Ledger,
    D: Disk,
    W: Spawner,
    C: Clock,
    R: Wait,
    requires homes { orders.now.homes.items ≡ N.start.homes }
    requires parts { (0 < mine.old.failures.parts) × (0 < mine.old.successes.parts) }
    ensures same { (mine.new.failures.parts ≡ mine.old.failures.parts) × (mine.new.successes.parts ≡ mine.old.successes.parts) }
    ensures counts { Counts orders.now mine.old.failures.amount mine.new.failures.amount mine.old.successes.amount mine.new.successes.amount (W.tells hand.old.spawner) (W.tells hand.new.spawner) }
{
    let mut rested = Moment::zero();
    'turns: for _ in rt.forever() {
        match turn(rt, shared, orders, mine, hand, rested) {
            Some(until) => rested = until,
            None => return,
        }
    }
}

/// Tries a note where no other session is there.
fn try_alone<N, F, S, D, W, C>(
    alloc: Global,
    state: &mut State<N, F, S, D>,
    orders: &Orders,
    mine: &mut Mine<F, S>,
    hand: &mut Hand<W, C>,
    note: u32,
)
where
    N: CallName,
    F: Ledger,
    S: Ledger,
    D: Disk,
    W: Spawner,
    C: Clock,
    requires note { (1 ≤ note) × (note ≤ length orders.now.homes.items) }
    requires parts { (0 < mine.old.failures.parts) × (0 < mine.old.successes.parts) }
    ensures same { (mine.new.failures.parts ≡ mine.old.failures.parts) × (mine.new.successes.parts ≡ mine.old.successes.parts) }
    ensures counts { Counts orders.now mine.old.failures.amount mine.new.failures.amount mine.old.successes.amount mine.new.successes.amount (W.tells hand.old.spawner) (W.tells hand.new.spawner) }
{
    match run_note(alloc, orders, &mut hand.spawner, note) {
        Ok(ok) => state.settle(note, ok, hand.clock.now(), mine),
        Err(OutOfMemory) => state.stop(),
    }
}

/// What is done next where no other session is there. A try that is still open is one that a session left for want of memory.
#[tactic(auto, using(crate::proofs::Sums::counts_none))]
fn turn_alone<N, F, S, D, W, C>(
    alloc: Global,
    state: &mut State<N, F, S, D>,
    orders: &Orders,
    mine: &mut Mine<F, S>,
    hand: &mut Hand<W, C>,
    rested: Moment,
) -> Option<Moment>
where
    N: CallName,
    F: Ledger,
    S: Ledger,
    D: Disk,
    W: Spawner,
    C: Clock,
    requires homes { orders.now.homes.items ≡ N.start.homes }
    requires parts { (0 < mine.old.failures.parts) × (0 < mine.old.successes.parts) }
    ensures same { (mine.new.failures.parts ≡ mine.old.failures.parts) × (mine.new.successes.parts ≡ mine.old.successes.parts) }
    ensures counts { Counts orders.now mine.old.failures.amount mine.new.failures.amount mine.old.successes.amount mine.new.successes.amount (W.tells hand.old.spawner) (W.tells hand.new.spawner) }
    ensures over { result ≡ None → (is_some state.new.stopped ≡ true) ⊎ IsOver state.new.queue }
{
    let now = hand.clock.now().later(rested);
    match state.next(now) {
        Next::Try(note) => {
            try_alone(alloc, state, orders, mine, hand, note);
            Some(now)
        }
        Next::Rest(until) => {
            hand.clock.rest(until);
            Some(until)
        }
        Next::Wait => {
            state.stop();
            Some(now)
        }
        Next::End => None,
    }
}

/// The rest of a call, where sessions ended before all was done.
#[tactic(auto, using(crate::proofs::Sums::counts_none, crate::proofs::Sums::counts_on))]
pub(crate) fn go_on<N, F, S, D, W, C, R>(
    rt: &R,
    alloc: Global,
    state: &mut State<N, F, S, D>,
    orders: &Orders,
    mine: &mut Mine<F, S>,
    hand: &mut Hand<W, C>,
)
where
    N: CallName,
    F: Ledger,
    S: Ledger,
    D: Disk,
    W: Spawner,
    C: Clock,
    R: Wait,
    requires homes { orders.now.homes.items ≡ N.start.homes }
    requires parts { (0 < mine.old.failures.parts) × (0 < mine.old.successes.parts) }
    ensures same { (mine.new.failures.parts ≡ mine.old.failures.parts) × (mine.new.successes.parts ≡ mine.old.successes.parts) }
    ensures counts { Counts orders.now mine.old.failures.amount mine.new.failures.amount mine.old.successes.amount mine.new.successes.amount (W.tells hand.old.spawner) (W.tells hand.new.spawner) }
    ensures over { (is_some state.new.stopped ≡ true) ⊎ IsOver state.new.queue }
{
    let mut rested = Moment::zero();
    'turns: for _ in rt.forever() {
        match turn_alone(alloc, state, orders, mine, hand, rested) {
            Some(until) => rested = until,
            None => return,
        }
    }
}
