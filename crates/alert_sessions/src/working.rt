//! A call with any number of sessions.

ghost use Rattle.std.specs.Prelude.{◌≡◌, ◌<◌, ◌⊎◌, false, true, None, length, map, is_some, is_none};
ghost use Rattle.alert_queue.specs.Queues.{IsOver};
ghost use Rattle.alert_queue.specs.Law.{AreFresh};
ghost use Rattle.alert_marks.specs.Marks.{EachKeeps};
ghost use Rattle.alert_sessions.specs.Calls.{AreUnmarked, IsCallAtEnd};
ghost use Rattle.alert_sessions.specs.OnDisk.{IsOnDisk};
ghost use Rattle.alert_sessions.specs.Worked.{CameTo};

use crate::counting::Mine;
use crate::hands::Hand;
use crate::names::CallName;
use crate::orders::Orders;
use crate::session::go_on;
use crate::shared::Shared;
use crate::spread::spread;
use crate::state::State;
use alert_marks::{AddError, Marks};
use alert_queue::Queue;
use outside::{Clock, Disk, Spawner};
use std::alloc::Global;
use std::marker::Brand;
use std::sync::Wait;
use std::sync::ledger::{Blank, Ledger};
use std::thread::Threads;

/// What a call of sessions came to.
#[derive(Drop)]
pub struct Worked<D: Disk> {
    /// The marks.
    pub marks: Marks<D>,
    /// Why it stopped before every note had its mark, or None where every note has.
    pub stopped: Option<AddError>,
}

/// What the sessions came to, once all is done or the call is stopped.
fn finish<N, F, S, D>(state: State<N, F, S, D>, mine: Mine<F, S>) -> Worked<D>
where
    N: CallName,
    F: Ledger,
    S: Ledger,
    D: Disk,
    requires over { (is_some state.stopped ≡ true) ⊎ IsOver state.queue }
    requires parts { (mine.failures.parts ≡ F.parts) × (mine.successes.parts ≡ S.parts) }
    ensures call { IsCallAtEnd N.start N.kept result.marks.list mine.failures.amount mine.successes.amount (is_none result.stopped) }
    ensures disk { IsOnDisk N.disk (D.tells result.marks.disk) (length N.kept) result.marks.list result.marks.is_broken result.stopped }
{
    let (marks, stopped, mut failures, mut successes) = state.into_parts();
    let Mine {
        failures: mut failed,
        successes: mut good,
    } = mine;
    failures.audit(&mut failed);
    successes.audit(&mut good);
    Worked { marks, stopped }
}

/// Works at a call whose name is known. Where sessions ended early, it goes on with the first hand.
fn work_named<N, F, S, D, W, C, R>(
    rt: &R,
    alloc: Global,
    queue: Queue,
    marks: Marks<D>,
    orders: &Orders,
    hands: &mut [Hand<W, C>],
    failures: Blank,
    successes: Blank,
) -> Worked<D>
where
    N: CallName + Send + Sync,
    F: Ledger + Send + Sync,
    S: Ledger + Send + Sync,
    D: Disk + Send,
    W: Spawner + Send,
    C: Clock + Send,
    R: Threads + Wait + Sync,
    requires start { queue ≡ N.start }
    requires fresh { AreFresh queue }
    requires unmarked { AreUnmarked queue marks.list }
    requires kept { marks.list ≡ N.kept }
    requires disk { IsOnDisk N.disk (D.tells marks.disk) (length N.kept) marks.list marks.is_broken None }
    requires homes { orders.now.homes.items ≡ queue.homes }
    requires some { 0 < length hands.old }
    requires failures { (failures.name ≡ F.name) × (failures.parts ≡ F.parts) × (F.parts ≡ length hands.old) }
    requires successes { (successes.name ≡ S.name) × (successes.parts ≡ S.parts) × (S.parts ≡ length hands.old) }
    ensures worked { CameTo orders.now N.start N.kept result.marks.list result.stopped (map (λ h. W.tells h.spawner) hands.old) (map (λ h. W.tells h.spawner) hands.new) }
    ensures disk { IsOnDisk N.disk (D.tells result.marks.disk) (length N.kept) result.marks.list result.marks.is_broken result.stopped }
{
    let (failed, failures) = failures.open::<F>();
    let (good, successes) = successes.open::<S>();
    let shared = Shared::new(alloc, State::<N, F, S, D>::new(queue, marks, failed, good));
    let mut mine = Mine {
        failures,
        successes,
    };
    spread(rt, &shared, orders, &mut mine, hands);
    let mut state = shared.into_state();
    let first = &mut hands[0];
    go_on(rt, alloc, &mut state, orders, &mut mine, first);
    finish(state, mine)
}

/// Tries the notes of a queue with a session for each hand, at the same time, and adds their marks. Each recipient's notes are
/// tried in order, one at a time, each up to the first run that ends well, or as often as the recipient's limit says.
///
/// Once a mark is refused no further try is begun. Where sessions have ended early, the call goes on with the first hand. It
/// waits for programs and for moments, and holds what it says if it returns.
pub fn work_in_sessions<D, W, C, R>(
    rt: &R,
    alloc: Global,
    queue: Queue,
    marks: Marks<D>,
    orders: &Orders,
    hands: &mut [Hand<W, C>],
) -> Worked<D>
where
    D: Disk + Send,
    W: Spawner + Send,
    C: Clock + Send,
    R: Threads + Wait + Sync,
    requires fresh { AreFresh queue }
    requires unmarked { AreUnmarked queue marks.list }
    requires homes { orders.now.homes.items ≡ queue.homes }
    requires going { marks.is_broken ≡ false }
    requires durable { EachKeeps (D.tells marks.disk) marks.list }
    requires some { 0 < length hands.old }
    // Each recipient's marks were made in order, behind those that were there, and only for runs of its program.
    ensures worked { CameTo orders.now queue marks.list result.marks.list result.stopped (map (λ h. W.tells h.spawner) hands.old) (map (λ h. W.tells h.spawner) hands.new) }
    // It stopped for a fault only where the disk failed; a crash at any moment left marks from the front of the list.
    ensures disk { IsOnDisk (D.tells marks.disk) (D.tells result.marks.disk) (length marks.list) result.marks.list result.marks.is_broken result.stopped }
{
    let parts = hands.len() as u64;
    work_named::<Brand, Brand, Brand, D, W, C, R>(
        rt,
        alloc,
        queue,
        marks,
        orders,
        hands,
        Blank::new(parts),
        Blank::new(parts),
    )
}
