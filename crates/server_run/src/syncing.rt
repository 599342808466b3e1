//! The work of one history syncer.

ghost use Rattle.std.specs.Prelude.{◌≡◌, ◌<◌};

use crate::shared::{Prepared, Shared};
use book::{Order, RunName};
use book_opening::StartName;
use entry_step::Steps;
use outside::{Gate, Sink};
use std::alloc::Global;
use std::marker::Brand;
use std::sync::Wait;
use std::sync::ledger::{Blank, Ledger};
use zbx_types::OutOfMemory;

/// Works an order out apart from the book, and brings it back. Answers whether the outbox took the lines.
fn do_order<S: StartName, N: RunName, O: Sink, L: Ledger, R: Wait>(
    rt: &R,
    alloc: Global,
    prepared: &Prepared<S>,
    shared: &Shared<S, N, O>,
    order: Order<S>,
    steps: &mut Steps<L>,
) -> Result<bool, OutOfMemory> {
    match order.run(alloc, prepared.ready(), steps) {
        Ok(done) => shared.settle(rt, alloc, prepared, done, steps),
        Err((order, refused)) => {
            shared.give_back(rt, order);
            Err(refused)
        }
    }
}

/// Takes the next order and works it out. Between the two the syncer says so at the gate. Answers whether there may be more
/// to do: not where the run is over, or the outbox failed.
fn do_next<S: StartName, N: RunName, O: Sink, L: Ledger, R: Wait, G: Gate>(
    rt: &R,
    alloc: Global,
    prepared: &Prepared<S>,
    shared: &Shared<S, N, O>,
    gate: &G,
    syncer: u32,
    steps: &mut Steps<L>,
) -> Result<bool, OutOfMemory> {
    match shared.next_order(rt, alloc, prepared)? {
        None => Ok(false),
        Some(order) => {
            gate.reached(syncer, order.first());
            do_order(rt, alloc, prepared, shared, order, steps)
        }
    }
}

/// Works orders out until there is no more to do, or the outbox fails.
fn do_orders<S: StartName, N: RunName, O: Sink, L: Ledger, R: Wait, G: Gate>(
    rt: &R,
    alloc: Global,
    prepared: &Prepared<S>,
    shared: &Shared<S, N, O>,
    gate: &G,
    syncer: u32,
    blank: Blank,
) -> Result<(), OutOfMemory>
    requires name { blank.name ≡ L.name }
    requires parts { blank.parts ≡ L.parts }
    requires some { 0 < L.parts }
{
    let mut steps = Steps::<L>::new(blank);
    for _ in rt.forever() {
        if !do_next(rt, alloc, prepared, shared, gate, syncer, &mut steps)? {
            return Ok(());
        }
    }
    unreachable!()
}

/// One syncer, whose steps nobody reads. It ends where the run ends and it finds nothing to do, where the outbox
/// fails, and where memory is refused. The run ends then too.
pub(crate) fn work<S: StartName, N: RunName, O: Sink, R: Wait, G: Gate>(
    rt: &R,
    alloc: Global,
    prepared: &Prepared<S>,
    shared: &Shared<S, N, O>,
    gate: &G,
    syncer: u32,
) -> Result<(), OutOfMemory> {
    let done = do_orders::<S, N, O, Brand, R, G>(
        rt,
        alloc,
        prepared,
        shared,
        gate,
        syncer,
        Blank::new(1),
    );
    shared.end(rt);
    done
}
