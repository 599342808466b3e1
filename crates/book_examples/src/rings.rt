//! What goes into a ring of `book` and comes out of it, in one thread and across two.

ghost use Rattle.std.specs.Prelude.{◌≡◌, ◌∷◌, []};
ghost use Rattle.zbx_types.specs.declared.entries.Entry.TheVariants.{Config, Tick};

use book::{Ring, RingEnd, RingHead, RunName};
use book_opening::StartName;
use std::alloc::Global;
use std::marker::{Brand, Model};
use std::test::Fail;
use std::thread::{Threads, join, yield_now};
use zbx_types::{Entry, Moment, Numbered, OutOfMemory};

/// What is done to a ring.
#[derive(Clone, Copy)]
enum Call {
    Push,
    Take,
    TakeKnown,
    TakeBeside,
    Free,
    Held,
}

/// Calls, and what each tells: the number of the entry that was sent or taken, 0 where none was, or a number of slots.
type Case<'a> = (usize, &'a [(Call, u64)]);

/// The head of a ring, at which Ticks go in, and the number of the next one.
#[derive(Drop)]
struct Ticks<S: StartName, N: RunName> {
    head: RingHead<S, N>,
    next: u64,
}

impl<S: StartName, N: RunName> Model for Ticks<S, N> {
    ghost use Rattle.std.specs.Prelude.{ℕ};
    ghost use Rattle.book_examples.specs.Ticks.{HasTicks};

    ghost Value = { ℕ };

    ghost view = { λ t. t.next };

    ghost invariant = { λ t. HasTicks S.start t.head.sent t.next };
}

fn tick(number: u64) -> Numbered
    ensures { result ≡ record { number = number; entry = Tick 0 } }
{
    Numbered {
        number,
        entry: Entry::Tick {
            now: Moment::zero(),
        },
    }
}

impl<S: StartName, N: RunName> Ticks<S, N> {
    fn push(&mut self) -> u64 {
        let number = self.next;
        if number == u64::MAX {
            return 0;
        }
        match self.head.push(tick(number)) {
            Ok(()) => {
                self.next = number + 1;
                number
            }
            Err(_) => 0,
        }
    }
}

fn number_of(taken: Option<Numbered>) -> u64 {
    match taken {
        Some(entry) => entry.number,
        None => 0,
    }
}

fn take_known<S: StartName, N: RunName>(end: &mut RingEnd<S, N>, head: &mut RingHead<S, N>) -> u64
    ensures { head.new.sent ≡ head.old.sent }
{
    if end.look_beside(head) == 0 {
        return 0;
    }
    end.take_known().number
}

fn told<S: StartName, N: RunName>(
    ticks: &mut Ticks<S, N>,
    end: &mut RingEnd<S, N>,
    call: Call,
) -> u64 {
    match call {
        Call::Push => ticks.push(),
        Call::Take => number_of(end.take()),
        Call::TakeKnown => take_known(end, &mut ticks.head),
        Call::TakeBeside => number_of(end.take_beside(&mut ticks.head)),
        Call::Free => ticks.head.look_beside(end) as u64,
        Call::Held => end.look_beside(&mut ticks.head) as u64,
    }
}

/// Whether calls tell what is expected, of a ring behind a configuration.
fn tell<S: StartName, N: RunName>(ring: Ring<S>, calls: &[(Call, u64)]) -> bool
    requires ring { ring.id ≡ N.ring }
    requires kept { S.kept ≡ record { number = 1; entry = Config 0 [] } ∷ [] }
{
    let (head, mut end) = ring.named::<N>();
    let mut ticks = Ticks { head, next: 2 };
    for (call, expected) in calls {
        if told(&mut ticks, &mut end, *call) != *expected {
            return false;
        }
    }
    true
}

fn hold<S: StartName>(alloc: Global, cases: &[Case]) -> Result<bool, OutOfMemory>
    requires { S.kept ≡ record { number = 1; entry = Config 0 [] } ∷ [] }
{
    for (capacity, calls) in cases {
        let ring = Ring::<S>::new(alloc, *capacity)?;
        if !tell::<S, Brand>(ring, *calls) {
            return Ok(false);
        }
    }
    Ok(true)
}

#[test]
fn entries_come_out_once_in_their_order(rt: HostRuntime) -> Result<(), Fail> {
    let alloc = rt.alloc();
    let cases: [Case; 4] = [
        (
            2,
            &[
                (Call::Push, 2),
                (Call::Push, 3),
                (Call::Push, 0),
                (Call::Take, 2),
                (Call::Push, 4),
                (Call::Push, 0),
                (Call::Take, 3),
                (Call::Take, 4),
                (Call::Take, 0),
            ],
        ),
        (
            2,
            &[
                (Call::Free, 2),
                (Call::Held, 0),
                (Call::TakeKnown, 0),
                (Call::Push, 2),
                (Call::Free, 1),
                (Call::Held, 1),
                (Call::Push, 3),
                (Call::Free, 0),
                (Call::Held, 2),
                (Call::TakeKnown, 2),
                (Call::Free, 1),
                (Call::TakeKnown, 3),
                (Call::Held, 0),
                (Call::Free, 2),
            ],
        ),
        (
            1,
            &[
                (Call::Push, 2),
                (Call::Take, 2),
                (Call::Push, 3),
                (Call::Push, 0),
                (Call::Take, 3),
                (Call::Take, 0),
                (Call::Push, 4),
                (Call::TakeBeside, 4),
                (Call::TakeBeside, 0),
            ],
        ),
        (0, &[(Call::Push, 0), (Call::Take, 0), (Call::Free, 0)]),
    ];
    assert!(rt; hold::<Brand>(alloc, &cases)?);
    Ok(())
}

/// How often an end looks at the ring before it gives up.
const LOOKS: u32 = 10_000_000;

/// Sends Ticks up to this number, each as soon as there is room.
fn send_up_to<S: StartName, N: RunName>(mut ticks: Ticks<S, N>, last: u64) {
    for _look in 0..LOOKS {
        if last < ticks.next {
            return;
        }
        if ticks.push() == 0 {
            yield_now();
        }
    }
}

/// Whether the numbers up to this one come, each once and in order.
fn come_up_to<S: StartName, N: RunName>(mut end: RingEnd<S, N>, last: u64) -> bool {
    let mut came = 1;
    for _look in 0..LOOKS {
        if last <= came {
            return true;
        }
        match end.take() {
            Some(entry) if entry.number == came + 1 => came = entry.number,
            Some(_) => return false,
            None => yield_now(),
        }
    }
    false
}

fn cross<S: StartName + Send + Sync, N: RunName + Send + Sync, R: Threads>(
    rt: &R,
    ring: Ring<S>,
    last: u64,
) -> bool
    requires ring { ring.id ≡ N.ring }
    requires kept { S.kept ≡ record { number = 1; entry = Config 0 [] } ∷ [] }
{
    let (head, end) = ring.named::<N>();
    let ticks = Ticks { head, next: 2 };
    let (_sent, come) = join(
        rt,
        move || send_up_to(ticks, last),
        move || come_up_to(end, last),
    );
    come
}

fn cross_behind<S: StartName + Send + Sync, R: Threads>(
    rt: &R,
    alloc: Global,
) -> Result<bool, OutOfMemory>
    requires { S.kept ≡ record { number = 1; entry = Config 0 [] } ∷ [] }
{
    let ring = Ring::<S>::new(alloc, 3)?;
    Ok(cross::<S, Brand, R>(rt, ring, 1000))
}

#[test]
fn entries_cross_threads(rt: HostRuntime) -> Result<(), Fail> {
    let alloc = rt.alloc();
    assert!(rt; cross_behind::<Brand, _>(&rt, alloc)?);
    Ok(())
}
