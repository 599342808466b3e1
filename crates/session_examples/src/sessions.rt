//! Sessions over objects in memory: which marks they make.

ghost use Rattle.std.specs.Prelude.{◌≡◌, ◌<◌, ◌^◌, [], false, length, All, IfOk};
ghost use Rattle.alert_queue.specs.Law.{AreFresh};
ghost use Rattle.alert_marks.specs.Marks.{EachKeeps};

use crate::meeting::MeetSpawner;
use alert_marks::{AddError, Marks};
use alert_queue::{Kind, Mark, NoteMark, Queue};
use alert_run::Note;
use alert_sessions::{Hand, Orders, Worked, work_in_sessions};
use outside::{Disk, MemClock, MemDisk, MemSpawner, Spawner};
use std::alloc::Global;
use std::convert::AsStr;
use std::sync::atomic::AtomicBool;
use std::sync::{Arc, Wait};
use std::test::Fail;
use std::thread::Threads;
use zbx_types::{Bytes, Many, Moment, OutOfMemory, Text};

/// How many turns one spawner waits for the other.
const TURNS: u64 = 5_000_000;

/// The numbers of calls that fail.
fn numbers(alloc: Global, fails: &[u64]) -> Result<Many<u64>, OutOfMemory> {
    let mut numbers = Many::new(alloc);
    for number in fails {
        numbers.push(*number)?;
    }
    Ok(numbers)
}

/// The marks of a disk, where it holds none.
fn no_marks<D: Disk + Drop>(alloc: Global, disk: D) -> Result<Marks<D>, OutOfMemory>
    ensures none { IfOk result (λ marks. marks.list ≡ []) }
    ensures going { IfOk result (λ marks. marks.is_broken ≡ false) }
    ensures durable { IfOk result (λ marks. EachKeeps (D.tells marks.disk) marks.list) }
{
    let Ok(marks) = Marks::recover(alloc, disk) else {
        return Err(OutOfMemory);
    };
    if !marks.list().is_empty() {
        return Err(OutOfMemory);
    }
    Ok(marks)
}

/// A note with short texts.
fn note(alloc: Global) -> Result<Note, OutOfMemory> {
    let recipient = Text::of(alloc, "ops")?;
    let subject = Text::of(alloc, "hot")?;
    let body = Text::of(alloc, "")?;
    Ok(Note {
        recipient,
        subject,
        body,
    })
}

/// So many notes.
fn notes(alloc: Global, count: usize) -> Result<Many<Note>, OutOfMemory>
    ensures { IfOk result (λ notes. length notes ≡ count) }
{
    let mut notes = Many::new(alloc);
    for _ in 0..count {
        notes.push(note(alloc)?)?;
    }
    Ok(notes)
}

/// The programs of two recipients.
fn commands(alloc: Global) -> Result<Many<Text>, OutOfMemory>
    ensures { IfOk result (λ commands. length commands ≡ 2) }
{
    let mut commands = Many::new(alloc);
    commands.push(Text::of(alloc, "first")?)?;
    commands.push(Text::of(alloc, "second")?)?;
    Ok(commands)
}

/// What is run for notes to these recipients.
fn orders(alloc: Global, homes: &[u32]) -> Result<Orders, OutOfMemory>
    requires { All (λ home. home < 2) homes.now }
    ensures { IfOk result (λ orders. orders.homes.items ≡ homes.now) }
{
    let notes = notes(alloc, homes.len())?;
    let commands = commands(alloc)?;
    let homes = Vec::from_slice(alloc, homes)?;
    Ok(Orders {
        notes,
        homes,
        commands,
    })
}

/// The queue of notes to these recipients, with a limit of four tries.
fn queue(alloc: Global, homes: &[u32]) -> Result<Queue, OutOfMemory>
    requires few { length homes.now < 2 ^ 32 }
    requires there { All (λ home. home < 2) homes.now }
    ensures fresh { IfOk result AreFresh }
    ensures homes { IfOk result (λ queue. queue.homes ≡ homes.now) }
{
    let kind = Kind {
        limit: 4,
        interval: 0,
    };
    let marked = vec![in alloc; false; homes.len()]?;
    Queue::new(alloc, homes, &marked, &[kind, kind])
}

/// What sessions with these hands make of notes to these recipients, where these calls of the disk fail.
#[tactic(auto, using(crate::proofs::Unmarked::none_marked))]
fn worked<W: Spawner + Send, R: Threads + Wait + Sync>(
    rt: &R,
    alloc: Global,
    homes: &[u32],
    fails: &[u64],
    hands: &mut [Hand<W, MemClock>],
) -> Result<Worked<MemDisk>, OutOfMemory>
    requires few { length homes.now < 2 ^ 32 }
    requires there { All (λ home. home < 2) homes.now }
    requires some { 0 < length hands.old }
{
    let fails = numbers(alloc, fails)?;
    let orders = orders(alloc, homes)?;
    let queue = queue(alloc, homes)?;
    let disk = MemDisk::new(alloc, Bytes::new(alloc), fails);
    let marks = no_marks(alloc, disk)?;
    Ok(work_in_sessions(rt, alloc, queue, marks, &orders, hands))
}

/// A session's hand, whose clock stands.
fn hand<W>(spawner: W) -> Hand<W, MemClock> {
    Hand {
        spawner,
        clock: MemClock::new(Moment::zero()),
    }
}

/// The marks of the notes with even or odd numbers, in the order of making.
fn put_marks(line: &mut Text, marks: &[NoteMark], odd: u32) -> Result<(), OutOfMemory> {
    for mark in marks {
        if mark.note % 2 == odd {
            line.push_str(" ")?;
            line.push_decimal(u64::from(mark.note))?;
            line.push_str(match mark.mark {
                Mark::Done => "d",
                Mark::Failed => "f",
            })?;
        }
    }
    Ok(())
}

/// How a call ended, with its marks.
fn line_of(alloc: Global, worked: &Worked<MemDisk>) -> Result<Text, OutOfMemory> {
    let mut line = Text::new(alloc);
    line.push_str(match worked.stopped {
        None => "all;",
        Some(AddError::DiskFault) => "fault;",
        Some(AddError::OutOfMemory) => "memory;",
    })?;
    put_marks(&mut line, worked.marks.list(), 1)?;
    line.push_str(";")?;
    put_marks(&mut line, worked.marks.list(), 0)?;
    Ok(line)
}

/// What sessions with these hands come to, as a line.
fn reported<W: Spawner + Send, R: Threads + Wait + Sync>(
    rt: &R,
    alloc: Global,
    homes: &[u32],
    fails: &[u64],
    hands: &mut [Hand<W, MemClock>],
) -> Result<Text, OutOfMemory>
    requires few { length homes.now < 2 ^ 32 }
    requires there { All (λ home. home < 2) homes.now }
    requires some { 0 < length hands.old }
{
    let worked = worked(rt, alloc, homes, fails, hands)?;
    line_of(alloc, &worked)
}

/// A line with a number behind it.
fn with_count(line: Result<Text, OutOfMemory>, count: u64) -> Result<Text, OutOfMemory> {
    let mut line = line?;
    line.push_str("; ")?;
    line.push_decimal(count)?;
    Ok(line)
}

/// How many of a spawner's runs ended well.
fn count_good(spawner: &MemSpawner) -> u64 {
    match spawner.runs() {
        Some(runs) => runs.as_slice().iter().filter(|run| run.ok).count() as u64,
        None => 0,
    }
}

/// Two spawners that wait for each other.
fn meeting(alloc: Global) -> Result<(MeetSpawner, MeetSpawner), OutOfMemory> {
    let one = Arc::new(alloc, AtomicBool::new(false))?;
    let other = Arc::new(alloc, AtomicBool::new(false))?;
    let first = MeetSpawner::new(TURNS, one.clone()?, other.clone()?);
    Ok((first, MeetSpawner::new(TURNS, other, one)))
}

/// Two sessions whose spawners wait for each other, over a note for each of two recipients; and how many runs failed.
fn met<R: Threads + Wait + Sync>(rt: &R, alloc: Global) -> Result<Text, OutOfMemory> {
    let (first, second) = meeting(alloc)?;
    let mut hands = [hand(first), hand(second)];
    let line = reported(rt, alloc, &[0, 1], &[], &mut hands);
    let failed = hands[0]
        .spawner
        .faults()
        .saturating_add(hands[1].spawner.faults());
    with_count(line, failed)
}

#[test]
fn two_programs_run_at_the_same_time(rt: HostRuntime) -> Result<(), Fail> {
    let line = met(&rt, rt.alloc())?;
    assert_eq!(rt; line.as_str(), "all; 1d; 2d; 0");
    Ok(())
}

/// Three sessions whose first runs fail, over five notes of two recipients; and how many runs ended well.
fn three<R: Threads + Wait + Sync>(rt: &R, alloc: Global) -> Result<Text, OutOfMemory> {
    let first = numbers(alloc, &[1])?;
    let second = numbers(alloc, &[1])?;
    let third = numbers(alloc, &[1])?;
    let mut hands = [
        hand(MemSpawner::new(alloc, first)),
        hand(MemSpawner::new(alloc, second)),
        hand(MemSpawner::new(alloc, third)),
    ];
    let line = reported(rt, alloc, &[0, 1, 0, 1, 0], &[], &mut hands);
    let good = count_good(&hands[0].spawner)
        .saturating_add(count_good(&hands[1].spawner))
        .saturating_add(count_good(&hands[2].spawner));
    with_count(line, good)
}

#[test]
fn each_recipient_gets_its_notes_in_order(rt: HostRuntime) -> Result<(), Fail> {
    let line = three(&rt, rt.alloc())?;
    assert_eq!(rt; line.as_str(), "all; 1d 3d 5d; 2d 4d; 5");
    Ok(())
}

/// A session over five notes, whose disk fails in its second mark; and how many runs ended well.
fn failed<R: Threads + Wait + Sync>(rt: &R, alloc: Global) -> Result<Text, OutOfMemory> {
    let mut hands = [hand(MemSpawner::new(alloc, Many::new(alloc)))];
    let line = reported(rt, alloc, &[0, 1, 0, 1, 0], &[12], &mut hands);
    let good = count_good(&hands[0].spawner);
    with_count(line, good)
}

#[test]
fn no_try_is_begun_once_the_disk_has_failed(rt: HostRuntime) -> Result<(), Fail> {
    let line = failed(&rt, rt.alloc())?;
    assert_eq!(rt; line.as_str(), "fault; 1d;; 2");
    Ok(())
}
