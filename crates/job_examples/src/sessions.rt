//! Alerts by several sessions over objects in memory: what is printed, and how often programs failed.

ghost use Rattle.std.specs.Prelude.{◌<◌, length};

use crate::refusing::RefusingSpawner;
use outside::{MemClock, MemDisk, MemSink, MemSource, Spawner};
use server_jobs::{Hand, run_sessions};
use std::alloc::Global;
use std::convert::AsStr;
use std::sync::Wait;
use std::test::Fail;
use std::thread::Threads;
use zbx_types::{Bytes, Many, Moment, OutOfMemory, Text};

/// Two messages to each of two recipients, and a third one to one of them.
const OUTBOX: &str =
    "M|3-1|act|1|ops|hot|a\nM|3-1|act|1|boss|hot|\nM|4-1|act|1|ops|hot|b\nM|4-1|act|1|boss|hot|y\nM|5-1|act|1|ops|hot|c\n";

/// Media by which a message is tried again at once: one to `boss` once.
const MEDIA: &str =
    r#"{"media":[{"recipient":"boss","command":"c","attempts":2,"interval":"0s"},{"recipient":"ops","command":"c","interval":"0s"}]}"#;

/// The words of a text.
fn words(alloc: Global, text: &str) -> Result<Many<Text>, OutOfMemory> {
    let mut words = Many::new(alloc);
    for word in text.split(' ') {
        words.push(Text::of(alloc, word)?)?;
    }
    Ok(words)
}

/// The numbers of calls that fail.
fn numbers(alloc: Global, fails: &[u64]) -> Result<Many<u64>, OutOfMemory> {
    let mut numbers = Many::new(alloc);
    for number in fails {
        numbers.push(*number)?;
    }
    Ok(numbers)
}

/// A session whose programs fail for `boss`, and whose clock stands.
fn hand() -> Hand<RefusingSpawner, MemClock> {
    Hand {
        spawner: RefusingSpawner::new(),
        clock: MemClock::new(Moment::zero()),
    }
}

/// An exit, how many marks there are, and what was printed.
fn reported(alloc: Global, exit: u8, marks: usize, printed: &[u8]) -> Result<Text, OutOfMemory> {
    let mut report = Text::new(alloc);
    report.push_decimal(u64::from(exit))?;
    report.push_str(" ")?;
    report.push_decimal(marks as u64)?;
    report.push_str(" ")?;
    if let Some(printed) = Text::from_utf8(alloc, printed)? {
        report.push_str(printed.as_str())?;
    }
    Ok(report)
}

/// What a call over these words, outbox and media comes to, where these calls of its disk fail.
fn called<R: Threads + Wait + Sync>(
    rt: &R,
    alloc: Global,
    words: &[Text],
    outbox: Bytes,
    document: Bytes,
    fails: Many<u64>,
    hands: &mut [Hand<RefusingSpawner, MemClock>],
) -> Result<Text, OutOfMemory>
    requires { 0 < length hands.old }
{
    let mut lines = MemSource::new(outbox, Many::new(alloc));
    let mut media = MemSource::new(document, Many::new(alloc));
    let disk = MemDisk::new(alloc, Bytes::new(alloc), fails);
    let mut print = MemSink::new(Bytes::new(alloc), Many::new(alloc));
    let ended = run_sessions(
        rt, alloc, words, &mut lines, &mut media, disk, hands, &mut print,
    );
    reported(
        alloc,
        ended.status.exit(),
        ended.marks.len(),
        print.bytes().as_slice(),
    )
}

/// What a call with these hands comes to, where these calls of its disk fail.
fn alerted<R: Threads + Wait + Sync>(
    rt: &R,
    alloc: Global,
    text: &str,
    fails: &[u64],
    hands: &mut [Hand<RefusingSpawner, MemClock>],
) -> Result<Text, OutOfMemory>
    requires { 0 < length hands.old }
{
    let words = words(alloc, text)?;
    let outbox = Bytes::of(alloc, OUTBOX.as_bytes())?;
    let document = Bytes::of(alloc, MEDIA.as_bytes())?;
    let fails = numbers(alloc, fails)?;
    called(rt, alloc, words.as_slice(), outbox, document, fails, hands)
}

/// What a call by two sessions comes to, and how often programs failed.
fn by_two<R: Threads + Wait + Sync>(
    rt: &R,
    alloc: Global,
    text: &str,
) -> Result<Text, OutOfMemory> {
    let mut hands = [hand(), hand()];
    let mut report = alerted(rt, alloc, text, &[], &mut hands)?;
    let [first, second] = &hands;
    report.push_decimal(
        first
            .spawner
            .faults()
            .saturating_add(second.spawner.faults()),
    )?;
    Ok(report)
}

/// What a call by one session comes to whose disk fails in its second mark.
fn by_one<R: Threads + Wait + Sync>(
    rt: &R,
    alloc: Global,
    text: &str,
) -> Result<Text, OutOfMemory> {
    let mut hands = [hand()];
    alerted(rt, alloc, text, &[12], &mut hands)
}

/// The words of a call for alerts.
const WORDS: &str = "--mode alerts --outbox o --progress p --command c";

#[test]
fn messages_to_a_recipient_that_fails_twice_fail_and_the_others_are_sent(
    rt: HostRuntime,
) -> Result<(), Fail> {
    let report = by_two(&rt, rt.alloc(), WORDS)?;
    assert_eq!(rt;
        report.as_str(),
        "0 5 status: Ok; messages: 5; done: 3; failed: 2\n4"
    );
    Ok(())
}

#[test]
fn words_of_another_call_are_refused(rt: HostRuntime) -> Result<(), Fail> {
    let report = by_two(&rt, rt.alloc(), "--mode feed --outbox o")?;
    assert_eq!(rt; report.as_str(), "2 0 status: Usage\n0");
    Ok(())
}

#[test]
fn a_call_ends_where_its_disk_fails_in_a_mark(rt: HostRuntime) -> Result<(), Fail> {
    let report = by_one(&rt, rt.alloc(), WORDS)?;
    assert_eq!(rt; report.as_str(), "10 1 status: DiskFault\n");
    Ok(())
}
