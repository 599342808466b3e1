//! Alerts over objects in memory: what is printed, what the progress holds then, and how late it is.

use outside::{Clock, MemClock, MemDisk, MemSink, MemSource, MemSpawner};
use server_jobs::{Hand, run_alerts};
use std::alloc::Global;
use std::convert::AsStr;
use std::test::Fail;
use zbx_types::{Bytes, Many, Moment, OutOfMemory, Text};

/// The words of a call with a limit of three tries.
fn words(alloc: Global) -> Result<Many<Text>, OutOfMemory> {
    let mut words = Many::new(alloc);
    for word in "--mode alerts --outbox o --progress p --command c".split(' ') {
        words.push(Text::of(alloc, word)?)?;
    }
    Ok(words)
}

/// The numbers of calls that fail.
fn numbers(alloc: Global, fails: &[u64]) -> Result<Many<u64>, OutOfMemory> {
    let mut numbers = Many::new(alloc);
    for number in fails {
        numbers.push(*number)?;
    }
    Ok(numbers)
}

/// Bytes as hexadecimal digits.
fn put_hex(line: &mut Text, bytes: &[u8]) -> Result<(), OutOfMemory> {
    for byte in bytes {
        for digit in [byte / 16, byte % 16] {
            match digit {
                0..=9 => line.push_decimal(u64::from(digit))?,
                10 => line.push_str("a")?,
                11 => line.push_str("b")?,
                12 => line.push_str("c")?,
                13 => line.push_str("d")?,
                14 => line.push_str("e")?,
                _ => line.push_str("f")?,
            }
        }
    }
    Ok(())
}

/// An exit, how many seconds it took, the bytes of a progress, and what was printed.
fn reported(
    alloc: Global,
    exit: u8,
    seconds: u32,
    progress: &[u8],
    printed: &[u8],
) -> Result<Text, OutOfMemory> {
    let mut report = Text::new(alloc);
    report.push_decimal(u64::from(exit))?;
    report.push_str(" ")?;
    report.push_decimal(u64::from(seconds))?;
    report.push_str(" ")?;
    put_hex(&mut report, progress)?;
    report.push_str(" ")?;
    if let Some(printed) = Text::from_utf8(alloc, printed)? {
        report.push_str(printed.as_str())?;
    }
    Ok(report)
}

/// What a call over these words, outbox, media and progress comes to, where these runs fail.
fn called(
    alloc: Global,
    words: &[Text],
    outbox: Bytes,
    document: Bytes,
    progress: Bytes,
    fails: Many<u64>,
) -> Result<Text, OutOfMemory> {
    let mut hand = Hand {
        spawner: MemSpawner::new(alloc, fails),
        clock: MemClock::new(Moment { sec: 100, ns: 0 }),
    };
    let mut lines = MemSource::new(outbox, Many::new(alloc));
    let mut media = MemSource::new(document, Many::new(alloc));
    let disk = MemDisk::new(alloc, progress, Many::new(alloc));
    let mut print = MemSink::new(Bytes::new(alloc), Many::new(alloc));
    let ended = run_alerts(
        alloc, words, &mut lines, &mut media, disk, &mut hand, &mut print,
    );
    reported(
        alloc,
        ended.status.exit(),
        hand.clock.now().sec.saturating_sub(100),
        ended.progress.bytes().as_slice(),
        print.bytes().as_slice(),
    )
}

/// What a call over an outbox, media and a progress prints, its exit, how long it took, and the progress then, where these
/// runs fail.
fn alerted(
    alloc: Global,
    outbox: &str,
    document: &str,
    progress: &[u8],
    fails: &[u64],
) -> Result<Text, OutOfMemory> {
    let words = words(alloc)?;
    let outbox = Bytes::of(alloc, outbox.as_bytes())?;
    let document = Bytes::of(alloc, document.as_bytes())?;
    let progress = Bytes::of(alloc, progress)?;
    let fails = numbers(alloc, fails)?;
    called(alloc, words.as_slice(), outbox, document, progress, fails)
}

/// Four messages among other lines, the last of which isn't ended.
fn four_messages() -> &'static str {
    "P|3-1|100.000000000|3|0|h|hot|hot\nM|3-1|act|1|ops|hot|a\\nb\nS|3-1|act|1|100.000000000\nM|3-1|act|1|boss|hot|\nM|4-1|act|1|ops|h\\|t|x\nM|4-1|act|1|boss|hot|y\nM|5-1|act|1|late"
}

/// Media by which each message is tried again at once.
fn at_once() -> &'static str {
    r#"{"media":[{"recipient":"boss","command":"c","interval":"0s"},{"recipient":"ops","command":"c","interval":"0s"}]}"#
}

#[test]
fn a_message_that_fails_three_times_is_marked_so_and_the_others_are_sent(
    rt: HostRuntime,
) -> Result<(), Fail> {
    let report = alerted(rt.alloc(), four_messages(), at_once(), b"", &[2, 3, 4])?;
    assert_eq!(rt;
        report.as_str(),
        "0 0 5a5453414c523031013201010000006401020000006601030000006401040000006400 status: Ok; messages: 4; done: 3; failed: 1\n"
    );
    Ok(())
}

#[test]
fn a_call_goes_on_behind_the_marks_that_are_kept(rt: HostRuntime) -> Result<(), Fail> {
    let report = alerted(
        rt.alloc(),
        four_messages(),
        at_once(),
        b"ZTSALR01\x01d\x01f\x00",
        &[],
    )?;
    assert_eq!(rt;
        report.as_str(),
        "0 0 5a5453414c52303101640166013201030000006401040000006400 status: Ok; messages: 4; done: 3; failed: 1\n"
    );
    Ok(())
}

#[test]
fn a_recipients_next_try_waits_for_its_interval_and_others_go_on(
    rt: HostRuntime,
) -> Result<(), Fail> {
    let minute = r#"{"media":[{"recipient":"boss","command":"c","attempts":2,"interval":"1m"}]}"#;
    let report = alerted(rt.alloc(), four_messages(), minute, b"", &[2])?;
    assert_eq!(rt;
        report.as_str(),
        "0 60 5a5453414c523031013201010000006401030000006401020000006401040000006400 status: Ok; messages: 4; done: 4; failed: 0\n"
    );
    Ok(())
}

#[test]
fn a_recipient_without_an_entry_waits_ten_seconds(rt: HostRuntime) -> Result<(), Fail> {
    let none = r#"{"media":[]}"#;
    let outbox = "M|3-1|act|1|ops|hot|\n";
    let report = alerted(rt.alloc(), outbox, none, b"", &[1, 2, 3])?;
    assert_eq!(rt;
        report.as_str(),
        "0 20 5a5453414c523031013201010000006600 status: Ok; messages: 1; done: 0; failed: 1\n"
    );
    Ok(())
}

#[test]
fn a_second_entry_of_a_recipient_is_refused_behind_a_bad_line(rt: HostRuntime) -> Result<(), Fail> {
    let twice =
        r#"{"media":[{"recipient":"ops","command":"c"},{"recipient":"ops","command":"d"}]}"#;
    let report = alerted(rt.alloc(), four_messages(), twice, b"", &[])?;
    assert_eq!(rt;
        report.as_str(),
        "25 0  status: MediaRefused; path: /media/1/recipient\n"
    );
    let report = alerted(rt.alloc(), "M|3-1|act|1|ops|hot\n", twice, b"", &[])?;
    assert_eq!(rt; report.as_str(), "22 0  status: BadLine; at: 0\n");
    Ok(())
}

#[test]
fn a_line_that_is_no_message_is_named_by_its_place(rt: HostRuntime) -> Result<(), Fail> {
    let report = alerted(rt.alloc(), "M|3-1|act|1|ops|hot\n", at_once(), b"", &[])?;
    assert_eq!(rt; report.as_str(), "22 0  status: BadLine; at: 0\n");
    Ok(())
}

#[test]
fn more_marks_than_messages_are_refused(rt: HostRuntime) -> Result<(), Fail> {
    let report = alerted(rt.alloc(), "", at_once(), b"ZTSALR01\x01d\x00", &[])?;
    assert_eq!(rt;
        report.as_str(),
        "23 0 5a5453414c523031016400 status: MarksAhead; marks: 1; messages: 0\n"
    );
    Ok(())
}

#[test]
fn a_mark_of_a_message_that_isnt_there_is_refused(rt: HostRuntime) -> Result<(), Fail> {
    let progress = b"ZTSALR01\x012\x01\x05\x00\x00\x00d\x00";
    let report = alerted(rt.alloc(), four_messages(), at_once(), progress, &[])?;
    assert_eq!(rt;
        report.as_str(),
        "23 0 5a5453414c523031013201050000006400 status: MarksAhead; marks: 5; messages: 4\n"
    );
    Ok(())
}
