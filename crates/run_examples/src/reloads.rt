//! What a run finds behind one that took another configuration and was stopped where its disk failed, or by a crash.

use crate::crashes::{CrashDisk, Torn, Went, answered, judged, stop_of, torn_of};
use crate::rows::{Row, number, row_of};
use crate::runs::{
    Over, TestWire, beside, ports_of, run, setup_behind, setup_of, setup_over, told_of,
};
use outside::OpenGate;
use server_words::Status;
use std::alloc::Global;
use std::convert::AsStr;
use std::sync::Wait;
use std::test::Fail;
use std::thread::Threads;
use zbx_types::{Bytes, OutOfMemory};

/// The journal and the outbox behind a run over the one frame.
fn begun(alloc: Global) -> Result<(Bytes, Bytes), OutOfMemory> {
    let setup = setup_of(alloc, "script=one", 0)?;
    let first = run(alloc, setup);
    let journal = Bytes::of(alloc, first.ended.disk.bytes().as_slice());
    let outbox = Bytes::of(alloc, first.ended.outbox.bytes().as_slice());
    drop(first);
    Ok((journal?, outbox?))
}

/// Runs behind that with another text of the configuration and one value, up to the disk's call of this number, which fails.
fn reloaded_up_to<R: Threads + Wait + Sync>(
    rt: &R,
    alloc: Global,
    torn: Torn,
    call: u64,
) -> Result<Over<TestWire, CrashDisk>, OutOfMemory> {
    let (journal, outbox) = begun(alloc)?;
    let setup = setup_over(
        alloc,
        "script=spaced syncers=0",
        journal.as_slice(),
        outbox.as_slice(),
        call,
    )?;
    let (ports, bytes, fails) = ports_of(alloc, setup);
    let disk = CrashDisk::new(alloc, bytes, journal, fails, torn);
    Ok(beside(rt, alloc, ports, disk, &OpenGate))
}

/// The reports of a run with either document behind that: where the value isn't kept, and where it is. The Config of a text
/// that isn't in force any more has the next number.
fn reports(document: &str, is_kept: bool) -> &'static str {
    match (document, is_kept) {
        ("spaced", false) => {
            "Ok begun C1T2V3C4\nP|3-1|100.000000000|3|0|h|hot|hot\nstatus: Ok; entries: 4; problems: 1; recoveries: 0; messages: 0; outbox bytes: 34\n"
        }
        ("spaced", true) => {
            "Ok begun C1T2V3C4V5\nP|3-1|100.000000000|3|0|h|hot|hot\nR|3-1|5|100.000000000|e\nstatus: Ok; entries: 5; problems: 1; recoveries: 1; messages: 0; outbox bytes: 58\n"
        }
        ("one", false) => {
            "Ok begun C1T2V3\nP|3-1|100.000000000|3|0|h|hot|hot\nstatus: Ok; entries: 3; problems: 1; recoveries: 0; messages: 0; outbox bytes: 34\n"
        }
        ("changed once", false) => {
            "Ok begun C1T2V3C4C5\nP|3-1|100.000000000|3|0|h|hot|hot\nstatus: Ok; entries: 5; problems: 1; recoveries: 0; messages: 0; outbox bytes: 34\n"
        }
        _ => {
            "Ok begun C1T2V3C4V5C6\nP|3-1|100.000000000|3|0|h|hot|hot\nR|3-1|5|100.000000000|e\nstatus: Ok; entries: 6; problems: 1; recoveries: 1; messages: 0; outbox bytes: 58\n"
        }
    }
}

/// Whether the report of a run with this document is one that stands behind the changed one, of whose values so many were
/// answered.
fn is_expected(document: &str, answered: usize, report: &[u8]) -> bool {
    let is = |document: &str, is_kept: bool| report == reports(document, is_kept).as_bytes();
    is(document, true)
        || answered == 0 && (is(document, false) || document == "one" && is("changed once", false))
}

/// How a run with another text of the configuration went whose disk's call of this number was to fail, where a run with this
/// document stands behind the crash there.
fn reloaded_at<R: Threads + Wait + Sync>(
    rt: &R,
    alloc: Global,
    document: &str,
    torn: Torn,
    call: u64,
) -> Result<Went, OutOfMemory> {
    let crashed = reloaded_up_to(rt, alloc, torn, call)?;
    let answered = answered(crashed.wire.wire.sent().as_slice());
    let stop = stop_of(&crashed.ended.status, &Status::DiskFault);
    let setup = setup_behind(
        alloc,
        document,
        crashed.ended.disk.left.bytes().as_slice(),
        crashed.ended.outbox.bytes().as_slice(),
    );
    drop(crashed);
    let told = told_of(alloc, setup?)?;
    Ok(judged(is_expected(document, answered, told.as_slice()), stop))
}

/// How many calls of the disk a run with a changed text has, where each that fails ends it with DiskFault, and a crash there
/// leaves all that was answered, for either document.
fn calls_kept<R: Threads + Wait + Sync>(
    rt: &R,
    alloc: Global,
    document: &str,
    torn: Torn,
) -> Result<Option<u64>, OutOfMemory> {
    for before in 0..100u64 {
        match reloaded_at(rt, alloc, document, torn, before + 1)? {
            Went::Through => return Ok(Some(before)),
            Went::Kept => {}
            Went::Lost => return Ok(None),
        }
    }
    Ok(None)
}

/// Whether a run with a changed text has as many calls of the disk as are wanted, and a run with this document has what was
/// answered behind a crash at each of them.
fn is_kept<R: Threads + Wait + Sync>(
    rt: &R,
    alloc: Global,
    row: Row<'_>,
) -> Result<bool, OutOfMemory> {
    let Some(torn) = torn_of(row.kind) else {
        return Ok(false);
    };
    let calls = calls_kept(rt, alloc, row.input, torn)?;
    Ok(calls == Some(number(row.wanted)))
}

/// Each call of the disk of a run fails in turn whose configuration has another text than the one before, until none does: its
/// opening reads what is kept, adds a Config and syncs it. What a crash leaves there is opened with either document: it has the
/// answered value, the Config or neither, and each line once.
fn reloads() -> &'static str {
    "nothing | 15 | one\n\
    front | 15 | one\n\
    back | 15 | one\n\
    whole | 15 | one\n\
    filled with 1 | 15 | one\n\
    filled with 2 | 15 | one\n\
    nothing | 15 | spaced\n\
    front | 15 | spaced\n\
    back | 15 | spaced\n\
    whole | 15 | spaced\n\
    filled with 1 | 15 | spaced\n\
    filled with 2 | 15 | spaced"
}

#[test]
fn each_file_that_a_crash_leaves_of_a_reload_opens_with_either_document(
    rt: HostRuntime,
) -> Result<(), Fail> {
    for line in reloads().split('\n') {
        let is_kept = is_kept(&rt, rt.alloc(), row_of(line))?;
        assert!(rt; is_kept, "{line}");
    }
    Ok(())
}
