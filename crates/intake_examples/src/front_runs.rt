//! Runs of `intake_front` over a disk that may fail, their answers and what the disk keeps.

ghost use Rattle.std.specs.Prelude.{◌≡◌, IsTrue, IfOk};
ghost use Rattle.outside.specs.Disk.{silent, silent_lawful};
ghost use Rattle.intake_journal.specs.declared.state.State.TheVariants as state;
ghost use Rattle.intake_front.specs.Batch.{IsIdle};

use crate::front_misfits::{conf, second};
use crate::front_taking::{put_event, put_piece, tell_taken};
use crate::journal_files::count_all;
use crate::rows::{Row, number, numbers, row_of};
use conf_index::Ready;
use intake_front::{Answer, Collection, Front, FrontError, Stop};
use intake_journal::{Journal, LONGEST_JOURNAL};
use outside::{Disk, Failed, RamDisk, WireEvent};
use std::alloc::Global;
use std::convert::AsStr;
use std::test::Fail;
use zbx_types::{
    Bytes, Entry, LONGEST_DATA, Maintenance, Many, Moment, Numbered, OutOfMemory, Text,
    frame_header,
};

/// A disk in memory, of which so many writes and syncs succeed. It tells neither its bytes nor what a crash leaves.
#[derive(Drop)]
pub(crate) struct Frail {
    disk: RamDisk,
    calls: u32,
    faults: u64,
}

impl Disk for Frail {
    ghost tells = { λ m. silent m.faults };

    ghost lawful = { λ m. silent_lawful m.faults };

    fn faults(&self) -> u64 {
        self.faults
    }

    fn len(&mut self) -> Result<u64, Failed> {
        self.disk.len()
    }

    fn read(&mut self, at: u64, into: &mut [u8]) -> Result<usize, Failed> {
        self.disk.read(at, into)
    }

    fn write_at(&mut self, at: u64, piece: &[u8]) -> Result<(), Failed> {
        if self.calls > 0 && self.disk.write_at(at, piece).is_ok() {
            self.calls -= 1;
            return Ok(());
        }
        self.faults = self.faults.saturating_add(1);
        Err(Failed)
    }

    fn sync(&mut self) -> Result<(), Failed> {
        if self.calls > 0 && self.disk.sync().is_ok() {
            self.calls -= 1;
            return Ok(());
        }
        self.faults = self.faults.saturating_add(1);
        Err(Failed)
    }
}

/// Reads all groups of a journal, of which there are fewer than ten.
fn is_read(alloc: Global, journal: &mut Journal<Frail>) -> bool
    ensures { IsTrue result → journal.new.state ≡ state.Ready }
{
    for _ in 0..10 {
        match journal.read_next(alloc) {
            Ok(Some(_)) => {}
            Ok(None) => return true,
            Err(_) => return false,
        }
    }
    false
}

/// The intake over the journal on a disk, which keeps these entries.
pub(crate) fn opened(
    alloc: Global,
    ready: &Ready,
    disk: Frail,
    kept: Many<Numbered>,
    max_entries: u64,
) -> Result<Front<Frail>, FrontError>
    ensures going { IfOk result (λ f. f.journal.state ≡ state.Ready) }
    ensures idle { IfOk result (λ f. IsIdle f) }
{
    match Journal::recover(alloc, disk, max_entries, LONGEST_JOURNAL) {
        Ok(journal) => front_over(alloc, ready, journal, kept),
        Err(refused) => {
            drop(refused);
            drop(kept);
            Err(FrontError::OutOfMemory)
        }
    }
}

/// The intake over a journal of which nothing was read yet.
fn front_over(
    alloc: Global,
    ready: &Ready,
    journal: Journal<Frail>,
    kept: Many<Numbered>,
) -> Result<Front<Frail>, FrontError>
    ensures going { IfOk result (λ f. f.journal.state ≡ state.Ready) }
    ensures idle { IfOk result (λ f. IsIdle f) }
{
    let mut journal = journal;
    if !is_read(alloc, &mut journal) {
        drop((journal, kept));
        return Err(FrontError::OutOfMemory);
    }
    if journal.entries() != kept.as_slice().len() as u64 || journal.base().number != 0 {
        drop((journal, kept));
        return Err(FrontError::OutOfMemory);
    }
    match Front::new(alloc, ready, journal, kept) {
        Ok(front) => Ok(front),
        Err(unmade) => {
            let error = unmade.error;
            drop(unmade);
            Err(error)
        }
    }
}

/// The answer to two events, or to the first where no event follows it.
fn answer_after(
    alloc: Global,
    ready: &Ready,
    front: &mut Front<Frail>,
    first: &WireEvent,
    second: &WireEvent,
) -> Result<Answer, OutOfMemory>
    requires going { front.old.journal.state ≡ state.Ready }
    requires idle { IsIdle front.old }
{
    let answer = front.on_event(alloc, ready, first)?;
    if answer.stop.is_none() {
        drop(answer);
        return front.on_event(alloc, ready, second);
    }
    Ok(answer)
}

/// A frame of a request with one value, as a piece of a connection.
pub(crate) fn piece(
    alloc: Global,
    conn: u64,
    value: &[u8],
    at: Moment,
) -> Result<WireEvent, OutOfMemory> {
    let mut body = Bytes::of(alloc, REQUEST)?;
    body.extend(value)?;
    body.extend(b"\"}]}")?;
    let length = body.len().min(LONGEST_DATA as usize) as u32;
    let mut bytes = Bytes::of(alloc, &frame_header(length))?;
    bytes.extend(body.as_slice())?;
    Ok(WireEvent::Piece { conn, bytes, at })
}

/// What is behind a run's events: its disk, its entries, how many it lists, and the answer to the last event.
#[derive(Drop)]
struct Outcome {
    disk: Frail,
    entries: Many<Numbered>,
    listed: usize,
    answer: Result<Answer, OutOfMemory>,
}

/// What is behind the opening of connection 1 at 100 seconds and its piece.
fn run(
    alloc: Global,
    ready: &Ready,
    disk: Frail,
    kept: Many<Numbered>,
    max_entries: u64,
    piece: &WireEvent,
) -> Result<Outcome, FrontError> {
    let mut front = opened(alloc, ready, disk, kept, max_entries)?;
    let answer = answer_after(alloc, ready, &mut front, &opening(1), piece);
    let listed = front.entries().len();
    let (disk, entries) = front.end();
    Ok(Outcome {
        disk,
        entries,
        listed,
        answer,
    })
}

/// The configuration of one item with maintenances, made ready. It has no patterns, so only memory can be refused.
pub(crate) fn ready_with(
    alloc: Global,
    maintenances: Many<Maintenance>,
) -> Result<Ready, OutOfMemory> {
    let conf = conf(alloc, true, maintenances)?;
    Ready::build(alloc, conf).ok().ok_or(OutOfMemory)
}

/// The same without a maintenance, and with another text.
fn changed(alloc: Global) -> Result<Ready, OutOfMemory> {
    let mut conf = conf(alloc, true, Many::new(alloc))?;
    conf.text = Text::of(alloc, "b")?;
    Ready::build(alloc, conf).ok().ok_or(OutOfMemory)
}

/// A new disk, of which so many calls succeed.
pub(crate) fn new_disk(alloc: Global, calls: u32) -> Frail {
    Frail {
        disk: RamDisk::new(alloc),
        calls,
        faults: 0,
    }
}

/// What is behind a new run that was sent the value 10 at once.
fn new_run(
    alloc: Global,
    ready: &Ready,
    calls: u32,
    max_entries: u64,
) -> Result<Outcome, FrontError> {
    let piece = piece(alloc, 1, b"10", second(100))?;
    let disk = new_disk(alloc, calls);
    run(alloc, ready, disk, Many::new(alloc), max_entries, &piece)
}

/// What is behind a run that goes on with room for so many entries, and was sent the value 7 half a minute later.
fn next_run(
    alloc: Global,
    ready: &Ready,
    before: Outcome,
    max_entries: u64,
) -> Result<Outcome, FrontError> {
    let Outcome {
        disk,
        entries,
        listed: _,
        answer,
    } = before;
    drop(answer);
    match piece(alloc, 1, b"7", second(130)) {
        Ok(piece) => run(alloc, ready, disk, entries, max_entries, &piece),
        Err(OutOfMemory) => {
            drop((disk, entries));
            Err(FrontError::OutOfMemory)
        }
    }
}

/// Writes entries as their numbers and letters: a Config and its second, a Tick, or a value and its text.
fn write_entries(told: &mut Text, entries: &[Numbered]) -> Result<(), OutOfMemory> {
    for numbered in entries {
        told.push_decimal(numbered.number)?;
        match &numbered.entry {
            Entry::Config { now, .. } => {
                told.push_str("c")?;
                told.push_decimal(u64::from(now.sec))?;
                told.push_str(" ")?;
            }
            Entry::Tick { .. } => told.push_str("t ")?,
            Entry::Value { value, .. } => {
                told.push_str("v")?;
                told.push_str(value.as_str())?;
                told.push_str(" ")?;
            }
        }
    }
    Ok(())
}

/// Writes why no event follows.
fn write_stop(told: &mut Text, stop: Option<Stop>) -> Result<(), OutOfMemory> {
    match stop {
        None => Ok(()),
        Some(Stop::Closed) => told.push_str("closed "),
        Some(Stop::DiskFault) => told.push_str("fault "),
        Some(Stop::Full { entries, bytes }) => {
            told.push_str("full ")?;
            told.push_decimal(entries)?;
            told.push_str(" ")?;
            told.push_decimal(bytes)?;
            told.push_str(" ")
        }
    }
}

/// Writes an answer: what it added, which connection it shuts, why it stops, and its reply.
fn write_answer(told: &mut Text, answer: &Answer) -> Result<(), OutOfMemory> {
    told.push_str("added ")?;
    write_entries(told, answer.added.as_slice())?;
    if let Some(conn) = answer.shut {
        told.push_str("shut ")?;
        told.push_decimal(conn)?;
        told.push_str(" ")?;
    }
    write_stop(told, answer.stop)?;
    match &answer.reply {
        Some(reply) => told.push_str(str::from_utf8(reply.bytes.as_slice()).unwrap_or("?")),
        None => Ok(()),
    }
}

/// Writes how many entries there are, all of them, and the answer to the last event.
fn write_outcome(told: &mut Text, outcome: &Outcome) -> Result<(), OutOfMemory> {
    told.push_decimal(outcome.listed as u64)?;
    told.push_str(": ")?;
    write_entries(told, outcome.entries.as_slice())?;
    match &outcome.answer {
        Ok(answer) => write_answer(told, answer),
        Err(OutOfMemory) => Err(OutOfMemory),
    }
}

/// What a run comes to, or why it didn't begin.
fn tell(alloc: Global, outcome: Result<Outcome, FrontError>) -> Result<Text, OutOfMemory> {
    let mut told = Text::new(alloc);
    let written = match &outcome {
        Ok(outcome) => write_outcome(&mut told, outcome),
        Err(FrontError::Full { entries, bytes }) => write_stop(
            &mut told,
            Some(Stop::Full {
                entries: *entries,
                bytes: *bytes,
            }),
        ),
        Err(FrontError::DiskFault) => write_stop(&mut told, Some(Stop::DiskFault)),
        Err(FrontError::OutOfMemory) => Err(OutOfMemory),
    };
    drop(outcome);
    written?;
    Ok(told)
}

/// What a new run tells, of whose disk so many calls succeed, and which has room for so many entries.
fn tell_new(alloc: Global, ready: &Ready, input: (u64, u64)) -> Result<Text, OutOfMemory> {
    let (calls, max_entries) = input;
    tell(
        alloc,
        new_run(alloc, ready, calls.min(100) as u32, max_entries),
    )
}

/// What a run tells that goes on behind a new one, with room for so many entries.
fn tell_next(
    alloc: Global,
    ready: &Ready,
    next: &Ready,
    max_entries: u64,
) -> Result<Text, OutOfMemory> {
    match new_run(alloc, ready, 100, 5) {
        Ok(before) => tell(alloc, next_run(alloc, next, before, max_entries)),
        Err(_) => Err(OutOfMemory),
    }
}

/// The same where the run that goes on has a configuration of another text.
fn tell_changed(alloc: Global, ready: &Ready, max_entries: u64) -> Result<Text, OutOfMemory> {
    let next = changed(alloc)?;
    let told = tell_next(alloc, ready, &next, max_entries);
    drop(next);
    told
}

/// The opening of a connection at 100 seconds.
pub(crate) fn opening(conn: u64) -> WireEvent {
    WireEvent::Opened {
        conn,
        at: second(100),
    }
}

/// What events are answered with that are taken together.
pub(crate) fn take_all(
    alloc: Global,
    ready: &Ready,
    front: &mut Front<Frail>,
    events: &[WireEvent],
) -> Result<Many<Answer>, OutOfMemory>
    requires { front.old.journal.state ≡ state.Ready }
{
    let mut collection = Collection::new(ready);
    for event in events {
        front.take(alloc, &mut collection, event)?;
    }
    Ok(front.commit(alloc))
}

/// The opening of connection 2, a value of each connection, and the end of the wire.
fn four_events(alloc: Global) -> Result<Many<WireEvent>, OutOfMemory> {
    let mut events = Many::new(alloc);
    put_event(&mut events, opening(2))?;
    put_piece(alloc, &mut events, 1, b"10", 100)?;
    put_piece(alloc, &mut events, 2, b"7", 100)?;
    put_event(&mut events, WireEvent::Closed { at: second(100) })?;
    Ok(events)
}

/// What four events are answered with that are committed together, behind the opening of connection 1.
fn answers_behind(
    alloc: Global,
    ready: &Ready,
    front: &mut Front<Frail>,
    events: &[WireEvent],
) -> Result<Many<Answer>, OutOfMemory>
    requires going { front.old.journal.state ≡ state.Ready }
    requires idle { IsIdle front.old }
{
    let first = front.on_event(alloc, ready, &opening(1))?;
    if first.stop.is_none() {
        return take_all(alloc, ready, front, events);
    }
    let mut answers = Many::new(alloc);
    answers.push(first)?;
    Ok(answers)
}

/// How many groups a disk keeps, and 10 where its journal isn't read.
fn groups_kept(alloc: Global, disk: RamDisk) -> u64 {
    let disk = Frail {
        disk,
        calls: 100,
        faults: 0,
    };
    match Journal::recover(alloc, disk, 9, LONGEST_JOURNAL) {
        Ok(journal) => groups_left(alloc, journal),
        Err(refused) => {
            drop(refused);
            10
        }
    }
}

/// How many groups a journal gives, and 10 where it isn't read to its end.
fn groups_left(alloc: Global, journal: Journal<Frail>) -> u64 {
    let mut journal = journal;
    let counted = count_all(alloc, &mut journal);
    drop(journal);
    match counted {
        Ok((groups, _)) => groups,
        Err(_) => 10,
    }
}

/// A run's disk and entries behind events that were committed together, and the answers.
#[derive(Drop)]
struct Together {
    disk: Frail,
    entries: Many<Numbered>,
    answers: Result<Many<Answer>, OutOfMemory>,
}

/// What is behind four events that are committed together in a new run over a disk.
fn run_together(
    alloc: Global,
    ready: &Ready,
    events: &[WireEvent],
    disk: Frail,
) -> Result<Together, FrontError> {
    let mut front = opened(alloc, ready, disk, Many::new(alloc), 9)?;
    let answers = answers_behind(alloc, ready, &mut front, events);
    let (disk, entries) = front.end();
    Ok(Together {
        disk,
        entries,
        answers,
    })
}

/// The same over a new disk, of which so many calls succeed.
fn run_over(alloc: Global, ready: &Ready, calls: u32) -> Result<Together, FrontError> {
    let events = four_events(alloc)?;
    run_together(alloc, ready, events.as_slice(), new_disk(alloc, calls))
}

/// Writes so many groups, entries, and answers.
fn write_all(
    told: &mut Text,
    kept: u64,
    entries: &[Numbered],
    answers: &[Answer],
) -> Result<(), OutOfMemory> {
    told.push_decimal(kept)?;
    told.push_str(": ")?;
    write_entries(told, entries)?;
    for answer in answers {
        told.push_str("then ")?;
        write_answer(told, answer)?;
    }
    Ok(())
}

/// Writes what four events that were committed together came to: how many groups the disk keeps, the entries, and the
/// answers.
fn write_together(alloc: Global, told: &mut Text, together: Together) -> Result<(), OutOfMemory> {
    let Together {
        disk,
        entries,
        answers,
    } = together;
    let kept = groups_kept(alloc, disk.disk);
    let written = match &answers {
        Ok(answers) => write_all(told, kept, entries.as_slice(), answers.as_slice()),
        Err(OutOfMemory) => Err(OutOfMemory),
    };
    drop((entries, answers));
    written
}

/// What a new run over a disk of which so many calls succeed tells of four events that are committed together. A minus
/// stands for a run that didn't begin.
fn tell_together(alloc: Global, ready: &Ready, calls: u64) -> Result<Text, OutOfMemory> {
    let mut told = Text::new(alloc);
    match run_over(alloc, ready, calls.min(100) as u32) {
        Ok(together) => write_together(alloc, &mut told, together)?,
        Err(_) => told.push_str("-")?,
    }
    Ok(told)
}

/// How many groups the disk keeps behind such a run, by how many calls succeed, from none to 16.
fn tell_kept(alloc: Global, ready: &Ready) -> Result<Text, OutOfMemory> {
    let mut kept = Text::new(alloc);
    for calls in 0u64..17 {
        let told = tell_together(alloc, ready, calls)?;
        kept.push_str(told.as_str().get(..1).unwrap_or("?"))?;
    }
    Ok(kept)
}

const REQUEST: &[u8] =
    b"{\"request\":\"sender data\",\"data\":[{\"host\":\"h\",\"key\":\"k\",\"value\":\"";

/// What comes of a case over the configuration without a maintenance.
fn answer_of(alloc: Global, ready: &Ready, row: Row<'_>) -> Result<Text, OutOfMemory> {
    match row.kind {
        "new" => tell_new(alloc, ready, numbers(row.input)),
        "behind another" => tell_next(alloc, ready, ready, 5),
        "behind another text" => tell_changed(alloc, ready, number(row.input)),
        "together" => tell_together(alloc, ready, number(row.input)),
        "groups kept" => tell_kept(alloc, ready),
        _ => Text::of(alloc, "no such kind"),
    }
}

/// What comes of a case.
fn answer(alloc: Global, row: Row<'_>) -> Result<Text, OutOfMemory> {
    match row.kind {
        "without collection" => tell_taken(alloc, false, row.input),
        "with collection" => tell_taken(alloc, true, row.input),
        _ => {
            let ready = ready_with(alloc, Many::new(alloc))?;
            let told = answer_of(alloc, &ready, row);
            drop(ready);
            told
        }
    }
}

/// First a new run that is sent a value, and one that goes on behind it: numbers go on in a journal that is opened again.
/// A configuration of the same text isn't journaled again; one of another text is, at the moment of the last entry, where
/// there is room for it.
///
/// Then runs whose disk has no room or fails. What isn't kept counts as failed, and stops the run. The journal's beginning
/// takes three calls, and each append four. A configuration that isn't kept is told.
///
/// Then four events that are committed together, or not at all: seven calls are for the journal with its configuration, and
/// four each for the Tick and for what is committed together. Where the last sync fails, the disk keeps what is answered as
/// refused.
///
/// Last, values before and in a maintenance, by the seconds of two values and what stands behind the second one's quote:
/// one that is in force refuses those that come in it, whatever their clocks say, unless it collects.
fn cases() -> &'static str {
    "new | 3: 1c0 2t 3v10 added 3v10 shut 1 ZBXD\x01\x5a\0\0\0\0\0\0\0\
    {\"response\":\"success\",\"info\":\"processed: 1; failed: 0; total: 1; seconds spent: 0.000000\"} | 100 3\n\
    behind another | 5: 1c0 2t 3v10 4t 5v7 added 4t 5v7 shut 1 ZBXD\x01\x5b\0\0\0\0\0\0\0\
    {\"response\":\"success\",\"info\":\"processed: 1; failed: 0; total: 1; seconds spent: 30.000000\"}\n\
    behind another text | 6: 1c0 2t 3v10 4c100 5t 6v7 added 5t 6v7 shut 1 ZBXD\x01\x5b\0\0\0\0\0\0\0\
    {\"response\":\"success\",\"info\":\"processed: 1; failed: 0; total: 1; seconds spent: 30.000000\"} | 6\n\
    behind another text | full 4 108  | 3\n\
    new | 2: 1c0 2t added shut 1 full 3 85 ZBXD\x01\x5a\0\0\0\0\0\0\0\
    {\"response\":\"success\",\"info\":\"processed: 0; failed: 1; total: 1; seconds spent: 0.000000\"} | 100 2\n\
    new | 2: 1c0 2t added shut 1 fault ZBXD\x01\x5a\0\0\0\0\0\0\0\
    {\"response\":\"success\",\"info\":\"processed: 0; failed: 1; total: 1; seconds spent: 0.000000\"} | 11 3\n\
    new | 1: 1c0 added fault  | 9 3\n\
    new | full 1 31  | 100 0\n\
    new | fault  | 5 3\n\
    groups kept | -------1112222444\n\
    together | 4: 1c0 2t 3v10 4v7 then added then added 3v10 shut 1 ZBXD\x01\x5a\0\0\0\0\0\0\0\
    {\"response\":\"success\",\"info\":\"processed: 1; failed: 0; total: 1; seconds spent: 0.000000\"}\
    then added 4v7 shut 2 ZBXD\x01\x5a\0\0\0\0\0\0\0\
    {\"response\":\"success\",\"info\":\"processed: 1; failed: 0; total: 1; seconds spent: 0.000000\"}\
    then added closed  | 15\n\
    together | 2: 1c0 2t then added then added shut 1 fault ZBXD\x01\x5a\0\0\0\0\0\0\0\
    {\"response\":\"success\",\"info\":\"processed: 0; failed: 1; total: 1; seconds spent: 0.000000\"} | 11\n\
    together | 4: 1c0 2t then added then added shut 1 fault ZBXD\x01\x5a\0\0\0\0\0\0\0\
    {\"response\":\"success\",\"info\":\"processed: 0; failed: 1; total: 1; seconds spent: 0.000000\"} | 14\n\
    without collection | Ok(1) | 999 999, 7\n\
    without collection | Ok(0) | 999 1000, 7\n\
    without collection | Ok(0) | 1000 1299, 7\",\"clock\":\"999\n\
    without collection | Ok(1) | 1299 1300, 7\",\"clock\":\"1299\n\
    with collection | Ok(1) | 999 1000, 7"
}

#[test]
fn what_is_taken_is_kept_answered_and_numbered(rt: HostRuntime) -> Result<(), Fail> {
    for line in cases().split('\n') {
        let row = row_of(line);
        let told = answer(rt.alloc(), row)?;
        assert_eq!(rt; told.as_str(), row.wanted, "{line}");
    }
    Ok(())
}
